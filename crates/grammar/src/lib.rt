// What the console reads and prints, as definitions and laws, apart from the code: `fields`, `forms` and `lines` have
// that of reading, `writing` and `rows` that of printing. A wrong definition is refused in seconds here.
#![tactic(auto)]

// What ends a line, and what parts two fields.
pub const NEWLINE: u8 = b'\n';

pub const COMMA: u8 = b',';

// The bytes of the longest line of a known form, "4294967295,4294967295,4294967295".
pub const LONGEST: usize = 32;

// Line 1, read.
#[derive(Clone, Copy)]
pub struct Sizes {
    pub r: u32,
    pub s: u32,
    pub station: u32,
}

// Any line but line 1, read: A,key,tier  W,key  L,key
#[derive(Clone, Copy)]
pub enum Command {
    Insert(u32, u32),
    Remove(u32),
    Lookup(u32),
}
