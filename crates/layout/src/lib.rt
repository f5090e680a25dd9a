// How a dictionary lies in words, as definitions and laws, with the constants and the structs that go with them. The
// code that reads and writes words stands apart: `access` has that of the heading, slots, lengths, the shape and fresh
// words, `lookup` that of lookup and the stash view, `collect` and `image` that of whole dictionaries. A wrong
// definition is refused in seconds here.
#![tactic(auto)]

// The words before the slots: r, s, the number of keys, the number of stashed keys and the station number.
pub const HEADER_LENGTH: usize = 5;

// The words of a slot: its key, its next, its tier.
pub const SLOT_WIDTH: usize = 3;

// The words of a stash place: its key, its tier.
pub const PLACE_WIDTH: usize = 2;

// The largest tier.
pub const MAX_TIER: u32 = 7;

// The most places of a stash.
pub const MAX_PLACES: u32 = 64;

// The words that the largest dictionary has, with r = 1,024, and the scratch that its calls ask for.
pub const MAX_WORDS: usize = HEADER_LENGTH + SLOT_WIDTH * 2048 + PLACE_WIDTH * MAX_PLACES as usize;

pub const MAX_SCRATCH: usize = 12 * 1024 + 8 * MAX_PLACES as usize;

// The heading of a dictionary: r, s, the number of keys, the number of stashed keys and the station number.
#[derive(Clone, Copy)]
pub struct Header {
    pub slots: u32,
    pub places: u32,
    pub keys: u32,
    pub stashed: u32,
    pub station: u32,
}

// A slot: its key, its next number and its tier, zeros where it is empty.
#[derive(Clone, Copy)]
pub struct Slot {
    pub key: u32,
    pub next: u32,
    pub tier: u32,
}
