// The lines that the console prints, its rows: their bytes, written into a lent slice at a position; the answer is
// where the next row goes. Nothing is printed or allocated here. Every promise is `Written` with a definition of
// `grammar`.
#![tactic(auto)]

ghost use Rattle.std.specs.Prelude.{◌+◌, ◌≤◌, length};
ghost use Rattle.grammar.specs.Row.{answer_row, insert_row, remove_row, lookup_row};
ghost use Rattle.grammar.specs.Row.{error_row, slot_row, stash_row, book_row, row_room};
ghost use Rattle.writing.specs.Written.{Written};

use grammar::{COMMA, NEWLINE};
use writing::{put_byte, put_field, put_long, put_word};

// Every row that is printed fits into so many bytes. Each function asks for them itself, since it takes any slice at any
// position, and no type of ours.
pub const ROW_ROOM: usize = 57;

// A letter, a key and a number: its answer, or its tier. The letter is printed, and no step is chosen by it.
fn put_answer(out: &mut [u8], at: usize, letter: u8, key: u32, answer: u32) -> usize
    requires { at + row_room ≤ length out.old }
    ensures written { Written (answer_row letter key answer) out.old at out.new result }
    ensures short { result ≤ at + row_room }
{
    let second = put_byte(&mut *out, at, letter);
    let third = put_field(&mut *out, second, key);
    let end = put_field(&mut *out, third, answer);
    put_byte(&mut *out, end, NEWLINE)
}

// A,key,tier,answer
pub fn put_insert(out: &mut [u8], at: usize, key: u32, tier: u32, answer: u32) -> usize
    requires { at + row_room ≤ length out.old }
    ensures written { Written (insert_row key tier answer) out.old at out.new result }
    ensures short { result ≤ at + row_room }
{
    let second = put_byte(&mut *out, at, b'A');
    let third = put_field(&mut *out, second, key);
    let fourth = put_field(&mut *out, third, tier);
    let end = put_field(&mut *out, fourth, answer);
    put_byte(&mut *out, end, NEWLINE)
}

// W,key,answer
pub fn put_remove(out: &mut [u8], at: usize, key: u32, answer: u32) -> usize
    requires { at + row_room ≤ length out.old }
    ensures written { Written (remove_row key answer) out.old at out.new result }
    ensures short { result ≤ at + row_room }
{
    put_answer(out, at, b'W', key, answer)
}

// L,key,R and the number of the refusal
fn put_refused(out: &mut [u8], at: usize, key: u32, refusal: u32) -> usize
    requires { at + row_room ≤ length out.old }
    ensures written { Written (lookup_row key (Err refusal)) out.old at
        out.new result }
    ensures short { result ≤ at + row_room }
{
    let second = put_byte(&mut *out, at, b'L');
    let third = put_field(&mut *out, second, key);
    let letter = put_byte(&mut *out, third, COMMA);
    let number = put_byte(&mut *out, letter, b'R');
    let end = put_word(&mut *out, number, refusal);
    put_byte(&mut *out, end, NEWLINE)
}

// L,key,N
fn put_absent(out: &mut [u8], at: usize, key: u32) -> usize
    requires { at + row_room ≤ length out.old }
    ensures written { Written (lookup_row key (Ok None)) out.old at out.new result }
    ensures short { result ≤ at + row_room }
{
    let second = put_byte(&mut *out, at, b'L');
    let third = put_field(&mut *out, second, key);
    let letter = put_byte(&mut *out, third, COMMA);
    let end = put_byte(&mut *out, letter, b'N');
    put_byte(&mut *out, end, NEWLINE)
}

// L,key,tier  L,key,N  or a refusal: any number, as the other rows take any answer
#[tactic(auto, unfolding(grammar::specs::Row::lookup_row))]
pub fn put_lookup(out: &mut [u8], at: usize, key: u32, looked: Result<Option<u32>, u32>) -> usize
    requires { at + row_room ≤ length out.old }
    ensures written { Written (lookup_row key looked) out.old at out.new result }
    ensures short { result ≤ at + row_room }
{
    match looked {
        Ok(Some(tier)) => put_answer(out, at, b'L', key, tier),
        Ok(None) => put_absent(out, at, key),
        Err(refusal) => put_refused(out, at, key, refusal),
    }
}

// E,line number
pub fn put_error(out: &mut [u8], at: usize, line: u64) -> usize
    requires { at + row_room ≤ length out.old }
    ensures written { Written (error_row line) out.old at out.new result }
    ensures short { result ≤ at + row_room }
{
    let second = put_byte(&mut *out, at, b'E');
    let number = put_byte(&mut *out, second, COMMA);
    let end = put_long(&mut *out, number, line);
    put_byte(&mut *out, end, NEWLINE)
}

// P,table,slot,key,next,tier
pub fn put_slot(
    out: &mut [u8],
    at: usize,
    table: u32,
    slot: u32,
    key: u32,
    next: u32,
    tier: u32,
) -> usize
    requires { at + row_room ≤ length out.old }
    ensures written { Written (slot_row table slot key next tier) out.old at
        out.new result }
    ensures short { result ≤ at + row_room }
{
    let second = put_byte(&mut *out, at, b'P');
    let third = put_field(&mut *out, second, table);
    let fourth = put_field(&mut *out, third, slot);
    let fifth = put_field(&mut *out, fourth, key);
    let sixth = put_field(&mut *out, fifth, next);
    let end = put_field(&mut *out, sixth, tier);
    put_byte(&mut *out, end, NEWLINE)
}

// D,key,tier
pub fn put_stashed(out: &mut [u8], at: usize, key: u32, tier: u32) -> usize
    requires { at + row_room ≤ length out.old }
    ensures written { Written (stash_row key tier) out.old at out.new result }
    ensures short { result ≤ at + row_room }
{
    put_answer(out, at, b'D', key, tier)
}

// B, for a book that is missing or of another length
pub fn put_no_book(out: &mut [u8], at: usize) -> usize
    requires { at + row_room ≤ length out.old }
    ensures written { Written book_row out.old at out.new result }
    ensures short { result ≤ at + row_room }
{
    let end = put_byte(&mut *out, at, b'B');
    put_byte(&mut *out, end, NEWLINE)
}
