// The console: book.bin and the lines of standard input in, rows on standard output. The forms of a line are those of
// `lines`, the rows those of `rows`, the calls those of `counting` and `lookup`; here is only the reading and writing.
#![tactic(auto)]

mod session;

ghost use Rattle.std.specs.Prelude.{◌≤◌, length, ◌≡◌};
ghost use Rattle.book.specs.Bytes.{entries_of};
ghost use Rattle.layout.specs.Layout.{words_length};
ghost use Rattle.layout.specs.Shape.{Sized};

use counters::Counters;
use grammar::{LONGEST, NEWLINE, Sizes};
use layout::{MAX_SCRATCH, MAX_WORDS};
use lines::Line;
use printing::Printer;
use ranges::TABULATION_LENGTH;
use session::Session;
use std::fs::File;
use std::io::Read;
use std::rt::Files;

// The bytes of a book.
const BOOK_BYTES: usize = 5120;

// Reads book.bin, and says whether it could be read and has as many bytes as a book: one byte more would be a longer
// file.
fn read_book(rt: &impl Files, bytes: &mut [u8; BOOK_BYTES]) -> bool {
    let Ok(mut file) = File::open(rt, "book.bin") else {
        return false;
    };
    let mut more = [0u8; 1];
    let full = file.read_exact(bytes).is_ok();
    let rest = file.read(&mut more).unwrap_or(0);
    full && rest == 0
}

fn decode(bytes: &[u8; BOOK_BYTES], tabulation: &mut [u16; TABULATION_LENGTH])
    ensures { tabulation.new ≡ entries_of bytes.now }
{
    book::decode(bytes, tabulation);
}

// A byte of standard input. A read that fails ends the input.
fn read_byte(input: &mut impl Read) -> Option<u8> {
    let mut byte = [0u8; 1];
    input.read_exact(&mut byte).ok()?;
    Some(byte[0])
}

// Line 1. It is read byte by byte, so that nothing behind it is taken, and no further than to see that it is too long
// for a known form.
fn first_line(input: &mut impl Read) -> Line {
    let mut line = Line::new();
    for _ in 0..=LONGEST {
        let read = read_byte(&mut *input);
        let Some(byte) = read else {
            break;
        };
        if byte == NEWLINE {
            break;
        }
        line.push(byte);
    }
    line
}

// The run on words of the right length: they are laid fresh, the lines are answered, and the listing follows.
fn run(
    rt: &(impl Print + Eprint + Alloc),
    input: &mut impl Read,
    tabulation: &[u16],
    words: &mut [u32],
    scratch: &mut [u32],
    sizes: Sizes,
) {
    let none = Counters {
        done: 0,
        refused: 0,
    };
    let laid = counting::init(&mut *words, sizes.r, sizes.s, sizes.station, none);
    if laid.answer != 0 {
        printing::print_no_sizes(rt);
        return;
    }
    let mut printer = Printer::new();
    let mut session = Session::new(
        tabulation,
        &mut *words,
        scratch,
        laid.counters,
        &mut printer,
    );
    session.serve(rt, input);
    printing::listing::list(rt, &*words, &mut printer);
    printer.flush(rt);
}

// The run on as many of the words as these sizes need.
fn run_part(
    rt: &(impl Print + Eprint + Alloc),
    input: &mut impl Read,
    tabulation: &[u16],
    words: &mut [u32],
    scratch: &mut [u32],
    sizes: Sizes,
)
    requires { Sized sizes.r sizes.s × (words_length sizes.r sizes.s ≤ length words.old) }
{
    let end = access::length_for(sizes.r, sizes.s);
    run(rt, input, tabulation, &mut words[..end], scratch, sizes);
}

// Words and scratch for the largest sizes. Whether there is such a station is left to init.
fn run_sized(
    rt: &(impl Print + Eprint + Alloc),
    input: &mut impl Read,
    tabulation: &[u16; TABULATION_LENGTH],
    sizes: Sizes,
) {
    if !access::are_sizes(sizes.r, sizes.s) {
        printing::print_no_sizes(rt);
        return;
    }
    let mut words = [0u32; MAX_WORDS];
    let mut scratch = [0u32; MAX_SCRATCH];
    run_part(rt, input, tabulation, &mut words, &mut scratch, sizes);
}

fn main(rt: HostRuntime) {
    let mut bytes = [0u8; BOOK_BYTES];
    if !read_book(&rt, &mut bytes) {
        printing::print_no_book(&rt);
        return;
    }
    let mut tabulation = [0u16; TABULATION_LENGTH];
    decode(&bytes, &mut tabulation);
    let mut input = rt.stdin();
    match first_line(&mut input).sizes() {
        Some(sizes) => run_sized(&rt, &mut input, &tabulation, sizes),
        None => printing::print_no_sizes(&rt),
    }
}
