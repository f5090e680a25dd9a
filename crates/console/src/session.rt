// The lines after the first: each is answered by a row when its newline, or the end of the input, is read. Byte by byte
// this is a `Run` of lines/specs/Stream.antt, whose law (lines/proofs/Stream.antt) says that these are the lines of the
// input, and all of them, unless a row cannot be written.

ghost use Rattle.std.specs.Prelude.{◌≡◌};
ghost use Rattle.grammar.specs.Row.{number, values};
ghost use Rattle.layout.specs.Answers.{lookup_refusal, lookup_values};

use counters::Counters;
use grammar::{Command, NEWLINE};
use lines::{Line, next_number};
use printing::Printer;
use std::io::Read;

// The bytes that a read of the input takes at most.
const PIECE: usize = 65536;

// What the calls work on, the rows that answer the lines so far, and the line that is being read with its number.
#[derive(Drop)]
pub struct Session<'a> {
    tabulation: &'a [u16],
    words: &'a mut [u32],
    scratch: &'a mut [u32],
    counters: Counters,
    printer: &'a mut Printer,
    line: Line,
    number: u64,
}

// What a lookup answers, with the number of a refusal, which a row prints.
fn looked_up(tabulation: &[u16], words: &[u32], key: u32) -> Result<Option<u32>, u32>
    ensures numbered { number result ≡ lookup_refusal tabulation.now words.now key }
    ensures valued { values result ≡ lookup_values tabulation.now words.now key }
{
    let looked = lookup::lookup(tabulation, words, key)?;
    Ok(looked)
}

impl<'a> Session<'a> {
    // Before line 2.
    pub fn new(
        tabulation: &'a [u16],
        words: &'a mut [u32],
        scratch: &'a mut [u32],
        counters: Counters,
        printer: &'a mut Printer,
    ) -> Session<'a> {
        Session {
            tabulation,
            words,
            scratch,
            counters,
            printer,
            line: Line::new(),
            number: 2,
        }
    }

    // A function of its own, since the borrow checker does not cover the call within `answer`.
    fn looked_up(&self, key: u32) -> Result<Option<u32>, u32> {
        looked_up(self.tabulation, self.words, key)
    }

    // A whole line.
    fn answer(&mut self, rt: &(impl Print + Eprint + Alloc)) {
        match self.line.command() {
            Some(Command::Insert(key, tier)) => {
                let counted = counting::insert(
                    self.tabulation,
                    self.words,
                    self.scratch,
                    self.counters,
                    key,
                    tier,
                );
                self.counters = counted.counters;
                self.printer.insert(rt, key, tier, counted.answer);
            }
            Some(Command::Remove(key)) => {
                let counted = counting::remove(
                    self.tabulation,
                    self.words,
                    self.scratch,
                    self.counters,
                    key,
                );
                self.counters = counted.counters;
                self.printer.remove(rt, key, counted.answer);
            }
            Some(Command::Lookup(key)) => {
                let looked = self.looked_up(key);
                self.printer.lookup(rt, key, looked);
            }
            None => self.printer.error(rt, self.number),
        }
    }

    // One byte of the input.
    fn take_byte(&mut self, rt: &(impl Print + Eprint + Alloc), byte: u8) {
        if byte != NEWLINE {
            self.line.push(byte);
            return;
        }
        self.answer(rt);
        self.line = Line::new();
        self.number = next_number(self.number);
    }

    // One read of the input, and whether to go on. The rows are written out after it, so that a person at the bench
    // sees the answer to a line before typing the next. A read that fails ends the input, and so do rows that are
    // lost: nobody would see an answer.
    fn turn(&mut self, rt: &(impl Print + Eprint + Alloc), input: &mut impl Read) -> bool {
        let mut bytes = [0u8; PIECE];
        let n = input.read(&mut bytes).unwrap_or(0);
        if n == 0 {
            return false;
        }
        for byte in &bytes[..n] {
            self.take_byte(rt, *byte);
        }
        self.printer.flush(rt);
        !self.printer.is_lost()
    }

    // The lines from line 2 on, the last one with or without its newline. Where rows are lost, what is taken for the
    // last one may be a part of a line: its row is not written. Nothing says that an input ends, so the turns are
    // counted, up to a number that no run reaches.
    pub fn serve(&mut self, rt: &(impl Print + Eprint + Alloc), input: &mut impl Read) {
        for _ in 0..u64::MAX {
            if !self.turn(rt, &mut *input) {
                break;
            }
        }
        if !self.line.is_empty() {
            self.answer(rt);
        }
    }
}
