// The line that the console reads, so far, in bounded memory, and what it says when it is whole. Nothing is read or
// allocated here. Every promise speaks of `Buffers`: which bytes were read.
#![tactic(auto)]

ghost use Rattle.std.specs.Prelude.{◌+◌, min, ◌≡◌};

use forms::{command_of, sizes_of};
use grammar::{Command, LONGEST, Sizes};

// A count that says that there were more bytes than the longest line of a known form has.
const TOO_LONG: usize = LONGEST + 1;

// The bytes of the current line so far, up to the longest line of a known form, and how many there are, up to one more
// than that.
#[derive(Clone, Copy)]
pub struct Line {
    bytes: [u8; LONGEST],
    count: usize,
}

// The number of the next line; the last one that there is room for stays.
pub fn next_number(line: u64) -> u64
    ensures { result ≡ min (line + 1) 18446744073709551615 }
{
    line.saturating_add(1)
}

impl Line {
    ghost use Rattle.std.specs.Prelude.{ℕ, ◌<◌, ◌≡◌, List, [], ◌∷◌, ◌++◌, eqb, length, MatchOption};
    ghost use Rattle.grammar.specs.Command.{longest, command_of};
    ghost use Rattle.grammar.specs.Sizes.{sizes_of};
    ghost use Rattle.lines.specs.Buffer.{Buffers};

    // A line of which nothing was read yet.
    pub fn new() -> Line
        ensures { Buffers result [] }
    {
        Line {
            bytes: [0; LONGEST],
            count: 0,
        }
    }

    // One byte more of the line: any byte but a newline, which ends it.
    pub fn push(&mut self, byte: u8)
        ensures { (l : List ℕ) → Buffers self.old l → Buffers self.new (l ++ (byte ∷ [])) }
    {
        if self.count < LONGEST {
            self.bytes[self.count] = byte;
            self.count += 1;
        } else {
            self.count = TOO_LONG;
        }
    }

    // Whether nothing of the line was read yet: at the end of the input, that there is no line.
    pub fn is_empty(&self) -> bool
        ensures { (l : List ℕ) → Buffers self.now l → result ≡ eqb (length l) 0 }
    {
        self.count == 0
    }

    // The bytes, unless there are too many for any known form.
    fn text(&self) -> Option<&[u8]>
        ensures { (l : List ℕ) → Buffers self.now l → MatchOption result (longest < length l) (λ text. text.now ≡ l) }
    {
        self.bytes.get(..self.count)
    }

    // What the line says, however long it was: line 1, and any other.
    pub fn sizes(&self) -> Option<Sizes>
        ensures { (l : List ℕ) → Buffers self.now l → result ≡ sizes_of l }
    {
        sizes_of(self.text()?)
    }

    pub fn command(&self) -> Option<Command>
        ensures { (l : List ℕ) → Buffers self.now l → result ≡ command_of l }
    {
        command_of(self.text()?)
    }
}
