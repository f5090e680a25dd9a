// The printed rows, gathered in a buffer that is written out when it has no room for another row. How far it is filled
// stays within it, which the type says.
#![tactic(auto)]

ghost use Rattle.std.specs.Prelude.{◌+◌, ◌≤◌, ◌≡◌};
ghost use Rattle.grammar.specs.Row.{insert_row, remove_row, lookup_row, error_row, slot_row};
ghost use Rattle.grammar.specs.Row.{stash_row, book_row, row_room};
ghost use Rattle.writing.specs.Written.{Written};
ghost use Rattle.printing.specs.Place.{place_for};

use rows::ROW_ROOM;

pub mod listing;

// The bytes of the buffer.
pub const ROOM: usize = 4096;

// The rows that are not written out yet, the first `count` bytes of the buffer, and whether a write has failed. From then
// on rows are put into the buffer and never written: behind a gap they could be taken for the answers to other lines.
#[derive(Clone, Copy)]
pub struct Printer {
    bytes: [u8; ROOM],
    count: usize,
    lost: bool,
    ghost within: { count ≤ 4096 },
}

impl Printer {
    pub fn new() -> Printer
        ensures { result.count ≡ 0 }
    {
        Printer {
            bytes: [0; ROOM],
            count: 0,
            lost: false,
        }
    }

    // Whether a write has failed.
    pub fn is_lost(&self) -> bool
        ensures { result ≡ self.now.lost }
    {
        self.lost
    }

    // Writes out what the buffer holds, unless rows are lost. The console ends with status 0 all the same, so the write
    // that fails is told on standard error; none follows it, so there is one line of it in a run.
    pub fn flush(&mut self, rt: &(impl Print + Eprint + Alloc))
        ensures emptied { self.new.count ≡ 0 }
        ensures kept { self.new.bytes ≡ self.old.bytes }
    {
        if !self.lost {
            if let Err(error) = rt.write_all(&self.bytes[..self.count]) {
                complaint::tell(rt, "standard output", error);
                self.lost = true;
            }
        }
        self.count = 0;
    }

    // Room for the next row: the buffer is written out first if it has none.
    fn make_room(&mut self, rt: &(impl Print + Eprint + Alloc))
        ensures roomy { self.new.count + row_room ≤ 4096 }
        ensures at { self.new.count ≡ place_for self.old.count }
        ensures kept { self.new.bytes ≡ self.old.bytes }
    {
        if ROOM - ROW_ROOM < self.count {
            self.flush(rt);
        }
    }

    pub fn insert(&mut self, rt: &(impl Print + Eprint + Alloc), key: u32, tier: u32, answer: u32)
        ensures { Written (insert_row key tier answer) self.old.bytes (place_for self.old.count)
            self.new.bytes self.new.count }
    {
        self.make_room(rt);
        self.count = rows::put_insert(&mut self.bytes, self.count, key, tier, answer);
    }

    pub fn remove(&mut self, rt: &(impl Print + Eprint + Alloc), key: u32, answer: u32)
        ensures { Written (remove_row key answer) self.old.bytes (place_for self.old.count)
            self.new.bytes self.new.count }
    {
        self.make_room(rt);
        self.count = rows::put_remove(&mut self.bytes, self.count, key, answer);
    }

    pub fn lookup(
        &mut self,
        rt: &(impl Print + Eprint + Alloc),
        key: u32,
        looked: Result<Option<u32>, u32>,
    )
        ensures { Written (lookup_row key looked) self.old.bytes (place_for self.old.count)
            self.new.bytes self.new.count }
    {
        self.make_room(rt);
        self.count = rows::put_lookup(&mut self.bytes, self.count, key, looked);
    }

    pub fn error(&mut self, rt: &(impl Print + Eprint + Alloc), line: u64)
        ensures { Written (error_row line) self.old.bytes (place_for self.old.count)
            self.new.bytes self.new.count }
    {
        self.make_room(rt);
        self.count = rows::put_error(&mut self.bytes, self.count, line);
    }

    pub fn slot(
        &mut self,
        rt: &(impl Print + Eprint + Alloc),
        table: u32,
        slot: u32,
        key: u32,
        next: u32,
        tier: u32,
    )
        ensures { Written (slot_row table slot key next tier) self.old.bytes (place_for self.old.count)
            self.new.bytes self.new.count }
    {
        self.make_room(rt);
        self.count = rows::put_slot(&mut self.bytes, self.count, table, slot, key, next, tier);
    }

    pub fn stashed(&mut self, rt: &(impl Print + Eprint + Alloc), key: u32, tier: u32)
        ensures { Written (stash_row key tier) self.old.bytes (place_for self.old.count)
            self.new.bytes self.new.count }
    {
        self.make_room(rt);
        self.count = rows::put_stashed(&mut self.bytes, self.count, key, tier);
    }

    fn no_book(&mut self, rt: &(impl Print + Eprint + Alloc))
        ensures { Written book_row self.old.bytes (place_for self.old.count)
            self.new.bytes self.new.count }
    {
        self.make_room(rt);
        self.count = rows::put_no_book(&mut self.bytes, self.count);
    }
}

// The one row of a run without a book.
pub fn print_no_book(rt: &(impl Print + Eprint + Alloc)) {
    let mut printer = Printer::new();
    printer.no_book(rt);
    printer.flush(rt);
}

// The one row of a run whose line 1 is absent, refused or of another form.
pub fn print_no_sizes(rt: &(impl Print + Eprint + Alloc)) {
    let mut printer = Printer::new();
    printer.error(rt, 1);
    printer.flush(rt);
}
