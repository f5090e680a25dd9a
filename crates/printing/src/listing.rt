// The listing at the end: a row for each filled slot in order, then a row for each stashed key.
ghost use Rattle.std.specs.Prelude.{◌≤◌, length};

use crate::Printer;
use layout::{PLACE_WIDTH, SLOT_WIDTH};
use words::wide;

// The filled slots of one table.
fn list_table(rt: &(impl Print + Eprint + Alloc), slots: &[u32], table: u32, printer: &mut Printer)
    requires { length slots.now ≤ 3072 }
{
    let count = (slots.len() / SLOT_WIDTH) as u32;
    for slot in 0..count {
        let held = access::slot_in(slots, wide(slot));
        if held.key != 0 {
            printer.slot(rt, table, slot, held.key, held.next, held.tier);
        }
    }
}

// The filled places of the stash.
fn list_stash(rt: &(impl Print + Eprint + Alloc), places: &[u32], printer: &mut Printer) {
    for place in places.chunks_exact(PLACE_WIDTH) {
        printer.stashed(rt, place[0], place[1]);
    }
}

// The slots of both tables, then the stash. Words that do not have the shape of a dictionary have no listing.
pub fn list(rt: &(impl Print + Eprint + Alloc), words: &[u32], printer: &mut Printer) {
    if !access::is_shaped(words) {
        return;
    }
    list_table(rt, access::table_0(words), 0, printer);
    list_table(rt, access::table_1(words), 1, printer);
    list_stash(rt, lookup::stash(words), printer);
}
