// The walk through the words by which a trail is found: out of a slot, along the key in it, into that key's slot in the
// other table, until it comes to a slot where it was. Scratch notes the visits and the keys (specs/Walk.antt).
ghost use Rattle.std.specs.Prelude.{◌≡◌, not, ◌&&◌, ◌+◌, ◌≤◌, ◌<◌, ◌%◌, eqb, length, get_or, replicate};
ghost use Rattle.hashing.specs.Hash.{Hashing};
ghost use Rattle.layout.specs.Layout.{slots_of};
ghost use Rattle.layout.specs.Shape.{Shaped};
ghost use Rattle.walking.specs.Walk.{key_of, across, with_visit, run_length, Readable, New, Onward, Closed};

use access::key_in;
use slots::{first_slot, second_slot};
use words::wide;

// The most steps of one run. A run of steps is calls in calls, which all lie on the stack, so it ends after a few of
// them, and the loop of `walk` goes on from there.
pub const RUN: u32 = 16;

// Where a walk stands: the slot, and the steps that led there.
#[derive(Drop)]
pub struct Stand {
    pub slot: u32,
    pub steps: u32,
}

// A slot is noted as visited after so many steps, with its key, which is given back.
fn visit(words: &[u32], scratch: &mut [u32], r: u32, slot: u32, steps: u32) -> u32
    requires { (Shaped words.now × (r ≡ slots_of words.now)) × New r scratch.old steps slot }
    ensures held { result ≡ key_of words.now slot }
    ensures marked { scratch.new ≡ with_visit r slot steps result scratch.old }
{
    let key = key_in(words, slot);
    scratch[wide(slot)] = steps + 1;
    scratch[2 * wide(r) + wide(steps)] = key;
    key
}

// Whether a run goes on in a slot: it is not yet visited, and the run has steps left.
fn goes_on(scratch: &[u32], slot: u32, steps: u32) -> bool
    requires { slot < length scratch.now }
    ensures { result ≡ (eqb (get_or scratch.now slot 0) 0 && not (eqb (steps % run_length) 0)) }
{
    scratch[wide(slot)] == 0 && steps % RUN != 0
}

// The step out of table 0: the slot is visited, and the walk goes on in table 1, in the other slot of its key. The two
// steps stay functions that call one another, and no loop over one: that form is asked of this project.
#[cycle(out_of_0_out_of_1)]
fn out_of_0(
    tabulation: &[u16],
    words: &[u32],
    scratch: &mut [u32],
    r: u32,
    station: u32,
    slot: u32,
    steps: u32,
) -> Stand
    requires { (Readable tabulation.now words.now r station × New r scratch.old steps slot) × (slot < r) }
    ensures { Onward (across tabulation.now words.now) (key_of words.now) r
        scratch.old steps slot scratch.new result.steps result.slot }
{
    let key = visit(words, scratch, r, slot, steps);
    let next = second_slot(tabulation, r, station, key);
    if goes_on(scratch, next, steps + 1) {
        return out_of_1(tabulation, words, scratch, r, station, next, steps + 1);
    }
    Stand {
        slot: next,
        steps: steps + 1,
    }
}

// The step out of table 1, and on in table 0.
#[cycle(out_of_0_out_of_1)]
fn out_of_1(
    tabulation: &[u16],
    words: &[u32],
    scratch: &mut [u32],
    r: u32,
    station: u32,
    slot: u32,
    steps: u32,
) -> Stand
    requires { (Readable tabulation.now words.now r station × New r scratch.old steps slot) × (r ≤ slot) }
    ensures { Onward (across tabulation.now words.now) (key_of words.now) r
        scratch.old steps slot scratch.new result.steps result.slot }
{
    let key = visit(words, scratch, r, slot, steps);
    let next = first_slot(tabulation, r, station, key);
    if goes_on(scratch, next, steps + 1) {
        return out_of_0(tabulation, words, scratch, r, station, next, steps + 1);
    }
    Stand {
        slot: next,
        steps: steps + 1,
    }
}

// A run of steps, out of whichever table the slot is of.
fn run(
    tabulation: &[u16],
    words: &[u32],
    scratch: &mut [u32],
    r: u32,
    station: u32,
    slot: u32,
    steps: u32,
) -> Stand
    requires { Readable tabulation.now words.now r station × New r scratch.old steps slot }
    ensures { Onward (across tabulation.now words.now) (key_of words.now) r
        scratch.old steps slot scratch.new result.steps result.slot }
{
    if slot < r {
        out_of_0(tabulation, words, scratch, r, station, slot, steps)
    } else {
        out_of_1(tabulation, words, scratch, r, station, slot, steps)
    }
}

// The walk from a slot on, over scratch that is zeros, until it comes to a slot where it was: a `while`, since scratch
// says when that is, and no count does.
pub fn walk(
    tabulation: &[u16],
    words: &[u32],
    scratch: &mut [u32],
    r: u32,
    station: u32,
    start: u32,
) -> Stand
    requires { (Readable tabulation.now words.now r station × (start < r + r))
        × ((r + r + (r + r) ≤ length scratch.old) × (scratch.old ≡ replicate (length scratch.old) 0)) }
    ensures { Closed (across tabulation.now words.now) (key_of words.now) start
        r scratch.new result.steps result.slot }
{
    let mut at = Stand {
        slot: start,
        steps: 0,
    };
    while scratch[wide(at.slot)] == 0 {
        at = run(tabulation, words, scratch, r, station, at.slot, at.steps);
    }
    at
}
