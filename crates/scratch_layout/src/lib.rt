// Where the parts of scratch begin, and their words read and written one by one: build/specs/Scratch.antt in code. The
// steps of the build share it, and whoever reads what it leaves.
#![tactic(auto)]

ghost use Rattle.std.specs.Prelude.{◌≡◌, ◌+◌, ◌*◌, ◌≤◌, ◌<◌, get_or, set};
ghost use Rattle.forest.specs.Edges.{edge_at};
ghost use Rattle.forest.specs.Graph.{edges_in};
ghost use Rattle.build.specs.Scratch.{held_at, edges_at, stashed_at, sets_at, next_at};
ghost use Rattle.build.specs.Scratch.{parts, with_stash, with_sets, with_next};
ghost use Rattle.build.specs.Access.{Enough};

use std::ops::Range;
use words::wide;

// A note has the smallest rank of the forest, and this times the one that closes the cycle: ranks are smaller.
pub const PAIR_BASE: u32 = 4_096;

pub fn held_start(r: u32, s: u32) -> usize
    requires { (r ≤ 1024) × (s ≤ 64) }
    ensures { result ≡ held_at r s }
{
    wide(2 * r + s + 1)
}

pub fn edges_start(r: u32, s: u32) -> usize
    requires { (r ≤ 1024) × (s ≤ 64) }
    ensures { result ≡ edges_at r s }
{
    wide(4 * r + s + 1)
}

pub fn stashed_start(r: u32, s: u32) -> usize
    requires { (r ≤ 1024) × (s ≤ 64) }
    ensures { result ≡ stashed_at r s }
{
    wide(6 * r + 2 * s + 1)
}

pub fn sets_start(r: u32, s: u32) -> usize
    requires { (r ≤ 1024) × (s ≤ 64) }
    ensures { result ≡ sets_at r s }
{
    wide(6 * r + 3 * s + 1)
}

pub fn next_start(r: u32, s: u32) -> usize
    requires { (r ≤ 1024) × (s ≤ 64) }
    ensures { result ≡ next_at r s }
{
    wide(8 * r + 3 * s + 1)
}

// Where the graph of n ranks lies: what the slots hold, and then the edges.
pub fn graph_range(r: u32, s: u32, n: usize) -> Range<usize>
    requires { (r ≤ 1024) × (s ≤ 64) × (n ≤ 2 * r + s) }
    ensures { (result.start ≡ held_at r s) × (result.end ≡ edges_at r s + n) }
{
    held_start(r, s)..edges_start(r, s) + n
}

pub fn sets_range(r: u32, s: u32) -> Range<usize>
    requires { (r ≤ 1024) × (s ≤ 64) }
    ensures { (result.start ≡ sets_at r s) × (result.end ≡ next_at r s) }
{
    sets_start(r, s)..next_start(r, s)
}

// The edge of a rank.
pub fn edge(scratch: &[u32], r: u32, s: u32, n: usize, rank: u32) -> u32
    requires { Enough r s n scratch.now × (0 < rank) × (rank ≤ n) }
    ensures { result ≡ edge_at r (edges_in r (parts r s n scratch.now).graph) rank }
{
    let at = edges_start(r, s) + wide(rank) - 1;
    scratch[at]
}

// The word of a rank: its mark, then its label, then its next.
pub fn word(scratch: &[u32], r: u32, s: u32, n: usize, rank: u32) -> u32
    requires { Enough r s n scratch.now × (rank ≤ n) }
    ensures { result ≡ get_or (parts r s n scratch.now).next rank 0 }
{
    let at = next_start(r, s) + wide(rank);
    scratch[at]
}

pub fn put_word(scratch: &mut [u32], r: u32, s: u32, n: usize, rank: u32, word: u32)
    requires { Enough r s n scratch.old × (rank ≤ n) }
    ensures { parts r s n scratch.new ≡ with_next (parts r s n scratch.old)
        (set (parts r s n scratch.old).next rank word) }
{
    let at = next_start(r, s) + wide(rank);
    scratch[at] = word;
}

// What is noted at a label, in the words of the sets.
pub fn note(scratch: &[u32], r: u32, s: u32, n: usize, label: u32) -> u32
    requires { Enough r s n scratch.now × (label < 2 * r) }
    ensures { result ≡ get_or (parts r s n scratch.now).sets label 0 }
{
    let at = sets_start(r, s) + wide(label);
    scratch[at]
}

pub fn put_note(scratch: &mut [u32], r: u32, s: u32, n: usize, label: u32, note: u32)
    requires { Enough r s n scratch.old × (label < 2 * r) }
    ensures { parts r s n scratch.new ≡ with_sets (parts r s n scratch.old)
        (set (parts r s n scratch.old).sets label note) }
{
    let at = sets_start(r, s) + wide(label);
    scratch[at] = note;
}

// The rank in a place of the stash.
pub fn put_stashed(scratch: &mut [u32], r: u32, s: u32, n: usize, place: u32, rank: u32)
    requires { Enough r s n scratch.old × (place < s) }
    ensures { parts r s n scratch.new ≡ with_stash (parts r s n scratch.old)
        (set (parts r s n scratch.old).stash place rank) }
{
    let at = stashed_start(r, s) + wide(place);
    scratch[at] = rank;
}
