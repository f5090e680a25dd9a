// The set in scratch, its keys from word 1 on and their edges: where a key or another issue of it stands, and a key put
// in or taken out. Both columns move together, at the same place. Issues of one first part are neighbours in ascending
// order, so none is searched for.
#![tactic(auto)]

ghost use Rattle.std.specs.Prelude.{◌≡◌, ◌+◌, ◌*◌, ◌≤◌, ◌<◌, length};
ghost use Rattle.basics.specs.Sets.{member, Asc};
ghost use Rattle.ordered.specs.Keys.{lower_bound};
ghost use Rattle.hashing.specs.Hash.{tables, Hashing};
ghost use Rattle.layout.specs.Entries.{max_tier};
ghost use Rattle.layout.specs.Layout.{ValidKeys, another_issue, one_issue};
ghost use Rattle.layout.specs.Answers.{found};
ghost use Rattle.build.specs.Scratch.{edges_at, used};
ghost use Rattle.scratch_set.specs.Edges.{edge_with};
ghost use Rattle.scratch_set.specs.Members.{keys_at, KeyPlaced, tier_placed, looked_in, put_at, taken_out};

use edge_column::edge_given;
use ordered::{lower_bound, shift_in, shift_out};
use ranges::first_part;
use scratch_layout::edges_start;

pub mod edge_column;

// How many of the n keys are smaller than `key`: its place, if it is there, and the place where it belongs, if not.
pub fn place_of(scratch: &[u32], n: usize, key: u32) -> usize
    requires { (n < length scratch.now) × Asc (keys_at n scratch.now) }
    ensures { result ≡ lower_bound (keys_at n scratch.now) key }
{
    let end = n + 1;
    lower_bound(&scratch[1..end], key)
}

// Whether a key is one of the n; `at` is its place.
pub fn is_at(scratch: &[u32], n: usize, at: usize, key: u32) -> bool
    requires { ((n < length scratch.now) × Asc (keys_at n scratch.now))
        × (at ≡ lower_bound (keys_at n scratch.now) key) }
    ensures { result ≡ member key (keys_at n scratch.now) }
{
    at < n && scratch[at + 1] == key
}

// Whether no two of the n keys are issues of one first part. No key has the first part 0.
pub fn one_issue(scratch: &[u32], n: usize) -> bool
    requires { (n < length scratch.now) × ValidKeys (keys_at n scratch.now) }
    ensures { result ≡ one_issue (keys_at n scratch.now) }
{
    let mut last = 0;
    for i in 0..n {
        let part = first_part(scratch[i + 1]);
        if part == last {
            return false;
        }
        last = part;
    }
    true
}

// Whether another issue of a key is one of the n, which are one issue of each first part; `at` is its place. It stands
// before that place or at it; before the first key stands word 0, whose first part no key has.
pub fn other_issue(scratch: &[u32], n: usize, at: usize, key: u32) -> bool
    requires { KeyPlaced scratch.now n at key }
    ensures { result ≡ another_issue key (keys_at n scratch.now) }
{
    let part = first_part(key);
    if first_part(scratch[at]) == part {
        return true;
    }
    if n <= at {
        return false;
    }
    let next = scratch[at + 1];
    if next == key {
        return false;
    }
    first_part(next) == part
}

// The tier of the key at place `at`.
pub fn tier_at(scratch: &[u32], r: u32, s: u32, at: usize) -> u32
    requires { ((r ≤ 1024) × (s ≤ 64)) × (edges_at r s + at < length scratch.now) }
    ensures { result ≡ tier_placed r s at scratch.now }
{
    let start = edges_start(r, s);
    edges::tier(scratch[start + at])
}

// What a lookup says of a key, by the set in scratch: its tier, or that it is not there; `at` is its place.
pub fn look(scratch: &[u32], r: u32, s: u32, n: usize, at: usize, key: u32) -> Option<u32>
    requires { (((n < length scratch.now) × Asc (keys_at n scratch.now))
        × (at ≡ lower_bound (keys_at n scratch.now) key))
        × (((r ≤ 1024) × (s ≤ 64)) × (edges_at r s + n ≤ length scratch.now)) }
    ensures { found result ≡ looked_in r s n at key scratch.now }
{
    if is_at(scratch, n, at, key) {
        return Some(tier_at(scratch, r, s, at));
    }
    None
}

// A key and its edge come to place `at` of n keys.
pub fn put_key(
    tabulation: &[u16],
    scratch: &mut [u32],
    r: u32,
    s: u32,
    station: u32,
    n: usize,
    at: usize,
    key: u32,
    tier: u32,
)
    requires { ((Hashing tabulation.now r station × (tier ≤ max_tier)) × (s ≤ 64))
        × ((at ≤ n) × ((n < 2 * r + s) × (used r s ≤ length scratch.old))) }
    ensures { scratch.new ≡ put_at r s n at key
        (edge_with (tables tabulation.now r station) key tier) scratch.old }
{
    let edge = edge_given(tabulation, r, station, key, tier);
    let start = edges_start(r, s);
    shift_in(scratch, at + 1, n + 1, key);
    shift_in(scratch, start + at, start + n, edge);
}

// The key at place `at` of n keys goes, and its edge.
pub fn take_key(scratch: &mut [u32], r: u32, s: u32, n: usize, at: usize)
    requires { ((r ≤ 1024) × (s ≤ 64)) × ((at < n) × ((n ≤ 2 * r + s) × (used r s ≤ length scratch.old))) }
    ensures { scratch.new ≡ taken_out r s n at scratch.old }
{
    let start = edges_start(r, s);
    shift_out(scratch, at + 1, n + 1);
    shift_out(scratch, start + at, start + n);
}
