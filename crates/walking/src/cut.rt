// From the keys that a walk met to the trail: the root is the smallest since the walk first came to the slot where it
// stands, and the trail ends where the root is first met (specs/Cut.antt).
ghost use Rattle.std.specs.Prelude.{◌≡◌, ◌++◌, ◌-◌, ◌≤◌, ◌<◌, length, drop, replicate};
ghost use Rattle.walking.specs.Cut.{SmallestIn, Stands, First, Cut, Stretch, Met, met_keys, first_visit};

use words::{fill, wide};

// The smallest of some keys.
fn smallest(keys: &[u32]) -> u32
    requires { 0 < length keys.now }
    ensures { SmallestIn keys.now result }
{
    keys.iter().copied().min().unwrap()
}

// The first place of a key that is there.
fn find(keys: &[u32], key: u32) -> usize
    requires { Stands keys.now key }
    ensures { First keys.now key result }
{
    keys.iter().position(|x| *x == key).unwrap()
}

// The keys that a walk met: a part of scratch.
pub fn met(scratch: &[u32], r: u32, steps: u32) -> &[u32]
    requires { Stretch r scratch.now steps }
    ensures { result.now ≡ met_keys r scratch.now steps }
{
    let start = 2 * wide(r);
    let end = start + wide(steps);
    &scratch[start..end]
}

// How many of them are the trail.
pub fn cut(scratch: &[u32], r: u32, slot: u32, steps: u32) -> usize
    requires { Met r scratch.now steps slot }
    ensures { Cut (met_keys r scratch.now steps) (first_visit scratch.now slot) result }
{
    let keys = met(scratch, r, steps);
    let back = wide(scratch[wide(slot)]) - 1;
    let root = smallest(&keys[back..]);
    find(keys, root) + 1
}

// Keys over the first words, the others as they are. By an index: the library needs nothing of C but `memset`, and std's
// `copy_from_slice` needs `memmove`.
fn copy(words: &mut [u32], keys: &[u32])
    requires { length keys.now ≤ length words.old }
    ensures { words.new ≡ keys.now ++ drop (length keys.now) words.old }
{
    for i in 0..keys.len() {
        words[i] = keys[i];
    }
}

// Keys, and zeros behind them.
pub fn write_keys(words: &mut [u32], keys: &[u32])
    requires { length keys.now ≤ length words.old }
    ensures { words.new ≡ keys.now
        ++ replicate (length words.old - length keys.now) 0 }
{
    fill(words, 0);
    copy(words, keys);
}
