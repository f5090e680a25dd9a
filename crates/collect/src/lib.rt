// The keys that stand in given words, ascending, in scratch: the words that are not blank are gathered, sorted, and
// doubles are dropped. A key comes to the word of its rank, counted from 1: word 0 is 0, since "no key" has rank 0. The
// words need only the shape of a dictionary: whether they are canonical is found out later, from these keys.
#![tactic(auto)]

ghost use Rattle.std.specs.Prelude.{◌≡◌, cond, ◌∷◌, ◌++◌, ◌+◌, ◌*◌, ◌≤◌, ◌<◌, length, take};
ghost use Rattle.ordered.specs.Keys.{sorted, distinct};
ghost use Rattle.hashing.specs.Hash.{blank};
ghost use Rattle.layout.specs.Layout.{slots_of, places_of, key_words, keys_in};
ghost use Rattle.layout.specs.Shape.{Shaped};
ghost use Rattle.records.specs.Columns.{picked};
ghost use Rattle.collect.specs.Collect.{non_blank};

use access::stash_start;
use layout::{HEADER_LENGTH, PLACE_WIDTH, SLOT_WIDTH};
use ordered::drop_doubles;
use ranges::is_blank;
use sorting::sort;
use words::wide;

// 1 for a key, 0 for a blank word: a number, so that the end of what is gathered moves by it without a branch.
fn keeps(word: u32) -> usize
    ensures { (result ≡ cond (blank word) 0 1) × (result ≤ 1) }
{
    usize::from(!is_blank(word))
}

// Of `count` words from `from` on, each `step` after the one before, those that are not blank come behind the first `n`
// words of scratch. The answer is how many words these are then. Each word is written, and overwritten by the next if
// it is blank: nothing branches on the words.
fn gather(
    words: &[u32],
    from: usize,
    step: usize,
    count: usize,
    scratch: &mut [u32],
    n: usize,
) -> usize
    requires { (0 < step) × (from + step * count ≤ length words.now) × (n + count ≤ length scratch.old) }
    ensures front { take result scratch.new ≡ take n scratch.old
        ++ non_blank (picked words.now from step count) }
    ensures counted { result ≡ n + length (non_blank (picked words.now from step count)) }
{
    let mut end = n;
    let mut at = from;
    for _ in 0..count {
        let word = words[at];
        scratch[end] = word;
        end += keeps(word);
        at += step;
    }
    end
}

// Word 0 of scratch is 0, and behind it come the key words of the slots, then those of the stash, without blank ones.
// The answer is how many they are.
fn gather_keys(words: &[u32], scratch: &mut [u32]) -> usize
    requires { Shaped words.now × (2 * slots_of words.now + places_of words.now + 1 ≤ length scratch.old) }
    ensures front { take (result + 1) scratch.new ≡ 0 ∷ non_blank (key_words words.now) }
    ensures counted { result ≡ length (non_blank (key_words words.now)) }
{
    let header = access::read_header(words);
    let slots = 2 * wide(header.slots);
    let places = wide(header.places);
    scratch[0] = 0;
    let n = gather(words, HEADER_LENGTH, SLOT_WIDTH, slots, scratch, 1);
    let end = gather(
        words,
        stash_start(header.slots),
        PLACE_WIDTH,
        places,
        scratch,
        n,
    );
    end - 1
}

// The set of the first n keys: ascending at their front, each once. The answer is how many they are. The words behind
// the n are free to be used.
pub fn make_set(keys: &mut [u32], n: usize) -> usize
    requires { n ≤ length keys.old }
    ensures front { take result keys.new ≡ distinct (sorted (take n keys.old)) }
    ensures counted { result ≡ length (distinct (sorted (take n keys.old))) }
{
    sort(keys, n);
    drop_doubles(&mut keys[..n])
}

// The keys that stand in the words come to scratch behind a word 0, ascending, each once. The answer is how many they
// are. What was in scratch has no effect.
pub fn collect_keys(words: &[u32], scratch: &mut [u32]) -> usize
    requires { Shaped words.now × (2 * slots_of words.now + places_of words.now + 1 ≤ length scratch.old) }
    ensures front { take (result + 1) scratch.new ≡ 0 ∷ keys_in words.now }
    ensures counted { result ≡ length (keys_in words.now) }
{
    let n = gather_keys(words, scratch);
    make_set(&mut scratch[1..], n)
}
