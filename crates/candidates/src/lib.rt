// The candidates for a salvage: the keys that count in words that were damaged, gathered in scratch behind a word 0, in
// word order; and how many slots and places hold a number at all. The words need only the shape of a dictionary.
#![tactic(auto)]

ghost use Rattle.std.specs.Prelude.{◌≡◌, cond, ◌∷◌, ◌++◌, map, ◌+◌, ◌*◌, ◌≤◌, ◌<◌, length, take};
ghost use Rattle.basics.specs.Sets.{keep};
ghost use Rattle.cuckoo.specs.Placement.{slot};
ghost use Rattle.hashing.specs.Hash.{tables, Hashing};
ghost use Rattle.layout.specs.Layout.{max_places, place_width, slots_of, places_of, station_of, place_entries};
ghost use Rattle.layout.specs.Layout.{spots, spot_key};
ghost use Rattle.layout.specs.Shape.{Shaped};
ghost use Rattle.records.specs.Columns.{picked};
ghost use Rattle.survivors.specs.Salvage.{own_place, counts, counting, occupied};
ghost use Rattle.survivors.specs.Looked.{sound};
ghost use Rattle.candidates.specs.Candidates.{entry_of, slots_counting, places_counting, non_zero};

use access::{key_in, slot_tier, stash_start};
use layout::{HEADER_LENGTH, MAX_TIER, PLACE_WIDTH, SLOT_WIDTH};
use ranges::is_blank;
use slots::{first_slot, second_slot};
use words::wide;

// Whether a key and its tier are in their ranges.
pub fn is_sound(key: u32, tier: u32) -> bool
    ensures { result ≡ sound (entry_of key tier) }
{
    !is_blank(key) && tier <= MAX_TIER
}

// Whether slot v is one of the key's own two. The slots of table 0 come first, so that one hash tells.
fn is_own(tabulation: &[u16], r: u32, station: u32, v: u32, key: u32) -> bool
    requires { Hashing tabulation.now r station }
    ensures { result ≡ own_place (tables tabulation.now r station) (slot v) key }
{
    if v < r {
        v == first_slot(tabulation, r, station, key)
    } else {
        v == second_slot(tabulation, r, station, key)
    }
}

// Whether this key and this tier count in slot v. A key is hashed only if it is sound.
fn counts_in_slot(tabulation: &[u16], r: u32, station: u32, v: u32, key: u32, tier: u32) -> bool
    requires { Hashing tabulation.now r station }
    ensures { result ≡ counts (tables tabulation.now r station)
        (record { at = slot v; entry = entry_of key tier }) }
{
    is_sound(key, tier) && is_own(tabulation, r, station, v, key)
}

// The keys that count in the slots come behind word 0 of scratch, in their order. The answer is where they end.
fn gather_slots(
    tabulation: &[u16],
    words: &[u32],
    scratch: &mut [u32],
    r: u32,
    station: u32,
) -> usize
    requires { Hashing tabulation.now r station × (Shaped words.now × (r ≡ slots_of words.now))
        × (2 * r + 1 ≤ length scratch.old) }
    ensures front { take result scratch.new ≡ take 1 scratch.old
        ++ slots_counting (tables tabulation.now r station) words.now 0 (r + r) }
    ensures counted { result ≡ 1
        + length (slots_counting (tables tabulation.now r station) words.now 0 (r + r)) }
{
    let mut end = 1;
    for v in 0..2 * r {
        let key = key_in(words, v);
        let tier = slot_tier(words, v);
        scratch[end] = key;
        end += usize::from(counts_in_slot(tabulation, r, station, v, key, tier));
    }
    end
}

// The keys that count in `count` places of the stash come behind the first n words of scratch.
fn gather_places(places: &[u32], count: usize, scratch: &mut [u32], n: usize) -> usize
    requires { (length places.now ≡ place_width * count) × (count ≤ max_places)
        × (n + count ≤ length scratch.old) }
    ensures front { take result scratch.new ≡ take n scratch.old
        ++ places_counting (place_entries count places.now) }
    ensures counted { result ≡ n + length (places_counting (place_entries count places.now)) }
{
    let mut end = n;
    for i in 0..count {
        let key = places[PLACE_WIDTH * i];
        let tier = places[PLACE_WIDTH * i + 1];
        scratch[end] = key;
        end += usize::from(is_sound(key, tier));
    }
    end
}

// All keys that count come to scratch behind a word 0, in word order, copies and issues too. The answer is how many
// they are.
pub fn gather_counting(
    tabulation: &[u16],
    words: &[u32],
    scratch: &mut [u32],
    r: u32,
    s: u32,
    station: u32,
) -> usize
    requires { (Hashing tabulation.now r station × (Shaped words.now
        × ((r ≡ slots_of words.now) × ((s ≡ places_of words.now) × (station ≡ station_of words.now)))))
        × (2 * r + s + 1 ≤ length scratch.old) }
    ensures front { take (result + 1) scratch.new
        ≡ 0 ∷ map spot_key (counting tabulation.now words.now) }
    ensures counted { result ≡ length (counting tabulation.now words.now) }
{
    scratch[0] = 0;
    let start = stash_start(r);
    let count = wide(s);
    let n = gather_slots(tabulation, words, scratch, r, station);
    let end = gather_places(
        &words[start..start + PLACE_WIDTH * count],
        count,
        scratch,
        n,
    );
    end - 1
}

// How many of `count` words from `from` on, each `step` after the one before, are not 0. By an index: of `step_by` std
// has no law, and the chain's one goal did not close.
fn occupied_from(words: &[u32], from: usize, step: usize, count: usize) -> usize
    requires { (0 < step) × (from + step * count ≤ length words.now) }
    ensures { (result ≡ length (non_zero (picked words.now from step count))) × (result ≤ count) }
{
    let mut total = 0;
    for i in 0..count {
        if words[from + step * i] != 0 {
            total += 1;
        }
    }
    total
}

// How many slots and places hold a number other than 0.
pub fn count_occupied(words: &[u32], r: u32, s: u32) -> usize
    requires { Shaped words.now × ((r ≡ slots_of words.now) × (s ≡ places_of words.now)) }
    ensures { (result ≡ length (keep occupied (spots words.now))) × (result ≤ 2 * r + s) }
{
    let slots = occupied_from(words, HEADER_LENGTH, SLOT_WIDTH, 2 * wide(r));
    let places = occupied_from(words, stash_start(r), PLACE_WIDTH, wide(s));
    slots + places
}
