// The layout in code: the heading, the slots, lengths, the shape test and fresh words. Nobody
// counts words but by what stands here and the constants of `layout`. Each function promises what a definition of
// layout/specs says.
#![tactic(auto)]

ghost use Rattle.std.specs.Prelude.{◌≡◌, ◌&&◌, ◌++◌, ◌+◌, ◌*◌, ◌≤◌, ◌<◌, eqb, length, get_or, take, drop};
ghost use Rattle.refusals.specs.Answer.{number};
ghost use Rattle.hashing.specs.Hash.{max_slots};
ghost use Rattle.layout.specs.Layout.{header_of, header_words, header_length, with_keys, with_stashed};
ghost use Rattle.layout.specs.Layout.{slot_width, slots_of};
ghost use Rattle.layout.specs.Layout.{sizes_in_range, params_in_range, shaped, words_length};
ghost use Rattle.layout.specs.Layout.{scratch_length, key_at, stash_at, tier_at, slot_entry};
ghost use Rattle.layout.specs.Shape.{Sized, Shaped};
ghost use Rattle.layout.specs.Answers.{fresh_refusal, fresh_header, fresh_words};

use layout::{HEADER_LENGTH, Header, MAX_PLACES, PLACE_WIDTH, SLOT_WIDTH, Slot};
use refusals::Refusal;
use words::{fill, wide};

// Whether r and s are in their ranges.
pub fn are_sizes(r: u32, s: u32) -> bool
    ensures { result ≡ sizes_in_range r s }
{
    ranges::in_range(r) && s <= MAX_PLACES
}

// Whether r, s and the station number are in their ranges.
pub fn are_params(r: u32, s: u32, station: u32) -> bool
    ensures { result ≡ params_in_range r s station }
{
    are_sizes(r, s) && ranges::is_station(station)
}

// Whether words of this length can be laid as a dictionary with this r, s and station.
pub fn is_target(len: usize, r: u32, s: u32, station: u32) -> bool
    ensures { result ≡ (params_in_range r s station && eqb len (words_length r s)) }
{
    are_params(r, s, station) && len == length_for(r, s)
}

// The heading of words that are long enough to have one.
pub fn read_header(words: &[u32]) -> Header
    requires { header_length ≤ length words.now }
    ensures { result ≡ header_of words.now }
{
    Header {
        slots: words[0],
        places: words[1],
        keys: words[2],
        stashed: words[3],
        station: words[4],
    }
}

// Writes the heading. The words behind it stay.
pub fn write_header(words: &mut [u32], header: Header)
    requires { header_length ≤ length words.old }
    ensures { words.new ≡ header_words header ++ drop header_length words.old }
{
    words[0] = header.slots;
    words[1] = header.places;
    words[2] = header.keys;
    words[3] = header.stashed;
    words[4] = header.station;
}

// The heading of a dictionary that has no keys.
pub fn fresh_header(r: u32, s: u32, station: u32) -> Header
    ensures { result ≡ fresh_header r s station }
{
    Header {
        slots: r,
        places: s,
        keys: 0,
        stashed: 0,
        station,
    }
}

// A heading with another number of keys.
pub fn with_keys(header: Header, keys: u32) -> Header
    ensures { result ≡ with_keys header keys }
{
    Header { keys, ..header }
}

// A heading with another number of stashed keys.
pub fn with_stashed(header: Header, stashed: u32) -> Header
    ensures { result ≡ with_stashed header stashed }
{
    Header { stashed, ..header }
}

// Slot v of a stretch of slots.
pub fn slot_in(slots: &[u32], v: usize) -> Slot
    requires { slot_width * v + slot_width ≤ length slots.now }
    ensures key { result.key ≡ get_or slots.now (slot_width * v) 0 }
    ensures next { result.next ≡ get_or slots.now (slot_width * v + 1) 0 }
    ensures tier { result.tier ≡ get_or slots.now (slot_width * v + 2) 0 }
{
    Slot {
        key: slots[SLOT_WIDTH * v],
        next: slots[SLOT_WIDTH * v + 1],
        tier: slots[SLOT_WIDTH * v + 2],
    }
}

// The slots of table 0, and those of table 1: parts of the lent words.
pub fn table_0(words: &[u32]) -> &[u32]
    requires { Shaped words.now }
    ensures part { result.now ≡ take (slot_width * slots_of words.now)
        (drop header_length words.now) }
    ensures sized { length result.now ≡ slot_width * slots_of words.now }
{
    let end = HEADER_LENGTH + SLOT_WIDTH * wide(words[0]);
    &words[HEADER_LENGTH..end]
}

pub fn table_1(words: &[u32]) -> &[u32]
    requires { Shaped words.now }
    ensures part { result.now ≡ take (slot_width * slots_of words.now)
        (drop (key_at (slots_of words.now)) words.now) }
    ensures sized { length result.now ≡ slot_width * slots_of words.now }
{
    let start = HEADER_LENGTH + SLOT_WIDTH * wide(words[0]);
    let end = stash_start(words[0]);
    &words[start..end]
}

// Where the stash begins.
pub fn stash_start(r: u32) -> usize
    requires { r ≤ max_slots }
    ensures { result ≡ stash_at r }
{
    HEADER_LENGTH + SLOT_WIDTH * (2 * wide(r))
}

// The length of the words of a dictionary.
pub fn length_for(r: u32, s: u32) -> usize
    requires { Sized r s }
    ensures { result ≡ words_length r s }
{
    stash_start(r) + PLACE_WIDTH * wide(s)
}

// The length that scratch needs.
pub fn scratch_for(r: u32, s: u32) -> usize
    requires { Sized r s }
    ensures { result ≡ scratch_length r s }
{
    12 * wide(r) + 8 * wide(s)
}

// Whether words have the shape that their heading tells.
pub fn is_shaped(words: &[u32]) -> bool
    ensures { result ≡ shaped words.now }
{
    if words.len() < HEADER_LENGTH {
        return false;
    }
    let r = words[0];
    let s = words[1];
    if !are_params(r, s, words[4]) {
        return false;
    }
    words.len() == length_for(r, s)
}

// The key in a slot. There are never as many as 4,096 slots, so that the index fits.
pub fn key_in(words: &[u32], slot: u32) -> u32
    requires { (key_at slot < length words.now) × (slot < 4096) }
    ensures { result ≡ (slot_entry words.now slot).key }
{
    words[HEADER_LENGTH + SLOT_WIDTH * wide(slot)]
}

// The tier word of a slot.
pub fn slot_tier(words: &[u32], slot: u32) -> u32
    requires { (tier_at slot < length words.now) × (slot < 4096) }
    ensures { result ≡ (slot_entry words.now slot).tier }
{
    words[HEADER_LENGTH + SLOT_WIDTH * wide(slot) + 2]
}

// Lays fresh words: r, s, no keys, the station number and zeros, whatever they were; or 2, and the words stay.
pub fn fresh(words: &mut [u32], r: u32, s: u32, station: u32) -> Result<(), Refusal>
    ensures numbered { number result ≡ fresh_refusal (length words.old) r s station }
    ensures laid { words.new ≡ fresh_words words.old r s station }
{
    if !is_target(words.len(), r, s, station) {
        return Err(Refusal::WrongShape);
    }
    fill(words, 0);
    write_header(words, fresh_header(r, s, station));
    Ok(())
}
