// The calls on a list of stolen keys in lent words, a slot each, with no heading, no scratch and no counters. Each
// promises its whole outcome by a definition of stolen/specs/Answers.antt, for words of any content and length.
#![tactic(auto)]

ghost use Rattle.std.specs.Prelude.{◌≡◌, ◌&&◌, ◌≤◌, ◌<◌, length};
ghost use Rattle.refusals.specs.Answer.{number};
ghost use Rattle.hashing.specs.Hash.{slots_in_range, station_in_range, tables, Hashing};
ghost use Rattle.hashing.specs.Slots.{slot_0};
ghost use Rattle.probing.specs.Moves.{right};
ghost use Rattle.probing.specs.Walls.{Barrier};
ghost use Rattle.stolen.specs.Answers.{values, stolen_family, stolen_canonical, stolen_init_refusal};
ghost use Rattle.stolen.specs.Answers.{stolen_init_words, stolen_lookup_refusal, stolen_lookup_values};
ghost use Rattle.stolen.specs.Answers.{stolen_insert_refusal, stolen_insert_words};

use probe::MAX_SLOTS;
use ranges::TABULATION_LENGTH;
use refusals::Refusal;
use words::wide;

// Whether a list may have this many slots.
fn are_slots(slots: usize) -> bool
    ensures { result ≡ slots_in_range slots }
{
    1 <= slots && slots <= MAX_SLOTS
}

// Whether it may have them at this station.
fn in_shape(slots: usize, station: u32) -> bool
    ensures { result ≡ (slots_in_range slots && station_in_range station) }
{
    are_slots(slots) && ranges::is_station(station)
}

// Lays an empty list: zeros, whatever the words were; or 2, and they stay.
#[tactic(auto, unfolding(stolen::specs::Answers::stolen_init_refusal, stolen::specs::Answers::stolen_init_words))]
pub fn init(words: &mut [u32]) -> Result<(), Refusal>
    ensures numbered { number result ≡ stolen_init_refusal words.old }
    ensures laid { words.new ≡ stolen_init_words words.old }
{
    if !are_slots(words.len()) {
        return Err(Refusal::WrongShape);
    }
    words::fill(words, 0);
    Ok(())
}

// The slot where a key starts: its hash in table 0.
fn start_of(tabulation: &[u16], slots: usize, station: u32, key: u32) -> usize
    requires { Hashing tabulation.now slots station }
    ensures at { result ≡ slot_0 (tables tabulation.now slots station) key }
    ensures inside { result < slots }
{
    wide(slots::hash_in(tabulation, 0, slots as u32, station, key))
}

// Whether the key is reported, on any words; or 1, 2 or 5.
#[tactic(auto, using(crate::specs::Decided::shaped_hashing, crate::specs::Decided::key_positive), unfolding(stolen::specs::Answers::stolen_lookup_refusal, stolen::specs::Answers::stolen_lookup_values))]
pub fn lookup(tabulation: &[u16], words: &[u32], station: u32, key: u32) -> Result<bool, Refusal>
    ensures numbered { number result
        ≡ stolen_lookup_refusal tabulation.now words.now station key }
    ensures valued { values result
        ≡ stolen_lookup_values tabulation.now words.now station key }
{
    if tabulation.len() != TABULATION_LENGTH {
        return Err(Refusal::WrongTabulation);
    }
    if !in_shape(words.len(), station) {
        return Err(Refusal::WrongShape);
    }
    if ranges::is_blank(key) {
        return Err(Refusal::BlankKey);
    }
    let start = start_of(tabulation, words.len(), station, key);
    Ok(probe::is_found(words, start, key))
}

// Whether a key is right at a turn of the round behind slot `base`: it is not blank, and starts behind its wall.
fn is_right(
    tabulation: &[u16],
    slots: usize,
    station: u32,
    base: usize,
    turn: usize,
    wall: usize,
    key: u32,
) -> bool
    requires { Hashing tabulation.now slots station × (base < slots) }
    ensures { result
        ≡ right slots base (slot_0 (tables tabulation.now slots station)) 10 key wall turn }
{
    if ranges::is_blank(key) {
        return false;
    }
    let start = probe::turn_of(slots, base, start_of(tabulation, slots, station, key));
    wall <= start && start <= turn
}

// Whether the words are the image of a set, told in one round over the slots, behind one that no key passes. The walls
// of the keys before lead to that of the next, so that in all each slot is passed over once.
fn is_canonical(tabulation: &[u16], words: &[u32], station: u32, base: usize) -> bool
    requires { Hashing tabulation.now (length words.now) station × (base < length words.now)
        × Barrier (length words.now) words.now base }
    ensures { result ≡ stolen_canonical (stolen_family tabulation.now words.now station)
        words.now }
{
    let slots = words.len();
    let mut walls = [0u16; MAX_SLOTS];
    for turn in 0..slots {
        let key = words[probe::slot_of(slots, base, turn)];
        if key != 0 {
            let wall = probe::wall_of(words, &walls, base, turn, key);
            if !is_right(tabulation, slots, station, base, turn, wall, key) {
                return false;
            }
            walls[turn] = wall as u16;
        }
    }
    true
}

// Puts a key in: the words are then the image of their set with the key; or 1, 2, 4, 5, 6 or 16, and they stay.
#[tactic(auto, using(crate::specs::Decided::shaped_hashing, crate::specs::Decided::key_positive, crate::specs::Decided::found_member), unfolding(stolen::specs::Answers::stolen_insert_refusal, stolen::specs::Answers::stolen_insert_words))]
pub fn insert(tabulation: &[u16], words: &mut [u32], station: u32, key: u32) -> Result<(), Refusal>
    ensures numbered { number result
        ≡ stolen_insert_refusal tabulation.now words.old station key }
    ensures laid { words.new
        ≡ stolen_insert_words tabulation.now words.old station key }
{
    if tabulation.len() != TABULATION_LENGTH {
        return Err(Refusal::WrongTabulation);
    }
    let slots = words.len();
    if !in_shape(slots, station) {
        return Err(Refusal::WrongShape);
    }
    let base = probe::barrier(words);
    if !is_canonical(tabulation, words, station, base) {
        return Err(Refusal::NotCanonical);
    }
    if ranges::is_blank(key) {
        return Err(Refusal::BlankKey);
    }
    let start = start_of(tabulation, slots, station, key);
    if probe::is_found(words, start, key) {
        return Err(Refusal::KeyPresent);
    }
    if words[base] != 0 {
        return Err(Refusal::TableFull);
    }
    probe::carry(words, start, key);
    Ok(())
}
