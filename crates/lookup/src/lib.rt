// Lookup and the stash view, in words read in place. Every public call takes words of any content and length, and
// promises its whole answer by a definition of layout/specs/Answers.antt; only `tier_at` wants words of the right
// shape.
#![tactic(auto)]

ghost use Rattle.std.specs.Prelude.{◌≡◌, cond, ◌∷◌, ◌*◌, ◌<◌, eqb, length, get_or};
ghost use Rattle.refusals.specs.Answer.{number};
ghost use Rattle.hashing.specs.Hash.{tabulation_length};
ghost use Rattle.layout.specs.Entries.{tier_of};
ghost use Rattle.layout.specs.Layout.{slots_of, key_at, slot_entry, stash_entries, looked_at};
ghost use Rattle.layout.specs.Shape.{Shaped};
ghost use Rattle.layout.specs.Answers.{found, values, lookup_refusal, lookup_values, looked_up, view_refusal, view_of};
ghost use Rattle.lookup.specs.Found.{own_slots};

use access::{is_shaped, key_in, read_header, slot_tier, stash_start};
use layout::PLACE_WIDTH;
use places::find_place;
use ranges::TABULATION_LENGTH;
use refusals::Refusal;
use words::wide;

// Whether the key stands in a slot.
fn in_slot(words: &[u32], slot: u32, key: u32) -> bool
    requires { (key_at slot < length words.now) × (slot < 4096) }
    ensures { result ≡ eqb key (slot_entry words.now slot).key }
{
    key == key_in(words, slot)
}

// Where a key is found among its two slots: in that of table 0, in that of table 1, or in neither.
fn in_slots(tabulation: &[u16], words: &[u32], key: u32) -> Option<u32>
    requires { (length tabulation.now ≡ tabulation_length) × Shaped words.now }
    ensures { found result ≡ looked_up (own_slots tabulation.now words.now key) key }
{
    let header = read_header(words);
    let first = slots::first_slot(tabulation, header.slots, header.station, key);
    if in_slot(words, first, key) {
        return Some(slot_tier(words, first));
    }
    let second = slots::second_slot(tabulation, header.slots, header.station, key);
    if in_slot(words, second, key) {
        return Some(slot_tier(words, second));
    }
    None
}

// Where a key is found in the stash.
fn in_stash(words: &[u32], key: u32) -> Option<u32>
    requires { Shaped words.now }
    ensures { found result ≡ looked_up (stash_entries words.now) key }
{
    let header = read_header(words);
    let start = stash_start(header.slots);
    let count = wide(header.places);
    find_place(&words[start..start + PLACE_WIDTH * count], count, key)
}

// The one word or the other. It is small and plain, so that the compiler can choose without a branch.
fn chosen(first: bool, one: u32, other: u32) -> u32
    ensures { result ≡ cond first one other }
{
    if first {
        return one;
    }
    other
}

// The tier at which a key is found, 0 where it is not; `first` and `second` are its slots. Both slots are read in any
// case, and no branch says which of them it is: that is as good as random. Few keys are in the stash.
pub fn tier_at(words: &[u32], first: u32, second: u32, key: u32) -> u32
    requires { Shaped words.now × ((first < 2 * slots_of words.now) × (second < 2 * slots_of words.now)) }
    ensures { result ≡ tier_of (slot_entry words.now first ∷ slot_entry words.now second
        ∷ stash_entries words.now) key }
{
    let in_first = in_slot(words, first, key);
    let in_second = in_slot(words, second, key);
    let tier_first = slot_tier(words, first);
    let tier_second = slot_tier(words, second);
    if in_first | in_second {
        return chosen(in_first, tier_first, tier_second);
    }
    in_stash(words, key).unwrap_or(0)
}

// The tier of the key, or that it is not there, on any words of the right shape; or 1, 2 or 5.
pub fn lookup(tabulation: &[u16], words: &[u32], key: u32) -> Result<Option<u32>, Refusal>
    ensures numbered { number result ≡ lookup_refusal tabulation.now words.now key }
    ensures valued { values result ≡ lookup_values tabulation.now words.now key }
{
    if tabulation.len() != TABULATION_LENGTH {
        return Err(Refusal::WrongTabulation);
    }
    if !is_shaped(words) {
        return Err(Refusal::WrongShape);
    }
    if ranges::is_blank(key) {
        return Err(Refusal::BlankKey);
    }
    if let Some(tier) = in_slots(tabulation, words, key) {
        return Ok(Some(tier));
    }
    let Some(tier) = in_stash(words, key) else {
        return Ok(None);
    };
    Ok(Some(tier))
}

// Where a key is found, in its slots or in the stash; both slots are worked out and read first, as `tier_at` wants
// them.
fn found_within(tabulation: &[u16], words: &[u32], key: u32) -> Option<u32>
    requires { (length tabulation.now ≡ tabulation_length) × Shaped words.now }
    ensures { found result ≡ looked_up (looked_at tabulation.now words.now key) key }
{
    let header = read_header(words);
    let one = slots::first_slot(tabulation, header.slots, header.station, key);
    let other = slots::second_slot(tabulation, header.slots, header.station, key);
    let in_one = in_slot(words, one, key);
    let in_other = in_slot(words, other, key);
    if in_one | in_other {
        return Some(tier_at(words, one, other, key));
    }
    in_stash(words, key)
}

// What `lookup` answers, by a search of its own, for calls that look a key up on the way to something else. So the
// library calls `lookup` once, for the exported lookup, and the compiler puts it in the place of that call.
pub fn lookup_within(tabulation: &[u16], words: &[u32], key: u32) -> Result<Option<u32>, Refusal>
    ensures numbered { number result ≡ lookup_refusal tabulation.now words.now key }
    ensures valued { values result ≡ lookup_values tabulation.now words.now key }
{
    if tabulation.len() != TABULATION_LENGTH {
        return Err(Refusal::WrongTabulation);
    }
    if !is_shaped(words) {
        return Err(Refusal::WrongShape);
    }
    if ranges::is_blank(key) {
        return Err(Refusal::BlankKey);
    }
    Ok(found_within(tabulation, words, key))
}

// What goes with the stash view: done, 2 or 4.
pub fn stash_refusal(words: &[u32]) -> Result<(), Refusal>
    ensures { number result ≡ view_refusal words.now }
{
    if !is_shaped(words) {
        return Err(Refusal::WrongShape);
    }
    let header = read_header(words);
    if header.places < header.stashed {
        return Err(Refusal::NotCanonical);
    }
    Ok(())
}

// The stash view: the filled stretch of the stash, a part of the lent words; empty when it is refused.
pub fn stash(words: &[u32]) -> &[u32]
    ensures { result.now ≡ view_of words.now }
{
    let Ok(()) = stash_refusal(words) else {
        return &words[0..0];
    };
    let header = read_header(words);
    let start = stash_start(header.slots);
    let end = start + PLACE_WIDTH * wide(header.stashed);
    &words[start..end]
}
