// The trail of a key: why it sits where it sits. It starts with the key; each next one is the key in the last one's
// other slot; it ends with the root of the component. The words are loaded, as remove loads them, then a walk through
// them finds the root and the keys on the way to it.
#![tactic(auto)]

ghost use Rattle.std.specs.Prelude.{◌≡◌};
ghost use Rattle.refusals.specs.Answer.{number};
ghost use Rattle.layout.specs.Layout.{header_of};
ghost use Rattle.gateway.specs.Loading.{LoadedSet};
ghost use Rattle.outcome.specs.Trail.{values, trail_outcome};
ghost use Rattle.walking.specs.Walk.{Readable};
ghost use Rattle.trail.specs.Traced.{seat_in, Traceable, ToldOfTrail, ToldOfSet, ToldOfCall};

use access::key_in;
use gateway::{clear, load};
use layout::Header;
use refusals::Refusal;
use scratch_set::{is_at, place_of};
use slots::{first_slot, second_slot};
use walking::cut::{cut, met, write_keys};
use walking::walk::walk;
use words::{fill, wide};

// The slot in which a key sits, if it is seated: that of table 0, if it stands there, or else that of table 1.
fn seat_of(tabulation: &[u16], words: &[u32], r: u32, station: u32, key: u32) -> u32
    requires { Readable tabulation.now words.now r station }
    ensures { result ≡ seat_in tabulation.now words.now key }
{
    let first = first_slot(tabulation, r, station, key);
    if key_in(words, first) == key {
        return first;
    }
    second_slot(tabulation, r, station, key)
}

// The trail of a key of the set: 11, or how many keys it has, and they are written. A stashed key has none.
fn trace(
    tabulation: &[u16],
    words: &[u32],
    scratch: &mut [u32],
    r: u32,
    station: u32,
    key: u32,
    trail: &mut [u32],
) -> Result<u32, Refusal>
    requires { Traceable tabulation.now words.now scratch.old r station key }
    ensures { ToldOfTrail tabulation.now words.now key trail.old result
        trail.new }
{
    let slot = seat_of(tabulation, words, r, station, key);
    if key_in(words, slot) != key {
        fill(trail, 0);
        return Ok(0);
    }
    clear(scratch);
    let at = walk(tabulation, words, scratch, r, station, slot);
    let count = cut(scratch, r, at.slot, at.steps);
    if trail.len() < count {
        return Err(Refusal::ShortTrail);
    }
    let keys = met(scratch, r, at.steps);
    write_keys(trail, &keys[0..count]);
    Ok(count as u32)
}

// The set of the words stands in scratch: 5, 7, or the trail of the key.
fn trace_listed(
    tabulation: &[u16],
    words: &[u32],
    scratch: &mut [u32],
    heading: Header,
    key: u32,
    trail: &mut [u32],
) -> Result<u32, Refusal>
    requires { LoadedSet tabulation.now words.now scratch.old × (heading ≡ header_of words.now) }
    ensures { ToldOfSet tabulation.now words.now key trail.old result
        trail.new }
{
    if ranges::is_blank(key) {
        return Err(Refusal::BlankKey);
    }
    let n = wide(heading.keys);
    let at = place_of(scratch, n, key);
    if !is_at(scratch, n, at, key) {
        return Err(Refusal::KeyAbsent);
    }
    trace(
        tabulation,
        words,
        scratch,
        heading.slots,
        heading.station,
        key,
        trail,
    )
}

// The whole call but for the clearing of scratch.
fn trail_words(
    tabulation: &[u16],
    words: &[u32],
    scratch: &mut [u32],
    key: u32,
    trail: &mut [u32],
) -> Result<u32, Refusal>
    ensures { ToldOfCall tabulation.now words.now scratch.old key
        trail.old result trail.new }
{
    let heading = load(tabulation, words, scratch)?;
    trace_listed(tabulation, words, scratch, heading, key, trail)
}

// The trail of a key: its whole outcome. The words are only read.
pub fn trail(
    tabulation: &[u16],
    words: &[u32],
    scratch: &mut [u32],
    key: u32,
    trail: &mut [u32],
) -> Result<u32, Refusal>
    ensures { record {
      number = number result;
      values = values result;
      words = words.now;
      scratch = scratch.new;
      trail = trail.new;
    }
        ≡ trail_outcome tabulation.now words.now scratch.old key
        trail.old }
{
    let answer = trail_words(tabulation, words, scratch, key, trail);
    clear(scratch);
    answer
}
