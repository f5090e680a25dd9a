// The gateway of every call on a whole dictionary. `load`: 1 to 4, in their order, or the keys of the words with their
// edges in scratch. `commit`: 8, or the image of whichever set stands in scratch over all of a target, of which only
// the length is asked. `clear`: zeros in scratch. A call is these and what it does to the set in between.
#![tactic(auto)]

ghost use Rattle.std.specs.Prelude.{◌≡◌, length, replicate};
ghost use Rattle.refusals.specs.Refusal.{done};
ghost use Rattle.refusals.specs.Answer.{number};
ghost use Rattle.layout.specs.Layout.{header_of};
ghost use Rattle.layout.specs.Canonical.{canonical};
ghost use Rattle.layout.specs.Ready.{Ready};
ghost use Rattle.scratch_set.specs.Collected.{Listed};
ghost use Rattle.gateway.specs.Loading.{early_refusal, headings, load_refusal, load_headings, LoadedSet};
ghost use Rattle.gateway.specs.Committing.{Committable, Committed};

use built::{matches_built, write_built};
use collect::collect_keys;
use layout::Header;
use ranges::TABULATION_LENGTH;
use refusals::Refusal;
use scratch_set::edge_column::write_edges;
use scratch_set::one_issue;
use words::{fill, wide};

mod built;

// The refusals that need no look at the set: 1, 2 or 3.
fn early(tabulation: &[u16], words: &[u32], room: usize) -> Result<(), Refusal>
    ensures { number result ≡ early_refusal tabulation.now words.now room }
{
    if tabulation.len() != TABULATION_LENGTH {
        return Err(Refusal::WrongTabulation);
    }
    if !access::is_shaped(words) {
        return Err(Refusal::WrongShape);
    }
    let header = access::read_header(words);
    if room < access::scratch_for(header.slots, header.places) {
        return Err(Refusal::ShortScratch);
    }
    Ok(())
}

// Whether the words are the image of a set. Their keys and edges come into scratch; they must be one issue of each
// first part, and their image must be the words.
fn is_image(tabulation: &[u16], words: &[u32], scratch: &mut [u32], header: Header) -> bool
    requires { Ready tabulation.now words.now scratch.old × (header ≡ header_of words.now) }
    ensures { (result ≡ canonical tabulation.now words.now)
        × Listed tabulation.now words.now scratch.new }
{
    let r = header.slots;
    let s = header.places;
    let n = collect_keys(words, scratch);
    write_edges(tabulation, words, scratch, r, s, header.station, n);
    if !one_issue(scratch, n) {
        return false;
    }
    let Some(stashed) = seating::build(scratch, r, s, n) else {
        return false;
    };
    matches_built(words, scratch, r, s, n, stashed)
}

// The words loaded as a set: 1 to 4, in their order, or their heading, and their keys stand in scratch with their
// edges.
pub fn load(tabulation: &[u16], words: &[u32], scratch: &mut [u32]) -> Result<Header, Refusal>
    ensures numbered { number result
        ≡ load_refusal tabulation.now words.now scratch.old }
    ensures valued { headings result
        ≡ load_headings tabulation.now words.now scratch.old }
    ensures stands { load_refusal tabulation.now words.now scratch.old ≡ done
        → LoadedSet tabulation.now words.now scratch.new }
{
    early(tabulation, words, scratch.len())?;
    let header = access::read_header(words);
    if !is_image(tabulation, words, scratch, header) {
        return Err(Refusal::NotCanonical);
    }
    Ok(header)
}

// Whichever set stands in scratch, with its edges, as many keys as the heading tells: 8, or its image is written over
// all of the words. What the heading tells of stashed keys has no say: the build counts them.
pub fn commit(words: &mut [u32], scratch: &mut [u32], heading: Header) -> Result<(), Refusal>
    requires { Committable heading words.old scratch.old }
    ensures { Committed heading words.old scratch.old (number result) words.new }
{
    let r = heading.slots;
    let s = heading.places;
    let n = wide(heading.keys);
    let Some(stashed) = seating::build(scratch, r, s, n) else {
        return Err(Refusal::StashFull);
    };
    let laid = access::with_stashed(heading, stashed);
    write_built(words, scratch, laid);
    Ok(())
}

// Zeros over the full length of scratch: nothing of the set, new or old, is left in it.
pub fn clear(scratch: &mut [u32])
    ensures { scratch.new ≡ replicate (length scratch.old) 0 }
{
    fill(scratch, 0);
}
