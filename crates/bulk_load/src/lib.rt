// Bulk load: a whole list laid in one call, its whole outcome but the counters. Target and input are tested; then the
// set that the input is comes to scratch, its keys and their edges, and is committed to the target through the gateway.
// The keys come ascending: nothing is sorted, and nothing of the target is read.
#![tactic(auto)]

ghost use Rattle.std.specs.Prelude.{◌≡◌, ◌∷◌, ◌+◌, ◌<◌, length, take};
ghost use Rattle.refusals.specs.Answer.{number};
ghost use Rattle.refusals.specs.Refusal.{first_refusal};
ghost use Rattle.gateway.specs.Committing.{new_answer, new_words};
ghost use Rattle.bulk.specs.Bulk.{params_for, input_keys, input_set, target_refusals, bulk_outcome};
ghost use Rattle.bulk.specs.Input.{SoundInput};
ghost use Rattle.bulk.specs.Laws.{Layable};
ghost use Rattle.bulk_load.specs.Loading.{Fillable, InputLined, BulkLoaded};

use access::{fresh_header, is_target, scratch_for, with_keys};
use gateway::{clear, commit};
use ranges::TABULATION_LENGTH;
use refusals::Refusal;
use scratch_layout::edges_start;
use scratch_set::edge_column::edge_given;
use words::wide;

// 1, 2 or 3, of a target of `len` words and scratch of `room`.
fn target_refusal(
    tabulation: &[u16],
    len: usize,
    room: usize,
    r: u32,
    s: u32,
    station: u32,
) -> Result<(), Refusal>
    ensures { number result ≡ first_refusal
        (target_refusals (params_for tabulation.now r s station) len room) }
{
    if tabulation.len() != TABULATION_LENGTH {
        return Err(Refusal::WrongTabulation);
    }
    if !is_target(len, r, s, station) {
        return Err(Refusal::WrongShape);
    }
    if room < scratch_for(r, s) {
        return Err(Refusal::ShortScratch);
    }
    Ok(())
}

// The n keys of the input come to scratch, from word 1 on; word 0 is 0.
fn put_keys(scratch: &mut [u32], input: &[u32], n: usize)
    requires { (n ≡ length (input_keys input.now)) × (n < length scratch.old) }
    ensures { take (n + 1) scratch.new ≡ 0 ∷ input_keys input.now }
{
    scratch[0] = 0;
    for i in 0..n {
        scratch[1 + i] = input[2 * i];
    }
}

// And their edges, each with the tier that is given.
fn put_edges(
    tabulation: &[u16],
    scratch: &mut [u32],
    r: u32,
    s: u32,
    station: u32,
    input: &[u32],
    n: usize,
)
    requires { Fillable tabulation.now input.now scratch.old r s station n
        × (take (n + 1) scratch.old ≡ 0 ∷ input_keys input.now) }
    ensures { InputLined tabulation.now r s station input.now scratch.new }
{
    let start = edges_start(r, s);
    for i in 0..n {
        let key = input[2 * i];
        let tier = input[2 * i + 1];
        scratch[start + i] = edge_given(tabulation, r, station, key, tier);
    }
}

// The set that the input is: 8, or its image over all of the words. More keys than there are slots and places never
// fit, and only fewer have room in scratch.
fn load_set(
    tabulation: &[u16],
    words: &mut [u32],
    scratch: &mut [u32],
    r: u32,
    s: u32,
    station: u32,
    input: &[u32],
) -> Result<(), Refusal>
    requires { Layable (params_for tabulation.now r s station) (length words.old) (length scratch.old)
        × SoundInput input.now }
    ensures { (number result ≡ new_answer (params_for tabulation.now r s station)
        (input_keys input.now))
        × (words.new ≡ new_words (params_for tabulation.now r s station)
        (input_set input.now) words.old) }
{
    let n = bulk_input::count(input);
    if wide(2 * r + s) < n {
        return Err(Refusal::StashFull);
    }
    put_keys(scratch, input, n);
    put_edges(tabulation, scratch, r, s, station, input, n);
    let heading = with_keys(fresh_header(r, s, station), n as u32);
    commit(words, scratch, heading)
}

// The whole of the call but for the clearing of scratch.
fn load_words(
    tabulation: &[u16],
    words: &mut [u32],
    scratch: &mut [u32],
    r: u32,
    s: u32,
    station: u32,
    input: &[u32],
) -> Result<(), Refusal>
    ensures { BulkLoaded (params_for tabulation.now r s station) input.now
        words.old scratch.old (number result) words.new }
{
    target_refusal(tabulation, words.len(), scratch.len(), r, s, station)?;
    bulk_input::refusal(input)?;
    load_set(tabulation, words, scratch, r, s, station, input)
}

// Bulk load: its whole outcome but the counters.
pub fn bulk_load(
    tabulation: &[u16],
    words: &mut [u32],
    scratch: &mut [u32],
    r: u32,
    s: u32,
    station: u32,
    input: &[u32],
) -> Result<(), Refusal>
    ensures { record { answer = number result; words = words.new; scratch = scratch.new }
        ≡ bulk_outcome (params_for tabulation.now r s station) input.now words.old
        scratch.old }
{
    let answer = load_words(tabulation, words, scratch, r, s, station, input);
    clear(scratch);
    answer
}
