// Init, bulk load, insert and remove with the counters, by value: counts in and counts out, for callers that hold them
// so. The calls that hold the counters by reference are in `pinorange`.
#![tactic(auto)]

ghost use Rattle.std.specs.Prelude.{◌≡◌, length};
ghost use Rattle.counters.specs.Counters.{counted};
ghost use Rattle.layout.specs.Answers.{fresh_refusal, fresh_words};
ghost use Rattle.outcome.specs.Outcome.{change_outcome};
ghost use Rattle.bulk.specs.Bulk.{params_for, bulk_outcome};

use counters::{Counted, Counters, with_counts};
use outcome::Change;
use refusals::number;

// Insert and remove.
pub fn update(
    kind: Change,
    tabulation: &[u16],
    words: &mut [u32],
    scratch: &mut [u32],
    key: u32,
    counters: Counters,
) -> Counted
    ensures changed { record { answer = result.answer; words = words.new; scratch = scratch.new }
        ≡ change_outcome kind tabulation.now words.old scratch.old key }
    ensures moved { result.counters ≡ counted counters result.answer }
{
    let answer = dictionary::update(kind, tabulation, words, scratch, key);
    with_counts(number(answer), counters)
}

// Init.
pub fn init(words: &mut [u32], r: u32, s: u32, station: u32, counters: Counters) -> Counted
    ensures answered { result.answer ≡ fresh_refusal (length words.old) r s station }
    ensures laid { words.new ≡ fresh_words words.old r s station }
    ensures moved { result.counters ≡ counted counters result.answer }
{
    let answer = access::fresh(words, r, s, station);
    with_counts(number(answer), counters)
}

// Insert and remove with the parameters of the exported calls, in their order: these hand on what they get, and a walk
// shows no more than that.
pub fn insert(
    tabulation: &[u16],
    words: &mut [u32],
    scratch: &mut [u32],
    counters: Counters,
    key: u32,
    tier: u32,
) -> Counted
    ensures changed { record { answer = result.answer; words = words.new; scratch = scratch.new }
        ≡ change_outcome (Change.Insert tier) tabulation.now words.old scratch.old
        key }
    ensures moved { result.counters ≡ counted counters result.answer }
{
    update(
        Change::Insert(tier),
        tabulation,
        words,
        scratch,
        key,
        counters,
    )
}

pub fn remove(
    tabulation: &[u16],
    words: &mut [u32],
    scratch: &mut [u32],
    counters: Counters,
    key: u32,
) -> Counted
    ensures changed { record { answer = result.answer; words = words.new; scratch = scratch.new }
        ≡ change_outcome Change.Remove tabulation.now words.old scratch.old key }
    ensures moved { result.counters ≡ counted counters result.answer }
{
    update(Change::Remove, tabulation, words, scratch, key, counters)
}

// Bulk load, its parameters in the order of the exported call, too.
pub fn bulk_load(
    tabulation: &[u16],
    words: &mut [u32],
    scratch: &mut [u32],
    counters: Counters,
    r: u32,
    s: u32,
    station: u32,
    input: &[u32],
) -> Counted
    ensures loaded { record { answer = result.answer; words = words.new; scratch = scratch.new }
        ≡ bulk_outcome (params_for tabulation.now r s station) input.now words.old
        scratch.old }
    ensures moved { result.counters ≡ counted counters result.answer }
{
    let loaded = bulk_load::bulk_load(tabulation, words, scratch, r, s, station, input);
    with_counts(number(loaded), counters)
}
