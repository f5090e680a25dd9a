// Insert, remove and check: their whole outcome but the counters. All three go through the gateway: the words are
// loaded as a set, or refused. Then the set changes in scratch and is committed. There are no incremental cases.
#![tactic(auto)]

ghost use Rattle.std.specs.Prelude.{◌≡◌};
ghost use Rattle.refusals.specs.Answer.{number};
ghost use Rattle.layout.specs.Layout.{header_of};
ghost use Rattle.gateway.specs.Loading.{LoadedSet};
ghost use Rattle.dictionary.specs.Core.{Settable, Decided, AfterLoad, Concluded};
ghost use Rattle.outcome.specs.Outcome.{change_outcome, check_outcome};
ghost use Rattle.outcome.specs.declared.Change.TheVariants.{Insert, Remove};

use access::with_keys;
use gateway::{clear, commit, load};
use layout::{Header, MAX_TIER};
use outcome::Change;
use refusals::Refusal;
use scratch_set::{is_at, look, other_issue, place_of, put_key, take_key, tier_at};
use words::wide;

// The set of the words stands in scratch, n keys and their edges, and the key is not blank: the set with the key.
fn insert_key(
    tabulation: &[u16],
    words: &mut [u32],
    scratch: &mut [u32],
    heading: Header,
    n: usize,
    key: u32,
    tier: u32,
) -> Result<(), Refusal>
    requires { Settable tabulation.now words.old scratch.old heading n key }
    ensures { Decided (Insert tier) tabulation.now words.old key (number result) words.new }
{
    if MAX_TIER < tier {
        return Err(Refusal::WrongTier);
    }
    let r = heading.slots;
    let s = heading.places;
    let at = place_of(scratch, n, key);
    if other_issue(scratch, n, at, key) {
        return Err(Refusal::OtherIssue);
    }
    if is_at(scratch, n, at, key) {
        if tier_at(scratch, r, s, at) != tier {
            return Err(Refusal::OtherTier);
        }
        return Err(Refusal::KeyPresent);
    }
    if wide(2 * r + s) <= n {
        return Err(Refusal::StashFull);
    }
    put_key(tabulation, scratch, r, s, heading.station, n, at, key, tier);
    let next = with_keys(heading, heading.keys + 1);
    commit(words, scratch, next)
}

// The set of the words stands in scratch, n keys and their edges, and the key is not blank: the set without the key.
fn remove_key(
    tabulation: &[u16],
    words: &mut [u32],
    scratch: &mut [u32],
    heading: Header,
    n: usize,
    key: u32,
) -> Result<(), Refusal>
    requires { Settable tabulation.now words.old scratch.old heading n key }
    ensures { Decided Remove tabulation.now words.old key (number result) words.new }
{
    let r = heading.slots;
    let s = heading.places;
    let at = place_of(scratch, n, key);
    let Some(_) = look(scratch, r, s, n, at, key) else {
        return Err(Refusal::KeyAbsent);
    };
    take_key(scratch, r, s, n, at);
    let next = with_keys(heading, heading.keys - 1);
    commit(words, scratch, next)
}

// The set of the words stands in scratch: 5, or what the set decides. The two changes are a `match` and no closure: which
// of them was asked for is part of the outcome that is promised.
fn change_set(
    kind: Change,
    tabulation: &[u16],
    words: &mut [u32],
    scratch: &mut [u32],
    heading: Header,
    key: u32,
) -> Result<(), Refusal>
    requires { LoadedSet tabulation.now words.old scratch.old × (heading ≡ header_of words.old) }
    ensures { AfterLoad kind tabulation.now words.old key (number result) words.new }
{
    if ranges::is_blank(key) {
        return Err(Refusal::BlankKey);
    }
    let n = wide(heading.keys);
    match kind {
        Change::Insert(tier) => insert_key(tabulation, words, scratch, heading, n, key, tier),
        Change::Remove => remove_key(tabulation, words, scratch, heading, n, key),
    }
}

// The whole of insert and remove but for the clearing of scratch.
fn change_words(
    kind: Change,
    tabulation: &[u16],
    words: &mut [u32],
    scratch: &mut [u32],
    key: u32,
) -> Result<(), Refusal>
    ensures { Concluded tabulation.now words.old scratch.old kind key (number result)
        words.new }
{
    let heading = load(tabulation, words, scratch)?;
    change_set(kind, tabulation, words, scratch, heading, key)
}

// Insert and remove: their whole outcome but the counters.
pub fn update(
    kind: Change,
    tabulation: &[u16],
    words: &mut [u32],
    scratch: &mut [u32],
    key: u32,
) -> Result<(), Refusal>
    ensures { record { answer = number result; words = words.new; scratch = scratch.new }
        ≡ change_outcome kind tabulation.now words.old scratch.old key }
{
    let answer = change_words(kind, tabulation, words, scratch, key);
    clear(scratch);
    answer
}

// Check: its whole outcome. The words are only read.
pub fn check(tabulation: &[u16], words: &[u32], scratch: &mut [u32]) -> Result<(), Refusal>
    ensures { record { answer = number result; words = words.now; scratch = scratch.new }
        ≡ check_outcome tabulation.now words.now scratch.old }
{
    let loaded = load(tabulation, words, scratch);
    clear(scratch);
    loaded?;
    Ok(())
}
