// The input of a bulk load: words that alternate key and tier, a lone last word being a key. Each of its tests goes
// over all of it before the next, and none of them is bounded by the target: the input may be of any length.
#![tactic(auto)]

ghost use Rattle.std.specs.Prelude.{◌≡◌, false, ltb, length};
ghost use Rattle.basics.specs.Sets.{any};
ghost use Rattle.hashing.specs.Hash.{blank};
ghost use Rattle.refusals.specs.Answer.{number};
ghost use Rattle.refusals.specs.Refusal.{first_refusal};
ghost use Rattle.layout.specs.Entries.{max_tier};
ghost use Rattle.layout.specs.Layout.{ValidKeys, one_issue};
ghost use Rattle.bulk.specs.Bulk.{input_keys, input_tiers, rising, input_refusals};

use layout::MAX_TIER;
use ranges::{first_part, is_blank};
use refusals::Refusal;

// How many keys there are.
pub fn count(input: &[u32]) -> usize
    ensures { result ≡ length (input_keys input.now) }
{
    input.len().div_ceil(2)
}

// Whether a key is blank. The loops here go by an index: of `step_by` std has no law.
#[tactic(auto, using(crate::proofs::Laws::tests))]
fn any_blank(input: &[u32]) -> bool
    ensures { result ≡ any blank (input_keys input.now) }
{
    for i in 0..count(input) {
        if is_blank(input[2 * i]) {
            return true;
        }
    }
    false
}

// Whether a tier is above 7.
#[tactic(auto, using(crate::proofs::Laws::tests))]
fn any_high(input: &[u32]) -> bool
    ensures { result ≡ any (ltb max_tier) (input_tiers input.now) }
{
    for i in 0..input.len() / 2 {
        if input[2 * i + 1] > MAX_TIER {
            return true;
        }
    }
    false
}

// Whether the keys rise. None of them is blank, so that the first is above 0.
#[tactic(auto, using(crate::proofs::Laws::neighbours))]
fn rises(input: &[u32]) -> bool
    requires { any blank (input_keys input.now) ≡ false }
    ensures { result ≡ rising (input_keys input.now) }
{
    let mut last = 0;
    for i in 0..count(input) {
        let key = input[2 * i];
        if key <= last {
            return false;
        }
        last = key;
    }
    true
}

// Whether no two keys are issues of one first part. They ascend, so that only neighbours can be; and none has the first
// part 0.
#[tactic(auto, using(crate::proofs::Laws::parts))]
fn one_issue(input: &[u32]) -> bool
    requires { ValidKeys (input_keys input.now) }
    ensures { result ≡ one_issue (input_keys input.now) }
{
    let mut last = 0;
    for i in 0..count(input) {
        let part = first_part(input[2 * i]);
        if part == last {
            return false;
        }
        last = part;
    }
    true
}

// 5, 9, 14 and 13, each over the whole input.
pub fn refusal(input: &[u32]) -> Result<(), Refusal>
    ensures { number result ≡ first_refusal (input_refusals input.now) }
{
    if any_blank(input) {
        return Err(Refusal::BlankKey);
    }
    if any_high(input) {
        return Err(Refusal::WrongTier);
    }
    if input.len() % 2 == 1 || !rises(input) {
        return Err(Refusal::NotRising);
    }
    if !one_issue(input) {
        return Err(Refusal::OtherIssue);
    }
    Ok(())
}
