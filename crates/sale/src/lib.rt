// Sales: opening one at nozzle lift takes the price of a listed key from its tier, and closing it at hang-up gives that
// price, whatever became of the key meanwhile. The record is the caller's, by value; the words are only read.
#![tactic(auto)]

ghost use Rattle.std.specs.Prelude.{◌≡◌, true, cond, ◌≤◌, pos, nat_abs, ◌+ℤ◌};
ghost use Rattle.std.specs.Int.Signed.{lt_z};
ghost use Rattle.refusals.specs.Answer.{number};
ghost use Rattle.layout.specs.Entries.{max_tier};
ghost use Rattle.outcome.specs.Sale.{values, base_in_range, step_in_range, all_in_range};
ghost use Rattle.outcome.specs.Sale.{sale_refusal, sale_values, sale_left, closed};
ghost use Rattle.sale.specs.Priced.{price_or_0, positive, tier_refusal, tier_values};

use layout::MAX_TIER;
use lookup::lookup_within;
use outcome::Sale;
use refusals::Refusal;
use words::wide;

// The largest base price, in tenths of a cent.
pub const MAX_BASE: u32 = 99999;

// The largest step down, and the largest up.
pub const MIN_STEP: i32 = -500;

pub const MAX_STEP: i32 = 500;

// The least price of a litre.
const MIN_PRICE: i32 = 1;

// How many steps there are: one for each tier.
pub const STEPS: usize = 8;

// Whether a base price is in its range.
fn is_base(base: u32) -> bool
    ensures { result ≡ base_in_range base }
{
    1 <= base && base <= MAX_BASE
}

// Whether a step is in its range.
fn is_step(step: i32) -> bool
    ensures { result ≡ step_in_range step }
{
    MIN_STEP <= step && step <= MAX_STEP
}

// Whether all steps are in their range, the ones of other tiers, too.
fn are_steps(steps: &[i32]) -> bool
    ensures { result ≡ all_in_range steps.now }
{
    // A loop by hand: that every step is tested is told by the laws of its turns, which docs/CLAIMS.md names. It goes
    // by an index, since an edit that leaves out tier 0 is refused for that only where it changes a number.
    for i in 0..steps.len() {
        if !is_step(steps[i]) {
            return false;
        }
    }
    true
}

// The price of a litre: base plus step, where that is at least 1.
fn litre_price(base: u32, step: i32) -> Option<u32>
    requires { (base_in_range base ≡ true) × (step_in_range step ≡ true) }
    ensures { result
        ≡ positive (cond (lt_z (pos base +ℤ step) (pos 1)) 0 (nat_abs (pos base +ℤ step))) }
{
    let price = base as i32 + step;
    if price < MIN_PRICE {
        return None;
    }
    Some(price as u32)
}

// The price of a litre for a tier; none where 12 applies.
fn price_for(base: u32, steps: &[i32], tier: u32) -> Option<u32>
    requires { tier ≤ max_tier }
    ensures { result ≡ positive (price_or_0 base steps.now tier) }
{
    if !is_base(base) || steps.len() != STEPS || !are_steps(steps) {
        return None;
    }
    let step = steps[wide(tier)];
    litre_price(base, step)
}

// The sale of a key that was found at this tier: its record, or 4 or 12.
fn open_at(key: u32, tier: u32, base: u32, steps: &[i32]) -> Result<Sale, Refusal>
    ensures numbered { number result ≡ tier_refusal tier base steps.now }
    ensures valued { values result ≡ tier_values key tier base steps.now }
{
    if tier > MAX_TIER {
        return Err(Refusal::NotCanonical);
    }
    let Some(price) = price_for(base, steps, tier) else {
        return Err(Refusal::WrongPrice);
    };
    Ok(Sale { key, tier, price })
}

// Opens a sale of a key: its record, or 1, 2, 5, 7, 4 or 12.
pub fn open(
    tabulation: &[u16],
    words: &[u32],
    key: u32,
    base: u32,
    steps: &[i32],
) -> Result<Sale, Refusal>
    ensures numbered { number result ≡ sale_refusal tabulation.now words.now key base
        steps.now }
    ensures valued { values result ≡ sale_values tabulation.now words.now key base
        steps.now }
{
    let Some(tier) = lookup_within(tabulation, words, key)? else {
        return Err(Refusal::KeyAbsent);
    };
    open_at(key, tier, base, steps)
}

// An opening over a record that the caller holds by reference: the number of the answer, and what the record then
// holds.
#[derive(Drop)]
pub struct Written {
    pub number: u32,
    pub sale: Sale,
}

// Opens a sale over a record, which stays if it is refused.
pub fn open_over(
    tabulation: &[u16],
    words: &[u32],
    key: u32,
    base: u32,
    steps: &[i32],
    old: Sale,
) -> Written
    ensures numbered { result.number ≡ sale_refusal tabulation.now words.now key base
        steps.now }
    ensures left { result.sale ≡ sale_left tabulation.now words.now key base
        steps.now old }
{
    match open(tabulation, words, key, base, steps) {
        Ok(sale) => Written { number: 0, sale },
        Err(refusal) => Written {
            number: u32::from(refusal),
            sale: old,
        },
    }
}

// Closes a sale: the price that it was opened with.
#[tactic(auto, unfolding(outcome::specs::Sale::closed))]
pub fn close(sale: Sale) -> u32
    ensures { result ≡ closed sale }
{
    sale.price
}
