// What other languages link: every call of the dictionary under a plain C name. A slice crosses as a pointer and a
// length; an enum or a part of a slice cannot cross, so a call gives document 01's number and writes the rest to
// out-parameters. What these hold after a refusal is part of each promise.
#![tactic(auto)]

ghost use Rattle.std.specs.Prelude.{◌≡◌, length};
ghost use Rattle.hashing.specs.Hash.{tables};
ghost use Rattle.hashing.specs.Answer.{hashes_refusal, written};
ghost use Rattle.layout.specs.Answers.{lookup_refusal, view_refusal, fresh_refusal, fresh_words};
ghost use Rattle.outcome.specs.Outcome.{change_outcome, check_outcome};
ghost use Rattle.bulk.specs.Bulk.{params_for, bulk_outcome};
ghost use Rattle.outcome.specs.Trail.{trail_outcome};
ghost use Rattle.outcome.specs.Sale.{sale_refusal, sale_left, closed};
ghost use Rattle.counters.specs.Counters.{counted};
ghost use Rattle.pinorange.specs.House.{house_answer, housed};
ghost use Rattle.survivors.specs.Salvage.{salvage_outcome};
ghost use Rattle.stolen.specs.Answers.{stolen_init_refusal, stolen_init_words, stolen_lookup_refusal};
ghost use Rattle.stolen.specs.Answers.{stolen_insert_refusal, stolen_insert_words};
ghost use Rattle.pinorange.specs.Out.{listed_out, tier_out, offset_out, length_out, count_out, lost_out};
ghost use Rattle.pinorange.specs.Out.{reported_out};

use counters::Counters;
use layout::PLACE_WIDTH;
use outcome::{Change, Sale};
use ranges::TABULATION_LENGTH;
use refusals::{Refusal, number};
use words::wide;

// The tier of a key. Done, `listed` is 1 and `tier` the tier, or `listed` is 0 and `tier` stays as it was; refused,
// both stay.
#[unsafe(no_mangle)]
pub extern "C" fn pinorange_lookup(
    tabulation: &[u16],
    words: &[u32],
    key: u32,
    listed: &mut u32,
    tier: &mut u32,
) -> u32
    ensures numbered { result ≡ lookup_refusal tabulation.now words.now key }
    ensures told { listed.new ≡ listed_out tabulation.now words.now key
        listed.old }
    ensures priced { tier.new ≡ tier_out tabulation.now words.now key
        tier.old }
{
    match lookup::lookup(tabulation, words, key) {
        Ok(Some(t)) => {
            *listed = 1;
            *tier = t;
            0
        }
        Ok(None) => {
            *listed = 0;
            0
        }
        Err(refusal) => refusal.into(),
    }
}

// The stash view, as the offset and the length of the filled stretch of the stash in the lent words, two words a place.
// Refused, both are 0: an empty stretch. (`len`, since a parameter `length` would hide the list's in the contract.)
#[unsafe(no_mangle)]
pub extern "C" fn pinorange_stash(words: &[u32], offset: &mut u32, len: &mut u32) -> u32
    ensures numbered { result ≡ view_refusal words.now }
    ensures placed { offset.new ≡ offset_out words.now }
    ensures measured { len.new ≡ length_out words.now }
{
    match lookup::stash_refusal(words) {
        Ok(()) => {
            let header = access::read_header(words);
            *offset = access::stash_start(header.slots) as u32;
            *len = (PLACE_WIDTH * wide(header.stashed)) as u32;
            0
        }
        Err(refusal) => {
            *offset = 0;
            *len = 0;
            refusal.into()
        }
    }
}

// Lays fresh words, and moves the counters on. They are lent by reference and moved on in place; the covered call takes
// them by value and gives them back.
#[unsafe(no_mangle)]
pub extern "C" fn pinorange_init(
    words: &mut [u32],
    r: u32,
    s: u32,
    station: u32,
    counters: &mut Counters,
) -> u32
    ensures answered { result ≡ fresh_refusal (length words.old) r s station }
    ensures laid { words.new ≡ fresh_words words.old r s station }
    ensures moved { counters.new ≡ counted counters.old result }
{
    let old = *counters;
    let new = counting::init(words, r, s, station, old);
    *counters = new.counters;
    new.answer
}

// Lays a whole list in one call, and moves the counters on: the input alternates key and tier, the keys ascending. The
// words have no say but by their length; the scratch is zero over its full length afterwards.
#[unsafe(no_mangle)]
pub extern "C" fn pinorange_bulk_load(
    tabulation: &[u16],
    words: &mut [u32],
    scratch: &mut [u32],
    counters: &mut Counters,
    r: u32,
    s: u32,
    station: u32,
    input: &[u32],
) -> u32
    ensures loaded { record { answer = result; words = words.new; scratch = scratch.new }
        ≡ bulk_outcome (params_for tabulation.now r s station) input.now words.old
        scratch.old }
    ensures moved { counters.new ≡ counted counters.old result }
{
    let old = *counters;
    let new = counting::bulk_load(tabulation, words, scratch, old, r, s, station, input);
    *counters = new.counters;
    new.answer
}

// Inserts a key with a tier, and moves the counters on.
#[unsafe(no_mangle)]
pub extern "C" fn pinorange_insert(
    tabulation: &[u16],
    words: &mut [u32],
    scratch: &mut [u32],
    counters: &mut Counters,
    key: u32,
    tier: u32,
) -> u32
    ensures changed { record { answer = result; words = words.new; scratch = scratch.new }
        ≡ change_outcome (Change.Insert tier) tabulation.now words.old scratch.old
        key }
    ensures moved { counters.new ≡ counted counters.old result }
{
    let old = *counters;
    let new = counting::insert(tabulation, words, scratch, old, key, tier);
    *counters = new.counters;
    new.answer
}

// Removes a key, and moves the counters on.
#[unsafe(no_mangle)]
pub extern "C" fn pinorange_remove(
    tabulation: &[u16],
    words: &mut [u32],
    scratch: &mut [u32],
    counters: &mut Counters,
    key: u32,
) -> u32
    ensures changed { record { answer = result; words = words.new; scratch = scratch.new }
        ≡ change_outcome Change.Remove tabulation.now words.old scratch.old key }
    ensures moved { counters.new ≡ counted counters.old result }
{
    let old = *counters;
    let new = counting::remove(tabulation, words, scratch, old, key);
    *counters = new.counters;
    new.answer
}

// Whether the words are the canonical image of a set: 1 to 4, or 0. The words are only read; the scratch is zero over
// its full length afterwards.
#[unsafe(no_mangle)]
pub extern "C" fn pinorange_check(tabulation: &[u16], words: &[u32], scratch: &mut [u32]) -> u32
    ensures { record { answer = result; words = words.now; scratch = scratch.new }
        ≡ check_outcome tabulation.now words.now scratch.old }
{
    number(dictionary::check(tabulation, words, scratch))
}

// The trail of a key: document 02's number. Done, `count` is how many keys it has, and they stand in the lent trail,
// zeros behind them; refused, both stay. The words are only read; the scratch is zero over its full length afterwards.
#[unsafe(no_mangle)]
pub extern "C" fn pinorange_trail(
    tabulation: &[u16],
    words: &[u32],
    scratch: &mut [u32],
    key: u32,
    trail: &mut [u32],
    count: &mut u32,
) -> u32
    ensures numbered { result ≡ (trail_outcome tabulation.now words.now scratch.old
        key trail.old).number }
    ensures cleared { scratch.new ≡ (trail_outcome tabulation.now words.now
        scratch.old key trail.old).scratch }
    ensures traced { trail.new ≡ (trail_outcome tabulation.now words.now
        scratch.old key trail.old).trail }
    ensures counted { count.new ≡ count_out tabulation.now words.now
        scratch.old key trail.old count.old }
{
    match trail::trail(tabulation, words, scratch, key, trail) {
        Ok(n) => {
            *count = n;
            0
        }
        Err(refusal) => refusal.into(),
    }
}

// Salvages words that were damaged: document 02's number. Done, the target, as long as the words, holds the canonical
// list of the survivors, and `lost` is how many slots and places held a number that does not count; refused, both stay.
// The words are only read; the scratch is zero over its full length afterwards.
#[unsafe(no_mangle)]
pub extern "C" fn pinorange_salvage(
    tabulation: &[u16],
    words: &[u32],
    target: &mut [u32],
    scratch: &mut [u32],
    lost: &mut u32,
) -> u32
    ensures numbered { result ≡ (salvage_outcome tabulation.now words.now
        target.old scratch.old).number }
    ensures written_to { target.new ≡ (salvage_outcome tabulation.now words.now
        target.old scratch.old).target }
    ensures cleared { scratch.new ≡ (salvage_outcome tabulation.now words.now
        target.old scratch.old).scratch }
    ensures told { lost.new ≡ lost_out tabulation.now words.now
        target.old scratch.old lost.old }
{
    match salvage::salvage(tabulation, words, target, scratch) {
        Ok(n) => {
            *lost = n;
            0
        }
        Err(refusal) => refusal.into(),
    }
}

// Opens a sale: document 02's number. Done, `sale` is its record; refused, it stays. The words are only read.
#[unsafe(no_mangle)]
pub extern "C" fn pinorange_open_sale(
    tabulation: &[u16],
    words: &[u32],
    key: u32,
    base: u32,
    steps: &[i32],
    sale: &mut Sale,
) -> u32
    ensures numbered { result ≡ sale_refusal tabulation.now words.now key base
        steps.now }
    ensures left { sale.new ≡ sale_left tabulation.now words.now key base
        steps.now sale.old }
{
    let old = *sale;
    let new = sale::open_over(tabulation, words, key, base, steps, old);
    *sale = new.sale;
    new.number
}

// Closes a sale: the price of its record, as often as it is asked.
#[unsafe(no_mangle)]
pub extern "C" fn pinorange_close_sale(sale: &Sale) -> u32
    ensures { result ≡ closed sale.now }
{
    sale.price
}

// Lays an empty list of stolen keys: zeros.
#[unsafe(no_mangle)]
pub extern "C" fn pinorange_stolen_init(words: &mut [u32]) -> u32
    ensures numbered { result ≡ stolen_init_refusal words.old }
    ensures laid { words.new ≡ stolen_init_words words.old }
{
    number(stolen_table::init(words))
}

// Puts a key into a list of stolen keys; a refusal changes no word.
#[unsafe(no_mangle)]
pub extern "C" fn pinorange_stolen_insert(
    tabulation: &[u16],
    words: &mut [u32],
    station: u32,
    key: u32,
) -> u32
    ensures numbered { result
        ≡ stolen_insert_refusal tabulation.now words.old station key }
    ensures laid { words.new
        ≡ stolen_insert_words tabulation.now words.old station key }
{
    number(stolen_table::insert(tabulation, words, station, key))
}

// Whether a key is in a list of stolen keys. Done, `reported` is 1 or 0; refused, it stays.
#[unsafe(no_mangle)]
pub extern "C" fn pinorange_stolen_lookup(
    tabulation: &[u16],
    words: &[u32],
    station: u32,
    key: u32,
    reported: &mut u32,
) -> u32
    ensures numbered { result
        ≡ stolen_lookup_refusal tabulation.now words.now station key }
    ensures told { reported.new ≡ reported_out tabulation.now words.now station key
        reported.old }
{
    match stolen_table::lookup(tabulation, words, station, key) {
        Ok(found) => {
            *reported = u32::from(found);
            0
        }
        Err(refusal) => refusal.into(),
    }
}

// The house tabulation, written into a lent one; 1 if that is not of the right length, and it stays.
#[unsafe(no_mangle)]
pub extern "C" fn pinorange_house(tabulation: &mut [u16]) -> u32
    ensures answered { result ≡ house_answer (length tabulation.old) }
    ensures filled { tabulation.new ≡ housed tabulation.old }
{
    if tabulation.len() != TABULATION_LENGTH {
        return Refusal::WrongTabulation.into();
    }
    let table = house::house_tabulation();
    // A loop by hand: an edit that leaves the last entry is refused for that only where it changes a number.
    for i in 0..TABULATION_LENGTH {
        tabulation[i] = table[i];
    }
    0
}

// Both hashes of a key, as the crate `tabulation` exports them for whoever links the hashing alone.
#[unsafe(no_mangle)]
pub extern "C" fn pinorange_hashes(
    tabulation: &[u16],
    r: u32,
    station: u32,
    key: u32,
    first: &mut u32,
    second: &mut u32,
) -> u32
    ensures numbered { result ≡ hashes_refusal (tables tabulation.now r station) key }
    ensures first_hash { first.new
        ≡ written (tables tabulation.now r station) key 0 first.old }
    ensures second_hash { second.new
        ≡ written (tables tabulation.now r station) key 1 second.old }
{
    tabulation::pinorange_hashes(tabulation, r, station, key, first, second)
}

// The first number of the version, as the crate `tabulation` exports it, under the name that the headers refer to.
#[unsafe(no_mangle)]
pub extern "C" fn pinorange_version_4() -> u32
    ensures { result ≡ 4 }
{
    tabulation::pinorange_version_4()
}
