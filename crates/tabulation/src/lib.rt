// Both hashes of a key (document 01's "places of a card"), or a refusal: the public call, which the till maker links
// alone. What it promises is in `hashing`.
#![tactic(auto)]

ghost use Rattle.std.specs.Prelude.{◌≡◌};
ghost use Rattle.hashing.specs.Hash.{tables};
ghost use Rattle.refusals.specs.Answer.{number};
ghost use Rattle.hashing.specs.Answer.{values, hashes_refusal, hashes_values, written};

use ranges::{TABULATION_LENGTH, in_range, is_blank, is_station};
use refusals::Refusal;
use slots::hash_in;

// Both hashes of a key, or 1, 2 or 5: for every tabulation, r, station and key.
pub fn hashes(tabulation: &[u16], r: u32, station: u32, key: u32) -> Result<(u32, u32), Refusal>
    ensures numbered { number result ≡ hashes_refusal (tables tabulation.now r station) key }
    ensures valued { values result ≡ hashes_values (tables tabulation.now r station) key }
{
    if tabulation.len() != TABULATION_LENGTH {
        return Err(Refusal::WrongTabulation);
    }
    if !in_range(r) {
        return Err(Refusal::WrongShape);
    }
    if !is_station(station) {
        return Err(Refusal::WrongShape);
    }
    if is_blank(key) {
        return Err(Refusal::BlankKey);
    }
    Ok((
        hash_in(tabulation, 0, r, station, key),
        hash_in(tabulation, 1, r, station, key),
    ))
}

// `hashes` for C and Rust: the answer is document 01's number, 0 for done. Done, the two hashes are written to `first`
// and `second`; refused, both stay as they were.
#[unsafe(no_mangle)]
pub extern "C" fn pinorange_hashes(
    tabulation: &[u16],
    r: u32,
    station: u32,
    key: u32,
    first: &mut u32,
    second: &mut u32,
) -> u32
    ensures numbered { result ≡ hashes_refusal (tables tabulation.now r station) key }
    ensures first_hash { first.new
        ≡ written (tables tabulation.now r station) key 0 first.old }
    ensures second_hash { second.new
        ≡ written (tables tabulation.now r station) key 1 second.old }
{
    match hashes(tabulation, r, station, key) {
        Ok((h0, h1)) => {
            *first = h0;
            *second = h1;
            0
        }
        Err(refusal) => refusal.into(),
    }
}

// The first number of the version, which stands in the name, too. The headers refer to it, so that what was compiled
// with headers of another first number does not link.
#[unsafe(no_mangle)]
pub extern "C" fn pinorange_version_4() -> u32
    ensures { result ≡ 4 }
{
    4
}
