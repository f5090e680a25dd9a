// The hashing as a static library, for whoever links it alone, as the till maker does: the two exported calls of
// `tabulation`, each with that call's contract. A library exports nothing itself, and a static library has no crate
// above it, so that the calls stand in both.
#![tactic(auto)]

ghost use Rattle.std.specs.Prelude.{◌≡◌};
ghost use Rattle.hashing.specs.Hash.{tables};
ghost use Rattle.hashing.specs.Answer.{hashes_refusal, written};

// Both hashes of a key, or a refusal.
#[unsafe(no_mangle)]
pub extern "C" fn pinorange_hashes(
    tabulation: &[u16],
    r: u32,
    station: u32,
    key: u32,
    first: &mut u32,
    second: &mut u32,
) -> u32
    ensures numbered { result ≡ hashes_refusal (tables tabulation.now r station) key }
    ensures first_hash { first.new
        ≡ written (tables tabulation.now r station) key 0 first.old }
    ensures second_hash { second.new
        ≡ written (tables tabulation.now r station) key 1 second.old }
{
    tabulation::pinorange_hashes(tabulation, r, station, key, first, second)
}

// The first number of the version, under the name that the headers refer to.
#[unsafe(no_mangle)]
pub extern "C" fn pinorange_version_4() -> u32
    ensures { result ≡ 4 }
{
    tabulation::pinorange_version_4()
}
