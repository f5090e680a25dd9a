// The hash of a key in a table, and its slots: one function for both tables. Crates above use what it promises and the
// laws of `hashing`; the worked rows K1 to K12 alone compute with the definition's text.
#![tactic(auto)]

ghost use Rattle.std.specs.Prelude.{◌≡◌, ◌<◌};
ghost use Rattle.hashing.specs.Slots.{slot_0, slot_1};
ghost use Rattle.hashing.specs.Hash.{tables, Hashing, hash};

use ranges::first_part;

// The length of a table's half of a tabulation, and where the station's stretch begins in a half.
const HALF_LENGTH: usize = 1280;

const STATION_STRETCH: usize = 1024;

// The hash of a key in a table of r slots, at a station. The table's half of the tabulation and r are taken before the
// loop over the bytes of the key's first part, and neither anew for a byte. The station's entry comes last.
pub fn hash_in(tabulation: &[u16], table: usize, r: u32, station: u32, key: u32) -> u32
    requires { Hashing tabulation.now r station × (table < 2) }
    ensures { result ≡ hash (tables tabulation.now r station) table key }
{
    let start = HALF_LENGTH * table;
    let half = &tabulation[start..start + HALF_LENGTH];
    let part = first_part(key);
    let mut sum = 0;
    let mut rest = part;
    for i in 0..4 {
        sum += u32::from(half[256 * i + (rest % 256) as usize]);
        rest /= 256;
    }
    let turned = (part % 256 + station) % 256;
    (sum + u32::from(half[STATION_STRETCH + turned as usize])) % r
}

// The slot of a key in a table, in the row of both tables' slots: table 1's come after the r of table 0.
pub fn first_slot(tabulation: &[u16], r: u32, station: u32, key: u32) -> u32
    requires { Hashing tabulation.now r station }
    ensures { result ≡ slot_0 (tables tabulation.now r station) key }
{
    hash_in(tabulation, 0, r, station, key)
}

pub fn second_slot(tabulation: &[u16], r: u32, station: u32, key: u32) -> u32
    requires { Hashing tabulation.now r station }
    ensures { result ≡ slot_1 (tables tabulation.now r station) key }
{
    r + hash_in(tabulation, 1, r, station, key)
}
