// Which numbers are keys, tables' sizes and stations, and the first part of a key. Every promise is equality with a
// definition of `hashing`.
#![tactic(auto)]

ghost use Rattle.std.specs.Prelude.{◌≡◌};
ghost use Rattle.hashing.specs.Hash.{slots_in_range, station_in_range, first_part, blank};

// The length of a tabulation.
pub const TABULATION_LENGTH: usize = 2560;

// The most slots of a table, and the largest station number.
pub const MAX_SLOTS: u32 = 1024;

pub const MAX_STATION: u32 = 255;

// How many issues a first part has: as many as there are decimal digits. Keys below it have no first part.
const ISSUES: u32 = 10;

// The first part of a key: all but its last decimal digit, which is its issue.
pub fn first_part(key: u32) -> u32
    ensures { result ≡ first_part key }
{
    key / ISSUES
}

// Whether a key is blank: the key of no element.
pub fn is_blank(key: u32) -> bool
    ensures { result ≡ blank key }
{
    key < ISSUES
}

// Whether a table may have r slots.
pub fn in_range(r: u32) -> bool
    ensures { result ≡ slots_in_range r }
{
    1 <= r && r <= MAX_SLOTS
}

// Whether a station may have this number.
pub fn is_station(station: u32) -> bool
    ensures { result ≡ station_in_range station }
{
    station <= MAX_STATION
}
