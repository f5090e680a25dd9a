// From keys to their edges: each key is hashed here, once, and found in the words, once. One word then has all that the
// build and `image` need of it (crate `edges`).
ghost use Rattle.std.specs.Prelude.{◌≡◌, ◌≤◌, length};
ghost use Rattle.hashing.specs.Hash.{tabulation_length, tables, Hashing};
ghost use Rattle.layout.specs.Entries.{max_tier};
ghost use Rattle.layout.specs.Layout.{family_of, slots_of, station_of};
ghost use Rattle.layout.specs.Shape.{Shaped};
ghost use Rattle.scratch_set.specs.Edges.{small_tier, tier_found, edge_with, edge_of};
ghost use Rattle.scratch_set.specs.Collected.{Collected, Listed};

use edges::pack;
use layout::MAX_TIER;
use scratch_layout::edges_start;
use slots::{first_slot, second_slot};

// A tier above 7, which no set has, counts as 0. Then the words are not canonical, and the comparison will say so.
fn fitting(tier: u32) -> u32
    ensures { result ≡ small_tier tier }
{
    if MAX_TIER < tier {
        return 0;
    }
    tier
}

// The edge of a key that comes in, with its tier.
pub fn edge_given(tabulation: &[u16], r: u32, station: u32, key: u32, tier: u32) -> u32
    requires { Hashing tabulation.now r station × (tier ≤ max_tier) }
    ensures { result ≡ edge_with (tables tabulation.now r station) key tier }
{
    let first = first_slot(tabulation, r, station, key);
    let second = second_slot(tabulation, r, station, key);
    pack(first, second, tier)
}

// The edge of a key, with the tier at which it is found in the words.
fn edge_found(tabulation: &[u16], words: &[u32], r: u32, station: u32, key: u32) -> u32
    requires { (length tabulation.now ≡ tabulation_length)
        × (Shaped words.now × ((r ≡ slots_of words.now) × (station ≡ station_of words.now))) }
    ensures { result ≡ edge_of (family_of tabulation.now words.now)
        (tier_found tabulation.now words.now) key }
{
    let first = first_slot(tabulation, r, station, key);
    let second = second_slot(tabulation, r, station, key);
    let tier = lookup::tier_at(words, first, second, key);
    pack(first, second, fitting(tier))
}

// The edges of the n keys that stand from word 1 of scratch on come to their place.
pub fn write_edges(
    tabulation: &[u16],
    words: &[u32],
    scratch: &mut [u32],
    r: u32,
    s: u32,
    station: u32,
    n: usize,
)
    requires { Collected tabulation.now words.now scratch.old r s station n }
    ensures { Listed tabulation.now words.now scratch.new }
{
    let start = edges_start(r, s);
    for i in 0..n {
        let key = scratch[i + 1];
        scratch[start + i] = edge_found(tabulation, words, r, station, key);
    }
}
