// The record of one slot, or of one stash place: compared with what it must be for a rank, and written. The rank is
// told by its key, its edge and its next. Rank 0, which is no key, is read like any other: no slot is asked whether it
// is empty.
#![tactic(auto)]

ghost use Rattle.std.specs.Prelude.{◌≡◌, ◌+◌, ◌*◌, ◌≤◌, ◌<◌, length, get_or};
ghost use Rattle.records.specs.Record.{slot_alike, slot_put, place_alike, place_put, tier_by, RankKnown, Chained};

use words::wide;

// The tier of a rank. Before the first edge stands the last held rank, which is small: so 0 has tier 0.
fn tier_of(r: usize, graph: &[u32], rank: usize) -> u32
    requires { (0 < r) × (2 * r + rank ≤ length graph.now) }
    ensures { result ≡ tier_by r graph.now rank }
{
    edges::tier(graph[2 * r + rank - 1])
}

// Whether the slot that begins at `at` has the key, the next and the tier of a rank.
pub fn same_slot(
    words: &[u32],
    at: usize,
    r: usize,
    keys: &[u32],
    graph: &[u32],
    next: &[u32],
    rank: usize,
) -> bool
    requires { (at + 2 < length words.now) × RankKnown r keys.now graph.now rank
        × Chained keys.now next.now rank }
    ensures { result ≡ slot_alike words.now at (get_or keys.now rank 0)
        (get_or keys.now (get_or next.now rank 0) 0) (tier_by r graph.now rank) }
{
    words[at] == keys[rank]
        && words[at + 1] == keys[wide(next[rank])]
        && words[at + 2] == tier_of(r, graph, rank)
}

// Whether the stash place that begins at `at` has the key and the tier of a rank.
pub fn same_place(
    words: &[u32],
    at: usize,
    r: usize,
    keys: &[u32],
    graph: &[u32],
    rank: usize,
) -> bool
    requires { (at + 1 < length words.now) × RankKnown r keys.now graph.now rank }
    ensures { result ≡ place_alike words.now at (get_or keys.now rank 0)
        (tier_by r graph.now rank) }
{
    words[at] == keys[rank] && words[at + 1] == tier_of(r, graph, rank)
}

// Writes the key, the next and the tier of a rank over the slot that begins at `at`.
pub fn write_slot(
    words: &mut [u32],
    at: usize,
    r: usize,
    keys: &[u32],
    graph: &[u32],
    next: &[u32],
    rank: usize,
)
    requires { (at + 2 < length words.old) × RankKnown r keys.now graph.now rank
        × Chained keys.now next.now rank }
    ensures { words.new ≡ slot_put words.old at (get_or keys.now rank 0)
        (get_or keys.now (get_or next.now rank 0) 0) (tier_by r graph.now rank) }
{
    words[at] = keys[rank];
    words[at + 1] = keys[wide(next[rank])];
    words[at + 2] = tier_of(r, graph, rank);
}

// Writes the key and the tier of a rank over the stash place that begins at `at`.
pub fn write_place(words: &mut [u32], at: usize, r: usize, keys: &[u32], graph: &[u32], rank: usize)
    requires { (at + 1 < length words.old) × RankKnown r keys.now graph.now rank }
    ensures { words.new ≡ place_put words.old at (get_or keys.now rank 0)
        (tier_by r graph.now rank) }
{
    words[at] = keys[rank];
    words[at + 1] = tier_of(r, graph, rank);
}
