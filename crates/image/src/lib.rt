// An image told by ranks, as the build leaves it: whether given words are it, and the writing of it into words, record
// by record (crate `records`): slot by slot, then place by place. What an image consists of is lent as plain slices, by
// rank; which set it is of is not asked here.
#![tactic(auto)]

ghost use Rattle.std.specs.Prelude.{◌≡◌, length};
ghost use Rattle.layout.specs.Layout.{header_length, places_of, slots_of, words_length};
ghost use Rattle.layout.specs.Shape.{Shaped, Sized};
ghost use Rattle.image.specs.Ranks.{Ranked, SlotRanks, PlaceRanks};
ghost use Rattle.image.specs.Ranks.{ranked_slots_alike, ranked_slots_put, ranked_places_alike};
ghost use Rattle.image.specs.Ranks.{ranked_places_put, ranks_alike, ranks_written};

use layout::{HEADER_LENGTH, Header, PLACE_WIDTH, SLOT_WIDTH};
use records::{same_place, same_slot, write_place, write_slot};
use words::wide;

// Whether the slots have the keys, the next numbers and the tiers of these ranks. Four loops and not one with a step as
// its parameter: two read and stop, two write, slots have a next and places do not, and a clause would name each case.
fn same_slots(
    words: &[u32],
    r: usize,
    keys: &[u32],
    graph: &[u32],
    next: &[u32],
    held: &[u32],
) -> bool
    requires { SlotRanks words.now r keys.now graph.now next.now held.now }
    ensures { result ≡ ranked_slots_alike words.now header_length r keys.now
        graph.now next.now held.now }
{
    for (v, &rank) in held.iter().enumerate() {
        if !same_slot(
            words,
            HEADER_LENGTH + SLOT_WIDTH * v,
            r,
            keys,
            graph,
            next,
            wide(rank),
        ) {
            return false;
        }
    }
    true
}

// Whether the places of the stash, which begins at `start`, have the keys and the tiers of these ranks.
fn same_places(
    words: &[u32],
    start: usize,
    r: usize,
    keys: &[u32],
    graph: &[u32],
    stash: &[u32],
) -> bool
    requires { PlaceRanks words.now start r keys.now graph.now stash.now }
    ensures { result ≡ ranked_places_alike words.now start r keys.now
        graph.now stash.now }
{
    for (i, &rank) in stash.iter().enumerate() {
        if !same_place(words, start + PLACE_WIDTH * i, r, keys, graph, wide(rank)) {
            return false;
        }
    }
    true
}

// Writes the slots of these ranks.
fn write_slots(words: &mut [u32], r: usize, keys: &[u32], graph: &[u32], next: &[u32], held: &[u32])
    requires { SlotRanks words.old r keys.now graph.now next.now held.now }
    ensures { words.new ≡ ranked_slots_put words.old header_length r keys.now
        graph.now next.now held.now }
{
    for (v, &rank) in held.iter().enumerate() {
        write_slot(
            words,
            HEADER_LENGTH + SLOT_WIDTH * v,
            r,
            keys,
            graph,
            next,
            wide(rank),
        );
    }
}

// Writes the stash places of these ranks, from `start` on.
fn write_places(
    words: &mut [u32],
    start: usize,
    r: usize,
    keys: &[u32],
    graph: &[u32],
    stash: &[u32],
)
    requires { PlaceRanks words.old start r keys.now graph.now stash.now }
    ensures { words.new ≡ ranked_places_put words.old start r keys.now
        graph.now stash.now }
{
    for (i, &rank) in stash.iter().enumerate() {
        write_place(words, start + PLACE_WIDTH * i, r, keys, graph, wide(rank));
    }
}

// Whether the words, which have the shape of a dictionary, are the image with these counts and ranks. What words 0 and
// 1 say is r and s already.
pub fn matches(
    words: &[u32],
    count: usize,
    stashed: u32,
    keys: &[u32],
    graph: &[u32],
    next: &[u32],
    stash: &[u32],
) -> bool
    requires { (Shaped words.now × (length stash.now ≡ places_of words.now))
        × Ranked (slots_of words.now) count keys.now graph.now next.now stash.now }
    ensures { result ≡ ranks_alike words.now count stashed keys.now graph.now
        next.now stash.now }
{
    let header = access::read_header(words);
    if wide(header.keys) != count || header.stashed != stashed {
        return false;
    }
    let start = access::stash_start(header.slots);
    let r = wide(header.slots);
    same_slots(words, r, keys, graph, next, &graph[..2 * r])
        && same_places(words, start, r, keys, graph, stash)
}

// Writes the image with these sizes, counts and ranks over all of the words, whatever they were.
pub fn write_image(
    words: &mut [u32],
    header: Header,
    keys: &[u32],
    graph: &[u32],
    next: &[u32],
    stash: &[u32],
)
    requires { (Sized header.slots header.places
        × ((length words.old ≡ words_length header.slots header.places)
        × (length stash.now ≡ header.places)))
        × Ranked header.slots header.keys keys.now graph.now next.now stash.now }
    ensures { words.new ≡ ranks_written words.old header keys.now
        graph.now next.now stash.now }
{
    let start = access::stash_start(header.slots);
    let r = wide(header.slots);
    access::write_header(words, header);
    write_slots(words, r, keys, graph, next, &graph[..2 * r]);
    write_places(words, start, r, keys, graph, stash);
}
