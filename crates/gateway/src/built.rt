// The image that the build leaves in scratch, in its parts: lent to `image`, which compares words with them or writes
// them.
ghost use Rattle.std.specs.Prelude.{◌≡◌, length};
ghost use Rattle.layout.specs.Layout.{slots_of, places_of, words_length};
ghost use Rattle.layout.specs.Shape.{Shaped};
ghost use Rattle.build.specs.Scratch.{parts};
ghost use Rattle.gateway.specs.Columns.{RanksReadable, alike_in, written_in};

use layout::Header;
use scratch_layout::{graph_range, held_start, next_start, stashed_start};
use words::wide;

// The parts of scratch that the image is made of: what the slots hold with the edges, the next of each rank, the stash.
// The keys by rank are the first words of scratch.
fn graph_part(scratch: &[u32], r: u32, s: u32, n: usize) -> &[u32]
    requires { RanksReadable r s n scratch.now }
    ensures { result.now ≡ (parts r s n scratch.now).graph }
{
    &scratch[graph_range(r, s, n)]
}

fn next_part(scratch: &[u32], r: u32, s: u32, n: usize) -> &[u32]
    requires { RanksReadable r s n scratch.now }
    ensures { result.now ≡ (parts r s n scratch.now).next }
{
    let start = next_start(r, s);
    let end = start + held_start(r, s);
    &scratch[start..end]
}

fn stash_part(scratch: &[u32], r: u32, s: u32, n: usize) -> &[u32]
    requires { RanksReadable r s n scratch.now }
    ensures { result.now ≡ (parts r s n scratch.now).stash }
{
    let start = stashed_start(r, s);
    let end = start + wide(s);
    &scratch[start..end]
}

// Whether the words are the image that stands in scratch.
pub fn matches_built(words: &[u32], scratch: &[u32], r: u32, s: u32, n: usize, stashed: u32) -> bool
    requires { (Shaped words.now × ((r ≡ slots_of words.now) × (s ≡ places_of words.now)))
        × RanksReadable r s n scratch.now }
    ensures { result ≡ alike_in r s n words.now stashed scratch.now }
{
    let graph = graph_part(scratch, r, s, n);
    let next = next_part(scratch, r, s, n);
    let stash = stash_part(scratch, r, s, n);
    image::matches(words, n, stashed, scratch, graph, next, stash)
}

// Writes the image that stands in scratch over all of the words, whatever they were.
pub fn write_built(words: &mut [u32], scratch: &[u32], header: Header)
    requires { (length words.old ≡ words_length header.slots header.places)
        × RanksReadable header.slots header.places header.keys scratch.now }
    ensures { words.new ≡ written_in words.old header scratch.now }
{
    let r = header.slots;
    let s = header.places;
    let n = wide(header.keys);
    let graph = graph_part(scratch, r, s, n);
    let next = next_part(scratch, r, s, n);
    let stash = stash_part(scratch, r, s, n);
    image::write_image(words, header, scratch, graph, next, stash);
}
