// Steps 3 and 4 of the build: for each label the smallest rank of the forest is noted, in the words of `sets`; of the
// ranks that close a cycle the first of each label is noted beside it, and the others are the stash.
#![tactic(auto)]

ghost use Rattle.std.specs.Prelude.{◌≡◌, ◌*◌, ◌≤◌, ◌<◌};
ghost use Rattle.build.specs.Scratch.{parts};
ghost use Rattle.build.specs.Access.{Enough};
ghost use Rattle.build.specs.NotesCode.{cleared_parts, smallest_parts, with_noting, answer, rank_noted, ranks_noted};
ghost use Rattle.build.specs.NotesCode.{Labelled};

use scratch_layout::{
    PAIR_BASE, note, put_note, put_stashed, put_word, sets_range, sets_start, stashed_start, word,
};
use words::fill;

// No note, and no rank in the stash.
pub fn clear_notes(scratch: &mut [u32], r: u32, s: u32, n: usize)
    requires { Enough r s n scratch.old }
    ensures { parts r s n scratch.new ≡ cleared_parts r s (parts r s n scratch.old) }
{
    fill(&mut scratch[sets_range(r, s)], 0);
    fill(&mut scratch[stashed_start(r, s)..sets_start(r, s)], 0);
}

// Descending over the ranks whose word is a label: the smallest of each label stays.
pub fn note_smallest(scratch: &mut [u32], r: u32, s: u32, n: usize)
    requires { Enough r s n scratch.old }
    ensures { parts r s n scratch.new ≡ smallest_parts r n (parts r s n scratch.old) }
{
    for rank in (1..=n as u32).rev() {
        let label = word(scratch, r, s, n, rank);
        if label < 2 * r {
            put_note(scratch, r, s, n, label, rank);
        }
    }
}

// One rank, where the stash has `count` so far: one of the forest is passed over; the first of its label that closes a
// cycle is noted, and its word is the label; another goes to the stash, and its word is 2r. How many the stash then has,
// or None, where it is full.
fn note_rank(scratch: &mut [u32], r: u32, s: u32, n: usize, rank: u32, count: u32) -> Option<u32>
    requires { Enough r s n scratch.old × (0 < rank) × (rank ≤ n)
        × Labelled r n (parts r s n scratch.old).next }
    ensures noted { parts r s n scratch.new ≡ with_noting (parts r s n scratch.old)
        (rank_noted r rank count (parts r s n scratch.old)) }
    ensures counted { result ≡ answer (rank_noted r rank count (parts r s n scratch.old)) }
{
    let m = 2 * r;
    let mark = word(scratch, r, s, n, rank);
    if mark < m {
        return Some(count);
    }
    let label = mark - m;
    let noted = note(scratch, r, s, n, label);
    if noted < PAIR_BASE {
        put_note(scratch, r, s, n, label, noted + PAIR_BASE * rank);
        put_word(scratch, r, s, n, rank, label);
        return Some(count);
    }
    if s <= count {
        return None;
    }
    put_stashed(scratch, r, s, n, count, rank);
    put_word(scratch, r, s, n, rank, m);
    Some(count + 1)
}

// Ascending over the ranks, as far as the stash has room: how many of them it has, or None where it overflows.
pub fn note_closing(scratch: &mut [u32], r: u32, s: u32, n: usize) -> Option<u32>
    requires { Enough r s n scratch.old × Labelled r n (parts r s n scratch.old).next }
    ensures noted { parts r s n scratch.new ≡ with_noting (parts r s n scratch.old)
        (ranks_noted r n 0 0 (parts r s n scratch.old)) }
    ensures counted { result ≡ answer (ranks_noted r n 0 0 (parts r s n scratch.old)) }
{
    let mut count = 0;
    for rank in 1..=n as u32 {
        count = note_rank(scratch, r, s, n, rank, count)?;
    }
    Some(count)
}
