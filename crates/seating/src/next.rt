// Step 6: next ranks, by rank, in one pass. The note of a label is the rank of that label last seen, and at the start
// the smallest, so that the largest gets the smallest, and each smaller rank the one before it.
ghost use Rattle.std.specs.Prelude.{◌≡◌};
ghost use Rattle.build.specs.Scratch.{parts};
ghost use Rattle.build.specs.Access.{Enough};
ghost use Rattle.build.specs.NextCode.{chained_parts};

use scratch_layout::{PAIR_BASE, note, put_note, put_word, word};

// Descending; a rank of the stash is passed over. At the end no rank, 0, gets 0, so that an empty slot needs no test.
pub fn chain_ranks(scratch: &mut [u32], r: u32, s: u32, n: usize)
    requires { Enough r s n scratch.old }
    ensures { parts r s n scratch.new ≡ chained_parts r n (parts r s n scratch.old) }
{
    for rank in (1..=n as u32).rev() {
        let label = word(scratch, r, s, n, rank);
        if label < 2 * r {
            let last = note(scratch, r, s, n, label);
            put_word(scratch, r, s, n, rank, last % PAIR_BASE);
            put_note(scratch, r, s, n, label, rank);
        }
    }
    put_word(scratch, r, s, n, 0, 0);
}
