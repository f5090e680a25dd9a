// Steps 5 and 6 of the build, and the build as a whole: from the edges of ranks to the canonical image, in scratch;
// slots, next and stash exactly as `cuckoo` defines them. What callers read is build/specs/Build.antt.
#![tactic(auto)]

ghost use Rattle.std.specs.Prelude.{◌≡◌};
ghost use Rattle.build.specs.Scratch.{parts};
ghost use Rattle.build.specs.Access.{Enough};
ghost use Rattle.build.specs.NotesCode.{answer};
ghost use Rattle.build.specs.FinishCode.{Finishable, ranks_finished};
ghost use Rattle.build.specs.NextCode.{chained_parts};
ghost use Rattle.build.specs.Whole.{noted_from, whole_noting};
ghost use Rattle.build.specs.Build.{Buildable, Built};

mod finish;
mod next;

// Steps 1 to 4: the ranks linked, labelled and noted; how many of them the stash has, or None, where it has no room.
fn prepare(scratch: &mut [u32], r: u32, s: u32, n: usize) -> Option<u32>
    requires { Buildable r s n scratch.old }
    ensures prepared { parts r s n scratch.new
        ≡ noted_from r s n (parts r s n scratch.old) }
    ensures counted { result ≡ answer (whole_noting r s n (parts r s n scratch.old)) }
{
    linking::link_ranks(scratch, r, s, n);
    linking::label_ranks(scratch, r, s, n);
    noting::clear_notes(scratch, r, s, n);
    noting::note_smallest(scratch, r, s, n);
    noting::note_closing(scratch, r, s, n)
}

// Steps 5 and 6: every component brought to its seats, and the next ranks.
fn seat(scratch: &mut [u32], r: u32, s: u32, n: usize)
    requires { Enough r s n scratch.old × Finishable r n (parts r s n scratch.old) }
    ensures { parts r s n scratch.new
        ≡ chained_parts r n (ranks_finished r n (parts r s n scratch.old)) }
{
    finish::finish_ranks(scratch, r, s, n);
    next::chain_ranks(scratch, r, s, n);
}

// The build of n ranks by the edges in scratch: their image in scratch and how many ranks the stash has, or None, where
// the stash has no room for them. The words of the keys and the edges stay.
pub fn build(scratch: &mut [u32], r: u32, s: u32, n: usize) -> Option<u32>
    requires { Buildable r s n scratch.old }
    ensures { Built r s n scratch.old scratch.new result }
{
    let stashed = prepare(scratch, r, s, n)?;
    seat(scratch, r, s, n);
    Some(stashed)
}
