// Step 5: each component is brought to its seats once, at its smallest rank: a tree by that rank, a cycle by the rank
// that closes it, which is noted there too.
ghost use Rattle.std.specs.Prelude.{◌≡◌, ◌≤◌, ◌<◌, length};
ghost use Rattle.forest.specs.Graph.{Graph, edges_in, finished_tree, finished_cycle};
ghost use Rattle.build.specs.Scratch.{parts, with_graph};
ghost use Rattle.build.specs.Access.{Enough};
ghost use Rattle.build.specs.FinishCode.{Finishable, rank_finished, ranks_finished};

use scratch_layout::{PAIR_BASE, graph_range, note, word};

// The graph is lent to `forest`.
fn finish_tree(scratch: &mut [u32], r: u32, s: u32, n: usize, rank: u32)
    requires { Enough r s n scratch.old × Graph r (parts r s n scratch.old).graph
        × (rank < length (edges_in r (parts r s n scratch.old).graph)) }
    ensures { parts r s n scratch.new ≡ with_graph (parts r s n scratch.old)
        (finished_tree r (parts r s n scratch.old).graph rank) }
{
    forest::finish_tree(&mut scratch[graph_range(r, s, n)], r, rank);
}

fn finish_cycle(scratch: &mut [u32], r: u32, s: u32, n: usize, rank: u32)
    requires { Enough r s n scratch.old × Graph r (parts r s n scratch.old).graph × (0 < rank)
        × (rank < length (edges_in r (parts r s n scratch.old).graph)) }
    ensures { parts r s n scratch.new ≡ with_graph (parts r s n scratch.old)
        (finished_cycle r (parts r s n scratch.old).graph rank) }
{
    forest::finish_cycle(&mut scratch[graph_range(r, s, n)], r, rank);
}

// One rank: nothing is to be done for one of the stash, and for one that is not the smallest of its label.
fn finish_rank(scratch: &mut [u32], r: u32, s: u32, n: usize, rank: u32)
    requires { Enough r s n scratch.old × (rank ≤ n) × Finishable r n (parts r s n scratch.old) }
    ensures { parts r s n scratch.new ≡ rank_finished r rank (parts r s n scratch.old) }
{
    let label = word(scratch, r, s, n, rank);
    if 2 * r <= label {
        return;
    }
    let noted = note(scratch, r, s, n, label);
    if noted % PAIR_BASE != rank {
        return;
    }
    if noted < PAIR_BASE {
        finish_tree(scratch, r, s, n, rank);
    } else {
        finish_cycle(scratch, r, s, n, noted / PAIR_BASE);
    }
}

// The ranks 1 to n.
pub fn finish_ranks(scratch: &mut [u32], r: u32, s: u32, n: usize)
    requires { Enough r s n scratch.old × Finishable r n (parts r s n scratch.old) }
    ensures { parts r s n scratch.new ≡ ranks_finished r n (parts r s n scratch.old) }
{
    for rank in 1..=n as u32 {
        finish_rank(scratch, r, s, n, rank);
    }
}
