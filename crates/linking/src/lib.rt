// Steps 1 and 2 of the build: the ranks are linked into Kruskal's forest, ascending, in the graph and the sets, and
// each rank gets its label. Every function takes the whole of scratch and lends one part of it.
#![tactic(auto)]

ghost use Rattle.std.specs.Prelude.{◌≡◌, cond, ◌*◌, ◌≤◌, ◌<◌, ltb, length};
ghost use Rattle.forest.specs.Edges.{Edges};
ghost use Rattle.forest.specs.Graph.{Graph, edges_in, rerooted};
ghost use Rattle.partition.specs.Words.{Representative, Mergeable, rep_of, size_of, united};
ghost use Rattle.build.specs.Scratch.{parts, with_graph, with_sets};
ghost use Rattle.build.specs.Access.{Enough};
ghost use Rattle.build.specs.LinkCode.{Found, Linkable, rank_linked, ranks_linked, unlinked_parts, linked_parts};
ghost use Rattle.build.specs.LinkCode.{Marks, labelled_parts};

use scratch_layout::{edges_start, graph_range, held_start, put_word, sets_range, word};

// The representative of a slot's set.
fn set_of(scratch: &[u32], r: u32, s: u32, n: usize, slot: u32) -> u32
    requires { Enough r s n scratch.now × (slot < 2 * r) }
    ensures { (result ≡ rep_of (parts r s n scratch.now).sets slot) × (result < 2 * r) }
{
    partition::representative(&scratch[sets_range(r, s)], slot)
}

// The number of slots in the set of a representative.
fn set_size(scratch: &[u32], r: u32, s: u32, n: usize, rep: u32) -> u32
    requires { Enough r s n scratch.now × Representative (parts r s n scratch.now).sets rep }
    ensures { result ≡ size_of (parts r s n scratch.now).sets rep }
{
    partition::size(&scratch[sets_range(r, s)], rep)
}

// Two sets become one.
fn unite_sets(scratch: &mut [u32], r: u32, s: u32, n: usize, first: u32, second: u32)
    requires { Enough r s n scratch.old × Mergeable (parts r s n scratch.old).sets first second }
    ensures { parts r s n scratch.new ≡ with_sets (parts r s n scratch.old)
        (united (parts r s n scratch.old).sets first second) }
{
    partition::unite(&mut scratch[sets_range(r, s)], first, second);
}

// The tree of a slot is re-rooted there, with the rank `carry`.
fn reroot_graph(scratch: &mut [u32], r: u32, s: u32, n: usize, slot: u32, carry: u32)
    requires { Enough r s n scratch.old × Graph r (parts r s n scratch.old).graph × (slot < 2 * r)
        × (carry < length (edges_in r (parts r s n scratch.old).graph)) }
    ensures { parts r s n scratch.new ≡ with_graph (parts r s n scratch.old)
        (rerooted r (parts r s n scratch.old).graph carry slot) }
{
    forest::reroot(&mut scratch[graph_range(r, s, n)], r, slot, carry);
}

// What is found of a rank: its two slots, `first` and `second`, and the representatives of their sets, `one` and `two`.
#[derive(Clone, Copy)]
struct Ends {
    first: u32,
    second: u32,
    one: u32,
    two: u32,
}

fn ends_of(scratch: &[u32], r: u32, s: u32, n: usize, rank: u32) -> Ends
    requires { Enough r s n scratch.now × (0 < rank) × (rank ≤ n)
        × Edges r (edges_in r (parts r s n scratch.now).graph) }
    ensures { Found r (edges_in r (parts r s n scratch.now).graph)
        (parts r s n scratch.now).sets rank result.first result.second result.one result.two }
{
    let edge = scratch_layout::edge(scratch, r, s, n, rank);
    let first = edges::first(edge);
    let second = edges::second(edge);
    let one = set_of(scratch, r, s, n, first);
    let two = set_of(scratch, r, s, n, second);
    Ends {
        first,
        second,
        one,
        two,
    }
}

// The end of a rank in the smaller set.
fn smaller_end(scratch: &[u32], r: u32, s: u32, n: usize, ends: Ends) -> u32
    requires { Enough r s n scratch.now × Representative (parts r s n scratch.now).sets ends.one
        × Representative (parts r s n scratch.now).sets ends.two }
    ensures { result ≡ cond (ltb (size_of (parts r s n scratch.now).sets ends.one)
        (size_of (parts r s n scratch.now).sets ends.two))
        ends.first ends.second }
{
    if set_size(scratch, r, s, n, ends.one) < set_size(scratch, r, s, n, ends.two) {
        ends.first
    } else {
        ends.second
    }
}

// One rank: where its ends are in one set already it closes a cycle, and is marked by 2r; otherwise it is marked by 0,
// links two trees, and two sets become one.
fn link_rank(scratch: &mut [u32], r: u32, s: u32, n: usize, rank: u32)
    requires { Enough r s n scratch.old × (0 < rank) × (rank ≤ n) × Linkable r (parts r s n scratch.old) }
    ensures { parts r s n scratch.new ≡ rank_linked r rank (parts r s n scratch.old) }
{
    let ends = ends_of(scratch, r, s, n, rank);
    if ends.one == ends.two {
        put_word(scratch, r, s, n, rank, 2 * r);
        return;
    }
    let end = smaller_end(scratch, r, s, n, ends);
    put_word(scratch, r, s, n, rank, 0);
    reroot_graph(scratch, r, s, n, end, rank);
    unite_sets(scratch, r, s, n, ends.one, ends.two);
}

// Every slot bare, and alone in its set.
fn unlink(scratch: &mut [u32], r: u32, s: u32, n: usize)
    requires { Enough r s n scratch.old }
    ensures { parts r s n scratch.new ≡ unlinked_parts r (parts r s n scratch.old) }
{
    words::fill(&mut scratch[held_start(r, s)..edges_start(r, s)], 0);
    partition::singletons(&mut scratch[sets_range(r, s)]);
}

// The ranks 1 to n.
fn link_each(scratch: &mut [u32], r: u32, s: u32, n: usize)
    requires { Enough r s n scratch.old × Linkable r (parts r s n scratch.old) }
    ensures { parts r s n scratch.new ≡ ranks_linked r n (parts r s n scratch.old) }
{
    for rank in 1..=n as u32 {
        link_rank(scratch, r, s, n, rank);
    }
}

// Step 1, whatever stood in the held words, the sets and the words of the ranks.
pub fn link_ranks(scratch: &mut [u32], r: u32, s: u32, n: usize)
    requires { Enough r s n scratch.old × Edges r (edges_in r (parts r s n scratch.old).graph) }
    ensures { parts r s n scratch.new ≡ linked_parts r n (parts r s n scratch.old) }
{
    unlink(scratch, r, s, n);
    link_each(scratch, r, s, n);
}

// Step 2: the label of each rank, the representative of its slot in table 0, is added to its word.
pub fn label_ranks(scratch: &mut [u32], r: u32, s: u32, n: usize)
    requires { Enough r s n scratch.old × Edges r (edges_in r (parts r s n scratch.old).graph)
        × Marks r n 0 (parts r s n scratch.old).next }
    ensures { parts r s n scratch.new ≡ labelled_parts r n (parts r s n scratch.old) }
{
    for rank in 1..=n as u32 {
        let slot = edges::first(scratch_layout::edge(scratch, r, s, n, rank));
        let label = set_of(scratch, r, s, n, slot);
        let mark = word(scratch, r, s, n, rank);
        put_word(scratch, r, s, n, rank, mark + label);
    }
}
