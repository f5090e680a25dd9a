// The oriented forest of ranks, in one lent stretch of words: first a word for each of the 2r slots, the rank that
// stands there or 0, then the edges of the ranks 1, 2, .. (specs/Graph.antt). Each rank leads from where it stands to
// its other slot, towards the root of its tree, which is bare (specs/Oriented.antt). The tree of a slot is re-rooted
// there, and a component is finished: afterwards each of its slots holds its occupant in the canonical image.
#![tactic(auto)]

ghost use Rattle.std.specs.Prelude.{◌≡◌, ◌*◌, ◌<◌, length};
ghost use Rattle.forest.specs.Edges.{edge_at};
ghost use Rattle.forest.specs.Graph.{Graph, edges_in, first_slot, second_slot, other_slot, rerooted, lowest};
ghost use Rattle.forest.specs.Graph.{finished_tree, exchanged, finished_cycle};

use words::wide;

// The edge of a rank.
fn edge(graph: &[u32], r: u32, rank: u32) -> u32
    requires { Graph r graph.now × (0 < rank) × (rank < length (edges_in r graph.now)) }
    ensures { result ≡ edge_at r (edges_in r graph.now) rank }
{
    let at = wide(2 * r) + wide(rank) - 1;
    graph[at]
}

// The slot of a rank in table 0. That of 0 is the first, as good as any, so that no caller needs to ask.
fn first_slot(graph: &[u32], r: u32, rank: u32) -> u32
    requires { Graph r graph.now × (rank < length (edges_in r graph.now)) }
    ensures { (result ≡ first_slot r graph.now rank) × (result < 2 * r) }
{
    if rank == 0 {
        0
    } else {
        edges::first(edge(graph, r, rank))
    }
}

// The slot of a rank in table 1. Not one function with `first_slot`: a parameter for the table would be asked about in
// the code and in the contract, and only the slot in table 0 is asked of rank 0.
fn second_slot(graph: &[u32], r: u32, rank: u32) -> u32
    requires { Graph r graph.now × (0 < rank) × (rank < length (edges_in r graph.now)) }
    ensures { (result ≡ second_slot r graph.now rank) × (result < 2 * r) }
{
    edges::second(edge(graph, r, rank))
}

// The other slot of a rank that stands in `slot`.
fn other_slot(graph: &[u32], r: u32, slot: u32, rank: u32) -> u32
    requires { Graph r graph.now × (0 < rank) × (rank < length (edges_in r graph.now)) }
    ensures { (result ≡ other_slot r graph.now slot rank) × (result < 2 * r) }
{
    if slot < r {
        second_slot(graph, r, rank)
    } else {
        first_slot(graph, r, rank)
    }
}

// Makes `slot` the root of its tree, and leaves the rank `carry` there: every rank on the way to the old root moves to
// its other slot. No way is longer than there are slots, which bounds the loop.
pub fn reroot(graph: &mut [u32], r: u32, slot: u32, carry: u32)
    requires { Graph r graph.old × (slot < 2 * r) × (carry < length (edges_in r graph.old)) }
    ensures { graph.new ≡ rerooted r graph.old carry slot }
{
    let mut at = slot;
    let mut moving = carry;
    for _ in 0..2 * r + 1 {
        let rank = graph[at as usize];
        graph[at as usize] = moving;
        if rank == 0 {
            return;
        }
        moving = rank;
        at = other_slot(graph, r, at, rank);
    }
}

// The slot of the smallest rank on the way from `slot` to the root of its tree.
fn lowest_slot(graph: &[u32], r: u32, slot: u32) -> u32
    requires { Graph r graph.now × (slot < 2 * r) }
    ensures { (result ≡ lowest r graph.now slot) × (result < 2 * r) }
{
    let mut at = slot;
    let mut low = slot;
    for _ in 0..2 * r + 1 {
        let rank = graph[at as usize];
        if rank == 0 {
            return low;
        }
        if rank < graph[low as usize] {
            low = at;
        }
        at = other_slot(graph, r, at, rank);
    }
    low
}

// Finishes a component without a cycle, whose smallest rank is `rank`.
pub fn finish_tree(graph: &mut [u32], r: u32, rank: u32)
    requires { Graph r graph.old × (rank < length (edges_in r graph.old)) }
    ensures { graph.new ≡ finished_tree r graph.old rank }
{
    let first = first_slot(graph, r, rank);
    reroot(graph, r, first, rank);
}

// The rank in the slot `low` goes out of the tree, `rank` comes in at its slot in table 1, and the tree is re-rooted at
// the other's slot in table 0.
fn exchange(graph: &mut [u32], r: u32, rank: u32, low: u32)
    requires { Graph r graph.old × (0 < rank) × (rank < length (edges_in r graph.old)) × (low < 2 * r) }
    ensures { graph.new ≡ exchanged r graph.old rank low }
{
    let smallest = graph[low as usize];
    graph[low as usize] = 0;
    let second = second_slot(graph, r, rank);
    reroot(graph, r, second, rank);
    let first = first_slot(graph, r, smallest);
    reroot(graph, r, first, smallest);
}

// Finishes a component with a cycle, whose one rank outside the forest is `rank`: that comes in for the smallest rank
// on the cycle.
pub fn finish_cycle(graph: &mut [u32], r: u32, rank: u32)
    requires { Graph r graph.old × (0 < rank) × (rank < length (edges_in r graph.old)) }
    ensures { graph.new ≡ finished_cycle r graph.old rank }
{
    let first = first_slot(graph, r, rank);
    reroot(graph, r, first, 0);
    let second = second_slot(graph, r, rank);
    let low = lowest_slot(graph, r, second);
    exchange(graph, r, rank, low);
}
