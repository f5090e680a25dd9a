// The components of the cuckoo graph as a disjoint-set structure over n slots, in n lent words: union by size, no path
// compression. A word below n is the slot's parent; a word n + s marks the representative of a set of s slots. n is the
// length of the lent slice.
#![tactic(auto)]

ghost use Rattle.std.specs.Prelude.{◌≡◌, ◌≤◌, ◌<◌, length};
ghost use Rattle.partition.specs.Words.{max_points, singletons_of, Representative, rep_of, size_of, Mergeable};
ghost use Rattle.partition.specs.Words.{linked, united};

// The most parents that a slot of at most 2,048 can have on its way to the representative: each doubles the size of the
// set, and 2 to the 11th is 2,048.
const MAX_STEPS: u32 = 11;

// Each slot alone in its set.
pub fn singletons(words: &mut [u32])
    requires { length words.old ≤ max_points }
    ensures { words.new ≡ singletons_of (length words.old) }
{
    let alone = words.len() as u32 + 1;
    words::fill(words, alone);
}

// The representative of a slot's set (`find`).
pub fn representative(words: &[u32], slot: u32) -> u32
    requires { (length words.now ≤ max_points) × (slot < length words.now) }
    ensures { result ≡ rep_of words.now slot }
{
    let n = words.len() as u32;
    let mut v = slot;
    for _ in 0..MAX_STEPS {
        let word = words[v as usize];
        if n <= word {
            return v;
        }
        v = word;
    }
    v
}

// The number of slots in the set of a representative.
pub fn size(words: &[u32], rep: u32) -> u32
    requires { (length words.now ≤ max_points) × Representative words.now rep }
    ensures { result ≡ size_of words.now rep }
{
    words[rep as usize] - words.len() as u32
}

// The set of `child` joins the set of `parent`.
fn link(words: &mut [u32], child: u32, parent: u32)
    requires { (length words.old ≤ max_points) × Mergeable words.old child parent }
    ensures { words.new ≡ linked words.old child parent }
{
    let joining = size(words, child);
    words[child as usize] = parent;
    words[parent as usize] += joining;
}

// Makes one set of the sets of two different representatives: the smaller goes under the larger, and where they are as
// large, the second under the first.
pub fn unite(words: &mut [u32], first: u32, second: u32)
    requires { (length words.old ≤ max_points) × Mergeable words.old first second }
    ensures { words.new ≡ united words.old first second }
{
    if size(words, first) < size(words, second) {
        link(words, first, second);
    } else {
        link(words, second, first);
    }
}
