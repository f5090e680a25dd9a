// What every layer does with lent words: use one as an index, tell two apart, and fill them.
#![tactic(auto)]

ghost use Rattle.std.specs.Prelude.{◌≡◌, cond, ◌≤◌, eqb, length, replicate};

// A word as an index.
pub fn wide(x: u32) -> usize
    ensures { result ≡ x }
{
    x as usize
}

// 1 where two words differ, 0 where they are equal. It is a number, so that a caller whose end moves by it adds, and
// does not branch on what is as good as random.
pub fn differs(x: u32, y: u32) -> usize
    ensures { (result ≡ cond (eqb x y) 0 1) × (result ≤ 1) }
{
    usize::from(x != y)
}

// One value over the whole length.
pub fn fill(words: &mut [u32], value: u32)
    ensures { words.new ≡ replicate (length words.old) value }
{
    // A loop by hand: std's fill writes the last word by itself, and takes 539 instructions for 256 words, not 510.
    for word in words.iter_mut() {
        *word = value;
    }
}
