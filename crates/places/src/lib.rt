// The places of the stash, a key and its tier each: whether a key stands in one, and its tier. A lookup of an absent
// key goes through all of them, so that is made fast: every word is compared first, keys and tiers alike, in a loop
// that takes several at once.
#![tactic(auto)]

ghost use Rattle.std.specs.Prelude.{◌≡◌, ◌||◌, ◌*◌, ◌≤◌, length};
ghost use Rattle.basics.specs.Sets.{member};
ghost use Rattle.layout.specs.Layout.{place_width, max_places, place_entries};
ghost use Rattle.layout.specs.Answers.{found, looked_up};

use layout::PLACE_WIDTH;

// Whether a word stands in one of two stretches of one length. All of both are looked at, a word of each in a turn, so
// that the compiler can compare several at once.
fn among(front: &[u32], back: &[u32], word: u32) -> bool
    requires { length front.now ≡ length back.now }
    ensures { result ≡ (member word front.now || member word back.now) }
{
    let mut found = false;
    for i in 0..front.len() {
        found |= word == front[i];
        found |= word == back[i];
    }
    found
}

// Where a key is found among the places: the tier in the first that holds it, or that none does.
pub fn find_place(places: &[u32], count: usize, key: u32) -> Option<u32>
    requires { (length places.now ≡ place_width * count) × (count ≤ max_places) }
    ensures { found result ≡ looked_up (place_entries count places.now) key }
{
    if !among(&places[..count], &places[count..], key) {
        return None;
    }
    for i in 0..count {
        if key == places[PLACE_WIDTH * i] {
            return Some(places[PLACE_WIDTH * i + 1]);
        }
    }
    None
}
