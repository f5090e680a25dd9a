// The loops over the slots of one table in which the smaller key keeps a contested slot: looking for a key, carrying
// one in, and the round that tells whether words are an image. Each promises a function of `probing`; none knows a
// hash.
#![tactic(auto)]

ghost use Rattle.std.specs.Prelude.{◌≡◌, ◌≤◌, ◌<◌, ◌+◌, length};
ghost use Rattle.probing.specs.Rule.{after, looks};
ghost use Rattle.probing.specs.Moves.{displace, wrap, turn_slot, slot_turn, wall};
ghost use Rattle.probing.specs.Walls.{Barrier, Walled};

// The most slots of a table.
pub const MAX_SLOTS: usize = 1024;

// A number below twice the slots as a slot, round the end.
fn wrapped(slots: usize, number: usize) -> usize
    requires { number < slots + slots }
    ensures at { result ≡ wrap slots number }
    ensures inside { result < slots }
{
    if number < slots {
        number
    } else {
        number - slots
    }
}

// The slot after a slot.
fn next_slot(slots: usize, slot: usize) -> usize
    requires { slot < slots }
    ensures at { result ≡ after slots slot }
    ensures inside { result < slots }
{
    wrapped(slots, slot + 1)
}

// Whether a way from a slot on comes to a key: over smaller keys, a full round at most.
pub fn is_found(words: &[u32], start: usize, key: u32) -> bool
    requires { (start < length words.now) × (0 < key) }
    ensures { result
        ≡ looks (length words.now) (length words.now) words.now key start }
{
    let slots = words.len();
    let mut slot = start;
    for _ in 0..slots {
        let word = words[slot];
        if key <= word {
            return word == key;
        }
        if word == 0 {
            return false;
        }
        slot = next_slot(slots, slot);
    }
    false
}

// A key is carried from its start on: it takes the first empty slot on its way, or that of the first larger key, which
// is carried on in its place.
pub fn carry(words: &mut [u32], start: usize, key: u32)
    requires { start < length words.old }
    ensures { words.new
        ≡ displace (length words.old) (length words.old) words.old key start }
{
    let slots = words.len();
    let mut carried = key;
    let mut slot = start;
    for _ in 0..slots {
        let word = words[slot];
        if word == 0 {
            words[slot] = carried;
            return;
        }
        if carried < word {
            words[slot] = carried;
            carried = word;
        }
        slot = next_slot(slots, slot);
    }
}

// A slot that no key passes: an empty one, or the one that holds the largest word.
pub fn barrier(words: &[u32]) -> usize
    requires { 0 < length words.now }
    ensures inside { result < length words.now }
    ensures unpassed { Barrier (length words.now) words.now result }
{
    let mut largest = 0;
    for (slot, &word) in words.iter().enumerate() {
        if word == 0 {
            return slot;
        }
        if words[largest] < word {
            largest = slot;
        }
    }
    largest
}

// The slot of a turn, and the turn of a slot, in a round that starts behind slot `base`.
pub fn slot_of(slots: usize, base: usize, turn: usize) -> usize
    requires { (base < slots) × (turn < slots) × (slots ≤ 1024) }
    ensures at { result ≡ turn_slot slots base turn }
    ensures inside { result < slots }
{
    wrapped(slots, turn + (base + 1))
}

pub fn turn_of(slots: usize, base: usize, slot: usize) -> usize
    requires { (base < slots) × (slot < slots) × (slots ≤ 1024) }
    ensures at { result ≡ slot_turn slots base slot }
    ensures inside { result < slots }
{
    wrapped(slots, slot + (slots - (base + 1)))
}

// The wall of a key that comes at a turn, by the walls of the turns before: a smaller key is passed, and with it all
// that it has passed. In all turns of a round together the loop goes on at most once for each slot (`few_jumps`,
// probing/proofs/Linear.antt).
pub fn wall_of(words: &[u32], walls: &[u16; MAX_SLOTS], base: usize, turn: usize, key: u32) -> usize
    requires { (base < length words.now) × (turn < length words.now) × (length words.now ≤ 1024)
        × Walled (length words.now) words.now base walls.now turn }
    ensures at { result ≡ wall (length words.now) words.now base key turn }
    ensures inside { result ≤ turn }
{
    let slots = words.len();
    let mut wall = turn;
    // A while: a wall goes back over many turns at once.
    while 0 < wall {
        let before = wall - 1;
        let word = words[slot_of(slots, base, before)];
        if word == 0 || key <= word {
            return wall;
        }
        wall = usize::from(walls[before]);
    }
    0
}
