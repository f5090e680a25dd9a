// An edge: one word with the two slots of a key and its tier, all that the build and `image` need of it. Edges are made
// and taken apart here, and nowhere else: whoever has one asks for its parts, and counts nothing.
#![tactic(auto)]

ghost use Rattle.std.specs.Prelude.{◌≡◌};
ghost use Rattle.edges.specs.Edge.{packed, first_of, second_of, tier_of_edge, Packable};

// What the slot in table 1 counts: it stands above the slot in table 0.
const SECOND_BASE: u32 = 2_048;

// What the tier counts: it stands above both slots.
const TIER_BASE: u32 = 4_194_304;

pub fn pack(first: u32, second: u32, tier: u32) -> u32
    requires { Packable first second tier }
    ensures { result ≡ packed first second tier }
{
    first + SECOND_BASE * second + TIER_BASE * tier
}

// The slot in table 0.
pub fn first(edge: u32) -> u32
    ensures { result ≡ first_of edge }
{
    edge % SECOND_BASE
}

// The slot in table 1.
pub fn second(edge: u32) -> u32
    ensures { result ≡ second_of edge }
{
    edge / SECOND_BASE % SECOND_BASE
}

pub fn tier(edge: u32) -> u32
    ensures { result ≡ tier_of_edge edge }
{
    edge / TIER_BASE
}
