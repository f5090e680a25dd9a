// What insert, remove, check, trail and the calls of a sale answer and leave, as definitions and laws, apart from the
// code that does it: `dictionary`, `trail` and `sale` have the code, and `history` the theorem about whole sequences,
// which needs these alone.
#![tactic(auto)]

// Which change of the set a call asks for: a key comes in with a tier, or a key goes.
#[derive(Clone, Copy)]
pub enum Change {
    Insert(u32),
    Remove,
}

// The record of a sale, from nozzle lift to hang-up: the key, the tier at which it was listed, and the price of a litre
// in tenths of a cent.
#[repr(C)]
#[derive(Clone, Copy)]
pub struct Sale {
    pub key: u32,
    pub tier: u32,
    pub price: u32,
}
