// How the trail of a key is found: the walk through the words that closes on itself (`walk`), and where the keys that
// it met are cut off (`cut`). Nothing here knows how words are read as a set, or what a call answers.
#![tactic(auto)]

pub mod cut;
pub mod walk;
