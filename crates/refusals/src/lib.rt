// Why calls are refused: document 01's table, "What a call gives back", and document 02's. A call answers a `Result` with
// one of these as its error; its number, and that the first that applies is given, is in specs/Refusal.antt. 0 is "done".
#![tactic(auto)]

ghost use Rattle.std.specs.Prelude.{◌≡◌};
ghost use Rattle.refusals.specs.Answer.{number, number_of};

#[derive(Clone, Copy, Debug, PartialEq, Eq)]
pub enum Refusal {
    // The tabulation has another length.
    WrongTabulation,

    // The words are not laid out as a dictionary, or r, s or the station, given or in them, is outside its range; of the
    // hashes of a key alone, r or the station is.
    WrongShape,

    // The scratch is too short.
    ShortScratch,

    // The words are the canonical image of no set.
    NotCanonical,

    // The key is blank.
    BlankKey,

    // Insert of a key that is in the set.
    KeyPresent,

    // Removal of a key that is not in the set.
    KeyAbsent,

    // The stash of the new set would have more keys than there are places.
    StashFull,

    // Insert with a tier above 7.
    WrongTier,

    // Insert of a key that is in the set, with another tier.
    OtherTier,

    // The words that are lent for a trail are fewer than it has keys.
    ShortTrail,

    // A sale's base price or a step is outside its range, or the key's price is below 1.
    WrongPrice,

    // Insert of a key of which another issue is in the set.
    OtherIssue,

    // The input of a bulk load has an odd number of words, or its keys do not rise.
    NotRising,

    // Something stands in the words of a salvage, and no key counts.
    NoneCounts,

    // Insert into a list of stolen keys all of whose slots are filled.
    TableFull,
}

// The number by which C and the console know it.
impl From<Refusal> for u32 {
    ghost from_gives = { λ refusal n. n ≡ number_of refusal };

    fn from(refusal: Refusal) -> u32 {
        match refusal {
            Refusal::WrongTabulation => 1,
            Refusal::WrongShape => 2,
            Refusal::ShortScratch => 3,
            Refusal::NotCanonical => 4,
            Refusal::BlankKey => 5,
            Refusal::KeyPresent => 6,
            Refusal::KeyAbsent => 7,
            Refusal::StashFull => 8,
            Refusal::WrongTier => 9,
            Refusal::OtherTier => 10,
            Refusal::ShortTrail => 11,
            Refusal::WrongPrice => 12,
            Refusal::OtherIssue => 13,
            Refusal::NotRising => 14,
            Refusal::NoneCounts => 15,
            Refusal::TableFull => 16,
        }
    }
}

// The number of an answer that says no more than that: 0 for done.
pub fn number(answer: Result<(), Refusal>) -> u32
    ensures { result ≡ number answer }
{
    match answer {
        Ok(()) => 0,
        Err(refusal) => u32::from(refusal),
    }
}
