// The counters (document 01's "meter"), by value: a call of init, insert or remove moves one of the two counts on, and
// nothing depends on them. The calls that hold them by reference are in `pinorange`.
#![tactic(auto)]

ghost use Rattle.std.specs.Prelude.{◌≡◌};
ghost use Rattle.counters.specs.Counters.{one_more, counted};

// Accepted calls and refused ones.
#[repr(C)]
#[derive(Clone, Copy)]
pub struct Counters {
    pub done: u32,
    pub refused: u32,
}

// What a counted call gives back: its answer, and the counters moved on. It stands for an exported call, and C gets the
// number: any is taken, whether or not a refusal has it.
#[derive(Clone, Copy)]
pub struct Counted {
    pub answer: u32,
    pub counters: Counters,
}

// One more, but a count at the limit stays.
#[tactic(auto, using(crate::proofs::Saturated::saturated, crate::proofs::Saturated::stays))]
fn one_more(count: u32) -> u32
    ensures { result ≡ one_more count }
{
    count.saturating_add(1)
}

// The counters after a call that gave this answer.
pub fn counted_by(counters: Counters, answer: u32) -> Counters
    ensures { result ≡ counted counters answer }
{
    if answer == 0 {
        Counters {
            done: one_more(counters.done),
            ..counters
        }
    } else {
        Counters {
            refused: one_more(counters.refused),
            ..counters
        }
    }
}

// An answer, with the counters that it moves on.
pub fn with_counts(answer: u32, counters: Counters) -> Counted
    ensures same { result.answer ≡ answer }
    ensures moved { result.counters ≡ counted counters answer }
{
    let moved = counted_by(counters, answer);
    Counted {
        answer,
        counters: moved,
    }
}
