// Document 01 as definitions, with the published automaton beside it and the replays P1 to P12; of code only what every call answers.

#![tactic(auto)]

mod refused;

use std::fmt;

// What every call answers: the six numbers of document 01, in its order. They stay numbers, since the clause of every call, `result ≡ NAME_answer ..`, and the
// C interface's word speak of them.
#[derive(Clone, Copy, Debug, PartialEq, Eq)]
pub struct Answer {
    pub refusal: u8,
    pub place: u16,
    pub steps: u16,
    pub outcome: u8,
    pub root: u8,
    pub waiting: u8,
}

// The six numbers in decimal, one space between.
impl fmt::Display for Answer {
    ghost use Rattle.std.specs.Prelude.{Some};
    ghost use Rattle.paper.specs.Shown.{shown};

    ghost output = { λ a. Some (shown a) };

    fn fmt<W: fmt::Write>(&self, f: &mut fmt::Formatter<W>) -> fmt::Result {
        let Answer {
            refusal,
            place,
            steps,
            outcome,
            root,
            waiting,
        } = *self;
        write!(f, "{refusal} {place} {steps} {outcome} {root} {waiting}")
    }
}
