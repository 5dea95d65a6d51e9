// Why a call is refused before it has a state to report.

ghost use Rattle.replay.specs.Refused.{Refuses};
ghost use Rattle.replay.specs.declared.refusal.Refusal.TheVariants.{Table};
ghost use Rattle.std.specs.Prelude.{◌≡◌};

use paper::Answer;

#[derive(Clone, Copy, PartialEq, Eq)]
pub(crate) enum Refusal {
    // 3 to 8.
    Table(table::Refusal),
    // 12.
    Image,
    // 13.
    Room,
}

impl From<table::Refusal> for Refusal {
    ghost from_gives = { λ e r. r ≡ Table e };

    fn from(refusal: table::Refusal) -> Refusal {
        Refusal::Table(refusal)
    }
}

// A refusal that is not of an action: steps 0, outcome 0, root 255, waiting 0.
impl From<Refusal> for Answer {
    ghost from_gives = { Refuses };

    fn from(refusal: Refusal) -> Answer {
        let (number, place) = match refusal {
            Refusal::Table(refusal) => (refusal.number(), refusal.place()),
            Refusal::Image => (12, 0),
            Refusal::Room => (13, 0),
        };
        Answer::refused(number, place)
    }
}
