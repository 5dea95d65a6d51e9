// The answer to what is refused and has no state to report.
ghost use Rattle.std.specs.Prelude.{◌≡◌};
ghost use Rattle.paper.specs.Calls.{refused_with};

use crate::Answer;

impl Answer {
    // Refusal and place, with steps 0, outcome 0, root 255 and waiting 0.
    pub fn refused(refusal: u8, place: u16) -> Answer
        ensures { result ≡ refused_with (record { number = refusal; place = place }) }
    {
        Answer {
            refusal,
            place,
            steps: 0,
            outcome: 0,
            root: 255,
            waiting: 0,
        }
    }
}
