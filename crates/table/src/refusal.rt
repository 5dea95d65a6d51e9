// Why the reader refuses an upload.

ghost use Rattle.std.specs.Prelude.{◌≡◌};

// The grounds of checks 3 to 8; of a link, its number among the links.
#[derive(Clone, Copy, PartialEq, Eq)]
pub enum Refusal {
    Length,
    Range,
    NamesNoNode(u8),
    JoinsItself(u8),
    Repeats(u8),
    Pieces,
}

impl Refusal {
    ghost use Rattle.table.specs.Told.{number, place};

    // The number of the check that refuses.
    pub fn number(self) -> u8
        ensures { result ≡ number self }
    {
        match self {
            Refusal::Length => 3,
            Refusal::Range => 4,
            Refusal::NamesNoNode(_) => 5,
            Refusal::JoinsItself(_) => 6,
            Refusal::Repeats(_) => 7,
            Refusal::Pieces => 8,
        }
    }

    // The number of the link, 0 where the ground is not a link.
    pub fn place(self) -> u16
        ensures { result ≡ place self }
    {
        match self {
            Refusal::NamesNoNode(link) | Refusal::JoinsItself(link) | Refusal::Repeats(link) => {
                u16::from(link)
            }
            Refusal::Length | Refusal::Range | Refusal::Pieces => 0,
        }
    }
}
