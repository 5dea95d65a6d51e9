// The steps of the automaton by their kinds, as an action's first byte numbers them.

ghost use Rattle.std.specs.Prelude.{◌≡◌};

use crate::Direction;

// The kinds of step at a node.
#[derive(Clone, Copy, PartialEq, Eq)]
pub enum NodeKind {
    ChildrenKnown = 1,
    BecomeRoot = 5,
}

// The kinds of step on a direction.
#[derive(Clone, Copy, PartialEq, Eq)]
pub enum LinkKind {
    AddChild = 2,
    Acknowledge = 3,
    Resolve = 4,
}

// A kind of step.
#[derive(Clone, Copy, PartialEq, Eq)]
pub enum Kind {
    Node(NodeKind),
    Link(LinkKind),
}

// A step: a kind at a node, or a kind on a direction.
#[derive(Clone, Copy, PartialEq, Eq)]
pub enum Step {
    Node(NodeKind, usize),
    Link(LinkKind, Direction),
}

// A number read as a kind at a node: 1 is children known, every other becomes root.
impl From<usize> for NodeKind {
    ghost use Rattle.upload.specs.Kinds.{NodeReads};

    ghost from_gives = { NodeReads };

    fn from(number: usize) -> NodeKind {
        match number {
            1 => NodeKind::ChildrenKnown,
            _ => NodeKind::BecomeRoot,
        }
    }
}

// A number read as a kind on a direction: 2 adds a child, 3 acknowledges, every other resolves.
impl From<usize> for LinkKind {
    ghost use Rattle.upload.specs.Kinds.{LinkReads};

    ghost from_gives = { LinkReads };

    fn from(number: usize) -> LinkKind {
        match number {
            2 => LinkKind::AddChild,
            3 => LinkKind::Acknowledge,
            _ => LinkKind::Resolve,
        }
    }
}

// A number that is no kind's.
#[derive(Clone, Copy, PartialEq, Eq)]
pub struct NoKind(pub u8);

impl TryFrom<u8> for Kind {
    ghost use Rattle.upload.specs.Kinds.{Numbers};

    type Error = NoKind;

    ghost try_from_gives = { Numbers };

    fn try_from(number: u8) -> Result<Kind, NoKind> {
        match number {
            1 | 5 => Ok(Kind::Node(NodeKind::from(usize::from(number)))),
            2..=4 => Ok(Kind::Link(LinkKind::from(usize::from(number)))),
            _ => Err(NoKind(number)),
        }
    }
}
