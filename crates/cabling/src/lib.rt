// The cabling that an accepted upload tells: its nodes, its links, and the ends of their directions.

#![tactic(auto)]

ghost use Rattle.std.specs.Prelude.{◌≡◌, ◌<◌, ◌≤◌, length};
ghost use Rattle.paper.specs.Table.{source, target};
ghost use Rattle.paper.specs.Actions.{direction_from};
ghost use Rattle.paper.specs.Image.{image_length};
ghost use Rattle.cabling.specs.Accepted.{Passes};

use upload::{Direction, Upload};

// An upload that passes checks 3 to 8.
#[derive(Clone, Copy)]
pub struct Cabling<'a> {
    pub upload: Upload<'a>,
    ghost passes: { Passes upload.bytes.now },
}

impl Cabling<'_> {
    ghost use Rattle.cabling.specs.Cables.{cables};

    // The number of nodes.
    pub fn nodes(&self) -> usize
        ensures { (result ≡ (cables self.now).nodes) × (result ≤ 63) }
    {
        self.upload.nodes()
    }

    // The number of links.
    pub fn links(&self) -> usize
        ensures { (result ≡ (cables self.now).links) × (result ≤ 126) }
    {
        self.upload.links()
    }

    // The node that a direction comes from.
    pub fn source(&self, d: Direction) -> usize
        requires { d.link < (cables self.now).links }
        ensures { (result ≡ source (cables self.now) d.link d.back) × (result < (cables self.now).nodes) }
    {
        self.upload.end(d.link, d.back)
    }

    // The node that a direction goes to.
    pub fn target(&self, d: Direction) -> usize
        requires { d.link < (cables self.now).links }
        ensures { (result ≡ target (cables self.now) d.link d.back) × (result < (cables self.now).nodes) }
    {
        self.upload.end(d.link, !d.back)
    }

    // The direction of link i that comes from x.
    pub fn direction_from(&self, i: usize, x: usize) -> Direction
        requires { i < (cables self.now).links }
        ensures { result ≡ record { link = i; back = direction_from (cables self.now) i x } }
    {
        Direction {
            link: i,
            back: self.upload.end(i, false) != x,
        }
    }

    // n + 2m. Like `most_listed` and `longest_run` of `replay` a sum over nodes and links, each by its own law.
    pub fn image_length(&self) -> usize
        ensures { (result ≡ image_length (cables self.now)) × (result ≤ 315) }
    {
        self.nodes() + 2 * self.links()
    }
}
