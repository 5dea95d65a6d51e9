// The numbers of an upload, the directions of its links, and the steps that its actions name.

#![tactic(auto)]

ghost use Rattle.std.specs.Prelude.{◌≡◌, ◌+◌, ◌*◌, ◌<◌, ◌≤◌, not, length};
ghost use Rattle.paper.specs.Upload.{byte_at, nodes_of, links_of, actions_of, link_at};
ghost use Rattle.paper.specs.Table.{table_of};
ghost use Rattle.paper.specs.Actions.{joins};
ghost use Rattle.paper.specs.Image.{direction_at};

pub mod step;

// The byte at a place.
pub fn byte(s: &[u8], i: usize) -> usize
    requires { i < length s.now }
    ensures { (result ≡ byte_at s.now i) × (result < 256) }
{
    usize::from(s[i])
}

// A direction of a link: from its first node to its second, or back.
#[derive(Clone, Copy, PartialEq, Eq)]
pub struct Direction {
    pub link: usize,
    pub back: bool,
}

impl Direction {
    // The same link the other way.
    pub fn reverse(self) -> Direction
        ensures { result ≡ record { link = self.link; back = not self.back } }
    {
        Direction {
            link: self.link,
            back: !self.back,
        }
    }
}

// An upload with its four bytes of header.
#[derive(Clone, Copy)]
pub struct Upload<'a> {
    pub bytes: &'a [u8],
    ghost header: { 4 ≤ length bytes.now },
}

impl Upload<'_> {
    // An accessor for each number of the header: their clauses name three definitions, and one that picks among them by a number would be no plainer.

    // n, the number of nodes.
    pub fn nodes(&self) -> usize
        ensures { (result ≡ nodes_of self.now.bytes.now) × (result < 256) }
    {
        byte(self.bytes, 0)
    }

    // m, the number of links.
    pub fn links(&self) -> usize
        ensures { (result ≡ links_of self.now.bytes.now) × (result < 256) }
    {
        byte(self.bytes, 1)
    }

    // a, the number of actions. Two bytes by hand: `two_at` of the definitions says the same sum, and with `from_be_bytes` it would be no plainer.
    pub fn actions(&self) -> usize
        ensures { (result ≡ actions_of self.now.bytes.now) × (result < 65536) }
    {
        256 * byte(self.bytes, 2) + byte(self.bytes, 3)
    }

    // A node of link i: its first, or its second.
    pub fn end(&self, i: usize, second: bool) -> usize
        requires { link_at i + 2 ≤ length self.now.bytes.now }
        ensures { (result ≡ (table_of self.now.bytes.now).end i second) × (result < 256) }
    {
        byte(self.bytes, 4 + 2 * i + usize::from(second))
    }

    // Link i joins x and y, either way round.
    pub fn joins(&self, x: usize, y: usize, i: usize) -> bool
        requires { (link_at i + 2 ≤ length self.now.bytes.now) × (x < 256) × (y < 256) }
        ensures { result ≡ joins (table_of self.now.bytes.now) x y i }
    {
        let p = self.end(i, false);
        let q = self.end(i, true);
        ((p == x) & (q == y)) | ((p == y) & (q == x))
    }

    // Where the byte of a direction stands in an image.
    pub fn direction_at(&self, d: Direction) -> usize
        requires { d.link < 256 }
        ensures { (result ≡ direction_at (table_of self.now.bytes.now) d.link d.back) × (result ≤ nodes_of self.now.bytes.now + 2 * d.link + 1) }
    {
        self.nodes() + 2 * d.link + usize::from(d.back)
    }
}
