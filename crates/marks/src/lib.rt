// The marks and messages that a lent image shows, one accessor each.

#![tactic(auto)]

ghost use Rattle.std.specs.Prelude.{◌≡◌, ◌<◌, length};
ghost use Rattle.paper.specs.Image.{image_length};
ghost use Rattle.paper.specs.Steps.{carries, is_request};
ghost use Rattle.cabling.specs.Cables.{cables};

use cabling::Cabling;
use upload::Direction;

// A cabling and a lent image of its length, to be read.
#[derive(Clone, Copy)]
pub struct View<'a> {
    pub cabling: Cabling<'a>,
    pub image: &'a [u8],
    ghost fits: { length image.now ≡ image_length (cables cabling) },
}

impl View<'_> {
    ghost use Rattle.marks.specs.Shown.{table, byte_of, shown};

    // Three accessors and no common one: their clauses name three fields of the state, and one that picks the field by a number would be no plainer.

    // Node x waits.
    pub fn waiting(&self, x: usize) -> bool
        requires { x < (table self.now).nodes }
        ensures { result ≡ (shown self.now).waiting x }
    {
        upload::byte(self.image, x) % 2 == 1
    }

    // Node x contends.
    pub fn contending(&self, x: usize) -> bool
        requires { x < (table self.now).nodes }
        ensures { result ≡ (shown self.now).contending x }
    {
        upload::byte(self.image, x) / 2 % 2 == 1
    }

    // Node x is root.
    pub fn root(&self, x: usize) -> bool
        requires { x < (table self.now).nodes }
        ensures { result ≡ (shown self.now).root x }
    {
        upload::byte(self.image, x) / 4 % 2 == 1
    }

    // The byte of a direction.
    fn direction_byte(&self, d: Direction) -> usize
        requires { d.link < (table self.now).links }
        ensures { result ≡ byte_of self.now d }
    {
        upload::byte(self.image, self.cabling.upload.direction_at(d))
    }

    // A direction has child.
    pub fn child(&self, d: Direction) -> bool
        requires { d.link < (table self.now).links }
        ensures { result ≡ (shown self.now).child d.link d.back }
    {
        self.direction_byte(d) % 2 == 1
    }

    // A direction carries a message.
    pub fn carrying(&self, d: Direction) -> bool
        requires { d.link < (table self.now).links }
        ensures { result ≡ carries ((shown self.now).message d.link d.back) }
    {
        2 <= self.direction_byte(d)
    }

    // The message on a direction is a request.
    pub fn requesting(&self, d: Direction) -> bool
        requires { d.link < (table self.now).links }
        ensures { result ≡ is_request ((shown self.now).message d.link d.back) }
    {
        self.direction_byte(d) / 2 == 1
    }
}
