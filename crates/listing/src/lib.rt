// The list of possible steps of a lent image.

#![tactic(auto)]

ghost use Rattle.std.specs.Prelude.{◌≡◌, ◌*◌, ◌<◌, ◌≤◌, [], ◌∷◌, length, set};
ghost use Rattle.std.specs.Option.{ForSome};
ghost use Rattle.paper.specs.Actions.{entries_at, entries_of, listed};
ghost use Rattle.paper.specs.Calls.{over};
ghost use Rattle.upload.specs.Kinds.{node_number, link_number};
ghost use Rattle.cabling.specs.Cables.{cables};
ghost use Rattle.marks.specs.Shown.{table, shown};
ghost use Rattle.listing.specs.Wrote.{Wrote};
ghost use Rattle.listing.specs.Appends.{Appends};
ghost use Rattle.listing.specs.Links.{noted, Noted, may_list};

use cabling::Cabling;
use marks::View;
use upload::Direction;
use upload::step::{LinkKind, NodeKind};

// The entries of a list, in a lent buffer as far as it has room, and how many they are: it counts entries of three bytes where the text of `lines` counts bytes, so
// that one of the two over the other would carry a factor through every clause. Numbers below 63 or 126 are cast to bytes below: std has no `From` to a narrower type.
#[derive(Drop)]
struct Writer<'a> {
    out: &'a mut [u8],
    count: usize,
}

// Stores a byte where the buffer has room for it. By a test: after `get_mut` of a slice a proof knows no byte of it.
fn put(out: &mut [u8], at: usize, byte: u8)
    ensures { out.new ≡ set out.old at byte }
{
    if at < out.len() {
        out[at] = byte;
    }
}

impl Writer<'_> {
    // Writes one more entry.
    fn push(&mut self, kind: u8, x: u8, y: u8)
        requires { self.old.count < 100000 }
        ensures { Appends self.old (kind ∷ x ∷ y ∷ []) 1 self.new }
    {
        let at = 3 * self.count;
        put(self.out, at, kind);
        put(self.out, at + 1, x);
        put(self.out, at + 2, y);
        self.count += 1;
    }
}

// Writes the entry of a kind at node x, if there is one.
fn node_entry(view: &View, kind: NodeKind, x: usize, writer: &mut Writer)
    requires { (x < (table view.now).nodes) × (writer.old.count < 50000) }
    ensures { Appends writer.old (entries_at (table view.now) (shown view.now) (node_number kind) x) 1 writer.new }
{
    if automaton::node_possible(view, kind, x) {
        writer.push(kind as u8, x as u8, 255);
    }
}

// Writes the entries of a kind at nodes.
fn node_entries(view: &View, kind: NodeKind, writer: &mut Writer)
    requires { writer.old.count < 40000 }
    ensures { Appends writer.old (entries_of (table view.now) (shown view.now) (node_number kind)) 63 writer.new }
{
    for x in 0..view.cabling.nodes() {
        node_entry(view, kind, x, writer);
    }
}

// Notes link i, from a to b, at the node that it joins to x.
fn note_link(links: &mut [Option<u8>], x: usize, i: u8, a: usize, b: usize)
    requires { (a < length links.old) × (b < length links.old) }
    ensures { links.new ≡ noted links.old x i a b }
{
    if (a == x) | (b == x) {
        let y = if a == x { b } else { a };
        links[y] = Some(i);
    }
}

// The link from x to each node.
fn links_from(cabling: &Cabling, x: usize) -> [Option<u8>; 64]
    ensures { Noted (cables cabling.now) x 0 result }
{
    let mut links = [None; 64];
    for i in (0..cabling.links()).rev() {
        let forth = Direction {
            link: i,
            back: false,
        };
        note_link(
            &mut links,
            x,
            i as u8,
            cabling.source(forth),
            cabling.target(forth),
        );
    }
    links
}

// A step from x is possible on a link, where there is one. By a `match`: `is_some_and` promises what its closure does, and of a closure no proof here knows that.
fn may_list(view: &View, kind: LinkKind, link: Option<u8>, x: usize) -> bool
    requires { ForSome link (λ i. i < (table view.now).links) }
    ensures { result ≡ may_list (table view.now) (shown view.now) (link_number kind) link x }
{
    match link {
        Some(i) => {
            automaton::link_possible(view, kind, view.cabling.direction_from(usize::from(i), x))
        }
        None => false,
    }
}

// Writes the entries of a kind on the links from x.
fn link_entries_from(view: &View, kind: LinkKind, x: usize, writer: &mut Writer)
    requires { (x < (table view.now).nodes) × (writer.old.count < 50000) }
    ensures { Appends writer.old (entries_at (table view.now) (shown view.now) (link_number kind) x) 63 writer.new }
{
    let links = links_from(&view.cabling, x);
    for y in 0..view.cabling.nodes() {
        if may_list(view, kind, links[y], x) {
            writer.push(kind as u8, x as u8, y as u8);
        }
    }
}

// Writes the entries of a kind on links. A node that does not contend has none to resolve.
fn link_entries(view: &View, kind: LinkKind, writer: &mut Writer)
    requires { writer.old.count < 40000 }
    ensures { Appends writer.old (entries_of (table view.now) (shown view.now) (link_number kind)) 3969 writer.new }
{
    for x in 0..view.cabling.nodes() {
        if kind != LinkKind::Resolve || view.contending(x) {
            link_entries_from(view, kind, x, writer);
        }
    }
}

// Writes the whole list as far as there is room, and answers how many steps it has.
fn list_into(view: &View, out: &mut [u8]) -> usize
    ensures { Wrote out.old 0 (listed (table view.now) (shown view.now)) out.new result × (result ≤ 19845) }
{
    let mut writer = Writer { out, count: 0 };
    node_entries(view, NodeKind::ChildrenKnown, &mut writer);
    link_entries(view, LinkKind::AddChild, &mut writer);
    link_entries(view, LinkKind::Acknowledge, &mut writer);
    link_entries(view, LinkKind::Resolve, &mut writer);
    node_entries(view, NodeKind::BecomeRoot, &mut writer);
    writer.count
}

// How many steps the list has. This and `list` are two calls, as their clauses are two, over one function.
pub fn count_listed(view: &View) -> usize
    ensures { (length (listed (table view.now) (shown view.now)) ≡ 3 * result) × (result ≤ 19845) }
{
    list_into(view, &mut [])
}

// Writes the list into a buffer that has room for it, and answers how many steps it has.
pub fn list(view: &View, out: &mut [u8]) -> usize
    requires { length (listed (table view.now) (shown view.now)) ≤ length out.old }
    ensures { (length (listed (table view.now) (shown view.now)) ≡ 3 * result) × (out.new ≡ over (listed (table view.now) (shown view.now)) out.old) }
{
    list_into(view, out)
}
