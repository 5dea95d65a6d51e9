// The read side of the automaton on a lent image: which steps are possible, what an action names, and the report.

#![tactic(auto)]

ghost use Rattle.std.specs.Prelude.{◌≡◌, ◌<◌, ◌≤◌, leb, true};
ghost use Rattle.counting.specs.Count.{some};
ghost use Rattle.paper.specs.Steps.{unheard, possible};
ghost use Rattle.paper.specs.Actions.{joins, link_between, node_step, link_step, read_node, read_link};
ghost use Rattle.paper.specs.Report.{moves_at, moves_on, moving, roots, root_of, waiting_count, outcome_at_rest, outcome_of};
ghost use Rattle.upload.specs.Kinds.{node_number, link_number};
ghost use Rattle.cabling.specs.Cables.{cables};
ghost use Rattle.marks.specs.Shown.{table, shown};
ghost use Rattle.automaton.specs.Tried.{touching, lacking, link_moves, refused_number, outcome_number, Told, direction_read, refused_unless, TriedAs, Reported};

use cabling::Cabling;
use marks::View;
use upload::Direction;
use upload::step::{LinkKind, NodeKind, Step};

// Link i is one of x's. Of both directions or ends of a link two functions speak, this one and `link_moves`: what they share is `|`.
fn touches(cabling: &Cabling, x: usize, i: usize) -> bool
    requires { i < (cables cabling.now).links }
    ensures { result ≡ touching (cables cabling.now) x i }
{
    (cabling.upload.end(i, false) == x) | (cabling.upload.end(i, true) == x)
}

// How many directions of link i, one of x's, go to x and lack child: one or none.
fn lacking_on(view: &View, x: usize, i: usize) -> usize
    requires { (i < (table view.now).links) × (touching (table view.now) x i ≡ true) }
    ensures { (result ≡ lacking (table view.now) (shown view.now) x i) × (result ≤ 1) }
{
    let into = Direction {
        link: i,
        back: view.cabling.upload.end(i, false) == x,
    };
    usize::from(!view.child(into))
}

// At most so many directions into x lack child.
#[tactic(auto, using(counting::proofs::Sums::sum_empty, counting::proofs::Sums::sum_more, crate::proofs::Lacking::lacking_none))]
fn unheard_within(view: &View, x: usize, few: usize) -> bool
    ensures { result ≡ leb (unheard (table view.now) (shown view.now) x) few }
{
    let mut count: usize = 0;
    for i in 0..view.cabling.links() {
        if touches(&view.cabling, x, i) {
            count += lacking_on(view, x, i);
            if few < count {
                return false;
            }
        }
    }
    true
}

// A step at node x is possible: its mark allows it, and at most one direction into x lacks child, none for a step that makes it root.
#[tactic(auto, unfolding(paper::specs::Steps::possible))]
pub fn node_possible(view: &View, kind: NodeKind, x: usize) -> bool
    requires { x < (table view.now).nodes }
    ensures { result ≡ possible (table view.now) (shown view.now) (node_step (node_number kind) x) }
{
    match kind {
        NodeKind::ChildrenKnown => view.waiting(x) && unheard_within(view, x, 1),
        NodeKind::BecomeRoot => !view.root(x) && unheard_within(view, x, 0),
    }
}

// A step on a direction is possible.
#[tactic(auto, unfolding(paper::specs::Steps::possible))]
pub fn link_possible(view: &View, kind: LinkKind, d: Direction) -> bool
    requires { d.link < (table view.now).links }
    ensures { result ≡ possible (table view.now) (shown view.now) (link_step (link_number kind) d.link d.back) }
{
    let target = view.cabling.target(d);
    match kind {
        LinkKind::AddChild => view.waiting(target) & view.carrying(d),
        LinkKind::Acknowledge => !view.waiting(target) & view.carrying(d),
        LinkKind::Resolve => view.contending(view.cabling.source(d)) & view.contending(target),
    }
}

// Why an action cannot be taken.
#[derive(Clone, Copy, PartialEq, Eq)]
pub enum Refused {
    // it has no kind, names no node where it has to, or names a second one where it may not
    Unread,
    // no link joins the two nodes that it names
    NoLink,
    // the step that it names is not possible
    Impossible(Step),
}

impl From<Refused> for u8 {
    ghost from_gives = { λ refused number. number ≡ refused_number refused };

    fn from(refused: Refused) -> u8 {
        match refused {
            Refused::Unread => 9,
            Refused::NoLink => 10,
            Refused::Impossible(_) => 11,
        }
    }
}

// What an action comes to that names a step, possible or not.
fn refused_unless(possible: bool, step: Step) -> Result<Step, Refused>
    ensures { result ≡ refused_unless possible step }
{
    if possible {
        Ok(step)
    } else {
        Err(Refused::Impossible(step))
    }
}

// What an action comes to whose kind is that of a step at a node. It names no second node: its y is 255.
pub fn try_node(view: &View, kind: NodeKind, x: usize, y: usize) -> Result<Step, Refused>
    ensures { TriedAs (table view.now) (shown view.now) (read_node (table view.now) (node_number kind) x y) result }
{
    if (x < view.cabling.nodes()) & (y == 255) {
        refused_unless(node_possible(view, kind, x), Step::Node(kind, x))
    } else {
        Err(Refused::Unread)
    }
}

// Link i joins x and y. Of most links the first node is neither, and no more is asked.
fn joined_by(cabling: &Cabling, x: usize, y: usize, i: usize) -> bool
    requires { (i < (cables cabling.now).links) × (x < 256) × (y < 256) }
    ensures { result ≡ joins (cables cabling.now) x y i }
{
    let first = cabling.upload.end(i, false);
    ((first == x) | (first == y)) && cabling.upload.joins(x, y, i)
}

// The first link that joins x and y.
fn link_between(cabling: &Cabling, x: usize, y: usize) -> Option<usize>
    requires { (x < 256) × (y < 256) }
    ensures { Told (cables cabling.now).links (cables cabling.now).links (link_between (cables cabling.now) x y) result }
{
    (0..cabling.links()).find(|&i| joined_by(cabling, x, y, i))
}

// The direction from x to y.
fn direction_from(cabling: &Cabling, x: usize, y: usize) -> Result<Direction, Refused>
    ensures { result ≡ direction_read (cables cabling.now) x y }
{
    let n = cabling.nodes();
    if (n <= x) | (n <= y) {
        return Err(Refused::Unread);
    }
    let link = link_between(cabling, x, y).ok_or(Refused::NoLink)?;
    Ok(cabling.direction_from(link, x))
}

// What an action comes to whose kind is that of a step on a direction. In line, as `replay`'s `act` is.
#[inline(always)]
pub fn try_link(view: &View, kind: LinkKind, x: usize, y: usize) -> Result<Step, Refused>
    ensures { TriedAs (table view.now) (shown view.now) (read_link (table view.now) (link_number kind) x y) result }
{
    let d = direction_from(&view.cabling, x, y)?;
    refused_unless(link_possible(view, kind, d), Step::Link(kind, d))
}

// What a state has come to.
#[derive(Clone, Copy, PartialEq, Eq)]
pub enum Outcome {
    // some step is possible
    Moving = 1,
    // no step is possible, and one node is root
    Root = 2,
    // no step is possible, no node is root, some node waits, and there are at least as many links as nodes
    Loop = 3,
    // all else
    Odd = 4,
}

impl From<Outcome> for u8 {
    ghost from_gives = { λ outcome number. number ≡ outcome_number outcome };

    fn from(outcome: Outcome) -> u8 {
        outcome as u8
    }
}

// What is reported of a state: its outcome, the lowest root node, and how many nodes wait.
#[derive(Clone, Copy, PartialEq, Eq)]
pub struct Report {
    pub outcome: Outcome,
    pub root: Option<u8>,
    pub waiting: u8,
}

// Some step at node x is possible.
fn node_moves(view: &View, x: usize) -> bool
    requires { x < (table view.now).nodes }
    ensures { result ≡ moves_at (table view.now) (shown view.now) x }
{
    node_possible(view, NodeKind::ChildrenKnown, x) || node_possible(view, NodeKind::BecomeRoot, x)
}

// Some step on a direction is possible: it carries a message, or both its nodes contend.
#[tactic(auto, unfolding(paper::specs::Steps::possible))]
fn direction_moves(view: &View, d: Direction) -> bool
    requires { d.link < (table view.now).links }
    ensures { result ≡ moves_on (table view.now) (shown view.now) d.link d.back }
{
    view.carrying(d) | link_possible(view, LinkKind::Resolve, d)
}

// Some step on link i is possible.
fn link_moves(view: &View, i: usize) -> bool
    requires { i < (table view.now).links }
    ensures { result ≡ link_moves (table view.now) (shown view.now) i }
{
    let forth = Direction {
        link: i,
        back: false,
    };
    direction_moves(view, forth) | direction_moves(view, forth.reverse())
}

// One chain over the nodes and one over the links: a common function would take the number and the test, and be `any` again.

// Some step at a node is possible.
fn some_node_moves(view: &View) -> bool
    ensures { result ≡ some (table view.now).nodes (moves_at (table view.now) (shown view.now)) }
{
    (0..view.cabling.nodes()).any(|x| node_moves(view, x))
}

// Some step on a direction is possible.
fn some_link_moves(view: &View) -> bool
    ensures { result ≡ some (table view.now).links (link_moves (table view.now) (shown view.now)) }
{
    (0..view.cabling.links()).any(|i| link_moves(view, i))
}

// Some step is possible.
#[tactic(auto, unfolding(paper::specs::Report::moving))]
fn is_moving(view: &View) -> bool
    ensures { result ≡ moving (table view.now) (shown view.now) }
{
    some_node_moves(view) || some_link_moves(view)
}

// Two counts and no common one: their clauses name two fields of the state, and one that picks the field by a number would be no plainer.

// How many nodes are root.
fn root_count(view: &View) -> u8
    ensures { result ≡ roots (table view.now) (shown view.now) }
{
    (0..view.cabling.nodes())
        .map(|x| u8::from(view.root(x)))
        .sum()
}

// How many nodes wait.
fn waiting_count(view: &View) -> u8
    ensures { result ≡ waiting_count (table view.now) (shown view.now) }
{
    (0..view.cabling.nodes())
        .map(|x| u8::from(view.waiting(x)))
        .sum()
}

// The lowest root node.
fn lowest_root(view: &View) -> Option<u8>
    ensures { Told (table view.now).nodes 255 (root_of (table view.now) (shown view.now)) result }
{
    let x = (0..view.cabling.nodes()).find(|&x| view.root(x))?;
    // Below 64: std has no `From` to a narrower type.
    Some(x as u8)
}

// The outcome where no step is possible.
fn outcome_at_rest(n: usize, m: usize, root_nodes: u8, waiting: u8) -> Outcome
    ensures { outcome_number result ≡ outcome_at_rest n m root_nodes waiting }
{
    match root_nodes {
        1 => Outcome::Root,
        0 if (0 < waiting) & (n <= m) => Outcome::Loop,
        _ => Outcome::Odd,
    }
}

// The outcome of a state with so many nodes that wait.
fn outcome_of(view: &View, waiting: u8) -> Outcome
    requires { waiting ≡ waiting_count (table view.now) (shown view.now) }
    ensures { outcome_number result ≡ outcome_of (table view.now) (shown view.now) }
{
    if is_moving(view) {
        Outcome::Moving
    } else {
        outcome_at_rest(
            view.cabling.nodes(),
            view.cabling.links(),
            root_count(view),
            waiting,
        )
    }
}

// The report of the state that a view shows.
pub fn report_of(view: &View) -> Report
    ensures { Reported (table view.now) (shown view.now) result }
{
    let waiting = waiting_count(view);
    Report {
        outcome: outcome_of(view, waiting),
        root: lowest_root(view),
        waiting,
    }
}
