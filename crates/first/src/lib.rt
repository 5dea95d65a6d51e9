// The first possible step of a view.

#![tactic(auto)]

ghost use Rattle.std.specs.Prelude.{◌≡◌, ◌<◌};
ghost use Rattle.paper.specs.Actions.{listed};
ghost use Rattle.upload.specs.Kinds.{node_number, link_number};
ghost use Rattle.marks.specs.Shown.{table, shown};
ghost use Rattle.first.specs.Leads.{Leads};
ghost use Rattle.first.specs.Least.{Least};
ghost use Rattle.first.specs.Places.{pair};

use marks::View;
use upload::Direction;
use upload::step::{LinkKind, NodeKind, Step};

// The first step of a kind at a node: that at the least node where it is possible.
fn first_at_nodes(view: &View, kind: NodeKind) -> Option<Step>
    ensures { Least (table view.now) (shown view.now) (node_number kind) (node_number kind) result }
{
    (0..view.cabling.nodes())
        .find(|&x| automaton::node_possible(view, kind, x))
        .map(|x| Step::Node(kind, x))
}

// The nodes of a direction as one number, its source before its target: `pair` of the definitions is that number, and two numbers compared in turn would be no plainer.
fn pair(view: &View, d: Direction) -> usize
    requires { d.link < (table view.now).links }
    ensures { result ≡ pair (table view.now) d.link d.back }
{
    256 * view.cabling.source(d) + view.cabling.target(d)
}

// The first step of a kind on a direction: of those that are possible, that on the direction with the least pair of nodes.
fn first_on_links(view: &View, kind: LinkKind) -> Option<Step>
    ensures { Least (table view.now) (shown view.now) (link_number kind) (link_number kind) result }
{
    let mut first: Option<(usize, Direction)> = None;
    for link in 0..view.cabling.links() {
        for back in [false, true] {
            let d = Direction { link, back };
            if automaton::link_possible(view, kind, d) {
                let here = pair(view, d);
                if first.is_none_or(|(least, _)| here < least) {
                    first = Some((here, d));
                }
            }
        }
    }
    first.map(|(_, d)| Step::Link(kind, d))
}

// The first step of the list. By early returns: `or_else` tells a proof nothing of a closure whose contract is no equation.
pub fn first_listed(view: &View) -> Option<Step>
    ensures { Leads (table view.now) (listed (table view.now) (shown view.now)) result }
{
    if let Some(step) = first_at_nodes(view, NodeKind::ChildrenKnown) {
        return Some(step);
    }
    if let Some(step) = first_on_links(view, LinkKind::AddChild) {
        return Some(step);
    }
    if let Some(step) = first_on_links(view, LinkKind::Acknowledge) {
        return Some(step);
    }
    if let Some(step) = first_on_links(view, LinkKind::Resolve) {
        return Some(step);
    }
    first_at_nodes(view, NodeKind::BecomeRoot)
}
