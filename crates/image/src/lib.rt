// The write side of the automaton on a lent image: whether an image is sound, the fresh image, and the five effects.

#![tactic(auto)]

ghost use Rattle.std.specs.Prelude.{◌≡◌, ◌+◌, ◌<◌, ◌≤◌, length};
ghost use Rattle.paper.specs.State.{fresh};
ghost use Rattle.paper.specs.Steps.{effect, children_known, acknowledge, resolve, sends};
ghost use Rattle.paper.specs.Image.{image_length, message_number, state_of, image_of, sound_direction, sound};
ghost use Rattle.upload.specs.Kinds.{meant};
ghost use Rattle.cabling.specs.Cables.{cables};
ghost use Rattle.marks.specs.Shown.{table};
ghost use Rattle.image.specs.Parts.{stopped_byte, contending_byte, root_byte, child_byte, message_byte, sent, filled};
ghost use Rattle.image.specs.Messages.{carried};
ghost use Rattle.image.specs.Taken.{SoundImage, InTable};

use cabling::Cabling;
use marks::View;
use upload::Direction;
use upload::step::{LinkKind, NodeKind, Step};

// The message on a direction, by its number in the direction's byte.
#[derive(Clone, Copy)]
enum Message {
    None = 0,
    Request = 1,
    Acknowledgement = 2,
}

// The byte of a direction is in range, and its source, if it waits, has no message on it.
fn direction_sound(view: &View, d: Direction) -> bool
    requires { d.link < (table view.now).links }
    ensures { result ≡ sound_direction (table view.now) view.now.image.now d.link d.back }
{
    let cabling = &view.cabling;
    view.image[cabling.upload.direction_at(d)] < 6
        && !(view.waiting(cabling.source(d)) && view.carrying(d))
}

// The image is sound.
pub fn sound(view: &View) -> bool
    ensures { result ≡ sound (table view.now) view.now.image.now }
{
    (0..view.cabling.nodes()).all(|x| view.image[x] < 8)
        && (0..view.cabling.links()).all(|link| {
            direction_sound(view, Direction { link, back: false })
                && direction_sound(view, Direction { link, back: true })
        })
}

// Makes the fresh image.
pub fn make_fresh(cabling: &Cabling, image: &mut [u8])
    requires { length image.old ≡ image_length (cables cabling.now) }
    ensures { image.new ≡ image_of (cables cabling.now) (fresh (cables cabling.now)) }
{
    let (nodes, directions) = image.split_at_mut(cabling.nodes());
    nodes.fill(1);
    directions.fill(0);
}

// Every node waits, without another mark; the bytes of the directions stay, where `make_fresh` clears them: two functions, as their clauses are two.
pub fn wake(cabling: &Cabling, image: &mut [u8])
    requires { length image.old ≡ image_length (cables cabling.now) }
    ensures { image.new ≡ filled image.old 0 (cables cabling.now).nodes 1 }
{
    image[..cabling.nodes()].fill(1);
}

// Five bytes by five effects, each as its own definition says it: one of them all would take its constants as parameters, and be no plainer.

// A node byte without waiting.
fn stopped_byte(k: u8) -> u8
    ensures { result ≡ stopped_byte k }
{
    k / 2 * 2
}

// A node byte with contending as given.
fn contending_byte(contends: bool, k: u8) -> u8
    ensures { result ≡ contending_byte contends k }
{
    k % 2 + 2 * u8::from(contends) + k / 4 * 4
}

// A node byte with root.
fn root_byte(k: u8) -> u8
    ensures { result ≡ root_byte k }
{
    k % 4 + 4
}

// A direction byte with child.
fn child_byte(k: u8) -> u8
    ensures { result ≡ child_byte k }
{
    k / 2 * 2 + 1
}

// A direction byte with a message.
fn message_byte(message: Message, k: u8) -> u8
    ensures { result ≡ message_byte (message_number (carried message)) k }
{
    k % 2 + 2 * message as u8
}

// What a node sends: acknowledgement if the reverse direction has child, else request.
fn sends(child: bool) -> Message
    ensures { carried result ≡ sends child }
{
    if child {
        Message::Acknowledgement
    } else {
        Message::Request
    }
}

// A cabling and a lent image stay two parameters: of a struct that held the image each function would have to say besides that it keeps the table and the buffer, and
// the theorem of no second answer could not be stated of it as it is of a lent slice.

// Kind 3: the target contends if the message was a request, else not; the message is removed.
fn acknowledge(cabling: &Cabling, image: &mut [u8], d: Direction)
    requires image_is_sound { SoundImage (cables cabling.now) image.old }
    requires link_in_table { d.link < (cables cabling.now).links }
    ensures { let t = cables cabling.now in image.new ≡ image_of t (effect t (state_of t image.old) (acknowledge d.link d.back)) }
{
    let at = cabling.upload.direction_at(d);
    let y = cabling.target(d);
    let view = View {
        cabling: *cabling,
        image: &*image,
    };
    let request = view.requesting(d);
    image[at] = message_byte(Message::None, image[at]);
    image[y] = contending_byte(request, image[y]);
}

// Kind 4: the direction gets child; neither of its ends contends.
fn resolve(cabling: &Cabling, image: &mut [u8], d: Direction)
    requires image_is_sound { SoundImage (cables cabling.now) image.old }
    requires link_in_table { d.link < (cables cabling.now).links }
    ensures { let t = cables cabling.now in image.new ≡ image_of t (effect t (state_of t image.old) (resolve d.link d.back)) }
{
    let at = cabling.upload.direction_at(d);
    let x = cabling.source(d);
    let y = cabling.target(d);
    image[x] = contending_byte(false, image[x]);
    image[y] = contending_byte(false, image[y]);
    image[at] = child_byte(image[at]);
}

// x sends its message on a direction, if that comes from x.
#[tactic(auto, unfolding(crate::specs::Parts::sent))]
fn send(cabling: &Cabling, image: &mut [u8], x: usize, d: Direction)
    requires image_fits { length image.old ≡ image_length (cables cabling.now) }
    requires link_in_table { d.link < (cables cabling.now).links }
    ensures { image.new ≡ sent (cables cabling.now) x d.link d.back image.old }
{
    if cabling.source(d) == x {
        let view = View {
            cabling: *cabling,
            image: &*image,
        };
        let message = sends(view.child(d.reverse()));
        let at = cabling.upload.direction_at(d);
        image[at] = message_byte(message, image[at]);
    }
}

// Kind 1: x stops waiting, and sends on each direction out of it.
fn children_known(cabling: &Cabling, image: &mut [u8], x: usize)
    requires image_is_sound { SoundImage (cables cabling.now) image.old }
    requires node_in_table { x < (cables cabling.now).nodes }
    ensures { let t = cables cabling.now in image.new ≡ image_of t (effect t (state_of t image.old) (children_known x)) }
{
    image[x] = stopped_byte(image[x]);
    for link in 0..cabling.links() {
        send(cabling, image, x, Direction { link, back: false });
        send(cabling, image, x, Direction { link, back: true });
    }
}

// Takes a step. By kind 5 the node is root; by kind 2 the direction gets child, and its message is removed.
// In line, so that the step does not go through memory.
#[inline(always)]
pub fn take(cabling: &Cabling, image: &mut [u8], step: Step)
    requires image_is_sound { SoundImage (cables cabling.now) image.old }
    requires in_table { InTable (cables cabling.now) step }
    ensures { let t = cables cabling.now in image.new ≡ image_of t (effect t (state_of t image.old) (meant step)) }
{
    match step {
        Step::Node(NodeKind::ChildrenKnown, x) => children_known(cabling, image, x),
        Step::Node(NodeKind::BecomeRoot, x) => image[x] = root_byte(image[x]),
        Step::Link(LinkKind::AddChild, d) => image[cabling.upload.direction_at(d)] = 1,
        Step::Link(LinkKind::Acknowledge, d) => acknowledge(cabling, image, d),
        Step::Link(LinkKind::Resolve, d) => resolve(cabling, image, d),
    }
}
