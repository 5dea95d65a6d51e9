// The public calls: fresh, report, list, step, run and replay, each with every refusal and place in document 01's order.

#![tactic(auto)]

mod refusal;

ghost use Rattle.std.specs.Prelude.{◌≡◌, is_ok, IfOk, IfErr, ◌&&◌, ◌+◌, ◌*◌, ◌<◌, ◌≤◌, ltb, length};
ghost use Rattle.paper.specs.Upload.{byte_at, actions_of, action_at};
ghost use Rattle.paper.specs.Table.{table_of};
ghost use Rattle.paper.specs.State.{fresh};
ghost use Rattle.paper.specs.Image.{image_length, image_of, fits, sound};
ghost use Rattle.paper.specs.Actions.{reading, listed};
ghost use Rattle.paper.specs.Calls.{reported, report_answer, list_answer, list_buffer, fresh_answer, fresh_image, step_answer, step_image, replayed, replay_answer, run_answer, run_image};
ghost use Rattle.paper.specs.Runner.{longest};
ghost use Rattle.cabling.specs.Cables.{cables};
ghost use Rattle.marks.specs.Shown.{table, shown};
ghost use Rattle.image.specs.Parts.{Blank};
ghost use Rattle.image.specs.Taken.{SoundImage};
ghost use Rattle.automaton.specs.Tried.{TriedAs};
ghost use Rattle.replay.specs.Refused.{answer_of, number_of};
ghost use Rattle.replay.specs.Taken.{Taken};
ghost use Rattle.replay.specs.Replaying.{ReplayedTo};
ghost use Rattle.replay.specs.Running.{Advanced, RanTo};

use automaton::Refused;
use cabling::Cabling;
use marks::View;
use paper::Answer;
use refusal::Refusal;
use upload::step::{Kind, Step};

// What a call answers: its own answer, or that of its refusal.
fn answered(outcome: Result<Answer, Refusal>) -> Answer
    ensures { result ≡ answer_of outcome }
{
    match outcome {
        Ok(answer) => answer,
        Err(refusal) => Answer::from(refusal),
    }
}

// The image has n + 2m bytes.
fn fitting<'a>(cabling: Cabling<'a>, image: &'a [u8]) -> Result<View<'a>, Refusal>
    ensures fits { is_ok result ≡ fits (cables cabling.entry) image.now }
    ensures view { IfOk result (λ v. (v.cabling ≡ cabling.entry) × (v.image ≡ image.entry)) }
    ensures err { IfErr result (λ e. e ≡ Refusal.Image) }
{
    if image.len() != cabling.image_length() {
        return Err(Refusal::Image);
    }
    Ok(View { cabling, image })
}

// The image has n + 2m bytes and is sound.
fn sound_view<'a>(cabling: Cabling<'a>, image: &'a [u8]) -> Result<View<'a>, Refusal>
    ensures sound { is_ok result ≡ (fits (cables cabling.entry) image.now && sound (cables cabling.entry) image.now) }
    ensures view { IfOk result (λ v. (v.cabling ≡ cabling.entry) × (v.image ≡ image.entry)) }
    ensures err { IfErr result (λ e. e ≡ Refusal.Image) }
{
    let view = fitting(cabling, image)?;
    if !image::sound(&view) {
        return Err(Refusal::Image);
    }
    Ok(view)
}

// The report of a view, behind a refusal, its place and the steps taken. The refusal comes as its number, 0 for none, as the answer and `reported` have it:
// an option would be made into that number here and in each clause.
fn reporting(view: &View, number: u8, place: u16, steps: u16) -> Answer
    ensures { result ≡ reported (record { number = number; place = place }) steps (table view.now) (shown view.now) }
{
    let report = automaton::report_of(view);
    Answer {
        refusal: number,
        place,
        steps,
        outcome: u8::from(report.outcome),
        root: report.root.unwrap_or(255),
        waiting: report.waiting,
    }
}

// As `report`, where a refusal is an error.
fn try_report(upload: &[u8], image: &[u8]) -> Result<Answer, Refusal>
    ensures { answer_of result ≡ report_answer upload.now image.now }
{
    let cabling = table::check(upload)?;
    let view = sound_view(cabling, image)?;
    Ok(reporting(&view, 0, 0, 0))
}

// Report: of a lent image.
pub fn report(upload: &[u8], image: &[u8]) -> Answer
    ensures { result ≡ report_answer upload.now image.now }
{
    answered(try_report(upload, image))
}

// The most bytes that a list has: 6 for a node, 12 for a link. Like the longest run and an image's length a sum over nodes and links, each with a law of its own.
fn most_listed(cabling: &Cabling) -> usize
    ensures { result ≡ 6 * (cables cabling.now).nodes + 12 * (cables cabling.now).links }
{
    6 * cabling.nodes() + 12 * cabling.links()
}

// The buffer has no room for the list. The list is counted only where the buffer has no room for the longest.
fn lacks_room(view: &View, buffer: &[u8]) -> bool
    ensures { result ≡ ltb (length buffer.now) (length (listed (table view.now) (shown view.now))) }
{
    if most_listed(&view.cabling) <= buffer.len() {
        return false;
    }
    buffer.len() < 3 * listing::count_listed(view)
}

// As `list`, where a refusal is an error.
fn try_list(upload: &[u8], image: &[u8], buffer: &mut [u8]) -> Result<Answer, Refusal>
    ensures value { answer_of result ≡ list_answer upload.now image.now buffer.old }
    ensures buffer_after { buffer.new ≡ list_buffer upload.now image.now buffer.old }
{
    let cabling = table::check(upload)?;
    let view = sound_view(cabling, image)?;
    if lacks_room(&view, buffer) {
        return Err(Refusal::Room);
    }
    let count = listing::list(&view, buffer);
    Ok(reporting(&view, 0, 0, count as u16))
}

// List: the possible steps of a lent image, into a lent buffer.
pub fn list(upload: &[u8], image: &[u8], buffer: &mut [u8]) -> Answer
    ensures value { result ≡ list_answer upload.now image.now buffer.old }
    ensures buffer_after { buffer.new ≡ list_buffer upload.now image.now buffer.old }
{
    answered(try_list(upload, image, buffer))
}

// As `fresh`, where a refusal is an error.
fn try_fresh(upload: &[u8], image: &mut [u8]) -> Result<Answer, Refusal>
    ensures value { answer_of result ≡ fresh_answer upload.now image.old }
    ensures image_after { image.new ≡ fresh_image upload.now image.old }
{
    let cabling = table::check(upload)?;
    fitting(cabling, image)?;
    image::make_fresh(&cabling, image);
    Ok(reporting(&View { cabling, image }, 0, 0, 0))
}

// Fresh: makes the fresh image.
pub fn fresh(upload: &[u8], image: &mut [u8]) -> Answer
    ensures value { result ≡ fresh_answer upload.now image.old }
    ensures image_after { image.new ≡ fresh_image upload.now image.old }
{
    answered(try_fresh(upload, image))
}

// What an action comes to, by its kind: the step that it names, where that is possible. In line, as `act` is.
// Kind, x and y stay three numbers here and below: the clauses of the calls take them apart, and only here do they become a step.
#[inline(always)]
fn tried(view: &View, kind: u8, x: u8, y: u8) -> Result<Step, Refused>
    ensures { TriedAs (table view.now) (shown view.now) (reading (table view.now) kind x y) result }
{
    match Kind::try_from(kind) {
        Ok(Kind::Node(kind)) => automaton::try_node(view, kind, usize::from(x), usize::from(y)),
        Ok(Kind::Link(kind)) => automaton::try_link(view, kind, usize::from(x), usize::from(y)),
        Err(_) => Err(Refused::Unread),
    }
}

// Takes an action if it can be taken. In line, so that what it answers does not go through memory.
#[inline(always)]
fn act(cabling: &Cabling, image: &mut [u8], kind: u8, x: u8, y: u8) -> Result<(), Refused>
    requires { SoundImage (cables cabling.now) image.old }
    ensures { Taken cabling.now.upload.bytes.now image.old kind x y (number_of result) image.new }
{
    let view = View {
        cabling: *cabling,
        image: &*image,
    };
    let step = tried(&view, kind, x, y)?;
    image::take(cabling, image, step);
    Ok(())
}

// As `step`, where a refusal of the upload or the image is an error.
fn try_step(upload: &[u8], image: &mut [u8], kind: u8, x: u8, y: u8) -> Result<Answer, Refusal>
    ensures value { answer_of result ≡ step_answer upload.now image.old kind x y }
    ensures image_after { image.new ≡ step_image upload.now image.old kind x y }
{
    let cabling = table::check(upload)?;
    sound_view(cabling, image)?;
    let taken = act(&cabling, image, kind, x, y);
    let view = View { cabling, image };
    Ok(match taken {
        Ok(()) => reporting(&view, 0, 0, 1),
        Err(refused) => reporting(&view, u8::from(refused), 0, 0),
    })
}

// Step: one action on a lent image, as action 0.
pub fn step(upload: &[u8], image: &mut [u8], kind: u8, x: u8, y: u8) -> Answer
    ensures value { result ≡ step_answer upload.now image.old kind x y }
    ensures image_after { image.new ≡ step_image upload.now image.old kind x y }
{
    answered(try_step(upload, image, kind, x, y))
}

// A replay stopped at an action that cannot be taken.
#[derive(Clone, Copy)]
struct Stopped {
    refused: Refused,
    place: u16,
}

// Tries action i of an upload on a lent image.
fn act_at(cabling: &Cabling, image: &mut [u8], i: usize) -> Result<(), Refused>
    requires image_is_sound { SoundImage (cables cabling.now) image.old }
    requires there { i < actions_of cabling.now.upload.bytes.now }
    ensures { Taken cabling.now.upload.bytes.now image.old (byte_at cabling.now.upload.bytes.now (action_at cabling.now.upload.bytes.now i)) (byte_at cabling.now.upload.bytes.now (action_at cabling.now.upload.bytes.now i + 1)) (byte_at cabling.now.upload.bytes.now (action_at cabling.now.upload.bytes.now i + 2)) (number_of result) image.new }
{
    // Three bytes by their places: a pattern would test the length, which is known.
    let bytes = cabling.upload.bytes;
    let at = 4 + 2 * cabling.links() + 3 * i;
    act(cabling, image, bytes[at], bytes[at + 1], bytes[at + 2])
}

// Takes the actions in turn on a fresh image, until one is refused or none is left; answers how many were taken.
fn replay_into(cabling: &Cabling, image: &mut [u8]) -> Result<u16, Stopped>
    requires { (length image.old ≡ image_length (cables cabling.now)) × (image.old ≡ image_of (cables cabling.now) (fresh (cables cabling.now))) }
    ensures { ReplayedTo cabling.now.upload.bytes.now result image.new }
{
    let a = cabling.upload.actions();
    for i in 0..a {
        if let Err(refused) = act_at(cabling, image, i) {
            return Err(Stopped {
                refused,
                place: i as u16,
            });
        }
    }
    // Numbers below 65,536 are cast: std has no `From` to a narrower type, and `TryFrom` would add a branch that no input takes.
    Ok(a as u16)
}

// Replays into a blank image, and reports.
fn replay_on(cabling: &Cabling, image: &mut [u8]) -> Answer
    requires { (length image.old ≡ image_length (cables cabling.now)) × Blank image.old }
    ensures { result ≡ reported (replayed cabling.now.upload.bytes.now).refusal (replayed cabling.now.upload.bytes.now).steps (cables cabling.now) (replayed cabling.now.upload.bytes.now).state }
{
    image::wake(cabling, image);
    let replayed = replay_into(cabling, image);
    let view = View {
        cabling: *cabling,
        image,
    };
    match replayed {
        Ok(steps) => reporting(&view, 0, 0, steps),
        Err(Stopped { refused, place }) => reporting(&view, u8::from(refused), place, place),
    }
}

// As `replay`, where a refusal of the upload is an error.
fn try_replay(upload: &[u8]) -> Result<Answer, Refusal>
    ensures { answer_of result ≡ replay_answer upload.now }
{
    let cabling = table::check(upload)?;
    let mut image = [0u8; 315];
    let length = cabling.image_length();
    Ok(replay_on(&cabling, &mut image[..length]))
}

// Replay: the actions of an upload, from the fresh state. A call of its own, as the reader is: inside a loop over uploads their loops would go through memory.
#[inline(never)]
pub fn replay(upload: &[u8]) -> Answer
    ensures { result ≡ replay_answer upload.now }
{
    answered(try_replay(upload))
}

// Takes the first listed step, if there is one; `Advanced` speaks of whether one was taken.
fn take_first(cabling: &Cabling, image: &mut [u8]) -> bool
    requires { SoundImage (cables cabling.now) image.old }
    ensures { Advanced cabling.now.upload.bytes.now image.old result image.new }
{
    let view = View {
        cabling: *cabling,
        image: &*image,
    };
    match first::first_listed(&view) {
        Some(first) => {
            image::take(cabling, image, first);
            true
        }
        None => false,
    }
}

// No run is longer than this.
fn longest_run(cabling: &Cabling) -> usize
    ensures { (result ≡ longest (cables cabling.now)) × (result ≤ 819) }
{
    5 * cabling.nodes() + 4 * cabling.links()
}

// Makes the image fresh and takes the first listed step until none is left; answers the steps taken.
fn run_into(cabling: &Cabling, image: &mut [u8]) -> u16
    requires { length image.old ≡ image_length (cables cabling.now) }
    ensures { RanTo cabling.now.upload.bytes.now result image.new }
{
    image::make_fresh(cabling, image);
    let most = longest_run(cabling);
    for steps in 0..most {
        if !take_first(cabling, image) {
            return steps as u16;
        }
    }
    most as u16
}

// As `run`, where a refusal is an error.
fn try_run(upload: &[u8], image: &mut [u8]) -> Result<Answer, Refusal>
    ensures value { answer_of result ≡ run_answer upload.now image.old }
    ensures image_after { image.new ≡ run_image upload.now image.old }
{
    let cabling = table::check(upload)?;
    fitting(cabling, image)?;
    let steps = run_into(&cabling, image);
    Ok(reporting(&View { cabling, image }, 0, 0, steps))
}

// Run: the runner, which leaves the end image.
pub fn run(upload: &[u8], image: &mut [u8]) -> Answer
    ensures value { result ≡ run_answer upload.now image.old }
    ensures image_after { image.new ≡ run_image upload.now image.old }
{
    answered(try_run(upload, image))
}
