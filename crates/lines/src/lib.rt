// The printed lines as bytes, into a lent buffer: a byte past its end is not written, and the place goes on all the same.

#![tactic(auto)]

ghost use Rattle.std.specs.Prelude.{◌≡◌, ◌∷◌, [], length, take, ◌+◌, ◌*◌, ◌<◌, ◌≤◌, ◌^◌, ◌-◌};
ghost use Rattle.std.proofs.lemmas.List.Edits.{sets};
ghost use Rattle.paper.specs.Lines.{decimal, space, line_of, lines_from, refused_line};
ghost use Rattle.lines.specs.Text.{Writes, reached_digit};
ghost use Rattle.lines.specs.Output.{no_room, written, Output};

use paper::Answer;

// A text in a lent buffer, and the place where its next byte goes; each method asks for its own bound on the place. Numbers below 10 or 65,536 are cast: std has no
// `From` to a narrower type, and `TryFrom` would add a branch that no input takes.
#[derive(Drop)]
struct Text<'a> {
    out: &'a mut [u8],
    at: usize,
}

impl Text<'_> {
    // One byte, where the buffer has room for it.
    fn push(&mut self, b: u8)
        requires { self.old.at < 2 ^ 32 }
        ensures { Writes self.old (b ∷ []) self.new }
    {
        if self.at < self.out.len() {
            self.out[self.at] = b;
        }
        self.at += 1;
    }

    // The digit of a number at a power of ten, where the number reaches it.
    fn digit(&mut self, k: u16, power: u16)
        requires { (self.old.at < 2 ^ 32) × (0 < power) }
        ensures { Writes self.old (reached_digit power k) self.new }
    {
        if power <= k {
            self.push(b'0' + (k / power % 10) as u8);
        }
    }

    // A number in decimal. By itoa, whose digits lie in a buffer of their own, a text of 64 lines took a third longer, past the bar of docs/SPEED.md;
    // `write!` promises its bytes only on Ok, and promises no Ok.
    fn decimal(&mut self, k: u16)
        requires { self.old.at < 2 ^ 31 }
        ensures { Writes self.old (decimal k) self.new × (self.new.at ≤ self.old.at + 5) }
    {
        self.digit(k, 10000);
        self.digit(k, 1000);
        self.digit(k, 100);
        self.digit(k, 10);
        self.push(b'0' + (k % 10) as u8);
    }

    // One space, and a number in decimal.
    fn next(&mut self, k: u16)
        requires { self.old.at < 2 ^ 31 - 1 }
        ensures { Writes self.old (space ∷ decimal k) self.new × (self.new.at ≤ self.old.at + 6) }
    {
        self.push(b' ');
        self.decimal(k);
    }

    // A line: the entry's number and the six numbers of its answer.
    fn line(&mut self, number: u16, answer: Answer)
        requires { self.old.at < 2 ^ 30 }
        ensures { Writes self.old (line_of number answer) self.new × (self.new.at ≤ self.old.at + 42) }
    {
        self.decimal(number);
        self.next(u16::from(answer.refusal));
        self.next(answer.place);
        self.next(answer.steps);
        self.next(u16::from(answer.outcome));
        self.next(u16::from(answer.root));
        self.next(u16::from(answer.waiting));
        self.push(b'\n');
    }
}

// The lines of some answers, from the buffer's start.
fn put_lines(answers: &[Answer], out: &mut [u8])
    requires { length answers.now ≤ 64 }
    ensures { out.new ≡ sets out.old 0 (lines_from 0 answers.now) }
{
    let mut text = Text { out, at: 0 };
    for (i, answer) in answers.iter().enumerate() {
        text.line(i as u16, *answer);
    }
}

// How many digits a number has in decimal. A chain that counts the powers took twice as long, past the bar of docs/SPEED.md.
fn width(k: u16) -> usize
    ensures { (result ≡ length (decimal k)) × (result ≤ 5) }
{
    1 + usize::from(10 <= k)
        + usize::from(100 <= k)
        + usize::from(1000 <= k)
        + usize::from(10000 <= k)
}

// How long a line is, by the numbers that `Text::line` writes: its seven numbers, six spaces and the newline. The width of a text is asked before a byte of it is written.
fn line_width(number: u16, answer: Answer) -> usize
    ensures { (result ≡ length (line_of number answer)) × (result ≤ 42) }
{
    7 + width(number)
        + width(u16::from(answer.refusal))
        + width(answer.place)
        + width(answer.steps)
        + width(u16::from(answer.outcome))
        + width(u16::from(answer.root))
        + width(u16::from(answer.waiting))
}

// How long the lines of some answers are.
fn lines_width(answers: &[Answer]) -> usize
    requires { length answers.now ≤ 64 }
    ensures { (result ≡ length (lines_from 0 answers.now)) × (result ≤ 42 * length answers.now) }
{
    answers
        .iter()
        .enumerate()
        .map(|(i, answer)| line_width(i as u16, *answer))
        .sum()
}

// 13, and nothing written.
fn no_room() -> Answer
    ensures { result ≡ no_room }
{
    Answer::refused(13, 0)
}

// The answer to a text of so many bytes, written.
fn accepted(bytes: usize) -> Answer
    requires { bytes < 65536 }
    ensures { result ≡ written bytes }
{
    Answer {
        steps: bytes as u16,
        ..Answer::refused(0, 0)
    }
}

// The lines of the first 64 answers, or of all where there are fewer, into a lent buffer.
pub fn write(answers: &[Answer], out: &mut [u8]) -> Answer
    ensures { Output (lines_from 0 (take 64 answers.now)) out.old out.new result }
{
    let shown = &answers[..answers.len().min(64)];
    let needed = lines_width(shown);
    if out.len() < needed {
        return no_room();
    }
    put_lines(shown, out);
    accepted(needed)
}

// `refused 1` and a newline, into a lent buffer.
pub fn write_refused(out: &mut [u8]) -> Answer
    ensures { Output refused_line out.old out.new result }
{
    let line = b"refused 1\n";
    if out.len() < line.len() {
        return no_room();
    }
    out[..line.len()].copy_from_slice(line);
    accepted(line.len())
}
