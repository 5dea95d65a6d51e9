// The batch: its header, the span of each entry, and an entry's answer as the replay of its part.

#![tactic(auto)]

ghost use Rattle.std.specs.Prelude.{◌≡◌, false, true, ◌+◌, ◌*◌, ◌<◌, ◌≤◌, ◌^◌, length, take, MatchResult};
ghost use Rattle.paper.specs.Upload.{four_at};
ghost use Rattle.paper.specs.Batch.{count_of, header_wrong, span_outside, part_of, entry_answer};
ghost use Rattle.paper.specs.Lines.{lines_from, lines_answer, lines_buffer};
ghost use Rattle.counting.specs.Count.{list_of};
ghost use Rattle.lines.specs.Output.{Output};
ghost use Rattle.batch.specs.Refusal.{RefusedBy};

use paper::Answer;

// Why an entry has no part: the header is refused, or its span is outside.
#[derive(Clone, Copy)]
enum Refusal {
    Header = 1,
    Span = 2,
}

// Four bytes as a number, high byte first. By `as`: std has no `From` of u32 for usize.
fn four(batch: &[u8], at: usize) -> usize
    requires { at + 4 ≤ length batch.now }
    ensures { (result ≡ four_at batch.now at) × (result < 2 ^ 32) }
{
    u32::from_be_bytes([batch[at], batch[at + 1], batch[at + 2], batch[at + 3]]) as usize
}

// c, the number of entries: 1 to 64, all inside a batch of 4 to 65,536 bytes.
fn count(batch: &[u8]) -> Result<usize, Refusal>
    ensures { MatchResult result
        (λ c. (header_wrong batch.now ≡ false) × (c ≡ count_of batch.now))
        (λ e. (e ≡ Refusal.Header) × (header_wrong batch.now ≡ true)) }
{
    let size = batch.len();
    if size < 4 {
        return Err(Refusal::Header);
    }
    let entries = four(batch, 0);
    if (65536 < size) | (entries == 0) | (64 < entries) | (size < 4 + 8 * entries) {
        return Err(Refusal::Header);
    }
    Ok(entries)
}

// The part of the batch that an entry names, and nothing else of it: its span starts behind the header, and ends inside the batch.
fn part(batch: &[u8], number: usize) -> Result<&[u8], Refusal>
    ensures { MatchResult result
        (λ part. (header_wrong batch.now ≡ false) × (span_outside batch.now number ≡ false) × (part.now ≡ part_of batch.now number))
        (RefusedBy batch.now number) }
{
    let entries = count(batch)?;
    if entries <= number {
        return Err(Refusal::Span);
    }
    let start = four(batch, 4 + 8 * number);
    let end = start + four(batch, 8 + 8 * number);
    if (start < 4 + 8 * entries) | (batch.len() < end) {
        return Err(Refusal::Span);
    }
    Ok(&batch[start..end])
}

// An entry's answer: the replay of its part, where 1 and 2 aren't given.
pub fn entry(batch: &[u8], number: usize) -> Answer
    ensures { result ≡ entry_answer batch.now number }
{
    match part(batch, number) {
        Ok(upload) => replay::replay(upload),
        Err(refusal) => Answer::refused(refusal as u8, 0),
    }
}

// The lines of the entries 0, 1, .., one for each place of a buffer that their answers are put into.
fn entry_lines(batch: &[u8], answers: &mut [Answer], out: &mut [u8]) -> Answer
    ensures { Output (lines_from 0 (take 64 (list_of (length answers.old) (entry_answer batch.now)))) out.old out.new result }
{
    for (i, answer) in answers.iter_mut().enumerate() {
        *answer = entry(batch, i);
    }
    lines::write(answers, out)
}

// The lines of so many entries. Its buffer is not made where the header is refused, so it stays a call of its own.
#[inline(never)]
fn accepted_lines(batch: &[u8], entries: usize, out: &mut [u8]) -> Answer
    requires { entries ≤ 64 }
    ensures { Output (lines_from 0 (list_of entries (entry_answer batch.now))) out.old out.new result }
{
    let mut answers = [Answer::refused(0, 0); 64];
    entry_lines(batch, &mut answers[..entries], out)
}

// The printed text of a batch, into a lent buffer.
pub fn lines(batch: &[u8], out: &mut [u8]) -> Answer
    ensures { (result ≡ lines_answer batch.now out.old) × (out.new ≡ lines_buffer batch.now out.old) }
{
    match count(batch) {
        Ok(entries) => accepted_lines(batch, entries, out),
        Err(_) => lines::write_refused(out),
    }
}
