// The lines about saved uploads as bytes, each into a lent buffer: its length, or 0 and nothing written where it has no room.

#![tactic(auto)]

ghost use Rattle.std.specs.Prelude.{◌≡◌, length, take, ◌<◌, ◌≤◌};
ghost use Rattle.saved.specs.Placed.{Placed, Joins, text_of};
ghost use Rattle.saved.specs.Saved.{numbers, too_long, answer_line, unopened_line, unread_line, too_long_line, progress_line, totals_line};

use paper::Answer;

// Some texts, one behind another, where there is room for all of them: how many bytes they are.
// Their lengths are taken off the room in turn, and not summed: nothing promises that the sum fits its type.
fn joined(texts: &[&[u8]], out: &mut [u8]) -> Option<usize>
    ensures { Joins (text_of texts.now) out.old out.new result }
{
    let mut room = out.len();
    for text in texts {
        if room < text.len() {
            return None;
        }
        room -= text.len();
    }
    let mut at = 0;
    for text in texts {
        let end = at + text.len();
        out[at..end].copy_from_slice(text);
        at = end;
    }
    Some(at)
}

// Some texts, one behind another: 0 where there is no room, as `Placed` says of every line.
fn line(texts: &[&[u8]], out: &mut [u8]) -> usize
    ensures { Placed (text_of texts.now) out.old out.new result }
{
    joined(texts, out).unwrap_or(0)
}

// Whether a file has more bytes than any upload.
pub fn too_long(bytes: &[u8]) -> bool
    ensures { result ≡ too_long bytes.now }
{
    3328 < bytes.len()
}

// The line of a file that cannot be opened. This one and the next two differ only in their text: each has its own definition, and one that picks the text by a number would be no plainer.
pub fn unopened_line(name: &[u8], out: &mut [u8]) -> usize
    ensures { Placed (unopened_line name.now) out.old out.new result }
{
    line(&[name, b": cannot be opened\n"], out)
}

// The line of a file that cannot be read to its end.
pub fn unread_line(name: &[u8], out: &mut [u8]) -> usize
    ensures { Placed (unread_line name.now) out.old out.new result }
{
    line(&[name, b": cannot be read\n"], out)
}

// The line of a file that is longer than any upload.
pub fn too_long_line(name: &[u8], out: &mut [u8]) -> usize
    ensures { Placed (too_long_line name.now) out.old out.new result }
{
    line(&[name, b": longer than any upload\n"], out)
}

// The six numbers of an answer, a space before each and a newline behind: its line as that of entry 0, but for the first byte.
fn six_numbers(answer: Answer, buffer: &mut [u8; 64]) -> &[u8]
    ensures { result.now ≡ numbers answer }
{
    let n = usize::from(lines::write(&[answer], buffer).steps);
    &buffer[1..n]
}

// The line of a file that holds an upload.
pub fn answer_line(name: &[u8], upload: &[u8], out: &mut [u8]) -> usize
    ensures { Placed (answer_line name.now upload.now) out.old out.new result }
{
    let answer = replay::replay(upload);
    line(&[name, six_numbers(answer, &mut [0; 64])], out)
}

// How far it has come: a number of files.
pub fn progress_line(files: u64, out: &mut [u8]) -> usize
    ensures { Placed (progress_line files) out.old out.new result }
{
    line(
        &[itoa::Buffer::new().format(files).as_bytes(), b" files\n"],
        out,
    )
}

// The last line: how many files were answered, and how many were not read.
pub fn totals_line(answered: u64, unread: u64, out: &mut [u8]) -> usize
    ensures { Placed (totals_line answered unread) out.old out.new result }
{
    line(
        &[
            b"answered ",
            itoa::Buffer::new().format(answered).as_bytes(),
            b", not read ",
            itoa::Buffer::new().format(unread).as_bytes(),
            b"\n",
        ],
        out,
    )
}
