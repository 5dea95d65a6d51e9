// Answers saved uploads: its arguments are file names, behind -q where it is to say nothing of how far it has come.
// It prints a line for each file, and a last line that counts them.
#![tactic(auto)]

ghost use Rattle.std.specs.Prelude.{◌≡◌, ◌≤◌, false, length, IfOk, IfSome, IsErrOf};
ghost use Rattle.saved.specs.Placed.{Placed};
ghost use Rattle.saved.specs.Saved.{too_long, answer_line, unopened_line, unread_line, too_long_line};

use std::env::FillError;
use std::fmt;
use std::fs::File;
use std::io::Print;
use std::rt::{Env, Files};

// Why a file is not answered.
#[derive(Clone, Copy, Debug, PartialEq, Eq)]
enum Unanswered {
    Unopened,
    Unread,
    TooLong,
}

// What could not be written.
#[derive(Clone, Copy, Debug, PartialEq, Eq)]
enum Fault {
    Line,
    Totals,
}

impl fmt::Display for Fault {
    fn fmt<W: fmt::Write>(&self, f: &mut fmt::Formatter<W>) -> fmt::Result {
        f.write_str(match self {
            Fault::Line => "writing failed, the lines are not complete",
            Fault::Totals => "writing failed, the last line is not there",
        })
    }
}

// Room for a name, which every argument that Linux passes has, for an upload and one byte more, and for a line about a name.
#[derive(Drop)]
struct Room {
    name: [u8; 131072],
    upload: [u8; 3329],
    line: [u8; 131200],
}

// The bytes of an argument, at the start of the buffer: where there is such an argument and room for it.
fn argument<'a>(rt: &impl Env, i: usize, buffer: &'a mut [u8]) -> Option<&'a [u8]>
    ensures { IfSome result (λ bytes. length bytes.now ≤ length buffer.old) }
{
    let n = rt.arg(i, buffer).ok()?;
    Some(&buffer[..n])
}

// How many arguments there are, the program's own name among them.
fn argument_count(rt: &impl Env) -> usize {
    (0..usize::MAX)
        .take_while(|&i| !matches!(rt.arg(i, &mut [0; 1]), Err(FillError::NotPresent)))
        .count()
}

// Whether the first argument is -q.
fn is_quiet(rt: &impl Env) -> bool {
    argument(rt, 1, &mut [0; 2]) == Some(b"-q".as_slice())
}

// The upload in a file, at the start of the buffer. Of one byte more than an upload may have, no more is read.
// The library's paths are UTF-8 text, so a name that is not cannot be opened.
fn read_upload<'a>(
    rt: &impl Files,
    name: &[u8],
    buffer: &'a mut [u8; 3329],
) -> Result<&'a [u8], Unanswered>
    ensures { IfOk result (λ upload. too_long upload.now ≡ false) }
{
    let path = std::str::from_utf8(name).map_err(|_| Unanswered::Unopened)?;
    let mut file = File::open(rt, path).map_err(|_| Unanswered::Unopened)?;
    let n = cases::filled(&mut file, buffer).map_err(|_| Unanswered::Unread)?;
    let upload = &buffer[..n];
    if saved::too_long(upload) {
        return Err(Unanswered::TooLong);
    }
    Ok(upload)
}

// Puts the line about a file at the start of the buffer, and answers its length, or 0 where it has no room: a number, as the contracts of `saved` have it.
fn line_of(name: &[u8], upload: Result<&[u8], Unanswered>, line: &mut [u8]) -> usize
    ensures answered { IfOk upload.entry (λ bytes. Placed (answer_line name.now bytes.now) line.old line.new result) }
    ensures unopened { IsErrOf upload.entry Unanswered.Unopened → Placed (unopened_line name.now) line.old line.new result }
    ensures unread { IsErrOf upload.entry Unanswered.Unread → Placed (unread_line name.now) line.old line.new result }
    ensures too_long { IsErrOf upload.entry Unanswered.TooLong → Placed (too_long_line name.now) line.old line.new result }
{
    match upload {
        Ok(bytes) => saved::answer_line(name, bytes, line),
        Err(Unanswered::Unopened) => saved::unopened_line(name, line),
        Err(Unanswered::Unread) => saved::unread_line(name, line),
        Err(Unanswered::TooLong) => saved::too_long_line(name, line),
    }
}

// Writes the line of n bytes at the buffer's start, and nothing of one that had no room, which has 0: None then, and where the writing fails.
fn write_line(to: &impl Print, line: &[u8], n: usize) -> Option<()> {
    if n == 0 {
        return None;
    }
    to.write_all(line.get(..n)?).ok()
}

impl Room {
    // Prints the line of the file that an argument names, and answers whether it holds an upload.
    // An argument that is missing or has no room is the empty name, which no file has.
    fn print_line(&mut self, rt: &(impl Env + Files + Print), i: usize) -> Result<bool, Fault> {
        let name = argument(rt, i, &mut self.name).unwrap_or_default();
        let upload = read_upload(rt, name, &mut self.upload);
        let n = line_of(name, upload, &mut self.line);
        write_line(rt, &self.line, n).ok_or(Fault::Line)?;
        Ok(upload.is_ok())
    }

    // Says how many files are done. A write that fails is passed over. By `as`, here and below: std has no `From` of usize for u64.
    fn print_progress(&mut self, err: &impl Print, done: usize) {
        let n = saved::progress_line(done as u64, &mut self.line);
        let _ = write_line(err, &self.line, n);
    }

    // Prints the last line.
    fn print_totals(
        &mut self,
        out: &impl Print,
        answered: usize,
        unread: usize,
    ) -> Result<(), Fault> {
        let n = saved::totals_line(answered as u64, unread as u64, &mut self.line);
        write_line(out, &self.line, n).ok_or(Fault::Totals)
    }

    // Prints a line for each name, and the last line; every 1,000 files, unless it is quiet, says so on standard error.
    fn print_all(
        &mut self,
        rt: &(impl Env + Files + Print),
        err: &impl Print,
    ) -> Result<(), Fault> {
        let quiet = is_quiet(rt);
        let first = 1 + usize::from(quiet);
        let mut answered = 0;
        let mut unread = 0;
        for i in first..argument_count(rt) {
            if self.print_line(rt, i)? {
                answered += 1;
            } else {
                unread += 1;
            }
            let done = answered + unread;
            if !quiet && done % 1000 == 0 {
                self.print_progress(err, done);
            }
        }
        self.print_totals(rt, answered, unread)
    }
}

fn main(rt: HostRuntime) {
    let mut room = Room {
        name: [0; 131072],
        upload: [0; 3329],
        line: [0; 131200],
    };
    if let Err(fault) = room.print_all(&rt, &rt.stderr()) {
        let _ = eprintln!(rt; "replay_files: {fault}");
    }
}
