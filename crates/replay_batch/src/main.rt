// Reads a batch from standard input and prints a line for each entry of it.
#![tactic(auto)]

use std::fmt;
use std::io::{Print, Read};

// Why a batch is not answered, or not whole.
#[derive(Clone, Copy, Debug, PartialEq, Eq)]
enum Fault {
    Unread,
    NoRoom,
    TooLong,
    Unwritten,
}

impl fmt::Display for Fault {
    fn fmt<W: fmt::Write>(&self, f: &mut fmt::Formatter<W>) -> fmt::Result {
        f.write_str(match self {
            Fault::Unread => "reading failed, nothing is answered",
            Fault::NoRoom => "the text has no room",
            Fault::TooLong => "the text is longer than its buffer",
            Fault::Unwritten => "writing failed, the answer is not complete",
        })
    }
}

// Reads a batch, or one byte more than any batch has, and prints its lines. At most 64 lines of 25 bytes come of it.
fn answer(input: &mut impl Read, out: &impl Print) -> Result<(), Fault> {
    let mut buffer = [0u8; 65537];
    let n = cases::filled(input, &mut buffer).map_err(|_| Fault::Unread)?;
    let mut text = [0u8; 1600];
    let answer = batch::lines(&buffer[..n], &mut text);
    // `batch::lines` answers the six numbers of document 01.
    if answer.refusal != 0 {
        return Err(Fault::NoRoom);
    }
    let lines = text.get(..usize::from(answer.steps)).ok_or(Fault::TooLong)?;
    out.write_all(lines).map_err(|_| Fault::Unwritten)
}

fn main(rt: HostRuntime) {
    if let Err(fault) = answer(&mut rt.stdin(), &rt.stdout()) {
        let _ = eprintln!(rt; "replay_batch: {fault}");
    }
}
