// Answers recorded batches from standard input: for each its number and the lines that the program prints of it.
#![tactic(auto)]

use std::io::{Print, Read};

// Room for a batch and for its lines.
#[derive(Drop)]
struct Room {
    batch: [u8; 131072],
    text: [u8; 2048],
}

impl Room {
    // Answers the next recorded batch, where there is one. A write that fails is passed over.
    fn answer_one(&mut self, input: &mut impl Read, out: &impl Print, number: u64) -> Option<()> {
        let batch = cases::block(cases::four(input)?, input, &mut self.batch)?;
        let answer = batch::lines(batch, &mut self.text);
        let _ = println!(out; "batch {number}");
        if let Some(lines) = self.text.get(..usize::from(answer.steps)) {
            let _ = out.write_all(lines);
        }
        Some(())
    }
}

// The loop stands in each of the four programs: a function that takes what is repeated as a closure would share these four lines alone, and be no plainer.
fn main(rt: HostRuntime) {
    let mut room = Room {
        batch: [0; 131072],
        text: [0; 2048],
    };
    for number in 0..u64::MAX {
        if room
            .answer_one(&mut rt.stdin(), &rt.stdout(), number)
            .is_none()
        {
            break;
        }
    }
}
