// Answers recorded calls of `lines` from standard input: for each the six numbers, and the bytes of the buffer afterwards.
#![tactic(auto)]

use cases::Hex;
use std::io::{Print, Read};

// Room for a batch and for the buffer that the call is lent.
#[derive(Drop)]
struct Room {
    batch: [u8; 131072],
    buffer: [u8; 65535],
}

impl Room {
    // Makes the next recorded call, where there is one. A write that fails is passed over.
    fn answer_one(&mut self, input: &mut impl Read, out: &impl Print) -> Option<()> {
        let batch = cases::block(cases::four(input)?, input, &mut self.batch)?;
        let buffer = cases::block(cases::two(input)?, input, &mut self.buffer)?;
        let answer = batch::lines(batch, buffer);
        let _ = println!(out; "{answer} {}", Hex(buffer));
        Some(())
    }
}

// The loop stands in each of the four programs: a function that takes what is repeated as a closure would share these four lines alone, and be no plainer.
fn main(rt: HostRuntime) {
    let mut room = Room {
        batch: [0; 131072],
        buffer: [0; 65535],
    };
    for _ in 0..u64::MAX {
        if room.answer_one(&mut rt.stdin(), &rt.stdout()).is_none() {
            break;
        }
    }
}
