// Answers recorded calls from standard input: for each the six numbers, and the bytes of the image and of the buffer afterwards.
#![tactic(auto)]

use cases::Hex;
use paper::Answer;
use std::io::{Print, Read};

// The call that a record's first four bytes name: its number, and the kind and the two nodes that a step takes.
// The number is matched where it is read; an enum of the calls would be made here and matched here.
fn call(head: [u8; 4], upload: &[u8], image: &mut [u8], buffer: &mut [u8]) -> Answer {
    match head {
        [1, ..] => replay::fresh(upload, image),
        [2, ..] => replay::report(upload, image),
        [3, ..] => replay::list(upload, image, buffer),
        [4, kind, x, y] => replay::step(upload, image, kind, x, y),
        [5, ..] => replay::run(upload, image),
        _ => replay::replay(upload),
    }
}

// Room for what a call is lent.
#[derive(Drop)]
struct Room {
    upload: [u8; 65535],
    image: [u8; 65535],
    buffer: [u8; 65535],
}

impl Room {
    // Makes the next recorded call, where there is one, and prints what it answers and leaves. A write that fails is passed over.
    fn answer_one(&mut self, input: &mut impl Read, out: &impl Print) -> Option<()> {
        let mut head = [0u8; 4];
        input.read_exact(&mut head).ok()?;
        let upload = cases::block(cases::two(input)?, input, &mut self.upload)?;
        let image = cases::block(cases::two(input)?, input, &mut self.image)?;
        let buffer = cases::block(cases::two(input)?, input, &mut self.buffer)?;
        let answer = call(head, upload, image, buffer);
        let _ = println!(out; "{answer} {} {}", Hex(image), Hex(buffer));
        Some(())
    }
}

// The loop stands in each of the four programs: a function that takes what is repeated as a closure would share these four lines alone, and be no plainer.
fn main(rt: HostRuntime) {
    let mut room = Room {
        upload: [0; 65535],
        image: [0; 65535],
        buffer: [0; 65535],
    };
    for _ in 0..u64::MAX {
        if room.answer_one(&mut rt.stdin(), &rt.stdout()).is_none() {
            break;
        }
    }
}
