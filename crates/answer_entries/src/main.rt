// Answers recorded entries from standard input: for each the six numbers.
#![tactic(auto)]

use std::io::{Print, Read};

// Answers the next recorded entry, where there is one. A write that fails is passed over.
fn answer_one(input: &mut impl Read, out: &impl Print, batch: &mut [u8]) -> Option<()> {
    let batch = cases::block(cases::four(input)?, input, batch)?;
    let answer = batch::entry(batch, cases::two(input)?);
    let _ = println!(out; "{answer}");
    Some(())
}

// The loop stands in each of the four programs: a function that takes what is repeated as a closure would share these four lines alone, and be no plainer.
fn main(rt: HostRuntime) {
    let mut batch = [0u8; 131072];
    for _ in 0..u64::MAX {
        if answer_one(&mut rt.stdin(), &rt.stdout(), &mut batch).is_none() {
            break;
        }
    }
}
