// Replays the reader's stored cases. Standard input has for each the image's length and the work slice's, u32 each, and the
// image; for each a line is written: the refusal's number and place, or `0 0` and the heights.
#![tactic(auto)]

use rl_bytes::part;
use rl_cases::{Case, Replay, replay_input};
use rl_numbers::number_of;
use rl_spec::{Counts, Refusal};
use rl_text_out::Out;

struct Reading;

impl Replay for Reading {
    const HEAD: usize = 4;

    // The work slice is not zero beforehand, so that a reader that does not clear it is seen. A line has room: 9,000 heights of at
    // most five digits, with a space each; it is written at once.
    fn replay(rt: &impl Print, case: &Case<'_>) {
        let mut space = [65535u16; 9000];
        let mut room = [0u8; 65536];
        let mut line = Out {
            bytes: &mut room,
            at: 0,
        };
        let work_len = case.number(0) as usize;
        match space.get_mut(..work_len) {
            Some(work) => {
                match rl_ast::read(case.image, work) {
                    Ok(accepted) => put_accepted(&mut line, accepted.counts, work),
                    Err(refusal) => put_refused(&mut line, refusal, work),
                }
            }
            None => line.text(b"work too long"),
        }
        line.text(b"\n");
        let n = line.at;
        let _ = rt.write_all(part(&room, 0, n));
    }
}

fn put_refused(line: &mut Out, refusal: Refusal, work: &[u16]) {
    line.number(number_of(refusal.cause));
    line.text(b" ");
    line.number(refusal.place as u64);
    if !is_zero_from(work, 0) {
        line.text(b" work not zero");
    }
}

fn put_heights(line: &mut Out, heights: &[u16]) {
    for height in heights {
        line.text(b" ");
        line.number(u64::from(*height));
    }
}

fn put_accepted(line: &mut Out, counts: Counts, work: &[u16]) {
    let expressions = usize::from(counts.expressions).min(work.len());
    let (heights, rest) = work.split_at(expressions);
    let (of_statements, rest) = rest.split_at(usize::from(counts.statements).min(rest.len()));
    line.text(b"0 0");
    put_heights(line, heights);
    line.text(b" |");
    put_heights(line, of_statements);
    if !is_zero_from(rest, 0) {
        line.text(b" rest not zero");
    }
}

fn is_zero_from(work: &[u16], from: usize) -> bool {
    work.iter().skip(from).all(|height| *height == 0)
}

fn main(rt: HostRuntime) {
    replay_input::<Reading>(&rt, &mut rt.stdin());
}
