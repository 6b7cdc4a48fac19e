// Replays the stored cases of running. Standard input has for each the image's length, the work slice's, the function, the budget and
// the number of value words, u32 each, then the image and the words, u64 each; for each the outcome is written as a line.
#![tactic(auto)]

use rl_abi::rl_run;
use rl_bytes::{u32_at, u64_at};
use rl_cases::{BadCase, Case, Replay, replay_input, unpacked};
use std::io;

struct Running;

impl Replay for Running {
    const HEAD: usize = 16;

    fn tail_len(head: &[u8]) -> Result<usize, BadCase> {
        let count = u32_at(head, 12) as usize;
        if 64 < count {
            return Err(BadCase("too many words"));
        }
        Ok(8 * count)
    }

    fn replay(rt: &impl Print, case: &Case<'_>) {
        let mut space = [0u16; 16384];
        let mut words = [0u64; 64];
        for (word, bytes) in words.iter_mut().zip(case.tail.chunks(8)) {
            *word = u64_at(bytes, 0);
        }
        let work_len = case.number(0) as usize;
        let (function, budget) = (case.number(1), case.number(2));
        let count = case.number(3) as usize;
        let (Some(work), Some(values)) = (space.get_mut(..work_len), words.get(..count)) else {
            let _ = println!(rt; "too long");
            return;
        };
        let mut outcome = [0u64; 4];
        let answer = rl_run(case.image, work, function, values, budget, &mut outcome);
        let _ = match unpacked(answer) {
            Ok(_) => print_outcome(rt, outcome),
            Err(refused) => println!(rt; "{refused}"),
        };
    }
}

// The kinds are numbers, as the C interface has them.
fn print_outcome(rt: &impl Print, outcome: [u64; 4]) -> io::Result<()> {
    let [kind, steps, sort, payload] = outcome;
    match kind {
        1 => println!(rt; "returned {sort} {payload} steps {steps}"),
        2 => println!(rt; "stopped {sort} {payload} steps {steps}"),
        3 => println!(rt; "fault {sort} steps {steps}"),
        _ => println!(rt; "spent steps {steps}"),
    }
}

fn main(rt: HostRuntime) {
    replay_input::<Running>(&rt, &mut rt.stdin());
}
