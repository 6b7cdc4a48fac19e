// Replays the stored cases of lowering. Standard input has for each the lengths of the image, the work slice and the output slice and
// the function, u32 each, then the image; for each the answer is written as a line, a lowered image in hexadecimal digits.
#![tactic(auto)]

use rl_abi::rl_lower;
use rl_bytes::part;
use rl_cases::{Case, Replay, replay_input, unpacked};

struct Lowering;

impl Replay for Lowering {
    const HEAD: usize = 12;

    fn replay(rt: &impl Print, case: &Case<'_>) {
        let mut space = [0u16; 16384];
        let mut room = [0u8; 131072];
        let work_len = case.number(0) as usize;
        let out_len = case.number(1) as usize;
        let function = case.number(2);
        let (Some(work), Some(out)) = (space.get_mut(..work_len), room.get_mut(..out_len)) else {
            let _ = println!(rt; "too long");
            return;
        };
        let answer = rl_lower(case.image, work, function, out);
        match unpacked(answer) {
            Ok(len) => {
                // no slice up to it, since no clause of `rl_lower` says that it is within `out`
                let lowered = part(out, 0, len as usize);
                let _ = print!(rt; "lowered {} ", lowered.len());
                // one by one: where the output does not take one, those behind it are written all the same
                for byte in lowered {
                    let _ = print!(rt; "{byte:02x}");
                }
            }
            Err(refused) => {
                let _ = print!(rt; "{refused}");
            }
        }
        let _ = println!(rt; "");
    }
}

fn main(rt: HostRuntime) {
    replay_input::<Lowering>(&rt, &mut rt.stdin());
}
