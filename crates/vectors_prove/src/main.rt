// Replays the stored cases of proving. Standard input has for each the image's length and the work slice's, u32 each, and the
// image; for each the lines of its reports are written, and `--`.
#![tactic(auto)]

use rl_cases::{Case, Replay, replay_input};
use rl_report::print_reports;

struct Proving;

impl Replay for Proving {
    const HEAD: usize = 4;

    fn replay(rt: &impl Print, case: &Case<'_>) {
        let mut space = [0u16; 8192];
        let work_len = case.number(0) as usize;
        match space.get_mut(..work_len) {
            Some(work) => print_reports(rt, case.image, work),
            None => {
                let _ = println!(rt; "work too long");
            }
        }
        let _ = println!(rt; "--");
    }
}

fn main(rt: HostRuntime) {
    replay_input::<Proving>(&rt, &mut rt.stdin());
}
