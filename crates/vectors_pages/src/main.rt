// Replays the stored cases of pages. Standard input has for each the lengths of the image, the work slice and the page slice, u32
// each, then the image; for each the answer is written as a line, and behind it the pages.
#![tactic(auto)]

use rl_abi::rl_pages;
use rl_bytes::part;
use rl_cases::{Case, Replay, replay_input, unpacked};

struct Paging;

impl Replay for Paging {
    const HEAD: usize = 8;

    fn replay(rt: &impl Print, case: &Case<'_>) {
        let mut space = [0u16; 16384];
        let mut room = [0u8; 16384];
        let work_len = case.number(0) as usize;
        let pages_len = case.number(1) as usize;
        let (Some(work), Some(pages)) = (space.get_mut(..work_len), room.get_mut(..pages_len))
        else {
            let _ = println!(rt; "too long");
            return;
        };
        let answer = rl_pages(case.image, work, pages);
        match unpacked(answer) {
            Ok(len) => {
                // no slice up to it, since no clause of `rl_pages` says that it is within `pages`
                let pages = part(pages, 0, len as usize);
                let _ = println!(rt; "bytes {}", pages.len());
                let _ = rt.write_all(pages);
            }
            Err(refused) => {
                let _ = println!(rt; "{refused}");
            }
        }
    }
}

fn main(rt: HostRuntime) {
    replay_input::<Paging>(&rt, &mut rt.stdin());
}
