// Prints a line for each report of the calls of the image on standard input, or why it is refused.
#![tactic(auto)]

use rl_report::print_reports;
use rl_streams::fill;

// Of an image that is too long, one byte too many is read.
fn main(rt: HostRuntime) {
    let mut input = [0u8; 65536];
    let Ok(n) = fill(&mut rt.stdin(), &mut input) else {
        let _ = eprintln!(rt; "standard input cannot be read");
        return;
    };
    let mut work = [0u16; 8192];
    print_reports(&rt, &input[..n], &mut work);
}
