// The lines of an image's reports, or of its refusal, on standard output.
#![tactic(auto)]

mod print;

pub use print::print_reports;
