// What is checked between reading and lowering or running.
#![tactic(auto)]

mod lowering;
mod running;

pub use lowering::admit_lowering;
pub use running::admit_run;
