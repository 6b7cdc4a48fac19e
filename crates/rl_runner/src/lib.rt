// The runner: reads an image, and runs one of its functions within a budget of steps.
#![tactic(auto)]

mod bound;
mod running;

pub use running::run;
