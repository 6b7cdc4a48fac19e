// Lowering: reads an image, and turns the contracts of one of its functions into plain guards.
#![tactic(auto)]

mod lowering;

pub use lowering::lower;
