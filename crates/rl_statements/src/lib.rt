// Runs a function's body and counts the steps.
#![tactic(auto)]

mod cycle;
mod env;
mod stack;
mod steps;
mod types;
mod views;

pub use cycle::list;
pub use env::{Binding, Env};
pub use types::{Block, Ran, Source};
