// rl-checker's contracts.rs over an image: folding a node, proving a call, proving all calls.
#![tactic(auto)]

mod folding;
mod proving;

pub use folding::fold;
pub use proving::{prove, prove_all};
