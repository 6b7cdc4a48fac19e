// Proving a call: its callee, the two passes over arguments and parameters, the requires.
#![tactic(auto)]

mod bindings;
mod callee;
mod calls;
mod reports;
mod violations;

pub use callee::{any_refined, find_callee};
pub use calls::{memory_size, prove_call};
