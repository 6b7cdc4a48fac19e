// The text of a report of a function's contracts: the clause's own, or the default.
#![tactic(auto)]

mod defaults;
mod own;

pub use defaults::default_text;
pub use own::message;
