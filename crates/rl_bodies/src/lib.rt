// The new body of a function: its guards, then its own statements or what stands for them.
#![tactic(auto)]

mod body;

pub use body::new_body;
