// Values, outcomes and answers as the words of the boundary with C and Rust.
#![tactic(auto)]

mod answers;
mod values;

pub use answers::{Says, pack, pack_refusal};
pub use values::{arguments_of, put_outcome, put_value};
