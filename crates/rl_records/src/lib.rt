// The records of an image by what they mean: texts, list entries, the forms of expressions and statements, contracts and calls. Every method
// answers for every argument, by the image that bytes, starts and counts give (`found`); a record that is not there is all 0.
#![tactic(auto)]

mod contracts;
mod forms;
mod statements;
mod texts;

pub use contracts::{functions_at, parameters_at};
use rl_spec::Counts;
pub use texts::optional_at;

// An image that is borrowed: its bytes, where its expressions and then its statements start, and its counts.
#[derive(Clone, Copy)]
pub struct ImageRef<'a, 's> {
    pub bytes: &'a [u8],
    pub starts: &'s [u16],
    pub counts: Counts,
}
