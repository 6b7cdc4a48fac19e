// The image: its schema, and the reader.
#![tactic(auto)]

mod reader;

pub use reader::{read, read_starts};
