// What the functions of a run hand one another.
use crate::env::Env;
use rl_machine::Flow;
use rl_records::ImageRef;
use rl_spec::Interval;

// An image, and the classes of its texts: equal ones have the same bytes.
#[derive(Clone, Copy)]
pub struct Source<'a> {
    pub image: ImageRef<'a, 'a>,
    pub classes: &'a [u16],
}

// A list of statements, each below a bound, that run where the condition holds; of a loop over and over. The last bare expression of the
// outermost one, a function's body, gives the value.
#[derive(Clone, Copy)]
pub struct Block {
    pub bound: u32,
    pub outermost: bool,
    pub looping: bool,
    pub condition: Option<u16>,
    pub body: Interval,
}

// How a list or a statement ended, the bindings and the budget that is left.
#[derive(Drop)]
pub struct Ran {
    pub flow: Flow,
    pub env: Env,
    pub left: u32,
}

// What stands behind a branch that is skipped, by its index.
#[derive(Clone, Copy)]
pub enum ElseForm {
    Branch(u16),
    Conditional(u16),
}

// A statement that holds statements.
#[derive(Clone, Copy)]
pub enum CompoundForm {
    Conditional { branch: u16, other: Option<u16> },
    Loop(Block),
}
