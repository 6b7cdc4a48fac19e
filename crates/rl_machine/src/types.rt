// What the machine of a list is made of.
use rl_spec::{Outcome, Value};

// How a list ends: a list whose condition is false is skipped.
#[derive(Clone, Copy)]
pub enum Flow {
    Onward,
    Breaks,
    Continues,
    Skipped,
    Over(Outcome),
}

// What waits for a value. The lowest frame is a statement's, the others are expressions'.
#[derive(Clone, Copy)]
pub enum Frame {
    // the list's condition
    Test,
    Declare(u16),
    Discard,
    Return,
    // a Binary for its left operand; the right one is a node below a limit
    Left {
        operator: u8,
        right: u16,
        limit: u16,
    },
    // a Binary for its right operand
    Right {
        operator: u8,
        left: Value,
    },
    Unary(u8),
    Assign(u16),
    Ok,
    Err,
    IsErr,
    Unwrap,
}

// What comes next.
#[derive(Clone, Copy)]
pub enum State {
    // the next statement
    Next,
    // the condition is true or false
    Tested(bool),
    // a statement that holds statements
    Compound(u16),
    // a node; one that is not below the limit is a form that is not taken
    Visit { node: u16, limit: u32 },
    // a node whose value a new frame waits for
    Push { frame: Frame, node: u16, limit: u32 },
    // a name is looked up
    Look(u16),
    // a name is given a value
    Store { name: u16, value: Value },
    Bind { name: u16, value: Value },
    // a value for the newest frame
    Give(Value),
    Ends(Flow),
}
