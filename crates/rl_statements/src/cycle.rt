// Lists, statements and branches call one another; the statement's index falls. Each is handed the bindings by value and hands them
// back (a rule of the project), so that only what holds statements costs a copy.
ghost use Rattle.std.specs.Prelude.{◌≡◌, ℕ};
ghost use Rattle.rl_spec.specs.Image.{Image};
ghost use Rattle.rl_records.specs.Found.{found};
ghost use Rattle.rl_machine.specs.Machine.{Room, Low};
ghost use Rattle.rl_statements.specs.Lists.{block_run, branch_run, otherwise_run, statement_run, unskipped, turn_after, BeginsList, Sound, Runs};

use crate::env::Env;
use crate::stack::Stack;
use crate::steps::{declared, given, looked, next, pushed, stored, visited};
use crate::types::{Block, CompoundForm, ElseForm, Ran, Source};
use crate::views::{branch_at, compound_at, else_at};
use rl_machine::{Flow, State, condition_first, followed};
use rl_spec::Outcome;

// What a list begins with: of a loop with a turn.
fn first_state(looping: bool, condition: Option<u16>) -> State
    ensures begins_list { BeginsList looping condition result }
    ensures room { (im : Image) (bound : ℕ) → Low im → Room im bound 0 result }
{
    if looping {
        return State::Ends(Flow::Onward);
    }
    condition_first(condition)
}

// What a list ends with after a turn; nothing where another one follows.
fn turn_after(looping: bool, f: Flow) -> Option<Flow>
    ensures { result ≡ turn_after looping f }
{
    if !looping {
        return Some(f);
    }
    match f {
        Flow::Onward | Flow::Continues => None,
        Flow::Breaks | Flow::Skipped => Some(Flow::Onward),
        Flow::Over(o) => Some(Flow::Over(o)),
    }
}

// Where no branch is taken, the run goes on.
fn unskipped(f: Flow) -> Flow
    ensures { result ≡ unskipped f }
{
    match f {
        Flow::Skipped => Flow::Onward,
        _ => f,
    }
}

// Runs the statements of a list.
#[cycle(branch_list_otherwise_statement)]
pub fn list(source: Source, block: Block, env: Env, left: u32) -> Ran
    requires { Sound (found source.image) source.classes.now }
    ensures { Runs (block_run (found source.entry.image) block) env left result }
{
    let Source { image, classes } = source;
    let mut env = env;
    let mut left = left;
    let mut base = env.len();
    let mut done: u32 = 0;
    let mut frames = Stack::new();
    let mut state = first_state(block.looping, block.condition);
    loop {
        state = match state {
            State::Next => next(image, block, &mut done, &mut frames, &mut left),
            State::Tested(holds) => {
                base = env.len();
                if holds {
                    State::Next
                } else {
                    State::Ends(Flow::Skipped)
                }
            }
            State::Compound(s) => {
                let ran = statement(source, s, env, left);
                env = ran.env;
                left = ran.left;
                followed(ran.flow)
            }
            State::Visit { node, limit } => visited(image, node, limit, &mut left),
            State::Push { frame, node, limit } => {
                pushed(image, frame, node, limit, &mut frames, &mut left)
            }
            State::Look(name) => looked(classes, name, &env),
            State::Store { name, value } => stored(classes, name, value, &mut env),
            State::Bind { name, value } => declared(name, value, &mut env),
            State::Give(value) => given(image, value, &mut frames),
            State::Ends(flow) => {
                env.leave(base);
                if let Some(flow) = turn_after(block.looping, flow) {
                    return Ran { flow, env, left };
                }
                if left == 0 {
                    let flow = Flow::Over(Outcome::Spent);
                    return Ran { flow, env, left };
                }
                left -= 1;
                done = 0;
                frames.clear();
                condition_first(block.condition)
            }
        };
    }
}

// A branch below a limit: skipped where its condition is false.
#[cycle(branch_list_otherwise_statement)]
fn branch(source: Source, b: u16, limit: u16, env: Env, left: u32) -> Ran
    requires { Sound (found source.image) source.classes.now }
    ensures { Runs (branch_run (found source.entry.image) limit b) env left result }
{
    match branch_at(source.image, b, limit) {
        Some(block) => list(source, block, env, left),
        None => Ran {
            flow: Flow::Onward,
            env,
            left,
        },
    }
}

// What stands behind a branch that is skipped, below a limit.
#[cycle(branch_list_otherwise_statement)]
fn otherwise(source: Source, other: Option<u16>, limit: u16, env: Env, left: u32) -> Ran
    requires { Sound (found source.image) source.classes.now }
    ensures { Runs (otherwise_run (found source.entry.image) limit other) env left result }
{
    match else_at(source.image, other, limit) {
        Some(ElseForm::Branch(s)) => {
            let ran = branch(source, s, limit, env, left);
            Ran {
                flow: unskipped(ran.flow),
                env: ran.env,
                left: ran.left,
            }
        }
        Some(ElseForm::Conditional(s)) => statement(source, s, env, left),
        None => Ran {
            flow: Flow::Onward,
            env,
            left,
        },
    }
}

// A statement that holds statements, once its step is charged.
#[cycle(branch_list_otherwise_statement)]
fn statement(source: Source, s: u16, env: Env, left: u32) -> Ran
    requires { Sound (found source.image) source.classes.now }
    ensures { Runs (statement_run (found source.entry.image) s) env left result }
{
    match compound_at(source.image, s) {
        Some(CompoundForm::Conditional { branch: b, other }) => {
            let ran = branch(source, b, s, env, left);
            match ran.flow {
                Flow::Skipped => otherwise(source, other, s, ran.env, ran.left),
                _ => ran,
            }
        }
        Some(CompoundForm::Loop(block)) => list(source, block, env, left),
        None => Ran {
            flow: Flow::Over(Outcome::Fault(1)),
            env,
            left,
        },
    }
}
