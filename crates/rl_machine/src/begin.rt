// What a list and a statement begin with.
ghost use Rattle.std.specs.Prelude.{◌≡◌, ℕ, ◌<◌, ◌≤◌};
ghost use Rattle.rl_spec.specs.Image.{Image};
ghost use Rattle.rl_spec.specs.Tree.{optional_tree};
ghost use Rattle.rl_spec.specs.Statement.{as_statement, item_tree, statement_of};
ghost use Rattle.rl_records.specs.Found.{found};
ghost use Rattle.rl_machine.specs.Machine.{Means, Room, Low, last_as, item_under, guarded, Begins, Follows, weight};

use crate::fault;
use crate::types::{Flow, Frame, State};
use rl_records::ImageRef;
use rl_spec::{Outcome, Plain, StatementForm, Value};

// An expression of a statement.
fn evaluate(frame: Frame, node: u16) -> State
    ensures { result ≡ State.Push frame node 65536 }
{
    State::Push {
        frame,
        node,
        limit: 65536,
    }
}

// A list begins with its condition, or with its first statement.
pub fn condition_first(condition: Option<u16>) -> State
    ensures means { (im : Image) → Means im result (λ base rest k. guarded im (optional_tree im condition) rest) }
    ensures room { (im : Image) (bound : ℕ) → Low im → Room im bound 0 result }
{
    match condition {
        Some(node) => evaluate(Frame::Test, node),
        None => State::Tested(true),
    }
}

// What the statement s of a form begins with, once its step is charged. The last bare expression of a body gives the value.
fn begun_form(form: StatementForm, s: u16, last: bool) -> State
    ensures begins { (im : Image) → statement_of im s ≡ form → Begins im (last_as last (as_statement (item_tree im s))) result }
    ensures room { (im : Image) (bound : ℕ) → s < bound → Low im → Room im bound 0 result }
{
    match form {
        StatementForm::Declaration { name, value } => evaluate(Frame::Declare(name), value),
        StatementForm::Expression(node) => {
            if last {
                return evaluate(Frame::Return, node);
            }
            evaluate(Frame::Discard, node)
        }
        StatementForm::Return(node) => evaluate(Frame::Return, node),
        StatementForm::ReturnAlone => {
            State::Ends(Flow::Over(Outcome::Returned(Value::Plain(Plain::Null))))
        }
        StatementForm::Conditional { .. } | StatementForm::While { .. } | StatementForm::Loop(_) =>
            { State::Compound(s) }
        StatementForm::Break => State::Ends(Flow::Breaks),
        StatementForm::Continue => State::Ends(Flow::Continues),
        StatementForm::Branch { .. } | StatementForm::Other => fault(1),
    }
}

// What a statement below a limit begins with, once its step is charged.
pub fn begun(image: ImageRef, s: u16, limit: u32, last: bool) -> State
    ensures begins { Begins (found image.entry) (last_as last (as_statement (item_under (found image.entry) limit s))) result }
    ensures room { (im : Image) → Low im → Room im limit 0 result }
{
    if limit <= u32::from(s) {
        return fault(1);
    }
    begun_form(image.statement(s), s, last)
}

// After a statement that holds statements.
pub fn followed(flow: Flow) -> State
    ensures follows { (im : Image) → Follows im flow result }
    ensures room { (im : Image) (bound t : ℕ) → Room im bound t result }
    ensures result_bound { weight result ≤ 1 }
{
    match flow {
        Flow::Onward => State::Next,
        _ => State::Ends(flow),
    }
}
