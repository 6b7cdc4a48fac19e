// What a node asks for.
ghost use Rattle.std.specs.Prelude.{◌≡◌};
ghost use Rattle.rl_spec.specs.Image.{Image};
ghost use Rattle.rl_spec.specs.Tree.{tree_by};
ghost use Rattle.rl_records.specs.Found.{found};
ghost use Rattle.rl_machine.specs.Machine.{tree_under, Enters, EntersRoom};

use crate::types::{Frame, State};
use crate::{fault, folded};
use rl_records::ImageRef;
use rl_spec::{Form, Plain, Value};

fn push(frame: Frame, node: u16, at: u16) -> State
    ensures { result ≡ State.Push frame node at }
{
    State::Push {
        frame,
        node,
        limit: u32::from(at),
    }
}

// What a node of a form comes to, once its step is charged.
fn entered_form(form: Form, at: u16) -> State
    ensures enters { (im : Image) → Enters im (tree_by im form (tree_under im at)) result }
    ensures enters_room { (im : Image) → EntersRoom im (tree_by im form (tree_under im at)) result }
{
    match form {
        Form::Null => State::Give(Value::Plain(Plain::Null)),
        Form::Literal(v) => folded(v),
        Form::Identifier(name) => State::Look(name),
        Form::Unary { operator, operand } => push(Frame::Unary(operator), operand, at),
        Form::Binary {
            left,
            operator,
            right,
        } => {
            let frame = Frame::Left {
                operator,
                right,
                limit: at,
            };
            push(frame, left, at)
        }
        Form::Grouping(node) => State::Visit {
            node,
            limit: u32::from(at),
        },
        Form::Assign { name, value } => push(Frame::Assign(name), value, at),
        Form::OkLiteral(node) => push(Frame::Ok, node, at),
        Form::ErrLiteral(node) => push(Frame::Err, node, at),
        Form::IsErr(node) => push(Frame::IsErr, node, at),
        Form::ResultUnwrap(node) => push(Frame::Unwrap, node, at),
        Form::Other => fault(1),
    }
}

// What a node below a limit comes to, once its step is charged.
pub fn entered(image: ImageRef, node: u16, limit: u32) -> State
    ensures enters { Enters (found image.entry) (tree_under (found image.entry) limit node) result }
    ensures enters_room { EntersRoom (found image.entry) (tree_under (found image.entry) limit node) result }
{
    if limit <= u32::from(node) {
        return fault(1);
    }
    entered_form(image.form(node), node)
}
