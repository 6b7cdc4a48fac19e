// What a frame does with the value that it waited for.
ghost use Rattle.std.specs.Prelude.{◌≡◌, List, ℕ};
ghost use Rattle.rl_spec.specs.Image.{Image};
ghost use Rattle.rl_spec.specs.Folded.{folded_of};
ghost use Rattle.rl_spec.specs.Run.{operand};
ghost use Rattle.rl_spec.specs.Runner.{value_of};
ghost use Rattle.rl_records.specs.Found.{found_with};
ghost use Rattle.rl_machine.specs.Machine.{Room, Resumes, ResumesRoom};

use crate::types::{Flow, Frame, State};
use crate::{fault, folded, truth};
use rl_fold::{binary_folded, unary_folded};
use rl_records::ImageRef;
use rl_spec::{ConstVal, Outcome, Plain, Value};

// What an operator works on.
fn operand(v: Value) -> Option<ConstVal>
    ensures { folded_of result ≡ operand (value_of v) }
{
    match v {
        Value::Plain(Plain::Const(w)) => Some(w),
        _ => None,
    }
}

fn ok_of(v: Value) -> State
    ensures resumes { (im : Image) → Resumes im Frame.Ok (value_of v) result }
    ensures room { (im : Image) (bound t : ℕ) → Room im bound t result }
{
    match v {
        Value::Plain(p) => State::Give(Value::Ok(p)),
        _ => fault(2),
    }
}

fn err_of(v: Value) -> State
    ensures resumes { (im : Image) → Resumes im Frame.Err (value_of v) result }
    ensures room { (im : Image) (bound t : ℕ) → Room im bound t result }
{
    match v {
        Value::Plain(p) => State::Give(Value::Err(p)),
        _ => fault(2),
    }
}

fn is_err(v: Value) -> State
    ensures resumes { (im : Image) → Resumes im Frame.IsErr (value_of v) result }
    ensures room { (im : Image) (bound t : ℕ) → Room im bound t result }
{
    match v {
        Value::Plain(_) => fault(2),
        Value::Ok(_) => truth(false),
        Value::Err(_) => truth(true),
    }
}

fn unwrap(v: Value) -> State
    ensures resumes { (im : Image) → Resumes im Frame.Unwrap (value_of v) result }
    ensures room { (im : Image) (bound t : ℕ) → Room im bound t result }
{
    match v {
        Value::Plain(_) => fault(2),
        Value::Ok(p) => State::Give(Value::Plain(p)),
        Value::Err(p) => State::Ends(Flow::Over(Outcome::Stopped(p))),
    }
}

// A condition that is no Bool is fault 2.
fn tested(v: Value) -> State
    ensures resumes { (im : Image) → Resumes im Frame.Test (value_of v) result }
    ensures room { (im : Image) (bound t : ℕ) → Room im bound t result }
{
    let Some(ConstVal::Bool(b)) = operand(v) else {
        return fault(2);
    };
    State::Tested(b)
}

pub fn resumed(image: ImageRef, frame: Frame, v: Value) -> State
    ensures by_index { (p : List ℕ) → Resumes (found_with image.entry p) frame (value_of v) result }
    ensures resumes_room { (im : Image) → ResumesRoom im frame result }
{
    match frame {
        Frame::Test => tested(v),
        Frame::Declare(name) => State::Bind { name, value: v },
        Frame::Discard => State::Next,
        Frame::Return => State::Ends(Flow::Over(Outcome::Returned(v))),
        Frame::Left {
            operator,
            right,
            limit,
        } => State::Push {
            frame: Frame::Right { operator, left: v },
            node: right,
            limit: u32::from(limit),
        },
        Frame::Right { operator, left } => folded(binary_folded(
            image,
            operator,
            operand(left),
            operand(v),
        )),
        Frame::Unary(operator) => folded(unary_folded(operator, operand(v))),
        Frame::Assign(name) => State::Store { name, value: v },
        Frame::Ok => ok_of(v),
        Frame::Err => err_of(v),
        Frame::IsErr => is_err(v),
        Frame::Unwrap => unwrap(v),
    }
}
