// The machine that runs a list of statements, without its bindings: what a statement begins with, what a node asks for, and what a
// frame does with the value that it waited for.
#![tactic(auto)]

mod begin;
mod enter;
mod resume;
mod types;

ghost use Rattle.std.specs.Prelude.{◌≡◌, ℕ};
ghost use Rattle.rl_spec.specs.Image.{Image};
ghost use Rattle.rl_spec.specs.Folded.{folded_of};
ghost use Rattle.rl_spec.specs.Run.{and_then, or_fault, folds};
ghost use Rattle.rl_machine.specs.Machine.{Means, Room};

pub use begin::{begun, condition_first, followed};
pub use enter::entered;
pub use resume::resumed;
use rl_spec::{ConstVal, Outcome, Plain, Value};
pub use types::{Flow, Frame, State};

fn fault(number: u8) -> State
    ensures { result ≡ State.Ends (Flow.Over (Outcome.Fault number)) }
{
    State::Ends(Flow::Over(Outcome::Fault(number)))
}

// A folded value; fault 4 where there is none.
fn folded(v: Option<ConstVal>) -> State
    ensures means { (im : Image) → Means im result (λ base rest k env n. and_then (or_fault 4 (folded_of v) env n) (λ w. k (folds w))) }
    ensures room { (im : Image) (bound t : ℕ) → Room im bound t result }
{
    match v {
        Some(w) => State::Give(Value::Plain(Plain::Const(w))),
        None => fault(4),
    }
}

fn truth(b: bool) -> State
    ensures { result ≡ State.Give (Value.Plain (Plain.Const (ConstVal.Bool b))) }
{
    State::Give(Value::Plain(Plain::Const(ConstVal::Bool(b))))
}
