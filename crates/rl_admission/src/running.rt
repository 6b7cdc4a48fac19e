// Whether a function of an accepted image runs on these values and this budget.
ghost use Rattle.std.specs.Prelude.{◌≡◌, List, ℕ};
ghost use Rattle.rl_spec.specs.Runner.{plain_has, value_has, given, all_have};
ghost use Rattle.rl_records.specs.Found.{found_with};
ghost use Rattle.rl_admission.specs.Running.{run_admission};

use rl_records::ImageRef;
use rl_spec::{Arguments, Cause, ConstVal, Counts, Plain, Value};

fn plain_has(counts: Counts, p: Plain) -> bool
    ensures { result ≡ plain_has counts p }
{
    match p {
        Plain::Const(ConstVal::Str(t)) => t < counts.texts,
        _ => true,
    }
}

// Whether the text of a value is one of the image's.
fn value_has(counts: Counts, v: Value) -> bool
    ensures { result ≡ value_has counts v }
{
    match v {
        Value::Plain(p) | Value::Ok(p) | Value::Err(p) => plain_has(counts, p),
    }
}

// The same of all values that are given.
#[tactic(auto, unfolding(rl_spec::specs::Runner::all_have))]
fn all_have(counts: Counts, arguments: Arguments) -> bool
    ensures { result ≡ all_have counts (given arguments) }
{
    let values = &arguments.values;
    for argument in &values[..(arguments.count as usize).min(values.len())] {
        if !value_has(counts, argument.value) {
            return false;
        }
    }
    true
}

// The checks in the table's order.
#[tactic(auto, unfolding(crate::specs::Running::run_admission))]
pub fn admit_run(
    image: ImageRef,
    function: u32,
    arguments: Arguments,
    budget: u32,
) -> Result<(), Cause>
    ensures { (p : List ℕ) → result ≡ run_admission (found_with image.entry p) image.entry.counts function arguments budget }
{
    let counts = image.counts;
    if counts.functions as u32 <= function {
        return Err(Cause::NoSuchFunction);
    }
    let params = image.function(function as u16).params;
    if arguments.count != params.count as u32 || 16 < arguments.count {
        return Err(Cause::WrongValues);
    }
    if !all_have(counts, arguments) {
        return Err(Cause::NoSuchText);
    }
    if 1000000 < budget {
        return Err(Cause::BudgetOverLimit);
    }
    Ok(())
}
