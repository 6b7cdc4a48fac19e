// Reading, the checks, the run.
ghost use Rattle.std.specs.Prelude.{◌≡◌, ◌<◌, ◌≤◌, length, Ok, ℕ};
ghost use Rattle.rl_spec.specs.Fold.{work_unless};
ghost use Rattle.rl_spec.specs.Image.{entry_of};
ghost use Rattle.rl_spec.specs.Records.{function_at};
ghost use Rattle.rl_spec.specs.Runner.{given, ran_in, run_of, run_number};
ghost use Rattle.rl_records.specs.Found.{found};
ghost use Rattle.rl_machine.specs.Machine.{Low};
ghost use Rattle.rl_runner.specs.Ends.{outcome_after};

use crate::bound::bind_all;
use rl_admission::admit_run;
use rl_ast::read_starts;
use rl_classes::text_classes;
use rl_machine::Flow;
use rl_records::ImageRef;
use rl_spec::{Arguments, Outcome, Plain, Refusal, Run, Value};
use rl_statements::{Block, Source, list};

// How a run ends whose body ended so: the end gives Null, a Break or a Continue outside a loop is fault 1.
fn outcome_after(flow: Flow) -> Outcome
    ensures { result ≡ outcome_after flow }
{
    match flow {
        Flow::Onward => Outcome::Returned(Value::Plain(Plain::Null)),
        Flow::Breaks | Flow::Continues | Flow::Skipped => Outcome::Fault(1),
        Flow::Over(o) => o,
    }
}

// Runs a function of an accepted image.
fn run_function(image: ImageRef, function: u16, arguments: Arguments, budget: u32) -> Run
    requires low { Low (found image) }
    requires narrow { (k : ℕ) → entry_of (found image) k < 65536 }
    requires texts_bound { image.counts.texts ≤ 2048 }
    requires count_bound { arguments.count ≤ 16 }
    requires count_value { arguments.count ≡ (function_at (found image) function).params.count }
    ensures { Ok result ≡ ran_in (found image.entry) function (given arguments) budget }
{
    let mut links = [0; 2048];
    let mut classes = [0; 2048];
    text_classes(image, &mut links, &mut classes);
    let f = image.function(function);
    let source = Source {
        image,
        classes: &classes,
    };
    let block = Block {
        bound: 65536,
        outermost: true,
        looping: false,
        condition: None,
        body: f.body,
    };
    let ran = list(source, block, bind_all(image, f.params, arguments), budget);
    Run {
        outcome: outcome_after(ran.flow),
        steps: budget - ran.left,
    }
}

// Reads an image and runs one of its functions on values, within a budget. 11 for a function that is not there, 19 where there are
// not as many values as parameters or more than sixteen, 20 for a text that is not there, 21 for a budget over 1,000,000.
pub fn run(
    image: &[u8],
    work: &mut [u16],
    function: u32,
    arguments: Arguments,
    budget: u32,
) -> Result<Run, Refusal>
    ensures value { result ≡ run_of image.now (length work.old) function arguments budget }
    ensures work_after { work.new ≡ work_unless (run_number (run_of image.now (length work.old) function arguments budget)) image.now (length work.old) }
{
    let mut starts = [0; 6144];
    let accepted = read_starts(image, work, &mut starts)?;
    let image = ImageRef {
        bytes: image,
        starts: &starts,
        counts: accepted.counts,
    };
    if let Err(cause) = admit_run(image, function, arguments, budget) {
        work.fill(0);
        return Err(cause.into());
    }
    Ok(run_function(image, function as u16, arguments, budget))
}
