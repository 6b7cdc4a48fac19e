// A call's reports.
ghost use Rattle.std.specs.Prelude.{◌<◌, ◌≤◌, ◌+◌};
ghost use Rattle.rl_records.specs.Found.{found};
ghost use Rattle.rl_prover.specs.Calls.{ProvesCallee, ProvesCall};

use crate::bindings::bind_arguments;
use crate::callee::find_callee;
use crate::reports::Site;
use crate::violations::{report_refinements, report_requires};
use rl_names::Names;
use rl_records::ImageRef;
use rl_spec::{Counts, Interval};

// How long the memory has to be for an image: two words an expression are enough to remember what is folded.
pub fn memory_size(counts: Counts) -> usize
    ensures { result ≤ 8192 }
{
    (counts.expressions as usize * 2).min(8192)
}

// The reports of a call by its callee f.
fn prove_callee(
    image: ImageRef,
    classes: &[u16],
    f: u16,
    args: Interval,
    site: Site,
    names: &mut [u64],
    memory: &mut [u64],
    reports: &mut [u32],
    start: usize,
) -> usize
    requires { start < 1125899906842624 }
    ensures proves_callee { ProvesCallee (found image.entry) classes.now f args site.call site.span names.old reports.old start reports.new result }
    ensures upper_bound { result ≤ start + 524280 }
{
    let function = image.function(f);
    let params = function.params;
    memory.fill(0);
    let count = bind_arguments(image, classes, params, args, names, memory);
    let names = Names {
        classes,
        words: names,
        count,
    };
    let at = report_refinements(image, names, memory, params, args, site, reports, start);
    report_requires(image, names, memory, function.required, site, reports, at)
}

// Writes the reports of a call behind those that are there. Answers the place after them. The promise is about classes of the
// image's texts and names with room for all parameters. `names` and `memory` are scratch: what they hold then is left open.
pub fn prove_call(
    image: ImageRef,
    classes: &[u16],
    call: u16,
    names: &mut [u64],
    memory: &mut [u64],
    reports: &mut [u32],
    start: usize,
) -> usize
    ensures proves_call { ProvesCall (found image.entry) classes.now call names.old reports.old start reports.new result }
    ensures upper_bound { result ≤ start + 524280 }
{
    if 1125899906842624 <= start {
        return start;
    }
    let record = image.call(call);
    let Some(f) = find_callee(image, classes, record.callee) else {
        return start;
    };
    let site = Site {
        call: call as u32,
        span: record.span,
    };
    prove_callee(
        image,
        classes,
        f,
        record.args,
        site,
        names,
        memory,
        reports,
        start,
    )
}
