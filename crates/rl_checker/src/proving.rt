// Proving a call, and all calls.
ghost use Rattle.std.specs.Prelude.{◌≡◌, ◌≤◌, ◌+◌, length};
ghost use Rattle.rl_spec.specs.Fold.{work_unless};
ghost use Rattle.rl_spec.specs.Prove.{prove_of, reports_of, prove_all_of, all_reports_of, prove_number};
ghost use Rattle.rl_records.specs.Found.{found};
ghost use Rattle.rl_prover.specs.Reports.{kept_at};
ghost use Rattle.rl_checker.specs.Entries.{ProvesEach, ProvesCalls, fitting_at};

use rl_ast::read_starts;
use rl_classes::text_classes;
use rl_prover::{memory_size, prove_call};
use rl_records::ImageRef;
use rl_spec::{Accepted, Cause, Refusal};

// The reports of the calls from the first to before the end, in order, at the slice's start. Answers the place after them.
fn prove_each(
    image: ImageRef,
    classes: &[u16],
    first: u16,
    end: u16,
    names: &mut [u64],
    memory: &mut [u64],
    reports: &mut [u32],
) -> usize
    requires order { first ≤ end }
    requires few { end ≤ first + 256 }
    ensures proves_each { ProvesEach (found image.entry) classes.now first end names.old reports.old reports.new result }
    ensures upper_bound { result ≤ 134215680 }
{
    let mut at = 0;
    for call in first..end {
        at = prove_call(image, classes, call, names, memory, reports, at);
    }
    at
}

// The same with classes and scratch of its own.
#[tactic(auto, using(crate::proofs::ProveLaws::calls_prove))]
fn prove_calls(image: ImageRef, first: u16, end: u16, reports: &mut [u32]) -> usize
    requires order { first ≤ end }
    requires few { end ≤ first + 256 }
    ensures proves_calls { ProvesCalls (found image.entry) image.entry.counts first end reports.old reports.new result }
    ensures upper_bound { result ≤ 134215680 }
{
    let mut links = [0u64; 2048];
    let mut classes = [0u16; 2048];
    let mut names = [0u64; 768];
    let mut memory = [0u64; 8192];
    text_classes(image, &mut links, &mut classes);
    let size = memory_size(image.counts);
    prove_each(
        image,
        &classes,
        first,
        end,
        &mut names,
        &mut memory[..size],
        reports,
    )
}

// Answers for entries up to a place, or refuses a slice that is too short for them; then both slices are cleared.
#[tactic(auto, unfolding(crate::specs::Entries::fitting_at, rl_prover::specs::Reports::kept_at))]
fn fitted(work: &mut [u16], reports: &mut [u32], at: usize) -> Result<u32, Refusal>
    requires { at ≤ 134215680 }
    ensures value { result ≡ fitting_at (length reports.old) at }
    ensures reports_after { reports.new ≡ kept_at (length reports.old) at reports.old }
    ensures work_after { work.new ≡ kept_at (length reports.old) at work.old }
{
    if reports.len() < at {
        reports.fill(0);
        work.fill(0);
        return Err(Cause::ReportsTooShort.into());
    }
    Ok((at / 4) as u32)
}

// Reads an image and proves one of its calls. 17 for a call that is not there, 18 for a slice under four entries a report.
pub fn prove(image: &[u8], work: &mut [u16], call: u32, reports: &mut [u32]) -> Result<u32, Refusal>
    ensures value { result ≡ prove_of image.now (length work.old) call (length reports.old) }
    ensures reports_after { reports.new ≡ reports_of image.now (length work.old) call (length reports.old) }
    ensures work_after { work.new ≡ work_unless (prove_number (prove_of image.now (length work.old) call (length reports.old))) image.now (length work.old) }
{
    let mut starts = [0u16; 6144];
    reports.fill(0);
    let Accepted { arena: _, counts } = read_starts(image, work, &mut starts)?;
    if counts.calls as u32 <= call {
        work.fill(0);
        return Err(Cause::NoSuchCall.into());
    }
    let image = ImageRef {
        bytes: image,
        starts: &starts,
        counts,
    };
    let call = call as u16;
    let at = prove_calls(image, call, call + 1, reports);
    fitted(work, reports, at)
}

// Reads an image and proves all its calls, in order. 18 for a slice under four entries a report.
pub fn prove_all(image: &[u8], work: &mut [u16], reports: &mut [u32]) -> Result<u32, Refusal>
    ensures value { result ≡ prove_all_of image.now (length work.old) (length reports.old) }
    ensures reports_after { reports.new ≡ all_reports_of image.now (length work.old) (length reports.old) }
    ensures work_after { work.new ≡ work_unless (prove_number (prove_all_of image.now (length work.old) (length reports.old))) image.now (length work.old) }
{
    let mut starts = [0u16; 6144];
    reports.fill(0);
    let Accepted { arena: _, counts } = read_starts(image, work, &mut starts)?;
    let image = ImageRef {
        bytes: image,
        starts: &starts,
        counts,
    };
    // an accepted image has at most 256 calls
    let at = prove_calls(image, 0, counts.calls.min(256), reports);
    fitted(work, reports, at)
}
