// Reading, the checks, the lowered image.
ghost use Rattle.std.specs.Prelude.{◌≡◌, List, ℕ, ◌<◌, ◌≤◌, length};
ghost use Rattle.rl_spec.specs.Fold.{work_unless};
ghost use Rattle.rl_spec.specs.Records.{function_at};
ghost use Rattle.rl_spec.specs.Lower.{has_contracts, new_body, start, lowered};
ghost use Rattle.rl_spec.specs.Lowerer.{lower_of, lower_answer, lower_number, lower_out};
ghost use Rattle.rl_records.specs.Found.{found, found_with};
ghost use Rattle.rl_resolver.specs.Begun as specs;
ghost use Rattle.rl_resolver.specs.Lowered.{source_of, Finished, Lowered, lowering_in};
ghost use Rattle.rl_assemble.specs.Written.{Written};

use rl_admission::admit_lowering;
use rl_assemble::{Sources, assemble};
use rl_ast::read_starts;
use rl_bodies::new_body;
use rl_context::{Ctx, Made};
use rl_prover::any_refined;
use rl_records::ImageRef;
use rl_schema::schema_table;
use rl_spec::{Cause, Refusal};
use rl_text_out::put_text;

// Requires, ensures, or a refined parameter.
fn has_contracts(image: ImageRef, function: u16) -> bool
    ensures { (p : List ℕ) → result ≡ has_contracts (found_with image.entry p) function }
{
    let f = image.function(function);
    if f.required.count != 0 || f.ensured.count != 0 {
        return true;
    }
    any_refined(image, f.params)
}

// The context that lowering begins with.
fn begun(image: ImageRef, function: u16) -> Ctx
    ensures { (p : List ℕ) → result ≡ specs.begun image.entry.counts (function_at (found_with image.entry p) function) }
{
    let f = image.function(function);
    let counts = image.counts;
    Ctx {
        bytes: counts.bytes as u32,
        texts: counts.texts as u32,
        lists: counts.lists as u32,
        expressions: counts.expressions as u32,
        statements: counts.statements as u32,
        expression_bytes: 0,
        statement_bytes: 0,
        waiting: 0,
        span: f.span,
        is_result: f.result,
        temp_counter: 0,
        full: false,
    }
}

// The image with the function's new body; none where a limit would be passed, and then nothing is put.
fn put_finished(image: ImageRef, function: u16, out: &mut [u8]) -> Option<usize>
    requires source { source_of image }
    requires function_lt_functions { function < image.counts.functions }
    requires in_bounds { 65535 ≤ length out.old }
    ensures { Finished (found image.entry) function out.old result out.new }
{
    let mut scratch = [0u8; 186496];
    let mut waiting = [0u16; 4096];
    let mut text = [0u8; 16385];
    let rows = schema_table();
    let start = begun(image, function);
    let Made { ctx, made: list } = new_body(
        image,
        &rows,
        function,
        &mut text,
        &mut scratch,
        &mut waiting,
        start,
    );
    if ctx.full {
        return None;
    }
    let sources = Sources {
        image,
        ctx,
        scratch: &scratch,
    };
    assemble(sources, function, list, out)
}

// The lowered image's bytes, and their number; none where a limit would be passed, and then nothing is put.
fn put_lowered(image: ImageRef, function: u16, out: &mut [u8]) -> Option<usize>
    requires source { source_of image }
    requires function_lt_functions { function < image.counts.functions }
    requires in_bounds { 65535 ≤ length out.old }
    ensures { Written (lowered (found image.entry) function) out.old result out.new }
{
    if has_contracts(image, function) {
        return put_finished(image, function, out);
    }
    Some(put_text(out, 0, image.bytes))
}

// The checks and the lowered image, once the image is read; `work` has its heights.
fn lower_read(image: ImageRef, work: &[u16], function: u32, out: &mut [u8]) -> Result<u32, Refusal>
    requires { source_of image }
    ensures { Lowered (lowering_in work.now image.entry.counts function (length out.old) (found image.entry)) out.old result out.new }
{
    admit_lowering(work, image.counts, function, out.len())?;
    let n = put_lowered(image, function as u16, out).ok_or(Cause::LimitPassed)?;
    Ok(n as u32)
}

// Lowers a function's contracts into plain guards: the image's bytes with this function's body replaced. 11 for a function that is not
// there, 12 for an expression over 64 or a statement over 32 anywhere, 13 for an output of under 65,535 bytes, 14 where a limit of the
// format would be passed.
pub fn lower(image: &[u8], work: &mut [u16], function: u32, out: &mut [u8]) -> Result<u32, Refusal>
    ensures value { result ≡ lower_answer (lower_of image.now (length work.old) function (length out.old)) }
    ensures out_after { out.new ≡ lower_out (length out.old) (lower_of image.now (length work.old) function (length out.old)) }
    ensures work_after { work.new ≡ work_unless (lower_number (lower_of image.now (length work.old) function (length out.old))) image.now (length work.old) }
{
    out.fill(0);
    let mut starts = [0u16; 6144];
    let read = read_starts(image, work, &mut starts)?;
    let image = ImageRef {
        bytes: image,
        starts: &starts,
        counts: read.counts,
    };
    match lower_read(image, work, function, out) {
        Ok(n) => Ok(n),
        Err(refusal) => {
            work.fill(0);
            Err(refusal)
        }
    }
}
