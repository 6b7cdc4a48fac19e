// The new body of a function.
ghost use Rattle.std.specs.Prelude.{◌≡◌, List, ℕ, ◌≤◌, ◌<◌, length};
ghost use Rattle.rl_spec.specs.Image.{Image, pair, WellFormed};
ghost use Rattle.rl_records.specs.Found.{found, found_with};
ghost use Rattle.rl_spec.specs.Lower.{ensured_body, new_body};
ghost use Rattle.rl_schema.specs.Codes.{table};
ghost use Rattle.rl_context.specs.Does.{Does, nothing, at};
ghost use Rattle.rl_context.specs.Guards.{Gathers, clauses_in};
ghost use Rattle.rl_transform.specs.Transforms.{ready};
ghost use Rattle.rl_bodies.specs.Bodies.{Fresh, refined_in, desugared_in, entries_in, Waits, body_fits, bare_value, rest_in};

use rl_arena::{kind_at, statement_start};
use rl_bytes::u16_at;
use rl_context::{Ctx, Made};
use rl_records::ImageRef;
use rl_spec::Interval;
use rl_transform::{Walk, transform_returns};

// A statement that is an expression alone.
const EXPRESSION: u8 = 65;

// The guards of the function's refined parameters; they wait then.
fn refinement_guards(
    image: ImageRef,
    function: u16,
    text: &mut [u8],
    scratch: &mut [u8],
    waiting: &mut [u16],
    ctx: Ctx,
) -> Ctx
    ensures { (im : Image) (p : List ℕ) → 16385 ≤ length text.old → im ≡ found_with image.entry p → Gathers im 0 (refined_in im function) (at ctx scratch.old waiting.old) (at result scratch.new waiting.new) }
{
    let params = image.function(function).params;
    let mut ctx = ctx;
    for i in 0..params.count {
        ctx = ctx.refinement_guard(image, scratch, waiting, text, function, i);
    }
    ctx
}

// A list's entries, as they are; they wait then.
fn push_entries(image: ImageRef, list: Interval, waiting: &mut [u16], ctx: Ctx) -> Ctx
    ensures { (im : Image) (p s : List ℕ) → Waits im (entries_in (found_with image.entry p) list) (at ctx s waiting.old) (at result s waiting.new) }
{
    let mut ctx = ctx;
    for i in 0..list.count {
        let n = image.entry((list.first as u32) + (i as u32));
        ctx = ctx.push(waiting, n);
    }
    ctx
}

// Numbers, as they are; they wait then.
fn push_all(numbers: &[u16], waiting: &mut [u16], ctx: Ctx) -> Ctx
    ensures { (im : Image) (s : List ℕ) → Waits im numbers.now (at ctx s waiting.old) (at result s waiting.new) }
{
    let mut ctx = ctx;
    for n in numbers {
        ctx = ctx.push(waiting, *n);
    }
    ctx
}

// The value of a body's last statement, where that is a bare expression.
fn last_bare(image: ImageRef, body: Interval) -> Option<u16>
    ensures { body_fits image.entry body → result ≡ bare_value (found image.entry) (entries_in (found image.entry) body) }
{
    if body.count == 0 {
        return None;
    }
    let last = image.entry((body.first as u32) + (body.count as u32) - 1);
    let start = statement_start(image.starts, image.counts, last);
    let kind = kind_at(image.bytes, start);
    if kind != EXPRESSION {
        return None;
    }
    Some(u16_at(image.bytes, (start as usize) + 5))
}

// The body under ensures; it waits then. What stands for its statements waits aside, since a wrapped bare last expression comes ahead of them.
fn ensured_body(
    walk: Walk,
    body: Interval,
    scratch: &mut [u8],
    waiting: &mut [u16],
    ctx: Ctx,
) -> Ctx
    ensures { ready walk.entry → body_fits walk.entry.image body → Gathers (found walk.entry.image) 0 (ensured_body (clauses_in (found walk.entry.image) walk.entry.ensured) (entries_in (found walk.entry.image) body)) (at ctx scratch.old waiting.old) (at result scratch.new waiting.new) }
{
    let image = walk.image;
    let bare = last_bare(image, body);
    let mut side = [0u16; 4096];
    let aside = Ctx { waiting: 0, ..ctx };
    let done = transform_returns(
        walk,
        image.counts.statements,
        body,
        scratch,
        &mut side,
        aside,
    );
    let count = done.waiting.min(4096);
    let back = Ctx {
        waiting: ctx.waiting,
        ..done
    };
    match bare {
        Some(value) => {
            let wrapped = back.wrap_return(image, walk.rows, scratch, waiting, value, walk.ensured);
            push_all(&side[..count.saturating_sub(1) as usize], waiting, wrapped)
        }
        None => push_all(&side[..count as usize], waiting, back),
    }
}

// The body's own statements, or what stands for them; they wait then.
fn rest(walk: Walk, body: Interval, scratch: &mut [u8], waiting: &mut [u16], ctx: Ctx) -> Ctx
    ensures { ready walk.entry → body_fits walk.entry.image body → Gathers (found walk.entry.image) 0 (rest_in (found walk.entry.image) body walk.entry.ensured) (at ctx scratch.old waiting.old) (at result scratch.new waiting.new) }
{
    if walk.ensured.count == 0 {
        return push_entries(walk.image, body, waiting, ctx);
    }
    ensured_body(walk, body, scratch, waiting, ctx)
}

// The statements of the function's new body; they wait then. `text` is scratch, for the texts of refinements: what it holds then is left
// open.
fn desugar_fn_contracts(
    image: ImageRef,
    rows: &[u64],
    function: u16,
    text: &mut [u8],
    scratch: &mut [u8],
    waiting: &mut [u16],
    ctx: Ctx,
) -> Ctx
    ensures { rows.now ≡ table → function < image.entry.counts.functions → 16385 ≡ length text.old → WellFormed (found image.entry) → Fresh (found image.entry) ctx → Gathers (found image.entry) 0 (desugared_in (found image.entry) function) (at ctx scratch.old waiting.old) (at result scratch.new waiting.new) }
{
    let f = image.function(function);
    let refined = refinement_guards(image, function, text, scratch, waiting, ctx);
    let default = b"requires violated";
    let required = refined.clause_guards(image, rows, scratch, waiting, default, f.required);
    let walk = Walk {
        image,
        rows,
        ensured: f.ensured,
    };
    rest(walk, f.body, scratch, waiting, required)
}

// The new body list of a function. `text` is scratch: what it holds then is left open.
pub fn new_body(
    image: ImageRef,
    rows: &[u64],
    function: u16,
    text: &mut [u8],
    scratch: &mut [u8],
    waiting: &mut [u16],
    ctx: Ctx,
) -> Made<Interval>
    ensures { rows.now ≡ table → function < image.entry.counts.functions → 16385 ≡ length text.old → WellFormed (found image.entry) → Fresh (found image.entry) ctx → Does (found image.entry) 0 0 nothing (new_body (found image.entry) function) (at ctx scratch.old waiting.old) (pair result.made.first result.made.count) (at result.ctx scratch.new waiting.new) }
{
    let first = ctx.waiting;
    let done = desugar_fn_contracts(image, rows, function, text, scratch, waiting, ctx);
    done.new_list(scratch, waiting, first)
}
