// List, statement and branch: a cycle on falling indices. `limit` is the index of the statement at hand.
ghost use Rattle.std.specs.Prelude.{◌≡◌, ◌≤◌, ◌<◌};
ghost use Rattle.rl_spec.specs.declared.Section.TheVariants.{Statements};
ghost use Rattle.rl_spec.specs.Image.{record_of};
ghost use Rattle.rl_records.specs.Found.{found};
ghost use Rattle.rl_context.specs.Does.{at};
ghost use Rattle.rl_transform.specs.Transforms.{list_field, ready, arms_in, by, Returns, Below, OneStatement, Conditional, Branch, Match, Arms, Body};

use crate::Walk;
use crate::kinds::{BRANCH, CONDITIONAL, FOR_EACH, MATCH, RETURN, RETURN_ALONE, WHILE, list_field};
use crate::rebuild::{rebuild, rebuild_conditional};
use rl_arena::{kind_at, statement_start};
use rl_bytes::{second_u16, u16_at};
use rl_context::{Ctx, Made, list_word};
use rl_records::optional_at;
use rl_spec::Interval;

// The statements of a list, each by what stands for it; they wait then.
#[cycle(transform)]
pub fn transform_returns(
    walk: Walk,
    limit: u16,
    list: Interval,
    scratch: &mut [u8],
    waiting: &mut [u16],
    ctx: Ctx,
) -> Ctx
    ensures { ready walk.entry → limit ≤ walk.entry.image.counts.statements → by walk.entry Returns limit list.first list.count (at ctx scratch.old waiting.old) (at result scratch.new waiting.new) }
{
    let mut ctx = ctx;
    for i in 0..list.count {
        let s = walk.image.entry((list.first as u32) + (i as u32));
        ctx = transform_below(walk, limit, s, scratch, waiting, ctx);
    }
    ctx
}

// A statement before the one at hand; no accepted image has another.
#[cycle(transform)]
fn transform_below(
    walk: Walk,
    limit: u16,
    s: u16,
    scratch: &mut [u8],
    waiting: &mut [u16],
    ctx: Ctx,
) -> Ctx
    ensures { ready walk.entry → limit ≤ walk.entry.image.counts.statements → by walk.entry Below limit s (at ctx scratch.old waiting.old) (at result scratch.new waiting.new) }
{
    if limit <= s {
        return ctx.push(waiting, s);
    }
    transform_statement(walk, s, scratch, waiting, ctx)
}

// What stands for a statement; it waits then.
#[cycle(transform)]
pub fn transform_statement(
    walk: Walk,
    id: u16,
    scratch: &mut [u8],
    waiting: &mut [u16],
    ctx: Ctx,
) -> Ctx
    ensures { ready walk.entry → id < walk.entry.image.counts.statements → by walk.entry OneStatement id (at ctx scratch.old waiting.old) (at result scratch.new waiting.new) }
{
    if ctx.full {
        return ctx;
    }
    let image = walk.image;
    let start = statement_start(image.starts, image.counts, id);
    let kind = kind_at(image.bytes, start);
    match kind {
        RETURN => {
            let value = u16_at(image.bytes, (start as usize) + 5);
            ctx.wrap_return(image, walk.rows, scratch, waiting, value, walk.ensured)
        }
        RETURN_ALONE => {
            let null = ctx.null(scratch);
            let value = null.made;
            null.ctx
                .wrap_return(image, walk.rows, scratch, waiting, value, walk.ensured)
        }
        CONDITIONAL => {
            let made = transform_conditional(walk, id, scratch, waiting, ctx);
            made.ctx.push(waiting, made.made)
        }
        MATCH => {
            let made = transform_match(walk, id, scratch, waiting, ctx);
            made.ctx.push(waiting, made.made)
        }
        WHILE..=FOR_EACH => {
            let made = transform_body(walk, id, id, scratch, waiting, ctx);
            made.ctx.push(waiting, made.made)
        }
        _ => ctx.push(waiting, id),
    }
}

// A conditional: its branch, its else branch, and the record again.
#[cycle(transform)]
fn transform_conditional(
    walk: Walk,
    id: u16,
    scratch: &mut [u8],
    waiting: &mut [u16],
    ctx: Ctx,
) -> Made<u16>
    ensures { ready walk.entry → id < walk.entry.image.counts.statements → (record_of (found walk.entry.image) Statements id).kind ≡ 68 → by walk.entry Conditional id (at ctx scratch.old waiting.old) result.made (at result.ctx scratch.new waiting.new) }
{
    let image = walk.image;
    let place = statement_start(image.starts, image.counts, id) as usize;
    let first = u16_at(image.bytes, place + 5);
    let branch = transform_branch(walk, id, first, scratch, waiting, ctx);
    match optional_at(image.bytes, place + 7) {
        Some(s) => {
            let other = transform_branch(walk, id, s, scratch, waiting, branch.ctx);
            let second = Some(other.made);
            rebuild_conditional(walk, id, branch.made, second, scratch, other.ctx)
        }
        None => rebuild_conditional(walk, id, branch.made, None, scratch, branch.ctx),
    }
}

// A branch; a conditional as an else branch passes untouched.
#[cycle(transform)]
fn transform_branch(
    walk: Walk,
    limit: u16,
    s: u16,
    scratch: &mut [u8],
    waiting: &mut [u16],
    ctx: Ctx,
) -> Made<u16>
    ensures { ready walk.entry → limit ≤ walk.entry.image.counts.statements → s < walk.entry.image.counts.statements → by walk.entry Branch limit s (at ctx scratch.old waiting.old) result.made (at result.ctx scratch.new waiting.new) }
{
    let image = walk.image;
    let start = statement_start(image.starts, image.counts, s);
    let kind = kind_at(image.bytes, start);
    if kind == BRANCH {
        return transform_body(walk, limit, s, scratch, waiting, ctx);
    }
    Made { ctx, made: s }
}

// A match: its arms, their list, and the record again.
#[cycle(transform)]
fn transform_match(
    walk: Walk,
    id: u16,
    scratch: &mut [u8],
    waiting: &mut [u16],
    ctx: Ctx,
) -> Made<u16>
    ensures { ready walk.entry → id < walk.entry.image.counts.statements → (record_of (found walk.entry.image) Statements id).kind ≡ 75 → by walk.entry Match id (at ctx scratch.old waiting.old) result.made (at result.ctx scratch.new waiting.new) }
{
    let image = walk.image;
    let place = (statement_start(image.starts, image.counts, id) as usize) + 7;
    let arms = Interval {
        first: u16_at(image.bytes, place),
        count: second_u16(image.bytes, place),
    };
    let first = ctx.waiting;
    let done = transform_arms(walk, id, arms, scratch, waiting, ctx);
    let list = done.new_list(scratch, waiting, first);
    let word = list_word(list.made);
    rebuild(walk, id, 2, word, 7, 0, scratch, list.ctx)
}

// The arms of a list; they wait then.
#[cycle(transform)]
fn transform_arms(
    walk: Walk,
    limit: u16,
    list: Interval,
    scratch: &mut [u8],
    waiting: &mut [u16],
    ctx: Ctx,
) -> Ctx
    ensures { ready walk.entry → limit ≤ walk.entry.image.counts.statements → arms_in walk.entry list → by walk.entry Arms limit list.first list.count (at ctx scratch.old waiting.old) (at result scratch.new waiting.new) }
{
    let mut ctx = ctx;
    for i in 0..list.count {
        let s = walk.image.entry((list.first as u32) + (i as u32));
        let made = transform_body(walk, limit, s, scratch, waiting, ctx);
        ctx = made.ctx.push(waiting, made.made);
    }
    ctx
}

// A record with a list of statements: the list transformed, and the record again; needs_scope of a branch is false.
#[cycle(transform)]
fn transform_body(
    walk: Walk,
    limit: u16,
    s: u16,
    scratch: &mut [u8],
    waiting: &mut [u16],
    ctx: Ctx,
) -> Made<u16>
    ensures { ready walk.entry → limit ≤ walk.entry.image.counts.statements → s < walk.entry.image.counts.statements → (list_field (record_of (found walk.entry.image) Statements s).kind ≡ 0 → ⊥) → by walk.entry Body limit s (at ctx scratch.old waiting.old) result.made (at result.ctx scratch.new waiting.new) }
{
    let image = walk.image;
    let start = statement_start(image.starts, image.counts, s);
    let field = list_field(kind_at(image.bytes, start));
    let place = (start as usize) + field.place;
    let body = Interval {
        first: u16_at(image.bytes, place),
        count: second_u16(image.bytes, place),
    };
    let first = ctx.waiting;
    let done = transform_returns(walk, limit, body, scratch, waiting, ctx);
    let list = done.new_list(scratch, waiting, first);
    let word = list_word(list.made);
    rebuild(
        walk,
        s,
        field.number,
        word,
        field.flag,
        0,
        scratch,
        list.ctx,
    )
}
