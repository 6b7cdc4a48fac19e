// Copies an expression and all below it: rl-resolver's deep_clone_expr. Each field is copied by its sort; a shared record is copied as often as it
// is met, until a limit would be passed.
ghost use Rattle.std.specs.Prelude.{◌≡◌, ◌+◌, ◌<◌, ◌≤◌};
ghost use Rattle.rl_spec.specs.Image.{size_of, field_in, WellFormed};
ghost use Rattle.rl_spec.specs.Schema.{sort_of};
ghost use Rattle.rl_encode.specs.Words.{word_field};
ghost use Rattle.rl_spec.specs.declared.Section.TheVariants.{Lists};
ghost use Rattle.rl_spec.specs.Lower.{is_node};
ghost use Rattle.rl_records.specs.Found.{found};
ghost use Rattle.rl_schema.specs.Codes.{table};
ghost use Rattle.rl_context.specs.Does.{at};
ghost use Rattle.rl_context.specs.Copies.{plan_of, Fitting, Copies, CopiesField, CopiesEntry, CopiesEntries};

use crate::nodes::list_word;
use crate::{Ctx, Kind, Made};
use rl_arena::{expression_start, is_pair, kind_at, number_at};
use rl_bytes::{put, second_u16, u16_at};
use rl_records::ImageRef;
use rl_schema::{row_of, sort_of, width_of};
use rl_spec::{Interval, Sort, Target};

// The kinds of expression that are not copied.
const LAMBDA: u8 = 56;

const RESOLVED_LAMBDA: u8 = 57;

// What is done with a field.
#[derive(Clone, Copy)]
enum Plan {
    Keep,
    Node,
    // the entries are by turns a left and a right
    List { left: Target, right: Target },
}

fn is_node(target: Target) -> bool
    ensures { result ≡ is_node target }
{
    matches!(target, Target::Expression)
}

fn plan_of(sort: Sort) -> Plan
    ensures { result ≡ plan_of sort }
{
    match sort {
        Sort::One { target } if is_node(target) => Plan::Node,
        Sort::Many { left, right, .. } if is_node(left) || is_node(right) => {
            Plan::List { left, right }
        }
        _ => Plan::Keep,
    }
}

// The field as it is.
pub fn word_of(image: &[u8], code: u8, place: usize) -> u64
    ensures { word_field (sort_of code) result ≡ field_in image.now (sort_of code) place }
{
    let sort = sort_of(code);
    if is_pair(sort) {
        return (u16_at(image, place) as u64) + (second_u16(image, place) as u64) * 65536;
    }
    number_at(image, place, width_of(sort) as u8)
}

#[cycle(clone_entries_clone_entry_clone_field_deep_clone_expr)]
pub fn deep_clone_expr(
    image: ImageRef,
    rows: &[u64],
    id: u16,
    scratch: &mut [u8],
    waiting: &mut [u16],
    ctx: Ctx,
) -> Made<u16>
    ensures { rows.now ≡ table → id < image.entry.counts.expressions → Copies (found image.entry) id (at ctx scratch.old waiting.old) result.made (at result.ctx scratch.new waiting.new) }
{
    if ctx.full {
        return Made { ctx, made: 0 };
    }
    let start = expression_start(image.starts, id);
    let kind = kind_at(image.bytes, start);
    if kind == LAMBDA || kind == RESOLVED_LAMBDA {
        return Made { ctx, made: id };
    }
    let row = row_of(rows, kind);
    let mut ctx = ctx;
    let mut words = [0u64; 8];
    let mut rest = row;
    let mut place = (start as usize) + 1;
    let mut j = 0;
    while rest != 0 {
        let code = (rest % 256) as u8;
        let field = clone_field(image, rows, id, code, place, scratch, waiting, ctx);
        ctx = field.ctx;
        put(&mut words, j, field.made);
        place += width_of(sort_of(code));
        rest /= 256;
        j += 1;
    }
    ctx.new_expression(scratch, Kind { number: kind, row }, &words)
}

// A field of the expression `id`: a node and the entries of a list that has nodes are copied.
#[cycle(clone_entries_clone_entry_clone_field_deep_clone_expr)]
fn clone_field(
    image: ImageRef,
    rows: &[u64],
    id: u16,
    code: u8,
    place: usize,
    scratch: &mut [u8],
    waiting: &mut [u16],
    ctx: Ctx,
) -> Made<u64>
    ensures { rows.now ≡ table → id < image.entry.counts.expressions → Fitting (found image.entry) image.entry.bytes.now id code place → CopiesField (found image.entry) image.entry.bytes.now id code place (at ctx scratch.old waiting.old) result.made (at result.ctx scratch.new waiting.new) }
{
    match plan_of(sort_of(code)) {
        Plan::Keep => Made {
            ctx,
            made: word_of(image.bytes, code, place),
        },
        Plan::Node => {
            let child = u16_at(image.bytes, place);
            // No accepted image has a node that is not before the one at hand.
            if id <= child {
                return Made {
                    ctx,
                    made: child as u64,
                };
            }
            let copy = deep_clone_expr(image, rows, child, scratch, waiting, ctx);
            Made {
                ctx: copy.ctx,
                made: copy.made as u64,
            }
        }
        Plan::List { left, right } => {
            let first = ctx.waiting;
            let list = Interval {
                first: u16_at(image.bytes, place),
                count: second_u16(image.bytes, place),
            };
            let entries = clone_entries(image, rows, id, list, left, right, scratch, waiting, ctx);
            let copy = entries.new_list(scratch, waiting, first);
            Made {
                ctx: copy.ctx,
                made: list_word(copy.made),
            }
        }
    }
}

// The entries of a list of the expression `id`, by turns a left and a right.
#[cycle(clone_entries_clone_entry_clone_field_deep_clone_expr)]
fn clone_entries(
    image: ImageRef,
    rows: &[u64],
    id: u16,
    list: Interval,
    left: Target,
    right: Target,
    scratch: &mut [u8],
    waiting: &mut [u16],
    ctx: Ctx,
) -> Ctx
    ensures { rows.now ≡ table → id < image.entry.counts.expressions → (WellFormed (found image.entry) → list.first + list.count ≤ size_of (found image.entry) Lists) → CopiesEntries (found image.entry) id list.first list.count left right (at ctx scratch.old waiting.old) (at result scratch.new waiting.new) }
{
    let mut ctx = ctx;
    let mut here = left;
    let mut other = right;
    for i in 0..list.count {
        let n = image.entry((list.first as u32) + (i as u32));
        ctx = clone_entry(image, rows, id, here, n, scratch, waiting, ctx);
        (here, other) = (other, here);
    }
    ctx
}

// An entry of a list of the expression `id`: a node before it is copied, anything else is kept.
#[cycle(clone_entries_clone_entry_clone_field_deep_clone_expr)]
fn clone_entry(
    image: ImageRef,
    rows: &[u64],
    id: u16,
    target: Target,
    n: u16,
    scratch: &mut [u8],
    waiting: &mut [u16],
    ctx: Ctx,
) -> Ctx
    ensures { rows.now ≡ table → id < image.entry.counts.expressions → CopiesEntry (found image.entry) id target n (at ctx scratch.old waiting.old) (at result scratch.new waiting.new) }
{
    if is_node(target) && n < id {
        let copy = deep_clone_expr(image, rows, n, scratch, waiting, ctx);
        copy.ctx.push(waiting, copy.made)
    } else {
        ctx.push(waiting, n)
    }
}
