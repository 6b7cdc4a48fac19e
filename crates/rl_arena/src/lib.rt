// Looks into an image that the reader has accepted. Every function answers for every argument: what is not there reads as 0.
#![tactic(auto)]

ghost use Rattle.std.specs.Prelude.{◌≡◌, ◌+◌, get_or};
ghost use Rattle.rl_spec.specs.Bytes.{u32_at};
ghost use Rattle.rl_spec.specs.Schema.{sort_of};
ghost use Rattle.rl_spec.specs.Image.{no_field, first, second, is_pair, field_in, fields_at, record_in};
ghost use Rattle.rl_schema.specs.Codes.{codes};
ghost use Rattle.rl_arena.specs.Find.{number_in, spot_of, lookup};

use rl_bytes::{get_or, second_u16, u16_at, u32_at, u64_at};
pub use rl_schema::entry_at;
use rl_schema::{sort_of, width_of};
use rl_spec::{ArenaNo, Cause, Counts, Id, Sort};

// ---- where records start

pub fn expression_start(starts: &[u16], n: u16) -> u16
    ensures { result ≡ get_or starts.now n 0 }
{
    get_or(starts, n as usize, 0)
}

// The starts of the statements follow those of the expressions.
pub fn statement_start(starts: &[u16], counts: Counts, n: u16) -> u16
    ensures { result ≡ get_or starts.now (counts.expressions + n) 0 }
{
    let first = counts.expressions as usize;
    get_or(starts, first + (n as usize), 0)
}

// ---- what stands in a record

#[tactic(auto, unfolding(rl_spec::specs::Image::record_in))]
pub fn kind_at(image: &[u8], at: u16) -> u8
    ensures { result ≡ (record_in image.now at).kind }
{
    get_or(image, at as usize, 0)
}

// The span of an expression or a statement.
pub fn span_at(image: &[u8], at: u16) -> u32
    ensures { result ≡ u32_at image.now (at + 1) }
{
    u32_at(image, (at as usize) + 1)
}

// The number in 1, 2, 4 or 8 bytes; 0 for any other width.
#[tactic(auto, unfolding(crate::specs::Find::number_in), using(rl_bytes::proofs::Laws::one, rl_bytes::proofs::Laws::two, rl_bytes::proofs::Laws::four))]
pub fn number_at(image: &[u8], at: usize, width: u8) -> u64
    ensures { result ≡ number_in image.now at width }
{
    match width {
        1 => get_or(image, at, 0) as u64,
        2 => u16_at(image, at) as u64,
        4 => u32_at(image, at) as u64,
        8 => u64_at(image, at),
        _ => 0,
    }
}

// A field's code and its place.
#[derive(Clone, Copy)]
pub struct Spot {
    pub code: u8,
    pub at: usize,
}

// The j-th field of a record, by the schema's row of its kind.
#[tactic(auto, using(crate::proofs::Laws::spot_end, crate::proofs::Laws::spot_here, crate::proofs::Laws::spot_fits))]
fn field_spot(row: u64, at: u16, j: u8) -> Option<Spot>
    ensures { result ≡ spot_of (codes row) (at + 1) j }
{
    let mut rest = row;
    let mut place = (at as usize) + 1;
    for _ in 0..j {
        if rest == 0 {
            return None;
        }
        place += width_of(sort_of((rest % 256) as u8));
        rest /= 256;
    }
    if rest == 0 {
        return None;
    }
    Some(Spot {
        code: (rest % 256) as u8,
        at: place,
    })
}

pub fn is_pair(sort: Sort) -> bool
    ensures { result ≡ is_pair sort }
{
    matches!(sort, Sort::Part | Sort::Many { .. } | Sort::Range { .. })
}

#[tactic(auto, using(crate::proofs::Laws::first_pair, crate::proofs::Laws::first_number, crate::proofs::Laws::width_fits))]
fn first_at(image: &[u8], code: u8, at: usize) -> u64
    ensures { result ≡ first (field_in image.now (sort_of code) at) }
{
    let sort = sort_of(code);
    if is_pair(sort) {
        return u16_at(image, at) as u64;
    }
    number_at(image, at, width_of(sort) as u8)
}

fn second_at(image: &[u8], code: u8, at: usize) -> u16
    ensures { result ≡ second (field_in image.now (sort_of code) at) }
{
    if is_pair(sort_of(code)) {
        return second_u16(image, at);
    }
    0
}

// The number of the j-th field of the record at a place, or the first of two; `row` is the schema's row of the record's kind.
#[tactic(auto, using(crate::proofs::Laws::first_none, crate::proofs::Laws::first_found))]
pub fn field_first(image: &[u8], row: u64, at: u16, j: u8) -> u64
    ensures { result ≡ first (get_or (fields_at image.now (codes row) (at + 1)) j no_field) }
{
    match field_spot(row, at, j) {
        Some(spot) => first_at(image, spot.code, spot.at),
        None => 0,
    }
}

// The second of two numbers of that field; 0 where it has one.
#[tactic(auto, using(crate::proofs::Laws::second_nothing, crate::proofs::Laws::second_found))]
pub fn field_second(image: &[u8], row: u64, at: u16, j: u8) -> u16
    ensures { result ≡ second (get_or (fields_at image.now (codes row) (at + 1)) j no_field) }
{
    match field_spot(row, at, j) {
        Some(spot) => second_at(image, spot.code, spot.at),
        None => 0,
    }
}

// ---- ids

// The node that an id finds in an arena: the arena's number is compared first, then the node's number with the count of expressions.
#[tactic(auto, unfolding(crate::specs::Find::lookup))]
pub fn node_of(arena: ArenaNo, counts: Counts, id: Id) -> Result<u16, Cause>
    ensures { result ≡ lookup arena counts id }
{
    if id.arena.0 != arena.0 {
        return Err(Cause::OtherArena);
    }
    let n = id.node.0;
    if n >= counts.expressions as u32 {
        return Err(Cause::NoSuchNode);
    }
    Ok(n as u16)
}
