// A statement's record again, with fields replaced.
ghost use Rattle.std.specs.Prelude.{◌≡◌, List, [], ◌∷◌, ℕ, ◌+◌, ◌<◌, length};
ghost use Rattle.rl_spec.specs.declared.Section.TheVariants.{Statements};
ghost use Rattle.rl_spec.specs.Image.{record_of, first, fields_at};
ghost use Rattle.rl_spec.specs.Ranges.{optional_field};
ghost use Rattle.rl_spec.specs.Make.{append};
ghost use Rattle.rl_records.specs.Found.{found};
ghost use Rattle.rl_schema.specs.Codes.{codes, table};
ghost use Rattle.rl_encode.specs.Words.{word_fields};
ghost use Rattle.rl_context.specs.Does.{at};
ghost use Rattle.rl_context.specs.Guards.{Makes};
ghost use Rattle.rl_transform.specs.Transforms.{rebuilt};

use crate::Walk;
use rl_arena::{kind_at, statement_start};
use rl_bytes::put;
use rl_context::{Ctx, Kind, Made, optional_word, word_of};
use rl_schema::{row_of, sort_of, width_of};

// The fields of the record at a place, by the schema's row, as words.
fn fields_of(image: &[u8], row: u64, start: u16) -> [u64; 8]
    ensures value { 8 ≡ length result }
    ensures result_value { word_fields (codes row) result 0 ≡ fields_at image.now (codes row) (start + 1) }
{
    let mut words = [0u64; 8];
    let mut rest = row;
    let mut place = (start as usize) + 1;
    let mut j = 0;
    while rest != 0 {
        let code = (rest % 256) as u8;
        put(&mut words, j, word_of(image, code, place));
        place += width_of(sort_of(code));
        rest = rest / 256;
        j += 1;
    }
    words
}

// The record of a statement again, with words in the place of two of its fields; one that it has not stays away.
pub fn rebuild(
    walk: Walk,
    s: u16,
    j: u8,
    word: u64,
    k: u8,
    other: u64,
    scratch: &mut [u8],
    ctx: Ctx,
) -> Made<u16>
    ensures { (w : List ℕ) → walk.entry.rows.now ≡ table → s < walk.entry.image.counts.statements → j < 8 → k < 8 → Makes (found walk.entry.image) (append Statements (rebuilt (record_of (found walk.entry.image) Statements s) j word k other ∷ [])) (at ctx scratch.old w) result.made (at result.ctx scratch.new w) }
{
    let image = walk.image;
    let start = statement_start(image.starts, image.counts, s);
    let number = kind_at(image.bytes, start);
    let row = row_of(walk.rows, number);
    let mut words = fields_of(image.bytes, row, start);
    put(&mut words, j as usize, word);
    put(&mut words, k as usize, other);
    ctx.new_statement(scratch, Kind { number, row }, &words)
}

// A conditional with other branches.
pub fn rebuild_conditional(
    walk: Walk,
    s: u16,
    branch: u16,
    other: Option<u16>,
    scratch: &mut [u8],
    ctx: Ctx,
) -> Made<u16>
    ensures { (w : List ℕ) → walk.entry.rows.now ≡ table → s < walk.entry.image.counts.statements → Makes (found walk.entry.image) (append Statements (rebuilt (record_of (found walk.entry.image) Statements s) 1 branch 2 (first (optional_field other)) ∷ [])) (at ctx scratch.old w) result.made (at result.ctx scratch.new w) }
{
    let word = optional_word(other) as u64;
    rebuild(walk, s, 1, branch as u64, 2, word, scratch, ctx)
}
