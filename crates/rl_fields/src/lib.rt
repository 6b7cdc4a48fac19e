// What is checked of one record.
#![tactic(auto)]

mod lists;
mod references;

ghost use Rattle.std.specs.Prelude.{◌≡◌, cond, ◌+◌, ◌<◌, ◌≤◌, length, List, ℕ, Ok, Err};
ghost use Rattle.std.specs.Result.{IfOk};
ghost use Rattle.rl_spec.specs.Bytes.{past, u16_at};
ghost use Rattle.rl_spec.specs.Schema.{sort_of, fields_of};
ghost use Rattle.rl_spec.specs.Fields.{unless, range_of, part_of, byte_in, operand_sort_of, zeros, operand_of, field_at, fields_from, record_at};
ghost use Rattle.rl_schema.specs.Codes.{table};
ghost use Rattle.rl_fields.specs.Checked.{record_by};
ghost use Rattle.rl_fields.specs.Scopes.{in_scope};

use rl_bytes::{byte_before, get_or, is_past, part, second_u16, u16_at, u32_at};
use rl_schema::{count_in, in_section, schema_row, sort_of, tallest_in, width_of};
use rl_spec::{Cause, Counts, Interval, Next, Refusal, Section, Sort, Target};

// What is looked at to check a record of a section.
#[derive(Clone, Copy)]
pub struct Scope<'a> {
    pub image: &'a [u8],
    // the heights of the expressions and then of the statements so far
    pub heights: &'a [u16],
    // where each of them starts
    pub starts: &'a [u16],
    // how many records of each section the record may refer to
    pub seen: Counts,
    // the record's section
    pub own: Section,
}

// The checks of a field: each hands on the greatest height of a child so far, `tall`.

fn unless(cause: Cause, ok: bool, tall: u16) -> Result<u16, Cause>
    ensures { result ≡ unless cause ok tall }
{
    if ok { Ok(tall) } else { Err(cause) }
}

#[tactic(auto, unfolding(rl_spec::specs::Fields::byte_in))]
fn byte_in(low: u8, high: u8, b: u8, tall: u16) -> Result<u16, Cause>
    ensures { result ≡ byte_in low high b tall }
{
    unless(Cause::BadValue, (low..=high).contains(&b), tall)
}

#[tactic(auto, unfolding(rl_spec::specs::Fields::operand_sort_of))]
fn operand_sort(refinement: u8, b: u8, tall: u16) -> Result<u16, Cause>
    ensures { result ≡ operand_sort_of refinement b tall }
{
    if refinement == 0 {
        return unless(Cause::BadValue, b == 0, tall);
    }
    byte_in(1, 4, b, tall)
}

// A field of n bytes of any value: `Scope::field` for these alone, for speed.
fn raw_field(s: &[u8], n: u8, at: usize, tall: u16) -> Result<u16, Cause>
    ensures { result ≡ cond (past s.now at n) (Err Cause.BytesEnd) (Ok tall) }
{
    unless(Cause::BytesEnd, !is_past(s, at, usize::from(n)), tall)
}

impl Scope<'_> {
    #[tactic(auto, unfolding(rl_spec::specs::Fields::range_of))]
    fn range_of(self, range: Interval, section: Section, tall: u16) -> Result<u16, Cause>
        ensures { result ≡ range_of self.entry.seen range.first range.count section tall }
    {
        let end = u32::from(range.first) + u32::from(range.count);
        let there = end <= u32::from(count_in(self.seen, section));
        unless(Cause::BadReference, there, tall)
    }

    #[tactic(auto, unfolding(rl_spec::specs::Fields::part_of))]
    fn part_of(self, offset: u16, size: u16, tall: u16) -> Result<u16, Cause>
        ensures { result ≡ part_of self.entry.image.now self.entry.seen offset size tall }
    {
        if u32::from(self.seen.bytes) < u32::from(offset) + u32::from(size) {
            return Err(Cause::BadText);
        }
        let text = part(self.image, 23 + usize::from(offset), usize::from(size));
        unless(Cause::BadText, rl_text::is_utf8(text), tall)
    }

    #[tactic(auto, using(crate::proofs::Turns::turn), unfolding(rl_spec::specs::Fields::zeros))]
    fn are_zeros(self, at: usize, n: usize) -> bool
        requires { at + n ≤ length self.image.now }
        ensures { result ≡ zeros self.entry.image.now at n }
    {
        for i in 0..n {
            if self.image[at + i] != 0 {
                return false;
            }
        }
        true
    }

    // An operand, by its sort.
    #[tactic(auto, unfolding(rl_spec::specs::Fields::operand_of))]
    fn operand(self, sort: u8, at: usize, tall: u16) -> Result<u16, Cause>
        requires { at + 8 ≤ length self.image.now }
        ensures { result ≡ in_scope self.entry operand_of sort at tall }
    {
        match sort {
            0 => unless(Cause::BadValue, self.are_zeros(at, 8), tall),
            1 => Ok(tall),
            3 => {
                let ok = self.image[at] <= 1 && self.are_zeros(at + 1, 7);
                unless(Cause::BadValue, ok, tall)
            }
            _ if self.are_zeros(at + 2, 6) => {
                self.refer_to(Target::Text, u16_at(self.image, at), tall)
            }
            _ => Err(Cause::BadValue),
        }
    }

    // One field, by its sort.
    #[tactic(auto, unfolding(rl_spec::specs::Fields::field_at, rl_spec::specs::Fields::value_of, rl_spec::specs::Bytes::past))]
    fn field(self, sort: Sort, at: usize, tall: u16) -> Result<u16, Cause>
        ensures { result ≡ in_scope self.entry field_at sort at tall }
    {
        let s = self.image;
        if is_past(s, at, width_of(sort)) {
            return Err(Cause::BytesEnd);
        }
        match sort {
            Sort::Raw { .. } => Ok(tall),
            Sort::Byte { low, high } => byte_in(low, high, get_or(s, at, 0), tall),
            Sort::Scalar => unless(Cause::BadValue, rl_text::is_scalar(u32_at(s, at)), tall),
            Sort::Part => self.part_of(u16_at(s, at), second_u16(s, at), tall),
            Sort::One { target } => self.refer_to(target, u16_at(s, at), tall),
            Sort::Maybe { target } => self.refer_or_none(target, u16_at(s, at), tall),
            Sort::Many { left, right, step } => {
                self.list_of(interval_at(s, at), left, right, step, tall)
            }
            Sort::Range { section } => self.range_of(interval_at(s, at), section, tall),
            Sort::OperandSort => operand_sort(byte_before(s, at), get_or(s, at, 0), tall),
            Sort::Operand => self.operand(byte_before(s, at), at, tall),
        }
    }

    // A field of one reference: `field` for these alone, for speed.
    #[tactic(auto, unfolding(rl_spec::specs::Fields::field_at, rl_spec::specs::Fields::value_of))]
    fn one_reference(self, target: Target, at: usize, tall: u16) -> Result<u16, Cause>
        ensures { result ≡ in_scope self.entry field_at (Sort.One target) at tall }
    {
        if is_past(self.image, at, 2) {
            return Err(Cause::BytesEnd);
        }
        self.refer_to(target, u16_at(self.image, at), tall)
    }

    // A field by its code; the most frequent ones by themselves (with `field` for all, a typical image takes a fifth longer).
    #[tactic(auto, unfolding(rl_spec::specs::Schema::sort_of, rl_spec::specs::Fields::field_at, rl_spec::specs::Fields::value_of))]
    fn coded_field(self, code: u8, at: usize, tall: u16) -> Result<u16, Cause>
        ensures { result ≡ in_scope self.entry field_at (sort_of code) at tall }
    {
        match code {
            3 => raw_field(self.image, 4, at, tall),
            4 => raw_field(self.image, 8, at, tall),
            13 => self.one_reference(Target::Expression, at, tall),
            12 => self.one_reference(Target::Text, at, tall),
            _ => self.field(sort_of(code), at, tall),
        }
    }

    // The fields of a kind, left to right.
    #[tactic(auto, using(rl_schema::proofs::Rows::codes_more, rl_schema::proofs::Rows::codes_none), unfolding(rl_spec::specs::Fields::fields_from, rl_spec::specs::Fields::field_at, rl_spec::specs::Fields::value_of, rl_spec::specs::Schema::sort_of, rl_spec::specs::Bytes::past))]
    fn fields(self, kind: u8, start: usize) -> Result<Next, Refusal>
        ensures { result ≡ in_scope self.entry fields_from (fields_of kind) start 0 }
    {
        let mut rest = schema_row(kind);
        let mut at = start;
        let mut tall = 0;
        // a span by itself, for speed: most kinds begin with one
        if rest % 256 == 3 {
            if is_past(self.image, at, 4) {
                return Err(Cause::BytesEnd.at(at));
            }
            at += 4;
            rest /= 256;
        }
        while rest != 0 {
            let code = (rest % 256) as u8;
            tall = self
                .coded_field(code, at, tall)
                .map_err(|cause| cause.at(at))?;
            at += width_of(sort_of(code));
            rest /= 256;
        }
        Ok(Next { at, tall })
    }

    // One record: its kind, its fields, its height. Over any list that is the schema's table, that is `record_by`.
    #[tactic(auto, using(crate::proofs::RecordLaws::record_by_table))]
    pub fn record(self, at: usize) -> Result<Next, Refusal>
        ensures step { result ≡ in_scope self.entry record_at at }
        ensures by_table { (rows : List ℕ) → rows ≡ table → result ≡ in_scope self.entry (record_by rows) at }
        ensures there { IfOk result (λ next. at < length self.entry.image.now) }
    {
        self.checked(at)
    }

    #[tactic(auto, unfolding(rl_spec::specs::Fields::record_at, rl_spec::specs::Bytes::past))]
    fn checked(self, at: usize) -> Result<Next, Refusal>
        ensures step { result ≡ in_scope self.entry record_at at }
        ensures there { IfOk result (λ next. at < length self.entry.image.now) }
    {
        let Some(&kind) = self.image.get(at) else {
            return Err(Cause::BytesEnd.at(at));
        };
        if !in_section(self.own, kind) {
            return Err(Cause::WrongKind.at(at));
        }
        let mut next = self.fields(kind, at + 1)?;
        if next.tall >= tallest_in(self.own) {
            return Err(Cause::TooHigh.at(at));
        }
        next.tall += 1;
        Ok(next)
    }
}

// A list's entries or a section's records: the first, and how many.
fn interval_at(s: &[u8], at: usize) -> Interval
    ensures first { result.first ≡ u16_at s.now at }
    ensures count { result.count ≡ u16_at s.now (at + 2) }
{
    Interval {
        first: u16_at(s, at),
        count: second_u16(s, at),
    }
}
