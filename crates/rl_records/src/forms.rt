// The forms of expressions.
ghost use Rattle.std.specs.Prelude.{◌≡◌, ℕ, List, Some, slice_index};
ghost use Rattle.rl_spec.specs.Values.{same_text};
ghost use Rattle.rl_spec.specs.Image.{pair, entry_of, text_of};
ghost use Rattle.rl_spec.specs.Tree.{is_res_path, call_form, form_by, form_of};
ghost use Rattle.rl_spec.specs.Found.{record_as};
ghost use Rattle.rl_records.specs.Found.{found, found_with};

use crate::ImageRef;
use crate::texts::interval_at;
use rl_bytes::{get_or, u16_at, u32_at, u64_at};
use rl_spec::{ConstVal, Form, Interval};
use rl_text_order::same_text;
use rl_words::{float32, float64, signed8, signed16, signed32, signed64, unsigned64};

// Whether the k-th list entry names a text of these bytes.
fn is_entry(image: ImageRef, k: u32, name: &[u8]) -> bool
    ensures { (p : List ℕ) → result ≡ same_text (text_of (found_with image.entry p) (entry_of (found_with image.entry p) k)) name.now }
{
    same_text(image.text(image.entry(k)), name)
}

// Whether a list of texts is the path std::res::NAME.
fn is_res_path(image: ImageRef, path: Interval, name: &[u8]) -> bool
    ensures { (p : List ℕ) → result ≡ is_res_path (found_with image.entry p) (pair path.first path.count) name.now }
{
    if path.count != 3 {
        return false;
    }
    let first = path.first as u32;
    if !is_entry(image, first, b"std") {
        return false;
    }
    if !is_entry(image, first + 1, b"res") {
        return false;
    }
    is_entry(image, first + 2, name)
}

fn call_form(image: ImageRef, path: Interval, args: Interval) -> Form
    ensures { (p : List ℕ) → result ≡ call_form (found_with image.entry p) (pair path.first path.count) (pair args.first args.count) }
{
    if args.count != 1 {
        return Form::Other;
    }
    let argument = image.entry(args.first as u32);
    if is_res_path(image, path, b"is_err") {
        return Form::IsErr(argument);
    }
    if is_res_path(image, path, b"result_unwrap") {
        return Form::ResultUnwrap(argument);
    }
    Form::Other
}

fn literal(v: ConstVal) -> Form
    ensures { result ≡ Form.Literal (Some v) }
{
    Form::Literal(Some(v))
}

// The form of the record at a place. Its fields stand behind the kind and the span.
fn form_in(image: ImageRef, start: u16) -> Form
    ensures { (p : List ℕ) → result ≡ form_by (found_with image.entry p) (record_as image.entry.bytes.now (slice_index image.entry.bytes.now start) start) }
{
    let bytes = image.bytes;
    let at = (start as usize) + 1 + 4;
    match get_or(bytes, start as usize, 0) {
        16 => Form::Null,
        17 => literal(ConstVal::Int(signed64(u64_at(bytes, at)))),
        18 => literal(ConstVal::Int(signed32(u32_at(bytes, at)))),
        19 => Form::Literal(unsigned64(u64_at(bytes, at))),
        20 => literal(ConstVal::Int(u32_at(bytes, at) as i64)),
        21 => literal(ConstVal::Int(get_or(bytes, at, 0) as i64)),
        22 => literal(ConstVal::Int(signed8(get_or(bytes, at, 0)))),
        23 => literal(ConstVal::Int(u16_at(bytes, at) as i64)),
        24 => literal(ConstVal::Int(signed16(u16_at(bytes, at)))),
        25 => literal(ConstVal::Str(u16_at(bytes, at))),
        26 => literal(ConstVal::Bool(get_or(bytes, at, 0) == 1)),
        27 => literal(ConstVal::Float(float64(u64_at(bytes, at)))),
        28 => literal(ConstVal::Float(float32(u32_at(bytes, at)))),
        30 => Form::Identifier(u16_at(bytes, at)),
        32 => Form::Binary {
            left: u16_at(bytes, at),
            operator: get_or(bytes, at + 2, 0),
            right: u16_at(bytes, at + 2 + 1),
        },
        33 => Form::Unary {
            operator: get_or(bytes, at, 0),
            operand: u16_at(bytes, at + 1),
        },
        34 => Form::Grouping(u16_at(bytes, at)),
        39 => Form::Assign {
            name: u16_at(bytes, at),
            value: u16_at(bytes, at + 2),
        },
        41 => call_form(image, interval_at(bytes, at), interval_at(bytes, at + 4)),
        49 => Form::OkLiteral(u16_at(bytes, at)),
        50 => Form::ErrLiteral(u16_at(bytes, at)),
        _ => Form::Other,
    }
}

impl ImageRef<'_, '_> {
    // The form of the n-th expression.
    pub fn form(self, n: u16) -> Form
        ensures { result ≡ form_of (found self.entry) n }
    {
        if self.counts.expressions <= n {
            return Form::Other;
        }
        form_in(self, get_or(self.starts, n as usize, 0))
    }
}
