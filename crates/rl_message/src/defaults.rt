// The default texts, put into a lent buffer. What has no room is left out.
ghost use Rattle.std.specs.Prelude.{◌≡◌, List, ◌++◌, ℕ, ◌+◌, Some};
ghost use Rattle.rl_spec.specs.Folded.{op_of};
ghost use Rattle.rl_spec.specs.Tree.{ascii};
ghost use Rattle.rl_spec.specs.Records.{param_at, function_at};
ghost use Rattle.rl_spec.specs.FnContracts.{operand_of, refinement_of};
ghost use Rattle.std.proofs.Math.Option.{map};
ghost use Rattle.rl_spec.specs.Image.{text_of};
ghost use Rattle.rl_spec.specs.Mapped.{map_operand, map_refinement};
ghost use Rattle.rl_spec.specs.Message.{refine_op_str, bool_text, integer_text, operand_str, refinement_text, default_text};
ghost use Rattle.rl_records.specs.Found.{found_with};
ghost use Rattle.rl_text_out.specs.Put.{after_text, with_text};

use rl_records::ImageRef;
use rl_spec::{Param, RefineOp, RefineOperand, Refinement, Violation};
use rl_text_out::Out;

#[tactic(auto, unfolding(rl_spec::specs::Tree::ascii))]
fn refine_op_str(op: RefineOp) -> &'static [u8]
    ensures { result.now ≡ refine_op_str (op_of op) }
{
    match op {
        RefineOp::Gt => b">",
        RefineOp::Ge => b">=",
        RefineOp::Lt => b"<",
        RefineOp::Le => b"<=",
        RefineOp::Eq => b"==",
        RefineOp::Ne => b"!=",
    }
}

#[tactic(auto, unfolding(rl_spec::specs::Tree::ascii))]
fn bool_text(b: bool) -> &'static [u8]
    ensures { result.now ≡ bool_text b }
{
    if b { b"true" } else { b"false" }
}

fn put_integer(out: &mut Out, x: i64)
    ensures same_reference { out.new.bytes.ghost_name ≡ out.old.bytes.ghost_name }
    ensures bytes { out.new.bytes.now ≡ with_text out.old.bytes.now out.old.at (integer_text x) }
    ensures at { out.new.at ≡ after_text out.old.bytes.now out.old.at (integer_text x) }
{
    if x < 0 {
        out.text(b"-");
    }
    out.number(x.unsigned_abs());
}

// A text in quotes, as it is.
fn put_quoted(out: &mut Out, text: &[u8])
    ensures same_reference { out.new.bytes.ghost_name ≡ out.old.bytes.ghost_name }
    ensures bytes { out.new.bytes.now ≡ with_text out.old.bytes.now out.old.at (ascii "\"" ++ text.now ++ ascii "\"") }
    ensures at { out.new.at ≡ after_text out.old.bytes.now out.old.at (ascii "\"" ++ text.now ++ ascii "\"") }
{
    out.text(b"\"");
    out.text(text);
    out.text(b"\"");
}

fn put_operand(image: ImageRef, operand: RefineOperand, out: &mut Out)
    ensures same_reference { out.new.bytes.ghost_name ≡ out.old.bytes.ghost_name }
    ensures bytes { (p : List ℕ) → out.new.bytes.now ≡ with_text out.old.bytes.now out.old.at (operand_str (map_operand (text_of (found_with image.entry p)) (operand_of operand))) }
    ensures at { (p : List ℕ) → out.new.at ≡ after_text out.old.bytes.now out.old.at (operand_str (map_operand (text_of (found_with image.entry p)) (operand_of operand))) }
{
    match operand {
        RefineOperand::Integer(x) => put_integer(out, x),
        RefineOperand::Str(t) => put_quoted(out, image.text(t)),
        RefineOperand::Bool(b) => out.text(bool_text(b)),
        RefineOperand::Param(t) => out.text(image.text(t)),
    }
}

// refinement failed: NAME OP OPERAND
fn put_refinement(image: ImageRef, name: u16, refinement: Refinement, out: &mut Out)
    ensures same_reference { out.new.bytes.ghost_name ≡ out.old.bytes.ghost_name }
    ensures bytes { (p : List ℕ) → out.new.bytes.now ≡ with_text out.old.bytes.now out.old.at (refinement_text (text_of (found_with image.entry p) name) (map (map_refinement (text_of (found_with image.entry p))) (refinement_of (Some refinement)))) }
    ensures at { (p : List ℕ) → out.new.at ≡ after_text out.old.bytes.now out.old.at (refinement_text (text_of (found_with image.entry p) name) (map (map_refinement (text_of (found_with image.entry p))) (refinement_of (Some refinement)))) }
{
    out.text(b"refinement failed: ");
    out.text(image.text(name));
    out.text(b" ");
    out.text(refine_op_str(refinement.op));
    out.text(b" ");
    put_operand(image, refinement.operand, out);
}

// The parameter of a function, by its number.
fn param_of(image: ImageRef, function: u16, number: u16) -> Param
    ensures { (p : List ℕ) → result ≡ param_at (found_with image.entry p) ((function_at (found_with image.entry p) function).params.first + number) }
{
    let params = image.function(function).params;
    image.param((params.first as u32) + (number as u32))
}

// The default text of a violation of the function's contracts.
fn put_default(image: ImageRef, function: u16, violation: Violation, out: &mut Out)
    ensures same_reference { out.new.bytes.ghost_name ≡ out.old.bytes.ghost_name }
    ensures bytes { (p : List ℕ) → out.new.bytes.now ≡ with_text out.old.bytes.now out.old.at (default_text (found_with image.entry p) function violation) }
    ensures at { (p : List ℕ) → out.new.at ≡ after_text out.old.bytes.now out.old.at (default_text (found_with image.entry p) function violation) }
{
    match violation {
        Violation::Refinement(number) => {
            let param = param_of(image, function, number);
            if let Some(refinement) = param.refinement {
                put_refinement(image, param.name, refinement, out);
            }
        }
        Violation::Requires(_) => out.text(b"requires violated"),
    }
}

// The same, from the buffer's start on; the place after it.
pub fn default_text(image: ImageRef, function: u16, violation: Violation, out: &mut [u8]) -> usize
    ensures by_index { (p : List ℕ) → result ≡ after_text out.old 0 (default_text (found_with image.entry p) function violation) }
    ensures by_index_2 { (p : List ℕ) → out.new ≡ with_text out.old 0 (default_text (found_with image.entry p) function violation) }
{
    let mut out = Out { bytes: out, at: 0 };
    put_default(image, function, violation, &mut out);
    out.at
}
