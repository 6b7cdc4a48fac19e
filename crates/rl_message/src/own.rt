// The text that a clause brings with it, and the message.
ghost use Rattle.std.specs.Prelude.{◌≡◌, List, ℕ, ◌+◌};
ghost use Rattle.rl_spec.specs.Image.{Image};
ghost use Rattle.rl_spec.specs.Tree.{Expr, tree_by, optional_tree};
ghost use Rattle.rl_spec.specs.Records.{clause_at, function_at};
ghost use Rattle.rl_spec.specs.Message.{string_in, own_string, clause_message, message_with};
ghost use Rattle.rl_records.specs.Found.{found, found_with};
ghost use Rattle.rl_message.specs.Own.{text_option};

use rl_records::ImageRef;
use rl_spec::{Clause, ConstVal, Form, Violation};

// The text of a String.
fn string_in(form: Form) -> Option<u16>
    ensures { (im : Image) (tree : ℕ → Expr ℕ) → text_option result ≡ string_in (tree_by im form tree) }
{
    match form {
        Form::Literal(Some(ConstVal::Str(t))) => Some(t),
        _ => None,
    }
}

// The text of a message that is a String.
fn own_string(image: ImageRef, message: Option<u16>) -> Option<u16>
    ensures { text_option result ≡ own_string (optional_tree (found image.entry) message) }
{
    let node = message?;
    string_in(image.form(node))
}

// The clause's own text, a part of the image, or the default, as it was lent.
fn clause_message<'a>(image: ImageRef<'a, '_>, clause: Clause, default: &'a [u8]) -> &'a [u8]
    ensures { result.now ≡ clause_message (found image.entry) clause default.now }
{
    match own_string(image, clause.message) {
        Some(t) => image.text(t),
        None => default,
    }
}

// The requires clause of a function, by its number.
fn clause_of(image: ImageRef, function: u16, number: u16) -> Clause
    ensures { (p : List ℕ) → result ≡ clause_at (found_with image.entry p) ((function_at (found_with image.entry p) function).required.first + number) }
{
    let required = image.function(function).required;
    image.clause((required.first as u32) + (number as u32))
}

// The message of a violation: the clause's own text or the default.
pub fn message<'a>(
    image: ImageRef<'a, '_>,
    function: u16,
    violation: Violation,
    default: &'a [u8],
) -> &'a [u8]
    ensures { result.now ≡ message_with (found image.entry) function violation default.now }
{
    match violation {
        Violation::Requires(number) => {
            clause_message(image, clause_of(image, function, number), default)
        }
        Violation::Refinement(_) => default,
    }
}
