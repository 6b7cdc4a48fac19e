// Folding: `const_eval`, which remembers what it has found, so that a shared node is folded once.
#![tactic(auto)]

ghost use Rattle.std.specs.Prelude.{◌≡◌, List, ℕ};
ghost use Rattle.rl_spec.specs.Image.{text_of};
ghost use Rattle.rl_spec.specs.Folded.{folded_of};
ghost use Rattle.rl_spec.specs.Fold.{unary_folded, binary_folded};
ghost use Rattle.rl_operators.specs.Texts.{TextIs};
ghost use Rattle.rl_records.specs.Found.{found, found_with};
ghost use Rattle.rl_fold.specs.Folding.{Folds};

use rl_memory::{recall, remember};
use rl_names::Names;
use rl_operators::{binary_value, unary_value};
use rl_records::ImageRef;
use rl_spec::{ConstVal, Form};

// The bytes of a value that is a text.
pub fn value_text<'a>(image: ImageRef<'a, '_>, v: ConstVal) -> &'a [u8]
    ensures { (p : List ℕ) → TextIs (text_of (found_with image.entry p)) v result.now }
{
    match v {
        ConstVal::Str(t) => image.text(t),
        _ => &[],
    }
}

#[tactic(auto, unfolding(rl_spec::specs::Fold::unary_folded))]
pub fn unary_folded(operator: u8, v: Option<ConstVal>) -> Option<ConstVal>
    ensures { folded_of result ≡ unary_folded operator (folded_of v) }
{
    unary_value(operator, v?)
}

#[tactic(auto, unfolding(rl_spec::specs::Fold::binary_folded))]
pub fn binary_folded(
    image: ImageRef,
    operator: u8,
    a: Option<ConstVal>,
    b: Option<ConstVal>,
) -> Option<ConstVal>
    ensures { (p : List ℕ) → folded_of result ≡ binary_folded (text_of (found_with image.entry p)) operator (folded_of a) (folded_of b) }
{
    let x = a?;
    let y = b?;
    binary_value(operator, x, y, value_text(image, x), value_text(image, y))
}

// Folds the n-th expression under the names. The promise is about a memory that is right for these names: it is so then too, and what else it
// holds is left open.
pub fn const_eval(image: ImageRef, names: Names, memory: &mut [u64], n: u16) -> Option<ConstVal>
    ensures { Folds (found image.entry) names.entry.classes.now names.entry.words.now names.entry.count n memory.old result memory.new }
{
    if let Some(v) = recall(memory, names.count, n) {
        return v;
    }
    // a part that is not before its node has no value
    let v = match image.form(n) {
        Form::Literal(v) => v,
        Form::Identifier(t) => names.lookup(t),
        Form::Grouping(e) => {
            if e < n {
                const_eval(image, names, memory, e)
            } else {
                None
            }
        }
        Form::Unary { operator, operand } => {
            if operand < n {
                let v = unary_folded(operator, const_eval(image, names, memory, operand));
                return remember(memory, names.count, n, v);
            }
            None
        }
        Form::Binary {
            left,
            operator,
            right,
        } => {
            if left < n && right < n {
                let a = const_eval(image, names, memory, left);
                let b = const_eval(image, names, memory, right);
                binary_folded(image, operator, a, b)
            } else {
                None
            }
        }
        _ => None,
    };
    remember(memory, names.count, n, v)
}
