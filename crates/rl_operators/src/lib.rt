// The operators by their bytes in the image.
#![tactic(auto)]

ghost use Rattle.std.specs.Prelude.{◌≡◌, List, ℕ};
ghost use Rattle.rl_spec.specs.Values.{compare_values};
ghost use Rattle.rl_spec.specs.Folded.{const_of, op_of, folded_of};
ghost use Rattle.rl_spec.specs.Fold.{boolean, unary_value, binary_value};
ghost use Rattle.rl_operators.specs.Texts.{TextIs};

use rl_spec::{ArithOp, ConstVal, RefineOp};
use rl_values::{arith_values, bang, compare_values, negate};

#[tactic(auto, unfolding(rl_spec::specs::Fold::unary_value))]
pub fn unary_value(operator: u8, v: ConstVal) -> Option<ConstVal>
    ensures { folded_of result ≡ unary_value operator (const_of v) }
{
    match operator {
        5 => bang(v),
        2 => negate(v),
        _ => None,
    }
}

#[tactic(auto, using(crate::proofs::Laws::compare_at))]
fn comparison(op: RefineOp, a: ConstVal, b: ConstVal, left: &[u8], right: &[u8]) -> Option<ConstVal>
    ensures { (bytes : ℕ → List ℕ) → TextIs bytes a left.now → TextIs bytes b right.now → folded_of result ≡ boolean (compare_values bytes (op_of op) (const_of a) (const_of b)) }
{
    compare_values(op, a, b, left, right).map(ConstVal::Bool)
}

// left and right are the bytes of a and of b where they are texts.
#[tactic(auto, unfolding(rl_spec::specs::Fold::binary_value))]
pub fn binary_value(
    operator: u8,
    a: ConstVal,
    b: ConstVal,
    left: &[u8],
    right: &[u8],
) -> Option<ConstVal>
    ensures { (bytes : ℕ → List ℕ) → TextIs bytes a left.now → TextIs bytes b right.now → folded_of result ≡ binary_value bytes operator (const_of a) (const_of b) }
{
    match operator {
        6 => comparison(RefineOp::Eq, a, b, left, right),
        7 => comparison(RefineOp::Ne, a, b, left, right),
        8 => comparison(RefineOp::Lt, a, b, left, right),
        9 => comparison(RefineOp::Le, a, b, left, right),
        10 => comparison(RefineOp::Gt, a, b, left, right),
        11 => comparison(RefineOp::Ge, a, b, left, right),
        1 => arith_values(ArithOp::Plus, a, b),
        2 => arith_values(ArithOp::Minus, a, b),
        3 => arith_values(ArithOp::Star, a, b),
        4 => arith_values(ArithOp::Slash, a, b),
        _ => None,
    }
}
