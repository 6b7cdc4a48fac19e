// The operators on folded values.
#![tactic(auto)]

ghost use Rattle.std.specs.Prelude.{◌≡◌};
ghost use Rattle.std.specs.Int.Signed.{lt_z};
ghost use Rattle.std.specs.Float.Ieee as F;
ghost use Rattle.std.specs.Float.{binary64};
ghost use Rattle.std.specs.Ordering.{partial_lt};
ghost use Rattle.rl_spec.specs.Values.{compare_by, same_int, same_text, less_text, compare_floats, compare_bools, as_f64, compare_values, bang, negate, arith_floats, arith_ints, arith_values};
ghost use Rattle.rl_spec.specs.Folded.{const_of, op_of, folded_of, verdict_of, with_text, arith_of};

use rl_spec::{ArithOp, ConstVal, RefineOp};
use rl_text_order::{less_text, same_text};

// By the order and the equality of the type; beside a NaN only Ne holds.
fn compare<T: PartialOrd + Copy>(op: RefineOp, x: T, y: T) -> bool
    ensures { result ≡ compare_by (partial_lt T.partial_cmp) T.eq (op_of op) x y }
{
    match op {
        RefineOp::Gt => y < x,
        RefineOp::Ge => y <= x,
        RefineOp::Lt => x < y,
        RefineOp::Le => x <= y,
        RefineOp::Eq => x == y,
        RefineOp::Ne => x != y,
    }
}

// Not by `compare`, for speed: std's order of slices takes a byte at a step, as the form that the bar for long texts is measured by
// (docs/BENCHMARKS.md). One pass for each: at most is not above.
#[tactic(auto, using(crate::proofs::Laws::at_most))]
fn compare_texts(op: RefineOp, a: &[u8], b: &[u8]) -> bool
    ensures { result ≡ compare_by less_text same_text (op_of op) a.now b.now }
{
    match op {
        RefineOp::Gt => less_text(b, a),
        RefineOp::Ge => !less_text(a, b),
        RefineOp::Lt => less_text(a, b),
        RefineOp::Le => !less_text(b, a),
        RefineOp::Eq => same_text(a, b),
        RefineOp::Ne => !same_text(a, b),
    }
}

pub fn cmp_i64(op: RefineOp, x: i64, y: i64) -> bool
    ensures { result ≡ compare_by lt_z same_int (op_of op) x y }
{
    compare(op, x, y)
}

#[tactic(auto, unfolding(rl_spec::specs::Values::compare_floats))]
pub fn compare_floats(op: RefineOp, x: f64, y: f64) -> Option<bool>
    ensures { verdict_of result ≡ compare_floats (op_of op) x y }
{
    if x.is_nan() || y.is_nan() {
        return None;
    }
    Some(compare(op, x, y))
}

#[tactic(auto, unfolding(rl_spec::specs::Values::compare_bools))]
pub fn compare_bools(op: RefineOp, x: bool, y: bool) -> Option<bool>
    ensures { verdict_of result ≡ compare_bools (op_of op) x y }
{
    match op {
        RefineOp::Eq => Some(x == y),
        RefineOp::Ne => Some(x != y),
        _ => None,
    }
}

// The nearest f64, ties to even: both halves are exact, and only their sum is rounded.
pub fn nearest_f64(x: i64) -> f64
    ensures { result ≡ F.of_int binary64 x }
{
    let upper = (x >> 32) as f64 * 4294967296.0;
    let lower = (x & 0xffff_ffff) as f64;
    upper + lower
}

#[tactic(auto, using(crate::proofs::Laws::nan_is))]
pub fn as_f64(v: ConstVal) -> f64
    ensures { result ≡ as_f64 (const_of v) }
{
    match v {
        ConstVal::Int(x) => nearest_f64(x),
        ConstVal::Float(x) => x,
        _ => f64::NAN,
    }
}

// left and right are the bytes of a and of b where they are texts.
#[tactic(auto, using(crate::proofs::Laws::as_beside), unfolding(rl_spec::specs::Values::compare_values))]
pub fn compare_values(
    op: RefineOp,
    a: ConstVal,
    b: ConstVal,
    left: &[u8],
    right: &[u8],
) -> Option<bool>
    ensures { verdict_of result ≡ compare_values (λ t. t) (op_of op) (with_text a left.now) (with_text b right.now) }
{
    match (a, b) {
        (ConstVal::Int(x), ConstVal::Int(y)) => Some(cmp_i64(op, x, y)),
        (ConstVal::Int(x), ConstVal::Float(y)) => compare_floats(op, nearest_f64(x), y),
        (ConstVal::Float(x), _) => compare_floats(op, x, as_f64(b)),
        (ConstVal::Str(_), ConstVal::Str(_)) => Some(compare_texts(op, left, right)),
        (ConstVal::Bool(x), ConstVal::Bool(y)) => compare_bools(op, x, y),
        _ => None,
    }
}

#[tactic(auto, unfolding(rl_spec::specs::Values::bang))]
pub fn bang(v: ConstVal) -> Option<ConstVal>
    ensures { folded_of result ≡ bang (const_of v) }
{
    match v {
        ConstVal::Bool(x) => Some(ConstVal::Bool(!x)),
        _ => None,
    }
}

#[tactic(auto, unfolding(rl_spec::specs::Values::negate))]
pub fn negate(v: ConstVal) -> Option<ConstVal>
    ensures { folded_of result ≡ negate (const_of v) }
{
    match v {
        ConstVal::Int(x) => x.checked_neg().map(ConstVal::Int),
        ConstVal::Float(x) => Some(ConstVal::Float(-x)),
        _ => None,
    }
}

#[tactic(auto, using(crate::proofs::Laws::zero_bits))]
pub fn arith_floats(op: ArithOp, x: f64, y: f64) -> Option<ConstVal>
    ensures { folded_of result ≡ arith_floats (arith_of op) x y }
{
    if x.is_nan() || y.is_nan() {
        return None;
    }
    match op {
        ArithOp::Plus => Some(ConstVal::Float(x + y)),
        ArithOp::Minus => Some(ConstVal::Float(x - y)),
        ArithOp::Star => Some(ConstVal::Float(x * y)),
        ArithOp::Slash if y == 0.0 => None,
        ArithOp::Slash => Some(ConstVal::Float(x / y)),
    }
}

pub fn arith_ints(op: ArithOp, x: i64, y: i64) -> Option<ConstVal>
    ensures { folded_of result ≡ arith_ints (arith_of op) x y }
{
    let z = match op {
        ArithOp::Plus => x.checked_add(y),
        ArithOp::Minus => x.checked_sub(y),
        ArithOp::Star => x.checked_mul(y),
        ArithOp::Slash => x.checked_div(y),
    };
    z.map(ConstVal::Int)
}

#[tactic(auto, unfolding(rl_spec::specs::Values::arith_values))]
pub fn arith_values(op: ArithOp, a: ConstVal, b: ConstVal) -> Option<ConstVal>
    ensures { folded_of result ≡ arith_values (arith_of op) (const_of a) (const_of b) }
{
    match (a, b) {
        (ConstVal::Int(x), ConstVal::Int(y)) => arith_ints(op, x, y),
        (ConstVal::Int(x), ConstVal::Float(y)) => arith_floats(op, nearest_f64(x), y),
        (ConstVal::Float(x), _) => arith_floats(op, x, as_f64(b)),
        _ => None,
    }
}
