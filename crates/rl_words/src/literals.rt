// What literals fold to, from their bits.
ghost use Rattle.std.specs.Prelude.{◌≡◌};
ghost use Rattle.std.specs.Float.Ieee.{of_bits};
ghost use Rattle.std.specs.Float.{binary32, binary64};
ghost use Rattle.rl_spec.specs.Tree.{signed, unsigned};

use rl_spec::ConstVal;
use std::num::{f32_from_bits_with_nan, f64_from_bits_with_nan};

// One for each width, as std's `cast_signed` is a method of each type and of no trait: the blocks of a trait of our own would say the
// same line once for each width too.
pub fn signed64(n: u64) -> i64
    ensures { result ≡ signed 64 n }
{
    n.cast_signed()
}

pub fn signed32(n: u32) -> i64
    ensures { result ≡ signed 32 n }
{
    i64::from(n.cast_signed())
}

pub fn signed16(n: u16) -> i64
    ensures { result ≡ signed 16 n }
{
    i64::from(n.cast_signed())
}

pub fn signed8(n: u8) -> i64
    ensures { result ≡ signed 8 n }
{
    i64::from(n.cast_signed())
}

pub fn unsigned64(n: u64) -> Option<ConstVal>
    ensures { result ≡ unsigned n }
{
    i64::try_from(n).ok().map(ConstVal::Int)
}

// The float of a pattern; each pattern of a NaN is the NaN.
pub fn float64(n: u64) -> f64
    ensures { result ≡ of_bits binary64 n }
{
    f64_from_bits_with_nan(n)
}

pub fn float32(n: u32) -> f64
    ensures { result ≡ of_bits binary32 n }
{
    f64::from(f32_from_bits_with_nan(n))
}
