// Values as two words, a sort and a payload, and back.
#![tactic(auto)]

mod literals;
mod values;

ghost use Rattle.std.specs.Prelude.{◌≡◌, min};
ghost use Rattle.std.specs.Float.Ieee.{to_bits, of_bits};
ghost use Rattle.std.specs.Float.{binary64};
ghost use Rattle.rl_spec.specs.Tree.{signed};
ghost use Rattle.rl_spec.specs.Words.{bits64, sort_word_of, payload_word_of, words_value};

pub use literals::{float32, float64, signed8, signed16, signed32, signed64, unsigned64};
use rl_spec::ConstVal;
use std::num::f64_to_bits_with_nan;
pub use values::{value_of_words, value_payload, value_sort};

pub fn bits_of_int(x: i64) -> u64
    ensures value { result ≡ bits64 x }
    ensures result_value { signed 64 result ≡ x }
{
    x.cast_unsigned()
}

#[tactic(auto, using(crate::proofs::Laws::float_back))]
pub fn bits_of_float(x: f64) -> u64
    ensures value { result ≡ to_bits binary64 x }
    ensures result_value { of_bits binary64 result ≡ x }
{
    f64_to_bits_with_nan(x)
}

pub fn sort_word(v: Option<ConstVal>) -> u64
    ensures { result ≡ sort_word_of v }
{
    match v {
        None => 0,
        Some(ConstVal::Int(_)) => 1,
        Some(ConstVal::Float(_)) => 2,
        Some(ConstVal::Str(_)) => 3,
        Some(ConstVal::Bool(_)) => 4,
    }
}

// The value that the words stand for is this one.
#[tactic(auto, unfolding(rl_spec::specs::Words::words_value))]
pub fn payload_word(v: Option<ConstVal>) -> u64
    ensures value { result ≡ payload_word_of v }
    ensures result_value { words_value (sort_word_of v) result ≡ v }
{
    match v {
        None => 0,
        Some(ConstVal::Int(x)) => bits_of_int(x),
        Some(ConstVal::Float(x)) => bits_of_float(x),
        Some(ConstVal::Str(t)) => u64::from(t),
        Some(ConstVal::Bool(b)) => u64::from(b),
    }
}

// An index above 65,535 is 65,535, which no image has.
fn text_index(payload: u64) -> u16
    ensures { result ≡ min payload 65535 }
{
    u16::try_from(payload).unwrap_or(u16::MAX)
}

#[tactic(auto, unfolding(rl_spec::specs::Words::words_value))]
pub fn words_value(sort: u64, payload: u64) -> Option<ConstVal>
    ensures { result ≡ words_value sort payload }
{
    match sort {
        1 => Some(ConstVal::Int(signed64(payload))),
        2 => Some(ConstVal::Float(float64(payload))),
        3 => Some(ConstVal::Str(text_index(payload))),
        4 => Some(ConstVal::Bool(payload == 1)),
        _ => None,
    }
}
