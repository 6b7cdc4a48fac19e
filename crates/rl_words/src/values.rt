// The runner's values as two words: 8 is added to the sort of what an Ok holds, 16 to that of what an Err holds.
ghost use Rattle.std.specs.Prelude.{◌≡◌, ◌≤◌};
ghost use Rattle.rl_spec.specs.Runner.{folded_in, content_of, plain_of_words, value_sort, value_payload, value_of_words};

use crate::{payload_word, sort_word, words_value};
use rl_spec::{ConstVal, Plain, Value};

// What a value is or holds; Null folds to nothing.
fn content(v: Value) -> Option<ConstVal>
    ensures { result ≡ folded_in (content_of v) }
{
    match v {
        Value::Plain(Plain::Const(w)) | Value::Ok(Plain::Const(w)) | Value::Err(Plain::Const(w)) =>
            Some(w),
        _ => None,
    }
}

pub fn value_sort(v: Value) -> u64
    ensures value { result ≡ value_sort v }
    ensures upper_bound { result ≤ 20 }
{
    let sort = sort_word(content(v));
    match v {
        Value::Plain(_) => sort,
        Value::Ok(_) => sort + 8,
        Value::Err(_) => sort + 16,
    }
}

// The value that the words stand for is this one.
#[tactic(auto, using(crate::proofs::Laws::value_back))]
pub fn value_payload(v: Value) -> u64
    ensures value { result ≡ value_payload v }
    ensures result_value { value_of_words (value_sort v) result ≡ v }
{
    payload_word(content(v))
}

fn plain_of_words(sort: u64, payload: u64) -> Plain
    ensures { result ≡ plain_of_words sort payload }
{
    words_value(sort, payload).map_or(Plain::Null, Plain::Const)
}

#[tactic(auto, unfolding(rl_spec::specs::Runner::value_of_words))]
pub fn value_of_words(sort: u64, payload: u64) -> Value
    ensures { result ≡ value_of_words sort payload }
{
    match sort {
        0..=7 => Value::Plain(plain_of_words(sort, payload)),
        8..=15 => Value::Ok(plain_of_words(sort - 8, payload)),
        _ => Value::Err(plain_of_words(sort - 16, payload)),
    }
}
