// Values and outcomes in words.
ghost use Rattle.std.specs.Prelude.{◌≡◌, [], ◌∷◌};
ghost use Rattle.rl_spec.specs.Words.{sort_word_of, payload_word_of};
ghost use Rattle.rl_spec.specs.Boundary.{is_plain, is_value, are_values, count_of_words, arguments_of, outcome_words};

use rl_bytes::get_or;
use rl_spec::{Argument, Arguments, ConstVal, Outcome, Plain, Run, Value};
use rl_words::{payload_word, sort_word, value_of_words, value_payload, value_sort};

// The two words of a folded value.
pub fn put_value(value: &mut [u64; 2], v: Option<ConstVal>)
    ensures { value.new ≡ sort_word_of v ∷ payload_word_of v ∷ [] }
{
    *value = [sort_word(v), payload_word(v)];
}

#[tactic(auto, unfolding(rl_spec::specs::Boundary::is_plain))]
fn is_plain(sort: u64, payload: u64) -> bool
    ensures { result ≡ is_plain sort payload }
{
    match sort {
        0 => payload == 0,
        4 => payload < 2,
        _ => sort < 4,
    }
}

#[tactic(auto, unfolding(rl_spec::specs::Boundary::is_value))]
fn is_value(sort: u64, payload: u64) -> bool
    ensures { result ≡ is_value sort payload }
{
    match sort {
        0..8 => is_plain(sort, payload),
        8..16 => is_plain(sort - 8, payload),
        _ => is_plain(sort - 16, payload),
    }
}

// Whether all words are values of two words each.
#[tactic(auto, unfolding(rl_spec::specs::Boundary::are_values))]
fn are_values(words: &[u64]) -> bool
    ensures { result ≡ are_values words.now }
{
    let mut left = words;
    while let [sort, payload, rest @ ..] = left {
        if !is_value(*sort, *payload) {
            return false;
        }
        left = rest;
    }
    left.is_empty()
}

// How many values there are; 17 for more than sixteen, and for words that are no values.
#[tactic(auto, using(crate::proofs::ValueLaws::counts))]
fn count_of_words(words: &[u64]) -> u32
    ensures { result ≡ count_of_words words.now }
{
    let pairs = words.len() / 2;
    if pairs < 17 && are_values(words) {
        return pairs as u32;
    }
    17
}

// The first sixteen values, and how many there are.
pub fn arguments_of(words: &[u64]) -> Arguments
    ensures { result ≡ arguments_of words.now }
{
    let none = Argument {
        value: Value::Plain(Plain::Null),
    };
    let mut values = [none; 16];
    for i in 0..16 {
        let value = value_of_words(get_or(words, i * 2, 0), get_or(words, i * 2 + 1, 0));
        values[i] = Argument { value };
    }
    Arguments {
        values,
        count: count_of_words(words),
    }
}

// The four words of a run.
pub fn put_outcome(words: &mut [u64; 4], run: Run)
    ensures { words.new ≡ outcome_words run.outcome run.steps }
{
    let steps = u64::from(run.steps);
    *words = match run.outcome {
        Outcome::Returned(v) => [1, steps, value_sort(v), value_payload(v)],
        Outcome::Stopped(p) => {
            let v = Value::Plain(p);
            [2, steps, value_sort(v), value_payload(v)]
        }
        Outcome::Fault(k) => [3, steps, u64::from(k), 0],
        Outcome::Spent => [4, steps, 0, 0],
    };
}
