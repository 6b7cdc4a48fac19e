// What is remembered of nodes that were folded under some names: two of the words that C lends for a node. They stay words, as `Right`,
// by which folding and proving promise what they remember, is over words, and an odd one at the end counts.
#![tactic(auto)]

ghost use Rattle.std.specs.Prelude.{◌≡◌, ℕ};
ghost use Rattle.rl_spec.specs.Answers.{Folded};
ghost use Rattle.rl_memory.specs.Memory.{recalled, recall_of, tag_word, remember_of, Right};

use rl_bytes::get_or;
use rl_spec::ConstVal;
use rl_words::{payload_word, sort_word, words_value};

// Some where the node's value, or that it has none, is known.
#[tactic(auto, unfolding(crate::specs::Memory::recalled))]
fn recalled_by(count: u16, tag: u64, payload: u64) -> Option<Option<ConstVal>>
    ensures { result ≡ recalled count tag payload }
{
    match tag {
        1..=4 => Some(words_value(tag, payload)),
        _ if tag == 5 + u64::from(count) => Some(None),
        _ => None,
    }
}

// What is known of a node under `count` names: None where nothing is.
#[tactic(auto, unfolding(crate::specs::Memory::recall_of))]
pub fn recall(memory: &[u64], count: u16, n: u16) -> Option<Option<ConstVal>>
    ensures { result ≡ recall_of memory.now count n }
{
    let at = usize::from(n) * 2;
    recalled_by(count, get_or(memory, at, 0), get_or(memory, at + 1, 0))
}

fn tag_word(count: u16, v: Option<ConstVal>) -> u64
    ensures { result ≡ tag_word count v }
{
    match v {
        None => 5 + u64::from(count),
        Some(_) => sort_word(v),
    }
}

// Remembers the value of a node, and hands it on. What was right stays right where this value is.
#[tactic(auto, using(crate::proofs::Laws::remember_keeps), unfolding(crate::specs::Memory::remember_of))]
pub fn remember(memory: &mut [u64], count: u16, n: u16, v: Option<ConstVal>) -> Option<ConstVal>
    ensures value { result ≡ v }
    ensures memory_after { memory.new ≡ remember_of memory.old count n v }
    ensures by_index { (f : ℕ → Folded) → Right f count memory.old → v ≡ f n → Right f count memory.new }
{
    let at = usize::from(n) * 2;
    let payload = payload_word(v);
    if at + 1 < memory.len() {
        memory[at] = tag_word(count, v);
        memory[at + 1] = payload;
    }
    v
}
