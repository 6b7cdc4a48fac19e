#![tactic(auto)]

ghost use Rattle.std.specs.Prelude.{◌≡◌, cond, [], ◌∷◌, ◌+◌, ◌<◌, length, drop};
ghost use Rattle.rl_text.specs.Highest.{highest_of};
ghost use Rattle.rl_spec.specs.Utf8.{◌to◌, utf8_tail, begins, char_width, utf8, is_scalar};

// Whether an octet from low to high stands at a place.
#[tactic(auto, using(crate::proofs::Laws::octet_laws))]
fn octet(s: &[u8], at: usize, low: u8, high: u8) -> bool
    ensures { result ≡ begins (low to high ∷ []) (drop at s.now) }
{
    at < s.len() && low <= s[at] && s[at] <= high
}

// 2 where a tail follows the octet at a place, else 0.
fn two(s: &[u8], at: usize) -> usize
    requires { at < length s.now }
    ensures { result ≡ cond (begins (utf8_tail ∷ []) (drop (at + 1) s.now)) 2 0 }
{
    if octet(s, at + 1, 0x80, 0xBF) { 2 } else { 0 }
}

// 3 where an octet from low to high and a tail follow, else 0.
#[tactic(auto, using(crate::proofs::Laws::three_laws))]
fn three(s: &[u8], at: usize, low: u8, high: u8) -> usize
    requires { at < length s.now }
    ensures { result ≡ cond (begins (low to high ∷ utf8_tail ∷ []) (drop (at + 1) s.now)) 3 0 }
{
    if octet(s, at + 1, low, high) && octet(s, at + 2, 0x80, 0xBF) {
        3
    } else {
        0
    }
}

// 4 where an octet from low to high and two tails follow, else 0.
#[tactic(auto, using(crate::proofs::Laws::four_laws))]
fn four(s: &[u8], at: usize, low: u8, high: u8) -> usize
    requires { at < length s.now }
    ensures { result ≡ cond (begins (low to high ∷ utf8_tail ∷ utf8_tail ∷ []) (drop (at + 1) s.now)) 4 0 }
{
    if octet(s, at + 1, low, high) && octet(s, at + 2, 0x80, 0xBF) && octet(s, at + 3, 0x80, 0xBF) {
        4
    } else {
        0
    }
}

// The length of the character that starts at a place, 0 where none does.
#[tactic(auto, using(crate::proofs::Laws::width_laws))]
pub fn char_width(s: &[u8], at: usize) -> usize
    ensures { result ≡ char_width s.now at }
{
    if s.len() <= at {
        return 0;
    }
    match s[at] {
        0x00..=0x7F => 1,
        0xC2..=0xDF => two(s, at),
        0xE0 => three(s, at, 0xA0, 0xBF),
        0xED => three(s, at, 0x80, 0x9F),
        0xE1..=0xEF => three(s, at, 0x80, 0xBF),
        0xF0 => four(s, at, 0x90, 0xBF),
        0xF1..=0xF3 => four(s, at, 0x80, 0xBF),
        0xF4 => four(s, at, 0x80, 0x8F),
        _ => 0,
    }
}

// The highest octet of a text. The compiler makes many octets a step of it.
#[tactic(auto, unfolding(crate::specs::Highest::highest_of))]
fn highest(s: &[u8]) -> u8
    ensures { result ≡ highest_of s.now (length s.now) }
{
    let mut m = 0;
    for octet in s {
        m = m.max(*octet);
    }
    m
}

// Whether a text is UTF-8. Of a long text it is first seen whether all of it is ASCII.
#[tactic(auto, using(crate::proofs::Laws::text_laws))]
pub fn is_utf8(s: &[u8]) -> bool
    ensures { result ≡ utf8 s.now }
{
    if 64 <= s.len() && highest(s) < 0x80 {
        return true;
    }
    let mut i = 0;
    while i < s.len() {
        if s[i] < 0x80 {
            i += 1;
        } else {
            let n = char_width(s, i);
            if n == 0 {
                return false;
            }
            i += n;
        }
    }
    true
}

// Whether a number is a Unicode scalar value.
#[tactic(auto, unfolding(rl_spec::specs::Utf8::is_scalar, rl_spec::specs::Utf8::within))]
pub fn is_scalar(c: u32) -> bool
    ensures { result ≡ is_scalar c }
{
    matches!(c, 0..=0xD7FF | 0xE000..=0x10FFFF)
}
