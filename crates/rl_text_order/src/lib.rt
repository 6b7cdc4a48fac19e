// Texts: equal, and ordered by their bytes. Eight bytes are compared at a step where both texts have eight more, the last ones one by one.
#![tactic(auto)]

ghost use Rattle.std.specs.Prelude.{◌≡◌, ◌+◌, ◌≤◌, length};
ghost use Rattle.rl_laws.specs.Words.{Word};
ghost use Rattle.rl_spec.specs.Values.{same_text, less_text};

// Whether two texts are the same, byte by byte.
#[tactic(auto, using(crate::proofs::Laws::same_lengths), unfolding(rl_spec::specs::Values::same_text))]
pub fn same_bytes(a: &[u8], b: &[u8]) -> bool
    ensures { result ≡ same_text a.now b.now }
{
    if a.len() != b.len() {
        return false;
    }
    for i in 0..a.len() {
        if a[i] != b[i] {
            return false;
        }
    }
    true
}

// Whether a text is less than another, byte by byte.
#[tactic(auto, using(crate::proofs::Laws::less_ended), unfolding(rl_spec::specs::Values::less_text))]
pub fn less_bytes(a: &[u8], b: &[u8]) -> bool
    ensures { result ≡ less_text a.now b.now }
{
    for i in 0..a.len().min(b.len()) {
        if a[i] != b[i] {
            return a[i] < b[i];
        }
    }
    a.len() < b.len()
}

// Eight bytes as one number, the first byte highest.
#[tactic(auto, using(crate::proofs::Laws::word_is))]
pub fn u64_be_at(s: &[u8], at: usize) -> u64
    requires { at + 8 ≤ length s.now }
    ensures { Word s.now at result }
{
    u64::from_be_bytes([
        s[at],
        s[at + 1],
        s[at + 2],
        s[at + 3],
        s[at + 4],
        s[at + 5],
        s[at + 6],
        s[at + 7],
    ])
}

// Whether two texts are the same.
#[tactic(auto, using(crate::proofs::Laws::same_laws))]
pub fn same_text(a: &[u8], b: &[u8]) -> bool
    ensures { result ≡ same_text a.now b.now }
{
    let n = a.len();
    if n < 8 {
        return same_bytes(a, b);
    }
    if b.len() != n {
        return false;
    }
    let mut i = 0;
    // No plainer with `for`: the place where no word is left is used after the loop.
    while 8 <= n - i {
        let x = u64_be_at(a, i);
        let y = u64_be_at(b, i);
        if x != y {
            return false;
        }
        i += 8;
    }
    same_bytes(&a[i..n], &b[i..n])
}

// Whether a text is less than another. The first byte decides most.
#[tactic(auto, using(crate::proofs::Laws::less_laws))]
pub fn less_text(a: &[u8], b: &[u8]) -> bool
    ensures { result ≡ less_text a.now b.now }
{
    if a.is_empty() || b.is_empty() {
        return a.len() < b.len();
    }
    if a[0] != b[0] {
        return a[0] < b[0];
    }
    if a.len() < 8 {
        return less_bytes(a, b);
    }
    let n = a.len().min(b.len());
    let mut i = 0;
    // As in `same_text`.
    while 8 <= n - i {
        let x = u64_be_at(a, i);
        let y = u64_be_at(b, i);
        if x != y {
            return x < y;
        }
        i += 8;
    }
    less_bytes(&a[i..], &b[i..])
}
