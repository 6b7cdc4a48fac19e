// Access to bytes and to words, for every place: what is past the end reads as a default and is not written.
#![tactic(auto)]

ghost use Rattle.std.specs.Prelude.{◌≡◌, ◌+◌, ◌-◌, get_or, set, take, drop};
ghost use Rattle.rl_spec.specs.Bytes.{num_at, u16_at, u32_at, past};

// The entry at a place, or the default where there is none.
pub fn get_or<T: Copy>(s: &[T], at: usize, default: T) -> T
    ensures { result ≡ get_or s.now at default }
{
    s.get(at).copied().unwrap_or(default)
}

// N bytes from a place on, those past the end as 0.
fn bytes_at<const N: usize>(s: &[u8], at: usize) -> [u8; N]
    ensures { num_at result 0 N ≡ num_at s.now at N }
{
    let there = part(s, at, N);
    // Most are whole, and then the compiler makes one load of it.
    if let Some(bytes) = there.first_chunk::<N>() {
        return *bytes;
    }
    let mut bytes = [0; N];
    bytes[..there.len()].copy_from_slice(there);
    bytes
}

#[tactic(auto, using(crate::proofs::Laws::two), unfolding(rl_spec::specs::Bytes::u16_at))]
pub fn u16_at(s: &[u8], at: usize) -> u16
    ensures { result ≡ u16_at s.now at }
{
    u16::from_le_bytes(bytes_at(s, at))
}

#[tactic(auto, using(crate::proofs::Laws::four), unfolding(rl_spec::specs::Bytes::u32_at, rl_spec::specs::Bytes::u16_at))]
pub fn u32_at(s: &[u8], at: usize) -> u32
    ensures { result ≡ u32_at s.now at }
{
    u32::from_le_bytes(bytes_at(s, at))
}

#[tactic(auto, unfolding(rl_spec::specs::Bytes::num_at))]
pub fn u64_at(s: &[u8], at: usize) -> u64
    ensures { result ≡ num_at s.now at 8 }
{
    u64::from_le_bytes(bytes_at(s, at))
}

// The second of two u16 at a place.
#[tactic(auto, using(crate::proofs::Laws::second))]
pub fn second_u16(s: &[u8], at: usize) -> u16
    ensures { result ≡ u16_at s.now (at + 2) }
{
    u16_at(part(s, at, 4), 2)
}

// The byte before a place; at place 0, that at 0.
pub fn byte_before(s: &[u8], at: usize) -> u8
    ensures { result ≡ get_or s.now (at - 1) 0 }
{
    get_or(s, at.saturating_sub(1), 0)
}

// The n bytes from a place on, or as many as there are.
pub fn part(s: &[u8], from: usize, n: usize) -> &[u8]
    ensures { result.now ≡ take n (drop from s.now) }
{
    let rest = &s[from.min(s.len())..];
    &rest[..n.min(rest.len())]
}

// Whether n bytes at a place run past the end.
#[tactic(auto, unfolding(rl_spec::specs::Bytes::past))]
pub fn is_past(s: &[u8], at: usize, n: usize) -> bool
    ensures { result ≡ past s.now at n }
{
    s.len() < at || s.len() - at < n
}

// Writes an entry where there is one.
pub fn put<T: Copy>(w: &mut [T], at: usize, x: T)
    ensures { w.new ≡ set w.old at x }
{
    if at < w.len() {
        w[at] = x;
    }
}
