// Replaying stored cases, for the programs that do. A case is the length of its image and further numbers, four bytes each, least
// byte first; then the image, and what else the program has behind it.
#![tactic(auto)]

ghost use Rattle.std.specs.Prelude.{◌≡◌, ◌<◌, ◌*◌, ◌++◌, length, drop, IfOk};
ghost use Rattle.std.specs.Iterator.{at_most};
ghost use Rattle.rl_spec.specs.Bytes.{u32_at};

mod answer;

pub use answer::{Refused, unpacked};
use rl_bytes::u32_at;
use rl_streams::read_full;
use std::io::Read;
use std::marker::PhantomData;

// Why replaying stops before the input's end: what is written in place of the case.
#[derive(Drop)]
pub struct BadCase(pub &'static str);

const CUT: BadCase = BadCase("input ends in a case");

#[derive(Clone, Copy)]
pub struct Case<'a> {
    head: &'a [u8],
    pub image: &'a [u8],
    pub tail: &'a [u8],
}

impl Case<'_> {
    // One of the numbers behind the image's length; 0 past the last.
    pub fn number(&self, i: u8) -> u32
        ensures { result ≡ u32_at self.now.head.now (4 * i) }
    {
        u32_at(self.head, 4 * usize::from(i))
    }
}

// What a program does with its cases.
pub trait Replay {
    // How many bytes stand between the image's length and the image.
    const HEAD: usize;

    // How many bytes follow the image, or why there can be no such case. Those that the input lacks are left out.
    fn tail_len(_head: &[u8]) -> Result<usize, BadCase> {
        Ok(0)
    }

    // That the output takes no more is no failure: what comes after is written all the same.
    fn replay(rt: &impl Print, case: &Case<'_>);
}

#[derive(Drop)]
struct Cases<'a, R> {
    rest: &'a [u8],
    of: PhantomData<R>,
}

impl<'a, R: Replay> Iterator for Cases<'a, R> {
    type Item = Result<Case<'a>, BadCase>;

    ghost remaining = { λ s. at_most (length s.rest.now) };

    fn next(&mut self) -> Option<Result<Case<'a>, BadCase>> {
        if self.rest.is_empty() {
            return None;
        }
        match first_case::<R>(self.rest) {
            Ok((case, rest)) => {
                self.rest = rest;
                Some(Ok(case))
            }
            Err(bad) => {
                self.rest = &[];
                Some(Err(bad))
            }
        }
    }
}

// The first n bytes, and those behind them.
fn split(bytes: &[u8], n: usize) -> Result<(&[u8], &[u8]), BadCase>
    ensures both { IfOk result (λ r. bytes.now ≡ r.0.now ++ r.1.now) }
    ensures first { IfOk result (λ r. length r.0.now ≡ n) }
{
    bytes.split_at_checked(n).ok_or(CUT)
}

// The same, or all and nothing where there are not so many.
fn split_within(bytes: &[u8], n: usize) -> (&[u8], &[u8])
    ensures { bytes.now ≡ result.0.now ++ result.1.now }
{
    bytes.split_at(n.min(bytes.len()))
}

// The case at the start, and what stands behind it.
fn first_case<R: Replay>(bytes: &[u8]) -> Result<(Case<'_>, &[u8]), BadCase>
    ensures parts { IfOk result (λ r. drop 4 bytes.now ≡ r.0.head.now ++ (r.0.image.now ++ (r.0.tail.now ++ r.1.now))) }
    ensures image { IfOk result (λ r. length r.0.image.now ≡ u32_at bytes.now 0) }
    ensures shrinks { IfOk result (λ r. length r.1.now < length bytes.now) }
{
    let (_, rest) = split(bytes, 4)?;
    let (head, rest) = split(rest, R::HEAD)?;
    let (image, rest) = split(rest, u32_at(bytes, 0) as usize)?;
    let (tail, rest) = split_within(rest, R::tail_len(head)?);
    Ok((Case { head, image, tail }, rest))
}

fn replay_all<R: Replay>(rt: &impl Print, input: &[u8]) -> Result<(), BadCase> {
    let cases = Cases {
        rest: input,
        of: PhantomData::<R>,
    };
    for case in cases {
        R::replay(rt, &case?);
    }
    Ok(())
}

// Replays the cases of the input, of which 262,144 bytes are read, in turn.
pub fn replay_input<R: Replay>(rt: &impl Print, from: &mut impl Read) {
    let mut input = [0u8; 262144];
    let n = read_full(from, &mut input);
    if let Err(BadCase(why)) = replay_all::<R>(rt, &input[..n]) {
        let _ = println!(rt; "{why}");
    }
}
