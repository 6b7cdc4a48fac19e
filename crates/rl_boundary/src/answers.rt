// Answers in one word: a refusal's number in the high 32 bits.
ghost use Rattle.std.specs.Prelude.{◌≡◌, ◌+◌, ◌*◌, ◌^◌, ◌≤◌, ℕ};
ghost use Rattle.rl_spec.specs.Read.{number_of};
ghost use Rattle.rl_spec.specs.Boundary.{above};
ghost use Rattle.rl_boundary.specs.Packing.{packed_by, place_of};

use rl_numbers::number_of;
use rl_spec::{Accepted, Refusal, TextPart};

// What an answer that refuses nothing says in the low 32 bits.
pub trait Says {
    ghost says: { Self → ℕ };

    fn word(self) -> u64
        ensures { result ≡ says self };
}

// An image that is accepted: 0.
impl Says for Accepted {
    ghost says = { λ a. 0 };

    fn word(self) -> u64 {
        0
    }
}

// The number of reports, the length of the image or of the message that is written, or of the pages.
impl Says for u32 {
    ghost says = { λ n. n };

    fn word(self) -> u64 {
        u64::from(self)
    }
}

// Where a text starts, and above 16 bits how many bytes it has.
impl Says for TextPart {
    ghost says = { λ part. part.start + part.length * 2 ^ 16 };

    fn word(self) -> u64 {
        u64::from(self.start) + u64::from(self.length) * 65536
    }
}

pub fn pack_refusal(refusal: Refusal) -> u64
    requires { refusal.place ≤ 65535 }
    ensures { result ≡ above (number_of refusal.cause) refusal.place }
{
    number_of(refusal.cause) * 4294967296 + (refusal.place as u64)
}

pub fn pack<T: Says>(answer: Result<T, Refusal>) -> u64
    requires { place_of answer ≤ 65535 }
    ensures { result ≡ packed_by T.says answer }
{
    match answer {
        Ok(said) => said.word(),
        Err(refusal) => pack_refusal(refusal),
    }
}
