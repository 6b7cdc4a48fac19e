// What the answers of the exports say, as programs in Rattle read them.
ghost use Rattle.std.specs.Prelude.{◌≡◌, ◌==◌, if◌then◌else◌, ◌/◌, ◌%◌, ◌^◌, ◌++◌, codes, decimal, Some, Ok, Err};

use std::fmt;

// A refusal, by the number of its cause and its place.
#[derive(Drop)]
pub struct Refused {
    pub number: u32,
    pub place: u32,
}

impl fmt::Display for Refused {
    ghost output = { λ r. Some (codes "refused " ++ decimal r.number ++ codes " at " ++ decimal r.place) };

    fn fmt<W: fmt::Write>(&self, f: &mut fmt::Formatter<W>) -> fmt::Result {
        write!(f, "refused {} at {}", self.number, self.place)
    }
}

// The low 32 bits of an answer whose high ones are 0; else these are the number of a refusal.
pub fn unpacked(answer: u64) -> Result<u32, Refused>
    ensures { result ≡ (if answer / 2 ^ 32 == 0 then Ok (answer % 2 ^ 32) else Err (record { number = answer / 2 ^ 32; place = answer % 2 ^ 32 })) }
{
    let number = (answer >> 32) as u32;
    let place = (answer & 0xffff_ffff) as u32;
    if number == 0 {
        Ok(place)
    } else {
        Err(Refused { number, place })
    }
}
