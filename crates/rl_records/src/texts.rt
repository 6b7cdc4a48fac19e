// Texts and list entries. They do not depend on where expressions and statements start.
ghost use Rattle.std.specs.Prelude.{◌≡◌, ℕ, ◌+◌, List};
ghost use Rattle.rl_spec.specs.Bytes.{u16_at};
ghost use Rattle.rl_spec.specs.Image.{num, pair, entry_of, text_of};
ghost use Rattle.rl_spec.specs.Ranges.{interval, optional};
ghost use Rattle.rl_spec.specs.Texts.{text_part};
ghost use Rattle.rl_records.specs.Found.{found_with};

use crate::ImageRef;
use rl_bytes::{part, second_u16, u16_at};
use rl_spec::{Interval, TextPart};

impl<'a> ImageRef<'a, '_> {
    // The k-th list entry.
    pub fn entry(self, k: u32) -> u16
        ensures { (p : List ℕ) → result ≡ entry_of (found_with self.entry p) k }
    {
        let counts = self.counts;
        if counts.lists as u32 <= k {
            return 0;
        }
        let lists = 23 + (counts.bytes as usize) + (counts.texts as usize) * 5;
        u16_at(self.bytes, lists + (k as usize) * 3 + 1)
    }

    // The bytes of a text, as a part of the image.
    pub fn text(self, t: u16) -> &'a [u8]
        ensures { (p : List ℕ) → result.now ≡ text_of (found_with self.entry p) t }
    {
        let counts = self.counts;
        let bytes = part(self.bytes, 23, counts.bytes as usize);
        if counts.texts <= t {
            return part(bytes, 0, 0);
        }
        let at = 23 + (counts.bytes as usize) + (t as usize) * 5 + 1;
        let offset = u16_at(self.bytes, at) as usize;
        let size = second_u16(self.bytes, at) as usize;
        part(bytes, offset, size)
    }

    // Where the bytes of a text are in the image.
    pub fn text_part(self, t: u16) -> TextPart
        ensures { (p : List ℕ) → result ≡ text_part (found_with self.entry p) t }
    {
        let counts = self.counts;
        if counts.texts <= t {
            return TextPart {
                start: 23,
                length: 0,
            };
        }
        let at = 23 + (counts.bytes as usize) + (t as usize) * 5 + 1;
        TextPart {
            start: 23 + (u16_at(self.bytes, at) as u32),
            length: second_u16(self.bytes, at) as u32,
        }
    }
}

// The first and the count of a list or a range.
pub fn interval_at(bytes: &[u8], at: usize) -> Interval
    ensures { result ≡ interval (pair (u16_at bytes.now at) (u16_at bytes.now (at + 2))) }
{
    Interval {
        first: u16_at(bytes, at),
        count: second_u16(bytes, at),
    }
}

// The index at a place; 65,535 means none.
pub fn optional_at(bytes: &[u8], at: usize) -> Option<u16>
    ensures { result ≡ optional (num (u16_at bytes.now at)) }
{
    let n = u16_at(bytes, at);
    if n == 65535 {
        return None;
    }
    Some(n)
}
