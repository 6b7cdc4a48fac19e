// Numbers and records as the bytes of an image.
#![tactic(auto)]

ghost use Rattle.std.specs.Prelude.{◌≡◌, ◌∷◌, ◌+◌, ◌≤◌, length};
ghost use Rattle.rl_spec.specs.Image.{bytes_of, encode_fields};
ghost use Rattle.rl_schema.specs.Codes.{codes};
ghost use Rattle.rl_encode.specs.Words.{word_fields, over};

use rl_bytes::get_or;
use rl_schema::{sort_of, width_of};

// A number in `width` bytes, little-endian.
#[tactic(auto, using(crate::proofs::Laws::number_laws))]
pub fn put_number(out: &mut [u8], at: usize, n: u64, width: usize)
    requires { at + width ≤ length out.old }
    ensures { out.new ≡ over out.old at (bytes_of width n) }
{
    let mut rest = n;
    for i in 0..width {
        out[at + i] = (rest % 256) as u8;
        rest /= 256;
    }
}

// The fields of a row of the schema, from words; answers the place after them.
fn put_fields(out: &mut [u8], at: usize, row: u64, words: &[u64]) -> usize
    requires { at + length (encode_fields (codes row) (word_fields (codes row) words.now 0)) ≤ length out.old }
    ensures value { result ≡ at + length (encode_fields (codes row) (word_fields (codes row) words.now 0)) }
    ensures out_after { out.new ≡ over out.old at (encode_fields (codes row) (word_fields (codes row) words.now 0)) }
{
    let mut rest = row;
    let mut place = at;
    let mut j = 0;
    // Not a `for` over the bytes of the row: it ends where its rest is 0, and a byte 0 before that is a code.
    while rest != 0 {
        let width = width_of(sort_of((rest % 256) as u8));
        put_number(out, place, get_or(words, j, 0), width);
        place += width;
        rest /= 256;
        j += 1;
    }
    place
}

// A record of a kind, whose row of the schema is given; answers the place after it.
#[tactic(auto, using(crate::proofs::Records::record_laws))]
pub fn put_record(out: &mut [u8], at: usize, kind: u8, row: u64, words: &[u64]) -> usize
    requires { at + length (kind ∷ encode_fields (codes row) (word_fields (codes row) words.now 0)) ≤ length out.old }
    ensures value { result ≡ at + length (kind ∷ encode_fields (codes row) (word_fields (codes row) words.now 0)) }
    ensures out_after { out.new ≡ over out.old at (kind ∷ encode_fields (codes row) (word_fields (codes row) words.now 0)) }
{
    put_number(out, at, kind as u64, 1);
    put_fields(out, at + 1, row, words)
}
