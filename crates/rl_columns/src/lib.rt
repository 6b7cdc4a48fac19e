// The fields of a page's line and the line itself, put into a lent buffer at a place; each function answers the place after what it put.
// What has no room is left out.
#![tactic(auto)]

ghost use Rattle.std.specs.Prelude.{◌≡◌, ◌++◌, drop};
ghost use Rattle.rl_spec.specs.Utf8.{char_width, encode_scalar, encode_text};
ghost use Rattle.rl_spec.specs.Message.{decimal};
ghost use Rattle.rl_spec.specs.Pages.{spaces, left, right, page_line, ended};
ghost use Rattle.rl_columns.specs.Columns.{column_of};
ghost use Rattle.rl_text_out.specs.Put.{after_text, with_text};

use rl_bytes::part;
use rl_text::char_width;
use rl_text_out::{Out, put_number};

// What one column shows: a space behind the text's end, ? for a scalar below 32, else the scalar's octets.
#[tactic(auto, using(crate::proofs::ColumnLaws::column_laws))]
fn column(text: &[u8], i: usize, width: usize) -> &[u8]
    requires { width ≡ char_width text.now i }
    ensures { result.now ≡ encode_scalar (column_of (drop i text.now)) }
{
    if width == 0 {
        return b" ";
    }
    if text[i] < 32 {
        return b"?";
    }
    part(text, i, width)
}

// A text from the left of a field of so many columns.
#[tactic(auto, using(crate::proofs::ColumnLaws::left_laws))]
fn put_from_left(out: &mut Out, text: &[u8], columns: usize)
    ensures same_reference { out.new.bytes.ghost_name ≡ out.old.bytes.ghost_name }
    ensures bytes { out.new.bytes.now ≡ with_text out.old.bytes.now out.old.at (encode_text (left columns text.now)) }
    ensures at { out.new.at ≡ after_text out.old.bytes.now out.old.at (encode_text (left columns text.now)) }
{
    let mut i = 0;
    for _ in 0..columns {
        let width = char_width(text, i);
        out.text(column(text, i, width));
        i += width;
    }
}

// The same into a buffer at a place; answers the place after it.
pub fn put_left(out: &mut [u8], at: usize, text: &[u8], columns: usize) -> usize
    ensures value { result ≡ after_text out.old at (encode_text (left columns text.now)) }
    ensures out_after { out.new ≡ with_text out.old at (encode_text (left columns text.now)) }
{
    let mut out = Out { bytes: out, at };
    put_from_left(&mut out, text, columns);
    out.at
}

// A number to the right of a field of so many columns.
fn put_right(out: &mut Out, n: u64, columns: usize)
    ensures same_reference { out.new.bytes.ghost_name ≡ out.old.bytes.ghost_name }
    ensures bytes { out.new.bytes.now ≡ with_text out.old.bytes.now out.old.at (encode_text (right columns (decimal n))) }
    ensures at { out.new.at ≡ after_text out.old.bytes.now out.old.at (encode_text (right columns (decimal n))) }
{
    let mut digits = [0u8; 20];
    let count = put_number(&mut digits, 0, n);
    let shown = count.min(columns);
    put_from_left(out, b"", columns - shown);
    put_from_left(out, part(&digits, 0, count), shown);
}

// The line of a report with its newline.
pub fn put_page_line(out: &mut [u8], call: u32, span: u32, callee: &[u8], message: &[u8]) -> usize
    ensures value { result ≡ after_text out.old 0 (encode_text (ended (page_line call span callee.now message.now))) }
    ensures out_after { out.new ≡ with_text out.old 0 (encode_text (ended (page_line call span callee.now message.now))) }
{
    let mut out = Out { bytes: out, at: 0 };
    put_right(&mut out, call as u64, 4);
    out.text(b" ");
    put_right(&mut out, span as u64, 10);
    out.text(b" ");
    put_from_left(&mut out, callee, 16);
    out.text(b" ");
    put_from_left(&mut out, message, 39);
    out.text(b"\n");
    out.at
}

// A line of spaces with its newline.
pub fn put_blank_line(out: &mut [u8]) -> usize
    ensures value { result ≡ after_text out.old 0 (encode_text (ended (spaces 72))) }
    ensures out_after { out.new ≡ with_text out.old 0 (encode_text (ended (spaces 72))) }
{
    let mut out = Out { bytes: out, at: 0 };
    put_from_left(&mut out, b"", 72);
    out.text(b"\n");
    out.at
}
