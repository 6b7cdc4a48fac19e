// The line of a report, its message, and the line of a refusal, from the start of a lent buffer on. What has no room is left out.
#![tactic(auto)]

ghost use Rattle.std.specs.Prelude.{◌≡◌, ◌++◌, ◌≤◌, length};
ghost use Rattle.rl_spec.specs.Message.{default_text, message_by, opening};
ghost use Rattle.rl_spec.specs.Printed.{refused_line, line_with, line_of};
ghost use Rattle.rl_records.specs.Found.{found};
ghost use Rattle.rl_text_out.specs.Put.{after_text, with_text};

use rl_bytes::part;
use rl_message::{default_text, message};
use rl_numbers::number_of;
use rl_records::ImageRef;
use rl_spec::{Refusal, Violation};
use rl_text_out::Out;

// refused N at P
pub fn refused_line(refusal: Refusal, out: &mut [u8]) -> usize
    ensures value { result ≡ after_text out.old 0 (refused_line refusal.cause refusal.place) }
    ensures out_after { out.new ≡ with_text out.old 0 (refused_line refusal.cause refusal.place) }
{
    let mut line = Out { bytes: out, at: 0 };
    line.text(b"refused ");
    line.number(number_of(refusal.cause));
    line.text(b" at ");
    line.number(refusal.place as u64);
    line.text(b"\n");
    line.at
}

// contract violation (proven at compile time): TEXT
fn put_message(line: &mut Out, text: &[u8])
    ensures same_reference { line.new.bytes.ghost_name ≡ line.old.bytes.ghost_name }
    ensures bytes { line.new.bytes.now ≡ with_text line.old.bytes.now line.old.at (opening ++ text.now) }
    ensures at { line.new.at ≡ after_text line.old.bytes.now line.old.at (opening ++ text.now) }
{
    line.text(b"contract violation (proven at compile time): ");
    line.text(text);
}

// CALL SPAN and the message of a text
fn put_line(call: u32, span: u32, text: &[u8], out: &mut [u8]) -> usize
    ensures value { result ≡ after_text out.old 0 (line_with call span text.now) }
    ensures out_after { out.new ≡ with_text out.old 0 (line_with call span text.now) }
{
    let mut line = Out { bytes: out, at: 0 };
    line.number(call as u64);
    line.text(b" ");
    line.number(span as u64);
    line.text(b" ");
    put_message(&mut line, text);
    line.text(b"\n");
    line.at
}

// The line of a violation of the function's contracts. The room is for the default text.
pub fn report_line(
    image: ImageRef,
    function: u16,
    call: u32,
    span: u32,
    violation: Violation,
    room: &mut [u8],
    out: &mut [u8],
) -> usize
    ensures value { length (default_text (found image.entry) function violation) ≤ length room.old → result ≡ after_text out.old 0 (line_of (found image.entry) function call span violation) }
    ensures out_after { length (default_text (found image.entry) function violation) ≤ length room.old → out.new ≡ with_text out.old 0 (line_of (found image.entry) function call span violation) }
    ensures room_after { room.new ≡ with_text room.old 0 (default_text (found image.entry) function violation) }
{
    let n = default_text(image, function, violation, room);
    let text = message(image, function, violation, part(room, 0, n));
    put_line(call, span, text, out)
}

// Its message alone.
pub fn report_message(
    image: ImageRef,
    function: u16,
    violation: Violation,
    room: &mut [u8],
    out: &mut [u8],
) -> usize
    ensures value { length (default_text (found image.entry) function violation) ≤ length room.old → result ≡ after_text out.old 0 (opening ++ message_by (found image.entry) function violation) }
    ensures out_after { length (default_text (found image.entry) function violation) ≤ length room.old → out.new ≡ with_text out.old 0 (opening ++ message_by (found image.entry) function violation) }
    ensures room_after { room.new ≡ with_text room.old 0 (default_text (found image.entry) function violation) }
{
    let n = default_text(image, function, violation, room);
    let text = message(image, function, violation, part(room, 0, n));
    let mut whole = Out { bytes: out, at: 0 };
    put_message(&mut whole, text);
    whole.at
}
