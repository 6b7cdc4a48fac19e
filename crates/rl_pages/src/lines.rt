// The lines of a call's reports, behind what a slice of pages holds.
ghost use Rattle.std.specs.Prelude.{◌≡◌, ◌+◌, ◌≤◌, ◌<◌, length};
ghost use Rattle.rl_spec.specs.Image.{image_of};
ghost use Rattle.rl_spec.specs.Prove.{violations_of};
ghost use Rattle.rl_spec.specs.Pages.{report_lines, lines_bytes};
ghost use Rattle.rl_text_out.specs.Put.{after_text, with_text};
ghost use Rattle.rl_pages.specs.Added.{Adds, line_bytes};

use crate::put::put_behind;
use rl_bytes::part;
use rl_columns::put_page_line;
use rl_lines::{OpenImage, Reported, lines_with, violation_at};
use rl_message::{default_text, message};

// Where the next line goes, and how many there are.
#[derive(Clone, Copy)]
pub struct Placed {
    pub at: usize,
    pub lines: u32,
}

// Puts the line of the report of a number. Of its default text no more is made than the field can show: 39 scalars have at most 156 bytes.
fn put_report_line(call: Reported, number: u32, out: &mut [u8]) -> usize
    requires number_lt_count { number < call.lines.count }
    ensures value { result ≡ after_text out.old 0 (line_bytes (image_of call.entry.image.bytes.now) call.entry.lines.call number) }
    ensures out_after { out.new ≡ with_text out.old 0 (line_bytes (image_of call.entry.image.bytes.now) call.entry.lines.call number) }
{
    let mut room = [0u8; 156];
    let image = call.image;
    let lines = call.lines;
    let violation = violation_at(call.entries, number);
    let n = default_text(image, lines.function, violation, &mut room);
    let text = message(image, lines.function, violation, part(&room, 0, n));
    let record = image.call(lines.call);
    let callee = image.text(record.callee);
    put_page_line(out, lines.call as u32, lines.span, callee, text)
}

// Puts the line of the report of a number behind what the slice holds.
fn put_report(call: Reported, number: u32, pages: &mut [u8], at: usize) -> usize
    requires number_lt_count { number < call.lines.count }
    requires at_bound { at ≤ 1099511627776 }
    ensures adds { Adds pages.old at (line_bytes (image_of call.entry.image.bytes.now) call.entry.lines.call number) pages.new result }
    ensures upper_bound { result ≤ at + 292 }
{
    let mut line = [0u8; 292];
    let n = put_report_line(call, number, &mut line);
    put_behind(pages, at, part(&line, 0, n))
}

fn put_reports(call: Reported, pages: &mut [u8], at: usize) -> usize
    requires at_bound { at ≤ 549755813888 }
    ensures adds { Adds pages.old at (lines_bytes (report_lines (image_of call.entry.image.bytes.now) call.entry.lines.call)) pages.new result }
    ensures upper_bound { result ≤ at + 149504 }
{
    let mut place = at;
    for number in 0..call.lines.count {
        place = put_report(call, number, pages, place);
    }
    place
}

// Proves a call and puts the lines of its reports. `names`, with room for all parameters, and `memory` are scratch.
pub fn put_call(
    opened: OpenImage,
    call: u16,
    names: &mut [u64],
    memory: &mut [u64],
    pages: &mut [u8],
    at: usize,
) -> Placed
    requires in_bounds { 768 ≤ length names.old }
    requires at_bound { at ≤ 549755813888 }
    ensures adds { Adds pages.old at (lines_bytes (report_lines (image_of opened.entry.image.bytes.now) call)) pages.new result.at }
    ensures lines_value { result.lines ≡ length (violations_of (image_of opened.entry.image.bytes.now) call) }
    ensures at_bound_2 { result.at ≤ at + 149504 }
{
    let mut entries = [0u32; 2048];
    let lines = lines_with(opened, call, names, memory, &mut entries);
    let reported = Reported {
        image: opened.image,
        lines,
        entries: &entries,
    };
    let end = put_reports(reported, pages, at);
    Placed {
        at: end,
        lines: lines.count,
    }
}
