// The lines and messages of a call that is proved once.
ghost use Rattle.std.specs.Prelude.{◌≡◌, ◌≤◌, ◌<◌, length};
ghost use Rattle.rl_spec.specs.Image.{image_of};
ghost use Rattle.rl_spec.specs.Printed.{refused_line, line_at};
ghost use Rattle.rl_spec.specs.Texts.{message_at};
ghost use Rattle.rl_lines.specs.Opened.{Known};
ghost use Rattle.rl_lines.specs.Lines.{padded, lines_for, entries_for, ReportAt};

use crate::opened::OpenImage;
use rl_line::{refused_line, report_line, report_message};
use rl_prover::{find_callee, prove_call};
use rl_records::ImageRef;
use rl_spec::{Refusal, Violation};

// The lines of a call: its number, its callee (0 without one), its span, and how many there are.
#[derive(Clone, Copy)]
pub struct Lines {
    pub call: u16,
    pub function: u16,
    pub span: u32,
    pub count: u32,
}

// A call of an image with its lines and the entries of its reports.
#[derive(Clone, Copy)]
pub struct Reported<'a> {
    pub image: ImageRef<'a, 'a>,
    pub lines: Lines,
    pub entries: &'a [u32; 2048],
    ghost known: { ∥ Known image.bytes.now image.starts.now image.counts ∥₁ },
    ghost proved: { lines ≡ lines_for (image_of image.bytes.now) lines.call },
    ghost reported: { entries.now ≡ entries_for (image_of image.bytes.now) lines.call },
}

// Proves a call: how many lines it has, and its reports. `names`, with room for all parameters, and `memory` are
// scratch.
pub fn lines_with(
    opened: OpenImage,
    call: u16,
    names: &mut [u64],
    memory: &mut [u64],
    reports: &mut [u32; 2048],
) -> Lines
    requires in_bounds { 768 ≤ length names.old }
    ensures value { result ≡ lines_for (image_of opened.entry.image.bytes.now) call }
    ensures reports_after { reports.new ≡ entries_for (image_of opened.entry.image.bytes.now) call }
{
    reports.fill(0);
    let end = prove_call(
        opened.image,
        opened.classes,
        call,
        names,
        memory,
        reports,
        0,
    );
    let record = opened.image.call(call);
    let function = find_callee(opened.image, opened.classes, record.callee).unwrap_or(0);
    Lines {
        call,
        function,
        span: record.span,
        count: (end / 4) as u32,
    }
}

// The same, with scratch of its own.
pub fn lines_of(opened: OpenImage, call: u16, reports: &mut [u32; 2048]) -> Lines
    ensures value { result ≡ lines_for (image_of opened.entry.image.bytes.now) call }
    ensures reports_after { reports.new ≡ entries_for (image_of opened.entry.image.bytes.now) call }
{
    let mut names = [0u64; 768];
    let mut memory = [0u64; 8192];
    lines_with(opened, call, &mut names, &mut memory, reports)
}

// The violation of the report of a number.
#[tactic(auto, using(crate::proofs::LineLaws::at_refinement, crate::proofs::LineLaws::at_requires))]
pub fn violation_at(reports: &[u32; 2048], number: u32) -> Violation
    requires { number < 512 }
    ensures { ReportAt reports.now number result }
{
    let at = (number as usize) * 4;
    let n = (reports[at + 3] % 65536) as u16;
    if reports[at + 2] == 0 {
        return Violation::Refinement(n);
    }
    Violation::Requires(n)
}

impl Reported<'_> {
    // Puts the line of a number, with its newline; nothing where the call has no such report.
    pub fn put_line(self, number: u32, out: &mut [u8; 65536]) -> usize
        ensures value { result ≡ length (line_at (image_of self.entry.image.bytes.now) self.entry.lines.call number) }
        ensures out_after { out.new ≡ padded 65536 (line_at (image_of self.entry.image.bytes.now) self.entry.lines.call number) }
    {
        let mut room = [0u8; 32800];
        out.fill(0);
        let lines = self.lines;
        if lines.count <= number {
            return 0;
        }
        let violation = violation_at(self.entries, number);
        report_line(
            self.image,
            lines.function,
            lines.call as u32,
            lines.span,
            violation,
            &mut room,
            out,
        )
    }

    // Puts the message of the report of a number; nothing where the call has no such report.
    pub fn put_message(self, number: u32, out: &mut [u8; 65535]) -> usize
        ensures value { result ≡ length (message_at (image_of self.entry.image.bytes.now) self.entry.lines.call number) }
        ensures out_after { out.new ≡ padded 65535 (message_at (image_of self.entry.image.bytes.now) self.entry.lines.call number) }
    {
        let mut room = [0u8; 32800];
        out.fill(0);
        let lines = self.lines;
        if lines.count <= number {
            return 0;
        }
        let violation = violation_at(self.entries, number);
        report_message(self.image, lines.function, violation, &mut room, out)
    }
}

// Puts the line of a refusal, with its newline.
pub fn put_refused(refusal: Refusal, out: &mut [u8; 65536]) -> usize
    ensures value { result ≡ length (refused_line refusal.cause refusal.place) }
    ensures out_after { out.new ≡ padded 65536 (refused_line refusal.cause refusal.place) }
{
    out.fill(0);
    refused_line(refusal, out)
}
