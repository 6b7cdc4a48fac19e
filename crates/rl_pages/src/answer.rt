// The pages of an image, from its bytes.
ghost use Rattle.std.specs.Prelude.{◌≡◌, ◌≤◌, length};
ghost use Rattle.rl_spec.specs.Image.{image_of};
ghost use Rattle.rl_spec.specs.Fold.{work_unless};
ghost use Rattle.rl_spec.specs.Pages.{all_report_lines, lines_bytes, pages_of, pages_answer, pages_out, pages_number};
ghost use Rattle.rl_prover.specs.Reports.{kept_at};
ghost use Rattle.rl_pages.specs.Added.{Adds, answer_at};

use crate::lines::{Placed, put_call};
use crate::put::put_blanks;
use rl_lines::{OpenImage, open};
use rl_prover::memory_size;
use rl_records::ImageRef;
use rl_spec::{Cause, Refusal};

// The lines of all calls, in order, from the slice's start.
fn put_calls(opened: OpenImage, names: &mut [u64], memory: &mut [u64], pages: &mut [u8]) -> Placed
    requires in_bounds { 768 ≤ length names.old }
    ensures adds { Adds pages.old 0 (lines_bytes (all_report_lines (image_of opened.entry.image.bytes.now) opened.entry.image.counts.calls)) pages.new result.at }
    ensures lines_value { result.lines ≡ length (all_report_lines (image_of opened.entry.image.bytes.now) opened.entry.image.counts.calls) }
    ensures at_bound { result.at ≤ 38273024 }
{
    let mut at = 0;
    let mut lines: u32 = 0;
    for call in 0..opened.image.counts.calls {
        let placed = put_call(opened, call, names, memory, pages, at);
        at = placed.at;
        lines += placed.lines;
    }
    Placed { at, lines }
}

// The lines, and lines of spaces up to the end of the last page. Answers the place after them.
fn put_pages(opened: OpenImage, pages: &mut [u8]) -> usize
    ensures adds { Adds pages.old 0 (pages_of (image_of opened.entry.image.bytes.now) opened.entry.image.counts.calls) pages.new result }
    ensures upper_bound { result ≤ 38290544 }
{
    let mut names = [0u64; 768];
    let mut memory = [0u64; 8192];
    let size = memory_size(opened.image.counts);
    let placed = put_calls(opened, &mut names, &mut memory[..size], pages);
    let rest = placed.lines % 60;
    put_blanks(pages, placed.at, (60 - rest) % 60)
}

// Answers for bytes up to a place, or refuses a slice that is too short for them; then both slices are cleared.
#[tactic(auto, unfolding(crate::specs::Added::answer_at, rl_prover::specs::Reports::kept_at))]
fn answer_at(work: &mut [u16], pages: &mut [u8], at: usize) -> Result<u32, Refusal>
    requires { at ≤ 38290544 }
    ensures value { result ≡ answer_at (length pages.old) at }
    ensures pages_after { pages.new ≡ kept_at (length pages.old) at pages.old }
    ensures work_after { work.new ≡ kept_at (length pages.old) at work.old }
{
    if pages.len() < at {
        pages.fill(0);
        work.fill(0);
        return Err(Cause::PagesTooShort.into());
    }
    Ok(at as u32)
}

// Reads an image and puts the reports of all its calls on pages. 22 for a slice that is shorter than the pages.
#[tactic(auto, unfolding(rl_spec::specs::Pages::pages_answer))]
pub fn pages(image: &[u8], work: &mut [u16], pages: &mut [u8]) -> Result<u32, Refusal>
    ensures value { result ≡ pages_answer image.now (length work.old) (length pages.old) }
    ensures pages_after { pages.new ≡ pages_out image.now (length work.old) (length pages.old) }
    ensures work_after { work.new ≡ work_unless (pages_number (pages_answer image.now (length work.old) (length pages.old))) image.now (length work.old) }
{
    let mut starts = [0u16; 6144];
    let mut classes = [0u16; 2048];
    pages.fill(0);
    let counts = open(image, work, &mut starts, &mut classes)?.counts;
    let opened = OpenImage {
        image: ImageRef {
            bytes: image,
            starts: &starts,
            counts,
        },
        classes: &classes,
    };
    let at = put_pages(opened, pages);
    answer_at(work, pages, at)
}
