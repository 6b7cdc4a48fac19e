// The message of a call's report, from the image's bytes.
ghost use Rattle.std.specs.Prelude.{◌≡◌, length};
ghost use Rattle.rl_spec.specs.Image.{image_of};
ghost use Rattle.rl_spec.specs.Fold.{work_unless};
ghost use Rattle.rl_spec.specs.Texts.{message_at, message_answer, message_out, message_number};
ghost use Rattle.rl_lines.specs.Lines.{padded};

use crate::lines::{Reported, lines_of};
use crate::opened::{OpenImage, open};
use rl_records::ImageRef;
use rl_spec::{Cause, Refusal};

fn message_in(opened: OpenImage, call: u16, report: u32, out: &mut [u8; 65535]) -> usize
    ensures value { result ≡ length (message_at (image_of opened.entry.image.bytes.now) call report) }
    ensures out_after { out.new ≡ padded 65535 (message_at (image_of opened.entry.image.bytes.now) call report) }
{
    let mut entries = [0u32; 2048];
    let lines = lines_of(opened, call, &mut entries);
    let reported = Reported {
        image: opened.image,
        lines,
        entries: &entries,
    };
    reported.put_message(report, out)
}

// Reads an image and puts the message of a call's report of a number, from 0. 17 for a call that is not there.
#[tactic(auto, unfolding(rl_spec::specs::Texts::message_answer))]
pub fn message(
    image: &[u8],
    work: &mut [u16],
    call: u32,
    report: u32,
    out: &mut [u8; 65535],
) -> Result<u32, Refusal>
    ensures value { result ≡ message_answer image.now (length work.old) call report }
    ensures out_after { out.new ≡ message_out image.now (length work.old) call report }
    ensures work_after { work.new ≡ work_unless (message_number (message_answer image.now (length work.old) call report)) image.now (length work.old) }
{
    let mut starts = [0u16; 6144];
    let mut classes = [0u16; 2048];
    out.fill(0);
    let counts = open(image, work, &mut starts, &mut classes)?.counts;
    if counts.calls as u32 <= call {
        work.fill(0);
        return Err(Cause::NoSuchCall.into());
    }
    let source = ImageRef {
        bytes: image,
        starts: &starts,
        counts,
    };
    let opened = OpenImage {
        image: source,
        classes: &classes,
    };
    let n = message_in(opened, call as u16, report, out);
    Ok(n as u32)
}
