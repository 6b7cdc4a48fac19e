// Where a text's bytes are in the image.
ghost use Rattle.std.specs.Prelude.{◌≡◌, length};
ghost use Rattle.rl_spec.specs.Fold.{work_unless};
ghost use Rattle.rl_spec.specs.Texts.{text_for, text_number};

use rl_ast::read_starts;
use rl_records::ImageRef;
use rl_spec::{Cause, Refusal, TextPart};

// Reads an image and finds one of its texts. 20 for a text that is not there.
#[tactic(auto, unfolding(rl_spec::specs::Texts::text_for))]
pub fn text(image: &[u8], work: &mut [u16], number: u32) -> Result<TextPart, Refusal>
    ensures value { result ≡ text_for image.now (length work.old) number }
    ensures work_after { work.new ≡ work_unless (text_number (text_for image.now (length work.old) number)) image.now (length work.old) }
{
    let mut starts = [0u16; 6144];
    let counts = read_starts(image, work, &mut starts)?.counts;
    if counts.texts as u32 <= number {
        work.fill(0);
        return Err(Cause::NoSuchText.into());
    }
    let source = ImageRef {
        bytes: image,
        starts: &starts,
        counts,
    };
    Ok(source.text_part(number as u16))
}
