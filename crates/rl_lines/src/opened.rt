// What is found of an image once: where its records start, and the classes of its texts.
ghost use Rattle.std.specs.Prelude.{◌≡◌, length};
ghost use Rattle.rl_spec.specs.Read.{answer_of, work_of};
ghost use Rattle.rl_spec.specs.Image.{text_of, image_of};
ghost use Rattle.rl_names.specs.Names.{Classes};
ghost use Rattle.rl_lines.specs.Opened.{Known, Opened};

use rl_ast::read_starts;
use rl_classes::text_classes;
use rl_records::ImageRef;
use rl_spec::{Accepted, Refusal};

// An image that is open: its records, which are those of its accepted bytes, and the classes of its texts.
#[derive(Clone, Copy)]
pub struct OpenImage<'a> {
    pub image: ImageRef<'a, 'a>,
    pub classes: &'a [u16],
    ghost known: { ∥ Known image.bytes.now image.starts.now image.counts ∥₁ },
    ghost named: { Classes (text_of (image_of image.bytes.now)) classes.now },
}

// Reads an image, and finds where its records start and the classes of its texts. What the two hold after a refusal is left open.
pub fn open(
    image: &[u8],
    work: &mut [u16],
    starts: &mut [u16; 6144],
    classes: &mut [u16; 2048],
) -> Result<Accepted, Refusal>
    ensures value { result ≡ answer_of image.now (length work.old) }
    ensures work_after { work.new ≡ work_of image.now (length work.old) }
    ensures opened { Opened image.now starts.new classes.new result }
{
    let mut links = [0u64; 2048];
    let accepted = read_starts(image, work, starts)?;
    let source = ImageRef {
        bytes: image,
        starts,
        counts: accepted.counts,
    };
    text_classes(source, &mut links, classes);
    Ok(accepted)
}
