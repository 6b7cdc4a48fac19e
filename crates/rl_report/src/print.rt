// Copying the lines of an image to standard output, in the order of its calls. What the lines are is proved of `rl_lines`; what the
// operating system writes is not stated. Where it takes no more, nothing more is made.
ghost use Rattle.std.specs.Prelude.{◌≡◌, length};
ghost use Rattle.rl_spec.specs.Read.{work_of};

use rl_bytes::part;
use rl_lines::{OpenImage, Reported, lines_with, open, put_refused};
use rl_records::ImageRef;
use std::io;

fn print_calls(rt: &impl Print, opened: OpenImage, out: &mut [u8; 65536]) -> io::Result<()> {
    // scratch for all calls, so that none is cleared twice
    let mut names = [0u64; 768];
    let mut memory = [0u64; 8192];
    for call in 0..opened.image.counts.calls {
        let mut entries = [0u32; 2048];
        let lines = lines_with(opened, call, &mut names, &mut memory, &mut entries);
        let reported = Reported {
            image: opened.image,
            lines,
            entries: &entries,
        };
        for number in 0..lines.count {
            let n = reported.put_line(number, out);
            rt.write_all(part(out, 0, n))?;
        }
    }
    Ok(())
}

// Writes a line for each report of the image's calls, or one for its refusal. That the output takes no more is no failure here.
pub fn print_reports(rt: &impl Print, image: &[u8], work: &mut [u16])
    ensures { work.new ≡ work_of image.now (length work.old) }
{
    let mut starts = [0u16; 6144];
    let mut classes = [0u16; 2048];
    let mut out = [0u8; 65536];
    let _ = match open(image, work, &mut starts, &mut classes) {
        Ok(accepted) => {
            let opened = OpenImage {
                image: ImageRef {
                    bytes: image,
                    starts: &starts,
                    counts: accepted.counts,
                },
                classes: &classes,
            };
            print_calls(rt, opened, &mut out)
        }
        Err(refusal) => {
            let n = put_refused(refusal, &mut out);
            rt.write_all(part(&out, 0, n))
        }
    };
}
