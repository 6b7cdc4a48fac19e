// Folding a node without names.
ghost use Rattle.std.specs.Prelude.{◌≡◌, [], length};
ghost use Rattle.rl_spec.specs.Fold.{fold_of, fold_number, work_unless};
ghost use Rattle.rl_records.specs.Found.{found};
ghost use Rattle.rl_fold.specs.Folding.{folded_at};

use rl_arena::node_of;
use rl_ast::read_starts;
use rl_fold::const_eval;
use rl_names::Names;
use rl_records::ImageRef;
use rl_spec::{Accepted, ConstVal, Id, Refusal};

fn fold_node(image: ImageRef, n: u16) -> Option<ConstVal>
    ensures { result ≡ folded_at (found image.entry) [] n }
{
    let none = Names {
        classes: &[],
        words: &[],
        count: 0,
    };
    let mut memory = [0u64; 8192];
    const_eval(image, none, &mut memory, n)
}

// Reads an image and folds one of its nodes. 15 for the id of another arena, 16 for a node that is not there.
pub fn fold(image: &[u8], work: &mut [u16], id: Id) -> Result<Option<ConstVal>, Refusal>
    ensures value { result ≡ fold_of image.now (length work.old) id }
    ensures work_after { work.new ≡ work_unless (fold_number (fold_of image.now (length work.old) id)) image.now (length work.old) }
{
    let mut starts = [0u16; 6144];
    let Accepted { arena, counts } = read_starts(image, work, &mut starts)?;
    match node_of(arena, counts, id) {
        Ok(n) => {
            let image = ImageRef {
                bytes: image,
                starts: &starts,
                counts,
            };
            Ok(fold_node(image, n))
        }
        Err(cause) => {
            work.fill(0);
            Err(cause.into())
        }
    }
}
