// Whether an accepted image is lowered.
ghost use Rattle.std.specs.Prelude.{◌≡◌, take, drop};
ghost use Rattle.rl_spec.specs.Lowerer.{any_over};
ghost use Rattle.rl_admission.specs.Lowering.{tall_in, lowering_admission};

use rl_spec::{Cause, Counts};

// Whether one of n heights from a place on is over a limit.
#[tactic(auto, unfolding(rl_spec::specs::Lowerer::any_over))]
fn any_over(work: &[u16], from: u16, n: u16, most: u16) -> bool
    ensures { result ≡ any_over most (take n (drop from work.now)) }
{
    let rest = work.get((from as usize)..).unwrap_or(&[]);
    for height in rest.get(..(n as usize)).unwrap_or(rest) {
        if most < *height {
            return true;
        }
    }
    false
}

#[tactic(auto, unfolding(crate::specs::Lowering::tall_in))]
fn too_tall(work: &[u16], counts: Counts) -> bool
    ensures { result ≡ tall_in work.now counts }
{
    let expressions = counts.expressions;
    any_over(work, 0, expressions, 64) || any_over(work, expressions, counts.statements, 32)
}

// The checks in the table's order, of the heights in the work slice and of the room for the image.
#[tactic(auto, unfolding(crate::specs::Lowering::lowering_admission))]
pub fn admit_lowering(work: &[u16], counts: Counts, function: u32, room: usize) -> Result<(), Cause>
    ensures { result ≡ lowering_admission work.now counts function room }
{
    if counts.functions as u32 <= function {
        return Err(Cause::NoSuchFunction);
    }
    if too_tall(work, counts) {
        return Err(Cause::HeightOverLimit);
    }
    if room < 65535 {
        return Err(Cause::OutputTooShort);
    }
    Ok(())
}
