// The callee of a call.
ghost use Rattle.std.specs.Prelude.{◌≡◌, List, map, ℕ};
ghost use Rattle.rl_spec.specs.Image.{text_of};
ghost use Rattle.rl_spec.specs.Ranges.{numbers_in};
ghost use Rattle.rl_spec.specs.FnContracts.{param_of, any_refined, is_callee, callee_among};
ghost use Rattle.rl_names.specs.Names.{Classes};
ghost use Rattle.rl_records.specs.Found.{found_with};
ghost use Rattle.rl_prover.specs.Callees.{recorded, callee_in};

use rl_bytes::get_or;
use rl_records::ImageRef;
use rl_spec::{Function, Interval};

pub fn any_refined(image: ImageRef, params: Interval) -> bool
    ensures { (p : List ℕ) → result ≡ any_refined (map (param_of (found_with image.entry p)) (numbers_in params)) }
{
    let first = params.first as u32;
    for i in 0..(params.count as u32) {
        if image.param(first + i).refinement.is_some() {
            return true;
        }
    }
    false
}

// Whether a function is recorded: one without requires and without a refinement is not.
#[tactic(auto, unfolding(crate::specs::Callees::recorded))]
fn record_fn_contracts(image: ImageRef, function: Function) -> bool
    ensures { (p : List ℕ) → result ≡ recorded (found_with image.entry p) function }
{
    function.required.count != 0 || any_refined(image, function.params)
}

fn is_callee(image: ImageRef, classes: &[u16], name: u16, f: u16) -> bool
    ensures { (p : List ℕ) → Classes (text_of (found_with image.entry p)) classes.now → result ≡ is_callee (found_with image.entry p) (text_of (found_with image.entry p) name) f }
{
    let function = image.function(f);
    if get_or(classes, function.name as usize, 0) != get_or(classes, name as usize, 0) {
        return false;
    }
    record_fn_contracts(image, function)
}

// The last function of that name that has requires or a refinement.
pub fn find_callee(image: ImageRef, classes: &[u16], name: u16) -> Option<u16>
    ensures { (p : List ℕ) → Classes (text_of (found_with image.entry p)) classes.now → callee_in result ≡ callee_among (found_with image.entry p) (text_of (found_with image.entry p) name) image.entry.counts.functions }
{
    for n in (0..image.counts.functions).rev() {
        if is_callee(image, classes, name, n) {
            return Some(n);
        }
    }
    None
}
