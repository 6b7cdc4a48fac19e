// The second pass: refinements that arguments fail, and requires that are false.
ghost use Rattle.std.specs.Prelude.{◌≡◌, List, ℕ, ◌<◌, ◌≤◌, ◌+◌};
ghost use Rattle.rl_spec.specs.Image.{Image, text_of};
ghost use Rattle.rl_spec.specs.Folded.{folded_of, op_of};
ghost use Rattle.rl_spec.specs.Fold.{Binding};
ghost use Rattle.rl_spec.specs.FnContracts.{operand_of};
ghost use Rattle.rl_spec.specs.Prove.{is_false, refine_bound, refutes};
ghost use Rattle.rl_fold.specs.Folding.{Names as Stand};
ghost use Rattle.rl_records.specs.Found.{found, found_with};
ghost use Rattle.rl_prover.specs.Violations.{FailsRefinement, FailsClause, ReportsRefinements, ReportsRequires};

use crate::reports::{Site, report_if};
use rl_fold::{const_eval, value_text};
use rl_names::Names;
use rl_records::ImageRef;
use rl_spec::{ConstVal, Interval, RefineOp, RefineOperand, Refinement, Violation};
use rl_values::compare_values;

// Whether a value provably fails a comparison; one that is missing fails none.
#[tactic(auto, using(rl_operators::proofs::Laws::compare_at), unfolding(rl_spec::specs::Prove::refutes))]
fn is_refuted(image: ImageRef, op: RefineOp, a: Option<ConstVal>, b: Option<ConstVal>) -> bool
    ensures { (p : List ℕ) → result ≡ refutes (text_of (found_with image.entry p)) (op_of op) (folded_of a) (folded_of b) }
{
    let (Some(x), Some(y)) = (a, b) else {
        return false;
    };
    compare_values(op, x, y, value_text(image, x), value_text(image, y)) == Some(false)
}

#[tactic(auto, using(crate::proofs::VerdictLaws::bound_param), unfolding(rl_spec::specs::Prove::refine_bound))]
fn refine_bound(names: Names, operand: RefineOperand) -> Option<ConstVal>
    ensures { (im : Image) (env : List (Binding ℕ)) → Stand im env names.entry.classes.now names.entry.words.now names.entry.count → folded_of result ≡ refine_bound (text_of im) env (operand_of operand) }
{
    match operand {
        RefineOperand::Integer(x) => Some(ConstVal::Int(x)),
        RefineOperand::Str(t) => Some(ConstVal::Str(t)),
        RefineOperand::Bool(b) => Some(ConstVal::Bool(b)),
        RefineOperand::Param(t) => names.lookup(t),
    }
}

fn fails_refinement(
    image: ImageRef,
    names: Names,
    memory: &mut [u64],
    refinement: Option<Refinement>,
    arg: u16,
) -> bool
    ensures { FailsRefinement (found image.entry) names.entry.classes.now names.entry.words.now names.entry.count memory.old refinement arg result memory.new }
{
    let Some(Refinement { op, operand }) = refinement else {
        return false;
    };
    let actual = const_eval(image, names, memory, arg);
    is_refuted(image, op, actual, refine_bound(names, operand))
}

fn is_false(v: Option<ConstVal>) -> bool
    ensures { result ≡ is_false (folded_of v) }
{
    matches!(v, Some(ConstVal::Bool(false)))
}

#[tactic(auto, using(crate::proofs::VerdictLaws::fails_clause))]
fn fails_clause(image: ImageRef, names: Names, memory: &mut [u64], condition: u16) -> bool
    ensures { FailsClause (found image.entry) names.entry.classes.now names.entry.words.now names.entry.count memory.old condition result memory.new }
{
    is_false(const_eval(image, names, memory, condition))
}

// Reports the refinements that arguments fail, each argument folded under all names. The memory is scratch: it stays right for them, and what
// else it holds then is left open.
pub fn report_refinements(
    image: ImageRef,
    names: Names,
    memory: &mut [u64],
    params: Interval,
    args: Interval,
    site: Site,
    reports: &mut [u32],
    start: usize,
) -> usize
    requires { start < 1125899906842624 }
    ensures reports_refinements { ReportsRefinements (found image.entry) names.entry.classes.now names.entry.words.now names.entry.count memory.old params args site.call site.span reports.old start memory.new reports.new result }
    ensures upper_bound { result ≤ start + 262140 }
{
    let mut at = start;
    for i in 0..params.count.min(args.count) {
        let arg = image.entry((args.first as u32) + (i as u32));
        let refinement = image.param((params.first as u32) + (i as u32)).refinement;
        let failed = fails_refinement(image, names, memory, refinement, arg);
        at = report_if(reports, at, site, failed, Violation::Refinement(i));
    }
    at
}

// Reports the requires that are false under all names. The memory is scratch here too.
pub fn report_requires(
    image: ImageRef,
    names: Names,
    memory: &mut [u64],
    clauses: Interval,
    site: Site,
    reports: &mut [u32],
    start: usize,
) -> usize
    requires { start < 1125899907104764 }
    ensures reports_requires { ReportsRequires (found image.entry) names.entry.classes.now names.entry.words.now names.entry.count memory.old clauses site.call site.span reports.old start memory.new reports.new result }
    ensures upper_bound { result ≤ start + 262140 }
{
    let mut at = start;
    for i in 0..clauses.count {
        let clause = image.clause((clauses.first as u32) + (i as u32));
        let failed = fails_clause(image, names, memory, clause.condition);
        at = report_if(reports, at, site, failed, Violation::Requires(i));
    }
    at
}
