// The functions that C and Rust call. `rl_abi_c` exports them.
#![tactic(auto)]

ghost use Rattle.std.specs.Prelude.{◌≡◌, length};
ghost use Rattle.rl_spec.specs.Read.{packed, answer_of, work_of};
ghost use Rattle.rl_spec.specs.Fold.{fold_of, fold_number, work_unless};
ghost use Rattle.rl_spec.specs.Prove.{prove_of, reports_of, prove_all_of, all_reports_of, prove_number};
ghost use Rattle.rl_spec.specs.Lowerer.{lower_of, lower_answer, lower_number, lower_out};
ghost use Rattle.rl_spec.specs.Runner.{run_of, run_number};
ghost use Rattle.rl_spec.specs.Texts.{text_for, text_number, message_answer, message_out, message_number};
ghost use Rattle.rl_spec.specs.Pages.{pages_answer, pages_out, pages_number};
ghost use Rattle.rl_spec.specs.Boundary.{prove_packed, lower_packed, id_of, fold_packed, fold_words, arguments_of, run_packed, run_words, text_packed, message_packed, pages_packed};

use rl_boundary::{arguments_of, pack, pack_refusal, put_outcome, put_value};
use rl_spec::{ArenaNo, Id, NodeNo};

// Reads an image. The high 32 bits are the refusal's number, 0 where the image is accepted, and the low 32 bits its place.
#[tactic(auto, using(crate::proofs::Laws::read_near, crate::proofs::Laws::read_packed))]
pub fn rl_read(image: &[u8], work: &mut [u16]) -> u64
    ensures value { result ≡ packed (answer_of image.now (length work.old)) }
    ensures work_after { work.new ≡ work_of image.now (length work.old) }
{
    pack(rl_ast::read(image, work))
}

// Reads an image and folds a node without names. value[0]: 0 none, 1 Int, 2 Float, 3 Str, 4 Bool; value[1]: the i64's or f64's
// bits, the text's index, 0 or 1.
#[tactic(auto, using(crate::proofs::Laws::folding))]
pub fn rl_fold(image: &[u8], work: &mut [u16], arena: u32, node: u32, value: &mut [u64; 2]) -> u64
    ensures value { result ≡ fold_packed (fold_of image.now (length work.old) (id_of arena node)) }
    ensures value_after { value.new ≡ fold_words (fold_of image.now (length work.old) (id_of arena node)) }
    ensures work_after { work.new ≡ work_unless (fold_number (fold_of image.now (length work.old) (id_of arena node))) image.now (length work.old) }
{
    let id = Id {
        arena: ArenaNo(arena),
        node: NodeNo(node),
    };
    match rl_checker::fold(image, work, id) {
        Ok(v) => {
            put_value(value, v);
            0
        }
        Err(refusal) => {
            put_value(value, None);
            pack_refusal(refusal)
        }
    }
}

// Reads an image and proves a call. The low 32 bits are the number of reports, each four u32: call, span, 0 refinement or 1
// requires, the parameter's or clause's number in the callee's list.
#[tactic(auto, using(crate::proofs::Laws::prove_near, crate::proofs::Laws::prove_packed_lem))]
pub fn rl_prove(image: &[u8], work: &mut [u16], call: u32, reports: &mut [u32]) -> u64
    ensures value { result ≡ prove_packed (prove_of image.now (length work.old) call (length reports.old)) }
    ensures reports_after { reports.new ≡ reports_of image.now (length work.old) call (length reports.old) }
    ensures work_after { work.new ≡ work_unless (prove_number (prove_of image.now (length work.old) call (length reports.old))) image.now (length work.old) }
{
    pack(rl_checker::prove(image, work, call, reports))
}

// The same for all calls in order; the image is read once.
#[tactic(auto, using(crate::proofs::Laws::all_near, crate::proofs::Laws::all_packed))]
pub fn rl_prove_all(image: &[u8], work: &mut [u16], reports: &mut [u32]) -> u64
    ensures value { result ≡ prove_packed (prove_all_of image.now (length work.old) (length reports.old)) }
    ensures reports_after { reports.new ≡ all_reports_of image.now (length work.old) (length reports.old) }
    ensures work_after { work.new ≡ work_unless (prove_number (prove_all_of image.now (length work.old) (length reports.old))) image.now (length work.old) }
{
    pack(rl_checker::prove_all(image, work, reports))
}

// Reads an image and runs a function on values, two words each, within a budget. outcome[0]: 1 Returned, 2 Stopped, 3 Fault, 4 Spent;
// outcome[1]: the steps; outcome[2] and [3]: the value's words, or the fault's number and 0. Words that are no values are 19.
#[tactic(auto, using(crate::proofs::RunLaws::running))]
pub fn rl_run(
    image: &[u8],
    work: &mut [u16],
    function: u32,
    values: &[u64],
    budget: u32,
    outcome: &mut [u64; 4],
) -> u64
    ensures value { result ≡ run_packed (run_of image.now (length work.old) function (arguments_of values.now) budget) }
    ensures outcome_after { outcome.new ≡ run_words (run_of image.now (length work.old) function (arguments_of values.now) budget) }
    ensures work_after { work.new ≡ work_unless (run_number (run_of image.now (length work.old) function (arguments_of values.now) budget)) image.now (length work.old) }
{
    match rl_runner::run(image, work, function, arguments_of(values), budget) {
        Ok(run) => {
            put_outcome(outcome, run);
            0
        }
        Err(refusal) => {
            *outcome = [0; 4];
            pack_refusal(refusal)
        }
    }
}

// Reads an image and lowers the contracts of a function into plain guards. The low 32 bits are the length of the image written.
#[tactic(auto, using(crate::proofs::LowerLaws::lower_near, crate::proofs::LowerLaws::lower_packed_lem))]
pub fn rl_lower(image: &[u8], work: &mut [u16], function: u32, out: &mut [u8]) -> u64
    ensures value { result ≡ lower_packed (lower_answer (lower_of image.now (length work.old) function (length out.old))) }
    ensures out_after { out.new ≡ lower_out (length out.old) (lower_of image.now (length work.old) function (length out.old)) }
    ensures work_after { work.new ≡ work_unless (lower_number (lower_of image.now (length work.old) function (length out.old))) image.now (length work.old) }
{
    pack(rl_resolver::lower(image, work, function, out))
}

// Reads an image and finds a text. The low 32 bits: where its bytes start in the image, and above 16 of them how many they are.
#[tactic(auto, using(crate::proofs::TextLaws::text_near, crate::proofs::TextLaws::text_packed_lem))]
pub fn rl_text(image: &[u8], work: &mut [u16], text: u32) -> u64
    ensures value { result ≡ text_packed (text_for image.now (length work.old) text) }
    ensures work_after { work.new ≡ work_unless (text_number (text_for image.now (length work.old) text)) image.now (length work.old) }
{
    pack(rl_lines::text(image, work, text))
}

// Reads an image and puts the message of a call's report of a number, from 0. The low 32 bits are its length, 0 where the call has no
// such report.
#[tactic(auto, using(crate::proofs::TextLaws::message_near, crate::proofs::TextLaws::message_packed_lem))]
pub fn rl_message(
    image: &[u8],
    work: &mut [u16],
    call: u32,
    report: u32,
    out: &mut [u8; 65535],
) -> u64
    ensures value { result ≡ message_packed (message_answer image.now (length work.old) call report) }
    ensures out_after { out.new ≡ message_out image.now (length work.old) call report }
    ensures work_after { work.new ≡ work_unless (message_number (message_answer image.now (length work.old) call report)) image.now (length work.old) }
{
    pack(rl_lines::message(image, work, call, report, out))
}

// Reads an image and puts the reports of all its calls on pages, in order and one a line: 60 lines of 72 columns and a newline each. The
// low 32 bits are how many bytes are written, 0 without reports; 22 where the slice is shorter than the pages.
#[tactic(auto, using(crate::proofs::TextLaws::pages_near, crate::proofs::TextLaws::pages_packed_lem))]
pub fn rl_pages(image: &[u8], work: &mut [u16], pages: &mut [u8]) -> u64
    ensures value { result ≡ pages_packed (pages_answer image.now (length work.old) (length pages.old)) }
    ensures pages_after { pages.new ≡ pages_out image.now (length work.old) (length pages.old) }
    ensures work_after { work.new ≡ work_unless (pages_number (pages_answer image.now (length work.old) (length pages.old))) image.now (length work.old) }
{
    pack(rl_pages::pages(image, work, pages))
}
