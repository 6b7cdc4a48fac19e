// Statements that hold statements, by their parts.
ghost use Rattle.std.specs.Prelude.{◌≡◌};
ghost use Rattle.rl_records.specs.Found.{found};
ghost use Rattle.rl_statements.specs.Views.{branch_of, else_of, compound_of, BranchIs, ElseIs, CompoundIs};

use crate::types::{Block, CompoundForm, ElseForm};
use rl_records::ImageRef;
use rl_spec::StatementForm;

// The list of a branch or a loop at an index: its statements are below it.
fn branch_of(form: StatementForm, b: u16) -> Option<Block>
    ensures { result ≡ branch_of form b }
{
    match form {
        StatementForm::Branch { condition, body } => Some(Block {
            bound: u32::from(b),
            outermost: false,
            looping: false,
            condition,
            body,
        }),
        _ => None,
    }
}

fn else_of(form: StatementForm, s: u16) -> Option<ElseForm>
    ensures { result ≡ else_of form s }
{
    match form {
        StatementForm::Branch { .. } => Some(ElseForm::Branch(s)),
        StatementForm::Conditional { .. } => Some(ElseForm::Conditional(s)),
        _ => None,
    }
}

fn compound_of(form: StatementForm, s: u16) -> Option<CompoundForm>
    ensures { result ≡ compound_of form s }
{
    let (condition, body) = match form {
        StatementForm::Conditional { branch, other } => {
            return Some(CompoundForm::Conditional { branch, other });
        }
        StatementForm::While { condition, body } => (Some(condition), body),
        StatementForm::Loop(body) => (None, body),
        _ => return None,
    };
    Some(CompoundForm::Loop(Block {
        bound: u32::from(s),
        outermost: false,
        looping: true,
        condition,
        body,
    }))
}

// The branch at an index below a limit.
pub fn branch_at(image: ImageRef, b: u16, limit: u16) -> Option<Block>
    ensures { BranchIs (found image.entry) limit b result }
{
    if limit <= b {
        return None;
    }
    branch_of(image.statement(b), b)
}

// What stands, below a limit, behind a branch that is skipped.
pub fn else_at(image: ImageRef, other: Option<u16>, limit: u16) -> Option<ElseForm>
    ensures { ElseIs (found image.entry) limit other result }
{
    let s = other?;
    if limit <= s {
        return None;
    }
    else_of(image.statement(s), s)
}

pub fn compound_at(image: ImageRef, s: u16) -> Option<CompoundForm>
    ensures { CompoundIs (found image.entry) s result }
{
    compound_of(image.statement(s), s)
}
