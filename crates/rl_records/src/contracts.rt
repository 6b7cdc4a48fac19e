// Parameters, clauses, functions and calls: records of one width each, at the end of the image.
ghost use Rattle.std.specs.Prelude.{◌≡◌, ℕ, ◌-◌, List};
ghost use Rattle.rl_spec.specs.Records.{refine_op, refine_operand, refinement_by, param_at, clause_at, function_at, call_at};
ghost use Rattle.rl_spec.specs.Found.{calls_at, functions_at, clauses_at, parameters_at};
ghost use Rattle.rl_records.specs.Found.{found_with};

use crate::ImageRef;
use crate::texts::{interval_at, optional_at};
use rl_bytes::{get_or, u16_at, u32_at, u64_at};
use rl_spec::{
    Call, Clause, Counts, Function, Interval, Param, RefineOp, RefineOperand, Refinement,
};
use rl_words::signed64;

// ---- where the sections start

fn calls_at(bytes: &[u8], counts: Counts) -> usize
    ensures { result ≡ calls_at bytes.now counts }
{
    bytes.len().saturating_sub((counts.calls as usize) * 11)
}

pub fn functions_at(bytes: &[u8], counts: Counts) -> usize
    ensures { result ≡ functions_at bytes.now counts }
{
    calls_at(bytes, counts).saturating_sub((counts.functions as usize) * 24)
}

fn clauses_at(bytes: &[u8], counts: Counts) -> usize
    ensures { result ≡ clauses_at bytes.now counts }
{
    functions_at(bytes, counts).saturating_sub((counts.clauses as usize) * 5)
}

pub fn parameters_at(bytes: &[u8], counts: Counts) -> usize
    ensures { result ≡ parameters_at bytes.now counts }
{
    clauses_at(bytes, counts).saturating_sub((counts.parameters as usize) * 17)
}

// ---- the records

fn refine_op(n: u8) -> RefineOp
    ensures { result ≡ refine_op n }
{
    match n {
        1 => RefineOp::Gt,
        2 => RefineOp::Ge,
        3 => RefineOp::Lt,
        4 => RefineOp::Le,
        5 => RefineOp::Eq,
        _ => RefineOp::Ne,
    }
}

fn refine_operand(sort: u8, x: u64) -> RefineOperand
    ensures { result ≡ refine_operand sort x }
{
    match sort {
        1 => RefineOperand::Integer(signed64(x)),
        2 => RefineOperand::Str((x % 65536) as u16),
        3 => RefineOperand::Bool(x == 1),
        _ => RefineOperand::Param((x % 65536) as u16),
    }
}

fn refinement(op: u8, sort: u8, x: u64) -> Option<Refinement>
    ensures { result ≡ refinement_by op sort x }
{
    if op == 0 {
        return None;
    }
    Some(Refinement {
        op: refine_op(op),
        operand: refine_operand(sort, x),
    })
}

impl ImageRef<'_, '_> {
    // A parameter: name, type, refinement, operand's sort, operand.
    pub fn param(self, i: u32) -> Param
        ensures { (p : List ℕ) → result ≡ param_at (found_with self.entry p) i }
    {
        let bytes = self.bytes;
        if self.counts.parameters as u32 <= i {
            return Param {
                name: 0,
                refinement: None,
            };
        }
        let at = parameters_at(bytes, self.counts) + (i as usize) * 17 + 1;
        let op = get_or(bytes, at + 2 + 4, 0);
        let sort = get_or(bytes, at + 2 + 4 + 1, 0);
        let refinement = refinement(op, sort, u64_at(bytes, at + 2 + 4 + 1 + 1));
        Param {
            name: u16_at(bytes, at),
            refinement,
        }
    }

    // A clause: condition, message or none.
    pub fn clause(self, i: u32) -> Clause
        ensures { (p : List ℕ) → result ≡ clause_at (found_with self.entry p) i }
    {
        if self.counts.clauses as u32 <= i {
            return Clause {
                condition: 0,
                message: Some(0),
            };
        }
        let at = clauses_at(self.bytes, self.counts) + (i as usize) * 5 + 1;
        Clause {
            condition: u16_at(self.bytes, at),
            message: optional_at(self.bytes, at + 2),
        }
    }

    // A function: name, span, parameters, result flag, body, requires, ensures.
    pub fn function(self, i: u16) -> Function
        ensures { (p : List ℕ) → result ≡ function_at (found_with self.entry p) i }
    {
        let bytes = self.bytes;
        if self.counts.functions <= i {
            let none = Interval { first: 0, count: 0 };
            return Function {
                name: 0,
                span: 0,
                params: none,
                result: false,
                body: none,
                required: none,
                ensured: none,
            };
        }
        let at = functions_at(bytes, self.counts) + (i as usize) * 24 + 1;
        Function {
            name: u16_at(bytes, at),
            span: u32_at(bytes, at + 2),
            params: interval_at(bytes, at + 2 + 4),
            result: get_or(bytes, at + 2 + 4 + 4, 0) == 1,
            body: interval_at(bytes, at + 2 + 4 + 4 + 1),
            required: interval_at(bytes, at + 2 + 4 + 4 + 1 + 4),
            ensured: interval_at(bytes, at + 2 + 4 + 4 + 1 + 4 + 4),
        }
    }

    // A call: callee, span, arguments.
    pub fn call(self, i: u16) -> Call
        ensures { (p : List ℕ) → result ≡ call_at (found_with self.entry p) i }
    {
        if self.counts.calls <= i {
            return Call {
                callee: 0,
                span: 0,
                args: Interval { first: 0, count: 0 },
            };
        }
        let at = calls_at(self.bytes, self.counts) + (i as usize) * 11 + 1;
        Call {
            callee: u16_at(self.bytes, at),
            span: u32_at(self.bytes, at + 2),
            args: interval_at(self.bytes, at + 2 + 4),
        }
    }
}
