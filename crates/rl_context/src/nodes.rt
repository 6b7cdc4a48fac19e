// The nodes and statements that lowering makes, with the function's span.
ghost use Rattle.std.specs.Prelude.{◌≡◌, ℕ, ◌-◌, ◌/◌, ◌%◌, List, [], ◌∷◌};
ghost use Rattle.rl_spec.specs.Image.{Image, num, pair};
ghost use Rattle.rl_spec.specs.Ranges.{optional_field};
ghost use Rattle.rl_spec.specs.Make.{new_text, new_list, new_stmt};
ghost use Rattle.rl_spec.specs.Lower.{expr, ident, str_lit, err_lit, res_call, unwrap_call, is_err_call, violation, only_if, declare, return_of};
ghost use Rattle.rl_spec.specs.Schema.{fields_of};
ghost use Rattle.rl_schema.specs.Codes.{codes};
ghost use Rattle.rl_encode.specs.Words.{word_fields};
ghost use Rattle.rl_context.specs.Does.{Does, nothing, one, at};
ghost use Rattle.rl_context.specs.Paths.{res_path};

use crate::{Ctx, Kind, Made};
use rl_spec::Interval;

// A list, as a word of a record.
pub fn list_word(list: Interval) -> u64
    ensures { pair (result % 65536) (result / 65536) ≡ pair list.first list.count }
{
    (list.first as u64) + 65536 * (list.count as u64)
}

// An index or none, as a field of a record.
pub fn optional_word(index: Option<u16>) -> u16
    ensures { num result ≡ optional_field index }
{
    index.unwrap_or(65535)
}

impl Ctx {
    // An expression with the function's span; a kind with fewer fields takes the first ones.
    pub fn expr(self, scratch: &mut [u8], kind: Kind, fields: [u64; 3]) -> Made<u16>
        ensures { (im : Image) (k : ℕ) (w cs : List ℕ) → codes kind.row ≡ fields_of kind.number → fields_of kind.number ≡ 3 ∷ cs → Does im k k nothing (expr kind.number (word_fields cs fields 0)) (at self scratch.old w) result.made (at result.ctx scratch.new w) }
    {
        let words = [self.span as u64, fields[0], fields[1], fields[2]];
        self.new_expression(scratch, kind, &words)
    }

    pub fn null(self, scratch: &mut [u8]) -> Made<u16>
        ensures { (im : Image) (k : ℕ) (w : List ℕ) → Does im k k nothing (expr 16 []) (at self scratch.old w) result.made (at result.ctx scratch.new w) }
    {
        self.expr(scratch, Kind::NULL, [0, 0, 0])
    }

    pub fn str_lit(self, scratch: &mut [u8], text: &[u8]) -> Made<u16>
        ensures { (im : Image) (k : ℕ) (w : List ℕ) → Does im k k nothing (str_lit text.now) (at self scratch.old w) result.made (at result.ctx scratch.new w) }
    {
        let text = self.new_text(scratch, text);
        let index = text.made as u64;
        text.ctx.expr(scratch, Kind::STRING, [index, 0, 0])
    }

    pub fn ident(self, scratch: &mut [u8], name: &[u8]) -> Made<u16>
        ensures { (im : Image) (k : ℕ) (w : List ℕ) → Does im k k nothing (ident name.now) (at self scratch.old w) result.made (at result.ctx scratch.new w) }
    {
        let text = self.new_text(scratch, name);
        let index = text.made as u64;
        text.ctx.expr(scratch, Kind::IDENTIFIER, [index, 0, 0])
    }

    // Operator 5 is Bang.
    pub fn negated(self, scratch: &mut [u8], node: u16) -> Made<u16>
        ensures { (im : Image) (k : ℕ) (w : List ℕ) → Does im k k nothing (expr 33 (num 5 ∷ num node ∷ [])) (at self scratch.old w) result.made (at result.ctx scratch.new w) }
    {
        self.expr(scratch, Kind::UNARY, [5, node as u64, 0])
    }

    pub fn err_lit(self, scratch: &mut [u8], msg: u16) -> Made<u16>
        ensures { (im : Image) (k : ℕ) (w : List ℕ) → Does im k k nothing (err_lit msg) (at self scratch.old w) result.made (at result.ctx scratch.new w) }
    {
        self.expr(scratch, Kind::ERR_LITERAL, [msg as u64, 0, 0])
    }

    // A text of a path.
    fn push_text(self, scratch: &mut [u8], waiting: &mut [u16], text: &[u8]) -> Made<u16>
        ensures { (im : Image) (k : ℕ) → Does im k k one (new_text text.now) (at self scratch.old waiting.old) result.made (at result.ctx scratch.new waiting.new) }
    {
        let text = self.new_text(scratch, text);
        Made {
            ctx: text.ctx.push(waiting, text.made),
            made: text.made,
        }
    }

    // `std::res::NAME`
    fn res_path(self, scratch: &mut [u8], waiting: &mut [u16], name: &[u8]) -> Made<Interval>
        ensures { (im : Image) (k : ℕ) → Does im k k nothing (res_path name.now) (at self scratch.old waiting.old) (pair result.made.first result.made.count) (at result.ctx scratch.new waiting.new) }
    {
        let first = self.waiting;
        let std = self.push_text(scratch, waiting, b"std");
        let res = std.ctx.push_text(scratch, waiting, b"res");
        let last = res.ctx.push_text(scratch, waiting, name);
        last.ctx.new_list(scratch, waiting, first)
    }

    // A list of one entry.
    fn list_of(self, scratch: &mut [u8], waiting: &mut [u16], entry: u16) -> Made<Interval>
        ensures { (im : Image) (k : ℕ) → Does im k k nothing (new_list (entry ∷ [])) (at self scratch.old waiting.old) (pair result.made.first result.made.count) (at result.ctx scratch.new waiting.new) }
    {
        let first = self.waiting;
        let ctx = self.push(waiting, entry);
        ctx.new_list(scratch, waiting, first)
    }

    // `std::res::NAME(x)`
    pub fn res_call(self, scratch: &mut [u8], waiting: &mut [u16], name: &[u8], x: u16) -> Made<u16>
        ensures { (im : Image) (k : ℕ) → Does im k k nothing (res_call name.now x) (at self scratch.old waiting.old) result.made (at result.ctx scratch.new waiting.new) }
    {
        let path = self.res_path(scratch, waiting, name);
        let args = path.ctx.list_of(scratch, waiting, x);
        let fields = [list_word(path.made), list_word(args.made), 0];
        args.ctx.expr(scratch, Kind::CALL, fields)
    }

    pub fn unwrap_call(self, scratch: &mut [u8], waiting: &mut [u16], x: u16) -> Made<u16>
        ensures { (im : Image) (k : ℕ) → Does im k k nothing (unwrap_call x) (at self scratch.old waiting.old) result.made (at result.ctx scratch.new waiting.new) }
    {
        self.res_call(scratch, waiting, b"result_unwrap", x)
    }

    pub fn is_err_call(self, scratch: &mut [u8], waiting: &mut [u16], x: u16) -> Made<u16>
        ensures { (im : Image) (k : ℕ) → Does im k k nothing (is_err_call x) (at self scratch.old waiting.old) result.made (at result.ctx scratch.new waiting.new) }
    {
        self.res_call(scratch, waiting, b"is_err", x)
    }

    pub fn expression_statement(self, scratch: &mut [u8], node: u16) -> Made<u16>
        ensures { (im : Image) (k : ℕ) (w : List ℕ) → Does im k (k - 1) nothing (new_stmt 65 (num node ∷ [])) (at self scratch.old w) result.made (at result.ctx scratch.new w) }
    {
        let words = [self.span as u64, node as u64];
        self.new_statement(scratch, Kind::EXPRESSION, &words)
    }

    pub fn return_statement(self, scratch: &mut [u8], node: u16) -> Made<u16>
        ensures { (im : Image) (k : ℕ) (w : List ℕ) → Does im k (k - 1) nothing (new_stmt 66 (num node ∷ [])) (at self scratch.old w) result.made (at result.ctx scratch.new w) }
    {
        let words = [self.span as u64, node as u64];
        self.new_statement(scratch, Kind::RETURN, &words)
    }

    // `dec name = value`, of the type Infer.
    pub fn declare(self, scratch: &mut [u8], name: &[u8], value: u16) -> Made<u16>
        ensures { (im : Image) (k : ℕ) (w : List ℕ) → Does im k (k - 1) nothing (declare name.now value) (at self scratch.old w) result.made (at result.ctx scratch.new w) }
    {
        let text = self.new_text(scratch, name);
        let ctx = text.ctx;
        let words = [ctx.span as u64, text.made as u64, 0, value as u64, 0];
        ctx.new_statement(scratch, Kind::DECLARATION, &words)
    }

    pub fn return_of(self, scratch: &mut [u8], name: &[u8]) -> Made<u16>
        ensures { (im : Image) (w : List ℕ) → Does im 0 0 nothing (return_of name.now) (at self scratch.old w) result.made (at result.ctx scratch.new w) }
    {
        let node = self.ident(scratch, name);
        let index = node.made;
        node.ctx.return_statement(scratch, index)
    }

    pub fn violation(self, scratch: &mut [u8], waiting: &mut [u16], msg: u16) -> Made<u16>
        ensures { (im : Image) → Does im 0 0 nothing (violation msg) (at self scratch.old waiting.old) result.made (at result.ctx scratch.new waiting.new) }
    {
        let err = self.err_lit(scratch, msg);
        let ctx = err.ctx;
        if ctx.is_result {
            return ctx.return_statement(scratch, err.made);
        }
        let abort = ctx.unwrap_call(scratch, waiting, err.made);
        abort.ctx.expression_statement(scratch, abort.made)
    }

    // `if (condition) { s }`
    pub fn only_if(
        self,
        scratch: &mut [u8],
        waiting: &mut [u16],
        condition: u16,
        s: u16,
    ) -> Made<u16>
        ensures { (im : Image) → Does im 0 0 nothing (only_if condition s) (at self scratch.old waiting.old) result.made (at result.ctx scratch.new waiting.new) }
    {
        let body = self.list_of(scratch, waiting, s);
        let ctx = body.ctx;
        let words = [ctx.span as u64, condition as u64, list_word(body.made), 0];
        let branch = ctx.new_statement(scratch, Kind::BRANCH, &words);
        let next = branch.ctx;
        let other = optional_word(None) as u64;
        let whole = [next.span as u64, branch.made as u64, other];
        next.new_statement(scratch, Kind::CONDITIONAL, &whole)
    }
}
