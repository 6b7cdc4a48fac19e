// The guards of refinements: rl-resolver's refine_predicate, and its guard. The predicate has just been made, so that its copy is known.
ghost use Rattle.std.specs.Prelude.{◌≡◌, ℕ, ◌+◌, ◌≤◌, List, length};
ghost use Rattle.rl_records.specs.Found.{found_with};
ghost use Rattle.rl_spec.specs.Folded.{op_of};
ghost use Rattle.rl_spec.specs.Schema.{fields_of};
ghost use Rattle.rl_spec.specs.Image.{Image};
ghost use Rattle.rl_spec.specs.Lower.{token_of};
ghost use Rattle.rl_spec.specs.FnContracts.{operand_of};
ghost use Rattle.rl_schema.specs.Codes.{codes};
ghost use Rattle.rl_context.specs.Does.{at};
ghost use Rattle.rl_context.specs.Guards.{Makes, Gathers, Leaf, leaf_of, copy_of, refined_by, refined_as, OperandMade, PredicateMade, guard_in};

use crate::{Ctx, Kind, Made};
use rl_bytes::part;
use rl_message::default_text;
use rl_records::ImageRef;
use rl_spec::{RefineOp, RefineOperand, Refinement, Violation};
use rl_words::bits_of_int;

// An operand: its record's kind and its number.
#[derive(Clone, Copy)]
pub struct Operand {
    pub kind: Kind,
    pub word: u64,
}

// A predicate, and what its copy needs: its operator, the right operand, the left one's text.
#[derive(Clone, Copy)]
pub struct Predicate {
    pub index: u16,
    pub token: u8,
    pub right: Operand,
    pub text: u16,
}

fn token_of(op: RefineOp) -> u8
    ensures { result ≡ token_of (op_of op) }
{
    match op {
        RefineOp::Gt => 10,
        RefineOp::Ge => 11,
        RefineOp::Lt => 8,
        RefineOp::Le => 9,
        RefineOp::Eq => 6,
        RefineOp::Ne => 7,
    }
}

impl Ctx {
    // A text is made for the operand that has one.
    fn operand_of(
        self,
        image: ImageRef,
        scratch: &mut [u8],
        operand: RefineOperand,
    ) -> Made<Operand>
        ensures { (im : Image) (p w : List ℕ) → OperandMade im (leaf_of (found_with image.entry p) (operand_of operand)) (at self scratch.old w) result.made (at result.ctx scratch.new w) }
    {
        match operand {
            RefineOperand::Integer(v) => Made {
                ctx: self,
                made: Operand {
                    kind: Kind::INTEGER,
                    word: bits_of_int(v),
                },
            },
            RefineOperand::Str(t) => {
                let text = self.new_text(scratch, image.text(t));
                Made {
                    ctx: text.ctx,
                    made: Operand {
                        kind: Kind::STRING,
                        word: text.made as u64,
                    },
                }
            }
            RefineOperand::Bool(b) => Made {
                ctx: self,
                made: Operand {
                    kind: Kind::BOOL,
                    word: b as u64,
                },
            },
            RefineOperand::Param(t) => {
                let text = self.new_text(scratch, image.text(t));
                Made {
                    ctx: text.ctx,
                    made: Operand {
                        kind: Kind::IDENTIFIER,
                        word: text.made as u64,
                    },
                }
            }
        }
    }

    // The right operand is made first.
    pub fn refine_predicate(
        self,
        image: ImageRef,
        scratch: &mut [u8],
        name: u16,
        refinement: Refinement,
    ) -> Made<Predicate>
        ensures { (im : Image) (p w : List ℕ) → PredicateMade im (found_with image.entry p) name (refined_as refinement) (at self scratch.old w) result.made (at result.ctx scratch.new w) }
    {
        let token = token_of(refinement.op);
        let o = self.operand_of(image, scratch, refinement.operand);
        let operand = o.made;
        let right = o.ctx.expr(scratch, operand.kind, [operand.word, 0, 0]);
        let named = right.ctx.new_text(scratch, image.text(name));
        let text = named.made;
        let left = named
            .ctx
            .expr(scratch, Kind::IDENTIFIER, [text as u64, 0, 0]);
        let fields = [left.made as u64, token as u64, right.made as u64];
        let whole = left.ctx.expr(scratch, Kind::BINARY, fields);
        Made {
            ctx: whole.ctx,
            made: Predicate {
                index: whole.made,
                token,
                right: operand,
                text,
            },
        }
    }

    // The copy of a predicate that has just been made: it has the same texts.
    fn predicate_copy(self, scratch: &mut [u8], pred: Predicate) -> Made<u16>
        ensures { (im : Image) (w : List ℕ) → Leaf pred.right.kind.number → codes pred.right.kind.row ≡ fields_of pred.right.kind.number → Makes im (copy_of (pred.right.kind.number, pred.right.word) pred.text pred.token) (at self scratch.old w) result.made (at result.ctx scratch.new w) }
    {
        let left = self.expr(scratch, Kind::IDENTIFIER, [pred.text as u64, 0, 0]);
        let right = left
            .ctx
            .expr(scratch, pred.right.kind, [pred.right.word, 0, 0]);
        let fields = [left.made as u64, pred.token as u64, right.made as u64];
        right.ctx.expr(scratch, Kind::BINARY, fields)
    }

    // The guard of a refinement, with its message; it waits then.
    fn refined(
        self,
        image: ImageRef,
        scratch: &mut [u8],
        waiting: &mut [u16],
        name: u16,
        refinement: Refinement,
        text: &[u8],
    ) -> Ctx
        ensures { (im : Image) (p : List ℕ) → Gathers im 0 (refined_by (found_with image.entry p) name (refined_as refinement) text.now) (at self scratch.old waiting.old) (at result scratch.new waiting.new) }
    {
        let pred = self.refine_predicate(image, scratch, name, refinement);
        let msg = pred.ctx.str_lit(scratch, text);
        let copy = msg.ctx.predicate_copy(scratch, pred.made);
        let s = copy.ctx.guarded(scratch, waiting, copy.made, msg.made);
        s.ctx.push(waiting, s.made)
    }

    // The guard of a function's parameter, by its number. `room` is scratch for its text, longer than any that the image takes: what it holds
    // then is left open.
    pub fn refinement_guard(
        self,
        image: ImageRef,
        scratch: &mut [u8],
        waiting: &mut [u16],
        room: &mut [u8],
        function: u16,
        number: u16,
    ) -> Ctx
        ensures { (im : Image) (p : List ℕ) → 16385 ≤ length room.old → Gathers im 0 (guard_in (found_with image.entry p) function number) (at self scratch.old waiting.old) (at result scratch.new waiting.new) }
    {
        let params = image.function(function).params;
        let param = image.param((params.first as u32) + (number as u32));
        match param.refinement {
            None => self,
            Some(refinement) => {
                let size = default_text(image, function, Violation::Refinement(number), room);
                let text = part(room, 0, size);
                self.refined(image, scratch, waiting, param.name, refinement, text)
            }
        }
    }
}
