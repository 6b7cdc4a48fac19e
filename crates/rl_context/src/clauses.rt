// The guards of clauses: rl-resolver's msg_expr and guard.
ghost use Rattle.std.specs.Prelude.{◌≡◌, ℕ, ◌<◌, List};
ghost use Rattle.rl_records.specs.Found.{found, found_with};
ghost use Rattle.rl_spec.specs.Image.{Image};
ghost use Rattle.rl_spec.specs.Make.{each};
ghost use Rattle.rl_spec.specs.Lower.{msg_expr, guard, clause_guard};
ghost use Rattle.rl_schema.specs.Codes.{table};
ghost use Rattle.rl_context.specs.Does.{Does, nothing, at};
ghost use Rattle.rl_context.specs.Guards.{Makes, Gathers, guard_of, clauses_in, ConditionsIn};

use crate::copy::deep_clone_expr;
use crate::{Ctx, Made};
use rl_records::ImageRef;
use rl_spec::{Clause, Interval};

impl Ctx {
    // A clause's own message, which is shared, or the default.
    pub fn msg_expr(self, scratch: &mut [u8], clause: Clause, default: &[u8]) -> Made<u16>
        ensures { (im : Image) (k : ℕ) (w : List ℕ) → Does im k k nothing (msg_expr clause default.now) (at self scratch.old w) result.made (at result.ctx scratch.new w) }
    {
        let message = clause.message;
        match message {
            Some(index) => Made {
                ctx: self,
                made: index,
            },
            None => self.str_lit(scratch, default),
        }
    }

    // A guard, once its predicate is copied.
    pub fn guarded(self, scratch: &mut [u8], waiting: &mut [u16], copy: u16, msg: u16) -> Made<u16>
        ensures { (im : Image) → Makes im (guard_of copy msg) (at self scratch.old waiting.old) result.made (at result.ctx scratch.new waiting.new) }
    {
        let neg = self.negated(scratch, copy);
        let s = neg.ctx.violation(scratch, waiting, msg);
        s.ctx.only_if(scratch, waiting, neg.made, s.made)
    }

    pub fn guard(
        self,
        image: ImageRef,
        rows: &[u64],
        scratch: &mut [u8],
        waiting: &mut [u16],
        pred: u16,
        msg: u16,
    ) -> Made<u16>
        ensures { rows.now ≡ table → pred < image.entry.counts.expressions → Makes (found image.entry) (guard pred msg) (at self scratch.old waiting.old) result.made (at result.ctx scratch.new waiting.new) }
    {
        let copy = deep_clone_expr(image, rows, pred, scratch, waiting, self);
        let index = copy.made;
        copy.ctx.guarded(scratch, waiting, index, msg)
    }

    fn clause_guard(
        self,
        image: ImageRef,
        rows: &[u64],
        scratch: &mut [u8],
        waiting: &mut [u16],
        default: &[u8],
        clause: Clause,
    ) -> Made<u16>
        ensures { rows.now ≡ table → clause.condition < image.entry.counts.expressions → Makes (found image.entry) (clause_guard default.now clause) (at self scratch.old waiting.old) result.made (at result.ctx scratch.new waiting.new) }
    {
        let msg = self.msg_expr(scratch, clause, default);
        let index = msg.made;
        msg.ctx
            .guard(image, rows, scratch, waiting, clause.condition, index)
    }

    // The guards of clauses, which wait then.
    pub fn clause_guards(
        self,
        image: ImageRef,
        rows: &[u64],
        scratch: &mut [u8],
        waiting: &mut [u16],
        default: &[u8],
        clauses: Interval,
    ) -> Ctx
        ensures { rows.now ≡ table → ConditionsIn (found image.entry) clauses image.entry.counts.expressions → Gathers (found image.entry) 0 (each (clause_guard default.now) (clauses_in (found image.entry) clauses)) (at self scratch.old waiting.old) (at result scratch.new waiting.new) }
    {
        let mut next = self;
        for i in 0..clauses.count {
            let clause = image.clause((clauses.first as u32) + (i as u32));
            let made = next.clause_guard(image, rows, scratch, waiting, default, clause);
            let index = made.made;
            next = made.ctx.push(waiting, index);
        }
        next
    }
}
