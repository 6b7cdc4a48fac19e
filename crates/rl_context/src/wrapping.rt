// Wrapped returns: rl-resolver's wrap_return. The statements wait then.
ghost use Rattle.std.specs.Prelude.{◌≡◌, cond, []};
ghost use Rattle.rl_records.specs.Found.{found, found_with};
ghost use Rattle.rl_spec.specs.Image.{Image};
ghost use Rattle.rl_spec.specs.Make.{give};
ghost use Rattle.rl_spec.specs.Lower.{skip_err, wrap_as, wrap_return};
ghost use Rattle.rl_schema.specs.Codes.{table};
ghost use Rattle.rl_context.specs.Does.{at};
ghost use Rattle.rl_context.specs.Guards.{Makes, Gathers, inner_of, clauses_in, ConditionsIn};

use crate::{Ctx, Made};
use rl_bytes::part;
use rl_records::ImageRef;
use rl_spec::Interval;
use rl_text_out::{put_number, put_text};

impl Ctx {
    // `if (std::res::is_err(temp)) { return temp }`
    fn skip_err(self, scratch: &mut [u8], waiting: &mut [u16], temp: &[u8]) -> Ctx
        ensures { (im : Image) → Gathers im 0 (skip_err temp.now) (at self scratch.old waiting.old) (at result scratch.new waiting.new) }
    {
        let node = self.ident(scratch, temp);
        let check = node.ctx.is_err_call(scratch, waiting, node.made);
        let last = check.ctx.return_of(scratch, temp);
        let skip = last.ctx.only_if(scratch, waiting, check.made, last.made);
        let index = skip.made;
        skip.ctx.push(waiting, index)
    }

    // Of a result function only.
    fn skip_of(self, scratch: &mut [u8], waiting: &mut [u16], temp: &[u8], is_result: bool) -> Ctx
        ensures { (im : Image) → Gathers im 0 (cond is_result (skip_err temp.now) (give [])) (at self scratch.old waiting.old) (at result scratch.new waiting.new) }
    {
        if is_result {
            return self.skip_err(scratch, waiting, temp);
        }
        self
    }

    // The value that `ret` names.
    fn inner_of(
        self,
        scratch: &mut [u8],
        waiting: &mut [u16],
        temp: &[u8],
        is_result: bool,
    ) -> Made<u16>
        ensures { (im : Image) → Makes im (inner_of temp.now is_result) (at self scratch.old waiting.old) result.made (at result.ctx scratch.new waiting.new) }
    {
        let node = self.ident(scratch, temp);
        if is_result {
            let index = node.made;
            return node.ctx.unwrap_call(scratch, waiting, index);
        }
        node
    }

    // Under the temporary's name.
    fn wrap_as(
        self,
        image: ImageRef,
        rows: &[u64],
        scratch: &mut [u8],
        waiting: &mut [u16],
        temp: &[u8],
        is_result: bool,
        value: u16,
        ensured: Interval,
    ) -> Ctx
        ensures { rows.now ≡ table → ConditionsIn (found image.entry) ensured image.entry.counts.expressions → Gathers (found image.entry) 1 (wrap_as temp.now is_result value (clauses_in (found image.entry) ensured)) (at self scratch.old waiting.old) (at result scratch.new waiting.new) }
    {
        let dec = self.declare(scratch, temp, value);
        let declared = dec.ctx.push(waiting, dec.made);
        let skipped = declared.skip_of(scratch, waiting, temp, is_result);
        let inner = skipped.inner_of(scratch, waiting, temp, is_result);
        let ret = inner.ctx.declare(scratch, b"ret", inner.made);
        let named = ret.ctx.push(waiting, ret.made);
        let guarded = named.clause_guards(
            image,
            rows,
            scratch,
            waiting,
            b"ensures violated",
            ensured,
        );
        let last = guarded.return_of(scratch, temp);
        last.ctx.push(waiting, last.made)
    }

    pub fn wrap_return(
        self,
        image: ImageRef,
        rows: &[u64],
        scratch: &mut [u8],
        waiting: &mut [u16],
        value: u16,
        ensured: Interval,
    ) -> Ctx
        ensures { rows.now ≡ table → ConditionsIn (found image.entry) ensured image.entry.counts.expressions → Gathers (found image.entry) 0 (wrap_return value (clauses_in (found image.entry) ensured)) (at self scratch.old waiting.old) (at result scratch.new waiting.new) }
    {
        let n = self.take_temp();
        let mut room = [0u8; 33];
        let start = put_text(&mut room, 0, b"__ensure_ret_");
        let end = put_number(&mut room, start, n.made as u64);
        let temp = part(&room, 0, end);
        let is_result = n.ctx.is_result;
        n.ctx.wrap_as(
            image, rows, scratch, waiting, temp, is_result, value, ensured,
        )
    }
}
