// The bytes of a lowered image: what the image has of each section, then what is new, and the function's new body list.
#![tactic(auto)]

ghost use Rattle.std.specs.Prelude.{◌≡◌, true, ◌+◌, ◌-◌, ◌*◌, ◌≤◌, ◌<◌, length};
ghost use Rattle.rl_spec.specs.declared.Section.TheVariants.{Functions};
ghost use Rattle.rl_spec.specs.Image.{Image, pair, bytes_of, size_of};
ghost use Rattle.rl_spec.specs.Lower.{with_body, fitting};
ghost use Rattle.rl_context.specs.Additions.{New, grown, Counted, Kept};
ghost use Rattle.rl_assemble.specs.Written.{Written};
ghost use Rattle.rl_assemble.specs.Pieces.{Puts, Source, new_counts, new_header, new_text, new_texts, new_lists, new_trees, new_rest, new_bytes, new_length, expressions_at, statements_at, body_at, both, of};
ghost use Rattle.rl_assemble.specs.Pieces as pieces;

use rl_bytes::{get_or, part};
use rl_context::Ctx;
use rl_encode::put_number;
use rl_records::{ImageRef, functions_at, parameters_at};
use rl_spec::Interval;
use rl_text_out::Out;

// The image, and what lowering has added to it: as much of each section in the scratch slice as the context counts.
#[derive(Clone, Copy)]
pub struct Sources<'a> {
    pub image: ImageRef<'a, 'a>,
    pub ctx: Ctx,
    pub scratch: &'a [u8],
}

#[tactic(auto, using(crate::proofs::Puts::text_put))]
fn put_part(out: &mut Out, s: &[u8], from: usize, n: usize)
    ensures same_reference { out.new.bytes.ghost_name ≡ out.old.bytes.ghost_name }
    ensures puts { Puts out.old (pieces.part s.now from n) out.new }
{
    out.text(part(s, from, n));
}

// A number in two bytes.
fn put_two(out: &mut Out, n: u32)
    ensures same_reference { out.new.bytes.ghost_name ≡ out.old.bytes.ghost_name }
    ensures puts { Puts out.old (bytes_of 2 n) out.new }
{
    let mut two = [0u8; 2];
    put_number(&mut two, 0, n as u64, 2);
    out.text(&two);
}

fn put_counts(out: &mut Out, ctx: Ctx)
    ensures same_reference { out.new.bytes.ghost_name ≡ out.old.bytes.ghost_name }
    ensures puts { Puts out.old (new_counts ctx) out.new }
{
    put_two(out, ctx.bytes);
    put_two(out, ctx.texts);
    put_two(out, ctx.lists);
    put_two(out, ctx.expressions);
    put_two(out, ctx.statements);
}

// Each `put_` function puts a piece behind what is there.
impl Sources<'_> {
    fn put_header(self, out: &mut Out)
        ensures same_reference { out.new.bytes.ghost_name ≡ out.old.bytes.ghost_name }
        ensures puts { Puts out.old (new_header self.entry.image.bytes.now self.entry.ctx) out.new }
    {
        put_part(out, self.image.bytes, 0, 5);
        put_counts(out, self.ctx);
        put_part(out, self.image.bytes, 15, 8);
    }

    // What the image has, then what is new.
    fn put_both(self, out: &mut Out, from: usize, n: usize, place: usize, m: usize)
        ensures same_reference { out.new.bytes.ghost_name ≡ out.old.bytes.ghost_name }
        ensures puts { Puts out.old (both self.entry.image.bytes.now from n self.entry.scratch.now place m) out.new }
    {
        put_part(out, self.image.bytes, from, n);
        put_part(out, self.scratch, place, m);
    }

    #[tactic(auto, unfolding(crate::specs::Pieces::new_text))]
    fn put_bytes(self, out: &mut Out)
        ensures same_reference { out.new.bytes.ghost_name ≡ out.old.bytes.ghost_name }
        ensures puts { Puts out.old (of new_text self.entry) out.new }
    {
        let n = self.image.counts.bytes as usize;
        self.put_both(out, 23, n, n, (self.ctx.bytes as usize).saturating_sub(n));
    }

    // The `n` records of a section, from a place on, and the new ones, which stand as far behind `base` in the scratch slice.
    fn put_section(self, out: &mut Out, from: usize, base: usize, width: usize, n: u16, all: u32)
        requires base_small { base ≤ 65535 }
        requires width_small { width ≤ 255 }
        ensures same_reference { out.new.bytes.ghost_name ≡ out.old.bytes.ghost_name }
        ensures puts { Puts out.old (both self.entry.image.bytes.now from (n * width) self.entry.scratch.now (base + n * width) ((all - n) * width)) out.new }
    {
        let size = (n as usize) * width;
        let more = (all as usize).saturating_sub(n as usize);
        self.put_both(out, from, size, base + size, more * width);
    }

    #[tactic(auto, unfolding(crate::specs::Pieces::new_texts))]
    fn put_texts(self, out: &mut Out)
        ensures same_reference { out.new.bytes.ghost_name ≡ out.old.bytes.ghost_name }
        ensures puts { Puts out.old (of new_texts self.entry) out.new }
    {
        let counts = self.image.counts;
        let from = 23 + (counts.bytes as usize);
        self.put_section(out, from, 16384, 5, counts.texts, self.ctx.texts);
    }

    #[tactic(auto, unfolding(crate::specs::Pieces::new_lists))]
    fn put_lists(self, out: &mut Out)
        ensures same_reference { out.new.bytes.ghost_name ≡ out.old.bytes.ghost_name }
        ensures puts { Puts out.old (of new_lists self.entry) out.new }
    {
        let counts = self.image.counts;
        let from = 23 + (counts.bytes as usize) + (counts.texts as usize) * 5;
        self.put_section(out, from, 26624, 3, counts.lists, self.ctx.lists);
    }

    // The expressions and the statements, from where they start and end.
    fn put_trees(self, out: &mut Out, expressions: usize, statements: usize, parameters: usize)
        ensures same_reference { out.new.bytes.ghost_name ≡ out.old.bytes.ghost_name }
        ensures puts { Puts out.old (new_trees self.entry.image.bytes.now expressions statements parameters self.entry.ctx self.entry.scratch.now) out.new }
    {
        self.put_both(
            out,
            expressions,
            statements.saturating_sub(expressions),
            38912,
            self.ctx.expression_bytes as usize,
        );
        self.put_both(
            out,
            statements,
            parameters.saturating_sub(statements),
            137216,
            self.ctx.statement_bytes as usize,
        );
    }

    // The other sections, with another body list at a place.
    fn put_rest(self, out: &mut Out, parameters: usize, body: usize, list: Interval)
        requires { body ≤ 4294967295 }
        ensures same_reference { out.new.bytes.ghost_name ≡ out.old.bytes.ghost_name }
        ensures puts { Puts out.old (new_rest self.entry.image.bytes.now parameters body list) out.new }
    {
        let image = self.image.bytes;
        put_part(out, image, parameters, body.saturating_sub(parameters));
        put_two(out, list.first as u32);
        put_two(out, list.count as u32);
        put_part(out, image, body + 4, image.len());
    }

    #[tactic(auto, unfolding(crate::specs::Pieces::new_length))]
    fn new_length(self) -> usize
        requires { length self.image.bytes.now ≤ 65535 }
        ensures { result ≡ new_length self.entry.image.bytes.now self.entry.image.counts self.entry.ctx }
    {
        let ctx = self.ctx;
        let counts = self.image.counts;
        let bytes = (ctx.bytes as usize).saturating_sub(counts.bytes as usize);
        let texts = (ctx.texts as usize).saturating_sub(counts.texts as usize);
        let lists = (ctx.lists as usize).saturating_sub(counts.lists as usize);
        self.image.bytes.len()
            + bytes
            + texts * 5
            + lists * 3
            + (ctx.expression_bytes as usize)
            + (ctx.statement_bytes as usize)
    }

    fn put_image(self, out: &mut Out, function: u16, list: Interval)
        requires { length self.image.bytes.now ≤ 65535 }
        ensures same_reference { out.new.bytes.ghost_name ≡ out.old.bytes.ghost_name }
        ensures puts { Puts out.old (new_bytes self.entry.image.bytes.now self.entry.image.starts.now self.entry.image.counts self.entry.ctx self.entry.scratch.now function list) out.new }
    {
        let image = self.image;
        let statements = statements_at(image);
        let parameters = parameters_at(image.bytes, image.counts);
        self.put_header(out);
        self.put_bytes(out);
        self.put_texts(out);
        self.put_lists(out);
        self.put_trees(out, expressions_at(image), statements, parameters);
        self.put_rest(out, parameters, body_at(image, function), list);
    }
}

// ---- places in the image

fn expressions_at(image: ImageRef) -> usize
    ensures { result ≡ expressions_at image.entry.counts }
{
    let counts = image.counts;
    23 + (counts.bytes as usize) + (counts.texts as usize) * 5 + (counts.lists as usize) * 3
}

fn statements_at(image: ImageRef) -> usize
    ensures { result ≡ statements_at image.entry.bytes.now image.entry.starts.now image.entry.counts }
{
    if image.counts.statements == 0 {
        return parameters_at(image.bytes, image.counts);
    }
    get_or(image.starts, image.counts.expressions as usize, 0) as usize
}

fn body_at(image: ImageRef, function: u16) -> usize
    requires { length image.bytes.now ≤ 65535 }
    ensures value { result ≡ body_at image.entry.bytes.now image.entry.counts function }
    ensures upper_bound { result ≤ 4294967295 }
{
    functions_at(image.bytes, image.counts) + (function as usize) * 24 + 12
}

// The lowered image's bytes, from the image's and from what lowering has added, and their number; none, and nothing is put, where they are
// more than 65,535.
pub fn assemble(sources: Sources, function: u16, list: Interval, out: &mut [u8]) -> Option<usize>
    ensures { (im : Image) (new : New) → Source im sources.entry.image.bytes.now sources.entry.image.starts.now sources.entry.image.counts → Counted im new sources.entry.ctx → Kept im new sources.entry.scratch.now → function < size_of im Functions → 65535 ≤ length out.old → Written (fitting true (with_body (grown im new) function (pair list.first list.count))) out.old result out.new }
{
    if 65535 < sources.image.bytes.len() || 65535 < sources.new_length() {
        return None;
    }
    let mut out = Out { bytes: out, at: 0 };
    sources.put_image(&mut out, function, list);
    Some(out.at)
}
