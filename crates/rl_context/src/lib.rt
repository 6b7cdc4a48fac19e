// The lowering context, rl-resolver's Ctx, and what is appended to an image with it. New text bytes, texts, list entries, expressions and
// statements are kept in a lent scratch slice, each section at its own place, as the bytes of an image; the entries of lists that are being
// made wait in another.
#![tactic(auto)]

mod clauses;
mod copy;
mod kinds;
mod nodes;
mod refinements;
mod wrapping;

ghost use Rattle.std.specs.Prelude.{◌≡◌, ℕ, ◌+◌, ◌-◌, ◌*◌, ◌≤◌, true, List, [], ◌∷◌, length, take, drop, nat_lt};
ghost use Rattle.rl_spec.specs.Image.{Image, encode_records};
ghost use Rattle.rl_spec.specs.Schema.{fields_of};
ghost use Rattle.rl_images.specs.Lowering.Grows.{list_records};
ghost use Rattle.rl_encode.specs.Words.{word_record, over};
ghost use Rattle.rl_spec.specs.declared.Section.TheVariants.{Expressions, Statements};
ghost use Rattle.rl_spec.specs.Make.{append, new_text, take_temp};
ghost use Rattle.rl_schema.specs.Codes.{codes};
ghost use Rattle.rl_context.specs.Does.{Does, nothing, at, Pushes, Listed};

pub use copy::{deep_clone_expr, word_of};
pub use kinds::Kind;
pub use nodes::{list_word, optional_word};
pub use refinements::{Operand, Predicate};
use rl_bytes::put;
use rl_encode::{put_number, put_record};
use rl_spec::Interval;
use rl_text_out::put_text;

// How many there are of each, with the new ones; the bytes of the new expressions and statements; the entries that wait; the function's
// span and result flag; the number of the next temporary; whether a limit would be passed.
#[derive(Clone, Copy)]
pub struct Ctx {
    pub bytes: u32,
    pub texts: u32,
    pub lists: u32,
    pub expressions: u32,
    pub statements: u32,
    pub expression_bytes: u32,
    pub statement_bytes: u32,
    pub waiting: u32,
    pub span: u32,
    pub is_result: bool,
    pub temp_counter: u32,
    pub full: bool,
}

// Each section's place in the scratch slice, and how long the slice is.
const TEXTS: usize = 16384;

const LISTS: usize = 26624;

const EXPRESSIONS: usize = 38912;

const STATEMENTS: usize = 137216;

const SCRATCH: usize = 186496;

// The format's limits.
const MOST_BYTES: u32 = 16384;

const MOST_TEXTS: u32 = 2048;

const MOST_LISTS: u32 = 4096;

const MOST_EXPRESSIONS: u32 = 4096;

const MOST_STATEMENTS: u32 = 2048;

// The context, and what was made.
#[derive(Drop)]
pub struct Made<T> {
    pub ctx: Ctx,
    pub made: T,
}

// Whether so many more would pass a limit.
fn passes(used: u32, more: usize, most: u32) -> bool
    ensures { result ≡ nat_lt most (used + more) }
{
    most < used || ((most - used) as usize) < more
}

// List entries, from those that wait.
fn put_entries(scratch: &mut [u8], waiting: &[u16], at: usize, first: usize, count: usize)
    requires count_in_bounds { at + count * 3 ≤ length scratch.old }
    requires count_in_bounds_2 { first + count ≤ length waiting.now }
    ensures { scratch.new ≡ over scratch.old at (encode_records (list_records (take count (drop first waiting.now)))) }
{
    for (i, entry) in waiting[first..first + count].iter().enumerate() {
        put_number(scratch, at + i * 3, 3 + (*entry as u64) * 256, 3);
    }
}

// Where a limit would be passed, the context is full: what else is answered then is left open.
impl Ctx {
    // A text, even one that the image has.
    pub fn new_text(mut self, scratch: &mut [u8], text: &[u8]) -> Made<u16>
        ensures { (im : Image) (k : ℕ) (w : List ℕ) → Does im k k nothing (new_text text.now) (at self scratch.old w) result.made (at result.ctx scratch.new w) }
    {
        let offset = self.bytes;
        let index = self.texts;
        let size = text.len();
        if self.full
            || scratch.len() < SCRATCH
            || passes(offset, size, MOST_BYTES)
            || passes(index, 1, MOST_TEXTS)
        {
            self.full = true;
            return Made { ctx: self, made: 0 };
        }
        put_text(scratch, offset as usize, text);
        put_number(
            scratch,
            TEXTS + (index as usize) * 5,
            2 + (offset as u64) * 256 + (size as u64) * 16777216,
            5,
        );
        self.bytes = offset + (size as u32);
        self.texts = index + 1;
        Made {
            ctx: self,
            made: index as u16,
        }
    }

    // The number of a temporary, which is then taken.
    pub fn take_temp(mut self) -> Made<u32>
        ensures { (im : Image) (s w : List ℕ) → Does im 0 1 nothing take_temp (at self s w) result.made (at result.ctx s w) }
    {
        let n = self.temp_counter;
        if self.full || MOST_STATEMENTS < n {
            self.full = true;
            return Made { ctx: self, made: n };
        }
        self.temp_counter = n + 1;
        Made { ctx: self, made: n }
    }

    // An entry of a list that is being made.
    pub fn push(mut self, waiting: &mut [u16], entry: u16) -> Ctx
        ensures { (s : List ℕ) → Pushes entry (at self s waiting.old) (at result s waiting.new) }
    {
        let end = self.waiting;
        if self.full || MOST_LISTS <= end {
            self.full = true;
            return self;
        }
        put(waiting, end as usize, entry);
        self.waiting = end + 1;
        self
    }

    // The entries that wait, but for the first so many, as a list.
    pub fn new_list(mut self, scratch: &mut [u8], waiting: &[u16], first: u32) -> Made<Interval>
        ensures { Listed first (at self scratch.old waiting.now) result.made (at result.ctx scratch.new waiting.now) }
    {
        let end = self.waiting;
        let at = self.lists;
        if self.full
            || end < first
            || scratch.len() < SCRATCH
            || waiting.len() < (end as usize)
            || passes(at, (end - first) as usize, MOST_LISTS)
        {
            self.full = true;
            return Made {
                ctx: self,
                made: Interval { first: 0, count: 0 },
            };
        }
        let count = end - first;
        put_entries(
            scratch,
            waiting,
            LISTS + (at as usize) * 3,
            first as usize,
            count as usize,
        );
        self.lists = at + count;
        self.waiting = first;
        Made {
            ctx: self,
            made: Interval {
                first: at as u16,
                count: count as u16,
            },
        }
    }

    // A record of the expressions, with its span.
    pub fn new_expression(mut self, scratch: &mut [u8], kind: Kind, words: &[u64]) -> Made<u16>
        ensures { (im : Image) (k : ℕ) (w : List ℕ) → codes kind.row ≡ fields_of kind.number → Does im k k nothing (append Expressions (word_record kind.number words.now ∷ [])) (at self scratch.old w) result.made (at result.ctx scratch.new w) }
    {
        let index = self.expressions;
        let used = self.expression_bytes as usize;
        if self.full
            || SCRATCH < used
            || scratch.len() < EXPRESSIONS + used + 65
            || passes(index, 1, MOST_EXPRESSIONS)
        {
            self.full = true;
            return Made { ctx: self, made: 0 };
        }
        let next = put_record(scratch, EXPRESSIONS + used, kind.number, kind.row, words);
        self.expressions = index + 1;
        self.expression_bytes = (next - EXPRESSIONS) as u32;
        Made {
            ctx: self,
            made: index as u16,
        }
    }

    // A record of the statements, the same way.
    pub fn new_statement(mut self, scratch: &mut [u8], kind: Kind, words: &[u64]) -> Made<u16>
        ensures { (im : Image) (k : ℕ) (w : List ℕ) → codes kind.row ≡ fields_of kind.number → Does im k (k - 1) nothing (append Statements (word_record kind.number words.now ∷ [])) (at self scratch.old w) result.made (at result.ctx scratch.new w) }
    {
        let index = self.statements;
        let used = self.statement_bytes as usize;
        if self.full
            || SCRATCH < used
            || scratch.len() < STATEMENTS + used + 65
            || passes(index, 1, MOST_STATEMENTS)
        {
            self.full = true;
            return Made { ctx: self, made: 0 };
        }
        let next = put_record(scratch, STATEMENTS + used, kind.number, kind.row, words);
        self.statements = index + 1;
        self.statement_bytes = (next - STATEMENTS) as u32;
        Made {
            ctx: self,
            made: index as u16,
        }
    }
}
