// Text and numbers into a lent buffer, at a place; each function answers the place after what it put. What has no room is
// left out.
#![tactic(auto)]

ghost use Rattle.std.specs.Prelude.{◌≡◌, ◌+◌, ◌≤◌, length};
ghost use Rattle.std.proofs.Math.Seq.{paste};
ghost use Rattle.rl_spec.specs.Message.{decimal};
ghost use Rattle.rl_text_out.specs.Put.{with_text, after_text};

fn copy(out: &mut [u8], at: usize, text: &[u8], n: usize)
    requires n_in_bounds { at + n ≤ length out.old }
    requires n_in_bounds_2 { n ≤ length text.now }
    ensures { out.new ≡ paste out.old at text.now n }
{
    // a loop, since `copy_from_slice` is a call of `memmove`, which the archive for C would ask of its user
    for i in 0..n {
        out[at + i] = text[i];
    }
}

pub fn put_text(out: &mut [u8], at: usize, text: &[u8]) -> usize
    ensures value { result ≡ after_text out.old at text.now }
    ensures out_after { out.new ≡ with_text out.old at text.now }
{
    if out.len() <= at {
        return at;
    }
    let n = text.len().min(out.len() - at);
    copy(out, at, text, n);
    at + n
}

// A number in decimal digits, as few as hold it.
pub fn put_number(out: &mut [u8], at: usize, n: u64) -> usize
    ensures value { result ≡ after_text out.old at (decimal n) }
    ensures out_after { out.new ≡ with_text out.old at (decimal n) }
{
    let mut text = [0u8; 20];
    let k = io::decimal(n, &mut text);
    put_text(out, at, &text[..k])
}

// A lent buffer, and the place of what is put next. What has no room is left out.
#[derive(Drop)]
pub struct Out<'a> {
    pub bytes: &'a mut [u8],
    pub at: usize,
}

impl<'a> Out<'a> {
    pub fn text(&mut self, text: &[u8])
        ensures same_reference { self.new.bytes.ghost_name ≡ self.old.bytes.ghost_name }
        ensures bytes { self.new.bytes.now ≡ with_text self.old.bytes.now self.old.at text.now }
        ensures at { self.new.at ≡ after_text self.old.bytes.now self.old.at text.now }
    {
        self.at = put_text(self.bytes, self.at, text);
    }

    pub fn number(&mut self, n: u64)
        ensures same_reference { self.new.bytes.ghost_name ≡ self.old.bytes.ghost_name }
        ensures bytes { self.new.bytes.now ≡ with_text self.old.bytes.now self.old.at (decimal n) }
        ensures at { self.new.at ≡ after_text self.old.bytes.now self.old.at (decimal n) }
    {
        self.at = put_number(self.bytes, self.at, n);
    }
}
