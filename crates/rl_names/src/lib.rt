// Names bound to values, in lent words.
#![tactic(auto)]

ghost use Rattle.std.specs.Prelude.{◌≡◌};
ghost use Rattle.rl_spec.specs.Words.{sort_word_of, payload_word_of, words_value};
ghost use Rattle.rl_names.specs.Names.{lookup_in, bind_in};

use rl_bytes::{get_or, put};
use rl_spec::ConstVal;
use rl_words::{payload_word, sort_word, words_value};

// The first `count` bindings of `words`, and the classes of the texts: equal ones have the same bytes.
#[derive(Clone, Copy)]
pub struct Names<'a> {
    pub classes: &'a [u16],
    pub words: &'a [u64],
    pub count: u16,
}

impl<'a> Names<'a> {
    // The value of the latest binding whose name has the class of the text t.
    #[tactic(auto, unfolding(crate::specs::Names::lookup_in))]
    pub fn lookup(self, t: u16) -> Option<ConstVal>
        ensures { result ≡ lookup_in self.entry.classes.now self.entry.words.now t self.entry.count }
    {
        let class = get_or(self.classes, usize::from(t), 0);
        for k in (0..usize::from(self.count)).rev() {
            let name = get_or(self.words, k * 3, 0);
            if get_or(self.classes, name as usize, 0) == class {
                return words_value(
                    get_or(self.words, k * 3 + 1, 0),
                    get_or(self.words, k * 3 + 2, 0),
                );
            }
        }
        None
    }
}

// Binds a name as the k-th.
#[tactic(auto, using(crate::proofs::Laws::comes_back), unfolding(crate::specs::Names::bind_in))]
pub fn bind_name(names: &mut [u64], k: u16, t: u16, v: Option<ConstVal>)
    ensures names_after { names.new ≡ bind_in names.old k t v }
    ensures v_value { words_value (sort_word_of v) (payload_word_of v) ≡ v }
{
    let at = usize::from(k) * 3;
    put(names, at, u64::from(t));
    put(names, at + 1, sort_word(v));
    put(names, at + 2, payload_word(v));
}
