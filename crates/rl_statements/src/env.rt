// The bindings of a run.
ghost use Rattle.std.specs.Prelude.{◌≡◌, ◌-◌, ◌<◌, ◌≤◌, ◌∷◌, [], List, ℕ, IfSome, cond, drop, false, length, nat_lt};
ghost use Rattle.rl_spec.specs.Run.{find, named, update};
ghost use Rattle.rl_spec.specs.Runner.{value_of, value_of_words};
ghost use Rattle.rl_names.specs.Names.{Classes};
ghost use Rattle.rl_statements.specs.Bindings.{bound_of};
ghost use Rattle.rl_statements.specs.Slots.{slot_in, stored, valued};

use rl_bytes::get_or;
use rl_spec::Value;
use rl_words::{value_of_words, value_payload, value_sort};
use std::marker::Model;

// A name and its value, in two words: 16 bytes in place of 40, since a call copies the environment and the stack has a bound
// (`run_limits`).
#[derive(Clone, Copy)]
pub struct Binding {
    pub name: u16,
    pub sort: u16,
    pub payload: u64,
}

// At most 128 bindings, the latest last. An array and a length, passed by value: a rule of the project.
#[derive(Drop)]
pub struct Env {
    slots: [Binding; 128],
    len: usize,
}

impl Model for Env {
    ghost use Rattle.std.specs.Prelude.{ℕ, ◌≤◌};
    ghost use Rattle.rl_spec.specs.Run.{Env as Bounds};

    ghost Value = { Bounds ℕ };

    ghost use Rattle.rl_statements.specs.Bindings.{bounds};

    ghost view = { bounds };

    ghost invariant = { λ e. e.len ≤ 128 };
}

// The latest of the first `len` slots whose name has the class of this one.
#[tactic(auto, unfolding(crate::specs::Slots::slot_in))]
fn slot_of(classes: &[u16], slots: &[Binding; 128], len: usize, name: u16) -> Option<usize>
    requires { len ≤ 128 }
    ensures value { result ≡ slot_in classes.now slots.now name len }
    ensures within { IfSome result (λ p. p < len) }
{
    let class = get_or(classes, name as usize, 0);
    for p in (0..len).rev() {
        if get_or(classes, slots[p].name as usize, 0) == class {
            return Some(p);
        }
    }
    None
}

impl Binding {
    pub fn new(name: u16, value: Value) -> Binding
        ensures { bound_of result ≡ named name (value_of value) }
    {
        Binding {
            name,
            sort: value_sort(value) as u16,
            payload: value_payload(value),
        }
    }

    fn value(self) -> Value
        ensures { result ≡ value_of_words self.sort self.payload }
    {
        value_of_words(u64::from(self.sort), self.payload)
    }
}

impl Env {
    pub fn new() -> Env
        ensures { result ≡ [] }
    {
        let blank = Binding {
            name: 0,
            sort: 0,
            payload: 0,
        };
        Env {
            slots: [blank; 128],
            len: 0,
        }
    }

    pub(crate) fn len(&self) -> usize
        ensures { result ≡ length self.now }
    {
        self.len
    }

    // Binds a name, where there is room.
    pub fn bind(&mut self, name: u16, value: Value) -> bool
        ensures has_room { result ≡ nat_lt (length self.old) 128 }
        ensures bindings { self.new ≡ cond result (named name (value_of value) ∷ self.old) self.old }
    {
        if self.len == 128 {
            return false;
        }
        self.slots[self.len] = Binding::new(name, value);
        self.len += 1;
        true
    }

    // The value of a name.
    pub(crate) fn look(&self, classes: &[u16], name: u16) -> Option<Value>
        ensures { (bytes : ℕ → List ℕ) → Classes bytes classes.now → valued result ≡ find bytes self.now name }
    {
        let at = slot_of(classes, &self.slots, self.len, name)?;
        Some(self.slots[at].value())
    }

    // Gives a name that is bound a value.
    pub(crate) fn store(&mut self, classes: &[u16], name: u16, value: Value) -> bool
        ensures value { (bytes : ℕ → List ℕ) → Classes bytes classes.now → update bytes self.old name (value_of value) ≡ stored result self.new }
        ensures unbound { result ≡ false → self.new ≡ self.old }
    {
        let Some(at) = slot_of(classes, &self.slots, self.len, name) else {
            return false;
        };
        self.slots[at] = Binding::new(self.slots[at].name, value);
        true
    }

    // Leaves a scope: the first `len` bindings stay.
    pub(crate) fn leave(&mut self, len: usize)
        ensures { self.new ≡ drop (length self.old - len) self.old }
    {
        self.len = self.len.min(len);
    }
}
