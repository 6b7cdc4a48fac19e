// References: what one may find, and the heights of children.
ghost use Rattle.std.specs.Prelude.{◌≡◌};
ghost use Rattle.rl_spec.specs.Fields.{takes, within, kind_of_statement, allowed, child_height, refer_to, refer_or_none};
ghost use Rattle.rl_fields.specs.Scopes.{in_scope};

use crate::Scope;
use rl_bytes::get_or;
use rl_spec::{Cause, Counts, Section, Target};

// Whether a reference may find a statement of this kind.
fn takes_kind(target: Target, kind: u8) -> bool
    ensures { result ≡ takes target kind }
{
    match target {
        Target::Text | Target::Expression => true,
        Target::Statement => kind != 76,
        Target::Branch => kind == 69,
        Target::ElseBranch => kind == 69 || kind == 68,
        Target::Arm => kind == 76,
    }
}

// How many records a reference may name.
fn limit_of(seen: Counts, target: Target) -> u16
    ensures { result ≡ within seen target }
{
    match target {
        Target::Text => seen.texts,
        Target::Expression => seen.expressions,
        _ => seen.statements,
    }
}

impl Scope<'_> {
    #[tactic(auto, unfolding(rl_spec::specs::Fields::kind_of_statement))]
    fn statement_kind(self, n: u16) -> u8
        ensures { result ≡ kind_of_statement self.entry.image.now self.entry.starts.now self.entry.seen n }
    {
        let start = get_or(
            self.starts,
            usize::from(self.seen.expressions) + usize::from(n),
            0,
        );
        get_or(self.image, usize::from(start), 0)
    }

    #[tactic(auto, unfolding(rl_spec::specs::Fields::allowed))]
    fn is_allowed(self, target: Target, n: u16) -> bool
        ensures { result ≡ allowed self.entry.image.now self.entry.starts.now self.entry.seen target n }
    {
        n < limit_of(self.seen, target) && takes_kind(target, self.statement_kind(n))
    }

    // The height of a child of the own section; else 0.
    #[tactic(auto, unfolding(rl_spec::specs::Fields::child_height))]
    fn child_height(self, target: Target, n: u16) -> u16
        ensures { result ≡ child_height self.entry.heights.now self.entry.seen self.entry.own target n }
    {
        let n = usize::from(n);
        match (self.own, target) {
            (Section::Expressions, Target::Expression) => get_or(self.heights, n, 0),
            (Section::Statements, Target::Text | Target::Expression) => 0,
            (Section::Statements, _) => {
                get_or(self.heights, usize::from(self.seen.expressions) + n, 0)
            }
            _ => 0,
        }
    }

    #[tactic(auto, unfolding(rl_spec::specs::Fields::refer_to))]
    pub(crate) fn refer_to(self, target: Target, n: u16, tall: u16) -> Result<u16, Cause>
        ensures { result ≡ in_scope self.entry refer_to target n tall }
    {
        if self.is_allowed(target, n) {
            Ok(tall.max(self.child_height(target, n)))
        } else {
            Err(Cause::BadReference)
        }
    }

    #[tactic(auto, unfolding(rl_spec::specs::Fields::refer_or_none))]
    pub(crate) fn refer_or_none(self, target: Target, n: u16, tall: u16) -> Result<u16, Cause>
        ensures { result ≡ in_scope self.entry refer_or_none target n tall }
    {
        if n == u16::MAX {
            Ok(tall)
        } else {
            self.refer_to(target, n, tall)
        }
    }
}
