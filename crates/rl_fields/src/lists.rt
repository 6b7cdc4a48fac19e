// Lists of references.
ghost use Rattle.std.specs.Prelude.{◌≡◌, ◌+◌, ◌*◌, ◌%◌, ◌≤◌, length, eqb};
ghost use Rattle.rl_spec.specs.Fields.{lists_at, entry_at, refer_to, entries_from, list_of};
ghost use Rattle.rl_fields.specs.Scopes.{in_scope};

use crate::Scope;
use rl_schema::{entry_at, lists_at};
use rl_spec::{Cause, Interval, Section, Target};

// Whether the count is a multiple of the step; of 0, only 0 is.
fn is_multiple(count: u16, step: u8) -> bool
    ensures { result ≡ eqb (count % step) 0 }
{
    if step == 0 {
        return count == 0;
    }
    count % u16::from(step) == 0
}

impl Scope<'_> {
    // The entries of a list, by turns a left and a right.
    #[tactic(auto, using(crate::proofs::Turns::turn), unfolding(rl_spec::specs::Fields::entries_from, rl_spec::specs::Fields::refer_to))]
    fn entries(self, list: Interval, left: Target, right: Target, tall: u16) -> Result<u16, Cause>
        ensures { result ≡ in_scope self.entry entries_from list.count list.first left right tall }
    {
        let (mut here, mut other) = (left, right);
        let mut most = tall;
        for i in 0..list.count {
            let n = entry_at(self.image, self.seen, u32::from(list.first) + u32::from(i));
            most = self.refer_to(here, n, most)?;
            (here, other) = (other, here);
        }
        Ok(most)
    }

    // The k-th list entry, where it is not past the end.
    #[tactic(auto, unfolding(rl_spec::specs::Fields::entry_at, rl_spec::specs::Bytes::u16_at))]
    fn entry_there(self, k: usize) -> u16
        requires { lists_at self.seen + (k + 1) * 3 ≤ length self.image.now }
        ensures { result ≡ entry_at self.entry.image.now self.entry.seen k }
    {
        let at = lists_at(self.seen) + k * 3 + 1;
        u16::from_le_bytes([self.image[at], self.image[at + 1]])
    }

    // A reference from an expression to an expression, where the heights have room for all of them.
    #[tactic(auto, unfolding(rl_spec::specs::Fields::refer_to, rl_spec::specs::Fields::allowed, rl_spec::specs::Fields::child_height))]
    fn refer_to_node(self, n: u16, tall: u16) -> Result<u16, Cause>
        requires own { self.own ≡ Section.Expressions }
        requires room { self.seen.expressions ≤ length self.heights.now }
        ensures { result ≡ in_scope self.entry refer_to Target.Expression n tall }
    {
        if n < self.seen.expressions {
            Ok(self.heights[usize::from(n)].max(tall))
        } else {
            Err(Cause::BadReference)
        }
    }

    // The entries of a list of expressions in an expression, none of them past the end: the long lists are such, so this is for speed.
    #[tactic(auto, using(crate::proofs::Turns::turn), unfolding(rl_spec::specs::Fields::entries_from, rl_spec::specs::Fields::refer_to))]
    fn node_entries(self, list: Interval, tall: u16) -> Result<u16, Cause>
        requires there { lists_at self.seen + (list.first + list.count) * 3 ≤ length self.image.now }
        requires own { self.own ≡ Section.Expressions }
        requires room { self.seen.expressions ≤ length self.heights.now }
        ensures { result ≡ in_scope self.entry entries_from list.count list.first Target.Expression Target.Expression tall }
    {
        let mut most = tall;
        for i in 0..list.count {
            let n = self.entry_there(usize::from(list.first) + usize::from(i));
            most = self.refer_to_node(n, most)?;
        }
        Ok(most)
    }

    // The entries of a list: by the faster way where the list is of expressions in an expression, and the image and the heights have
    // the room that an accepted header gives them.
    fn all_entries(
        self,
        list: Interval,
        left: Target,
        right: Target,
        tall: u16,
    ) -> Result<u16, Cause>
        ensures { result ≡ in_scope self.entry entries_from list.count list.first left right tall }
    {
        let of_nodes = matches!(
            (self.own, left, right),
            (Section::Expressions, Target::Expression, Target::Expression)
        );
        let end = lists_at(self.seen) + (usize::from(list.first) + usize::from(list.count)) * 3;
        let limit = usize::from(self.seen.expressions);
        if of_nodes && end <= self.image.len() && limit <= self.heights.len() {
            self.node_entries(list, tall)
        } else {
            self.entries(list, left, right, tall)
        }
    }

    #[tactic(auto, unfolding(rl_spec::specs::Fields::list_of))]
    pub(crate) fn list_of(
        self,
        list: Interval,
        left: Target,
        right: Target,
        step: u8,
        tall: u16,
    ) -> Result<u16, Cause>
        ensures { result ≡ in_scope self.entry list_of list.first list.count left right step tall }
    {
        let end = u32::from(list.first) + u32::from(list.count);
        if u32::from(self.seen.lists) < end || !is_multiple(list.count, step) {
            return Err(Cause::BadReference);
        }
        self.all_entries(list, left, right, tall)
    }
}
