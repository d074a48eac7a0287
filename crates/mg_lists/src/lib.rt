//! The one list type of the workspace: a growable list that contracts see as the list of its
//! members' values. Lists with names of their own (names, tokens, numbers) are aliases of it.
#![tactic(auto)]

ghost use Rattle.std.specs.Prelude.{◌≡◌, [], ◌∷◌, ◌++◌, OnOk, OnErr, IfSome, IfNone};
ghost use Rattle.std.specs.Cmp.{on_equiv, on_total, on_po, on_per};
ghost use Rattle.std.specs.Cmp.Lexicographic.{pointwise, slice_cmp, slice_partial_cmp, lists_equiv, lists_agrees, lists_total, lists_ties, lists_po, lists_per};

use std::alloc::{AllocError, Global};
use std::cmp::Ordering;
use std::marker::Model;

/// Want of memory.
pub type NoMemory = AllocError;

/// A list of members, which grows and shrinks at its end.
#[derive(Debug, Drop)]
pub struct List<T> {
    members: Vec<T>,
}

impl<T> Model for List<T> {
    ghost use Rattle.std.specs.Prelude.{List as ListOf};

    ghost Value = { ListOf T };

    ghost view = { λ l. l.members.items };
}

impl<T> List<T> {
    /// The empty list, which takes no memory.
    pub fn new(alloc: Global) -> List<T>
        ensures { result ≡ [] }
    {
        List {
            members: Vec::new(alloc),
        }
    }

    /// Appends a member.
    pub fn push(&mut self, member: T) -> Result<(), NoMemory>
    where
        T: Drop,
        ensures ok { OnOk result (self.new ≡ self.old ++ member ∷ []) }
        ensures err { OnErr result (self.new ≡ self.old) }
    {
        self.members.push(member)?;
        Ok(())
    }

    /// Appends copies of members, in order.
    pub fn extend_from_slice(&mut self, members: &[T]) -> Result<(), NoMemory>
    where
        T: Copy,
        ensures ok { OnOk result (self.new ≡ self.old ++ members.now) }
        ensures err { OnErr result (self.new ≡ self.old) }
    {
        self.members.extend_from_slice(members)
    }

    /// Takes the last member out; None exactly where there is none.
    pub fn pop(&mut self) -> Option<T>
        ensures none { IfNone result ((self.old ≡ []) × (self.new ≡ [])) }
        ensures some { IfSome result (λ last. self.old ≡ self.new ++ last ∷ []) }
    {
        self.members.pop()
    }

    /// Lends the members in order.
    pub fn as_slice(&self) -> &[T]
        ensures { result.now ≡ self.now }
    {
        self.members.as_slice()
    }
}

impl<T: PartialEq> PartialEq for List<T> {
    ghost eq = { pointwise T.eq };

    ghost laws = { lists_per T.laws };

    fn eq(&self, other: &List<T>) -> bool {
        self.members == other.members
    }
}

impl<T: Eq> Eq for List<T> {
    ghost laws = { lists_equiv T.Eq.laws };
}

impl<T: PartialOrd> PartialOrd for List<T> {
    ghost partial_cmp = { slice_partial_cmp T.partial_cmp };

    ghost laws = { lists_po T.PartialOrd.laws };

    fn partial_cmp(&self, other: &List<T>) -> Option<Ordering> {
        self.members.partial_cmp(&other.members)
    }
}

impl<T: Ord> Ord for List<T> {
    ghost cmp = { slice_cmp T.cmp };

    ghost total = { lists_total T.total };

    ghost matches_partial_cmp = { lists_agrees T.matches_partial_cmp };

    ghost matches_eq = { lists_ties T.cmp T.matches_eq };

    fn cmp(&self, other: &List<T>) -> Ordering {
        self.members.cmp(&other.members)
    }
}

#[cfg(test)]
mod tests {
    use super::*;
    use std::test::Fail;

    #[test]
    fn grows_and_shrinks_at_its_end(rt: HostRuntime) -> Result<(), Fail> {
        let mut list: List<u32> = List::new(rt.alloc());
        assert_eq!(rt; list.pop(), None);
        list.push(7)?;
        list.push(8)?;
        assert_eq!(rt; list.as_slice(), [7, 8].as_slice());
        let mut other: List<u32> = List::new(rt.alloc());
        other.extend_from_slice(&[7])?;
        assert_eq!(rt; list.cmp(&other), Ordering::Greater);
        assert_eq!(rt; list.pop(), Some(8));
        assert!(rt; list == other);
        assert_eq!(rt; list.partial_cmp(&other), Some(Ordering::Equal));
        Ok(())
    }
}
