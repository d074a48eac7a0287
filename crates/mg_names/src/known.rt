//! What is declared, as words and questions see it.

ghost use Rattle.std.specs.Prelude.{◌≡◌, ◌<◌, IfOk, length};
ghost use Rattle.mg_names.specs.Asked.{IsKnown, IsHome, AreWithin};
ghost use Rattle.mg_names.specs.Meaning.{group_at};
ghost use Rattle.mg_names.specs.Scope.{Scope};

use crate::home::Home;
use crate::plan::{PlanGroup, PlanGroups};
use crate::scope::Names;
use mg_lists::NoMemory;
use mg_present::Presentation;
use std::alloc::Global;

/// The names and the groups that are declared.
#[derive(Clone, Copy)]
pub(crate) struct Known<'a> {
    pub(crate) names: &'a Names,
    pub(crate) groups: &'a PlanGroups,
}

impl<'a> Known<'a> {
    /// The group at a place.
    pub(crate) fn group(&self, place: u32) -> &'a PlanGroup
        requires { place < length self.now.groups.now }
        ensures { (scope : Scope) → IsKnown scope self.now → result.now ≡ group_at scope place }
    {
        &self.groups.as_slice()[place as usize]
    }

    /// The presentation of the group at a place.
    pub(crate) fn presentation(&self, alloc: Global, place: u32) -> Result<Presentation, NoMemory>
        requires { place < length self.now.groups.now }
        ensures { (scope : Scope) → IsKnown scope self.now →
            IfOk result (λ group. group ≡ (group_at scope place).group) }
    {
        self.group(place).group.copy(alloc)
    }

    /// The group at a place, as words see it.
    pub(crate) fn home(&self, place: u32) -> Home<'a>
        requires within { AreWithin self.now }
        requires place { place < length self.now.groups.now }
        ensures { (scope : Scope) → IsKnown scope self.now → IsHome scope place result }
    {
        Home {
            names: self.names,
            place,
            generators: &self.group(place).generators,
        }
    }
}
