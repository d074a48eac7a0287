//! What names must stand for.

ghost use Rattle.std.specs.Prelude.{◌≡◌, ◌≢◌, Some, None, IfSome, IfNone, ℕ, List as ListOf, ℤ};
ghost use Rattle.mg_names.specs.Cause.{taken_if, not_a_group, not_a_subgroup, not_a_map, not_a_question};
ghost use Rattle.mg_names.specs.Least.{Gets};
ghost use Rattle.mg_names.specs.Name.{named_of};
ghost use Rattle.mg_names.specs.Objects.{object_of};
ghost use Rattle.mg_names.specs.Scope.{a_group, a_subgroup, a_map, a_question, lookup};

use crate::cursor::Name;
use crate::least::Found;
use crate::scope::{Names, Object};
use mg_lex::Cause;
use mg_present::GenMap;
use mg_words::Words;

/// The words of a subgroup, and the place of its group.
#[derive(Clone, Copy)]
pub(crate) struct Subgroup<'a> {
    pub(crate) group: u32,
    pub(crate) words: &'a Words,
}

/// A map, and the places of its groups.
#[derive(Clone, Copy)]
pub(crate) struct Mapping<'a> {
    pub(crate) source: u32,
    pub(crate) target: u32,
    pub(crate) map: &'a GenMap,
}

impl Object {
    fn group(&self) -> Option<u32>
        ensures some { IfSome result (λ place. object_of self.now ≡ a_group place) }
        ensures none { IfNone result ((place : ℕ) → object_of self.now ≢ a_group place) }
    {
        match self {
            Object::Group(place) => Some(*place),
            _ => None,
        }
    }

    fn subgroup(&self) -> Option<Subgroup>
        ensures some { IfSome result (λ s. object_of self.now ≡ a_subgroup s.group s.words.now) }
        ensures none { IfNone result ((group : ℕ) (words : ListOf (ListOf ℤ)) →
            object_of self.now ≢ a_subgroup group words) }
    {
        match self {
            Object::Subgroup { group, words } => Some(Subgroup {
                group: *group,
                words,
            }),
            _ => None,
        }
    }

    fn mapping(&self) -> Option<Mapping>
        ensures some { IfSome result (λ m. object_of self.now ≡ a_map m.source m.target m.map.now) }
        ensures none { IfNone result ((source target : ℕ) (images : ListOf (ListOf ℤ)) →
            object_of self.now ≢ a_map source target images) }
    {
        match self {
            Object::Map {
                source,
                target,
                map,
            } => Some(Mapping {
                source: *source,
                target: *target,
                map,
            }),
            _ => None,
        }
    }

    fn question(&self) -> Option<u32>
        ensures some { IfSome result (λ place. object_of self.now ≡ a_question place) }
        ensures none { IfNone result ((place : ℕ) → object_of self.now ≢ a_question place) }
    {
        match self {
            Object::Question(place) => Some(*place),
            _ => None,
        }
    }
}

impl Names {
    /// A name that is declared must not be there already.
    #[tactic(auto, using(crate::proofs::NameKinds::taken_gets, crate::proofs::NameKinds::new_gets))]
    pub(crate) fn check_new(&self, name: Name, found: &mut Found)
        ensures { Gets (taken_if (named_of name.entry)
            (lookup self.now name.entry.text.now)) found.old found.new }
    {
        if self.find(name.text).is_some() {
            found.offer(name.place, Cause::NameTaken);
        }
    }

    /// The place of the group that the name must stand for.
    #[tactic(auto, using(crate::proofs::NameKinds::group_gets, crate::proofs::NameKinds::no_group_gets, crate::proofs::NameKinds::unknown_group_gets))]
    pub(crate) fn group(&self, name: Name, found: &mut Found) -> Option<u32>
        ensures causes { Gets (not_a_group (named_of name.entry)
            (lookup self.now name.entry.text.now)) found.old found.new }
        ensures some { IfSome result (λ place.
            lookup self.now name.entry.text.now ≡ Some (a_group place)) }
        ensures none { IfNone result ((place : ℕ) →
            lookup self.now name.entry.text.now ≢ Some (a_group place)) }
    {
        let Some(object) = self.find(name.text) else {
            found.offer(name.place, Cause::UnknownName);
            return None;
        };
        let place = object.group();
        if place.is_none() {
            found.offer(name.place, Cause::WrongKind);
        }
        place
    }

    /// The subgroup that the name must stand for.
    #[tactic(auto, using(crate::proofs::NameKinds::subgroup_gets, crate::proofs::NameKinds::no_subgroup_gets, crate::proofs::NameKinds::unknown_subgroup_gets))]
    pub(crate) fn subgroup(&self, name: Name, found: &mut Found) -> Option<Subgroup>
        ensures causes { Gets (not_a_subgroup (named_of name.entry)
            (lookup self.now name.entry.text.now)) found.old found.new }
        ensures some { IfSome result (λ s.
            lookup self.now name.entry.text.now ≡ Some (a_subgroup s.group s.words.now)) }
        ensures none { IfNone result ((group : ℕ) (words : ListOf (ListOf ℤ)) →
            lookup self.now name.entry.text.now ≢ Some (a_subgroup group words)) }
    {
        let Some(object) = self.find(name.text) else {
            found.offer(name.place, Cause::UnknownName);
            return None;
        };
        let subgroup = object.subgroup();
        if subgroup.is_none() {
            found.offer(name.place, Cause::WrongKind);
        }
        subgroup
    }

    /// The map that the name must stand for.
    #[tactic(auto, using(crate::proofs::NameKinds::map_gets, crate::proofs::NameKinds::no_map_gets, crate::proofs::NameKinds::unknown_map_gets))]
    pub(crate) fn mapping(&self, name: Name, found: &mut Found) -> Option<Mapping>
        ensures causes { Gets (not_a_map (named_of name.entry)
            (lookup self.now name.entry.text.now)) found.old found.new }
        ensures some { IfSome result (λ m.
            lookup self.now name.entry.text.now ≡ Some (a_map m.source m.target m.map.now)) }
        ensures none { IfNone result ((source target : ℕ) (images : ListOf (ListOf ℤ)) →
            lookup self.now name.entry.text.now ≢ Some (a_map source target images)) }
    {
        let Some(object) = self.find(name.text) else {
            found.offer(name.place, Cause::UnknownName);
            return None;
        };
        let mapping = object.mapping();
        if mapping.is_none() {
            found.offer(name.place, Cause::WrongKind);
        }
        mapping
    }

    /// The place of the question that the name must stand for.
    #[tactic(auto, using(crate::proofs::NameKinds::question_gets, crate::proofs::NameKinds::no_question_gets, crate::proofs::NameKinds::unknown_question_gets))]
    pub(crate) fn question(&self, name: Name, found: &mut Found) -> Option<u32>
        ensures causes { Gets (not_a_question (named_of name.entry)
            (lookup self.now name.entry.text.now)) found.old found.new }
        ensures some { IfSome result (λ place.
            lookup self.now name.entry.text.now ≡ Some (a_question place)) }
        ensures none { IfNone result ((place : ℕ) →
            lookup self.now name.entry.text.now ≢ Some (a_question place)) }
    {
        let Some(object) = self.find(name.text) else {
            found.offer(name.place, Cause::UnknownName);
            return None;
        };
        let place = object.question();
        if place.is_none() {
            found.offer(name.place, Cause::WrongKind);
        }
        place
    }
}
