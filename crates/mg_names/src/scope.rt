//! What the names of a script stand for.

ghost use Rattle.std.specs.Prelude.{◌≡◌, [], ◌∷◌, ◌++◌, None, Some, IfSome, IfNone, OnOk, OnErr};
ghost use Rattle.mg_names.specs.Named.{Named};
ghost use Rattle.mg_names.specs.Scope.{lookup};
ghost use Rattle.mg_names.specs.Meaning.{declared_word};
ghost use Rattle.mg_names.specs.Cause.{at, no_word};
ghost use Rattle.mg_names.specs.Objects.{object_of};

use indexmap::IndexMap;
use mg_lex::Cause;
use mg_lists::NoMemory;
use mg_present::GenMap;
use mg_words::{Word, Words};
use std::alloc::Global;
use std::marker::Model;

/// What a name stands for. Groups and questions go by their places, from 0.
#[derive(Drop)]
pub(crate) enum Object {
    Group(u32),
    /// A word of the group.
    Word {
        group: u32,
        word: Word,
    },
    /// The words that generate a subgroup of the group.
    Subgroup {
        group: u32,
        words: Words,
    },
    /// A map from the generators of one group to words of another.
    Map {
        source: u32,
        target: u32,
        map: GenMap,
    },
    Question(u32),
}

impl Object {
    /// The word that it is, if it is one of the group at the place.
    pub(crate) fn word_in(&self, place: u32) -> Option<&Word>
        ensures letters { IfSome result (λ w.
            w.now.letters ≡ declared_word place (Some (object_of self.now))) }
        ensures none { IfNone result (declared_word place (Some (object_of self.now)) ≡ []) }
        ensures word { IfSome result (λ w. (n : Named) →
            no_word place n (Some (object_of self.now)) None ≡ []) }
        ensures other { IfNone result ((n : Named) →
            no_word place n (Some (object_of self.now)) None ≡ at Cause.WrongKind n.place) }
    {
        match self {
            Object::Word { group, word } => { if *group == place { Some(word) } else { None } }
            Object::Group(_) | Object::Subgroup { .. } | Object::Map { .. } | Object::Question(_) =>
                None,
        }
    }
}

/// The names that are declared, in order.
#[derive(Drop)]
pub(crate) struct Names {
    objects: IndexMap<Vec<u8>, Object>,
}

impl Model for Names {
    ghost use Rattle.std.specs.Prelude.{List};
    ghost use Rattle.mg_names.specs.Scope.{Declared};
    ghost use Rattle.mg_names.specs.Objects.{declared_in};

    ghost Value = { List Declared };

    ghost view = { λ n. declared_in n.objects.entries };
}

impl Names {
    pub(crate) fn new(alloc: Global) -> Names
        ensures { result ≡ [] }
    {
        Names {
            objects: IndexMap::new(alloc),
        }
    }

    /// What the name stands for.
    pub(crate) fn find(&self, text: &[u8]) -> Option<&Object>
        ensures found { IfSome result (λ object.
            lookup self.now text.now ≡ Some (object_of object.now)) }
        ensures none { IfNone result (lookup self.now text.now ≡ None) }
    {
        self.objects.get(text)
    }

    /// Declares a name, which isn't declared yet.
    pub(crate) fn declare(
        &mut self,
        alloc: Global,
        text: &[u8],
        object: Object,
    ) -> Result<(), NoMemory>
        requires { lookup self.old text.now ≡ None }
        ensures ok { OnOk result (self.new ≡ self.old ++
            record { name = text.now; object = object_of object } ∷ []) }
        ensures err { OnErr result (self.new ≡ self.old) }
    {
        let key = Vec::from_slice(alloc, text)?;
        match self.objects.insert(key, object)? {
            None => Ok(()),
            Some(_) => unreachable!(),
        }
    }
}
