//! Declarations of words and subgroups.

ghost use Rattle.std.specs.Prelude.{◌≡◌, ◌∷◌, ◌++◌, [], List as ListOf, IfOk, OnOk, map};
ghost use Rattle.mg_script.specs.declared.script.ScriptLine.{ScriptLine as LineOf};
ghost use Rattle.mg_names.specs.Asked.{AreWithin, IsKnown};
ghost use Rattle.mg_names.specs.Declaring.{AreWordsAhead, IsDeclared, subgroup_causes, word_causes, words_signs};
ghost use Rattle.mg_names.specs.Keeping.{Keeps, IsSound, Resolved};
ghost use Rattle.mg_names.specs.Cause.{in_word};
ghost use Rattle.mg_names.specs.Least.{Gets, least_of};
ghost use Rattle.std.specs.List.{flat_map};
ghost use Rattle.mg_names.specs.Meaning.{after, value};
ghost use Rattle.mg_names.specs.Name.{named_of};
ghost use Rattle.mg_names.specs.Named.{Named, Word as WordOf, word, subgroup};
ghost use Rattle.mg_names.specs.Scope.{Scope as ScopeOf};
ghost use Rattle.mg_names.specs.Sign.{statement_signs, tail_of, word_signs, the_mark, listed_on};
ghost use Rattle.mg_names.specs.Within.{IsSized, IsSizedWord};

use crate::cursor::{Cursor, Name};
use crate::home::Home;
use crate::known::Known;
use crate::least::{Fault, Found};
use crate::resolver::Resolver;
use crate::scope::Object;
use crate::words::word;
use mg_lex::Mark;
use mg_lists::NoMemory;
use mg_words::Words;
use std::alloc::Global;

impl Resolver {
    /// The names and the groups.
    pub(crate) fn known(&self) -> Known
        requires { IsSound self.now }
        ensures known { (scope : ScopeOf) → Keeps scope self.now → IsKnown scope result }
        ensures within { AreWithin result }
        ensures groups { result.groups.now ≡ self.now.plan.groups }
    {
        Known {
            names: &self.names,
            groups: &self.plan.groups,
        }
    }

    /// The word that a statement declares, and the causes that the statement shows.
    fn word_object(
        &self,
        alloc: Global,
        name: Name,
        group: Name,
        cursor: &mut Cursor,
        found: &mut Found,
    ) -> Result<Option<Object>, NoMemory>
        requires sound { IsSound self.now }
        requires ahead { (w : WordOf) × (cursor.old ≡ word_signs w) × IsSizedWord w }
        ensures { (scope : ScopeOf) (w : WordOf) → Keeps scope self.now →
            cursor.old ≡ word_signs w →
            IfOk result (λ object. IsDeclared scope (named_of name.entry)
            (word_causes scope (named_of name.entry) (named_of group.entry) w)
            (after scope (word (named_of name.entry)
            (named_of group.entry) w)) found.old found.new object) }
    {
        self.names.check_new(name, found);
        let Some(place) = self.names.group(group, found) else {
            return Ok(None);
        };
        let known = self.known();
        let home = known.home(place);
        let word = word(alloc, cursor, &home, found)?;
        Ok(Some(Object::Word { group: place, word }))
    }

    /// `word NAME in GROUP = WORD`
    pub(crate) fn word(
        &mut self,
        alloc: Global,
        cursor: &mut Cursor,
    ) -> Result<Option<Fault>, NoMemory>
        requires sound { IsSound self.old }
        requires ahead { (n : Named) × (g : Named) × (w : WordOf) ×
            (cursor.old ≡ tail_of (statement_signs (word n g w))) × IsSized (word n g w) }
        ensures { (scope : ScopeOf) (line : LineOf) (n : Named) (g : Named) (w : WordOf) →
            Keeps scope self.old → cursor.old ≡ tail_of (statement_signs (word n g w)) →
            IfOk result (λ fault. Resolved scope line (word n g w) (least_of fault) self.new) }
    {
        let name = cursor.name();
        cursor.skip();
        let group = cursor.name();
        cursor.skip();
        let mut found = Found::new();
        let object = self.word_object(alloc, name, group, cursor, &mut found)?;
        if let Some(fault) = found.least() {
            return Ok(Some(fault));
        }
        if let Some(object) = object {
            self.declare(alloc, name, object)?;
        }
        Ok(None)
    }

    /// The subgroup that a statement declares, and the causes that the statement shows.
    fn subgroup_object(
        &self,
        alloc: Global,
        name: Name,
        group: Name,
        cursor: &mut Cursor,
        found: &mut Found,
    ) -> Result<Option<Object>, NoMemory>
        requires sound { IsSound self.now }
        requires ahead { AreWordsAhead cursor.old }
        ensures { (scope : ScopeOf) (ws : ListOf WordOf) → Keeps scope self.now →
            cursor.old ≡ words_signs ws →
            IfOk result (λ object. IsDeclared scope (named_of name.entry)
            (subgroup_causes scope (named_of name.entry) (named_of group.entry) ws)
            (after scope (subgroup (named_of name.entry)
            (named_of group.entry) ws)) found.old found.new object) }
    {
        self.names.check_new(name, found);
        let Some(place) = self.names.group(group, found) else {
            return Ok(None);
        };
        let known = self.known();
        let home = known.home(place);
        let words = read_words(alloc, cursor, &home, found)?;
        Ok(Some(Object::Subgroup {
            group: place,
            words,
        }))
    }

    /// `subgroup NAME of GROUP = < WORDS >`
    pub(crate) fn subgroup(
        &mut self,
        alloc: Global,
        cursor: &mut Cursor,
    ) -> Result<Option<Fault>, NoMemory>
        requires sound { IsSound self.old }
        requires ahead { (n : Named) × (g : Named) × (ws : ListOf WordOf) ×
            (cursor.old ≡ tail_of (statement_signs (subgroup n g ws))) × IsSized (subgroup n g ws) }
        ensures { (scope : ScopeOf) (line : LineOf) (n : Named) (g : Named) (ws : ListOf WordOf) →
            Keeps scope self.old → cursor.old ≡ tail_of (statement_signs (subgroup n g ws)) →
            IfOk result (λ fault. Resolved scope line (subgroup n g ws) (least_of fault) self.new) }
    {
        let name = cursor.name();
        cursor.skip();
        let group = cursor.name();
        cursor.skip();
        cursor.skip();
        let mut found = Found::new();
        let object = self.subgroup_object(alloc, name, group, cursor, &mut found)?;
        if let Some(fault) = found.least() {
            return Ok(Some(fault));
        }
        if let Some(object) = object {
            self.declare(alloc, name, object)?;
        }
        Ok(None)
    }
}

/// Reads words with commas between them.
fn read_words(
    alloc: Global,
    cursor: &mut Cursor,
    home: &Home,
    found: &mut Found,
) -> Result<Words, NoMemory>
    requires { AreWordsAhead cursor.old }
    ensures letters { (ws : ListOf WordOf) → cursor.old ≡ words_signs ws →
        IfOk result (λ words. words ≡ map (value home.now.names.now home.now.place home.now.generators.now) ws) }
    ensures causes { (ws : ListOf WordOf) → cursor.old ≡ words_signs ws →
        OnOk result (Gets (flat_map (in_word home.now.names.now home.now.place home.now.generators.now) ws) found.old found.new) }
{
    let mut words = Words::new(alloc);
    'members: while !cursor.is(Mark::Greater) {
        let next = word(alloc, cursor, home, found)?;
        words.push(next)?;
        go_on(cursor);
    }
    Ok(words)
}

/// Goes on behind a comma, if one comes next.
fn go_on(cursor: &mut Cursor)
    ensures { (ws : ListOf WordOf) →
        cursor.old ≡ listed_on (map word_signs ws) ++ the_mark Mark.Greater ∷ [] →
        cursor.new ≡ words_signs ws }
{
    if cursor.is(Mark::Comma) {
        cursor.skip();
    }
}
