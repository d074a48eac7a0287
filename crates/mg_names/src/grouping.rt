//! Declarations of groups.

ghost use Rattle.std.specs.Prelude.{◌≡◌, ◌∷◌, ◌++◌, [], None, Option, List as ListOf, IfOk, OnOk, ℕ, length, map, ◌≤◌};
ghost use Rattle.mg_present.specs.Presentation.{Fits};
ghost use Rattle.mg_script.specs.declared.script.ScriptLine.{ScriptLine as LineOf};
ghost use Rattle.mg_words.specs.Reduction.{free_form};
ghost use Rattle.mg_words.specs.Word.{inv, IsOver};
ghost use Rattle.mg_names.specs.Cause as cause;
ghost use Rattle.mg_names.specs.Grouped.{again, EndsRelation, EndsList, AreGeneratorsRead, IsNewHome, IsRelationAhead, IsRelationRead, AreRelationsAhead, AreRelationsRead, group_signs, group_with, IsGroupAhead, IsGroupRead};
ghost use Rattle.mg_names.specs.Keeping.{Keeps, IsSound, Resolved};
ghost use Rattle.mg_names.specs.Least.{Gets, least_of};
ghost use Rattle.mg_names.specs.Meaning.{declaring, relations_in, with_group};
ghost use Rattle.mg_names.specs.Name.{named_of};
ghost use Rattle.mg_names.specs.Named.{Named, Relation as RelationOf, group};
ghost use Rattle.mg_names.specs.Scope.{Scope as ScopeOf, a_group, lookup};
ghost use Rattle.mg_names.specs.Sign.{Sign, bar_signs, generator_signs, listed, listed_on, relation_signs, statement_signs, tail_of, the_mark};
ghost use Rattle.mg_names.specs.Within.{IsSized};

use crate::cursor::{Cursor, Name};
use crate::home::{Home, place_of};
use crate::least::{Fault, Found};
use crate::plan::PlanGroup;
use crate::resolver::Resolver;
use crate::scope::Object;
use crate::texts::text_of;
use crate::words::word;
use mg_lex::{Cause, Mark, Names, Text};
use mg_lists::NoMemory;
use mg_present::Presentation;
use mg_words::{Word, Words, concat, inverse, reduce};
use std::alloc::Global;

/// The names of the generators of a group, and its relators.
#[derive(Drop)]
pub(crate) struct Parts {
    generators: Names,
    relators: Words,
}

/// Goes on behind a comma, if there is one.
#[tactic(auto, using(crate::proofs::Groups::comma_skipped, crate::proofs::Groups::comma_none))]
fn skip_comma(cursor: &mut Cursor)
    ensures skipped { (members : ListOf (ListOf Sign)) (rest : ListOf Sign) →
        cursor.old ≡ listed_on members ++ rest → EndsList rest →
        cursor.new ≡ listed members ++ rest }
    ensures no_longer { length cursor.new ≤ length cursor.old }
{
    if cursor.is(Mark::Comma) {
        cursor.skip();
    }
}

/// Goes on behind a bar, if there is one.
#[tactic(auto, using(crate::proofs::Groups::bar_skipped, crate::proofs::Groups::bar_none))]
fn skip_bar(cursor: &mut Cursor)
    ensures { (rs : Option (ListOf RelationOf)) →
        cursor.old ≡ bar_signs rs ++ the_mark Mark.Greater ∷ [] →
        cursor.new ≡ listed (map relation_signs (relations_in rs)) ++ the_mark Mark.Greater ∷ [] }
{
    if cursor.is(Mark::Bar) {
        cursor.skip();
    }
}

/// Whether a text is one of these.
fn is_among(texts: &[Text], text: &[u8]) -> bool
    ensures { result ≡ cause.is_among texts.now text.now }
{
    place_of(texts, text).is_some()
}

/// A generator that stands among those before it shows a cause.
#[tactic(auto, using(crate::proofs::Groups::again_gets, crate::proofs::Groups::again_none))]
fn check_generator(names: &Names, name: Name, found: &mut Found)
    ensures { Gets (again names.now (named_of name.entry)) found.old found.new }
{
    if is_among(names.as_slice(), name.text) {
        found.offer(name.place, Cause::GeneratorTwice);
    }
}

/// Adds the name of a generator, which must not stand among those before it.
fn add_generator(
    alloc: Global,
    names: &mut Names,
    name: Name,
    found: &mut Found,
) -> Result<(), NoMemory>
    ensures names { OnOk result (names.new ≡ names.old ++ name.entry.text.now ∷ []) }
    ensures causes { Gets (again names.old (named_of name.entry)) found.old found.new }
{
    check_generator(names, name, found);
    let text = text_of(alloc, name.text)?;
    names.push(text)
}

/// Reads the names of generators.
fn read_generators(alloc: Global, cursor: &mut Cursor, found: &mut Found) -> Result<Names, NoMemory>
    ensures { (ns : ListOf Named) (rest : ListOf Sign) →
        cursor.old ≡ listed (map generator_signs ns) ++ rest → EndsList rest →
        IfOk result (λ names. AreGeneratorsRead ns rest found.old names cursor.new found.new) }
{
    let mut names = Names::new(alloc);
    while let Some(name) = cursor.take_name() {
        add_generator(alloc, &mut names, name, found)?;
        skip_comma(cursor);
    }
    Ok(names)
}

/// The product of a word and the inverse of another, freely reduced.
fn quotient(alloc: Global, left: &Word, right: &Word) -> Result<Word, NoMemory>
    requires { (m : ℕ) × IsOver m left.now.letters × IsOver m right.now.letters }
    ensures { IfOk result (λ w. w.letters ≡ free_form (left.now.letters ++ inv right.now.letters)) }
{
    let inverse = inverse(alloc, right)?;
    let product = concat(alloc, left, &inverse)?;
    reduce(alloc, &product)
}

/// Reads a relation, which gives a relator.
fn read_relation(
    alloc: Global,
    cursor: &mut Cursor,
    home: &Home,
    found: &mut Found,
) -> Result<Word, NoMemory>
    requires home { IsNewHome home.now }
    requires ahead { IsRelationAhead cursor.old }
    ensures { (r : RelationOf) (rest : ListOf Sign) → cursor.old ≡ relation_signs r ++ rest →
        EndsRelation rest →
        IfOk result (λ w. IsRelationRead home.now r rest found.old w.letters cursor.new found.new) }
{
    let left = word(alloc, cursor, home, found)?;
    if !cursor.is(Mark::Equals) {
        return Ok(left);
    }
    cursor.skip();
    let right = word(alloc, cursor, home, found)?;
    quotient(alloc, &left, &right)
}

/// Reads relations.
fn read_relations(
    alloc: Global,
    cursor: &mut Cursor,
    home: &Home,
    found: &mut Found,
) -> Result<Words, NoMemory>
    requires home { IsNewHome home.now }
    requires ahead { AreRelationsAhead cursor.old }
    ensures { (rs : ListOf RelationOf) (rest : ListOf Sign) →
        cursor.old ≡ listed (map relation_signs rs) ++ rest → EndsList rest →
        IfOk result (λ relators. AreRelationsRead home.now.names.now home.now.place home.now.generators.now rs found.old relators found.new) }
{
    let mut relators = Words::new(alloc);
    while cursor.goes_on() {
        let relator = read_relation(alloc, cursor, home, found)?;
        relators.push(relator)?;
        skip_comma(cursor);
    }
    Ok(relators)
}

impl Resolver {
    /// The place of the next group.
    fn next_group(&self) -> u32
        requires { IsSound self.now }
        ensures { result ≡ length self.now.plan.groups }
    {
        self.plan.groups.as_slice().len() as u32
    }

    /// Reads the relators of the next group, which has generators with these names.
    fn read_relators(
        &self,
        alloc: Global,
        cursor: &mut Cursor,
        generators: &Names,
        found: &mut Found,
    ) -> Result<Words, NoMemory>
        requires sound { IsSound self.now }
        requires few { length generators.now ≤ 64 }
        requires ahead { AreRelationsAhead cursor.old }
        ensures { (rs : ListOf RelationOf) (rest : ListOf Sign) →
            cursor.old ≡ listed (map relation_signs rs) ++ rest → EndsList rest →
            IfOk result (λ relators. AreRelationsRead self.now.names (length self.now.plan.groups) generators.now rs found.old relators found.new) }
    {
        let home = Home {
            names: &self.names,
            place: self.next_group(),
            generators,
        };
        read_relations(alloc, cursor, &home, found)
    }

    /// Reads the generators and the relations of the next group.
    fn read_parts(
        &self,
        alloc: Global,
        cursor: &mut Cursor,
        found: &mut Found,
    ) -> Result<Parts, NoMemory>
        requires sound { IsSound self.now }
        requires ahead { IsGroupAhead cursor.old }
        ensures { (generators : ListOf Named) (rs : Option (ListOf RelationOf)) →
            cursor.old ≡ group_signs generators rs →
            IfOk result (λ parts. IsGroupRead self.now.names (length self.now.plan.groups) generators (relations_in rs) found.old parts found.new) }
    {
        cursor.skip_all(2);
        let generators = read_generators(alloc, cursor, found)?;
        skip_bar(cursor);
        let relators = self.read_relators(alloc, cursor, &generators, found)?;
        Ok(Parts {
            generators,
            relators,
        })
    }

    /// Declares a group.
    #[tactic(auto, using(crate::proofs::Groups::fits_count))]
    fn declare_group(&mut self, alloc: Global, name: Name, parts: Parts) -> Result<(), NoMemory>
        requires sound { IsSound self.old }
        requires new { lookup self.old.names name.text.now ≡ None }
        requires fits { Fits (length parts.generators) parts.relators }
        ensures { (scope : ScopeOf) → Keeps scope self.old →
            OnOk result (Keeps (declaring (with_group scope (group_with (named_of name.entry) parts)) (named_of name.entry) (a_group (length scope.plan.groups))) self.new) }
    {
        let place = self.next_group();
        let count = parts.generators.as_slice().len() as u32;
        let text = text_of(alloc, name.text)?;
        let group = Presentation::new(count, parts.relators);
        self.add_group(PlanGroup {
            name: text,
            generators: parts.generators,
            group,
        })?;
        self.declare(alloc, name, Object::Group(place))
    }

    /// `group NAME = < GENERATORS | RELATIONS >`
    pub(crate) fn group(
        &mut self,
        alloc: Global,
        cursor: &mut Cursor,
    ) -> Result<Option<Fault>, NoMemory>
        requires sound { IsSound self.old }
        requires ahead { (n : Named) × (generators : ListOf Named) ×
            (rs : Option (ListOf RelationOf)) ×
            (cursor.old ≡ tail_of (statement_signs (group n generators rs))) ×
            IsSized (group n generators rs) }
        ensures { (scope : ScopeOf) (line : LineOf) (n : Named) (generators : ListOf Named)
            (rs : Option (ListOf RelationOf)) → Keeps scope self.old →
            cursor.old ≡ tail_of (statement_signs (group n generators rs)) →
            IfOk result (λ fault. Resolved scope line (group n generators rs)
            (least_of fault) self.new) }
    {
        let mut found = Found::new();
        let name = cursor.name();
        self.names.check_new(name, &mut found);
        let parts = self.read_parts(alloc, cursor, &mut found)?;
        if let Some(fault) = found.least() {
            return Ok(Some(fault));
        }
        self.declare_group(alloc, name, parts)?;
        Ok(None)
    }
}
