//! Declarations of maps.

ghost use Rattle.std.specs.Prelude.{◌≡◌, ◌<◌, [], ◌++◌, if◌then◌else◌, nat_eq, position, ℕ, Option, List as ListOf, IfOk, OnOk, IfSome, length, map};
ghost use Rattle.std.specs.List.{flat_map};
ghost use Rattle.std.specs.Cmp.Lexicographic.{pointwise};
ghost use Rattle.mg_script.specs.declared.script.ScriptLine.{ScriptLine as LineOf};
ghost use Rattle.mg_names.specs.Cause as spec;
ghost use Rattle.mg_names.specs.Cause.{at, in_mapping, last_place, lefts, missing, not_a_group, not_a_letter, twice};
ghost use Rattle.mg_names.specs.Keeping.{Keeps, IsSound, Resolved};
ghost use Rattle.mg_names.specs.Least.{Gets, least_of};
ghost use Rattle.mg_names.specs.Mapped.{value_at, causes_at, AreArrowsAhead, IsArrowAhead, IsHeadingAhead, IsHeading, IsOneRead, AreRead, IsHomeOf, NamesGroup, IsMapOf, arrows_signs, further_signs, heading_signs};
ghost use Rattle.mg_names.specs.Meaning.{group_at, image_of_generator, images, texts, value, value_or_none};
ghost use Rattle.mg_names.specs.Name.{named_of};
ghost use Rattle.mg_names.specs.Named.{Named, Arrow as ArrowOf, Word as WordOf, mapping};
ghost use Rattle.mg_names.specs.Reads.{IsWordAhead};
ghost use Rattle.mg_names.specs.Scope.{Scope as ScopeOf, Object as ObjectOf, lookup};
ghost use Rattle.mg_names.specs.Sign.{Sign, Stops, arrow_signs, statement_signs, tail_of, word_signs};
ghost use Rattle.mg_names.specs.Within.{IsSized};

use crate::cursor::{Cursor, Name};
use crate::home::Home;
use crate::known::Known;
use crate::least::{Fault, Found};
use crate::resolver::Resolver;
use crate::scope::Object;
use crate::skipping::skip_word;
use crate::words::word;
use indexmap::IndexSet;
use mg_lex::{Cause, Mark, Text};
use mg_lists::{List, NoMemory};
use mg_present::GenMap;
use mg_words::{Word, Words};
use std::alloc::Global;

/// The names before the arrows of a map.
#[derive(Clone, Copy)]
pub(crate) struct Heading<'a> {
    name: Name<'a>,
    source: Name<'a>,
    target: Name<'a>,
}

/// `NAME : SOURCE -> TARGET = [`
fn read_heading<'a>(cursor: &mut Cursor<'a>) -> Heading<'a>
    requires { IsHeadingAhead cursor.old }
    ensures { (n a b : Named) (rest : ListOf Sign) → cursor.old ≡ heading_signs n a b rest →
        IsHeading n a b rest result cursor.new }
{
    let name = cursor.name();
    cursor.skip();
    let source = cursor.name();
    cursor.skip();
    let target = cursor.name();
    cursor.skip_all(2);
    Heading {
        name,
        source,
        target,
    }
}

/// Goes on behind a comma, if there is one.
fn skip_comma(cursor: &mut Cursor)
    ensures { (arrows : ListOf ArrowOf) → cursor.old ≡ further_signs arrows →
        cursor.new ≡ arrows_signs arrows }
{
    if cursor.is(Mark::Comma) {
        cursor.skip();
    }
}

/// The image on the right of an arrow. Where the target isn't known its names aren't looked up.
fn read_image(
    alloc: Global,
    cursor: &mut Cursor,
    target: &Option<Home>,
    found: &mut Found,
) -> Result<Word, NoMemory>
    requires { IsWordAhead cursor.old }
    ensures letters { (w : WordOf) (rest : ListOf Sign) → cursor.old ≡ word_signs w ++ rest →
        Stops rest → IfOk result (λ image. image.letters ≡ value_at target.now w) }
    ensures rest { (w : WordOf) (rest : ListOf Sign) → cursor.old ≡ word_signs w ++ rest →
        Stops rest → OnOk result (cursor.new ≡ rest) }
    ensures causes { (w : WordOf) (rest : ListOf Sign) → cursor.old ≡ word_signs w ++ rest →
        Stops rest → OnOk result (Gets (causes_at target.now w) found.old found.new) }
{
    match target {
        Some(home) => word(alloc, cursor, home, found),
        None => {
            skip_word(cursor);
            Ok(Word::new(alloc))
        }
    }
}

/// The place of the first name with this text.
fn place_among(names: &[Name], text: &[u8]) -> Option<usize>
    ensures place { result ≡ position (λ n. pointwise nat_eq n.text.now text.now) names.now }
    ensures within { IfSome result (λ i. i < length names.now) }
{
    names.iter().position(|name| name.text == text)
}

/// Whether a name with this text is there.
fn is_among(names: &[Name], text: &[u8]) -> bool
    ensures { result ≡ spec.is_among (texts (map named_of names.now)) text.now }
{
    place_among(names, text).is_some()
}

/// Whether each of the texts is that of a name.
fn has_all(names: &[Name], generators: &[Text]) -> bool
    ensures { result ≡ spec.has_all (texts (map named_of names.now)) generators.now }
{
    for generator in generators {
        if !is_among(names, generator.as_slice()) {
            return false;
        }
    }
    true
}

/// Each name that stands already among those before it shows a cause.
fn check_twice(alloc: Global, names: &[Name], found: &mut Found) -> Result<(), NoMemory>
    ensures { OnOk result (Gets (twice (map named_of names.now)) found.old found.new) }
{
    let mut earlier = IndexSet::new(alloc);
    for name in names {
        if !earlier.insert(name.text)? {
            found.offer(name.place, Cause::GeneratorTwice);
        }
    }
    Ok(())
}

/// The arrows of a map.
#[derive(Drop)]
pub(crate) struct Arrows<'a> {
    /// The names on their left.
    names: List<Name<'a>>,
    /// The images on their right, which are empty where the target isn't known.
    images: Words,
}

/// Reads the arrows.
fn read_arrows<'a>(
    alloc: Global,
    cursor: &mut Cursor<'a>,
    target: &Option<Home>,
    found: &mut Found,
) -> Result<Arrows<'a>, NoMemory>
    requires { AreArrowsAhead cursor.old }
    ensures { (all : ListOf ArrowOf) → cursor.old ≡ arrows_signs all →
        IfOk result (λ arrows. AreRead target.now all found.old arrows found.new) }
{
    let mut arrows = Arrows {
        names: List::new(alloc),
        images: Words::new(alloc),
    };
    while !cursor.is(Mark::CloseSquare) {
        arrows.read(alloc, cursor, target, found)?;
        skip_comma(cursor);
    }
    Ok(arrows)
}

impl<'a> Arrows<'a> {
    /// Reads one more.
    fn read(
        &mut self,
        alloc: Global,
        cursor: &mut Cursor<'a>,
        target: &Option<Home>,
        found: &mut Found,
    ) -> Result<(), NoMemory>
        requires { IsArrowAhead cursor.old }
        ensures { (a : ArrowOf) (rest : ListOf Sign) → cursor.old ≡ arrow_signs a ++ rest →
            Stops rest →
            OnOk result (IsOneRead target.now a rest found.old self.old cursor.new self.new found.new) }
    {
        let name = cursor.name();
        cursor.skip();
        let image = read_image(alloc, cursor, target, found)?;
        self.names.push(name)?;
        self.images.push(image)
    }

    /// A name that is no generator of the source shows a cause.
    fn check_generators(&self, source: &Home, found: &mut Found)
        ensures { Gets (flat_map (not_a_letter source.now.names.now source.now.generators.now)
            (map named_of self.now.names)) found.old found.new }
    {
        for name in self.names.as_slice() {
            source.check_generator(*name, found);
        }
    }

    /// A generator without an arrow shows a cause.
    #[tactic(auto, using(crate::proofs::Mappings::missing_gets, crate::proofs::Mappings::all_gets))]
    fn check_all(&self, generators: &[Text], close: u32, found: &mut Found)
        ensures { Gets (missing (texts (map named_of self.now.names)) close generators.now)
            found.old found.new }
    {
        if !has_all(self.names.as_slice(), generators) {
            found.offer(close, Cause::ImageMissing);
        }
    }

    /// The names on the left show the causes that are found.
    fn check(
        &self,
        alloc: Global,
        source: &Home,
        close: u32,
        found: &mut Found,
    ) -> Result<(), NoMemory>
        ensures { OnOk result (Gets
            (flat_map (not_a_letter source.now.names.now source.now.generators.now)
            (map named_of self.now.names)
            ++ (twice (map named_of self.now.names) ++
            missing (texts (map named_of self.now.names)) close source.now.generators.now)) found.old found.new) }
    {
        self.check_generators(source, found);
        check_twice(alloc, self.names.as_slice(), found)?;
        self.check_all(source.generators.as_slice(), close, found);
        Ok(())
    }

    /// The image of a generator, which is empty where it has none.
    fn image(&self, alloc: Global, generator: &[u8]) -> Result<Word, NoMemory>
        requires { length self.now.names ≡ length self.now.images }
        ensures { (scope : ScopeOf) (target : ℕ) (all : ListOf ArrowOf) →
            map named_of self.now.names ≡ lefts all →
            self.now.images ≡ map (λ a. value scope.names target (group_at scope target).generators a.image) all →
            IfOk result (λ image. image.letters ≡ value_or_none scope target (image_of_generator all generator.now)) }
    {
        match place_among(self.names.as_slice(), generator) {
            Some(place) => self.images.at(place).copy(alloc),
            None => Ok(Word::new(alloc)),
        }
    }

    /// The images of these generators in order.
    fn in_order(&self, alloc: Global, generators: &[Text]) -> Result<Words, NoMemory>
        requires { length self.now.names ≡ length self.now.images }
        ensures { (scope : ScopeOf) (target : ℕ) (all : ListOf ArrowOf) →
            map named_of self.now.names ≡ lefts all →
            self.now.images ≡ map (λ a. value scope.names target (group_at scope target).generators a.image) all →
            IfOk result (λ words. words ≡ map (λ g. value_or_none scope target (image_of_generator all g)) generators.now) }
    {
        let mut images = Words::new(alloc);
        for generator in generators {
            let image = self.image(alloc, generator.as_slice())?;
            images.push(image)?;
        }
        Ok(images)
    }
}

impl Resolver {
    /// The group at a place, as words see it.
    fn home_of(&self, group: Option<u32>) -> Option<Home>
        requires sound { IsSound self.now }
        requires there { IfSome group (λ place. place < length self.now.plan.groups) }
        ensures { (scope : ScopeOf) → Keeps scope self.now → IsHomeOf scope group result }
    {
        let known = Known {
            names: &self.names,
            groups: &self.plan.groups,
        };
        match group {
            Some(place) => Some(known.home(place)),
            None => None,
        }
    }

    /// Reads the arrows, and answers their images in the order of the generators of the source. Without a
    /// source there are none.
    fn images(
        &self,
        alloc: Global,
        cursor: &mut Cursor,
        source: Option<u32>,
        target: Option<u32>,
        close: u32,
        found: &mut Found,
    ) -> Result<Words, NoMemory>
        requires sound { IsSound self.now }
        requires source { IfSome source (λ place. place < length self.now.plan.groups) }
        requires target { IfSome target (λ place. place < length self.now.plan.groups) }
        requires ahead { AreArrowsAhead cursor.old }
        ensures causes { (scope : ScopeOf) (line : LineOf) (all : ListOf ArrowOf)
            (from to : Option ObjectOf) → Keeps scope self.now → cursor.old ≡ arrows_signs all →
            close ≡ last_place line.tokens → NamesGroup from source → NamesGroup to target →
            OnOk result (Gets (in_mapping scope line all from to) found.old found.new) }
        ensures images { (scope : ScopeOf) (all : ListOf ArrowOf) (s t : ℕ) →
            Keeps scope self.now → cursor.old ≡ arrows_signs all → source ≡ Some s →
            target ≡ Some t →
            IfOk result (λ words. words ≡ images scope s t all) }
    {
        let target = self.home_of(target);
        let arrows = read_arrows(alloc, cursor, &target, found)?;
        match self.home_of(source) {
            Some(home) => {
                arrows.check(alloc, &home, close, found)?;
                arrows.in_order(alloc, home.generators.as_slice())
            }
            None => {
                check_twice(alloc, arrows.names.as_slice(), found)?;
                Ok(Words::new(alloc))
            }
        }
    }

    /// The map that is to be declared. There is none where its source or its target isn't known.
    fn read_map(
        &self,
        alloc: Global,
        cursor: &mut Cursor,
        heading: &Heading,
        close: u32,
        found: &mut Found,
    ) -> Result<Option<Object>, NoMemory>
        requires sound { IsSound self.now }
        requires ahead { AreArrowsAhead cursor.old }
        ensures causes { (scope : ScopeOf) (line : LineOf) (all : ListOf ArrowOf) →
            Keeps scope self.now → cursor.old ≡ arrows_signs all → close ≡ last_place line.tokens →
            OnOk result (Gets (not_a_group (named_of heading.now.source)
            (lookup scope.names heading.now.source.text.now)
            ++ (not_a_group (named_of heading.now.target)
            (lookup scope.names heading.now.target.text.now)
            ++ in_mapping scope line all (lookup scope.names heading.now.source.text.now)
            (lookup scope.names heading.now.target.text.now))) found.old found.new) }
        ensures object { (scope : ScopeOf) (all : ListOf ArrowOf) → Keeps scope self.now →
            cursor.old ≡ arrows_signs all →
            IfOk result (IsMapOf scope all (named_of heading.now.source)
            (named_of heading.now.target)) }
    {
        let source = self.names.group(heading.source, found);
        let target = self.names.group(heading.target, found);
        let images = self.images(alloc, cursor, source, target, close, found)?;
        let Some(source) = source else {
            return Ok(None);
        };
        let Some(target) = target else {
            return Ok(None);
        };
        let map = GenMap::new(images);
        Ok(Some(Object::Map {
            source,
            target,
            map,
        }))
    }

    /// `map NAME : SOURCE -> TARGET = [ ARROWS ]`
    pub(crate) fn mapping(
        &mut self,
        alloc: Global,
        cursor: &mut Cursor,
        close: u32,
    ) -> Result<Option<Fault>, NoMemory>
        requires sound { IsSound self.old }
        requires ahead { (n : Named) × (a : Named) × (b : Named) × (arrows : ListOf ArrowOf) ×
            (cursor.old ≡ tail_of (statement_signs (mapping n a b arrows))) ×
            IsSized (mapping n a b arrows) }
        ensures { (scope : ScopeOf) (line : LineOf) (n : Named) (a : Named) (b : Named)
            (arrows : ListOf ArrowOf) → Keeps scope self.old →
            cursor.old ≡ tail_of (statement_signs (mapping n a b arrows)) →
            close ≡ last_place line.tokens →
            IfOk result (λ fault. Resolved scope line (mapping n a b arrows)
            (least_of fault) self.new) }
    {
        let heading = read_heading(cursor);
        let mut found = Found::new();
        self.names.check_new(heading.name, &mut found);
        let object = self.read_map(alloc, cursor, &heading, close, &mut found)?;
        if let Some(fault) = found.least() {
            return Ok(Some(fault));
        }
        if let Some(object) = object {
            self.declare(alloc, heading.name, object)?;
        }
        Ok(None)
    }
}
