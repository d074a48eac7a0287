//! The questions that statements ask.

ghost use Rattle.std.specs.Prelude.{◌≡◌, ◌∷◌, [], ℕ, IfOk, List as ListOf};
ghost use Rattle.mg_script.specs.Statement.{property_keyword};
ghost use Rattle.mg_script.specs.declared.form.Property.{Property as PropertyOf};
ghost use Rattle.mg_names.specs.Asked.{AreWithin, IsKnown, IsQuestionAhead, IsQuestionRead, form_of};
ghost use Rattle.mg_names.specs.Name.{named_of};
ghost use Rattle.mg_names.specs.Named.{Named, Word as WordTree, Question as QuestionTree, equal, member, vanishes, central, has};
ghost use Rattle.mg_names.specs.Scope.{Scope};
ghost use Rattle.mg_names.specs.Sign.{question_signs, the_keyword};
ghost use Rattle.mg_names.specs.Within.{IsSizedQuestion};

use crate::cursor::{Cursor, Name};
use crate::known::Known;
use crate::least::Found;
use crate::words::word;
use mg_lex::{Keyword, Mark};
use mg_questions::Question;
use mg_script::Property;
use mg_words::NoMemory;
use std::alloc::Global;

/// A question, and the place of the group that gives its words their names.
#[derive(Drop)]
pub(crate) struct Asking {
    pub(crate) group: u32,
    pub(crate) question: Question,
}

/// How a question is written.
#[derive(Clone, Copy)]
pub(crate) enum Form {
    /// `u = v in G`
    Equality,
    /// `w in H`
    Membership,
    /// `w in kernel f`
    InKernel,
    /// `w central in G`
    Centrality,
    /// `NAME property`
    Property,
}

/// How the question that comes next is written.
fn form_next(cursor: &Cursor) -> Form
    ensures { (q : QuestionTree) → cursor.now ≡ question_signs q → result ≡ form_of q }
{
    let mut turn = cursor.turn();
    if turn.is(Mark::Equals) {
        return Form::Equality;
    }
    if turn.is_keyword(Keyword::Central) {
        return Form::Centrality;
    }
    if !turn.is_keyword(Keyword::In) {
        return Form::Property;
    }
    turn.skip();
    if turn.is_keyword(Keyword::Kernel) {
        Form::InKernel
    } else {
        Form::Membership
    }
}

/// Reads the question that an `ask` names. There is none where its last name stands for something else
/// than is needed.
pub(crate) fn read_question(
    alloc: Global,
    cursor: &mut Cursor,
    known: &Known,
    found: &mut Found,
) -> Result<Option<Asking>, NoMemory>
    requires known { AreWithin known.now }
    requires ahead { IsQuestionAhead cursor.old }
    ensures { (scope : Scope) (q : QuestionTree) → IsKnown scope known.now →
        cursor.old ≡ question_signs q →
        IfOk result (λ a. IsQuestionRead scope q found.old found.new a) }
{
    match form_next(cursor) {
        Form::Equality => equality(alloc, cursor, known, found),
        Form::Membership => membership(alloc, cursor, known, found),
        Form::InKernel => in_kernel(alloc, cursor, known, found),
        Form::Centrality => centrality(alloc, cursor, known, found),
        Form::Property => property(alloc, cursor, known, found),
    }
}

/// Reads whether two words are equal, or a word is one.
fn equality(
    alloc: Global,
    cursor: &mut Cursor,
    known: &Known,
    found: &mut Found,
) -> Result<Option<Asking>, NoMemory>
    requires known { AreWithin known.now }
    requires ahead { (u v : WordTree) × (g : Named) ×
        (cursor.old ≡ question_signs (equal u v g)) × IsSizedQuestion (equal u v g) }
    ensures { (scope : Scope) (u v : WordTree) (g : Named) → IsKnown scope known.now →
        cursor.old ≡ question_signs (equal u v g) →
        IfOk result (λ a. IsQuestionRead scope (equal u v g) found.old found.new a) }
{
    let name = cursor.last_name();
    let Some(place) = known.names.group(name, found) else {
        return Ok(None);
    };
    let home = known.home(place);
    let left = word(alloc, cursor, &home, found)?;
    cursor.skip();
    let is_one = cursor.is_one_alone();
    let right = word(alloc, cursor, &home, found)?;
    let group = known.presentation(alloc, place)?;
    if is_one {
        let question = Question::WordIsOne { group, word: left };
        return Ok(Some(Asking {
            group: place,
            question,
        }));
    }
    let question = Question::WordsEqual { group, left, right };
    Ok(Some(Asking {
        group: place,
        question,
    }))
}

/// Reads whether a word lies in a subgroup.
fn membership(
    alloc: Global,
    cursor: &mut Cursor,
    known: &Known,
    found: &mut Found,
) -> Result<Option<Asking>, NoMemory>
    requires known { AreWithin known.now }
    requires ahead { (w : WordTree) × (h : Named) × (cursor.old ≡ question_signs (member w h)) ×
        IsSizedQuestion (member w h) }
    ensures { (scope : Scope) (w : WordTree) (h : Named) → IsKnown scope known.now →
        cursor.old ≡ question_signs (member w h) →
        IfOk result (λ a. IsQuestionRead scope (member w h) found.old found.new a) }
{
    let name = cursor.last_name();
    let Some(subgroup) = known.names.subgroup(name, found) else {
        return Ok(None);
    };
    let home = known.home(subgroup.group);
    let word = word(alloc, cursor, &home, found)?;
    let group = known.presentation(alloc, subgroup.group)?;
    let words = subgroup.words.copy(alloc)?;
    let question = Question::InSubgroup {
        group,
        subgroup: words,
        word,
    };
    Ok(Some(Asking {
        group: subgroup.group,
        question,
    }))
}

/// Reads whether the image of a word is one.
fn in_kernel(
    alloc: Global,
    cursor: &mut Cursor,
    known: &Known,
    found: &mut Found,
) -> Result<Option<Asking>, NoMemory>
    requires known { AreWithin known.now }
    requires ahead { (w : WordTree) × (f : Named) × (cursor.old ≡ question_signs (vanishes w f)) ×
        IsSizedQuestion (vanishes w f) }
    ensures { (scope : Scope) (w : WordTree) (f : Named) → IsKnown scope known.now →
        cursor.old ≡ question_signs (vanishes w f) →
        IfOk result (λ a. IsQuestionRead scope (vanishes w f) found.old found.new a) }
{
    let name = cursor.last_name();
    let Some(mapping) = known.names.mapping(name, found) else {
        return Ok(None);
    };
    let home = known.home(mapping.source);
    let word = word(alloc, cursor, &home, found)?;
    let target = known.presentation(alloc, mapping.target)?;
    let map = mapping.map.copy(alloc)?;
    let question = Question::InKernel { target, map, word };
    Ok(Some(Asking {
        group: mapping.target,
        question,
    }))
}

/// Reads whether a word commutes with every element.
fn centrality(
    alloc: Global,
    cursor: &mut Cursor,
    known: &Known,
    found: &mut Found,
) -> Result<Option<Asking>, NoMemory>
    requires known { AreWithin known.now }
    requires ahead { (w : WordTree) × (g : Named) × (cursor.old ≡ question_signs (central w g)) ×
        IsSizedQuestion (central w g) }
    ensures { (scope : Scope) (w : WordTree) (g : Named) → IsKnown scope known.now →
        cursor.old ≡ question_signs (central w g) →
        IfOk result (λ a. IsQuestionRead scope (central w g) found.old found.new a) }
{
    let name = cursor.last_name();
    let Some(place) = known.names.group(name, found) else {
        return Ok(None);
    };
    let home = known.home(place);
    let word = word(alloc, cursor, &home, found)?;
    let group = known.presentation(alloc, place)?;
    let question = Question::Central { group, word };
    Ok(Some(Asking {
        group: place,
        question,
    }))
}

/// Reads whether what a name stands for has a property.
fn property(
    alloc: Global,
    cursor: &mut Cursor,
    known: &Known,
    found: &mut Found,
) -> Result<Option<Asking>, NoMemory>
    requires known { AreWithin known.now }
    requires ahead { (n : Named) × (p : PropertyOf) × (cursor.old ≡ question_signs (has n p)) }
    ensures { (scope : Scope) (n : Named) (p : PropertyOf) → IsKnown scope known.now →
        cursor.old ≡ question_signs (has n p) →
        IfOk result (λ a. IsQuestionRead scope (has n p) found.old found.new a) }
{
    let name = cursor.name();
    match property_next(cursor) {
        Property::Trivial => trivial(alloc, name, known, found),
        Property::Abelian => abelian(alloc, name, known, found),
        Property::Normal => normal(alloc, name, known, found),
        Property::Extends => extends(alloc, name, known, found),
        Property::Onto => onto(alloc, name, known, found),
    }
}

/// The property that comes next.
fn property_next(cursor: &Cursor) -> Property
    ensures { (p : PropertyOf) → cursor.now ≡ the_keyword (property_keyword p) ∷ [] → result ≡ p }
{
    if cursor.is_keyword(Keyword::Trivial) {
        return Property::Trivial;
    }
    if cursor.is_keyword(Keyword::Abelian) {
        return Property::Abelian;
    }
    if cursor.is_keyword(Keyword::Normal) {
        return Property::Normal;
    }
    if cursor.is_keyword(Keyword::Extends) {
        return Property::Extends;
    }
    Property::Onto
}

/// Whether a group has one element alone.
fn trivial(
    alloc: Global,
    name: Name,
    known: &Known,
    found: &mut Found,
) -> Result<Option<Asking>, NoMemory>
    requires known { AreWithin known.now }
    ensures { (scope : Scope) → IsKnown scope known.now →
        IfOk result (λ a. IsQuestionRead scope (has (named_of name.entry) Property.Trivial) found.old found.new a) }
{
    let Some(place) = known.names.group(name, found) else {
        return Ok(None);
    };
    let group = known.presentation(alloc, place)?;
    let question = Question::Trivial { group };
    Ok(Some(Asking {
        group: place,
        question,
    }))
}

/// Whether all elements of a group commute.
fn abelian(
    alloc: Global,
    name: Name,
    known: &Known,
    found: &mut Found,
) -> Result<Option<Asking>, NoMemory>
    requires known { AreWithin known.now }
    ensures { (scope : Scope) → IsKnown scope known.now →
        IfOk result (λ a. IsQuestionRead scope (has (named_of name.entry) Property.Abelian) found.old found.new a) }
{
    let Some(place) = known.names.group(name, found) else {
        return Ok(None);
    };
    let group = known.presentation(alloc, place)?;
    let question = Question::Abelian { group };
    Ok(Some(Asking {
        group: place,
        question,
    }))
}

/// Whether a subgroup is normal.
fn normal(
    alloc: Global,
    name: Name,
    known: &Known,
    found: &mut Found,
) -> Result<Option<Asking>, NoMemory>
    requires known { AreWithin known.now }
    ensures { (scope : Scope) → IsKnown scope known.now →
        IfOk result (λ a. IsQuestionRead scope (has (named_of name.entry) Property.Normal) found.old found.new a) }
{
    let Some(subgroup) = known.names.subgroup(name, found) else {
        return Ok(None);
    };
    let group = known.presentation(alloc, subgroup.group)?;
    let words = subgroup.words.copy(alloc)?;
    let question = Question::Normal {
        group,
        subgroup: words,
    };
    Ok(Some(Asking {
        group: subgroup.group,
        question,
    }))
}

/// Whether a map extends to a homomorphism.
fn extends(
    alloc: Global,
    name: Name,
    known: &Known,
    found: &mut Found,
) -> Result<Option<Asking>, NoMemory>
    requires known { AreWithin known.now }
    ensures { (scope : Scope) → IsKnown scope known.now →
        IfOk result (λ a. IsQuestionRead scope (has (named_of name.entry) Property.Extends) found.old found.new a) }
{
    let Some(mapping) = known.names.mapping(name, found) else {
        return Ok(None);
    };
    let source = known.presentation(alloc, mapping.source)?;
    let target = known.presentation(alloc, mapping.target)?;
    let map = mapping.map.copy(alloc)?;
    let question = Question::Extends {
        source,
        target,
        map,
    };
    Ok(Some(Asking {
        group: mapping.target,
        question,
    }))
}

/// Whether the images of a map generate its target.
fn onto(
    alloc: Global,
    name: Name,
    known: &Known,
    found: &mut Found,
) -> Result<Option<Asking>, NoMemory>
    requires known { AreWithin known.now }
    ensures { (scope : Scope) → IsKnown scope known.now →
        IfOk result (λ a. IsQuestionRead scope (has (named_of name.entry) Property.Onto) found.old found.new a) }
{
    let Some(mapping) = known.names.mapping(name, found) else {
        return Ok(None);
    };
    let target = known.presentation(alloc, mapping.target)?;
    let map = mapping.map.copy(alloc)?;
    let question = Question::Onto { target, map };
    Ok(Some(Asking {
        group: mapping.target,
        question,
    }))
}
