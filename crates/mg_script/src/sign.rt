//! What may stand at a place of a statement.

ghost use Rattle.std.specs.Prelude.{◌≡◌, ◌↔◌, Option as OptionOf, None, Some, IsTrue};
ghost use Rattle.mg_terms.specs.Word.{Word};
ghost use Rattle.mg_script.specs.Grammar.{a_number, a_procedure, a_property, IsIn};
ghost use Rattle.mg_script.specs.Reader.{class_of, kind_of, IsLeft};
ghost use Rattle.mg_script.specs.Count.{left_letters};

use crate::counted::Counted;
use crate::form::{procedure_of, property_of};
use mg_lex::{Keyword, Mark};
use mg_terms::Lexeme;

/// Which lexemes may stand at a place.
#[derive(Clone, Copy)]
pub(crate) enum Expected {
    This(Lexeme),
    Number,
    /// The keyword of a procedure.
    Procedure,
    /// The keyword of a property.
    Property,
}

/// A lexeme that may stand at a place, and what it is counted as.
#[derive(Clone, Copy)]
pub(crate) struct Sign {
    pub(crate) counted: Option<Counted>,
    pub(crate) expected: Expected,
}

/// What a word is in its statement.
#[derive(Clone, Copy)]
pub(crate) enum Role {
    Plain,
    Counted(Counted),
    /// The right side of a relation whose left side has so many letters.
    RightSide(u32),
}

/// A name.
pub(crate) const NAME: Sign = Sign {
    counted: None,
    expected: Expected::This(Lexeme::Name),
};

/// A number.
pub(crate) const NUMBER: Sign = Sign {
    counted: None,
    expected: Expected::Number,
};

/// The keyword of a procedure.
pub(crate) const PROCEDURE: Sign = Sign {
    counted: None,
    expected: Expected::Procedure,
};

/// The keyword of a report, which is counted.
pub(crate) const REPORT: Sign = Sign {
    counted: Some(Counted::Reports),
    expected: Expected::This(Lexeme::Keyword(Keyword::Report)),
};

/// A comma.
pub(crate) const COMMA: Expected = Expected::This(Lexeme::Mark(Mark::Comma));

/// An equals sign.
pub(crate) const EQUALS: Expected = Expected::This(Lexeme::Mark(Mark::Equals));

/// The bar before relations.
pub(crate) const BAR: Expected = Expected::This(Lexeme::Mark(Mark::Bar));

/// A mark.
pub(crate) fn mark(mark: Mark) -> Sign
    ensures { result ≡ record { counted = None; expected = Expected.This (Lexeme.Mark mark) } }
{
    Sign {
        counted: None,
        expected: Expected::This(Lexeme::Mark(mark)),
    }
}

/// A keyword.
pub(crate) fn keyword(keyword: Keyword) -> Sign
    ensures { result ≡
        record { counted = None; expected = Expected.This (Lexeme.Keyword keyword) } }
{
    Sign {
        counted: None,
        expected: Expected::This(Lexeme::Keyword(keyword)),
    }
}

/// A name that is counted.
pub(crate) fn counted_name(counted: Counted) -> Sign
    ensures { result ≡ record { counted = Some counted; expected = Expected.This Lexeme.Name } }
{
    Sign {
        counted: Some(counted),
        expected: Expected::This(Lexeme::Name),
    }
}

impl Expected {
    /// Whether the lexeme may stand there.
    pub(crate) fn has(self, lexeme: Lexeme) -> bool
        ensures { IsTrue result ↔ IsIn (class_of self) lexeme }
    {
        match self {
            Expected::This(expected) => lexeme == expected,
            Expected::Number => is_number(lexeme),
            Expected::Procedure => is_procedure(lexeme),
            Expected::Property => is_property(lexeme),
        }
    }
}

fn is_number(lexeme: Lexeme) -> bool
    ensures { IsTrue result ↔ IsIn a_number lexeme }
{
    match lexeme {
        Lexeme::Number(_) => true,
        _ => false,
    }
}

fn is_procedure(lexeme: Lexeme) -> bool
    ensures { IsTrue result ↔ IsIn a_procedure lexeme }
{
    match lexeme {
        Lexeme::Keyword(keyword) => procedure_of(keyword).is_some(),
        _ => false,
    }
}

fn is_property(lexeme: Lexeme) -> bool
    ensures { IsTrue result ↔ IsIn a_property lexeme }
{
    match lexeme {
        Lexeme::Keyword(keyword) => property_of(keyword).is_some(),
        _ => false,
    }
}

impl Role {
    /// What the word is counted as.
    pub(crate) fn counted(self) -> Option<Counted>
        ensures { result ≡ kind_of self }
    {
        match self {
            Role::Counted(counted) => Some(counted),
            Role::Plain => None,
            Role::RightSide(_) => None,
        }
    }

    /// How many letters stand left of the word in its relation.
    pub(crate) fn left_letters(self) -> u32
        ensures { (left : OptionOf Word) → IsLeft self left → result ≡ left_letters left }
    {
        match self {
            Role::RightSide(letters) => letters,
            Role::Plain => 0,
            Role::Counted(_) => 0,
        }
    }
}
