//! What statements choose by a keyword.

ghost use Rattle.std.specs.Prelude.{◌≡◌, IfSome, IfNone};
ghost use Rattle.mg_script.specs.Statement.{property_keyword, procedure_keyword};

use mg_lex::Keyword;
use mg_words::Procedure;

/// What a question asks of that which a name stands for.
#[derive(Clone, Copy, Debug, PartialEq, Eq)]
pub enum Property {
    Trivial,
    Abelian,
    Normal,
    Extends,
    Onto,
}

/// What a report prints.
#[derive(Clone, Copy, Debug, PartialEq, Eq)]
pub enum Printed {
    Questions,
    Facts,
    Log,
}

/// The procedure that a keyword names.
pub fn procedure_of(keyword: Keyword) -> Option<Procedure>
    ensures some { IfSome result (λ p. procedure_keyword p ≡ keyword) }
    ensures none { IfNone result ((p : Procedure) → procedure_keyword p ≡ keyword → ⊥) }
{
    match keyword {
        Keyword::Derive => Some(Procedure::Derive),
        Keyword::Act => Some(Procedure::Act),
        Keyword::Residue => Some(Procedure::Residue),
        Keyword::Rewrite => Some(Procedure::Rewrite),
        Keyword::Cosets => Some(Procedure::Cosets),
        Keyword::Nielsen => Some(Procedure::Nielsen),
        Keyword::Recall => Some(Procedure::Recall),
        _ => None,
    }
}

/// The property that a keyword names.
pub fn property_of(keyword: Keyword) -> Option<Property>
    ensures some { IfSome result (λ p. property_keyword p ≡ keyword) }
    ensures none { IfNone result ((p : Property) → property_keyword p ≡ keyword → ⊥) }
{
    match keyword {
        Keyword::Trivial => Some(Property::Trivial),
        Keyword::Abelian => Some(Property::Abelian),
        Keyword::Normal => Some(Property::Normal),
        Keyword::Extends => Some(Property::Extends),
        Keyword::Onto => Some(Property::Onto),
        _ => None,
    }
}
