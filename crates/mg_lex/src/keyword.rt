//! The words that the language keeps for itself.

ghost use Rattle.std.specs.Prelude.{◌≡◌, IfSome, IfNone};
ghost use Rattle.mg_lex.specs.Keyword.{keyword_text, IsKeyword};

/// A keyword.
#[derive(Clone, Copy, Debug, PartialEq, Eq)]
pub enum Keyword {
    Group,
    Word,
    Subgroup,
    Map,
    Ask,
    Fund,
    Grant,
    Run,
    Cancel,
    Report,
    Extend,
    Known,
    See,
    By,
    Back,
    In,
    Out,
    Of,
    Kernel,
    Trivial,
    Abelian,
    Central,
    Normal,
    Extends,
    Onto,
    Index,
    Infinite,
    Derive,
    Act,
    Residue,
    Rewrite,
    Cosets,
    Nielsen,
    Recall,
    Facts,
    Log,
}

const KEYWORDS: [Keyword; 36] = [
    Keyword::Group,
    Keyword::Word,
    Keyword::Subgroup,
    Keyword::Map,
    Keyword::Ask,
    Keyword::Fund,
    Keyword::Grant,
    Keyword::Run,
    Keyword::Cancel,
    Keyword::Report,
    Keyword::Extend,
    Keyword::Known,
    Keyword::See,
    Keyword::By,
    Keyword::Back,
    Keyword::In,
    Keyword::Out,
    Keyword::Of,
    Keyword::Kernel,
    Keyword::Trivial,
    Keyword::Abelian,
    Keyword::Central,
    Keyword::Normal,
    Keyword::Extends,
    Keyword::Onto,
    Keyword::Index,
    Keyword::Infinite,
    Keyword::Derive,
    Keyword::Act,
    Keyword::Residue,
    Keyword::Rewrite,
    Keyword::Cosets,
    Keyword::Nielsen,
    Keyword::Recall,
    Keyword::Facts,
    Keyword::Log,
];

impl Keyword {
    /// How it is written.
    pub fn text(self) -> &'static [u8]
        ensures { result.now ≡ keyword_text self }
    {
        match self {
            Keyword::Group => b"group",
            Keyword::Word => b"word",
            Keyword::Subgroup => b"subgroup",
            Keyword::Map => b"map",
            Keyword::Ask => b"ask",
            Keyword::Fund => b"fund",
            Keyword::Grant => b"grant",
            Keyword::Run => b"run",
            Keyword::Cancel => b"cancel",
            Keyword::Report => b"report",
            Keyword::Extend => b"extend",
            Keyword::Known => b"known",
            Keyword::See => b"see",
            Keyword::By => b"by",
            Keyword::Back => b"back",
            Keyword::In => b"in",
            Keyword::Out => b"out",
            Keyword::Of => b"of",
            Keyword::Kernel => b"kernel",
            Keyword::Trivial => b"trivial",
            Keyword::Abelian => b"abelian",
            Keyword::Central => b"central",
            Keyword::Normal => b"normal",
            Keyword::Extends => b"extends",
            Keyword::Onto => b"onto",
            Keyword::Index => b"index",
            Keyword::Infinite => b"infinite",
            Keyword::Derive => b"derive",
            Keyword::Act => b"act",
            Keyword::Residue => b"residue",
            Keyword::Rewrite => b"rewrite",
            Keyword::Cosets => b"cosets",
            Keyword::Nielsen => b"nielsen",
            Keyword::Recall => b"recall",
            Keyword::Facts => b"facts",
            Keyword::Log => b"log",
        }
    }
}

/// The keyword that is written so; None exactly where there is none.
pub fn keyword_of(word: &[u8]) -> Option<Keyword>
    ensures some { IfSome result (λ k. keyword_text k ≡ word.now) }
    ensures none { IfNone result (¬ IsKeyword word.now) }
{
    if word.len() < 2 || word.len() > 8 {
        return None;
    }
    for keyword in KEYWORDS {
        if keyword.text() == word {
            return Some(keyword);
        }
    }
    None
}
