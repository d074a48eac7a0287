//! A line is read token by token, from left to right.

ghost use Rattle.std.specs.Prelude.{◌≡◌, ◌≢◌, ◌↔◌, ◌-◌, ◌≤◌, ℕ, [], ◌∷◌, ◌++◌, List as ListOf, IsTrue, IsFalse, IfSome, IfNone, Some, drop, length};
ghost use Rattle.mg_lex.specs.Line.{token_bytes};
ghost use Rattle.mg_names.specs.Name.{named_of};
ghost use Rattle.mg_names.specs.Sign as spec;
ghost use Rattle.mg_names.specs.Turn as turns;
ghost use Rattle.mg_names.specs.Turn.{turn, is_before_turn, IsOneAhead};
ghost use Rattle.mg_names.specs.Sign.{Sign, a_name, the_number, signs_of, first_lexeme, is_alone, IsInside, IsReadable, StartsWithName, EndsWithName, Stops};

use mg_lex::{Keyword, Mark, Token};
use mg_script::ScriptLine;
use mg_terms::Lexeme;
use std::marker::Model;

/// A name in a line.
#[derive(Clone, Copy)]
pub(crate) struct Name<'a> {
    pub(crate) text: &'a [u8],
    /// Where its first byte stands in the line, from 0.
    pub(crate) place: u32,
}

/// The name that a token is.
fn name_of<'a>(bytes: &'a [u8], token: Token) -> Name<'a>
    requires { IsInside bytes.now token }
    ensures { named_of result ≡ record { text = token_bytes bytes.now token; place = token.start } }
{
    Name {
        text: token.bytes(bytes),
        place: token.start,
    }
}

/// Whether this mark stands in words outside their brackets.
fn mark_goes_on(mark: Mark) -> bool
    ensures { result ≡ spec.mark_goes_on mark }
{
    match mark {
        Mark::Star | Mark::Minus | Mark::Caret | Mark::OpenRound | Mark::OpenSquare => true,
        Mark::Less
        | Mark::Greater
        | Mark::Comma
        | Mark::Bar
        | Mark::Equals
        | Mark::CloseRound
        | Mark::CloseSquare
        | Mark::Colon
        | Mark::Semicolon
        | Mark::Arrow => false,
    }
}

/// Whether it is a name.
fn is_name_lexeme(lexeme: Lexeme) -> bool
    ensures { IsTrue result ↔ (lexeme ≡ Lexeme.Name) }
{
    match lexeme {
        Lexeme::Name => true,
        Lexeme::Keyword(_) | Lexeme::RelatorSign | Lexeme::Number(_) | Lexeme::Mark(_) => false,
    }
}

/// Whether this lexeme stands in words outside their brackets.
pub(crate) fn goes_on(lexeme: Lexeme) -> bool
    ensures { result ≡ spec.goes_on lexeme }
{
    match lexeme {
        Lexeme::Name | Lexeme::Number(_) => true,
        Lexeme::Mark(mark) => mark_goes_on(mark),
        Lexeme::Keyword(_) | Lexeme::RelatorSign => false,
    }
}

/// Whether the words on the left of a question end before this lexeme.
fn is_turn(lexeme: Lexeme) -> bool
    ensures { result ≡ turns.is_turn lexeme }
{
    match lexeme {
        Lexeme::Keyword(_) => true,
        Lexeme::Mark(mark) => mark == Mark::Equals,
        Lexeme::Name | Lexeme::Number(_) | Lexeme::RelatorSign => false,
    }
}

/// What is still to be read of a line.
#[derive(Drop)]
pub(crate) struct Cursor<'a> {
    bytes: &'a [u8],
    tokens: &'a [Token],
    lexemes: &'a [Lexeme],
}

impl<'a> Model for Cursor<'a> {
    ghost use Rattle.std.specs.Prelude.{◌≡◌, List, length};
    ghost use Rattle.std.specs.List.{AllByRecursion};
    ghost use Rattle.mg_names.specs.Sign.{Sign, signs_in, IsInside};

    ghost Value = { List Sign };

    ghost view = { λ c. signs_in c.bytes.now c.tokens.now c.lexemes.now };

    ghost invariant = { λ c. AllByRecursion (IsInside c.bytes.now) c.tokens.now ×
        (length c.tokens.now ≡ length c.lexemes.now) };
}

impl<'a> Cursor<'a> {
    /// The whole line.
    pub(crate) fn of(line: &'a ScriptLine) -> Cursor<'a>
        requires { IsReadable line.now }
        ensures { result ≡ signs_of line.now }
    {
        Cursor {
            bytes: line.bytes.as_slice(),
            tokens: line.tokens.as_slice(),
            lexemes: line.lexemes.as_slice(),
        }
    }

    /// How many tokens there are still.
    pub(crate) fn left(&self) -> usize
        ensures { result ≡ length self.now }
    {
        self.tokens.len()
    }

    /// What comes next.
    pub(crate) fn lexeme(&self) -> Option<Lexeme>
        ensures { result ≡ first_lexeme self.now }
    {
        match self.lexemes {
            [lexeme, ..] => Some(*lexeme),
            [] => None,
        }
    }

    /// Whether this mark comes next.
    pub(crate) fn is(&self, mark: Mark) -> bool
        ensures { IsTrue result ↔ (first_lexeme self.now ≡ Some (Lexeme.Mark mark)) }
    {
        match self.lexeme() {
            Some(lexeme) => lexeme.is(mark),
            None => false,
        }
    }

    /// Whether this keyword comes next.
    pub(crate) fn is_keyword(&self, keyword: Keyword) -> bool
        ensures { IsTrue result ↔ (first_lexeme self.now ≡ Some (Lexeme.Keyword keyword)) }
    {
        match self.lexeme() {
            Some(Lexeme::Keyword(found)) => found == keyword,
            _ => false,
        }
    }

    /// Goes on behind what comes next.
    pub(crate) fn skip(&mut self)
        ensures { self.new ≡ drop 1 self.old }
    {
        if let ([_, tokens @ ..], [_, lexemes @ ..]) = (self.tokens, self.lexemes) {
            self.tokens = tokens;
            self.lexemes = lexemes;
        }
    }

    /// Goes on behind so much.
    pub(crate) fn skip_all(&mut self, count: usize)
        ensures { self.new ≡ drop count self.old }
    {
        for _i in 0..count {
            self.skip();
        }
    }

    /// The name that comes next.
    pub(crate) fn name(&mut self) -> Name<'a>
        requires { StartsWithName self.old }
        ensures { self.old ≡ a_name (named_of result) ∷ self.new }
    {
        match self.tokens {
            [token, ..] => {
                let name = name_of(self.bytes, *token);
                self.skip();
                name
            }
            [] => unreachable!(),
        }
    }

    /// The name that comes next, if one does.
    pub(crate) fn take_name(&mut self) -> Option<Name<'a>>
        ensures some { IfSome result (λ name. self.old ≡ a_name (named_of name) ∷ self.new) }
        ensures none { IfNone result ((first_lexeme self.old ≢ Some Lexeme.Name) ×
            (self.new ≡ self.old)) }
    {
        if self.is_name() {
            return Some(self.name());
        }
        None
    }

    /// Whether a name comes next.
    fn is_name(&self) -> bool
        ensures name { IsTrue result → StartsWithName self.now }
        ensures other { IsFalse result → first_lexeme self.now ≢ Some Lexeme.Name }
    {
        match self.lexemes {
            [lexeme, ..] => is_name_lexeme(*lexeme),
            [] => false,
        }
    }

    /// The number that comes next, or 0 where none does.
    pub(crate) fn number(&mut self) -> u64
        ensures read { (n : ℕ) (rest : ListOf Sign) → self.old ≡ the_number n ∷ rest →
            (result ≡ n) × (self.new ≡ rest) }
        ensures shorter { length self.new ≤ length self.old - 1 }
    {
        let number = match self.lexeme() {
            Some(Lexeme::Number(number)) => number,
            _ => 0,
        };
        self.skip();
        number
    }

    /// Whether a word goes on with what comes next.
    pub(crate) fn goes_on(&self) -> bool
        ensures yes { IsTrue result → 1 ≤ length self.now }
        ensures stops { IsFalse result ↔ Stops self.now }
    {
        match self.lexeme() {
            Some(lexeme) => goes_on(lexeme),
            None => false,
        }
    }

    /// Whether a name comes next, and no word goes on behind it.
    pub(crate) fn is_name_alone(&self) -> bool
        ensures { result ≡ is_alone self.now }
    {
        if !self.is_name() {
            return false;
        }
        match self.lexemes {
            [_, next, ..] => !goes_on(*next),
            _ => true,
        }
    }

    /// Whether the number 1 comes next.
    fn is_one(&self) -> bool
        ensures { IsTrue result ↔ (first_lexeme self.now ≡ Some (Lexeme.Number 1)) }
    {
        match self.lexeme() {
            Some(Lexeme::Number(number)) => number == 1,
            _ => false,
        }
    }

    /// Whether the number 1 comes next, and no word goes on behind it.
    pub(crate) fn is_one_alone(&self) -> bool
        ensures one { IsTrue result → IsOneAhead self.now }
        ensures other { IsFalse result → IsOneAhead self.now → ⊥ }
    {
        if !self.is_one() {
            return false;
        }
        let mut rest = self.again();
        rest.skip();
        !rest.goes_on()
    }

    /// The same, to look ahead with.
    fn again(&self) -> Cursor<'a>
        ensures { result ≡ self.now }
    {
        Cursor {
            bytes: self.bytes,
            tokens: self.tokens,
            lexemes: self.lexemes,
        }
    }

    /// Whether something comes next that may be part of a word.
    fn is_before_turn(&self) -> bool
        ensures before { result ≡ is_before_turn self.now }
        ensures some { IsTrue result → 1 ≤ length self.now }
    {
        match self.lexeme() {
            Some(lexeme) => !is_turn(lexeme),
            None => false,
        }
    }

    /// What stands from the first keyword or equality sign on.
    #[tactic(auto, using(crate::proofs::Turns::turn_here, crate::proofs::Turns::turn_later))]
    pub(crate) fn turn(&self) -> Cursor<'a>
        ensures { result ≡ turn self.now }
    {
        let mut rest = self.again();
        while rest.is_before_turn() {
            rest.skip();
        }
        rest
    }

    /// The name that the line ends with.
    pub(crate) fn last_name(&self) -> Name<'a>
        requires { EndsWithName self.now }
        ensures { (front : ListOf Sign) × (self.now ≡ front ++ a_name (named_of result) ∷ []) }
    {
        match self.tokens {
            [.., token] => name_of(self.bytes, *token),
            [] => unreachable!(),
        }
    }
}
