//! The scanner goes over a line once, from left to right.

ghost use Rattle.std.specs.Prelude.{◌≡◌, ◌≢◌, ◌↔◌, ℕ, ◌-◌, ◌<◌, ◌≤◌, ◌^◌, false, drop, length, slice_index, IsTrue, IfSome, IfNone};
ghost use Rattle.mg_lex.specs.declared.limits.TheConstants.{NUMBER_LIMIT};
ghost use Rattle.mg_lex.specs.Number.{number_value};
ghost use Rattle.mg_lex.specs.Token.{IsToken};
ghost use Rattle.mg_lex.specs.Line.{AreBlanks, BeginsComment, IsEnd, IsLongestAtStart, IsWithinLimits, is_blank};
ghost use Rattle.mg_lex.specs.Cause.{IsFirstCause};
ghost use Rattle.mg_lex.specs.Step.{ComesNext, IsClean};

use crate::class::{allowed_length, blanks_length, is_allowed};
use crate::front::longest_token;
use crate::limits::{LINE_LIMIT, NAME_LIMIT};
use crate::number::value_of;
use crate::refusal::Cause;
use crate::token::{Token, TokenKind};

/// The sign that begins a comment.
const COMMENT: u8 = b'#';

/// Why a line is refused, where, counted from 0, and which token begins there, if one does.
#[derive(Clone, Copy)]
pub(crate) struct Fault {
    pub(crate) place: usize,
    pub(crate) cause: Cause,
    pub(crate) token: Option<Token>,
}

/// What comes next in a line.
#[derive(Clone, Copy)]
pub(crate) enum Step {
    Token(Token),
    /// The end of the line, or a comment, and no fault in the whole line.
    End,
    /// The first fault of the line.
    Refused(Fault),
}

fn is_long_name(token: Token) -> bool
    ensures { IsTrue result ↔ ((token.kind ≡ TokenKind.Name) × (NAME_LIMIT < token.length)) }
{
    token.kind == TokenKind::Name && token.length > NAME_LIMIT
}

fn is_large_number(kind: TokenKind, text: &[u8]) -> bool
    requires { IsToken kind text.now }
    ensures { IsTrue result ↔ ((kind ≡ TokenKind.Number) × (NUMBER_LIMIT < number_value text.now)) }
{
    kind == TokenKind::Number && value_of(text).is_none()
}

/// A place in a line. What stands before it has been read.
#[derive(Drop)]
pub(crate) struct Scanner<'a> {
    pub(crate) line: &'a [u8],
    pub(crate) place: usize,
    ghost short: { length line.now < 2 ^ 32 - 1 },
    ghost inside: { place ≤ length line.now },
}

impl<'a> Scanner<'a> {
    pub(crate) fn new(line: &'a [u8]) -> Scanner<'a>
        requires { length line.now < 2 ^ 32 - 1 }
        ensures line { result.line.now ≡ line.now }
        ensures place { result.place ≡ 0 }
    {
        Scanner { line, place: 0 }
    }

    /// What is left of the line.
    fn rest(&self) -> &'a [u8]
        ensures rest { result.now ≡ drop self.now.place self.now.line.now }
        ensures inside { self.now.place ≤ length self.now.line.now }
    {
        &self.line[self.place..]
    }

    fn skip_blanks(&mut self)
        ensures line { self.new.line ≡ self.old.line }
        ensures blanks { AreBlanks self.old.line.now self.old.place self.new.place }
        ensures all { self.new.place < length self.old.line.now →
            is_blank (slice_index self.old.line.now self.new.place) ≡ false }
    {
        self.place += blanks_length(self.rest());
    }

    fn is_at_end(&self) -> bool
        ensures { IsTrue result ↔ IsEnd self.now.line.now self.now.place }
    {
        self.place == self.line.len() || self.line[self.place] == COMMENT
    }

    /// At the end of the line or at a comment.
    fn end(&self) -> Step
        requires clean { IsClean self.now.line.now self.now.place }
        requires ended { IsEnd self.now.line.now self.now.place }
        requires low { self.now.place ≤ LINE_LIMIT }
        ensures { ComesNext self.now.line.now self.now.place result self.now.place }
    {
        let bad = self.place + allowed_length(self.rest());
        if bad > LINE_LIMIT {
            return Step::Refused(Fault {
                place: LINE_LIMIT,
                cause: Cause::LineTooLong,
                token: None,
            });
        }
        if bad < self.line.len() {
            return Step::Refused(Fault {
                place: bad,
                cause: Cause::BadByte,
                token: None,
            });
        }
        Step::End
    }

    /// The first cause that stands where the token begins.
    fn cause_of(&self, token: Token) -> Option<Cause>
        requires clean { IsClean self.now.line.now self.now.place }
        requires start { token.start ≡ self.now.place }
        requires longest { IsLongestAtStart self.now.line.now token }
        requires low { self.now.place ≤ LINE_LIMIT }
        ensures some { IfSome result (IsFirstCause self.now.line.now self.now.place) }
        ensures none { IfNone result (IsWithinLimits self.now.line.now token) }
    {
        if is_long_name(token) {
            return Some(Cause::BadToken);
        }
        if self.place >= LINE_LIMIT {
            return Some(Cause::LineTooLong);
        }
        if is_large_number(token.kind, token.bytes(self.line)) {
            return Some(Cause::NumberTooLarge);
        }
        None
    }

    /// At a byte that is no blank and begins no comment.
    fn token(&mut self) -> Step
        requires clean { IsClean self.old.line.now self.old.place }
        requires within { self.old.place < length self.old.line.now }
        requires low { self.old.place ≤ LINE_LIMIT }
        requires no_blank { is_blank (slice_index self.old.line.now self.old.place) ≡ false }
        requires no_comment { ¬ BeginsComment self.old.line.now self.old.place }
        ensures line { self.new.line ≡ self.old.line }
        ensures next { ComesNext self.old.line.now self.old.place result self.new.place }
    {
        let place = self.place;
        let Some((kind, length)) = longest_token(self.rest()) else {
            let cause = if is_allowed(self.line[place]) {
                Cause::BadToken
            } else {
                Cause::BadByte
            };
            return Step::Refused(Fault {
                place,
                cause,
                token: None,
            });
        };
        let token = Token {
            kind,
            start: place as u32,
            length: length as u32,
        };
        match self.cause_of(token) {
            Some(cause) => Step::Refused(Fault {
                place,
                cause,
                token: Some(token),
            }),
            None => {
                self.place += length;
                Step::Token(token)
            }
        }
    }

    /// Goes on to the next token, to the first fault of the line or to its end.
    pub(crate) fn next(&mut self) -> Step
        requires { IsClean self.old.line.now self.old.place }
        ensures line { self.new.line ≡ self.old.line }
        ensures next { ComesNext self.old.line.now self.old.place result self.new.place }
    {
        self.skip_blanks();
        if self.place > LINE_LIMIT {
            return Step::Refused(Fault {
                place: LINE_LIMIT,
                cause: Cause::LineTooLong,
                token: None,
            });
        }
        if self.is_at_end() {
            return self.end();
        }
        self.token()
    }
}
