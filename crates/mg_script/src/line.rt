//! Reading a line of a script.

ghost use Rattle.std.specs.Prelude.{◌≡◌, ◌↔◌, ◌⊎◌, [], ◌∷◌, ◌++◌, ◌+◌, ◌-◌, ◌<◌, ◌^◌, length, slice_get, IsTrue, IfOk, IfErr, IfSome, IfNone, MatchOption};
ghost use Rattle.std.specs.List.{AllZip};
ghost use Rattle.mg_lex.specs.Cause.{AreTokensBefore, IsFaultless, IsFirstCause as IsFirstOfBytes, IsTokenAt};
ghost use Rattle.mg_lex.specs.Line.{AreTokens, IsLongestAtStart};
ghost use Rattle.mg_lex.specs.Refusal.{place_of};
ghost use Rattle.mg_script.specs.Cause.{IsFirstCause};
ghost use Rattle.mg_script.specs.Count.{AreWithinLimits};
ghost use Rattle.mg_script.specs.LineRead.{IsReadOf, IsWhole, IsBlank, IsNoLater, IsLineRefusal, IsStated};
ghost use Rattle.mg_script.specs.Script.{AreRead, ReadsAs, IsTooLarge, LineIsFaultless, IsKept, IsSkipped};

use crate::counted::Counts;
use crate::fault::StatementFault;
use crate::parsing::ParseRefused;
use crate::read::read_statement;
use crate::script::ScriptLine;
use mg_lex::{FirstFault, NUMBER_LIMIT, Refused, Text, Token, TokenKind, Tokens, lex, value_of};
use mg_lists::NoMemory;
use mg_terms::{Lexeme, Lexemes, lexeme_of, lexemes_of};
use std::alloc::Global;

/// A line that is a statement, and how much has been counted with it.
#[derive(Drop)]
pub(crate) struct KeptLine {
    pub(crate) line: ScriptLine,
    pub(crate) counts: Counts,
}

/// Reads a line, where so much has been counted before. None comes for a line without tokens.
pub(crate) fn read_line(
    alloc: Global,
    line: &[u8],
    number: u32,
    counts: Counts,
) -> Result<Option<KeptLine>, ParseRefused>
    requires short { length line.now < 2 ^ 32 - 1 }
    requires within { AreWithinLimits counts }
    ensures skipped { IfOk result (λ kept. IfNone kept (IsSkipped line.now)) }
    ensures kept { IfOk result (λ kept. IfSome kept (λ k.
        IsKept counts number line.now k.line k.counts)) }
    ensures refused { (r : Refused) → result ≡ Err (ParseRefused.Refused r) →
        IsLineRefusal counts line.now number r }
{
    let read = LineRead::of(alloc, line, number)?;
    if read.is_blank() {
        return Ok(None);
    }
    match read.verdict(line, number, counts) {
        Ok(counts) => {
            let line = read.kept(alloc, line, number)?;
            Ok(Some(KeptLine { line, counts }))
        }
        Err(refused) => Err(ParseRefused::Refused(refused)),
    }
}

/// What is read of a line: all its tokens, or those up to and with the one at the first fault of its bytes.
#[derive(Drop)]
pub(crate) struct LineRead {
    tokens: Tokens,
    /// One for each token.
    lexemes: Lexemes,
    /// The first fault of the bytes.
    fault: Option<Refused>,
}

impl LineRead {
    /// Reads the tokens of a line.
    fn of(alloc: Global, line: &[u8], number: u32) -> Result<LineRead, NoMemory>
        requires { length line.now < 2 ^ 32 - 1 }
        ensures { IfOk result (IsReadOf line.now number) }
    {
        let lexed = lex(alloc, line, number)?;
        match lexed.fault {
            Some(fault) => LineRead::up_to(alloc, line, lexed.tokens, fault),
            None => LineRead::whole(alloc, line, lexed.tokens),
        }
    }

    /// A line without a fault.
    fn whole(alloc: Global, line: &[u8], tokens: Tokens) -> Result<LineRead, NoMemory>
        requires tokens { AreTokens line.now tokens }
        requires faultless { IsFaultless line.now }
        ensures whole { IfOk result (IsWhole line.now) }
        ensures fault { IfOk result (λ read. read.fault ≡ None) }
    {
        let lexemes = lexemes_of(alloc, line, tokens.as_slice())?;
        Ok(LineRead {
            tokens,
            lexemes,
            fault: None,
        })
    }

    /// A line with its first fault, and the tokens before it.
    fn up_to(
        alloc: Global,
        line: &[u8],
        tokens: Tokens,
        fault: FirstFault,
    ) -> Result<LineRead, NoMemory>
        requires before { AreTokensBefore line.now (place_of fault.refused) tokens }
        requires first { IsFirstOfBytes line.now (place_of fault.refused) fault.refused.cause }
        requires token { IsTokenAt line.now (place_of fault.refused) fault.token }
        ensures tokens { IfOk result (λ read. AreRead line.now read.tokens) }
        ensures lexemes { IfOk result (λ read. AllZip (ReadsAs line.now) read.tokens read.lexemes) }
        ensures fault { IfOk result (λ read. read.fault ≡ Some fault.refused) }
    {
        let lexemes = lexemes_of(alloc, line, tokens.as_slice())?;
        let read = LineRead {
            tokens,
            lexemes,
            fault: Some(fault.refused),
        };
        match fault.token {
            Some(token) => read.with(line, token),
            None => Ok(read),
        }
    }

    /// One token more.
    fn with(self, line: &[u8], token: Token) -> Result<LineRead, NoMemory>
        requires token { IsLongestAtStart line.now token }
        ensures tokens { IfOk result (λ read. read.tokens ≡ self.tokens ++ token ∷ []) }
        ensures lexemes { AllZip (ReadsAs line.now) self.tokens self.lexemes →
            IfOk result (λ read. AllZip (ReadsAs line.now) read.tokens read.lexemes) }
        ensures fault { IfOk result (λ read. read.fault ≡ self.fault) }
    {
        let mut read = self;
        read.tokens.push(token)?;
        read.lexemes.push(read_as(line, token))?;
        Ok(read)
    }

    /// Whether nothing is read of the line, and its bytes have no fault.
    fn is_blank(&self) -> bool
        ensures { IsTrue result ↔ IsBlank self.now }
    {
        self.tokens.as_slice().is_empty() && self.fault.is_none()
    }

    /// How much has been counted with the line's statement, or the first cause that stands in the line.
    fn verdict(&self, line: &[u8], number: u32, counts: Counts) -> Result<Counts, Refused>
        requires short { length line.now < 2 ^ 32 - 1 }
        requires within { AreWithinLimits counts }
        requires read { IsReadOf line.now number self.now }
        requires some { ¬ IsBlank self.now }
        ensures whole { IfOk result (λ after. IsWhole line.now self.now) }
        ensures stated { IfOk result (IsStated counts self.now.lexemes) }
        ensures faultless { IfOk result (λ after. LineIsFaultless counts line.now) }
        ensures refused { IfErr result (IsLineRefusal counts line.now number) }
    {
        match read_statement(self.lexemes.as_slice(), counts) {
            Ok(after) => match self.fault {
                Some(fault) => Err(fault),
                None => Ok(after),
            },
            Err(fault) => Err(self.first_of(line, number, fault)),
        }
    }

    /// The first of the statement's fault and that of the bytes.
    fn first_of(&self, line: &[u8], number: u32, fault: StatementFault) -> Refused
        requires short { length line.now < 2 ^ 32 - 1 }
        requires read { IsReadOf line.now number self.now }
        requires some { ¬ IsBlank self.now }
        ensures { (counts : Counts) →
            IsFirstCause counts self.now.lexemes fault.place fault.cause →
            IsLineRefusal counts line.now number result }
    {
        let refused = self.refusal_of(line, number, fault);
        match self.fault {
            Some(earlier) => first(refused, earlier),
            None => refused,
        }
    }

    /// The statement's fault as a refusal: at its token, or behind the last byte where the tokens end too early.
    fn refusal_of(&self, line: &[u8], number: u32, fault: StatementFault) -> Refused
        requires short { length line.now < 2 ^ 32 - 1 }
        requires read { IsReadOf line.now number self.now }
        ensures line { result.line ≡ number }
        ensures column { MatchOption (slice_get self.now.tokens fault.place)
            (result.column ≡ length line.now + 1) (λ t. result.column ≡ t.start + 1) }
        ensures cause { result.cause ≡ fault.cause }
    {
        Refused {
            line: number,
            column: self.column_of(line, fault.place),
            cause: fault.cause,
        }
    }

    /// The column of the token with this number, or the one behind the last byte.
    fn column_of(&self, line: &[u8], place: usize) -> u32
        requires short { length line.now < 2 ^ 32 - 1 }
        requires read { AreRead line.now self.now.tokens }
        ensures { MatchOption (slice_get self.now.tokens place) (result ≡ length line.now + 1)
            (λ t. result ≡ t.start + 1) }
    {
        match self.tokens.as_slice().get(place) {
            Some(token) => token.start + 1,
            None => line.len() as u32 + 1,
        }
    }

    /// The line as it is kept.
    fn kept(self, alloc: Global, line: &[u8], number: u32) -> Result<ScriptLine, NoMemory>
        ensures number { IfOk result (λ kept. kept.number ≡ number) }
        ensures bytes { IfOk result (λ kept. kept.bytes ≡ line.now) }
        ensures tokens { IfOk result (λ kept. kept.tokens ≡ self.tokens) }
        ensures lexemes { IfOk result (λ kept. kept.lexemes ≡ self.lexemes) }
    {
        let bytes = text_of(alloc, line)?;
        Ok(ScriptLine {
            number,
            bytes,
            tokens: self.tokens,
            lexemes: self.lexemes,
        })
    }
}

/// The first of two refusals of one line.
fn first(one: Refused, other: Refused) -> Refused
    ensures { ((result ≡ one) × IsNoLater one.column one.cause other.column other.cause)
        ⊎ ((result ≡ other) × IsNoLater other.column other.cause one.column one.cause) }
{
    if one.column < other.column || one.column == other.column && one.cause.is_before(other.cause) {
        one
    } else {
        other
    }
}

/// Whether the token is a number that is too large.
fn is_too_large(line: &[u8], token: Token) -> bool
    requires { IsLongestAtStart line.now token }
    ensures { IsTrue result ↔ IsTooLarge line.now token }
{
    token.kind == TokenKind::Number && value_of(token.bytes(line)).is_none()
}

/// What a token is to the grammar, where a number that is too large is the least such.
fn read_as(line: &[u8], token: Token) -> Lexeme
    requires { IsLongestAtStart line.now token }
    ensures { ReadsAs line.now token result }
{
    if is_too_large(line, token) {
        return Lexeme::Number(NUMBER_LIMIT + 1);
    }
    lexeme_of(line, token)
}

/// A copy of the bytes.
fn text_of(alloc: Global, bytes: &[u8]) -> Result<Text, NoMemory>
    ensures { IfOk result (λ text. text ≡ bytes.now) }
{
    let mut text = Text::new(alloc);
    for byte in bytes {
        text.push(*byte)?;
    }
    Ok(text)
}
