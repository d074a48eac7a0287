//! The tokens of a line.

ghost use Rattle.std.specs.Prelude.{◌≡◌, ◌+◌, ◌-◌, ◌<◌, ◌^◌, length, Err, IfNone, IfOk, IfSome, OnOk};
ghost use Rattle.mg_lex.specs.Line.{AreTokens};
ghost use Rattle.mg_lex.specs.Cause.{AreTokensBefore, IsFaultless, IsTokenAt};
ghost use Rattle.mg_lex.specs.Refusal.{IsRefusal, place_of};

use crate::Tokens;
use crate::refusal::{LexRefused, Refused};
use crate::scanner::{Fault, Scanner, Step};
use crate::token::Token;
use mg_lists::NoMemory;
use std::alloc::Global;

/// The first fault of a line, and the token that begins at its column, if one does.
#[derive(Clone, Copy, Debug, PartialEq, Eq)]
pub struct FirstFault {
    pub refused: Refused,
    /// With its kind and whole span, also where a limit is passed.
    pub token: Option<Token>,
}

/// A line that was read up to its first fault, or to its end.
#[derive(Debug, Drop)]
pub struct Lexed {
    /// Those that begin before the fault, or all.
    pub tokens: Tokens,
    /// None where the line has no fault.
    pub fault: Option<FirstFault>,
}

fn first_fault(fault: Fault, number: u32) -> FirstFault
    requires { fault.place < 2 ^ 32 - 1 }
    ensures line { result.refused.line ≡ number }
    ensures column { result.refused.column ≡ fault.place + 1 }
    ensures cause { result.refused.cause ≡ fault.cause }
    ensures token { result.token ≡ fault.token }
{
    let column = fault.place as u32 + 1;
    let refused = Refused {
        line: number,
        column,
        cause: fault.cause,
    };
    FirstFault {
        refused,
        token: fault.token,
    }
}

/// The tokens of a line before its first fault, and that fault, if it has one. The line is handed
/// without its end, and its number, counted from 1, is that of the refusal.
pub fn lex(alloc: Global, line: &[u8], number: u32) -> Result<Lexed, NoMemory>
    requires { length line.now < 2 ^ 32 - 1 }

    // With no fault these are the tokens of the line, and no cause stands in it.
    ensures tokens { IfOk result (λ l. IfNone l.fault (AreTokens line.now l.tokens)) }
    ensures faultless { IfOk result (λ l. IfNone l.fault (IsFaultless line.now)) }

    // A fault is the first one of the line.
    ensures refused { IfOk result (λ l. IfSome l.fault (λ f. IsRefusal line.now number f.refused)) }
    ensures before { IfOk result (λ l. IfSome l.fault (λ f.
        AreTokensBefore line.now (place_of f.refused) l.tokens)) }
    ensures token { IfOk result (λ l. IfSome l.fault (λ f.
        IsTokenAt line.now (place_of f.refused) f.token)) }
{
    let mut scanner = Scanner::new(line);
    let mut tokens = Tokens::new(alloc);
    loop {
        match scanner.next() {
            Step::Token(token) => tokens.push(token)?,
            Step::End => return Ok(Lexed {
                tokens,
                fault: None,
            }),
            Step::Refused(fault) => {
                let fault = Some(first_fault(fault, number));
                return Ok(Lexed { tokens, fault });
            }
        }
    }
}

/// The tokens of a line, or its least refusal: the first place at which a cause stands, and there the
/// first cause. The line is handed without its end, and its number is counted from 1.
pub fn tokens(alloc: Global, line: &[u8], number: u32) -> Result<Tokens, LexRefused>
    requires { length line.now < 2 ^ 32 - 1 }
    ensures tokens { IfOk result (AreTokens line.now) }
    ensures faultless { OnOk result (IsFaultless line.now) }
    ensures refused { (r : Refused) → result ≡ Err (LexRefused.Refused r) →
        IsRefusal line.now number r }
{
    let Ok(lexed) = lex(alloc, line, number) else {
        return Err(LexRefused::NoMemory);
    };
    match lexed.fault {
        Some(fault) => Err(LexRefused::Refused(fault.refused)),
        None => Ok(lexed.tokens),
    }
}
