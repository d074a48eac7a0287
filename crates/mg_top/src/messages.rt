//! What the program says of how it ended.
ghost use Rattle.std.specs.Prelude.{◌≡◌, ◌++◌, IfOk, OnOk, codes};
ghost use Rattle.std.specs.Fmt.{decimal};
ghost use Rattle.mg_top.specs.Message.{cause_text, at_line, refused_text, usage_text, message_of};

use crate::status::Status;
use mg_command::UsageCause;
use mg_lex::{Cause, Refused, Text};
use mg_lists::NoMemory;
use std::alloc::Global;

/// What is said of a status, in one line without a line feed. Where all went well nothing is.
pub fn message(alloc: Global, status: &Status) -> Result<Text, NoMemory>
    ensures { IfOk result (λ text. text ≡ message_of status.now) }
{
    match status {
        Status::Done => Ok(Text::new(alloc)),
        Status::ReadFault => text_of(alloc, b"magnus: read fault"),
        Status::WriteFault => text_of(alloc, b"magnus: write fault"),
        Status::Usage(cause) => text_of(alloc, text_of_usage(*cause)),
        Status::ScriptRefused(refused) => refusal(alloc, *refused),
        Status::TooLong => text_of(alloc, b"magnus: input too long"),
        Status::NoMemory => text_of(alloc, b"magnus: no memory"),
        Status::NotBuilt { line } => not_built(alloc, *line),
    }
}

/// What is said of a refused script.
fn refusal(alloc: Global, refused: Refused) -> Result<Text, NoMemory>
    ensures { IfOk result (λ text. text ≡ refused_text refused) }
{
    let mut text = text_of(alloc, b"magnus: line ")?;
    push_number(alloc, &mut text, refused.line)?;
    text.extend_from_slice(b" column ")?;
    push_number(alloc, &mut text, refused.column)?;
    text.extend_from_slice(b": ")?;
    text.extend_from_slice(text_of_cause(refused.cause))?;
    Ok(text)
}

/// What is said of a line that asks for what isn't built.
fn not_built(alloc: Global, line: u32) -> Result<Text, NoMemory>
    ensures { IfOk result (λ text. text ≡ at_line line ++ codes ": not built") }
{
    let mut text = text_of(alloc, b"magnus: line ")?;
    push_number(alloc, &mut text, line)?;
    text.extend_from_slice(b": not built")?;
    Ok(text)
}

/// A cause, by its number and its name.
fn text_of_cause(cause: Cause) -> &'static [u8]
    ensures { result.now ≡ cause_text cause }
{
    match cause {
        Cause::BadByte => b"S1 BadByte",
        Cause::BadToken => b"S2 BadToken",
        Cause::Unexpected => b"S3 Unexpected",
        Cause::LineTooLong => b"S4 LineTooLong",
        Cause::NumberTooLarge => b"S5 NumberTooLarge",
        Cause::WordTooLong => b"S6 WordTooLong",
        Cause::TooMany => b"S7 TooMany",
        Cause::NameTaken => b"S8 NameTaken",
        Cause::UnknownName => b"S9 UnknownName",
        Cause::WrongKind => b"S10 WrongKind",
        Cause::UnknownGenerator => b"S11 UnknownGenerator",
        Cause::GeneratorTwice => b"S12 GeneratorTwice",
        Cause::ImageMissing => b"S13 ImageMissing",
        Cause::ProcedureDoesNotApply => b"S14 ProcedureDoesNotApply",
    }
}

/// What is said of words that ask for nothing.
fn text_of_usage(cause: UsageCause) -> &'static [u8]
    ensures { result.now ≡ usage_text cause }
{
    match cause {
        UsageCause::NoCommand => b"magnus: usage: NoCommand",
        UsageCause::UnknownCommand => b"magnus: usage: UnknownCommand",
        UsageCause::BadWords => b"magnus: usage: BadWords",
    }
}

fn text_of(alloc: Global, bytes: &[u8]) -> Result<Text, NoMemory>
    ensures { IfOk result (λ text. text ≡ bytes.now) }
{
    let mut text = Text::new(alloc);
    text.extend_from_slice(bytes)?;
    Ok(text)
}

fn push_number(alloc: Global, text: &mut Text, number: u32) -> Result<(), NoMemory>
    ensures { OnOk result (text.new ≡ text.old ++ decimal number) }
{
    let digits = number.to_string(alloc)?;
    text.extend_from_slice(digits.as_bytes())
}
