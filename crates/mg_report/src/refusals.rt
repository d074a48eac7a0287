//! The lines that say that a step was refused.
ghost use Rattle.std.specs.Prelude.{◌≡◌, [], ◌∷◌, IfOk};
ghost use Rattle.std.specs.Fmt.{decimal};
ghost use Rattle.mg_certtext.specs.Pieces.{line};
ghost use Rattle.mg_report.specs.Refusals.{fund_refused, grant_refused, cancel_refused};

use mg_certtext::{push_bytes, push_number};
use mg_lists::NoMemory;
use std::alloc::Global;

/// A line of a title and a number.
fn counted_line(alloc: Global, title: &[u8], count: u64) -> Result<Vec<u8>, NoMemory>
    ensures { IfOk result (λ text. text.items ≡ line title.now (decimal count ∷ [])) }
{
    let mut out = Vec::new(alloc);
    push_bytes(&mut out, title)?;
    push_number(alloc, &mut out, count as u128)?;
    push_bytes(&mut out, b"\n")?;
    Ok(out)
}

/// The line of a refused `fund`, with all the units that were funded.
pub fn fund_refusal(alloc: Global, funded: u64) -> Result<Vec<u8>, NoMemory>
    ensures { IfOk result (λ text. text.items ≡ fund_refused funded) }
{
    counted_line(alloc, b"fund refused: funded", funded)
}

/// The line of a refused `grant`, with the units in the purse.
pub fn grant_refusal(alloc: Global, purse: u64) -> Result<Vec<u8>, NoMemory>
    ensures { IfOk result (λ text. text.items ≡ grant_refused purse) }
{
    counted_line(alloc, b"grant refused: purse", purse)
}

/// The line of a refused `cancel`.
pub fn cancel_refusal(alloc: Global) -> Result<Vec<u8>, NoMemory>
    ensures { IfOk result (λ text. text.items ≡ cancel_refused) }
{
    let mut out = Vec::new(alloc);
    push_bytes(&mut out, b"cancel refused: no search\n")?;
    Ok(out)
}
