//! Texts that are copied.

ghost use Rattle.std.specs.Prelude.{◌≡◌, IfOk};

use mg_lex::Text;
use mg_lists::NoMemory;
use std::alloc::Global;

/// A text of these bytes.
pub(crate) fn text_of(alloc: Global, bytes: &[u8]) -> Result<Text, NoMemory>
    ensures { IfOk result (λ text. text ≡ bytes.now) }
{
    let mut text = Text::new(alloc);
    for byte in bytes {
        text.push(*byte)?;
    }
    Ok(text)
}
