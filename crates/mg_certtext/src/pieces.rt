//! Pieces of a text.
ghost use Rattle.std.specs.Prelude.{◌≡◌, [], ◌∷◌, ◌++◌, take, OnOk, OnErr, codes};
ghost use Rattle.std.specs.Fmt.{decimal};
ghost use Rattle.mg_certtext.specs.Pieces.{spaced};

use mg_lists::NoMemory;
use std::alloc::Global;

// What came of a push; where memory was wanting, takes back what stands behind this length.
pub(crate) fn all_or_nothing(
    out: &mut Vec<u8>,
    kept: usize,
    pushed: Result<(), NoMemory>,
) -> Result<(), NoMemory>
    ensures same { result ≡ pushed }
    ensures ok { OnOk result (out.new.items ≡ out.old.items) }
    ensures err { OnErr result (out.new.items ≡ take kept out.old.items) }
{
    if pushed.is_err() {
        out.truncate(kept);
    }
    pushed
}

/// Pushes bytes as they are.
pub fn push_bytes(out: &mut Vec<u8>, bytes: &[u8]) -> Result<(), NoMemory>
    ensures pushed { OnOk result (out.new.items ≡ out.old.items ++ bytes.now) }
    ensures kept { OnErr result (out.new.items ≡ out.old.items) }
{
    out.extend_from_slice(bytes)
}

/// Pushes a piece behind a space.
pub fn push_piece(out: &mut Vec<u8>, piece: &[u8]) -> Result<(), NoMemory>
    ensures pushed { OnOk result (out.new.items ≡ out.old.items ++ spaced (piece.now ∷ [])) }
    ensures kept { OnErr result (out.new.items ≡ out.old.items) }
{
    let length = out.len();
    push_bytes(out, b" ")?;
    let pushed = push_bytes(out, piece);
    all_or_nothing(out, length, pushed)
}

// Pushes the comma between two members of a list.
pub(crate) fn push_comma(out: &mut Vec<u8>) -> Result<(), NoMemory>
    ensures pushed { OnOk result (out.new.items ≡ out.old.items ++ spaced (codes "," ∷ [])) }
    ensures kept { OnErr result (out.new.items ≡ out.old.items) }
{
    push_piece(out, b",")
}

// Pushes the decimal digits of a number.
pub(crate) fn push_decimal(alloc: Global, out: &mut Vec<u8>, number: u128) -> Result<(), NoMemory>
    ensures pushed { OnOk result (out.new.items ≡ out.old.items ++ decimal number) }
    ensures kept { OnErr result (out.new.items ≡ out.old.items) }
{
    let digits = number.to_string(alloc)?;
    push_bytes(out, digits.as_bytes())
}

/// Pushes a number as a piece behind a space.
pub fn push_number(alloc: Global, out: &mut Vec<u8>, number: u128) -> Result<(), NoMemory>
    ensures pushed { OnOk result (out.new.items
        ≡ out.old.items ++ spaced (decimal number ∷ [])) }
    ensures kept { OnErr result (out.new.items ≡ out.old.items) }
{
    let digits = number.to_string(alloc)?;
    push_piece(out, digits.as_bytes())
}

/// Pushes a title and its number, each as a piece behind a space.
pub fn push_count(
    alloc: Global,
    out: &mut Vec<u8>,
    title: &[u8],
    count: u128,
) -> Result<(), NoMemory>
    ensures pushed { OnOk result (out.new.items
        ≡ out.old.items ++ spaced (title.now ∷ decimal count ∷ [])) }
    ensures kept { OnErr result (out.new.items ≡ out.old.items) }
{
    let length = out.len();
    push_piece(out, title)?;
    let pushed = push_number(alloc, out, count);
    all_or_nothing(out, length, pushed)
}
