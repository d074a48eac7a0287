//! The pieces of relators and members, and of their inverses.
ghost use Rattle.std.specs.Prelude.{◌≡◌, [], ◌∷◌, ◌++◌, OnOk};
ghost use Rattle.std.specs.Fmt.{decimal};
ghost use Rattle.mg_certtext.specs.Pieces.{spaced};
ghost use Rattle.mg_certtext.specs.Signs.{sign};

use crate::pieces::{push_bytes, push_decimal, push_piece};
use mg_lists::NoMemory;
use std::alloc::Global;

fn sign_bytes(inverse: bool) -> &'static [u8]
    ensures { result.now ≡ sign inverse }
{
    if inverse { b"^-1" } else { b"" }
}

/// Pushes a number between two texts as a piece.
pub(crate) fn push_sign(
    alloc: Global,
    out: &mut Vec<u8>,
    before: &[u8],
    place: u32,
    after: &[u8],
    inverse: bool,
) -> Result<(), NoMemory>
    ensures { OnOk result (out.new.items ≡ out.old.items
        ++ spaced ((before.now ++ decimal place ++ after.now ++ sign inverse) ∷ [])) }
{
    push_piece(out, before)?;
    push_decimal(alloc, out, place as u128)?;
    push_bytes(out, after)?;
    push_bytes(out, sign_bytes(inverse))
}
