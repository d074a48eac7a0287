//! Classes of bytes.

ghost use Rattle.std.specs.Prelude.{◌≡◌, ◌≤◌, length};
ghost use Rattle.std.specs.List.{prefix_len};
ghost use Rattle.mg_lex.specs.Line.{is_allowed, is_blank};

fn is_blank(byte: u8) -> bool
    ensures { result ≡ is_blank byte }
{
    byte == b' ' || byte == b'\t'
}

pub(crate) fn is_allowed(byte: u8) -> bool
    ensures { result ≡ is_allowed byte }
{
    byte == b'\t' || (byte >= b' ' && byte <= b'~')
}

/// How many blanks stand at the front.
pub(crate) fn blanks_length(bytes: &[u8]) -> usize
    ensures count { result ≡ prefix_len is_blank bytes.now }
    ensures within { result ≤ length bytes.now }
{
    bytes.iter().take_while(|byte| is_blank(**byte)).count()
}

/// How many allowed bytes stand at the front.
pub(crate) fn allowed_length(bytes: &[u8]) -> usize
    ensures count { result ≡ prefix_len is_allowed bytes.now }
    ensures within { result ≤ length bytes.now }
{
    bytes.iter().take_while(|byte| is_allowed(**byte)).count()
}
