//! The bytes of a file that are looked at.

ghost use Rattle.std.specs.Prelude.{◌≡◌};
ghost use Rattle.desk_fields.specs.Cutting.{behind_mark};
ghost use Rattle.desk_looks.specs.Looks.{behind_blanks, head_of, is_blank, has_word};

use memchr::memmem;

// A word further behind isn't seen.
const HEAD: usize = 4_096;

/// The bytes without a byte order mark at their start.
pub fn behind_mark(bytes: &[u8]) -> &[u8]
    ensures { result.now ≡ behind_mark bytes.now }
{
    match bytes {
        [0xEF, 0xBB, 0xBF, rest @ ..] => rest,
        _ => bytes,
    }
}

fn is_blank(byte: u8) -> bool
    ensures { result ≡ is_blank byte }
{
    byte == b' ' || byte == b'\t' || byte == b'\n' || byte == b'\r'
}

fn behind_blanks(bytes: &[u8]) -> &[u8]
    ensures { result.now ≡ behind_blanks bytes.now }
{
    let mut rest = bytes;
    while let [first, more @ ..] = rest
        && is_blank(*first)
    {
        rest = more;
    }
    rest
}

// The bytes that are looked at.
pub(crate) fn head_of(bytes: &[u8]) -> &[u8]
    ensures { result.now ≡ head_of bytes.now }
{
    let rest = behind_blanks(behind_mark(bytes));
    &rest[..HEAD.min(rest.len())]
}

// Whether a word is somewhere in bytes.
pub(crate) fn has_word(bytes: &[u8], word: &[u8]) -> bool
    ensures { result ≡ has_word word.now bytes.now }
{
    memmem::find(bytes, word).is_some()
}
