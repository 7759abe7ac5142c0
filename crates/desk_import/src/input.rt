//! What is read of an input file: all of it or, of a larger one, as much as shows that it is too
//! large.

ghost use Rattle.std.specs.Prelude.{◌≡◌, ◌≢◌, ◌≤◌, length, IfErr, IfOk, IfSome};
ghost use Rattle.std.specs.IoError.{error_kind};
ghost use Rattle.std.specs.Str.{IsUtf8};
ghost use Rattle.desk_import.specs.Inputs.{IsLastStart, IsTextRead, continues, input_of};

use desk_base::limits::INPUT_BYTES;
use std::alloc::Global;
use std::io::{self, ErrorKind, Read};

/// The bytes of an input, or the first 64 MiB and a byte if it has more.
pub fn read_input<R: Read + Drop>(alloc: Global, reader: R) -> io::Result<Vec<u8>>
    ensures read { IfOk result (λ bytes. IfSome (R.remaining reader)
        (λ all. bytes.items ≡ input_of all)) }
    ensures retried { IfErr result (λ error. error_kind error ≢ ErrorKind.Interrupted) }
{
    let mut bytes = Vec::new(alloc);
    reader.take(INPUT_BYTES as u64 + 1).read_to_end(&mut bytes)?;
    Ok(bytes)
}

// Whether a byte continues a character.
fn continues(byte: u8) -> bool
    ensures { result ≡ continues byte }
{
    (0x80..=0xBF).contains(&byte)
}

// The place at which the last character of some bytes begins, which may be cut short.
fn last_start(bytes: &[u8]) -> usize
    requires { 4 ≤ length bytes.now }
    ensures { IsLastStart bytes.now result }
{
    let first = bytes.len() - 4;
    let mut start = bytes.len() - 1;
    while start > first && continues(bytes[start]) {
        start -= 1;
    }
    start
}

/// The same for a text: without its last character if it has more, which may be cut short. So what
/// is read of a text is a text.
pub fn read_text<R: Read + Drop>(alloc: Global, reader: R) -> io::Result<Vec<u8>>
    ensures read { IfOk result (λ bytes. IfSome (R.remaining reader)
        (λ all. IsTextRead all bytes.items)) }
    ensures text { IfOk result (λ bytes. IfSome (R.remaining reader)
        (λ all. IsUtf8 all → IsUtf8 bytes.items)) }
    ensures retried { IfErr result (λ error. error_kind error ≢ ErrorKind.Interrupted) }
{
    let mut bytes = read_input(alloc, reader)?;
    if bytes.len() > INPUT_BYTES {
        bytes.truncate(last_start(bytes.as_slice()));
    }
    Ok(bytes)
}
