//! Writes bytes.

ghost use Rattle.std.specs.Prelude.{◌≡◌, ◌++◌, IfErr, OnOk, OnErr};
ghost use Rattle.std.specs.Io.KnownBytes.{Appends};
ghost use Rattle.desk_script.specs.Losses.{AppendsFront};

use crate::receiving::ServeFault;
use desk_script::write_bytes;
use std::io::Write;

/// Writes bytes. After a fault a prefix of them was written.
fn write_whole<W: Write>(writer: &mut W, bytes: &[u8]) -> Result<(), ServeFault>
    ensures ok { OnOk result (Appends (W.contents writer.old) (W.contents writer.new) bytes.now) }
    ensures err { OnErr result
        (AppendsFront (W.contents writer.old) (W.contents writer.new) bytes.now) }
    ensures fault { IfErr result (λ fault. fault ≡ ServeFault.Write) }
{
    match write_bytes(writer, bytes) {
        Ok(()) => Ok(()),
        Err(_) => Err(ServeFault::Write),
    }
}

/// Writes bytes and flushes the writer. After a fault a prefix of the bytes was written.
pub fn send<W: Write>(writer: &mut W, bytes: &[u8]) -> Result<(), ServeFault>
    ensures ok { OnOk result (Appends (W.contents writer.old) (W.contents writer.new) bytes.now) }
    ensures err { OnErr result
        (AppendsFront (W.contents writer.old) (W.contents writer.new) bytes.now) }
    ensures fault { IfErr result (λ fault. fault ≡ ServeFault.Write) }
{
    write_whole(writer, bytes)?;
    match writer.flush() {
        Ok(()) => Ok(()),
        Err(_) => Err(ServeFault::Write),
    }
}

/// Writes bytes and then others, as `send` does: after a fault a prefix of both together was
/// written.
pub(crate) fn send_both<W: Write>(
    writer: &mut W,
    front: &[u8],
    rest: &[u8],
) -> Result<(), ServeFault>
    ensures ok { OnOk result (Appends (W.contents writer.old) (W.contents writer.new)
        (front.now ++ rest.now)) }
    ensures err { OnErr result (AppendsFront (W.contents writer.old) (W.contents writer.new)
        (front.now ++ rest.now)) }
    ensures fault { IfErr result (λ fault. fault ≡ ServeFault.Write) }
{
    write_whole(writer, front)?;
    send(writer, rest)
}
