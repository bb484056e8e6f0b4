//! Writing the text.

ghost use Rattle.std.specs.Prelude.{OnOk, OnErr};
ghost use Rattle.std.specs.Io.KnownBytes.{Appends};
ghost use Rattle.weslc_bundle.specs.Output.{AppendsPart, AppendsBeginning};

use std::io;
use std::io::{ErrorKind, Write};

/// Writes a text and flushes it. Where that fails, a beginning of the text was written.
pub(crate) fn write_text<W: Write>(writer: &mut W, text: &str) -> io::Result<()>
    ensures whole { OnOk result (Appends (W.contents writer.old) (W.contents writer.new) text.now) }
    ensures beginning { OnErr result (AppendsBeginning (W.contents writer.old) (W.contents writer.new) text.now) }
{
    write_bytes(writer, text.as_bytes())?;
    writer.flush()
}

/// Writes bytes, as many at a time as the writer takes. Where a write fails, those before it were written and no more.
fn write_bytes<W: Write>(writer: &mut W, bytes: &[u8]) -> io::Result<()>
    ensures whole { OnOk result (Appends (W.contents writer.old) (W.contents writer.new) bytes.now) }
    ensures part { OnErr result (AppendsPart (W.contents writer.old) (W.contents writer.new) bytes.now) }
{
    let mut count = 0;
    for _turn in 0..u64::MAX {
        if count == bytes.len() {
            break;
        }
        match writer.write(&bytes[count..]) {
            Ok(0) => break,
            Ok(more) => count += more,
            Err(error) => {
                if error.kind() != ErrorKind::Interrupted {
                    return Err(error);
                }
            }
        }
    }
    if count == bytes.len() {
        Ok(())
    } else {
        Err(io::Error::from(ErrorKind::WriteZero))
    }
}
