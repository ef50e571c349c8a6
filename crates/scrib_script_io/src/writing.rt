//! Writes whole byte strings.

ghost use Rattle.std.specs.Prelude.{◌≡◌, IfErr, OnOk, OnErr};
ghost use Rattle.std.specs.Io.KnownBytes.{Appends, Keeps};
ghost use Rattle.scrib_script_io.specs.declared.fault.ScriptFault.TheVariants as fault;
ghost use Rattle.scrib_script_io.specs.Writes.{AppendsPart};

use crate::fault::ScriptFault;
use std::io::{ErrorKind, Write};

/// Writes all of the bytes, by as many writes as needed. An interrupted write is repeated.
///
/// # Errors
/// `Write` where a write fails or writes nothing; a prefix of the bytes is then written.
pub fn write_out<W: Write>(writer: &mut W, bytes: &[u8]) -> Result<(), ScriptFault>
    ensures ok { OnOk result (Appends (W.contents writer.old) (W.contents writer.new) bytes.now) }
    ensures err { OnErr result (AppendsPart (W.contents writer.old) (W.contents writer.new) bytes.now) }
    ensures fault { IfErr result (λ e. e ≡ fault.Write) }
{
    let mut at = 0usize;
    for _ in 0..u64::MAX {
        if at == bytes.len() {
            return Ok(());
        }
        match writer.write(&bytes[at..]) {
            Ok(0) => return Err(ScriptFault::Write),
            Ok(n) => at += n,
            Err(e) => {
                if e.kind() != ErrorKind::Interrupted {
                    return Err(ScriptFault::Write);
                }
            }
        }
    }
    Err(ScriptFault::Write)
}

/// Flushes the writer.
///
/// # Errors
/// `Write` where the flush fails.
pub fn flush_out<W: Write>(writer: &mut W) -> Result<(), ScriptFault>
    ensures kept { Keeps (W.contents writer.old) (W.contents writer.new) }
    ensures fault { IfErr result (λ e. e ≡ fault.Write) }
{
    match writer.flush() {
        Ok(()) => Ok(()),
        Err(_) => Err(ScriptFault::Write),
    }
}
