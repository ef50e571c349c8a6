//! Reads a script or a text piece by piece.

ghost use Rattle.std.specs.Prelude.{◌≡◌, IfErr};
ghost use Rattle.std.specs.Io.KnownBytes.{ReadConsumes};
ghost use Rattle.std.specs.Io.{ReadsAtMost};
ghost use Rattle.scrib_script_io.specs.declared.fault.ScriptFault.TheVariants as fault;

use crate::fault::ScriptFault;
use std::io::{ErrorKind, Read};

/// Reads the next bytes into the front of `piece`, and returns their number. An interrupted read is repeated. The
/// number is 0 only at the end of the reader, or where `piece` is empty.
///
/// # Errors
/// `Read` where a read fails; no byte is then taken from the reader.
pub fn read_piece<R: Read>(reader: &mut R, piece: &mut [u8]) -> Result<usize, ScriptFault>
    ensures bound { ReadsAtMost result piece.new }
    ensures bytes { ReadConsumes (R.remaining reader.old) (R.remaining reader.new) result piece.new }
    ensures fault { IfErr result (λ e. e ≡ fault.Read) }
{
    for _ in 0..u64::MAX {
        match reader.read(piece) {
            Ok(n) => return Ok(n),
            Err(e) => {
                if e.kind() != ErrorKind::Interrupted {
                    return Err(ScriptFault::Read);
                }
            }
        }
    }
    Err(ScriptFault::Read)
}
