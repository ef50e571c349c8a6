//! Reads module texts.

ghost use Rattle.std.specs.Prelude.{◌≡◌, ◌<◌, true, IfOk, IfErr, IfSome, length, take};
ghost use Rattle.scrib_script_io.specs.Faults.{of_script};

use scrib_script_io::fault::ScriptFault;
use scrib_script_io::reading::read_piece;
use scrib_script_reader::kept_bytes::{KEPT_TEXT_BYTES, append_up_to};
pub use scrib_types::containers::Items;
use std::alloc::Global;
use std::io::Read;

// The number of bytes that one read asks for.
const PIECE_BYTES: usize = 8192;

/// Reads a module text to its end. Returns its first 1,048,577 bytes: a put refuses a text that has so many.
///
/// # Errors
/// `Read` where the reader fails, and `OutOfMemory` where memory is refused.
pub fn read_text<R: Read>(alloc: Global, reader: &mut R) -> Result<Items<u8>, ScriptFault>
    ensures text { IfOk result (λ text. IfSome (R.remaining reader.old) (λ input. text ≡ take 1_048_577 input)) }
    ensures fault { IfErr result (λ e. of_script e ≡ true) }
{
    let mut piece = vec![in alloc; 0u8; PIECE_BYTES]?;
    let text = read_by_pieces(alloc, reader, piece.as_mut_slice())?;
    Ok(Items::from_vec(text))
}

// Reads to the end by pieces, with `piece` as the buffer.
fn read_by_pieces<R: Read>(
    alloc: Global,
    reader: &mut R,
    piece: &mut [u8],
) -> Result<Vec<u8>, ScriptFault>
    requires { 0 < length piece.old }
    ensures text { IfOk result (λ text. IfSome (R.remaining reader.old) (λ input. text.items ≡ take 1_048_577 input)) }
    ensures fault { IfErr result (λ e. of_script e ≡ true) }
{
    let mut text = Vec::new(alloc);
    for _ in 0..u64::MAX {
        let n = read_piece(reader, piece)?;
        if n == 0 {
            return Ok(text);
        }
        append_up_to(&mut text, &piece[..n], KEPT_TEXT_BYTES)?;
    }
    Err(ScriptFault::Read)
}
