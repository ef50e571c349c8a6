//! Bounded buffers of lines and module texts.

ghost use Rattle.std.specs.Prelude.{◌≡◌, ◌≤◌, ◌<◌, ◌++◌, ◌∷◌, [], ℕ, OnOk, MatchOption, vec_len, length, take, slice_index};
ghost use Rattle.scrib_script_reader.specs.Scripts.{bare, NoLf};

use memchr::memchr;
use scrib_core::format::Format;
use std::alloc::AllocError;

/// The most bytes that are kept of a module text: one more than it may have, so that a longer one is refused.
pub const KEPT_TEXT_BYTES: usize = 1_048_577;

// A module text so far, up to `KEPT_TEXT_BYTES` bytes.
#[derive(Drop)]
pub(crate) struct KeptText {
    pub(crate) bytes: Vec<u8>,
    // The format of the reply to its put.
    pub(crate) format: Format,
}

/// Appends bytes until `kept` has `capacity` bytes, and drops the rest.
///
/// # Errors
/// `AllocError` where memory is refused; `kept` then stays as it was.
pub fn append_up_to(kept: &mut Vec<u8>, bytes: &[u8], capacity: usize) -> Result<(), AllocError>
    ensures { OnOk result (vec_len kept.old ≤ capacity → kept.new.items ≡ take capacity (kept.old.items ++ bytes.now)) }
{
    let room = bytes.len().min(capacity.saturating_sub(kept.len()));
    kept.extend_from_slice(&bytes[..room])
}

/// Returns a line that an LF ended, given without that LF, without the CR before the LF.
pub fn without_cr(line: &[u8]) -> &[u8]
    ensures { result.now ≡ bare (line.now ++ 10 ∷ []) }
{
    let Some((last, front)) = line.split_last() else {
        return line;
    };
    if *last == b'\r' { front } else { line }
}

/// Returns the offset of the first LF, or none where there is none.
pub fn next_lf(bytes: &[u8]) -> Option<usize>
    ensures within { MatchOption result (NoLf bytes.now) (λ at. at < length bytes.now) }
    ensures lf { MatchOption result (NoLf bytes.now) (λ at. slice_index bytes.now at ≡ 10) }
    ensures before { MatchOption result (NoLf bytes.now) (λ at. NoLf (take at bytes.now)) }
{
    memchr(b'\n', bytes)
}
