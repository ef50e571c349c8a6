//! Names of conversations.

ghost use Rattle.std.specs.Prelude.{◌≡◌};
ghost use Rattle.scrib_labels.specs.SessionNames as spec;

use scrib_types::name::is_word_byte;

/// The most bytes of a conversation's name.
pub const MAX_SESSION_NAME_BYTES: usize = 128;

/// Returns whether the bytes are a name of a conversation: 1 to 128 letters, digits and `_ . : -`, and no word that
/// begins a reply.
pub fn is_session_name(bytes: &[u8]) -> bool
    ensures { result ≡ spec.is_session_name bytes.now }
{
    !bytes.is_empty()
        && bytes.len() <= MAX_SESSION_NAME_BYTES
        && all_session_bytes(bytes)
        && !is_reply_word(bytes)
}

fn all_session_bytes(bytes: &[u8]) -> bool
    ensures { result ≡ spec.all_session_bytes bytes.now }
{
    for byte in bytes {
        if !is_session_byte(*byte) {
            return false;
        }
    }
    true
}

fn is_session_byte(byte: u8) -> bool
    ensures { result ≡ spec.is_session_byte byte }
{
    is_word_byte(byte) || byte == b'.' || byte == b':' || byte == b'-'
}

// Whether replies that name no conversation first begin with this word.
fn is_reply_word(bytes: &[u8]) -> bool
    ensures { result ≡ spec.is_reply_word bytes.now }
{
    is_refusal_word(bytes) || is_edit_word(bytes) || is_session_word(bytes)
}

fn is_refusal_word(bytes: &[u8]) -> bool
    ensures { result ≡ spec.is_refusal_word bytes.now }
{
    bytes == b"refused".as_slice() || bytes == b"sweep".as_slice()
}

fn is_edit_word(bytes: &[u8]) -> bool
    ensures { result ≡ spec.is_edit_word bytes.now }
{
    bytes == b"put".as_slice() || bytes == b"withdraw".as_slice() || bytes == b"profile".as_slice()
}

fn is_session_word(bytes: &[u8]) -> bool
    ensures { result ≡ spec.is_session_word bytes.now }
{
    bytes == b"open".as_slice() || bytes == b"close".as_slice()
}
