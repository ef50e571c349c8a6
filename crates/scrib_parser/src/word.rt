//! Names as bytes of a text.

ghost use Rattle.std.specs.Prelude.{◌≡◌, IsTrue, Some, None, if◌then◌else◌};
ghost use Rattle.scrib_types.specs.Names as names;

use scrib_types::name::is_name;
use std::marker::Model;

/// A name that borrows its bytes from the text. Contracts see the bytes.
#[derive(Drop)]
pub(crate) struct Word<'a> {
    bytes: &'a [u8],
}

impl<'a> Model for Word<'a> {
    ghost use Rattle.std.specs.Prelude.{ℕ, List, IsTrue};
    ghost use Rattle.scrib_types.specs.Names.{is_name};

    ghost Value = { List ℕ };

    ghost view = { λ word. word.bytes.now };

    ghost invariant = { λ word. IsTrue (is_name word.bytes.now) };
}

impl<'a> Word<'a> {
    /// The name that the bytes are, or `None` where they are no name.
    pub(crate) fn from_bytes(bytes: &'a [u8]) -> Option<Word<'a>>
        ensures { result ≡ (if names.is_name bytes.now then Some bytes.now else None) }
    {
        if is_name(bytes) {
            Some(Word { bytes })
        } else {
            None
        }
    }

    /// The name's bytes.
    pub(crate) fn as_bytes(&self) -> &[u8]
        ensures bytes { result.now ≡ self.now }
        ensures name { IsTrue (names.is_name self.now) }
    {
        self.bytes
    }
}
