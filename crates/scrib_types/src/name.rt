//! Names, and names joined by dots.

ghost use Rattle.std.specs.Prelude.{◌≡◌, ◌↔◌, ◌<◌, IsTrue, IfOk, Some, None, if◌then◌else◌, length};
ghost use Rattle.std.specs.Str.{bytes_eq};
ghost use Rattle.scrib_types.specs.Names as names;

use crate::bytes::same_bytes;
use std::alloc::{AllocError, Global};
use std::marker::Model;
use std::sync::Arc;

/// The most bytes that a name may have.
pub const MAX_NAME_BYTES: usize = 128;

/// A name: an ASCII letter or underscore, then letters, digits and underscores, 1 to 128 bytes in all.
/// Copies share the bytes. Contracts see them.
#[derive(Drop)]
pub struct Name {
    bytes: Arc<Vec<u8>>,
}

/// A role of a protocol.
pub type Role = Name;

impl Model for Name {
    ghost use Rattle.std.specs.Prelude.{ℕ, List, IsTrue};
    ghost use Rattle.scrib_types.specs.Names.{is_name};

    ghost Value = { List ℕ };

    ghost view = { λ n. n.bytes.value.items };

    ghost invariant = { λ n. IsTrue (is_name n.bytes.value.items) };
}

impl Name {
    /// The name that the bytes are, or `None` where they are no name.
    ///
    /// # Errors
    /// `AllocError` where memory for the name is refused.
    pub fn from_bytes(alloc: Global, bytes: &[u8]) -> Result<Option<Name>, AllocError>
        ensures { IfOk result (λ name. name ≡ (if names.is_name bytes.now then Some bytes.now else None)) }
    {
        if !is_name(bytes) {
            return Ok(None);
        }
        let bytes = Arc::new(alloc, Vec::from_slice(alloc, bytes)?)?;
        Ok(Some(Name { bytes }))
    }

    /// The name's bytes, which are ASCII.
    pub fn as_bytes(&self) -> &[u8]
        ensures { result.now ≡ self.now }
    {
        self.bytes.as_slice()
    }

    /// Whether the two names are the same.
    pub fn equal(&self, other: &Name) -> bool
        ensures same { IsTrue result ↔ (self.now ≡ other.now) }
        ensures test { result ≡ bytes_eq self.now other.now }
    {
        self.has_bytes(other.as_bytes())
    }

    /// Whether the name's bytes are these.
    pub fn has_bytes(&self, bytes: &[u8]) -> bool
        ensures { IsTrue result ↔ (self.now ≡ bytes.now) }
    {
        same_bytes(self.as_bytes(), bytes)
    }

    /// A copy that shares the bytes.
    ///
    /// # Errors
    /// `AllocError` where the reference count can't rise.
    pub fn copy(&self) -> Result<Name, AllocError>
        ensures { IfOk result (λ name. name ≡ self.now) }
    {
        let bytes = self.bytes.clone()?;
        Ok(Name { bytes })
    }
}

/// One or more names, joined by dots. Copies share the list. Contracts see the list.
#[derive(Drop)]
pub struct Dotted {
    names: Arc<Vec<Name>>,
}

impl Model for Dotted {
    ghost use Rattle.std.specs.Prelude.{ℕ, List, ◌<◌, length};

    ghost Value = { List (List ℕ) };

    ghost view = { λ d. d.names.value.items };

    ghost invariant = { λ d. 0 < length d.names.value.items };
}

impl Dotted {
    /// The names joined.
    ///
    /// # Errors
    /// `AllocError` where memory for them is refused.
    pub fn from_vec(alloc: Global, names: Vec<Name>) -> Result<Dotted, AllocError>
        requires { 0 < length names.items }
        ensures { IfOk result (λ dotted. dotted ≡ names.items) }
    {
        let names = Arc::new(alloc, names)?;
        Ok(Dotted { names })
    }

    /// The names, from the first.
    pub fn as_slice(&self) -> &[Name]
        ensures names { result.now ≡ self.now }
        ensures some { 0 < length self.now }
    {
        self.names.as_slice()
    }

    /// Whether the two are the same.
    pub fn equal(&self, other: &Dotted) -> bool
        ensures { IsTrue result ↔ (self.now ≡ other.now) }
    {
        names_equal(&self.names, &other.names)
    }

    /// A copy that shares the names.
    ///
    /// # Errors
    /// `AllocError` where the reference count can't rise.
    pub fn copy(&self) -> Result<Dotted, AllocError>
        ensures { IfOk result (λ dotted. dotted ≡ self.now) }
    {
        let names = self.names.clone()?;
        Ok(Dotted { names })
    }
}

/// Whether the byte is an ASCII letter or an underscore.
pub fn is_letter(byte: u8) -> bool
    ensures { result ≡ names.is_letter byte }
{
    matches!(byte, b'a'..=b'z' | b'A'..=b'Z' | b'_')
}

/// Whether a name may have the byte after its first one.
pub fn is_word_byte(byte: u8) -> bool
    ensures { result ≡ names.is_word_byte byte }
{
    is_letter(byte) || (byte >= b'0' && byte <= b'9')
}

fn all_word(bytes: &[u8]) -> bool
    ensures { result ≡ names.all_word bytes.now }
{
    for byte in bytes {
        if !is_word_byte(*byte) {
            return false;
        }
    }
    true
}

/// Whether the bytes are a name.
pub fn is_name(bytes: &[u8]) -> bool
    ensures { result ≡ names.is_name bytes.now }
{
    if bytes.is_empty() || bytes.len() > MAX_NAME_BYTES {
        return false;
    }
    is_letter(bytes[0]) && all_word(&bytes[1..])
}

/// Whether both are the same names, in the same order.
pub fn names_equal(a: &[Name], b: &[Name]) -> bool
    ensures { IsTrue result ↔ (a.now ≡ b.now) }
{
    if a.len() != b.len() {
        return false;
    }
    for i in 0..a.len() {
        if !a[i].equal(&b[i]) {
            return false;
        }
    }
    true
}
