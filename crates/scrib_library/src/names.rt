//! Full names of protocols, and their order.

ghost use Rattle.std.specs.Prelude.{◌≡◌, ◌↔◌, IsTrue, IfOk};
ghost use Rattle.std.specs.Ordering.{nat_cmp};
ghost use Rattle.std.specs.Cmp.Lexicographic.{slice_cmp};
ghost use Rattle.scrib_library.specs.Modules as spec;
ghost use Rattle.scrib_library.specs.Listed.{name_cmp};

use scrib_types::name::{Dotted, Name};
use std::alloc::{AllocError, Global};
use std::cmp::Ordering;

/// Compares two names part by part. The order is that of their printed bytes, since the dot precedes each byte of a
/// name.
pub fn compare(a: &Dotted, b: &Dotted) -> Ordering
    ensures { result ≡ name_cmp a.now b.now }
{
    compare_all(a.as_slice(), b.as_slice())
}

/// Whether two names are equal. The last parts are compared first, since module names often begin alike.
pub fn same(a: &Dotted, b: &Dotted) -> bool
    ensures { IsTrue result ↔ (a.now ≡ b.now) }
{
    let x = a.as_slice();
    let y = b.as_slice();
    x[x.len() - 1].equal(&y[y.len() - 1]) && a.equal(b)
}

/// Returns the protocol's name appended to that of its module.
///
/// # Errors
/// `AllocError` if memory was refused.
pub fn full_name(alloc: Global, home: &Dotted, protocol: &Name) -> Result<Dotted, AllocError>
    ensures { IfOk result (λ full. full ≡ spec.full_name home.now protocol.now) }
{
    let mut names = Vec::new(alloc);
    for part in home.as_slice() {
        names.push(part.copy()?)?;
    }
    names.push(protocol.copy()?)?;
    Dotted::from_vec(alloc, names)
}

fn compare_all(a: &[Name], b: &[Name]) -> Ordering
    ensures { result ≡ name_cmp a.now b.now }
{
    for i in 0..a.len() {
        if i >= b.len() {
            return Ordering::Greater;
        }
        let order = compare_names(&a[i], &b[i]);
        if order != Ordering::Equal {
            return order;
        }
    }
    if a.len() < b.len() {
        Ordering::Less
    } else {
        Ordering::Equal
    }
}

fn compare_names(a: &Name, b: &Name) -> Ordering
    ensures { result ≡ slice_cmp nat_cmp a.now b.now }
{
    a.as_bytes().cmp(b.as_bytes())
}
