//! Local types: what one role does.

ghost use Rattle.std.specs.Prelude.{◌≡◌, ◌↔◌, IsTrue, IfOk};

use crate::name::Role;
use crate::shared_message::SharedMessage;
use sqlite_items::{Boxed, Items};
use std::alloc::{AllocError, Global};

/// A local type (Honda, Yoshida and Carbone, POPL 2008): what one role does. In place of a communication it has an
/// internal choice of sends or an external choice of receptions.
#[derive(Drop)]
pub enum Local {
    End,
    Var(u32),
    Rec(Boxed<Local>),
    Send {
        to: Role,
        branches: Items<(SharedMessage, Local)>,
    },
    Recv {
        from: Role,
        branches: Items<(SharedMessage, Local)>,
    },
}

impl Local {
    /// Whether the two are the same.
    #[cycle(equal)]
    pub fn equal(a: &Local, b: &Local) -> bool
        ensures { IsTrue result ↔ (a.now ≡ b.now) }
    {
        match (a, b) {
            (Local::End, Local::End) => true,
            (Local::Var(i), Local::Var(j)) => i == j,
            (Local::Rec(g), Local::Rec(h)) => Local::equal(g.get(), h.get()),
            (
                Local::Send {
                    to: p,
                    branches: bs,
                },
                Local::Send {
                    to: q,
                    branches: cs,
                },
            ) => p.equal(q) && branches_equal(bs.as_slice(), cs.as_slice()),
            (
                Local::Recv {
                    from: p,
                    branches: bs,
                },
                Local::Recv {
                    from: q,
                    branches: cs,
                },
            ) => p.equal(q) && branches_equal(bs.as_slice(), cs.as_slice()),
            _ => false,
        }
    }

    /// A copy of the type.
    ///
    /// # Errors
    /// `AllocError` where memory for the copy is refused.
    #[cycle(copy)]
    pub fn copy(alloc: Global, a: &Local) -> Result<Local, AllocError>
        ensures { IfOk result (λ l. l ≡ a.now) }
    {
        match a {
            Local::End => Ok(Local::End),
            Local::Var(i) => Ok(Local::Var(*i)),
            Local::Rec(body) => {
                let body = Local::copy(alloc, body.get())?;
                Ok(Local::Rec(Boxed::new(alloc, body)?))
            }
            Local::Send { to, branches } => {
                let to = to.copy()?;
                let branches = copy_branches(alloc, branches.as_slice())?;
                let branches = Items::from_vec(branches);
                Ok(Local::Send { to, branches })
            }
            Local::Recv { from, branches } => {
                let from = from.copy()?;
                let branches = copy_branches(alloc, branches.as_slice())?;
                let branches = Items::from_vec(branches);
                Ok(Local::Recv { from, branches })
            }
        }
    }
}

#[cycle(equal)]
fn branches_equal(a: &[(SharedMessage, Local)], b: &[(SharedMessage, Local)]) -> bool
    ensures { IsTrue result ↔ (a.now ≡ b.now) }
{
    if a.len() != b.len() {
        return false;
    }
    for i in 0..a.len() {
        let (m, g) = &a[i];
        let (n, h) = &b[i];
        if !m.equal(n) {
            return false;
        }
        if !Local::equal(g, h) {
            return false;
        }
    }
    true
}

#[cycle(copy)]
fn copy_branches(
    alloc: Global,
    branches: &[(SharedMessage, Local)],
) -> Result<Vec<(SharedMessage, Local)>, AllocError>
    ensures { IfOk result (λ copies. copies.items ≡ branches.now) }
{
    let mut copies = Vec::with_capacity(alloc, branches.len())?;
    for (message, local) in branches {
        let message = message.copy()?;
        let local = Local::copy(alloc, local)?;
        copies.push((message, local))?;
    }
    Ok(copies)
}
