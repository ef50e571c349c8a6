//! Global types: what all roles of a conversation do together.

ghost use Rattle.std.specs.Prelude.{◌≡◌, ◌↔◌, IsTrue, IfOk};

use crate::name::Role;
use crate::shared_message::SharedMessage;
use sqlite_items::{Boxed, Items};
use std::alloc::{AllocError, Global};

/// A global type (Honda, Yoshida and Carbone, POPL 2008). A variable counts the recursions between it
/// and its own, and a communication has a branch for each message that its sender may choose.
#[derive(Drop)]
pub enum GlobalType {
    End,
    Var(u32),
    Rec(Boxed<GlobalType>),
    Comm {
        from: Role,
        to: Role,
        branches: Items<(SharedMessage, GlobalType)>,
    },
}

impl GlobalType {
    /// Whether the two are the same.
    #[cycle(equal)]
    pub fn equal(a: &GlobalType, b: &GlobalType) -> bool
        ensures { IsTrue result ↔ (a.now ≡ b.now) }
    {
        match (a, b) {
            (GlobalType::End, GlobalType::End) => true,
            (GlobalType::Var(i), GlobalType::Var(j)) => i == j,
            (GlobalType::Rec(g), GlobalType::Rec(h)) => GlobalType::equal(g.get(), h.get()),
            (
                GlobalType::Comm {
                    from: p,
                    to: q,
                    branches: bs,
                },
                GlobalType::Comm {
                    from: r,
                    to: s,
                    branches: cs,
                },
            ) => p.equal(r) && q.equal(s) && branches_equal(bs.as_slice(), cs.as_slice()),
            _ => false,
        }
    }

    /// A copy of the type.
    ///
    /// # Errors
    /// `AllocError` where memory for the copy is refused.
    #[cycle(copy)]
    pub fn copy(alloc: Global, a: &GlobalType) -> Result<GlobalType, AllocError>
        ensures { IfOk result (λ g. g ≡ a.now) }
    {
        match a {
            GlobalType::End => Ok(GlobalType::End),
            GlobalType::Var(i) => Ok(GlobalType::Var(*i)),
            GlobalType::Rec(body) => {
                let body = GlobalType::copy(alloc, body.get())?;
                Ok(GlobalType::Rec(Boxed::new(alloc, body)?))
            }
            GlobalType::Comm { from, to, branches } => {
                let from = from.copy()?;
                let to = to.copy()?;
                let branches = copy_branches(alloc, branches.as_slice())?;
                let branches = Items::from_vec(branches);
                Ok(GlobalType::Comm { from, to, branches })
            }
        }
    }
}

#[cycle(equal)]
fn branches_equal(a: &[(SharedMessage, GlobalType)], b: &[(SharedMessage, GlobalType)]) -> bool
    ensures { IsTrue result ↔ (a.now ≡ b.now) }
{
    if a.len() != b.len() {
        return false;
    }
    for i in 0..a.len() {
        let (m, g) = &a[i];
        let (n, h) = &b[i];
        if !m.equal(n) {
            return false;
        }
        if !GlobalType::equal(g, h) {
            return false;
        }
    }
    true
}

#[cycle(copy)]
fn copy_branches(
    alloc: Global,
    branches: &[(SharedMessage, GlobalType)],
) -> Result<Vec<(SharedMessage, GlobalType)>, AllocError>
    ensures { IfOk result (λ copies. copies.items ≡ branches.now) }
{
    let mut copies = Vec::with_capacity(alloc, branches.len())?;
    for (message, global) in branches {
        let message = message.copy()?;
        let global = GlobalType::copy(alloc, global)?;
        copies.push((message, global))?;
    }
    Ok(copies)
}
