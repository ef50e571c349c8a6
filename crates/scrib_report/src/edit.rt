//! The text of edits and of their changes.

ghost use Rattle.std.specs.Prelude.{◌≡◌, ◌++◌, OnOk};
ghost use Rattle.scrib_report.specs.Lines as lines;

use scrib_core::reply::Edit;
use scrib_library::changes::{Change, ChangeKind};
use scrib_types::text::{push_bytes, push_dotted};
use std::alloc::AllocError;

// The edit's word: `put` or `withdraw`.
pub(crate) fn edit_word(edit: Edit) -> &'static str
    ensures { result.now ≡ lines.edit_word edit }
{
    match edit {
        Edit::Put => "put",
        Edit::Withdraw => "withdraw",
    }
}

fn sign(kind: ChangeKind) -> &'static str
    ensures { result.now ≡ lines.sign_of kind }
{
    match kind {
        ChangeKind::Added => "+",
        ChangeKind::Withdrawn => "-",
        ChangeKind::Replaced => "~",
    }
}

// Appends the change, as `+demo.A`.
pub(crate) fn push_change(out: &mut Vec<u8>, change: &Change) -> Result<(), AllocError>
    ensures { OnOk result (out.new.items ≡ out.old.items ++ lines.change_text change.now) }
{
    push_bytes(out, sign(change.kind).as_bytes())?;
    push_dotted(out, &change.name)
}
