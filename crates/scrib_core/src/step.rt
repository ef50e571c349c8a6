//! The steps that a monitor makes.

use scrib_types::containers::Items;
use scrib_types::name::Dotted;
use scrib_types::profile::Profile;
use scrib_types::shared_event::SharedEvent;

/// One step.
#[derive(Drop)]
pub enum Step {
    /// Put the module of this text into the library.
    Put { text: Items<u8> },
    /// Withdraw the module of this name from the library.
    Withdraw { name: Dotted },
    /// Accept protocols under this profile from now on.
    Profile { profile: Profile },
    /// Open a conversation of a protocol, by its full name.
    Open { id: u32, name: Dotted },
    /// Append an event to the log of a conversation.
    Note { id: u32, event: SharedEvent },
    /// Judge up to 256 further events of a conversation with a stale verdict.
    Turn { id: u32 },
    /// Ask for the verdict on a conversation.
    Ask { id: u32 },
    /// Close a conversation: judge what is left of its log, and take it out.
    Close { id: u32 },
}
