//! Examples of a service that are lists of acts.

use crate::service::crew::{Editing, Plan};
use crate::service::stage::{Act, Ending};
use crate::service::sweeping::Sweep;
use scrib_record::record::MAX_EVENTS;

const PUT_DEMO: &str =
    "put\nmodule demo; global protocol Hello(role A, role B) { hello() from A to B; bye() from B to A; }\n%%\n";

// The same, and two conversations.
const DEMO_OPENED: &str =
    "put\nmodule demo; global protocol Hello(role A, role B) { hello() from A to B; bye() from B to A; }\n%%\nopen 0 demo.Hello\nopen 1 demo.Hello\n";

/// The put of a module with a protocol of one message, over and over.
pub(crate) const PUT_LOOP: &str =
    "put\nmodule k; global protocol K(role A, role B) { rec X { a() from A to B; continue X; } }\n%%\n";

const PUT_CHOICE: &str =
    "put\nmodule k; global protocol K(role A, role B) { rec X { choice at A { a() from A to B; continue X; } or { b() from A to B; continue X; } } }\n%%\n";

// A protocol of two pairs of roles, and a conversation.
const PAIRS_OPENED: &str =
    "put\nmodule demo; global protocol Pairs(role A, role B, role C, role D) { rec X { a() from A to B; c() from C to D; continue X; } }\n%%\nopen 0 demo.Pairs\n";

// Two modules and three conversations, of which 0 and 1 have a protocol of the module that is edited then, and 2 one of
// the other.
const EDITED: &str =
    "put\nmodule k; global protocol K(role A, role B) { rec X { a() from A to B; continue X; } }\n%%\nput\nmodule demo; global protocol Hello(role A, role B) { hello() from A to B; bye() from B to A; }\n%%\nopen 0 k.K\nopen 1 k.K\nopen 2 demo.Hello\nput\nmodule k; global protocol K(role A, role B) { rec X { choice at A { a() from A to B; continue X; } or { b() from A to B; continue X; } } }\n%%\n";

// Up to 1,024 further events of the conversations 0 and 1 are judged.
const TURNS: &str = "turn 0\nturn 1\nturn 0\nturn 1\nturn 0\nturn 1\nturn 0\nturn 1\n";

/// Two threads note while a third one edits.
pub(crate) const BESIDE_EDITS: Plan = Plan::Note {
    threads: 2,
    notes: 2_000,
    editing: Editing::TheirModule,
};

/// The examples whose number is that of the shards: the word, what is done, and what is done at last.
pub(crate) const EXAMPLES: &[(&str, &[Act<'static>], Ending)] = &[
    (
        "full",
        &[Act::Make(PUT_DEMO), Act::Fill("open 0 demo.Hello")],
        Ending::Nothing,
    ),
    // Passes of one service are shown to another, where their conversations aren't open. Then one is, and an event is
    // noted by a pass of the other service's own.
    (
        "strangers",
        &[
            Act::Make(DEMO_OPENED),
            Act::Make("join 0 A\nask 1\n"),
            Act::Replace,
            Act::Make(PUT_DEMO),
            Act::Answer("join 0 B\nask 0\njoin 1 B\nask 1\n"),
            Act::Reconnect,
            Act::Make("open 0 demo.Hello\njoin 0 B\n"),
        ],
        Ending::SettleTwice,
    ),
    // The log is filled; then it is judged anew after an edit that permits it too.
    (
        "longest-log",
        &[
            Act::Make(PUT_LOOP),
            Act::Make("open 0 k.K\njoin 0 A\n"),
            Act::Repeat("send 0 A B a()", MAX_EVENTS - 2),
            Act::Answer("send 0 A B a()\nsend 0 A B a()\n"),
            Act::Make(PUT_CHOICE),
            Act::Sweep(Sweep::Workers(1)),
            Act::Swept,
        ],
        Ending::Nothing,
    ),
    (
        "example",
        &[Act::Make(PAIRS_OPENED), Act::Run(Plan::Report)],
        Ending::Settle,
    ),
    (
        "meeting",
        &[Act::Make(DEMO_OPENED), Act::Run(Plan::Meet)],
        Ending::Settle,
    ),
    (
        "threads",
        &[
            Act::Make(PUT_LOOP),
            Act::Run(BESIDE_EDITS),
            Act::Make(TURNS),
        ],
        Ending::SettleTwice,
    ),
    (
        "swept",
        &[
            Act::Make(EDITED),
            Act::Touched,
            Act::Sweep(Sweep::Workers(0)),
            Act::Swept,
            Act::Touched,
            Act::Sweep(Sweep::Workers(0)),
            Act::Swept,
        ],
        Ending::Nothing,
    ),
    (
        "one-worker",
        &[
            Act::Make(EDITED),
            Act::Touched,
            Act::Sweep(Sweep::Workers(1)),
            Act::Swept,
            Act::Touched,
            Act::Sweep(Sweep::Workers(1)),
            Act::Swept,
        ],
        Ending::Nothing,
    ),
    (
        "two-workers",
        &[Act::Make(EDITED), Act::Sweep(Sweep::Meeting)],
        Ending::Nothing,
    ),
    // A pass without receipts outlives its conversation, and the id is opened again. The last close lacks the pass of
    // an event.
    (
        "reopened",
        &[
            Act::Make(DEMO_OPENED),
            Act::Make("ask 0\n"),
            Act::Close(0),
            Act::Answer("join 0 A\nask 0\n"),
            Act::Make("open 0 demo.Hello\n"),
            Act::Answer("join 0 A\nask 0\n"),
            Act::Reconnect,
            Act::Answer("join 0 A\nask 0\n"),
            Act::Close(0),
        ],
        Ending::Settle,
    ),
    // Closes by one thread, and sweeps by another.
    (
        "closed-and-swept",
        &[Act::Make(PUT_LOOP), Act::Run(Plan::Close)],
        Ending::Settle,
    ),
    (
        "notices",
        &[Act::Make(EDITED), Act::Sweep(Sweep::Notices), Act::Swept],
        Ending::Nothing,
    ),
];
