//! The calls of the rows, each with its answer.

/// A step of a core: a line of a script, or `put` and a module text; and the line of its reply, or how that ends where
/// it begins with a space.
pub(crate) type Call = (&'static str, &'static str);

// The put of a module with a protocol of two messages.
const PUT_DEMO: &str =
    "put module demo; global protocol Hello(role A, role B) { hello() from A to B; bye() from B to A; }";

const PUT_DEMO_INT: &str =
    "put module demo; global protocol Hello(role A, role B) { hello(Int) from A to B; bye() from B to A; }";

/// The put of a module with a protocol of one message, over and over.
pub(crate) const PUT_LOOP: &str =
    "put module k; global protocol K(role A, role B) { rec X { a() from A to B; continue X; } }";

/// The put of the same with a choice of two messages.
pub(crate) const PUT_CHOICE: &str =
    "put module k; global protocol K(role A, role B) { rec X { choice at A { a() from A to B; continue X; } or { b() from A to B; continue X; } } }";

/// A conversation of the protocol of two messages.
pub(crate) const DEMO_OPENED: &[Call] = &[
    (PUT_DEMO, "put demo: +demo.Hello"),
    ("open 1 demo.Hello", "open 1: demo.Hello"),
];

/// A conversation of a protocol of three roles, of which one does nothing.
pub(crate) const TWO_OF_THREE: &[Call] = &[
    (
        "put module v; global protocol V(role A, role B, role C) { rec X { a() from A to B; continue X; } }",
        "put v: +v.V",
    ),
    ("open 1 v.V", "open 1: v.V"),
];

/// A whole conversation.
pub(crate) const CONVERSATION: &[Call] = &[
    (PUT_DEMO, "put demo: +demo.Hello"),
    ("open 1 demo.Hello", "open 1: demo.Hello"),
    ("join 1 A", "1.1 permitted"),
    ("join 1 B", "1.2 permitted"),
    ("send 1 A B hello()", "1.3 permitted"),
    ("recv 1 A B hello()", "1.4 permitted"),
    ("send 1 B A bye()", "1.5 permitted"),
    ("recv 1 B A bye()", "1.6 permitted"),
];

/// A protocol that changes where the one that it calls does.
pub(crate) const CALLED_PROTOCOL: &[Call] = &[
    (
        "put module lib; global protocol P(role A, role B) { a() from A to B; }",
        "put lib: +lib.P",
    ),
    (
        "put module use; import lib; global protocol Q(role A, role B) { do lib.P(A, B); }",
        "put use: +use.Q",
    ),
    (PUT_DEMO, "put demo: +demo.Hello"),
    ("open 1 use.Q", "open 1: use.Q"),
    ("open 2 demo.Hello", "open 2: demo.Hello"),
    (
        "put module lib; global protocol P(role A, role B) { a(Int) from A to B; }",
        "put lib: ~lib.P ~use.Q",
    ),
    ("ask 1", "1 stale"),
    ("ask 2", "2 permitted"),
    ("turn 1", "1 permitted"),
];

/// A protocol that changes and changes back.
pub(crate) const CHANGED_BACK: &[Call] = &[
    (PUT_DEMO, "put demo: +demo.Hello"),
    ("open 1 demo.Hello", "open 1: demo.Hello"),
    (PUT_DEMO_INT, "put demo: ~demo.Hello"),
    (PUT_DEMO, "put demo: ~demo.Hello"),
    ("ask 1", "1 stale"),
    ("turn 1", "1 permitted"),
    ("ask 1", "1 permitted"),
];

/// A protocol that is withdrawn and put again.
pub(crate) const WITHDRAWN: &[Call] = &[
    (PUT_DEMO, "put demo: +demo.Hello"),
    ("open 1 demo.Hello", "open 1: demo.Hello"),
    ("join 1 A", "1.1 permitted"),
    ("join 1 B", "1.2 permitted"),
    ("send 1 A B hello()", "1.3 permitted"),
    ("recv 1 A B hello()", "1.4 permitted"),
    ("send 1 B A bye()", "1.5 permitted"),
    ("recv 1 B A bye()", "1.6 permitted"),
    ("withdraw demo", "withdraw demo: -demo.Hello"),
    ("ask 1", "1 stale"),
    ("turn 1", "1 withdrawn"),
    (PUT_DEMO, "put demo: +demo.Hello"),
    ("ask 1", "1 stale"),
    ("turn 1", "1 permitted"),
];

/// Conversations that are closed: a complete one, one whose protocol changed, and one whose protocol was withdrawn.
pub(crate) const CLOSED: &[Call] = &[
    (PUT_DEMO, "put demo: +demo.Hello"),
    ("open 1 demo.Hello", "open 1: demo.Hello"),
    ("open 2 demo.Hello", "open 2: demo.Hello"),
    ("join 1 A", "1.1 permitted"),
    ("join 1 B", "1.2 permitted"),
    ("send 1 A B hello()", "1.3 permitted"),
    ("recv 1 A B hello()", "1.4 permitted"),
    ("send 1 B A bye()", "1.5 permitted"),
    ("recv 1 B A bye()", "1.6 permitted"),
    ("join 2 A", "2.1 permitted"),
    ("send 2 A B hello()", "2.2 permitted"),
    ("close 1", "close 1: complete"),
    ("ask 1", "refused NoConversation"),
    ("close 1", "refused NoConversation"),
    ("open 1 demo.Hello", "open 1: demo.Hello"),
    ("ask 2", "2 permitted"),
    (PUT_DEMO_INT, "put demo: ~demo.Hello"),
    (
        "close 2",
        "close 2: offence at 2 by A, allowed: B!hello(Int)",
    ),
    ("withdraw demo", "withdraw demo: -demo.Hello"),
    ("close 1", "close 1: withdrawn"),
];

/// A choice that its third role doesn't project.
pub(crate) const UNMERGEABLE: &[Call] = &[(
    "put module m; global protocol P(role A, role B, role C) {\nchoice at A { ok() from A to B; ok() from A to C; } or { quit() from A to B; quit() from A to C; } }",
    "refused Unmergeable C m 2:1",
)];

/// A conversation whose roles joined.
pub(crate) const JOINED: &[Call] = &[
    (PUT_LOOP, "put k: +k.K"),
    ("open 1 k.K", "open 1: k.K"),
    ("join 1 A", "1.1 permitted"),
    ("join 1 B", "1.2 permitted"),
];

/// What one of them does over and over.
pub(crate) const SENT: Call = ("send 1 A B a()", " permitted");

/// The protocol changes then, and the events are judged anew in three turns.
pub(crate) const JUDGED: &[Call] = &[
    (PUT_CHOICE, "put k: ~k.K"),
    ("turn 1", "1 stale"),
    ("turn 1", "1 stale"),
    ("turn 1", "1 permitted"),
];

/// An event that isn't allowed, and its line in JSON.
pub(crate) const OFFENCE_IN_JSON: &[Call] = &[
    (PUT_DEMO, "put demo: +demo.Hello"),
    ("open 1 demo.Hello", "open 1: demo.Hello"),
    ("join 1 A", "1.1 permitted"),
    ("join 1 B", "1.2 permitted"),
    (
        "json ask 1",
        "{\"conversation\":1,\"events\":2,\"protocol\":\"demo.Hello\",\"verdict\":\"permitted\"}",
    ),
    (
        "send 1 A B bye()",
        "1.3 offence at 3 by A, allowed: B!hello()",
    ),
    (
        "json ask 1",
        "{\"allowed\":[\"B!hello()\"],\"at\":3,\"by\":\"A\",\"conversation\":1,\"events\":3,\"protocol\":\"demo.Hello\",\"verdict\":\"offence\"}",
    ),
    (
        "json close 1",
        "{\"allowed\":[\"B!hello()\"],\"at\":3,\"by\":\"A\",\"closed\":\"demo.Hello\",\"complete\":false,\"conversation\":1,\"events\":3,\"verdict\":\"offence\"}",
    ),
];

/// Two messages in flight, and the first event that isn't allowed.
pub(crate) const IN_FLIGHT: &[Call] = &[
    (
        "put module h; global protocol H(role A, role B, role C) { choice at A { l() from A to B; z() from C to B; } or { r() from A to B; z() from C to B; } }",
        "put h: +h.H",
    ),
    ("open 1 h.H", "open 1: h.H"),
    ("join 1 C", "1.1 permitted"),
    ("send 1 C B z()", "1.2 permitted"),
    ("join 1 A", "1.3 permitted"),
    ("send 1 A B r()", "1.4 permitted"),
    ("join 1 B", "1.5 permitted"),
];

/// What is in flight then.
pub(crate) const FLIGHTS: &str = "A B r()\nC B z()\n";
