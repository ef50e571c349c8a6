//! The reasons of an offence.

ghost use Rattle.std.specs.Prelude.{◌≡◌};
ghost use Rattle.scrib_why.specs.Names.{names_of, reason_names};

use crate::kind::Kind;

const REASON_KINDS: [Kind; 7] = [
    Kind {
        name: "NotDeclared",
        meaning: "The event names a role that the protocol does not declare.",
        example: "\
put
module m;
global protocol P(role A, role B) { a() from A to B; }
%%
open 1 m.P
join 1 C",
        reader: "scribmon watch --report ends with",
        printed: "offence in conversation 1 at event 1, line 6: join C: NotDeclared; C is not declared",
        cure: "\
Correct the role's name where the event is reported, or open the conversation
under the right protocol.",
    },
    Kind {
        name: "JoinedTwice",
        meaning: "A role joins that has joined before.",
        example: "\
put
module m;
global protocol P(role A, role B) { a() from A to B; }
%%
open 1 m.P
join 1 A
join 1 A",
        reader: "scribmon watch --report ends with",
        printed: "offence in conversation 1 at event 2, line 7: join A: JoinedTwice; A may B!a()",
        cure: "\
Report each join once. A service that starts again keeps its conversations or
opens new ones.",
    },
    Kind {
        name: "NotJoined",
        meaning: "The role acts and has not joined.",
        example: "\
put
module m;
global protocol P(role A, role B) { a() from A to B; }
%%
open 1 m.P
send 1 A B a()",
        reader: "scribmon watch --report ends with",
        printed: "offence in conversation 1 at event 1, line 6: send A B a(): NotJoined; A may join",
        cure: "Report the join of the role first.",
    },
    Kind {
        name: "Done",
        meaning: "The role acts and is at its end.",
        example: "\
put
module m;
global protocol P(role A, role B) { a() from A to B; }
%%
open 1 m.P
join 1 A
send 1 A B a()
send 1 A B a()",
        reader: "scribmon watch --report ends with",
        printed: "offence in conversation 1 at event 3, line 8: send A B a(): Done; A is done",
        cure: "Find out why the service went on. A protocol that repeats needs a rec.",
    },
    Kind {
        name: "NotAllowed",
        meaning: "The role may act, but not like this.",
        example: "\
put
module m;
global protocol P(role A, role B) { a() from A to B; }
%%
open 1 m.P
join 1 A
send 1 A B b()",
        reader: "scribmon watch --report ends with",
        printed: "offence in conversation 1 at event 2, line 7: send A B b(): NotAllowed; A may B!a()",
        cure: "\
Compare the message with what the role may do: its operator, its payload types
and its receiver. The service or the protocol is wrong.",
    },
    Kind {
        name: "NotSent",
        meaning: "The message was received and not sent before.",
        example: "\
put
module m;
global protocol P(role A, role B) { a() from A to B; }
%%
open 1 m.P
join 1 B
recv 1 A B a()",
        reader: "scribmon watch --report ends with",
        printed: "offence in conversation 1 at event 2, line 7: recv A B a(): NotSent; B waits for A?a()",
        cure: "Report the sends too. Where reports overtake each other, use watch --hold.",
    },
    Kind {
        name: "OtherFirst",
        meaning: "An older message from the same sender has not been received.",
        example: "\
put
module m;
global protocol P(role A, role B) {
  choice at A { a() from A to B; } or { b() from A to B; }
}
%%
open 1 m.P
join 1 A
join 1 B
send 1 A B a()
recv 1 A B b()",
        reader: "scribmon watch --report ends with",
        printed: "offence in conversation 1 at event 4, line 11: recv A B b(): OtherFirst; B may A?a()",
        cure: "Receive the messages of one sender in the order in which it sent them.",
    },
];

// Returns these kinds, in the order in which they are listed.
#[tactic(auto, unfolding(crate::specs::Names::reason_names))]
pub(crate) fn reason_kinds() -> &'static [Kind]
    ensures { names_of result.now ≡ reason_names }
{
    &REASON_KINDS
}
