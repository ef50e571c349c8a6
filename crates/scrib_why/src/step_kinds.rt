//! The kinds of a line of a script, or of a command, that is refused.

ghost use Rattle.std.specs.Prelude.{◌≡◌};
ghost use Rattle.scrib_why.specs.Names.{names_of, step_names};

use crate::kind::Kind;

const STEP_KINDS: [Kind; 9] = [
    Kind {
        name: "BadLine",
        meaning: "A line of a script has none of the known forms. The line has its number.",
        example: "send 1 A B hello",
        reader: "scribmon watch ends with",
        printed: "refused BadLine 1",
        cure: "\
Correct what writes the script. A message has parentheses, as hello(), and no
blanks. scribmon watch --help has the forms.",
    },
    Kind {
        name: "AlreadyOpen",
        meaning: "An open conversation has this number or name.",
        example: "\
put
module m;
global protocol P(role A, role B) { a() from A to B; }
%%
open 1 m.P
open 1 m.P",
        reader: "scribmon watch ends with",
        printed: "refused AlreadyOpen",
        cure: "Use another one, or close the conversation first.",
    },
    Kind {
        name: "UnknownProtocol",
        meaning: "The library has no protocol of this name.",
        example: "open 1 m.P",
        reader: "scribmon watch ends with",
        printed: "refused UnknownProtocol",
        cure: "Put the protocol's module first, and give the full name, as m.P.",
    },
    Kind {
        name: "TooManyConversations",
        meaning: "65,536 conversations are open. In scribmon run the shards share this number.",
        example: "\
(echo 'put
module m; global protocol P(role A, role B) { a() from A to B; }
%%'; printf 'open %d m.P\\n' $(seq 65537)) | scribmon watch | tail -n 1",
        reader: "these commands print",
        printed: "refused TooManyConversations",
        cure: "Close conversations that have ended, or let watch --close-complete do it.",
    },
    Kind {
        name: "NoConversation",
        meaning: "No open conversation has this number or name.",
        example: "ask 1",
        reader: "scribmon watch ends with",
        printed: "refused NoConversation",
        cure: "Open it first. A conversation that was closed takes no more events.",
    },
    Kind {
        name: "LogFull",
        meaning: "The log of the conversation has 1,048,576 events.",
        example: "\
(echo 'put
module m;
global protocol P(role A, role B) { rec X { a() from A to B; continue X; } }
%%
open 1 m.P
join 1 A'; yes 'send 1 A B a()' | head -n 1048576) | scribmon watch | tail -n 1",
        reader: "these commands print",
        printed: "refused LogFull",
        cure: "Close the conversation, and open a new one.",
    },
    Kind {
        name: "NotPermitted",
        meaning: "\
The log of the conversation has an offence, so scribmon explain and next cannot
describe what follows it. The line has the place of the offence.",
        example: "\
put
module m;
global protocol P(role A, role B) { a() from A to B; }
%%
open 1 m.P
join 1 C",
        reader: "scribmon next 1 prints",
        printed: "refused NotPermitted 1",
        cure: "Ask scribmon show for the state before the offence.",
    },
    Kind {
        name: "OutOfMemory",
        meaning: "The system refused memory. Nothing has changed.",
        example: "any script or module, where a limit as ulimit -v is too low",
        reader: "any command prints",
        printed: "refused OutOfMemory",
        cure: "Give the program more memory, and send the line again.",
    },
    Kind {
        name: "Mismatch",
        meaning: "\
The log of the service lacks an event that a connection has sent. The line has
the conversation and the place.",
        example: "none: this is a defect of scribmon, and a check that it makes of itself",
        reader: "scribmon run prints",
        printed: "refused Mismatch 1 3",
        cure: "Report it as a defect of scribmon.",
    },
];

// Returns these kinds, in the order in which they are listed.
#[tactic(auto, unfolding(crate::specs::Names::step_names))]
pub(crate) fn step_kinds() -> &'static [Kind]
    ensures { names_of result.now ≡ step_names }
{
    &STEP_KINDS
}
