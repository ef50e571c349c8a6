//! The kinds of a module with a protocol that breaks a rule, but for those of choices.

ghost use Rattle.std.specs.Prelude.{◌≡◌};
ghost use Rattle.scrib_why.specs.Names.{names_of, protocol_names};

use crate::kind::Kind;

const PROTOCOL_KINDS: [Kind; 13] = [
    Kind {
        name: "NoModule",
        meaning: "\
A call names a module that the text does not import. From project and machine it
means also that no file has the module.",
        example: "\
module m;
global protocol P(role A, role B) {
  do lib.Q(A, B);
}",
        reader: "scribmon check prints",
        printed: "refused NoModule m 3:3",
        cure: "\
Import the module, and call its protocol by the name behind as if there is one.
For project and machine, name its file too.",
    },
    Kind {
        name: "NoProtocol",
        meaning: "\
A call names a protocol that its module does not have. From project and machine
it means also the protocol of the command line.",
        example: "\
module m;
global protocol P(role A, role B) {
  do Q(A, B);
}",
        reader: "scribmon check prints",
        printed: "refused NoProtocol m 3:3",
        cure: "\
Correct the name, or declare the protocol. On the command line give its full
name, as orders.Order. Small and capital letters differ.",
    },
    Kind {
        name: "TwiceDeclared",
        meaning: "\
Two protocols of a module, two roles of a protocol, or two imports of a module
have one name. The place is that of the second.",
        example: "\
module m;
global protocol P(role A, role B) {
  a() from A to B;
}
global protocol P(role A, role B) {
  b() from A to B;
}",
        reader: "scribmon check prints",
        printed: "refused TwiceDeclared m 5:1",
        cure: "Rename one of them. An import gets another name by as.",
    },
    Kind {
        name: "NoRole",
        meaning: "\
A statement names a role that its protocol does not declare. From project and
machine it means also the role of the command line.",
        example: "\
module m;
global protocol P(role A, role Bob) {
  a() from A to Bbo;
}",
        reader: "scribmon check prints",
        printed: "refused NoRole m 3:3",
        cure: "Correct the name, or declare the role. Small and capital letters differ.",
    },
    Kind {
        name: "RepeatedRole",
        meaning: "A call gives one role twice.",
        example: "\
module m;
global protocol P(role A, role B) {
  do Q(A, A);
}
global protocol Q(role C, role D) {
  a() from C to D;
}",
        reader: "scribmon check prints",
        printed: "refused RepeatedRole m 3:3",
        cure: "Give different roles.",
    },
    Kind {
        name: "WrongCount",
        meaning: "A call gives more or fewer roles than the called protocol declares.",
        example: "\
module m;
global protocol P(role A, role B) {
  do Q(A);
}
global protocol Q(role C, role D) {
  a() from C to D;
}",
        reader: "scribmon check prints",
        printed: "refused WrongCount m 3:3",
        cure: "Give one role for each, in their order.",
    },
    Kind {
        name: "SelfMessage",
        meaning: "A message goes from a role to itself.",
        example: "\
module m;
global protocol P(role A, role B) {
  a() from A to B, A;
}",
        reader: "scribmon check prints",
        printed: "refused SelfMessage m 3:3",
        cure: "Remove the sender from the receivers.",
    },
    Kind {
        name: "DoCycle",
        meaning: "A call leads back to a protocol in which it is made.",
        example: "\
module m;
global protocol P(role A, role B) {
  a() from A to B;
  do P(A, B);
}",
        reader: "scribmon check prints",
        printed: "refused DoCycle m 4:3",
        cure: "Write the loop with rec and continue: rec X { a() from A to B; continue X; }",
    },
    Kind {
        name: "NoRec",
        meaning: "A continue is not inside a rec of its name in the same protocol.",
        example: "\
module m;
global protocol P(role A, role B) {
  a() from A to B;
  continue X;
}",
        reader: "scribmon check prints",
        printed: "refused NoRec m 4:3",
        cure: "Put rec X { .. } round what repeats, or correct the name.",
    },
    Kind {
        name: "Unguarded",
        meaning: "A loop can go round without a message.",
        example: "\
module m;
global protocol P(role A, role B) {
  rec X { continue X; }
}",
        reader: "scribmon check prints",
        printed: "refused Unguarded m 3:3",
        cure: "Begin the loop with a message.",
    },
    Kind {
        name: "Unreachable",
        meaning: "No path leads to the statement: what is in front of it always continues a loop.",
        example: "\
module m;
global protocol P(role A, role B) {
  rec X {
    a() from A to B;
    continue X;
    b() from B to A;
  }
}",
        reader: "scribmon check prints",
        printed: "refused Unreachable m 6:5",
        cure: "Put it in front of the continue, or give the loop a branch without continue.",
    },
    Kind {
        name: "TooManyRoles",
        meaning: "A protocol declares more than 64 roles. The place is that of the 65th.",
        example: "\
(echo 'module m; global protocol P(role A'
printf ', role R%d' $(seq 64); echo ') { }') | scribmon check -",
        reader: "these commands print",
        printed: "refused TooManyRoles m 2:624",
        cure: "Split the protocol.",
    },
    Kind {
        name: "TooLarge",
        meaning: "\
A protocol whose calls are put in place has more than 65,536 messages, choices
and loops, or more than 4,096 on a path. What follows a choice counts in each
branch.",
        example: "\
(echo 'module m; global protocol P(role A, role B) {'
printf 'a() from A to B; %.0s' $(seq 4096); echo '}') | scribmon check -",
        reader: "these commands print",
        printed: "refused TooLarge m 1:11",
        cure: "Split the protocol, or put fewer choices one behind another.",
    },
];

// Returns these kinds, in the order in which they are listed.
#[tactic(auto, unfolding(crate::specs::Names::protocol_names))]
pub(crate) fn protocol_kinds() -> &'static [Kind]
    ensures { names_of result.now ≡ protocol_names }
{
    &PROTOCOL_KINDS
}
