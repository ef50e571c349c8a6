//! The kinds of a module with a choice that breaks a rule.

ghost use Rattle.std.specs.Prelude.{◌≡◌};
ghost use Rattle.scrib_why.specs.Names.{names_of, choice_names};

use crate::kind::Kind;

const CHOICE_KINDS: [Kind; 7] = [
    Kind {
        name: "EmptyBranch",
        meaning: "A branch of a choice has no message, nor has what follows the choice.",
        example: "\
module m;
global protocol P(role A, role B) {
  choice at A {
    a() from A to B;
  } or {
  }
}",
        reader: "scribmon check prints",
        printed: "refused EmptyBranch m 5:8",
        cure: "Give the branch a message of the role that chooses, as none() from A to B;",
    },
    Kind {
        name: "ContinueHead",
        meaning: "A branch of a choice begins with continue.",
        example: "\
module m;
global protocol P(role A, role B) {
  rec X {
    choice at A {
      a() from A to B;
    } or {
      continue X;
    }
  }
}",
        reader: "scribmon check prints",
        printed: "refused ContinueHead m 6:10",
        cure: "Put a message of the role that chooses in front of the continue.",
    },
    Kind {
        name: "RecHead",
        meaning: "A branch of a choice begins with a loop.",
        example: "\
module m;
global protocol P(role A, role B) {
  choice at A {
    a() from A to B;
  } or {
    rec X { b() from A to B; continue X; }
  }
}",
        reader: "scribmon check prints",
        printed: "refused RecHead m 5:8",
        cure: "Put a message of the role that chooses in front of the loop.",
    },
    Kind {
        name: "NotChooser",
        meaning: "\
A branch of a choice begins with a message of another role than the one that
chooses.",
        example: "\
module m;
global protocol P(role A, role B) {
  choice at A {
    a() from A to B;
  } or {
    b() from B to A;
  }
}",
        reader: "scribmon check prints",
        printed: "refused NotChooser m 5:8",
        cure: "\
Begin each branch with a message of the role behind choice at, or name another
role there.",
    },
    Kind {
        name: "TwoReceivers",
        meaning: "\
Two branches of a choice begin with messages to different roles. The place is
that of the later branch.",
        example: "\
module m;
global protocol P(role A, role B, role C) {
  choice at A {
    a() from A to B;
  } or {
    b() from A to C;
  }
}",
        reader: "scribmon check prints",
        printed: "refused TwoReceivers m 5:8",
        cure: "Send the first message of each branch to the same role. The others follow it.",
    },
    Kind {
        name: "SameOperator",
        meaning: "\
Two branches of a choice begin with messages of one operator. Another payload
does not make them different.",
        example: "\
module m;
global protocol P(role A, role B) {
  choice at A {
    a(Int) from A to B;
  } or {
    a(Str) from A to B;
  }
}",
        reader: "scribmon check prints",
        printed: "refused SameOperator m 5:8",
        cure: "Give the first message of each branch an operator of its own.",
    },
    Kind {
        name: "Unmergeable",
        meaning: "\
A role outside the first messages of a choice does different things in its
branches, and these do not merge. The line has the role and the choice.",
        example: "\
module m;
global protocol P(role A, role B, role C) {
  choice at A {
    a() from A to B;
    x() from A to C;
  } or {
    b() from A to B;
    y() from A to C;
  }
}",
        reader: "scribmon check prints",
        printed: "refused Unmergeable C m 3:3",
        cure: "\
Let the role do the same in each branch. Or begin its part in each branch with a
message to it, from one sender and with an operator of its own. Then use check
--reception, or the line profile reception.",
    },
];

// Returns these kinds, in the order in which they are listed.
#[tactic(auto, unfolding(crate::specs::Names::choice_names))]
pub(crate) fn choice_kinds() -> &'static [Kind]
    ensures { names_of result.now ≡ choice_names }
{
    &CHOICE_KINDS
}
