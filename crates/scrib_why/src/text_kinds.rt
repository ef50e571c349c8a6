//! The kinds of a text that is no module.

ghost use Rattle.std.specs.Prelude.{◌≡◌};
ghost use Rattle.scrib_why.specs.Names.{names_of, text_names};

use crate::kind::Kind;

const TEXT_KINDS: [Kind; 9] = [
    Kind {
        name: "BadByte",
        meaning: "\
A byte that begins no name, mark, string or comment, or a string that is not
UTF-8. Outside comments and strings a text is ASCII.",
        example: "\
module m;
global protocol P(role A, role B) {
  sign-in() from A to B;
}",
        reader: "scribmon check prints",
        printed: "refused BadByte 3:7",
        cure: "\
Write names in ASCII letters, digits and underscores, and begin them with no
digit: sign_in, _250. Save the file without a byte order mark.",
    },
    Kind {
        name: "OpenComment",
        meaning: "A comment begins with /* and does not end.",
        example: "\
module m;
/* A asks, and B answers.
global protocol P(role A, role B) {
  a() from A to B;
}",
        reader: "scribmon check prints",
        printed: "refused OpenComment 2:1",
        cure: "Close it with */. A comment that ends with its line begins with //.",
    },
    Kind {
        name: "OpenString",
        meaning: "A string begins with a double quote and does not end on its line.",
        example: "\
module m;
type <xsd> \"xs:decimal from types.xsd as Amount;",
        reader: "scribmon check prints",
        printed: "refused OpenString 2:12",
        cure: "Close it on its line. A string cannot contain a double quote.",
    },
    Kind {
        name: "LongName",
        meaning: "A name has more than 128 bytes.",
        example: "printf 'module m%0128d;' 0 | scribmon check -",
        reader: "these commands print",
        printed: "refused LongName 1:8",
        cure: "Shorten it.",
    },
    Kind {
        name: "TextTooLong",
        meaning: "A module text has more than 1,048,576 bytes.",
        example: "printf 'module m;%1048568s' '' | scribmon check -",
        reader: "these commands print",
        printed: "refused TextTooLong",
        cure: "Split the module, and let one part import the other.",
    },
    Kind {
        name: "EndOfText",
        meaning: "\
The text ends before the module does. A script gets it also where it ends
inside the text of a put.",
        example: "\
module m;
global protocol P(role A, role B) {
  a() from A to B;",
        reader: "scribmon check prints",
        printed: "refused EndOfText",
        cure: "\
Add what is missing at the end, mostly a } or a ;. In a script, put a line %%
behind the text.",
    },
    Kind {
        name: "Unexpected",
        meaning: "\
A word or a mark that no module can have at this place, behind what is in front
of it.",
        example: "\
module m;
global protocol P(role A, role B) {
  a() from A to B
  b() from B to A;
}",
        reader: "scribmon check prints",
        printed: "refused Unexpected 4:3",
        cure: "\
Look in front of the place first: often a ; is missing there. A module begins
with module NAME; and a message is name(Type) from A to B;",
    },
    Kind {
        name: "LeftOut",
        meaning: "\
A form of Scribble that scribmon does not have. The line has its word: local,
sig, aux, explicit, from, par, interruptible, connect or disconnect.",
        example: "\
module m;
global protocol P(role A, role B) {
  par { a() from A to B; } and { b() from B to A; }
}",
        reader: "scribmon check prints",
        printed: "refused LeftOut par 3:3",
        cure: "\
Write the protocol without it. Put the messages of a par one behind another, and
leave the words aux and explicit out.",
    },
    Kind {
        name: "TooDeep",
        meaning: "Blocks are nested more than 64 deep. The block of the protocol is the first.",
        example: "\
(echo 'module m; global protocol P(role A, role B) {'
printf 'rec X {%.0s' $(seq 64)) | scribmon check -",
        reader: "these commands print",
        printed: "refused TooDeep 2:448",
        cure: "Put inner blocks into a protocol of their own, and call it with do.",
    },
];

// Returns these kinds, in the order in which they are listed.
#[tactic(auto, unfolding(crate::specs::Names::text_names))]
pub(crate) fn text_kinds() -> &'static [Kind]
    ensures { names_of result.now ≡ text_names }
{
    &TEXT_KINDS
}
