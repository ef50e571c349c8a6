//! The kinds of an edit that the library refuses.

ghost use Rattle.std.specs.Prelude.{◌≡◌};
ghost use Rattle.scrib_why.specs.Names.{names_of, library_names};

use crate::kind::Kind;

const LIBRARY_KINDS: [Kind; 7] = [
    Kind {
        name: "ImportMissing",
        meaning: "The module imports another one that is not in the library.",
        example: "\
module m;
import lib;",
        reader: "scribmon check prints",
        printed: "refused ImportMissing lib",
        cure: "Put that module first: name its file in front of this one.",
    },
    Kind {
        name: "TooManyModules",
        meaning: "The library would have more than 256 modules.",
        example: "\
for i in $(seq 257); do echo \"module m$i;\" > m$i.scr; done
scribmon check m*.scr | tail -n 1",
        reader: "these commands print",
        printed: "refused TooManyModules",
        cure: "Withdraw a module, or join modules.",
    },
    Kind {
        name: "TooManyProtocols",
        meaning: "The library would have more than 1,024 protocols.",
        example: "\
(echo 'module m;'
printf 'global protocol P%d(role A) { }\\n' $(seq 1025)) | scribmon check -",
        reader: "these commands print",
        printed: "refused TooManyProtocols",
        cure: "Withdraw modules whose protocols are not used.",
    },
    Kind {
        name: "VersionsFull",
        meaning: "More than 65,536 protocols were added or replaced since the library was new.",
        example: "\
for i in $(seq 65537); do
  echo \"put
module m; global protocol P(role A, role B) { a$i() from A to B; }
%%\"
done | scribmon watch | tail -n 1",
        reader: "these commands print",
        printed: "refused VersionsFull",
        cure: "Start the program again.",
    },
    Kind {
        name: "UnknownModule",
        meaning: "A withdrawal names a module that the library does not have.",
        example: "withdraw m",
        reader: "scribmon watch ends with",
        printed: "refused UnknownModule",
        cure: "Correct the name. Small and capital letters differ.",
    },
    Kind {
        name: "StillImported",
        meaning: "Another module imports the one that is withdrawn. The line has its name.",
        example: "\
put
module lib;
%%
put
module m;
import lib;
%%
withdraw lib",
        reader: "scribmon watch ends with",
        printed: "refused StillImported m",
        cure: "Withdraw that module first, or put it without the import.",
    },
    Kind {
        name: "NeedsReception",
        meaning: "\
The library has a protocol that the plain profile does not accept. The line has
its name.",
        example: "\
profile reception
put
module m;
global protocol P(role A, role B, role C) {
  choice at A { a() from A to B; x() from A to C; }
  or { b() from A to B; y() from A to C; }
}
%%
profile plain",
        reader: "scribmon watch ends with",
        printed: "refused NeedsReception m.P",
        cure: "Withdraw its module first, or keep the profile.",
    },
];

// Returns these kinds, in the order in which they are listed.
#[tactic(auto, unfolding(crate::specs::Names::library_names))]
pub(crate) fn library_kinds() -> &'static [Kind]
    ensures { names_of result.now ≡ library_names }
{
    &LIBRARY_KINDS
}
