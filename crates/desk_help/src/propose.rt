//! The help of proposed requests.

use crate::Help;

/// The help of `propose`.
pub const PROPOSE: Help = Help {
    about: "Proposes the declared licences of a document as conclusions",
    long_about: "\
Proposes the declared licences of a document as conclusions

Many tools write NOASSERTION as the conclusion of each package, and what they found as
PackageLicenseDeclared. The desk uses only conclusions. For each package that ships, has no
conclusion and has a declared licence that is an expression, a line is printed, in the document's order:
the request conclude, as script reads it.

  {\"do\":\"conclude\",\"document\":N,\"expression\":\"mit OR zlib\",\"package\":\"SPDXRef-a\"}

N is the number that import gave the document. Operators are in capitals and licence ids in small
letters, however the document writes them. Standard error says how many lines there are, and how many
packages were left out because no declared licence is an expression.

With --db, DOC is the number of a document in the desk, which is read by its own profile. Packages that the
office concluded are left out. For each open release to which the document is attached, the only possible
choices for its packages follow, as choices prints them.

Nothing is concluded or chosen until the lines are passed to script. Read them first, and change or delete
those that are wrong. If the document can't be read, the reply of import is printed.",
    after_help: "\
Without --db give --document, and the same --profile as to import. DOC may be in JSON, or /dev/stdin.

Examples:
  desk propose --db desk.db 1 >proposed.jsonl
  desk script --db desk.db <proposed.jsonl
  desk propose --document 1 kettle.spdx

Statuses:
  0  the lines were written, if there are any
  1  it was refused: DOC is not such a document; or FILE keeps no desk of this version
  2  the command line is wrong
  3  no memory, or a file or stream failed",
};
