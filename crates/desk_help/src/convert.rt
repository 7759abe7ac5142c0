//! The help of converting documents.

use crate::Help;

/// The help of `convert`.
pub const CONVERT: Help = Help {
    about: "Writes a document in JSON as a tag-value document",
    long_about: "\
Writes a document in JSON as a tag-value document

JSON is a document of SPDX 2.2 or 2.3, or of CycloneDX 1.4 to 1.6, in JSON, as many tools write it. What is
written says the same about the document, its packages, files, extracted licences and relationships, and
names its snippets. Standard error counts what is left out because the desk doesn't read it, such as
annotations.

A document that can't be converted is refused with the place, a JSON pointer (RFC 6901), unless it is not
JSON or has more than 64 MiB:

  fault: Missing at /packages/0/SPDXID    a required member is missing
  fault: BadType at /packages             the value is of another type
  fault: BadValue at /packages/0/name     the value can't be in a tag-value document
  fault: Differs at /packages/1 from /packages/0
                                          it has the identifier of another element, and differs
  fault: NotJson
  fault: TooLarge",
    after_help: "\
import accepts such a document as it is. JSON may be /dev/stdin.

Examples:
  desk convert kettle.spdx.json >kettle.spdx
  desk convert kettle.spdx.json | desk import --db desk.db /dev/stdin

Statuses:
  0  the document was written
  1  it was refused
  2  the command line is wrong
  3  no memory, or a file or stream failed",
};
