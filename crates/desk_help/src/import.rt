//! The help of importing a document.

use crate::Help;

/// The help of `import`.
pub const IMPORT: Help = Help {
    about: "Imports an SPDX document into the desk that a file keeps",
    long_about: "\
Imports an SPDX document into the desk that a file keeps

Reads a tag-value document (SPDX 2.1, 2.2 or 2.3) from DOC, or one in JSON (SPDX 2.2 or 2.3, CycloneDX 1.4
to 1.6), which it converts as desk convert does. Imports it as the request import of script does, and
prints the reply, one line of JSON:

  {\"document\":N,\"new\":true}              it was imported as document N
  {\"document\":N,\"new\":false}             the same text was imported before, as document N
  {\"at\":[..],\"name\":\"..\",\"refused\":..}   it was refused, and nothing was changed

Standard error counts what is left out of JSON, or says why a refused file is not a document in JSON, and
what it looks like.",
    after_help: "\
A FILE that does not exist, is empty, or is a database with no tables becomes an empty desk first.
Any other file without a desk of this version is left unchanged, and one line says so:

  fault: NotADesk    it is a database of something else
  fault: BadVersion  it keeps a desk of another version
  fault: Bad..       its tables aren't sound: desk audit --help has the names

One program at a time has FILE open. While it is open, or after it was killed, recent changes are in
FILE-wal: keep and copy both files together. DOC may be /dev/stdin. It is read before FILE is
opened.

Examples:
  desk import --db desk.db kettle.spdx
  desk import --db desk.db --profile 2 jug.spdx
  desk gather src --name src --namespace https://example.org/src --created 2025-01-01T00:00:00Z |
    desk import --db desk.db /dev/stdin

Statuses:
  0  it was imported, now or before
  1  it was refused, or FILE keeps no such desk
  2  the command line is wrong
  3  no memory, or a file or stream failed",
};
