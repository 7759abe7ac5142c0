//! The help of serving over HTTP.

use crate::Help;

/// The help of `serve`.
pub const SERVE: Help = Help {
    about: "Serves the desk in a file over HTTP, to this machine only",
    long_about: "\
Serves the desk in a file over HTTP, to this machine only

Listens on port PORT of 127.0.0.1, which no other machine can reach, and prints one line:

  listening on 127.0.0.1:PORT

It serves N connections, one after the other, and ends. Port 0 picks a free port, which the line names.",
    after_help: "\
A FILE that does not exist, is empty, or is a database with no tables becomes an empty desk first.
Any other file without a desk of this version is left unchanged, and one line says so:

  fault: NotADesk    it is a database of something else
  fault: BadVersion  it keeps a desk of another version
  fault: Bad..       its tables aren't sound: desk audit --help has the names

One program at a time has FILE open. While it is open, or after it was killed, recent changes are in
FILE-wal: keep and copy both files together.

Examples:
  desk serve --db desk.db --port 8080 --limit 1000
  desk serve --db desk.db --port 0 --limit 1

Statuses:
  0  that many connections were served
  1  FILE keeps no such desk
  2  the command line is wrong
  3  no memory, or a file, stream or socket failed",
};
