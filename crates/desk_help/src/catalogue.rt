//! The help of loading a catalogue.

use crate::Help;

/// The help of `catalogue`.
pub const CATALOGUE: Help = Help {
    about: "Loads a catalogue of duties into the desk that a file keeps",
    long_about: "\
Loads a catalogue of duties into the desk that a file keeps

Reads a catalogue from TOML, loads it as the request catalogue of script does, and prints the reply,
one line of JSON:

  {\"revision\":N}                         it is revision N, and in force
  {\"at\":[..],\"name\":\"..\",\"refused\":..}   it was refused, and nothing was changed",
    after_help: "\
A FILE that does not exist, is empty, or is a database with no tables becomes an empty desk first.
Any other file without a desk of this version is left unchanged, and one line says so:

  fault: NotADesk    it is a database of something else
  fault: BadVersion  it keeps a desk of another version
  fault: Bad..       its tables aren't sound: desk audit --help has the names

One program at a time has FILE open. While it is open, or after it was killed, recent changes are in
FILE-wal: keep and copy both files together. TOML may be /dev/stdin. It is read before FILE is
opened; if it is not UTF-8, it is refused and FILE is not opened.

Examples:
  desk catalogue --db desk.db catalogue.toml

Statuses:
  0  it was loaded
  1  it was refused, or FILE keeps no such desk
  2  the command line is wrong
  3  no memory, or a file or stream failed",
};
