//! The help of audits.

use crate::Help;

/// The help of `audit`.
pub const AUDIT: Help = Help {
    about: "Audits the tables of a file that keeps a desk",
    long_about: "\
Audits the tables of a file that keeps a desk

Prints sound if the tables are as a desk writes them: the rules are those of the catalogues, the packages
are those of the documents, each choice is a minimal set for its package, the duties are those that the
frozen terms owe, and the state of each follows from its changes. Otherwise it prints the name of the first
condition that isn't met:

  BadMeta      the version of the tables
  BadRevision  the numbers and texts of catalogues
  BadRule      the rules of a catalogue
  BadDocument  the numbers, namespaces, bytes and profiles of documents
  BadPackage   the packages and the extracted licences of a document
  BadChoice    conclusions, adoptions, places of releases, choices
  BadNumber    the numbers and the releases of duties
  BadDuty      the duties that a release's frozen terms owe
  BadChange    the changes of a duty
  BadState     the states of a release and its duties

Nothing is recorded in FILE.",
    after_help: "\
If FILE is empty, or a database with no tables, this prints empty. No file is made.

Example:
  desk audit --db desk.db

Statuses:
  0  the tables are sound
  1  they are not, or FILE is empty
  2  the command line is wrong
  3  no memory, a file or stream failed, or FILE lacks a table of a desk",
};
