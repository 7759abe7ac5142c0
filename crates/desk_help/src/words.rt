//! The help of requests in words.

use crate::Help;

/// The help of `do`.
pub const DO: Help = Help {
    about: "Carries out one command, given in words",
    long_about: "\
Carries out one command, given in words

The words are a command and KEY=VALUE for each of its keys, those of the same request in JSON
(desk script --help). The terms of a choice are separated by commas; day=today and until=today are
the day of the system's clock in its zone (TZ, or /etc/localtime). A terminal gets the reply in
columns and words; a file, a pipe and --json get the line that script writes.

  catalogue  text                          load a catalogue of duties
  import     text [profile]                import an SPDX document
  open       release form                  open a release
  attach     release document              attach a document to it
  choose     release document package terms
                                           choose terms for a package
  freeze     release day                   freeze a release, which raises its duties
  unchoose   release document package      drop the choice for a package
  conclude   document package expression   conclude a licence expression for a package
  adopt      document reference licence    adopt a reference of a document as a licence
  meet       duty day text                 meet a duty
  waive      duty day text [until]         waive a duty, for good or up to a last day
  reopen     duty day text                 reopen a duty that is met or waived
  withdraw   release day text              withdraw a release
  close      day                           end the waivers whose last day is before this day

An unknown word, or a key that is unknown, missing or given twice, or whose value is of the wrong
kind, is an error of the command line, and no file is opened.",
    after_help: "\
A file that does not exist becomes an empty desk first. text=@FILE takes the text of a catalogue or a
document from a file; import and catalogue do the same.

Examples:
  desk do --db desk.db import text=@kettle.spdx
  desk do --db desk.db open release=r1 form=binary
  desk do --db desk.db choose release=r1 document=1 package=SPDXRef-p terms=MIT,Zlib
  desk do --db desk.db meet duty=12 day=today text='licences/kettle.txt'

Statuses:
  0  it was done
  1  it was refused, or the file keeps no such desk
  2  the command line is wrong
  3  no memory, or a file or stream failed",
};

/// The help of `ask`.
pub const ASK: Help = Help {
    about: "Answers one question, given in words",
    long_about: "\
Answers one question, given in words

The words are a question and KEY=VALUE for each of its keys, those of the same request in JSON
(desk script --help); day=today is the day of the system's clock. A terminal gets the answer in
columns and words; a file, a pipe and --json get the line that script writes.

  duties        release                the duties of a release
  totals        release                how many of them are in each state
  changes       duty                   the changes of a duty
  findings      document               where a document departs from the standard
  release       release                a release with its packages
  alternatives  document package       the sets of terms that satisfy a package's licence
  cheapest      document package form  the set that owes the fewest duties
  releases, documents, open            all releases, documents and open duties
  wanting       release                everything that prevents a freeze
  ready         release [day]          the duties that keep a frozen release from being ready
  gaps          release                what is missing for the notices of a release

An unknown word, or a key that is unknown, missing or given twice, or whose value is of the wrong
kind, is an error of the command line, and no file is opened.",
    after_help: "\
The file must exist.

Examples:
  desk ask --db desk.db alternatives document=1 package=SPDXRef-p
  desk ask --db desk.db open

Statuses:
  0  it was answered
  1  it was refused, or the file keeps no such desk
  2  the command line is wrong
  3  no memory, or a file or stream failed",
};
