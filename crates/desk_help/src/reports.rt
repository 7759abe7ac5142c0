//! The help of reports.

use crate::Help;

const AFTER_HELP: &str = "\
If the desk refuses, one line of JSON says why. A FILE without a desk of this version is left unchanged,
and one line says so:

  fault: NotADesk    it is a database of something else
  fault: BadVersion  it keeps a desk of another version
  fault: Bad..       its tables aren't sound: desk audit --help has the names

Examples:
  desk notices --db desk.db r1 >NOTICES
  desk notices --db desk.db r1 --fill extra.toml --complete >NOTICES
  desk duties --db desk.db r1 >duties.csv
  desk totals --db desk.db r1
  desk changes --db desk.db 1
  desk page --db desk.db r1 >r1.html

Statuses:
  0  it was written
  1  it was refused, or FILE keeps no such desk
  2  the command line is wrong
  3  no memory, or a file or stream failed";

/// The help of `notices`.
pub const NOTICES: Help = Help {
    about: "Writes the notices that ship with a frozen release",
    long_about: "\
Writes the notices that ship with a frozen release

For each package that RELEASE ships: its name and version, the licences that it was frozen with and its
copyright. Then each text of these licences once, as the catalogue of the freeze or the document has it.
Whatever is recorded later, this stays the same until the release is withdrawn.

Each EXTRA is a TOML file. Its [[text]] tables, with licence and body, give texts if none is recorded, and
its [[credit]] tables, with package, text and perhaps version, give copyrights if none, NONE or NOASSERTION
is given. The first that fits counts, and what is given stays. Standard error says how much is still
missing; if anything is, --complete writes nothing and gives status 1.",
    after_help: AFTER_HELP,
};

/// The help of `duties`.
pub const DUTIES: Help = Help {
    about: "Writes the table of a release's duties",
    long_about: "\
Writes the table of a release's duties

Comma-separated values (RFC 4180): a line of the columns' names, and one for each duty, by number:

  number,document,package,term,rule,code,state,since

On a terminal the same table is in columns, with a question mark for a control character.

The state is open, met, waived or withdrawn, and since is the day of the last change.",
    after_help: AFTER_HELP,
};

/// The help of `totals`.
pub const TOTALS: Help = Help {
    about: "Counts the duties of a release by their state",
    long_about: "\
Counts the duties of a release by their state

Prints one line: raised N open N met N waived N withdrawn N",
    after_help: AFTER_HELP,
};

/// The help of `changes`.
pub const CHANGES: Help = Help {
    about: "Lists the changes of a duty",
    long_about: "\
Lists the changes of a duty

A line for each: its step, its day, what was done, until and the last day of a waiver that ends, and the
text that was recorded with it.",
    after_help: AFTER_HELP,
};

/// The help of `page`.
pub const PAGE: Help = Help {
    about: "Writes a page about a release, to read and print",
    long_about: "\
Writes a page about a release, to read and print

One HTML file that has no script and loads nothing from elsewhere: what RELEASE ships and under which
licences, its duties by licence and by state, waivers that end, the changes of each duty, and the notices.",
    after_help: AFTER_HELP,
};
