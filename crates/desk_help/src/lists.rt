//! The help of lists of what a desk holds.

use crate::Help;

/// The help of `lists`.
pub const LISTS: Help = Help {
    about: "Lists the releases, documents or duties of a desk",
    long_about: "\
Lists the releases, documents or duties of a desk

WHAT is one of:

  releases   in the order in which they were opened, with how many duties each has in each state:
             name,form,state,revision,raised,open,met,waived,withdrawn
  documents  by number, with how many packages and findings each has and how many packages ship:
             number,name,namespace,packages,shipped,findings,profile
  duties     of all releases, in the order in which they were raised:
             number,release,document,package,name,rule,code,title,state,raised,since,until

Comma-separated values (RFC 4180), with a line of the columns' names. On a terminal the same table is in
columns. title is the code's in the catalogue in force, since is the day of the last change, and until is
the last day of a waiver that ends.

--release, --code, --open and --past select duties: those of a release, with a code, in the state open, or
waived up to a day before DAY, so that close would open them on that day. If the desk has no such release, or
neither its catalogue nor a duty has the code, standard error says so, and the status is 1.",
    after_help: "\
A FILE without a desk of this version is left unchanged, and one line says so, as with duties.

Examples:
  desk list --db desk.db releases
  desk list --db desk.db duties --open
  desk list --db desk.db duties --release r1 --code give-notice >duties.csv
  desk list --db desk.db duties --past 2025-07-01

Statuses:
  0  it was written
  1  the release or the code is unknown, or FILE keeps no such desk
  2  the command line is wrong
  3  no memory, or a file or stream failed",
};
