//! The help of explaining names.

use crate::Help;

/// The help of `explain`.
pub const EXPLAIN: Help = Help {
    about: "Says what a name that the desk prints means, and what to do",
    long_about: "\
Says what a name that the desk prints means, and what to do

NAME is that of a refusal, a fault, a finding, a condition of an audit or a problem of a source tree, as
the desk prints it. Prints what it is, what is wrong, the usual cause, and the page that says more:

  BadName: refusal 9 (open)
    Usual cause: a blank, an underscore or more than 64 bytes in the release's name
    Page: docs/REFUSALS.md

If several things have the name, all are printed, one after the other.",
    after_help: "\
Examples:
  desk explain BadName
  desk explain NoColon

Statuses:
  0  it was written
  2  the command line is wrong, or nothing has the name
  3  no memory, or the text could not be written",
};
