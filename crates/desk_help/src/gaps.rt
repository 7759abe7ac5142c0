//! The help of `gaps`.

use crate::Help;

/// The help of `gaps`.
pub const GAPS: Help = Help {
    about: "Lists what is missing for the notices of a release",
    long_about: "\
Lists what is missing for the notices of a release, open or frozen

If nothing is missing, nothing is printed and the status is 0. Otherwise the status is 1, and each gap is
printed in columns on a terminal and as comma-separated values elsewhere: what is missing, the number of the
document (0 for a licence, which is the same in all), and what lacks it:

  text       a licence or an exception without a text in the catalogue, or a reference without one in its
             document: of the terms chosen for a package or, if none are, of all terms of its licence
  copyright  a package whose copyright is absent, NONE or NOASSERTION
  shipment   an attached document that ships nothing, so that it raises no duty
  twice      a package whose name and version an earlier document of the release has too

Before a freeze the catalogue in force counts, afterwards that of the freeze. A text can be loaded with
the next catalogue before the freeze; what is still missing then can be filled in when the notices are
written (desk notices --fill).

Nothing is recorded in FILE.",
    after_help: "\
A FILE without a desk of this version is left unchanged, and one line says so, as with duties.

Examples:
  desk gaps --db desk.db r1
  desk gaps --db desk.db r1 >gaps.csv || echo 'the notices are not complete'

Statuses:
  0  nothing is missing
  1  something is; or it was refused, or FILE keeps no such desk
  2  the command line is wrong
  3  no memory, or a file or stream failed",
};
