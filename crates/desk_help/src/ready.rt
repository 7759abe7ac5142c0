//! The help of `ready`.

use crate::Help;

/// The help of `ready`.
pub const READY: Help = Help {
    about: "Says whether a frozen release owes nothing more",
    long_about: "\
Says whether a frozen release owes nothing more

A release is ready if it is frozen and each of its duties is met, waived or withdrawn. With --day, each
waiver that ends must last to DAY or later: a duty that the request close with DAY would open counts as
open.

If RELEASE is ready, nothing is printed and the status is 0. Otherwise the status is 1, and the duties that
keep it from being ready are printed, as desk duties prints them, or the reply line of a refusal: there is no
such release, it isn't frozen, or DAY is not a day. With --day today, standard error says which day that is.

Nothing is recorded in FILE.",
    after_help: "\
A FILE without a desk of this version is left unchanged, and one line says so, as with duties.

Examples:
  desk ready --db desk.db r1
  desk ready --db desk.db --day 2025-12-31 r1 || echo 'not yet'
  desk ready --db desk.db --day today r1

Statuses:
  0  the release is ready
  1  it isn't; or it was refused, or FILE keeps no such desk
  2  the command line is wrong
  3  no memory, or a file or stream failed",
};
