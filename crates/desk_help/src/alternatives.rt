//! The help of listing choices.

use crate::Help;

/// The help of `alternatives`.
pub const ALTERNATIVES: Help = Help {
    about: "Lists the minimal sets of licences that satisfy an expression",
    long_about: "\
Lists the minimal sets of licences that satisfy an expression

Reads a licence expression (SPDX 2.3, Annex D) and prints each minimal set of terms that satisfies
it, one per line, its terms joined by a comma and a blank. A set is minimal if none of its terms can
be left out. Small sets come first, and sets of the same size in the order of their terms. Or it
prints one line:

  fault: NAME at N     the expression cannot be read: what is wrong, and at which byte, from 0
  fault: TooManyTerms  it has more than 128 distinct terms
  fault: TooMany       some part of it, or the first few of the parts that AND or OR joins, has more
                       than 64 minimal sets",
    after_help: "\
Licence ids are printed in small letters, references as they are written. A choice can be checked
without limits: desk check --help.

Examples:
  desk alternatives 'Apache-2.0 OR MIT AND BSD-3-Clause'
  desk alternatives '(MIT OR Apache-2.0) AND (MIT OR Zlib)'
  desk alternatives --profile 2 'MIT or Zlib'

Statuses:
  0  the sets were listed
  1  a fault
  2  the command line is wrong
  3  no memory, or the lines could not be written",
};
