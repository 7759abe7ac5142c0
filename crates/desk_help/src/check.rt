//! The help of judging a choice.

use crate::Help;

/// The help of `check`.
pub const CHECK: Help = Help {
    about: "Checks that a choice of licences satisfies an expression with no term to spare",
    long_about: "\
Checks that a choice of licences satisfies an expression with no term to spare

Reads a licence expression (SPDX 2.3, Annex D) and the terms that were chosen to satisfy it, and
prints one line:

  minimal            the terms satisfy the expression, and none can be left out
  not enough         the terms do not satisfy the expression
  superfluous: TERM  they do, even without this term, the first that can be left out
  fault: NAME at N   the expression cannot be read: what is wrong, and at which byte, from 0
  bad term: TERM     the first word that is not a term",
    after_help: "\
A term is a licence id, or one followed directly by +, or a reference (LicenseRef-x or
DocumentRef-y:LicenseRef-x), and perhaps WITH and an exception. One term is one word of the
command line, so quote a term with an exception. Case is ignored in ids, but not in references.
AND binds tighter than OR. The profile is only for EXPR: the WITH of a term is always in capitals.

Examples:
  desk check MIT mit
  desk check 'Apache-2.0 OR MIT AND BSD-3-Clause' MIT BSD-3-Clause
  desk check --profile 2 'MIT or Zlib' zlib
  desk check 'GPL-2.0-only WITH Classpath-exception-2.0' 'GPL-2.0-only WITH Classpath-exception-2.0'

Statuses:
  0  minimal
  1  any other line
  2  the command line is wrong
  3  no memory, or the line could not be written",
};
