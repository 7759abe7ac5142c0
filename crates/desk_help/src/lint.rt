//! The help of problems of a tree.

use crate::Help;

/// The help of `lint`.
pub const LINT: Help = Help {
    about: "Lists what is wrong in a source tree, by the desk's rules",
    long_about: "\
Lists what is wrong in a source tree, by the desk's rules

Reads the files of a folder as gather does (REUSE Specification 3.3), but does not stop at the first
problem, and prints a line for each:

  PATH:LINE: what is wrong and what to do
  PATH: the same, for a problem without a line

First comes what is wrong: .reuse/dep5, names of files, each REUSE.toml and each of its annotations, and
each licence in a file that is not an expression. Then comes what the rest lacks: texts of licences in
LICENSES/ that are missing or, if nothing of the first part is wrong, that no file uses, and files without
a copyright notice or without a licence. The last line counts the problems, the files that were examined,
and the problems of each kind. A question mark replaces a character that is not shown.

DIR is the root of the tree, where LICENSES/ is. To ignore lines, write REUSE-IgnoreStart before
them and REUSE-IgnoreEnd after them.",
    after_help: "\
With --json the same is one object: \"covered\" is the number of files, and \"problems\" a list of
objects, each with \"kind\", \"line\" (or null), \"message\" and \"path\". The kinds are Dep5, TooManyFiles,
BadPath, TwicePath, BadToml, BadAnnotation, BadExpression, BlankAtEnd, Missing, Unused and Bare.

A tree that is clean here may still lack what `reuse lint` asks for, such as ids from the SPDX licence
list; docs/LINT.md has the differences. Links are not followed, and the folder .git at the root is not
entered. First remove anything else that version control ignores.

Examples:
  desk lint .
  desk lint --json .

Statuses:
  0  no problem
  1  some problem
  2  the command line is wrong
  3  no memory, or a file or folder could not be read, or the lines could not be written",
};
