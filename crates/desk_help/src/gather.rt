//! The help of gathering a tree.

use crate::Help;

/// The help of `gather`.
pub const GATHER: Help = Help {
    about: "Writes the SPDX document of a source tree, from what its files say about their licences",
    long_about: "\
Writes the SPDX document of a source tree, from what its files say about their licences

Reads the files of a folder (REUSE Specification 3.3): the tags SPDX-License-Identifier: and
SPDX-FileCopyrightText: in each file, or in FILE.license next to it, and the REUSE.toml files from the
folder to the file's own. It prints a tag-value document (SPDX 2.3) of one package and its files, with
their SHA1 digests, licences and notices. The desk can import it up to 9,999 files and 4 MiB. If
something is wrong, gather prints one line instead:

  fault: BadToml FILE             a REUSE.toml that is not a TOML document of version 1
  fault: BadAnnotation FILE N K   its annotation N, from 0: K is 1 for no path, 2 for a value of another
                                  kind, 3 for an unknown precedence, 4 for a licence that is not an
                                  expression
  fault: BadExpression FILE N     on line N a licence that is not an expression
  fault: BadPath                  a name with a byte below 32, or with a blank at its end
  fault: TooManyFiles             more than 10,000 files
  fault: ExpressionTooLong        licences that cannot be joined to one expression",
    after_help: "\
Links are ignored, and the folder .git at the root is not entered. First remove anything else that
version control ignores. Files under LICENSES/ and .reuse/ at the root, files named LICENSE, LICENCE or
COPYING, and empty files are left out.

Examples:
  desk gather . --name hello --namespace https://example.org/hello-1 --created 2025-01-01T00:00:00Z
  desk gather . --name hello --namespace https://example.org/hello --created 2025-01-01T00:00:00Z >hello.spdx

Statuses:
  0  the document was written
  1  a fault
  2  the command line is wrong, or a value does not fit its field
  3  no memory, or a file or folder could not be read, or the document could not be written",
};
