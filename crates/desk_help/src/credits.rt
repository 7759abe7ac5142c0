//! The help of the credit of a tree.

use crate::Help;

/// The help of `credits`.
pub const CREDITS: Help = Help {
    about: "Writes the credit of a package for notices --fill, from the notices of its source tree",
    long_about: "\
Writes the credit of a package for notices --fill, from the notices of its source tree

Prints one [[credit]], for the version that --of-version gives or, without it, for any. Its text has each
copyright notice of the tree once, one per line: file by file in byte order of their paths, and for each file
first what gather finds for it, from tags and REUSE.toml files, and then what its lines have by pattern. The
same files are left out as by gather.

By pattern, a notice is what follows the start of a comment and begins with (c), (C) or the copyright sign,
or with Copyright before a blank, (, the sign or a digit. What ends the comment does not belong to it. Lines
of over 1,024 bytes, lines with the tag SPDX-FileCopyrightText: and files that are not UTF-8 have none. For
each of these notices the output begins with a comment that says where it is:

  # found by pattern, to be checked: FILE:LINE

Standard error has a line for each file from which notices may be missing:

  FILE: it is no TOML document of version 1
  FILE: its annotation N can not be read
  FILE: its path can not be in a tree",
    after_help: "\
Links are ignored, and the folder .git at the root is not entered. A credit of more than 4 MiB, which --fill
does not take, is not written, nor is one from more than 10,000 files.

Examples:
  desk credits kettle-1.0 --name kettle --of-version 1.0 >kettle.toml
  desk notices --db desk.db r1 --fill kettle.toml

Statuses:
  0  the credit was written
  1  no notice was found, or they are more than --fill takes
  2  the command line is wrong
  3  no memory, or a file or folder could not be read, or the credit could not be written",
};
