//! The help of texts of a folder.

use crate::Help;

/// The help of `texts`.
pub const TEXTS: Help = Help {
    about: "Writes the texts of a folder for notices --fill, from files named after licences",
    long_about: "\
Writes the texts of a folder for notices --fill, from files named after licences

Prints a [[text]] for each file in the folder that is named after a licence, an exception or a reference,
such as MIT.txt or LicenseRef-own.txt. The SPDX project's list of texts and a folder LICENSES have such files.
The part of the name from its last full stop on does not count. The text is the whole file. A catalogue takes
the same tables.

Standard error has a line for each file that is left out:

  FILE: its name is no id of a licence or an exception, and no reference
  FILE: it is not UTF-8
  FILE: it is empty, or says NONE or NOASSERTION
  FILE: a file before it is named after the same id or reference",
    after_help: "\
Links and folders in the folder are skipped. More than 10,000 texts or 4 MiB, which --fill does not take, are
not written: put the files into several folders.

Examples:
  desk texts LICENSES >texts.toml
  desk notices --db desk.db r1 --fill texts.toml

Statuses:
  0  the texts were written
  1  no text was found, or they are more than --fill takes
  2  the command line is wrong
  3  no memory, or a file or folder could not be read, or the texts could not be written",
};
