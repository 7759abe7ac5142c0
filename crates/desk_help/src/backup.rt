//! The help of backups.

use crate::Help;

/// The help of `backup`.
pub const BACKUP: Help = Help {
    about: "Copies the file that keeps a desk",
    long_about: "\
Copies the file that keeps a desk

Moves what is in FILE-wal into FILE, copies FILE to the new file TO, which only its owner may read, and
audits the copy. Prints sound; TO needs no file beside it. FILE is locked while it is copied.

While another program, such as desk serve, has FILE open, no copy is made and the status is 3: stop that
program first, and start it again afterwards.",
    after_help: "\
To put a copy back, stop every program that has FILE open, and delete FILE-wal before you copy TO over FILE:
what is in FILE-wal doesn't belong to the copy.

Example:
  desk backup --db desk.db copy.db

Statuses:
  0  the copy is sound
  1  FILE keeps no desk of this version, and no copy was made
  2  the command line is wrong
  3  no memory, or a file or stream failed: TO exists, or FILE doesn't or is in use",
};
