//! The help of migrations.

use crate::Help;

/// The help of `migrate`.
pub const MIGRATE: Help = Help {
    about: "Converts a file of an older version to the tables of this one",
    long_about: "\
Converts a file of an older version to the tables of this one

Prints migrated 1 to 3, or migrated 2 to 3: the version that the tables had, and the one that they have now.
From version 1 each document gets profile 1, the operators in capitals; no waiver of an older version ends.
Everything is done in one transaction, and only if the resulting tables are sound. Otherwise FILE is unchanged,
and this prints why:

  fault: BadVersion   its tables aren't of an older version, or are of an unknown one
  fault: NotADesk     it has no table with a version, or not all tables of that version as a desk makes
                      them: standard error says which
  fault: Bad..        its tables wouldn't be sound: desk audit --help has the names",
    after_help: "\
Copy FILE first: an older desk can't read the tables of this version.

Example:
  cp desk.db copy.db && desk migrate --db desk.db

Statuses:
  0  the tables are those of this version
  1  they are unchanged
  2  the command line is wrong
  3  no memory, or a file or stream failed",
};
