//! Why a file can't keep a desk, in words that say what to do.

use desk_model::{Fault, StoreFault};
use thiserror::Error;

/// Why the database of a file can't be used.
#[derive(Clone, Copy, Debug, Drop, PartialEq, Eq, Error)]
pub enum Trouble {
    #[error("no memory is left")]
    Memory,
    #[error("another program has it open; end that one, then try again")]
    Busy,
    #[error("it is no file that can be made or opened here; name another file")]
    CannotOpen,
    #[error("it is a folder; name a file")]
    Folder,
    #[error("its folder is not there; make it first, or name another file")]
    NoFolder,
    #[error("it may be read and not written; copy it to a folder of your own")]
    ReadOnly,
    #[error("it may not be read; see to its permissions")]
    Unreadable,
    #[error("it is no database, it is damaged, or it has something that a desk cannot read (docs/TABLES.md); name another file, drop that, or put back a copy")]
    Damaged,
    #[error("its disk is full; make room, then try again")]
    Full,
    #[error("its disk failed to read or write; look after the disk, then try again")]
    Disk,
    #[error("it has tables of something else, or cannot be read or written; see that its disk has room, then try again")]
    Refused,
    #[error("it has rows that no desk writes; put back a copy of it")]
    Rows,
}

impl From<Fault> for Trouble {
    ghost use Rattle.std.specs.Prelude.{◌≡◌};
    ghost use Rattle.desk_subcommands.specs.Troubles.{trouble_of_fault};

    ghost from_gives = { λ fault trouble. trouble ≡ trouble_of_fault fault };

    fn from(fault: Fault) -> Trouble {
        match fault {
            Fault::Memory => Trouble::Memory,
            Fault::Store(StoreFault::Database) => Trouble::Refused,
            Fault::Store(StoreFault::Rows) => Trouble::Rows,
        }
    }
}

/// Why a port can't be listened on.
#[derive(Clone, Copy, Debug, Drop, PartialEq, Eq, Error)]
pub enum PortTrouble {
    #[error("another program listens there; end that one, or name another port: 0 takes a free one")]
    InUse,
    #[error("only the administrator may listen on a port below 1,024; name a higher one")]
    Denied,
    #[error("the system refused it")]
    Refused,
}
