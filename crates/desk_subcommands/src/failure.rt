//! Why a subcommand could not do its work.

use crate::trouble::{PortTrouble, Trouble};
use desk_model::Fault;
use desk_script::ScriptStop;
use desk_tree_files::TreeFault;
use std::alloc::AllocError;
use std::io;
use thiserror::Error;

/// A fault of the program's environment, not of what the words asked for.
#[derive(Debug, Drop, Error)]
pub enum Failure {
    #[error("no memory is left")]
    Memory(AllocError),
    #[error("cannot write: {0}")]
    Write(io::Error),
    /// A script stopped before its end.
    #[error("the script stopped: {0}")]
    Script(ScriptStop),
    /// This many requests of a script failed.
    #[error("requests that failed: {0}")]
    Failed(u64),
    /// A desk failed at a command. During the run its rows are unchanged; the file may have the
    /// rows after the command.
    #[error("the request failed: {0}; it was applied fully or not at all: check before you send it again")]
    Request(Fault),
    /// A file can't be read: its path, and why.
    #[error("cannot read {0:?}: {1}")]
    Read(String, io::Error),
    /// A file can't keep a desk: its path, and why.
    #[error("cannot use {0:?}: {1}")]
    Database(String, Trouble),
    /// What was done couldn't be moved into the file that keeps the desk: its path, and why.
    #[error("cannot close {0:?}: {1}; what was done stands in the file beside it whose name ends in -wal: keep both together")]
    Close(String, Trouble),
    /// A port of 127.0.0.1 can't be listened on: which, and why.
    #[error("cannot listen on port {0} of 127.0.0.1: {1}")]
    Listen(u16, PortTrouble),
    /// This many connections failed.
    #[error("connections that failed: {0}")]
    Connections(u64),
    /// The files of a tree can't be read.
    #[error("{0}")]
    Tree(TreeFault),
    /// What is named as the folder of a tree is none.
    #[error("{0:?} is no folder: name the folder of the tree")]
    NotAFolder(String),
    /// Nothing that the desk prints has this name.
    #[error("nothing is named {0:?}; see docs/REFUSALS.md and the pages that it cites")]
    UnknownName(String),
    /// Some value of a document can't be read back from its field.
    #[error("a value cannot stand in its field of the document: a licence of a REUSE.toml has blanks at its ends")]
    BadValue,
}

impl Failure {
    ghost use Rattle.std.specs.Prelude.{◌≡◌};
    ghost use Rattle.desk_subcommands.specs.Failures.{failure_status};

    /// The program's status: 2 if a value can't be written in its field or a name is unknown,
    /// otherwise 3.
    pub fn status(&self) -> u8
        ensures { result ≡ failure_status self.now }
    {
        match self {
            Failure::BadValue | Failure::UnknownName(_) => 2,
            _ => 3,
        }
    }
}

impl From<AllocError> for Failure {
    ghost use Rattle.std.specs.Prelude.{◌≡◌};
    ghost use Rattle.desk_subcommands.specs.declared.failure.Failure.TheVariants.{Memory};

    ghost from_gives = { λ error failure. failure ≡ Memory error };

    fn from(error: AllocError) -> Failure {
        Failure::Memory(error)
    }
}

impl From<io::Error> for Failure {
    ghost use Rattle.std.specs.Prelude.{◌≡◌};
    ghost use Rattle.desk_subcommands.specs.declared.failure.Failure.TheVariants.{Write};

    ghost from_gives = { λ error failure. failure ≡ Write error };

    fn from(error: io::Error) -> Failure {
        Failure::Write(error)
    }
}

impl From<TreeFault> for Failure {
    ghost use Rattle.std.specs.Prelude.{◌≡◌};
    ghost use Rattle.desk_subcommands.specs.declared.failure.Failure.TheVariants.{Tree};

    ghost from_gives = { λ fault failure. failure ≡ Tree fault };

    fn from(fault: TreeFault) -> Failure {
        Failure::Tree(fault)
    }
}
