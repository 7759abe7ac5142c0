//! What the words of a command line ask for.

use clap::Error;
use desk_base::{Items, Profile, Text};
use std::alloc::AllocError;

/// A subcommand with its values.
#[derive(Drop)]
pub enum Call {
    /// Whether the terms are a minimal set that satisfies the licence expression, whose operators
    /// are written by the profile.
    Check {
        /// A licence expression (SPDX 2.3, Annex D).
        expression: Text,
        /// How its operators may be written.
        profile: Profile,
        /// The terms that are judged, each as one word.
        terms: Items<Text>,
    },
    /// The minimal sets of terms that satisfy the licence expression, whose operators are written
    /// by the profile.
    Alternatives {
        /// A licence expression (SPDX 2.3, Annex D).
        expression: Text,
        /// How its operators may be written.
        profile: Profile,
    },
    /// Replies to the requests of standard input, one on each line, over the desk that is kept in a
    /// file, or over one in memory. A request that isn't carried out is explained or not, and ends
    /// the script or not.
    Script {
        /// The path of the file, or none for a desk in memory.
        database: Option<Text>,
        /// Each line that isn't carried out is reported on standard error.
        explain: bool,
        /// The first request that isn't carried out ends the script.
        stop: bool,
    },
    /// What the desk that is kept in a file is to do, or what is to be done with the file.
    File {
        /// The path of the file.
        database: Text,
        /// What is to be done.
        call: FileCall,
    },
    /// The document of the tree of files in a folder, with its name, its namespace and when it was
    /// created.
    Gather {
        /// The path of the folder.
        folder: Text,
        /// The document's name (SPDX 2.3, clause 6.4).
        name: Text,
        /// Its namespace (clause 6.5).
        namespace: Text,
        /// When it was created (clause 6.9), as it is to be written there.
        created: Text,
    },
    /// The problems of the tree of files in a folder, as one JSON object or as lines.
    Lint {
        /// The path of the folder.
        folder: Text,
        /// One JSON object is asked for, not lines.
        json: bool,
    },
    /// The SPDX document in JSON at this path, as a tag-value document that says the same.
    Convert {
        /// The path of the document.
        document: Text,
        /// Files that change nothing about what ships are left out.
        no_files: bool,
    },
    /// The texts of the files in a folder, as entries for `--fill`.
    Texts {
        /// The path of the folder.
        folder: Text,
    },
    /// The credit of a package from the notices of the tree of files in a folder, as an entry for
    /// `--fill`.
    Credits {
        /// The path of the folder.
        folder: Text,
        /// The package.
        package: Package,
    },
    /// What a name that the desk prints means.
    Explain {
        /// The name, as the desk prints it.
        name: Text,
    },
    /// The conclusions that are proposed for the document at this path, which has this number. The
    /// operators of its licence expressions are written by the profile.
    Propose {
        /// The path of the document.
        document: Text,
        /// Its number in the desk for which the conclusions are.
        number: u32,
        /// How the operators of its licence expressions may be written.
        profile: Profile,
        /// Why it is refused, and what is left out, is explained off a terminal too.
        explain: bool,
    },
}

/// A package.
#[derive(Drop)]
pub struct Package {
    /// Its name.
    pub name: Text,
    /// Its version, or none for any.
    pub version: Option<Text>,
}

/// A subcommand for the file that keeps a desk, with its other values.
#[derive(Drop)]
pub enum FileCall {
    /// The import of the document at this path. The operators of its licence expressions are
    /// written by the profile.
    Import {
        /// The path of the document.
        document: Text,
        /// How its operators may be written.
        profile: Profile,
        /// Files of a document in JSON that change nothing about what ships are left out.
        no_files: bool,
        /// A refusal is explained off a terminal too.
        explain: bool,
    },
    /// The command that words spell: its word, and an assignment for each of its keys.
    Do {
        /// The word, then the assignments.
        words: Items<Text>,
        /// The line of a script is asked for, on a terminal too.
        json: bool,
    },
    /// The question that words spell.
    Ask {
        /// The word, then the assignments.
        words: Items<Text>,
        /// The line of a script is asked for, on a terminal too.
        json: bool,
    },
    /// The loading of the catalogue at this path.
    Catalogue {
        /// The path of the catalogue.
        catalogue: Text,
    },
    /// The notices of a release, whose gaps are filled from the files at these paths; or, if they
    /// must be complete, nothing if a gap is left.
    Notices {
        /// The name of the release.
        release: Text,
        /// The paths of the files, of which an earlier one goes first.
        fills: Items<Text>,
        /// Whether the notices must be complete.
        is_complete: bool,
        /// A refusal is explained off a terminal too.
        explain: bool,
    },
    /// The table of the duties of the release with this name.
    Duties(Text),
    /// How many duties of the release with this name are in each state.
    Totals(Text),
    /// The changes of the duty with this number, from 1.
    Changes(u32),
    /// A page on the release with this name, its duties and its notices.
    Page(Text),
    /// Everything that keeps a release from being frozen.
    Wanting {
        /// The name of the release.
        release: Text,
        /// Each refusal is explained off a terminal too.
        explain: bool,
    },
    /// The duties that keep a frozen release from being ready, for a day if one is given.
    Ready {
        /// The name of the release.
        release: Text,
        /// The day, `YYYY-MM-DD` or `today`.
        day: Option<Text>,
    },
    /// What is missing for the notices of the release with this name.
    Gaps(Text),
    /// The choices of the release with this name for the packages that have only one.
    Choices(Text),
    /// The conclusions and the choices that are proposed for a document.
    Proposals {
        /// The number of the document, from 1.
        document: u32,
        /// Why it is refused, and what is left out, is explained off a terminal too.
        explain: bool,
    },
    /// What the desk holds.
    List {
        /// What is listed.
        list: Listed,
    },
    /// The audit of its tables.
    Audit,
    /// The migration of a file of an older version to the tables of this one.
    Migrate,
    /// A copy of the file.
    Backup {
        /// The path of the copy.
        copy: Text,
    },
    /// Replies over HTTP, at a port of this machine's own address, to at most `limit` connections.
    /// Port 0 means any free port.
    Serve {
        /// The port, or 0 for any free one.
        port: u16,
        /// How many connections.
        limit: u32,
    },
}

/// What is listed of a desk.
#[derive(Drop)]
pub enum Listed {
    /// The releases.
    Releases,
    /// The documents.
    Documents,
    /// The duties, or only those of a release, with a code, that are open, or whose waivers have a
    /// last day before this one.
    Duties {
        /// The release, by its name.
        release: Option<Text>,
        /// The code of the duty, as the catalogue has it.
        code: Option<Text>,
        /// Only those that are open.
        is_open: bool,
        /// The day before which the waiver's last day must be.
        past: Option<Text>,
    },
}

/// Why a command line is no call.
#[derive(Drop)]
pub enum LineFault {
    /// No memory was left.
    Memory(AllocError),
    /// The words are no call. The error's text is for the user: what is wrong, or the help or
    /// version that the words ask for.
    Usage(Error),
}
