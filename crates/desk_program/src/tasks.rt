//! What a desk in a file is to do. Each task is a type of its own, so that what opens the file and
//! closes it is proved once, for every task.

use crate::scripts::{self, Course};
use crate::{looking, serving, summaries};
use desk_base::Text;
use desk_files::teller;
use desk_import::{Origin, Summary};
use desk_json::Request;
use desk_line::Listed;
use desk_model::{Profile, Query};
use desk_store::SqlDesk;
use desk_subcommands::Failure;
use desk_views::{
    Filling, ReplyForm, number_held, page, reply_in, reply_to, show, show_filled, show_ready,
};
use sqlite::Alter;
use std::alloc::AllocError;
use std::io::{IsTerminal, Read, Write};

/// What a desk in a file is to do.
pub(crate) trait Task {
    /// Lets a desk do it, and returns the program's status.
    fn run<S: Alter + Drop, W: Write>(
        self,
        rt: &HostRuntime,
        desk: &mut SqlDesk<S>,
        writer: &mut W,
    ) -> Result<u8, Failure>;
}

/// It replies to the requests that a reader gives.
#[derive(Drop)]
pub(crate) struct Scripting<R: Read + Drop> {
    /// How it goes on after requests that aren't done.
    pub course: Course,
    /// The requests.
    pub input: R,
}

impl<R: Read + Drop> Task for Scripting<R> {
    fn run<S: Alter + Drop, W: Write>(
        self,
        rt: &HostRuntime,
        desk: &mut SqlDesk<S>,
        writer: &mut W,
    ) -> Result<u8, Failure> {
        let Scripting { course, mut input } = self;
        scripts::script(rt, desk, &mut input, writer, course)
    }
}

/// What is imported of a file.
#[derive(Drop)]
pub(crate) struct Imported {
    /// What the file is.
    pub origin: Origin,
    /// The profile by which the document's licence expressions are to be read.
    pub profile: Profile,
    /// What is in the document by that profile, if it is one.
    pub summary: Option<Result<Summary, AllocError>>,
}

/// It answers a request, and reports what is imported of a file.
#[derive(Drop)]
pub(crate) struct Answering {
    /// The request.
    pub request: Request,
    /// How the reply is written.
    pub form: ReplyForm,
    /// What is imported, if it imports a file.
    pub imported: Option<Imported>,
    /// Whether a refusal is explained even if nobody watches.
    pub explain: bool,
}

impl Task for Answering {
    fn run<S: Alter + Drop, W: Write>(
        self,
        rt: &HostRuntime,
        desk: &mut SqlDesk<S>,
        writer: &mut W,
    ) -> Result<u8, Failure> {
        let Answering {
            request,
            form,
            imported,
            explain,
        } = self;
        let teller = &mut teller(rt, explain);
        let reply = reply_to(desk, request);
        let again = number_held(&reply);
        let told = reply_in(rt.alloc(), &reply, form, writer, teller);
        drop(reply);
        let status = told?;
        if let Some(imported) = imported {
            teller.report(&imported.origin);
            if status == 0 {
                summaries::tell(rt, desk, imported, again);
            }
        }
        Ok(status)
    }
}

/// It serves connections over HTTP.
#[derive(Drop)]
pub(crate) struct Serving {
    /// The port.
    pub port: u16,
    /// How many connections.
    pub limit: u32,
}

impl Task for Serving {
    fn run<S: Alter + Drop, W: Write>(
        self,
        rt: &HostRuntime,
        desk: &mut SqlDesk<S>,
        _writer: &mut W,
    ) -> Result<u8, Failure> {
        serving::serve(rt, rt.alloc(), desk, self.port, self.limit)
    }
}

/// It writes the text of an answer. A refusal is explained even if nobody watches, or not.
#[derive(Drop)]
pub(crate) struct Showing<'a>(pub &'a Query, pub bool);

impl Task for Showing<'_> {
    fn run<S: Alter + Drop, W: Write>(
        self,
        rt: &HostRuntime,
        desk: &mut SqlDesk<S>,
        writer: &mut W,
    ) -> Result<u8, Failure> {
        // (a pipe and a file get comma-separated values, and notices as they are)
        let is_terminal = rt.stdout().is_terminal();
        show(
            rt.alloc(),
            desk,
            self.0,
            is_terminal,
            writer,
            &mut teller(rt, self.1),
        )
    }
}

/// It writes what keeps a release from being ready, or from complete notices.
#[derive(Drop)]
pub(crate) struct Readying<'a>(pub &'a Query);

impl Task for Readying<'_> {
    fn run<S: Alter + Drop, W: Write>(
        self,
        rt: &HostRuntime,
        desk: &mut SqlDesk<S>,
        writer: &mut W,
    ) -> Result<u8, Failure> {
        let is_terminal = rt.stdout().is_terminal();
        show_ready(
            rt.alloc(),
            desk,
            self.0,
            is_terminal,
            writer,
            &mut teller(rt, false),
        )
    }
}

/// It writes the notices of the bill that a question asks for, with their gaps filled. A
/// refusal is explained even if nobody watches, or not.
#[derive(Drop)]
pub(crate) struct FilledNotices<'a>(pub &'a Query, pub Filling<'a>, pub bool);

impl Task for FilledNotices<'_> {
    fn run<S: Alter + Drop, W: Write>(
        self,
        rt: &HostRuntime,
        desk: &mut SqlDesk<S>,
        writer: &mut W,
    ) -> Result<u8, Failure> {
        let notes = &mut rt.stderr();
        let teller = &mut teller(rt, self.2);
        show_filled(rt.alloc(), desk, self.0, self.1, writer, teller, notes)
    }
}

/// It writes a list of what it holds.
#[derive(Drop)]
pub(crate) struct List<'a>(pub &'a Listed);

impl Task for List<'_> {
    fn run<S: Alter + Drop, W: Write>(
        self,
        rt: &HostRuntime,
        desk: &mut SqlDesk<S>,
        writer: &mut W,
    ) -> Result<u8, Failure> {
        looking::list(rt, desk, self.0, writer, &mut teller(rt, false))
    }
}

/// It writes a page on a release.
#[derive(Drop)]
pub(crate) struct Page<'a>(pub &'a Text);

impl Task for Page<'_> {
    fn run<S: Alter + Drop, W: Write>(
        self,
        rt: &HostRuntime,
        desk: &mut SqlDesk<S>,
        writer: &mut W,
    ) -> Result<u8, Failure> {
        page(rt.alloc(), desk, self.0, writer, &mut teller(rt, false))
    }
}

/// It writes the choices of a release for packages that have only one.
#[derive(Drop)]
pub(crate) struct Choices<'a>(pub &'a Text);

impl Task for Choices<'_> {
    fn run<S: Alter + Drop, W: Write>(
        self,
        rt: &HostRuntime,
        desk: &mut SqlDesk<S>,
        writer: &mut W,
    ) -> Result<u8, Failure> {
        let teller = &mut teller(rt, false);
        desk_inspect::choices(rt.alloc(), desk, self.0, writer, teller)
    }
}

/// It writes what keeps a release from being frozen, and reports how many gaps it has. That is
/// explained even if nobody watches, or not.
#[derive(Drop)]
pub(crate) struct Wanting<'a>(pub &'a Text, pub bool);

impl Task for Wanting<'_> {
    fn run<S: Alter + Drop, W: Write>(
        self,
        rt: &HostRuntime,
        desk: &mut SqlDesk<S>,
        writer: &mut W,
    ) -> Result<u8, Failure> {
        let teller = &mut teller(rt, self.1);
        let notes = &mut rt.stderr();
        let status = desk_inspect::wanting(rt.alloc(), desk, self.0, writer, teller, notes)?;
        summaries::tell_gap_count(rt, desk, self.0);
        Ok(status)
    }
}

/// It writes what is proposed for the document of this number. A refusal is explained even if nobody
/// watches, or not.
#[derive(Drop)]
pub(crate) struct Proposals(pub u32, pub bool);

impl Task for Proposals {
    fn run<S: Alter + Drop, W: Write>(
        self,
        rt: &HostRuntime,
        desk: &mut SqlDesk<S>,
        writer: &mut W,
    ) -> Result<u8, Failure> {
        looking::proposals(rt, desk, self.0, writer, &mut teller(rt, self.1))
    }
}
