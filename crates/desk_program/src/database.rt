//! The desk that a file keeps: it is opened, does a task, and is closed.

ghost use Rattle.std.specs.Prelude.{◌≡◌, false};

use crate::scripts::Course;
use crate::tasks::{
    Answering, Choices, FilledNotices, Imported, List, Page, Proposals, Readying, Scripting,
    Serving, Showing, Task, Wanting,
};
use crate::{FAILED, REFUSED, USAGE, upkeep};
use desk_assignments::{Source, Verb, WordsTrouble, read_words, source_of};
use desk_base::{Items, Profile, Text};
use desk_files::{
    Difference, Step, document_at, fills_at, first_difference, make_file, require_file, tell_left,
    teller, text_at, trouble_at, trouble_of,
};
use desk_fill::{Fill, Style};
use desk_import::Intake;
use desk_json::Request;
use desk_line::FileCall;
use desk_model::{Command, Query};
use desk_store::{AdoptFault, CreateFault, SqlDesk};
use desk_subcommands::{Failure, NoDesk, Trouble, refuse_database, text_of, write_text};
use desk_today::{mentions_today, today, with_day};
use desk_views::{Filling, ReplyForm, refuse_text};
use sqlite::{Alter, Connection};
use sqlite_disk::{Disk, Unknown};
use sqlite_store::FileStore;
use std::alloc::{AllocError, Global};
use std::io::{self, BufRead, BufReader, BufWriter, IsTerminal, Write};

/// What is to be done with a file.
pub(crate) trait Work {
    /// Does it over a connection to the file, and returns the program's status.
    fn over<D: Disk + Drop, W: Write>(
        self,
        rt: &HostRuntime,
        conn: Connection<FileStore<D>>,
        path: &str,
        writer: &mut W,
    ) -> Result<u8, Failure>
        requires { conn.in_transaction ≡ false };
}

/// Why a file can't keep a desk.
pub(crate) fn unusable(alloc: Global, path: &str, trouble: Trouble) -> Failure {
    match String::from_str(alloc, path) {
        Ok(path) => Failure::Database(path, trouble),
        Err(error) => Failure::from(error),
    }
}

/// The same of a file whose tables can't be read, and on standard error what to do about a log that
/// isn't its own.
pub(crate) fn unreadable(rt: &HostRuntime, path: &str, trouble: Trouble) -> Failure {
    if !matches!(trouble, Trouble::Memory) {
        tell_left(rt, path);
    }
    unusable(rt.alloc(), path, trouble)
}

/// Why a file keeps no desk and, if its tables are not a desk's, how they differ from them.
#[derive(Drop)]
pub(crate) struct Refused {
    reason: NoDesk,
    difference: Option<Difference>,
}

impl From<NoDesk> for Refused {
    fn from(reason: NoDesk) -> Refused {
        Refused {
            reason,
            difference: None,
        }
    }
}

// Why a file is no desk.
fn no_desk<S: Alter>(alloc: Global, conn: &Connection<S>) -> Result<Refused, Failure> {
    Ok(Refused {
        reason: NoDesk::NotADesk,
        difference: Some(first_difference(alloc, conn.schema(), false)?),
    })
}

/// Says on standard error how a file's tables differ from a desk's, and where its rows may be one's,
/// how to keep them.
pub(crate) fn tell_difference(rt: &HostRuntime, path: &str, difference: &Difference) {
    // If writing to standard error fails, the line on standard output still says it.
    let _told = eprintln!(rt; "{path:?}: {difference}");
    if difference.may_have_rows() {
        let _told = eprintln!(rt; "{path:?}: examples/restore moves a desk's rows into a new file");
    }
}

/// Reports why a file keeps no desk, and returns the program's status.
pub(crate) fn refuse<W: Write>(
    rt: &HostRuntime,
    refused: Refused,
    path: &str,
    writer: &mut W,
) -> Result<u8, Failure> {
    if let NoDesk::Unsound(_) = refused.reason {
        tell_left(rt, path);
    }
    let status = refuse_database(rt.alloc(), refused.reason, writer)?;
    if let Some(difference) = refused.difference {
        tell_difference(rt, path, &difference);
    }
    Ok(status)
}

/// The desk behind a connection, or why there is none.
pub(crate) fn desk_behind<S: Alter + Drop>(
    rt: &HostRuntime,
    conn: Connection<S>,
    path: &str,
) -> Result<Result<SqlDesk<S>, Refused>, Failure>
    requires { conn.in_transaction ≡ false }
{
    let alloc = rt.alloc();
    match SqlDesk::adopt_connection(alloc, conn) {
        Ok(desk) => Ok(Ok(desk)),
        Err((AdoptFault::NotADesk, conn)) => Ok(Err(no_desk(alloc, &conn)?)),
        Err((AdoptFault::BadVersion(_), _)) => Ok(Err(Refused::from(NoDesk::BadVersion))),
        Err((AdoptFault::Unsound(fault), _)) => Ok(Err(Refused::from(NoDesk::Unsound(fault)))),
        Err((AdoptFault::Fault(fault), _)) => Err(unreadable(rt, path, Trouble::from(fault))),
    }
}

// Says that a file keeps a new desk, if standard error is a terminal: a name may have been
// mistyped.
fn tell_new(rt: &HostRuntime, path: &str) {
    if rt.stderr().is_terminal() {
        let _told = eprintln!(rt; "{path:?} is a new desk");
    }
}

// The desk behind a connection to a file, or why it keeps none. If there is no table `meta`, an
// empty desk is created.
fn desk_of<S: Alter + Drop>(
    rt: &HostRuntime,
    conn: Connection<S>,
    path: &str,
) -> Result<Result<SqlDesk<S>, Refused>, Failure>
    requires { conn.in_transaction ≡ false }
{
    let alloc = rt.alloc();
    match SqlDesk::create(alloc, conn) {
        Ok(desk) => {
            tell_new(rt, path);
            Ok(Ok(desk))
        }
        Err((CreateFault::NotEmpty, conn)) => desk_behind(rt, conn, path),
        Err((CreateFault::Fault(fault), _)) => Err(unusable(alloc, path, Trouble::from(fault))),
    }
}

/// Moves what was done from the log into the file, and closes both.
pub(crate) fn close<D: Disk + Drop>(
    alloc: Global,
    conn: Connection<FileStore<D>>,
    path: &str,
) -> Result<(), Failure> {
    match conn.close() {
        Ok(()) => Ok(()),
        Err(error) => Err(Failure::Close(String::from_str(alloc, path)?, trouble_of(error))),
    }
}

/// The result of a piece of work after which the file was closed: the reason why it failed goes
/// before the reason why the file wasn't closed.
pub(crate) fn closing_status(
    told: Result<u8, Failure>,
    closed: Result<(), Failure>,
) -> Result<u8, Failure> {
    let status = match told {
        Ok(status) => status,
        Err(failure) => {
            drop(closed);
            return Err(failure);
        }
    };
    closed?;
    Ok(status)
}

// Lets the desk behind a connection do a task. The desk is closed whatever comes of that.
fn do_over<D: Disk + Drop, W: Write, T: Task + Drop>(
    rt: &HostRuntime,
    conn: Connection<FileStore<D>>,
    path: &str,
    task: T,
    writer: &mut W,
) -> Result<u8, Failure>
    requires { conn.in_transaction ≡ false }
{
    let opened = desk_of(rt, conn, path);
    desk_files::clear(rt, path);
    let mut desk = match opened? {
        Ok(desk) => desk,
        Err(refused) => return refuse(rt, refused, path, writer),
    };
    let told = task.run(rt, &mut desk, writer);
    let closed = close(rt.alloc(), desk.into_connection(), path);
    closing_status(told, closed)
}

/// The desk that it keeps does a task.
#[derive(Drop)]
struct Do<T: Task + Drop>(T);

impl<T: Task + Drop> Work for Do<T> {
    fn over<D: Disk + Drop, W: Write>(
        self,
        rt: &HostRuntime,
        conn: Connection<FileStore<D>>,
        path: &str,
        writer: &mut W,
    ) -> Result<u8, Failure> {
        let Do(task) = self;
        do_over(rt, conn, path, task, writer)
    }
}

// Does what is to be done with a file. If there is none, it is made for its owner alone. The disk is
// assumed to finish a sector whose write has begun, so each commit is synced once.
fn work_over<K: Work + Drop, W: Write>(
    rt: &HostRuntime,
    path: &str,
    work: K,
    writer: &mut W,
) -> Result<u8, Failure> {
    make_file(rt, path)?;
    desk_files::tell(rt, path, Step::Pages);
    match Connection::open_from(rt, path, false, Unknown) {
        Ok(conn) => {
            desk_files::tell(rt, path, Step::Rows);
            work.over(rt, conn, path, writer)
        }
        Err((error, _)) => {
            desk_files::clear(rt, path);
            match trouble_at(rt, path, error) {
                Trouble::Damaged => Err(unreadable(rt, path, Trouble::Damaged)),
                trouble => Err(unusable(rt.alloc(), path, trouble)),
            }
        }
    }
}

/// The same, written to standard output.
pub(crate) fn work_in<K: Work + Drop>(
    rt: &HostRuntime,
    path: &str,
    work: K,
) -> Result<u8, Failure> {
    let mut writer = BufWriter::new(rt.alloc(), io::writer(rt))?;
    work_over(rt, path, work, &mut writer)
}

// Whether no memory was left for the whole of a text that was written into memory.
fn is_cut(told: &Result<u8, Failure>) -> bool {
    matches!(told, Err(Failure::Write(error)) if error.kind() == io::ErrorKind::OutOfMemory)
}

// The same of a task that only looks at the desk. What it writes is kept until the file is closed, so
// that a program that reads it, such as a script, may open the file.
fn look_in<T: Task + Drop>(rt: &HostRuntime, path: &str, task: T) -> Result<u8, Failure> {
    desk_files::keep_large(rt.alloc());
    let mut text = Vec::new(rt.alloc());
    let told = work_over(rt, path, Do(task), &mut text);
    if is_cut(&told) {
        return Err(Failure::from(AllocError));
    }
    let written = write_text(&mut io::writer(rt), text.as_slice());
    drop(text);
    closing_status(told, written)
}

// Lets the desk in a file do a task.
fn do_in<T: Task + Drop>(rt: &HostRuntime, path: &str, task: T) -> Result<u8, Failure> {
    desk_files::keep_large(rt.alloc());
    work_in(rt, path, Do(task))
}

// Writes the text of the answer to a question.
fn write_answer(rt: &HostRuntime, path: &str, query: Query, explain: bool) -> Result<u8, Failure> {
    let told = do_in(rt, path, Showing(&query, explain));
    drop(query);
    told
}

/// Writes the duties of a release.
fn duties(rt: &HostRuntime, path: &str, release: &Text) -> Result<u8, Failure> {
    let release = release.clone()?;
    write_answer(rt, path, Query::Duties { release }, false)
}

/// Writes how many duties of a release are in each state.
fn totals(rt: &HostRuntime, path: &str, release: &Text) -> Result<u8, Failure> {
    let release = release.clone()?;
    write_answer(rt, path, Query::Totals { release }, false)
}

/// Writes the changes of a duty.
fn changes(rt: &HostRuntime, path: &str, duty: u32) -> Result<u8, Failure> {
    let duty = u64::from(duty);
    write_answer(rt, path, Query::Changes { duty }, false)
}

// Writes the duties that keep a release from being ready on a day, if one is given.
fn unready(rt: &HostRuntime, path: &str, release: &Text, day: Option<Text>) -> Result<u8, Failure> {
    let release = release.clone()?;
    let query = Query::Ready { release, day };
    let told = do_in(rt, path, Readying(&query));
    drop(query);
    told
}

// The same on the day that a word names, which may be `today`.
fn unready_on(rt: &HostRuntime, path: &str, release: &Text, day: &Text) -> Result<u8, Failure> {
    if day.as_str() != "today" {
        return unready(rt, path, release, Some(day.clone()?));
    }
    match told_today(rt)? {
        Some(day) => unready(rt, path, release, Some(day)),
        None => Ok(FAILED),
    }
}

/// Writes the duties that keep a release from being ready, if a day is given also on that day.
fn ready(rt: &HostRuntime, path: &str, release: &Text, day: &Option<Text>) -> Result<u8, Failure> {
    match day {
        Some(day) => unready_on(rt, path, release, day),
        None => unready(rt, path, release, None),
    }
}

/// Writes what is missing for the notices of a release.
fn gaps(rt: &HostRuntime, path: &str, release: &Text) -> Result<u8, Failure> {
    let release = release.clone()?;
    let query = Query::Gaps { release };
    let told = do_in(rt, path, Readying(&query));
    drop(query);
    told
}

/// Replies to the requests of standard input over the desk that a file keeps. The file is opened once
/// there is something to read, since what writes it may be a desk that has the file open until then.
pub fn script(rt: &HostRuntime, path: &str, course: Course) -> Result<u8, Failure> {
    let Ok(mut input) = BufReader::new(rt.alloc(), rt.reader()) else {
        return Err(Failure::from(AllocError));
    };
    if !rt.stdin().is_terminal() {
        // If it can't be read, the script reports that.
        let _begun = input.fill_buf();
    }
    do_in(rt, path, Scripting { course, input })
}

/// Serves the desk that a file keeps over HTTP.
fn serve(rt: &HostRuntime, path: &str, port: u16, limit: u32) -> Result<u8, Failure> {
    do_in(rt, path, Serving { port, limit })
}

// Lets the desk that a file keeps answer a request, and write the reply in a form. If it imports a
// document from a file, what is imported is reported.
fn reply(
    rt: &HostRuntime,
    path: &str,
    request: Request,
    form: ReplyForm,
    imported: Option<Imported>,
    explain: bool,
) -> Result<u8, Failure> {
    let task = Answering {
        request,
        form,
        imported,
        explain,
    };
    do_in(rt, path, task)
}

/// Lets the desk that a file keeps import what was taken of the file of a document, and write the
/// reply in a form. If the desk replies, the kind of that file is reported, and what the desk holds
/// now.
fn import(
    rt: &HostRuntime,
    path: &str,
    taken: Intake,
    profile: Profile,
    form: ReplyForm,
    explain: bool,
) -> Result<u8, Failure> {
    let Intake {
        bytes,
        origin,
        summary,
    } = taken;
    let bytes = Items::from_vec(bytes);
    let request = Request::Act(Command::Import { bytes, profile });
    let imported = Imported {
        origin,
        profile,
        summary,
    };
    reply(rt, path, request, form, Some(imported), explain)
}

/// The same of the document of another file.
fn import_at(
    rt: &HostRuntime,
    path: &str,
    document: &str,
    profile: Profile,
    form: ReplyForm,
) -> Result<u8, Failure> {
    let taken = document_at(rt, document, profile, false)?;
    import(rt, path, taken, profile, form, false)
}

/// Lets the desk that a file keeps load the catalogue of another file, and write the reply in a
/// form.
fn load(rt: &HostRuntime, path: &str, catalogue: &str, form: ReplyForm) -> Result<u8, Failure> {
    let alloc = rt.alloc();
    let bytes = text_at(rt, catalogue)?;
    match text_of(alloc, bytes.as_slice())? {
        Some(text) => {
            let request = Request::Act(Command::LoadCatalogue { text });
            reply(rt, path, request, form, None, false)
        }
        None => refuse_text(alloc, form, &mut io::writer(rt), &mut teller(rt, false)),
    }
}

// Writes the notices of a release.
fn plain_notices(
    rt: &HostRuntime,
    path: &str,
    release: &Text,
    explain: bool,
) -> Result<u8, Failure> {
    let release = release.clone()?;
    write_answer(rt, path, Query::Bill { release }, explain)
}

// Writes the notices of a release with their gaps filled.
fn filled_notices(
    rt: &HostRuntime,
    path: &str,
    release: &Text,
    fills: &[Fill],
    is_complete: bool,
    explain: bool,
) -> Result<u8, Failure> {
    let style = Style {
        is_complete,
        is_terminal: rt.stdout().is_terminal(),
    };
    let release = release.clone()?;
    let filling = Filling { fills, style };
    let query = Query::Bill { release };
    let told = do_in(rt, path, FilledNotices(&query, filling, explain));
    drop(query);
    told
}

/// Lets the desk that a file keeps write the notices of a release. Their gaps are filled from the
/// files at some paths, which are read before FILE is opened; if one can't be, FILE isn't opened.
fn notices(
    rt: &HostRuntime,
    path: &str,
    release: &Text,
    extra: &[Text],
    is_complete: bool,
    explain: bool,
) -> Result<u8, Failure> {
    if extra.is_empty() && !is_complete {
        return plain_notices(rt, path, release, explain);
    }
    let Some(fills) = fills_at(rt, extra)? else {
        return Ok(REFUSED);
    };
    let told = filled_notices(rt, path, release, fills.as_slice(), is_complete, explain);
    drop(fills);
    told
}

/// Lets the desk that a file keeps answer a request. The text of an import or of a catalogue may be
/// in a file. The reply is in columns on a terminal, unless JSON is asked for.
fn request(rt: &HostRuntime, path: &str, request: Request, json: bool) -> Result<u8, Failure> {
    if let Request::Ask(_) = &request {
        require_file(rt, path)?;
    }
    let form = ReplyForm::on(rt.stdout().is_terminal(), json);
    let told = match source_of(&request) {
        Some(Source::Document(document, profile)) => import_at(rt, path, document, profile, form),
        Some(Source::Catalogue(catalogue)) => load(rt, path, catalogue, form),
        None => return reply(rt, path, request, form, None, false),
    };
    drop(request);
    told
}

/// Lets the desk that a file keeps answer the request that words spell.
fn spoken(
    rt: &HostRuntime,
    path: &str,
    verb: Verb,
    words: &[Text],
    json: bool,
) -> Result<u8, Failure> {
    match read_words(rt.alloc(), verb, words) {
        Ok(asked) => request(rt, path, asked, json),
        Err(WordsTrouble::Memory) => Err(Failure::from(AllocError)),
        Err(trouble) => {
            // If it can't be written, the status still says it.
            let _told = eprintln!(rt; "error: {trouble}");
            Ok(USAGE)
        }
    }
}

/// The day of today, which is told on standard error; none, and why, if the clock shows no day.
fn told_today(rt: &HostRuntime) -> Result<Option<Text>, Failure> {
    let Some(day) = today(rt)? else {
        let _told = eprintln!(rt; "error: the system's clock shows no day of the calendar");
        return Ok(None);
    };
    let shown = day.as_str();
    let _told = eprintln!(rt; "desk: today is {shown}");
    Ok(Some(day))
}

/// Lets the desk that a file keeps answer the request that words spell, some of which may say
/// `today`.
fn dated(
    rt: &HostRuntime,
    path: &str,
    verb: Verb,
    words: &[Text],
    json: bool,
) -> Result<u8, Failure> {
    if !mentions_today(words) {
        return spoken(rt, path, verb, words, json);
    }
    let Some(day) = told_today(rt)? else {
        return Ok(FAILED);
    };
    let words = with_day(rt.alloc(), words, &day)?;
    let told = spoken(rt, path, verb, words.as_slice(), json);
    drop(words);
    told
}

/// Whether a call makes the file if there is none: the others only look at what is there. A question
/// in words is looked at once the words are known to be one.
fn makes_file(call: &FileCall) -> bool {
    matches!(
        call,
        FileCall::Import { .. }
            | FileCall::Catalogue { .. }
            | FileCall::Do { .. }
            | FileCall::Ask { .. }
            | FileCall::Serve { .. }
    )
}

/// Fails if a call only looks at a file, and there is none.
fn require_if_looked_at(rt: &HostRuntime, path: &str, call: &FileCall) -> Result<(), Failure> {
    if makes_file(call) {
        return Ok(());
    }
    require_file(rt, path)
}

/// Does what is asked of the desk that a file keeps, or of the file.
pub fn answer(rt: &HostRuntime, path: &str, call: &FileCall) -> Result<u8, Failure> {
    require_if_looked_at(rt, path, call)?;
    match call {
        FileCall::Import {
            document,
            profile,
            no_files,
            explain,
        } => {
            let taken = document_at(rt, document.as_str(), *profile, *no_files)?;
            import(rt, path, taken, *profile, ReplyForm::Line, *explain)
        }
        FileCall::Catalogue { catalogue } => load(rt, path, catalogue.as_str(), ReplyForm::Line),
        FileCall::Do { words, json } => dated(rt, path, Verb::Do, words.as_slice(), *json),
        FileCall::Ask { words, json } => dated(rt, path, Verb::Ask, words.as_slice(), *json),
        FileCall::Audit => upkeep::audit(rt, path),
        FileCall::Migrate => upkeep::migrate(rt, path),
        FileCall::Backup { copy } => upkeep::back_up(rt, path, copy.as_str()),
        FileCall::Notices {
            release,
            fills,
            is_complete,
            explain,
        } => notices(rt, path, release, fills.as_slice(), *is_complete, *explain),
        FileCall::Duties(release) => duties(rt, path, release),
        FileCall::Totals(release) => totals(rt, path, release),
        FileCall::Changes(duty) => changes(rt, path, *duty),
        FileCall::List { list } => do_in(rt, path, List(list)),
        FileCall::Page(release) => do_in(rt, path, Page(release)),
        FileCall::Choices(release) => look_in(rt, path, Choices(release)),
        FileCall::Wanting { release, explain } => do_in(rt, path, Wanting(release, *explain)),
        FileCall::Ready { release, day } => ready(rt, path, release, day),
        FileCall::Gaps(release) => gaps(rt, path, release),
        FileCall::Proposals { document, explain } => {
            look_in(rt, path, Proposals(*document, *explain))
        }
        FileCall::Serve { port, limit } => serve(rt, path, *port, *limit),
    }
}
