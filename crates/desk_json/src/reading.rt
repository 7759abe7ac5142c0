//! Reads a request.

ghost use Rattle.std.specs.Prelude.{◌≡◌, IfOk};
ghost use Rattle.desk_json_object.specs.Seen.{seen};
ghost use Rattle.desk_json.specs.Requests.{catalogue_request, import_profile, import_request, open_request, attach_request, choose_request, freeze_request, meet_request, unchoose_request, waive_until, waive_request, reopen_request, withdraw_request, close_request, conclude_request, adopt_request, duties_request, totals_request, changes_request, findings_request, release_request, alternatives_request, cheapest_request, wanting_request, ready_day, ready_request, gaps_request, with_members, request_of, request_in};
ghost use Rattle.desk_json.specs.Forms.{form_request, request_by};
ghost use Rattle.desk_json.specs.Unread.{IsFound, IsRead};
ghost use Rattle.desk_json.specs.declared.request.Request.TheVariants.{Ask};

use crate::fields::{
    Unread, profile_at, require_members, size_of, wanted_number, wanted_text, wanted_texts,
};
use crate::forms::{COMMANDS, Form, QUERIES, form_named};
use crate::request::Request;
use desk_base::{Items, Text};
use desk_json_object::{Object, read_object};
use desk_model::{Command, Profile, Query};
use std::alloc::{AllocError, Global};

fn read_catalogue(alloc: Global, object: &Object) -> Result<Request, Unread>
    ensures { IsRead (catalogue_request (seen object.now)) result }
{
    require_members(object, 2)?;
    let text = wanted_text(alloc, object, "text")?;
    Ok(Request::Act(Command::LoadCatalogue { text }))
}

/// The profile of an import: capitals if it names none.
fn import_profile(object: &Object) -> Option<Profile>
    ensures { result ≡ import_profile (seen object.now) }
{
    match size_of(object) {
        2 => Some(Profile::Capitals),
        3 => profile_at(object, "profile"),
        _ => None,
    }
}

fn read_import(object: &mut Object) -> Result<Request, Unread>
    ensures { IsRead (import_request (seen object.old)) result }
{
    let Some(profile) = import_profile(object) else {
        return Err(Unread::BadCommand);
    };
    let Some(text) = object.take_text("text") else {
        return Err(Unread::BadCommand);
    };
    Ok(Request::Act(Command::Import {
        bytes: Items::from_vec(text.into_bytes()),
        profile,
    }))
}

fn read_open(alloc: Global, object: &Object) -> Result<Request, Unread>
    ensures { IsRead (open_request (seen object.now)) result }
{
    require_members(object, 3)?;
    let release = wanted_text(alloc, object, "release")?;
    let form = wanted_text(alloc, object, "form")?;
    Ok(Request::Act(Command::OpenRelease { release, form }))
}

fn read_attach(alloc: Global, object: &Object) -> Result<Request, Unread>
    ensures { IsRead (attach_request (seen object.now)) result }
{
    require_members(object, 3)?;
    let release = wanted_text(alloc, object, "release")?;
    let document = wanted_number(object, "document")?;
    Ok(Request::Act(Command::Attach { release, document }))
}

fn read_choose(alloc: Global, object: &mut Object) -> Result<Request, Unread>
    ensures { IsRead (choose_request (seen object.old)) result }
{
    require_members(object, 5)?;
    let release = wanted_text(alloc, object, "release")?;
    let document = wanted_number(object, "document")?;
    let package_id = wanted_text(alloc, object, "package")?;
    let terms = wanted_texts(object, "terms")?;
    Ok(Request::Act(Command::Choose {
        release,
        document,
        package_id,
        terms,
    }))
}

fn read_freeze(alloc: Global, object: &Object) -> Result<Request, Unread>
    ensures { IsRead (freeze_request (seen object.now)) result }
{
    require_members(object, 3)?;
    let release = wanted_text(alloc, object, "release")?;
    let day = wanted_text(alloc, object, "day")?;
    Ok(Request::Act(Command::Freeze { release, day }))
}

fn read_meet(alloc: Global, object: &Object) -> Result<Request, Unread>
    ensures { IsRead (meet_request (seen object.now)) result }
{
    require_members(object, 4)?;
    let duty = wanted_number(object, "duty")?;
    let day = wanted_text(alloc, object, "day")?;
    let text = wanted_text(alloc, object, "text")?;
    Ok(Request::Act(Command::Meet { duty, day, text }))
}

/// The last day of a waiver, if the request has one more member for it.
fn waive_until(alloc: Global, object: &Object) -> Result<Option<Text>, Unread>
    ensures { IsFound (waive_until (seen object.now)) result }
{
    match size_of(object) {
        4 => Ok(None),
        5 => Ok(Some(wanted_text(alloc, object, "until")?)),
        _ => Err(Unread::BadCommand),
    }
}

fn read_waive(alloc: Global, object: &Object) -> Result<Request, Unread>
    ensures { IsRead (waive_request (seen object.now)) result }
{
    let until = waive_until(alloc, object)?;
    let duty = wanted_number(object, "duty")?;
    let day = wanted_text(alloc, object, "day")?;
    let text = wanted_text(alloc, object, "text")?;
    Ok(Request::Act(Command::Waive {
        duty,
        day,
        text,
        until,
    }))
}

fn read_reopen(alloc: Global, object: &Object) -> Result<Request, Unread>
    ensures { IsRead (reopen_request (seen object.now)) result }
{
    require_members(object, 4)?;
    let duty = wanted_number(object, "duty")?;
    let day = wanted_text(alloc, object, "day")?;
    let text = wanted_text(alloc, object, "text")?;
    Ok(Request::Act(Command::Reopen { duty, day, text }))
}

fn read_unchoose(alloc: Global, object: &Object) -> Result<Request, Unread>
    ensures { IsRead (unchoose_request (seen object.now)) result }
{
    require_members(object, 4)?;
    let release = wanted_text(alloc, object, "release")?;
    let document = wanted_number(object, "document")?;
    let package_id = wanted_text(alloc, object, "package")?;
    Ok(Request::Act(Command::Unchoose {
        release,
        document,
        package_id,
    }))
}

fn read_conclude(alloc: Global, object: &Object) -> Result<Request, Unread>
    ensures { IsRead (conclude_request (seen object.now)) result }
{
    require_members(object, 4)?;
    let document = wanted_number(object, "document")?;
    let package_id = wanted_text(alloc, object, "package")?;
    let expression = wanted_text(alloc, object, "expression")?;
    Ok(Request::Act(Command::Conclude {
        document,
        package_id,
        expression,
    }))
}

fn read_adopt(alloc: Global, object: &Object) -> Result<Request, Unread>
    ensures { IsRead (adopt_request (seen object.now)) result }
{
    require_members(object, 4)?;
    let document = wanted_number(object, "document")?;
    let reference = wanted_text(alloc, object, "reference")?;
    let licence = wanted_text(alloc, object, "licence")?;
    Ok(Request::Act(Command::Adopt {
        document,
        reference,
        licence,
    }))
}

fn read_withdraw(alloc: Global, object: &Object) -> Result<Request, Unread>
    ensures { IsRead (withdraw_request (seen object.now)) result }
{
    require_members(object, 4)?;
    let release = wanted_text(alloc, object, "release")?;
    let day = wanted_text(alloc, object, "day")?;
    let text = wanted_text(alloc, object, "text")?;
    Ok(Request::Act(Command::Withdraw { release, day, text }))
}

fn read_close(alloc: Global, object: &Object) -> Result<Request, Unread>
    ensures { IsRead (close_request (seen object.now)) result }
{
    require_members(object, 2)?;
    let day = wanted_text(alloc, object, "day")?;
    Ok(Request::Act(Command::CloseDay { day }))
}

fn read_duties(alloc: Global, object: &Object) -> Result<Request, Unread>
    ensures { IsRead (duties_request (seen object.now)) result }
{
    require_members(object, 2)?;
    let release = wanted_text(alloc, object, "release")?;
    Ok(Request::Ask(Query::Duties { release }))
}

fn read_totals(alloc: Global, object: &Object) -> Result<Request, Unread>
    ensures { IsRead (totals_request (seen object.now)) result }
{
    require_members(object, 2)?;
    let release = wanted_text(alloc, object, "release")?;
    Ok(Request::Ask(Query::Totals { release }))
}

fn read_release(alloc: Global, object: &Object) -> Result<Request, Unread>
    ensures { IsRead (release_request (seen object.now)) result }
{
    require_members(object, 2)?;
    let release = wanted_text(alloc, object, "release")?;
    Ok(Request::Ask(Query::Release { release }))
}

fn read_wanting(alloc: Global, object: &Object) -> Result<Request, Unread>
    ensures { IsRead (wanting_request (seen object.now)) result }
{
    require_members(object, 2)?;
    let release = wanted_text(alloc, object, "release")?;
    Ok(Request::Ask(Query::Wanting { release }))
}

fn read_gaps(alloc: Global, object: &Object) -> Result<Request, Unread>
    ensures { IsRead (gaps_request (seen object.now)) result }
{
    require_members(object, 2)?;
    let release = wanted_text(alloc, object, "release")?;
    Ok(Request::Ask(Query::Gaps { release }))
}

/// The day of a question, if the request has one more member for it.
fn ready_day(alloc: Global, object: &Object) -> Result<Option<Text>, Unread>
    ensures { IsFound (ready_day (seen object.now)) result }
{
    match size_of(object) {
        2 => Ok(None),
        3 => Ok(Some(wanted_text(alloc, object, "day")?)),
        _ => Err(Unread::BadCommand),
    }
}

fn read_ready(alloc: Global, object: &Object) -> Result<Request, Unread>
    ensures { IsRead (ready_request (seen object.now)) result }
{
    let day = ready_day(alloc, object)?;
    let release = wanted_text(alloc, object, "release")?;
    Ok(Request::Ask(Query::Ready { release, day }))
}

fn read_changes(object: &Object) -> Result<Request, Unread>
    ensures { IsRead (changes_request (seen object.now)) result }
{
    require_members(object, 2)?;
    let duty = wanted_number(object, "duty")?;
    Ok(Request::Ask(Query::Changes { duty }))
}

fn read_findings(object: &Object) -> Result<Request, Unread>
    ensures { IsRead (findings_request (seen object.now)) result }
{
    require_members(object, 2)?;
    let document = wanted_number(object, "document")?;
    Ok(Request::Ask(Query::Findings { document }))
}

fn read_alternatives(alloc: Global, object: &Object) -> Result<Request, Unread>
    ensures { IsRead (alternatives_request (seen object.now)) result }
{
    require_members(object, 3)?;
    let document = wanted_number(object, "document")?;
    let package_id = wanted_text(alloc, object, "package")?;
    Ok(Request::Ask(Query::Alternatives {
        document,
        package_id,
    }))
}

fn read_cheapest(alloc: Global, object: &Object) -> Result<Request, Unread>
    ensures { IsRead (cheapest_request (seen object.now)) result }
{
    require_members(object, 4)?;
    let document = wanted_number(object, "document")?;
    let package_id = wanted_text(alloc, object, "package")?;
    let form = wanted_text(alloc, object, "form")?;
    Ok(Request::Ask(Query::Cheapest {
        document,
        package_id,
        form,
    }))
}

/// A query that needs no other member.
fn read_bare(object: &Object, query: Query) -> Result<Request, Unread>
    ensures { IsRead (with_members 1 (seen object.now) (Ask query)) result }
{
    require_members(object, 1)?;
    Ok(Request::Ask(query))
}

/// The form that the word of `do` names, or else that of `ask`.
fn form_of(object: &Object) -> Option<Form>
    ensures { request_by result (seen object.now) ≡ request_of (seen object.now) }
{
    match object.text("do") {
        Some(word) => form_named(word, &COMMANDS),
        None => form_named(object.text("ask")?, &QUERIES),
    }
}

fn read_form(alloc: Global, form: Form, object: &mut Object) -> Result<Request, Unread>
    ensures { IsRead (form_request form (seen object.old)) result }
{
    match form {
        Form::Catalogue => read_catalogue(alloc, object),
        Form::Import => read_import(object),
        Form::Open => read_open(alloc, object),
        Form::Attach => read_attach(alloc, object),
        Form::Choose => read_choose(alloc, object),
        Form::Freeze => read_freeze(alloc, object),
        Form::Unchoose => read_unchoose(alloc, object),
        Form::Conclude => read_conclude(alloc, object),
        Form::Adopt => read_adopt(alloc, object),
        Form::Meet => read_meet(alloc, object),
        Form::Waive => read_waive(alloc, object),
        Form::Reopen => read_reopen(alloc, object),
        Form::Withdraw => read_withdraw(alloc, object),
        Form::Close => read_close(alloc, object),
        Form::Duties => read_duties(alloc, object),
        Form::Totals => read_totals(alloc, object),
        Form::Changes => read_changes(object),
        Form::Findings => read_findings(object),
        Form::Release => read_release(alloc, object),
        Form::Alternatives => read_alternatives(alloc, object),
        Form::Cheapest => read_cheapest(alloc, object),
        Form::Releases => read_bare(object, Query::Releases),
        Form::Documents => read_bare(object, Query::Documents),
        Form::OpenDuties => read_bare(object, Query::OpenDuties),
        Form::Wanting => read_wanting(alloc, object),
        Form::Ready => read_ready(alloc, object),
        Form::Gaps => read_gaps(alloc, object),
    }
}

fn read_request(alloc: Global, object: &mut Object) -> Result<Request, AllocError>
    ensures { IfOk result (λ r. r ≡ request_of (seen object.old)) }
{
    let Some(form) = form_of(object) else {
        return Ok(Request::BadCommand);
    };
    match read_form(alloc, form, object) {
        Ok(request) => Ok(request),
        Err(Unread::BadCommand) => Ok(Request::BadCommand),
        Err(Unread::Memory) => Err(AllocError),
    }
}

/// The most members that a request has.
const MEMBERS: usize = 5;

/// The request that the bytes are, or `BadCommand` if they aren't one. What no request needs of
/// them is skipped (`desk_json_object`).
pub fn read_command(alloc: Global, bytes: &[u8]) -> Result<Request, AllocError>
    ensures { IfOk result (λ request. request ≡ request_in bytes.now) }
{
    match read_object(alloc, bytes, MEMBERS)? {
        Some(mut object) => read_request(alloc, &mut object),
        None => Ok(Request::BadCommand),
    }
}
