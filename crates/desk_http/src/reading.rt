//! Reads the request that bytes begin with.

ghost use Rattle.std.specs.Prelude.{◌≡◌, ℕ, true, false, IfOk, MatchOption};
ghost use Rattle.std.specs.Str.{is_utf8};
ghost use Rattle.desk_http_head.specs.Fields.{number_text};
ghost use Rattle.desk_http_head.specs.Framings.{Framed, IsFraming};
ghost use Rattle.desk_http.specs.Routes.{desk_routes, route_of};
ghost use Rattle.desk_http.specs.Paths.{part_at, path_of};
ghost use Rattle.desk_http.specs.Requests.{of_line, posted_request, shown_request, route_request, request_for, Shows};

use crate::asking::{Reading, Request, Shape};
use crate::{Posted, Route, RouteTable, Shown, part_at, path_of};
use desk_base::{Items, Profile, Text};
use desk_http_head::{Framing, frame, number_of};
use desk_json::read_command;
use desk_model::{Command, Query};
use std::alloc::{AllocError, Global};
use std::str::from_utf8;

/// Bytes as text, if they are UTF-8.
fn text_of(bytes: &[u8]) -> Option<&str>
    ensures { MatchOption result (is_utf8 bytes.now ≡ false)
        (λ text. (is_utf8 bytes.now ≡ true) × (text.now ≡ bytes.now)) }
{
    match from_utf8(bytes) {
        Ok(text) => Some(text),
        Err(_) => None,
    }
}

fn of_line(request: desk_json::Request) -> Request
    ensures { result ≡ of_line request }
{
    match request {
        desk_json::Request::Act(command) => Request::Act(command),
        desk_json::Request::Ask(query) => Request::Ask(query, Shape::Json),
        desk_json::Request::BadCommand => Request::BadCommand,
    }
}

fn catalogue(alloc: Global, body: &[u8]) -> Result<Request, AllocError>
    ensures { IfOk result (λ r. r ≡ posted_request Posted.Catalogue body.now) }
{
    let Some(text) = text_of(body) else {
        return Ok(Request::NotText);
    };
    let text = Text::of(alloc, text)?;
    Ok(Request::Act(Command::LoadCatalogue { text }))
}

fn document(alloc: Global, body: &[u8]) -> Result<Request, AllocError>
    ensures { IfOk result (λ r. r ≡ posted_request Posted.Document body.now) }
{
    let bytes = Items::from_vec(Vec::from_slice(alloc, body)?);
    let profile = Profile::Capitals;
    Ok(Request::Act(Command::Import { bytes, profile }))
}

fn posted_request(alloc: Global, what: Posted, body: &[u8]) -> Result<Request, AllocError>
    ensures { IfOk result (λ r. r ≡ posted_request what body.now) }
{
    match what {
        Posted::Request => Ok(of_line(read_command(alloc, body)?)),
        Posted::Document => document(alloc, body),
        Posted::Catalogue => catalogue(alloc, body),
    }
}

/// The number of a document or a duty in a path.
fn number_in(path: &str) -> Option<u64>
    ensures { result ≡ number_text (part_at 2 path.now) }
{
    number_of(part_at(path, 2).as_bytes())
}

/// The name of a release in a path.
fn release_in(alloc: Global, path: &str) -> Result<Text, AllocError>
    ensures { IfOk result (λ name. name ≡ part_at 2 path.now) }
{
    Text::of(alloc, part_at(path, 2))
}

fn alternatives(alloc: Global, path: &str) -> Result<Request, AllocError>
    ensures { IfOk result (λ r. r ≡ shown_request Shown.Alternatives path.now) }
{
    let Some(document) = number_in(path) else {
        return Ok(Request::NoRoute);
    };
    let package_id = Text::of(alloc, part_at(path, 4))?;
    let query = Query::Alternatives {
        document,
        package_id,
    };
    Ok(Request::Ask(query, Shape::Json))
}

fn cheapest(alloc: Global, path: &str) -> Result<Request, AllocError>
    ensures { IfOk result (λ r. r ≡ shown_request Shown.Cheapest path.now) }
{
    let Some(document) = number_in(path) else {
        return Ok(Request::NoRoute);
    };
    let package_id = Text::of(alloc, part_at(path, 4))?;
    let form = Text::of(alloc, part_at(path, 6))?;
    let query = Query::Cheapest {
        document,
        package_id,
        form,
    };
    Ok(Request::Ask(query, Shape::Json))
}

fn findings(path: &str) -> Request
    ensures { result ≡ shown_request Shown.Findings path.now }
{
    match number_in(path) {
        Some(document) => Request::Ask(Query::Findings { document }, Shape::Json),
        None => Request::NoRoute,
    }
}

fn changes(path: &str) -> Request
    ensures { result ≡ shown_request Shown.Changes path.now }
{
    match number_in(path) {
        Some(duty) => Request::Ask(Query::Changes { duty }, Shape::Json),
        None => Request::NoRoute,
    }
}

fn shown_request(alloc: Global, what: Shown, path: &str) -> Result<Request, AllocError>
    ensures { IfOk result (λ r. r ≡ shown_request what path.now) }
{
    match what {
        Shown::Findings => Ok(findings(path)),
        Shown::Alternatives => alternatives(alloc, path),
        Shown::Cheapest => cheapest(alloc, path),
        Shown::Changes => Ok(changes(path)),
        Shown::Release => {
            let release = release_in(alloc, path)?;
            Ok(Request::Ask(Query::Release { release }, Shape::Json))
        }
        Shown::Duties => {
            let release = release_in(alloc, path)?;
            Ok(Request::Ask(Query::Duties { release }, Shape::Json))
        }
        Shown::Totals => {
            let release = release_in(alloc, path)?;
            Ok(Request::Ask(Query::Totals { release }, Shape::Json))
        }
        Shown::Notices => {
            let release = release_in(alloc, path)?;
            Ok(Request::Ask(Query::Bill { release }, Shape::Notices))
        }
        Shown::DutyTable => {
            let release = release_in(alloc, path)?;
            Ok(Request::Ask(Query::Duties { release }, Shape::Csv))
        }
    }
}

fn route_request(
    alloc: Global,
    route: Option<Route>,
    path: &str,
    body: &[u8],
) -> Result<Request, AllocError>
    ensures { IfOk result (λ r. r ≡ route_request route path.now body.now) }
{
    match route {
        None => Ok(Request::NoRoute),
        Some(Route::Post(what)) => posted_request(alloc, what, body),
        Some(Route::Get(what)) => shown_request(alloc, what, path),
    }
}

/// What a method, a target and a body ask for.
pub fn request_of(
    alloc: Global,
    routes: &mut RouteTable,
    method: &[u8],
    target: &[u8],
    body: &[u8],
) -> Result<Request, AllocError>
    ensures { IfOk result (λ r. r ≡ request_for method.now target.now body.now) }
{
    let Some(target) = text_of(target) else {
        return Ok(Request::NoRoute);
    };
    let path = path_of(target);
    let route = routes.route_of(alloc, method, path)?;
    route_request(alloc, route, path, body)
}

/// The request that bytes begin with.
pub fn request(alloc: Global, bytes: &[u8]) -> Result<Reading<'_>, AllocError>
    ensures { IfOk result (λ reading. (f : Framed) × IsFraming bytes.now f × Shows reading f) }
{
    match frame(bytes) {
        Framing::Part(_) => Ok(Reading::Part),
        Framing::Bad(status) => Ok(Reading::Bad(status)),
        Framing::Whole {
            method,
            target,
            body,
            rest,
        } => {
            let mut routes = RouteTable::new();
            let request = request_of(alloc, &mut routes, method, target, body)?;
            Ok(Reading::Whole(request, rest))
        }
    }
}
