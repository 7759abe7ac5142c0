//! The table of routes.

ghost use Rattle.std.specs.Prelude.{◌≡◌, [], IfOk, unwrap_or};
ghost use Rattle.desk_http.specs.Routes.{desk_routes, method_of, found_at, route_of, with_method, with_rows};

use matchit::{InsertError, Router};
use std::alloc::{AllocError, Global};

/// What a path leads to: with POST a request in the body, with GET an answer.
#[derive(Clone, Copy)]
pub enum Route {
    /// With POST: a request, made from the body.
    Post(Posted),
    /// With GET: an answer to a question made from the path.
    Get(Shown),
}

/// What a posted body is.
#[derive(Clone, Copy)]
pub enum Posted {
    /// A command or a query as JSON.
    Request,
    /// A document to be imported.
    Document,
    /// A catalogue to be loaded.
    Catalogue,
}

/// What is shown.
#[derive(Clone, Copy)]
pub enum Shown {
    /// The findings of a document.
    Findings,
    /// The minimal sets of terms for a package.
    Alternatives,
    /// The cheapest of these sets in a form.
    Cheapest,
    /// A release, with the packages that it ships.
    Release,
    /// The duties of a release, as JSON.
    Duties,
    /// How many duties of a release are in each state.
    Totals,
    /// The notices of a release, as a text.
    Notices,
    /// The duties of a release, as comma-separated values.
    DutyTable,
    /// The changes of a duty.
    Changes,
}

/// A path, with a name in braces for each segment that may be anything, and what it leads to.
struct RouteRow {
    path: &'static str,
    route: Route,
}

const ROUTES: [RouteRow; 12] = [
    RouteRow {
        path: "/commands",
        route: Route::Post(Posted::Request),
    },
    RouteRow {
        path: "/documents",
        route: Route::Post(Posted::Document),
    },
    RouteRow {
        path: "/catalogue",
        route: Route::Post(Posted::Catalogue),
    },
    RouteRow {
        path: "/documents/{n}/findings",
        route: Route::Get(Shown::Findings),
    },
    RouteRow {
        path: "/documents/{n}/packages/{id}/alternatives",
        route: Route::Get(Shown::Alternatives),
    },
    RouteRow {
        path: "/documents/{n}/packages/{id}/cheapest/{form}",
        route: Route::Get(Shown::Cheapest),
    },
    RouteRow {
        path: "/releases/{name}",
        route: Route::Get(Shown::Release),
    },
    RouteRow {
        path: "/releases/{name}/duties",
        route: Route::Get(Shown::Duties),
    },
    RouteRow {
        path: "/releases/{name}/totals",
        route: Route::Get(Shown::Totals),
    },
    RouteRow {
        path: "/releases/{name}/notices",
        route: Route::Get(Shown::Notices),
    },
    RouteRow {
        path: "/releases/{name}/duties.csv",
        route: Route::Get(Shown::DutyTable),
    },
    RouteRow {
        path: "/duties/{n}/changes",
        route: Route::Get(Shown::Changes),
    },
];

fn router_of(alloc: Global, rows: &[RouteRow]) -> Result<Router<Route>, InsertError>
    ensures { IfOk result (λ r. r ≡ with_rows rows.now []) }
{
    let mut routes = Router::new(alloc);
    for row in rows {
        routes.insert(row.path, row.route)?;
    }
    Ok(routes)
}

// Each row of this table can be added, so only memory can run out.
fn routes(alloc: Global) -> Result<Router<Route>, AllocError>
    ensures { IfOk result (λ r. r ≡ desk_routes) }
{
    match router_of(alloc, &ROUTES) {
        Ok(routes) => Ok(routes),
        Err(_) => Err(AllocError),
    }
}

impl Route {
    /// The method of a route.
    fn method(self) -> &'static str
        ensures { result.now ≡ method_of self }
    {
        match self {
            Route::Post(_) => "POST",
            Route::Get(_) => "GET",
        }
    }
}

/// What a path leads to.
fn found_at(routes: &Router<Route>, path: &str) -> Option<Route>
    ensures { result ≡ found_at routes.now path.now }
{
    match routes.at(path) {
        Ok(found) => Some(*found.value),
        Err(_) => None,
    }
}

// What was found, if this is its method.
fn with_method(method: &[u8], found: Option<Route>) -> Option<Route>
    ensures { result ≡ with_method method.now found }
{
    let route = found?;
    if method == route.method().as_bytes() {
        Some(route)
    } else {
        None
    }
}

/// The table of routes. It is made when a path is looked up for the first time, and kept: making it
/// takes hundreds of times as long as looking up a path.
#[derive(Drop)]
pub struct RouteTable {
    routes: Option<Router<Route>>,
    ghost whole: { unwrap_or routes desk_routes ≡ desk_routes },
}

impl RouteTable {
    /// A table that hasn't been made yet.
    pub const fn new() -> RouteTable {
        RouteTable { routes: None }
    }

    /// What a method and a path ask for, if anything.
    pub fn route_of(
        &mut self,
        alloc: Global,
        method: &[u8],
        path: &str,
    ) -> Result<Option<Route>, AllocError>
        ensures { IfOk result (λ route. route ≡ route_of method.now path.now) }
    {
        if let Some(routes) = &self.routes {
            return Ok(with_method(method, found_at(routes, path)));
        }
        let routes = routes(alloc)?;
        let route = with_method(method, found_at(&routes, path));
        *self = RouteTable {
            routes: Some(routes),
        };
        Ok(route)
    }
}
