//! Which request a method and a target are: a new route is a row here, and what `request` reads for it.

ghost use Rattle.std.specs.Prelude.{◌≡◌, IsUtf8, IfOk, map, option_map};
ghost use Rattle.office_wire.specs.declared.method.Method.TheVariants.{Get, Post};
ghost use Rattle.office_wire.specs.Routes.{RouteRow, routes, router_by, router_of, row_in, route_of};

use crate::method::Method;
use matchit::{InsertError, Router};
use std::alloc::Global;
use std::str::from_utf8;

/// What is asked by a method and a target.
#[derive(Clone, Copy, PartialEq, Eq)]
pub(crate) enum Route {
    /// To update a zone.
    Update,
    /// To delegate a child of a zone.
    Delegate,
    /// What a zone delegates.
    Delegations,
    /// The records of a zone.
    Records,
    /// Those within a name.
    RecordsWithin,
    /// The records of a zone as a master file.
    File,
    /// The changes of a zone.
    Changes,
    /// What the policy decides.
    Rights,
}

/// The routes: a method, a path with the names of its parts in braces, and what is asked.
pub(crate) static ROUTES: [(Method, &str, Route); 8] = [
    (Method::Post, "/zones/{zone}/updates", Route::Update),
    (Method::Post, "/zones/{zone}/delegations", Route::Delegate),
    (Method::Get, "/zones/{zone}/delegations", Route::Delegations),
    (Method::Get, "/zones/{zone}/records", Route::Records),
    (
        Method::Get,
        "/zones/{zone}/records/{name}",
        Route::RecordsWithin,
    ),
    (Method::Get, "/zones/{zone}/file", Route::File),
    (Method::Get, "/zones/{zone}/changes/{from}", Route::Changes),
    (Method::Get, "/rights/{name}/{type}/{action}", Route::Rights),
];

/// A route that was found: what is asked, and the path of its row.
#[derive(Clone, Copy)]
pub(crate) struct Found {
    pub(crate) route: Route,
    pub(crate) path: &'static str,
}

/// The numbers of the rows of each method.
#[derive(Drop)]
pub(crate) struct Routes {
    posts: Router<usize>,
    gets: Router<usize>,
    ghost posts_are: { posts ≡ router_of Post },
    ghost gets_are: { gets ≡ router_of Get },
}

/// The routes, as a slice.
fn all_routes() -> &'static [(Method, &'static str, Route)]
    ensures { map (λ r. record { method = r.0; path = r.1.now; route = r.2 }) result.now ≡ routes }
{
    &ROUTES
}

/// The numbers of the rows of a method.
fn router_of(
    alloc: Global,
    method: Method,
    table: &[(Method, &'static str, Route)],
) -> Result<Router<usize>, InsertError>
    ensures { IfOk result (λ router. router ≡ router_by method (map (λ r. record { method = r.0; path = r.1.now; route = r.2 }) table.now)) }
{
    let mut router = Router::new(alloc);
    for (number, row) in table.iter().enumerate() {
        if row.0 == method {
            router.insert(row.1, number)?;
        }
    }
    Ok(router)
}

/// The row of a path.
fn row_in(router: &Router<usize>, path: &str) -> Option<Found>
    ensures { option_map (λ r. (r.route, r.path.now)) result ≡ row_in router.now path.now }
{
    match router.at(path) {
        Ok(found) => match all_routes().get(*found.value) {
            Some(row) => Some(Found {
                route: row.2,
                path: row.1,
            }),
            None => None,
        },
        Err(_) => None,
    }
}

impl Routes {
    /// All of them. The only error is out of memory.
    pub(crate) fn new(alloc: Global) -> Result<Routes, InsertError> {
        Ok(Routes {
            posts: router_of(alloc, Method::Post, all_routes())?,
            gets: router_of(alloc, Method::Get, all_routes())?,
        })
    }

    /// The route of a target, by the method.
    pub(crate) fn find(&self, method: Method, target: &[u8]) -> Option<Found>
        requires { IsUtf8 target.now }
        ensures { option_map (λ r. (r.route, r.path.now)) result ≡ route_of method target.now }
    {
        if target.contains(&b'?') {
            return None;
        }
        let Ok(path) = from_utf8(target) else {
            unreachable!()
        };
        match method {
            Method::Post => row_in(&self.posts, path),
            Method::Get => row_in(&self.gets, path),
            Method::Head | Method::Other => None,
        }
    }
}
