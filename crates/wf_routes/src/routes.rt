//! The router.

ghost use Rattle.std.specs.Prelude.{◌≡◌, IfOk, OnOk, option_map};
ghost use Rattle.matchit.specs.Route.{parse_route};
ghost use Rattle.wf_routes.specs.Asked.{allow_text, asked};
ghost use Rattle.wf_routes.specs.Made.{router_rows, with_path};
ghost use Rattle.wf_routes.specs.Paths.{path_of};
ghost use Rattle.wf_routes.specs.Table.{path_row};

use crate::faults::{NoMemory, Unrouted};
use crate::table::{Path, Route};
use matchit::Router;
use std::alloc::Global;

/// The router of the table's paths, made once for many requests.
#[derive(Drop)]
pub struct Routes {
    router: Router<Path>,
    ghost made: { router ≡ router_rows },
}

// Puts a path's pattern into the router. The table's patterns go together, so that only memory can
// be wanting.
fn put(router: &mut Router<Path>, path: Path) -> Result<(), NoMemory>
    ensures { OnOk result
        (router.new ≡ with_path (parse_route (path_row path).pattern) path router.old) }
{
    match router.insert(path.row().pattern, path) {
        Ok(()) => Ok(()),
        Err(_) => Err(NoMemory),
    }
}

fn router_made(alloc: Global) -> Result<Router<Path>, NoMemory>
    ensures { IfOk result (λ router. router ≡ router_rows) }
{
    let mut router = Router::new(alloc);
    for path in &Path::ALL {
        put(&mut router, *path)?;
    }
    Ok(router)
}

impl Routes {
    /// The router of the table's paths.
    pub fn new(alloc: Global) -> Result<Routes, NoMemory> {
        let router = router_made(alloc)?;
        Ok(Routes { router })
    }

    /// The path of the table that a request's path is.
    pub fn find(&self, text: &str) -> Option<Path>
        ensures { result ≡ path_of text.now }
    {
        match self.router.at(text) {
            Ok(found) => Some(*found.value),
            Err(_) => None,
        }
    }

    /// What a request's path and method ask for. Methods are compared byte for byte.
    pub fn route(&self, text: &str, method: &[u8]) -> Result<Route, Unrouted>
        ensures { result ≡ asked (path_of text.now) method.now }
    {
        match self.find(text) {
            Some(path) => path.route(method).ok_or(Unrouted::BadMethod),
            None => Err(Unrouted::NoRoute),
        }
    }

    /// The methods of a request's path, as the field `Allow` lists them.
    pub fn allow(&self, text: &str) -> Option<&'static str>
        ensures { option_map (λ allow. allow.now) result
            ≡ option_map (λ path. allow_text (path_row path).calls) (path_of text.now) }
    {
        match self.find(text) {
            Some(path) => Some(path.allow()),
            None => None,
        }
    }
}
