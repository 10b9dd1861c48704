//! Which call a request is for.

ghost use Rattle.std.specs.Prelude.{◌≡◌, MatchResult};
ghost use Rattle.call_paths.specs.Path.{takes, serves, IsRouted, IsRouteFault};

use crate::read::read_path;
use b2_types::{ApiVersion, Target};
use rule_table::{CallName, FaultKind};

/// A call, the version under which it is made, and what its path names.
#[derive(Clone, Copy, Debug, PartialEq, Eq)]
pub struct Route {
    pub name: CallName,
    pub version: ApiVersion,
    pub target: Target,
}

// The calls that are served; any other is none yet.
fn is_served(version: ApiVersion, name: CallName) -> bool
    ensures { result ≡ serves version name }
{
    match (version, name) {
        (ApiVersion::V3, CallName::AuthorizeAccount) => true,
        _ => false,
    }
}

fn takes_method(name: CallName, method: &[u8]) -> bool
    ensures { result ≡ takes name method.now }
{
    match name {
        CallName::AuthorizeAccount => (method == b"GET".as_slice())
            | (method == b"POST".as_slice()),
        CallName::DownloadFileById | CallName::DownloadFileByName => method == b"GET".as_slice(),
        _ => method == b"POST".as_slice(),
    }
}

/// The call that a request with this method and path is for, or why it is for none.
pub fn route_of(method: &[u8], path: &[u8]) -> Result<Route, FaultKind>
    ensures { MatchResult result (IsRouted method.now path.now)
        (IsRouteFault method.now path.now) }
{
    let Some(route) = read_path(path) else {
        return Err(FaultKind::NoCall);
    };
    if !is_served(route.version, route.name) {
        return Err(FaultKind::NoCall);
    }
    if takes_method(route.name, method) {
        Ok(route)
    } else {
        Err(FaultKind::BadMethod)
    }
}
