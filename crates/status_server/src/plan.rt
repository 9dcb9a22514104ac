//! What answers a request.
ghost use Rattle.std.specs.Prelude.{◌↔◌, IsTrue, option_copied};
ghost use Rattle.http.specs.Request.{head_of};
ghost use Rattle.status_server.specs.Plans.{IsRead, IsRoute, PlansServed, PlansSo};

use crate::host::{HostFault, check_host};
use crate::resources::{Resource, resource_at, route_in};
use bytes::Bytes;
use http::Request;

/// What answers a request.
#[derive(Clone, Copy, Debug, PartialEq, Eq)]
pub(crate) enum Plan {
    /// A refusal: it has not one Host.
    InvalidHost,
    /// A refusal: its host is not served.
    NotServed,
    /// A refusal: nothing is at its path.
    NotFound,
    /// A refusal: its method is neither GET nor HEAD.
    NotAllowed,
    /// A resource with a path of its own.
    Resource(Resource),
    /// The validity of the route that its path names.
    Route,
}

/// Plans the answer to a request, if this name is served besides addresses.
pub(crate) fn plan_of(request: &Request<Bytes>, name: Option<&str>) -> Plan
    ensures { PlansSo (option_copied name.entry) (head_of request.now) result }
{
    match check_host(request, name) {
        Err(HostFault::Invalid) => Plan::InvalidHost,
        Err(HostFault::NotServed) => Plan::NotServed,
        Ok(()) => plan_served(request),
    }
}

/// Plans the answer to a request whose host is served.
fn plan_served(request: &Request<Bytes>) -> Plan
    ensures { PlansServed (head_of request.now) result }
{
    let path = request.uri().path();
    if let Some(resource) = resource_at(path) {
        if !is_read(request) {
            return Plan::NotAllowed;
        }
        return Plan::Resource(resource);
    }
    if !is_route(path) {
        return Plan::NotFound;
    }
    if !is_read(request) {
        return Plan::NotAllowed;
    }
    Plan::Route
}

/// Whether the method of a request is GET or HEAD.
fn is_read(request: &Request<Bytes>) -> bool
    ensures { IsTrue result ↔ IsRead (head_of request.now).method }
{
    matches!(request.method().as_str(), "GET" | "HEAD")
}

/// Whether the path is that of the validity of a route.
fn is_route(path: &str) -> bool
    ensures { IsTrue result ↔ IsRoute path.now }
{
    match route_in(path) {
        Some(_) => true,
        None => false,
    }
}
