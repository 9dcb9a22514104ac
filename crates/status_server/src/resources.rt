//! The resources, and their paths.
ghost use Rattle.std.specs.Prelude.{◌≡◌, ℕ, List, IfSome, IfNone};
ghost use Rattle.status_server.specs.Resources.{path_of, route_path};

/// The resources that have a path of their own.
#[derive(Clone, Copy, Debug, PartialEq, Eq)]
pub(crate) enum Resource {
    /// The status page.
    Status,
    /// The metrics.
    Metrics,
    /// Whether the cache is healthy.
    Health,
    /// Whether routers can be sent to the cache.
    Ready,
    /// Whether the daemon's loop turns.
    Live,
    /// The status as JSON, under the path of Routinator.
    ApiStatus,
    /// The export.
    Export,
    /// The export under the path of StayRTR.
    StayRtrExport,
    /// The export in the form of Routinator.
    RoutinatorExport,
    /// The payload list.
    List,
    /// The records as CSV.
    Csv,
    /// The records as CSV, in the form of Routinator.
    RoutinatorCsv,
    /// The validity of the route of the query.
    Validity,
}

/// The paths, for those who ask for another.
pub(crate) const PATHS: &str =
    "not found; resources: /, /metrics, /health, /ready, /live, /vrps.json, /rpki.json, /json, /list.json, /vrps.csv, /csv, /validity, /api/v1/status and /api/v1/validity/NUMBER/PREFIX\n";

/// The resource of a path.
pub(crate) fn resource_at(path: &str) -> Option<Resource>
    ensures some { IfSome result (λ r. path.now ≡ path_of r) }
    ensures none { IfNone result ((r : Resource) → ¬ (path.now ≡ path_of r)) }
{
    match path {
        "/" => Some(Resource::Status),
        "/metrics" => Some(Resource::Metrics),
        "/health" => Some(Resource::Health),
        "/ready" => Some(Resource::Ready),
        "/live" => Some(Resource::Live),
        "/api/v1/status" => Some(Resource::ApiStatus),
        "/vrps.json" => Some(Resource::Export),
        "/rpki.json" => Some(Resource::StayRtrExport),
        "/json" => Some(Resource::RoutinatorExport),
        "/list.json" => Some(Resource::List),
        "/vrps.csv" => Some(Resource::Csv),
        "/csv" => Some(Resource::RoutinatorCsv),
        "/validity" => Some(Resource::Validity),
        _ => None,
    }
}

/// The end of the path of a route's validity: the AS number and the prefix.
pub(crate) fn route_in(path: &str) -> Option<&str>
    ensures some { IfSome result (λ rest. path.now ≡ route_path rest.now) }
    ensures none { IfNone result ((rest : List ℕ) → ¬ (path.now ≡ route_path rest)) }
{
    path.strip_prefix("/api/v1/validity/")
}
