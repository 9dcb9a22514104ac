//! The status pages of a cache: its view as their source, and their HTTP endpoint.
ghost use Rattle.std.specs.Prelude.{◌≡◌, Option, [], true, option_copied, option_map};
ghost use Rattle.std.specs.String.{string_bytes};
ghost use Rattle.status_server.specs.Connections.{wait_of};
ghost use Rattle.status_server.specs.Versions.{IsUnused, ShowsVersion, shown_in, version_of};
ghost use Rattle.vrps.specs.Instance.{NumberedSet};

use crate::http_endpoint::{BUDGET, HttpEndpoint};
use crate::http_sockets::HttpSockets;
use crate::list_forms::ListForm;
use crate::status_source::StatusSource;
use crate::version_cache::VersionCache;
use bytes::Bytes;
use prefixes::Route;
use status_pages::{LostLines, Status, Validity};
use std::alloc::{AllocError, Global};
use std::fmt::{self, Debug};
use std::hash::RandomState;
use std::io::{Read, Write};
use std::net::SocketAddr;
use vrps::{Serial, VrpSet};

/// What the endpoint reads of a cache.
pub trait CacheView {
    /// What its current version may be. Contracts that cite it hold for each such relation.
    ghost versions: { Self → Option NumberedSet → Type 0 } = { λ view version. Unit {0} };

    /// Returns the status at `now`, in seconds since 1970. `millis` is the time in milliseconds of a monotonic clock. The endpoint fills in the
    /// host, the addresses and the lost log lines. `Err`: out of memory.
    fn status(&self, now: u64, millis: u64) -> Result<Status, AllocError>;

    /// Returns the serial and the set of the current version. `None`: no version is published yet.
    fn current(&self) -> Option<(Serial, &VrpSet)>
        ensures { versions self.now (version_of result) };
}

/// The host and the addresses of a cache, as its status page shows them.
#[derive(Debug, Drop)]
pub struct CachePlace {
    /// The name of the host. `None`: it is not known.
    pub host: Option<String>,
    /// The addresses and ports at which routers connect.
    pub addresses: Vec<SocketAddr>,
}

impl CachePlace {
    /// Writes the place into a status.
    fn write_to(&self, alloc: Global, status: &mut Status) -> Result<(), AllocError> {
        status.host = match &self.host {
            Some(host) => Some(String::from_str(alloc, host.as_str())?),
            None => None,
        };
        status.addresses = self.addresses.as_slice().to_vec(alloc)?;
        Ok(())
    }
}

/// The HTTP endpoint of a cache, and what its responses share.
#[derive(Drop)]
pub struct StatusEndpoint<T> {
    alloc: Global,
    place: CachePlace,
    http: HttpEndpoint<T>,
    /// The name by which clients may call it, besides addresses.
    name: Option<String>,
    version_cache: VersionCache,
}

/// How many connections there are.
impl<T> Debug for StatusEndpoint<T> {
    fn fmt<W: fmt::Write>(&self, f: &mut fmt::Formatter<W>) -> fmt::Result {
        write!(f, "StatusEndpoint({:?})", self.http)
    }
}

/// A cache at one time, with its version at that time.
#[derive(Drop)]
struct Snapshot<'a, V> {
    alloc: Global,
    place: &'a CachePlace,
    view: &'a V,
    version: Option<(Serial, &'a VrpSet)>,
    version_cache: &'a mut VersionCache,
    lost: LostLines,
    now: u64,
    millis: u64,
}

impl<V: CacheView> StatusSource for Snapshot<'_, V> {
    ghost shows = { λ s. shown_in (version_of s.version) s.version_cache.now };

    fn now(&mut self) -> u64 {
        self.now
    }

    fn status(&mut self) -> Result<Status, AllocError> {
        let mut status = self.view.status(self.now, self.millis)?;
        self.place.write_to(self.alloc, &mut status)?;
        status.log_lines_lost = self.lost;
        Ok(status)
    }

    fn list(&mut self, form: ListForm) -> Result<Option<Bytes>, AllocError> {
        self.version_cache.list(self.version, form)
    }

    fn validity(&mut self, route: &Route) -> Result<Option<Validity>, AllocError> {
        self.version_cache.validity(self.version, route)
    }
}

/// The text of a name.
fn text_of(name: &Option<String>) -> Option<&str>
    ensures { option_copied result ≡ option_map string_bytes name.now }
{
    match name {
        Some(name) => Some(name.as_str()),
        None => None,
    }
}

impl<T: Read + Write + Drop> StatusEndpoint<T> {
    /// Creates an endpoint without connections. `place` is shown on the page. `name` is the configured host name that requests may name, besides
    /// IP addresses and `localhost`. `None`: there is no such name.
    ///
    /// Clients choose the names of headers, so `keys` must be random.
    pub fn new(
        alloc: Global,
        keys: RandomState,
        place: CachePlace,
        name: Option<String>,
    ) -> StatusEndpoint<T>
        ensures http { result.http ≡ ([], true) }
        ensures name { result.name ≡ name }
        ensures kept { IsUnused result.version_cache }
    {
        StatusEndpoint {
            alloc,
            place,
            http: HttpEndpoint::new(alloc, keys),
            name,
            version_cache: VersionCache::new(alloc),
        }
    }

    /// Runs one turn of the endpoint: accepts connections, serves requests, and removes connections that are closed or timed out. The pages show
    /// `view`.
    /// `now` is in seconds since 1970, and `millis` in milliseconds of a monotonic clock. `lost` has the numbers of lines that the log dropped and
    /// suppressed.
    pub fn turn<N: HttpSockets<T>, V: CacheView>(
        &mut self,
        now: u64,
        millis: u64,
        lost: LostLines,
        view: &V,
        sockets: &mut N,
    )
        ensures { ShowsVersion T.remaining T.contents (V.versions view.now) self.old.version_cache (option_map string_bytes self.old.name) millis BUDGET self.old.http.0 self.new.http.0 }
    {
        let version = view.current();
        self.version_cache.drop_old(version);
        let mut snapshot = Snapshot {
            alloc: self.alloc,
            place: &self.place,
            view,
            version,
            version_cache: &mut self.version_cache,
            lost,
            now,
            millis,
        };
        let name = text_of(&self.name);
        self.http.turn(millis, sockets, &mut snapshot, name);
    }

    /// Returns how long the next turn may wait, in milliseconds. 0: a connection is busy. 1,000: a connection is open, or another may have to be
    /// accepted.
    /// Otherwise `u64::MAX`.
    pub fn wait_limit(&self) -> u64
        ensures { result ≡ wait_of self.now.http.0 self.now.http.1 }
    {
        self.http.wait_limit()
    }
}
