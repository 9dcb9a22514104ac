//! The version of an upstream's connections (RFC 8210 section 7).
ghost use Rattle.std.specs.Prelude.{◌≡◌, List, if◌then◌else◌, is_some};
ghost use Rattle.rtr_pdu.specs.declared.version.Version.TheVariants.{V0, V1};
ghost use Rattle.rtr_ends.specs.Router as model;
ghost use Rattle.rtr_ends.specs.RouterLaws.{connected_version};
ghost use Rattle.rtr_ends.specs.Seen.{seen_versions};
ghost use Rattle.rtr_ends.specs.Transcript.{is_same, of_version};
ghost use Rattle.rtr_server.specs.Clients.{Begun};
ghost use Rattle.upstreams.specs.Upstreams.{LedTo};
ghost use Rattle.upstreams.specs.Versions.{asks_for_version_0, fallback_at, is_of_version_0, keeps_version_0};

use crate::upstream::Upstream;
use rtr_ends::CommittedVersion;
use rtr_pdu::Version;
use rtr_server::Stream;

/// After how many seconds version 1 is tried again.
const DAY: u64 = 86_400;

/// Which version the connections of an upstream have.
#[derive(Clone, Copy, Debug, PartialEq, Eq)]
pub(crate) struct Fallback {
    /// The version that the caller chose.
    pub(crate) chosen: Version,
    /// Since when the cache has asked for version 0, if that is spoken for this reason.
    pub(crate) since: Option<u64>,
}

impl<T: Stream + Drop> Upstream<T> {
    /// The protocol version of the connection, or of the latest one if there is none; version 1 if there was none. An attempt that failed counts as a
    /// connection.
    pub fn version(&self) -> Version
        ensures { LedTo T.remaining T.contents self.now (λ calls. result ≡ connected_version calls) }
    {
        self.notes().spoken
    }

    /// Whether the cache asks for version 0.
    pub(crate) fn asks_for_version_0(&self) -> bool
        ensures { LedTo T.remaining T.contents self.now (λ calls. result ≡ asks_for_version_0 calls) }
    {
        self.notes().asks_for_version_0()
    }

    /// Whether version 0 is kept, as the cache asked for it.
    fn keeps_version_0(&self, now: u64) -> bool
        ensures { LedTo T.remaining T.contents self.now (λ calls. result ≡ keeps_version_0 now self.now.fallback.since calls) }
    {
        match self.fallback.since {
            None => false,
            Some(since) => {
                is_0(&self.notes().spoken)
                    && now < since.saturating_add(DAY)
                    && has_version_0(&self.router.committed_version())
            }
        }
    }

    /// Whether a connection that is made now is of version 0.
    pub(crate) fn is_of_version_0(&self, now: u64) -> bool
        ensures { LedTo T.remaining T.contents self.now (λ calls. result ≡ is_of_version_0 now self.now.fallback calls) }
    {
        if is_0(&self.fallback.chosen) {
            return true;
        }
        if self.asks_for_version_0() {
            return true;
        }
        self.keeps_version_0(now)
    }

    /// Since when the cache has asked for version 0, if a connection is made now.
    pub(crate) fn fallback_since(&self, now: u64) -> Option<u64>
        ensures { LedTo T.remaining T.contents self.now (λ calls. result ≡ (fallback_at now self.now.fallback calls).since) }
    {
        if self.asks_for_version_0() {
            return Some(now);
        }
        if self.keeps_version_0(now) {
            return self.fallback.since;
        }
        None
    }
}

/// Whether it is version 0.
pub(crate) fn is_0(version: &Version) -> bool
    ensures { result ≡ is_same V0 version.now }
{
    matches!(version, Version::V0)
}

/// Whether this is committed in version 0.
fn has_version_0(committed: &Option<CommittedVersion>) -> bool
    ensures { result ≡ is_some (of_version V0 (seen_versions committed.now)) }
{
    match committed {
        None => false,
        Some(committed) => is_0(&committed.version),
    }
}

/// Version 0, or version 1.
pub(crate) fn version_if(is_0: bool) -> Version
    ensures { result ≡ (if is_0 then V0 else V1) }
{
    if is_0 {
        return Version::V0;
    }
    Version::V1
}
