//! Laws of the definitions. These functions do nothing: their contracts are the laws.
ghost use Rattle.session_names.specs.Runs.{RestartAtOnceIsLater, RestartIsLater};

/// Law, for two runs of a cache, the second after a restart: by RFC 1982 each serial of the second is later than each serial of the first. So a
/// restart makes no router drop its data (RFC 8210 section 5.1). Times are seconds since 1970.
///
/// Each run publishes at most one version a second. Its first serial is the second of its start modulo 2^32.
/// The second run publishes only within 2^31 seconds of the start of the first.
/// `later`: this holds if the second run starts in a later second than each version of the first.
/// `at_once`: it also holds if it starts in the second of the last version, if both runs publish only after the second of their start.
pub fn restart_is_later()
    ensures later { RestartIsLater }
    ensures at_once { RestartAtOnceIsLater }
{}
