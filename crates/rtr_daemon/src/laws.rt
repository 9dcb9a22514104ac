//! Laws of the definitions. These functions do nothing: their contracts are the laws.
ghost use Rattle.rtr_daemon.specs.Pacing.{DropsLater, DropsPaced, RestartsLater, StaysPaced};

/// Law: if a daemon publishes only when [`Pace::may_publish`](session_names::Pace::may_publish) lets it, each version is of a later second
/// since 1970 than the one before. The first is of a later second than the start. This stays so if all versions are dropped.
///
/// By RFC 1982 the serial of a new version is later than each serial that was dropped, if fewer than 2^31 versions lie between them. It is
/// later than each serial of the daemon that ran before, if two conditions hold. This daemon started in the second of that one's last version
/// or later. It publishes less than 2^31 seconds after that one started.
pub fn versions_are_paced()
    ensures stays { StaysPaced }
    ensures drops { DropsPaced }
    ensures dropped { DropsLater }
    ensures restarts { RestartsLater }
{}
