//! A cache with one version, and a new router that asks it for all, with bytes that go from the one to the other in turns.
ghost use Rattle.std.specs.Prelude.{◌≡◌, ◌≤◌, ℕ, false, List, [], ◌++◌, length, take, IfOk, OnOk};
ghost use Rattle.vrps.specs.Steps.{HoldsSteps};
ghost use Rattle.vrps.specs.VrpSet.{VrpSet, IsVrpSet};
ghost use Rattle.rtr_pdu.specs.Stream.{NoBeginning, WrittenIsRead};
ghost use Rattle.rtr_pdu.specs.declared.unit.Unit.TheVariants.{ResetQuery};
ghost use Rattle.rtr_pdu.specs.declared.version.Version.TheVariants.{V1};
ghost use Rattle.rtr_ends.specs.Answer.{sent};
ghost use Rattle.rtr_ends.specs.ServeStream.{StandsAt};
ghost use Rattle.feed.specs.Feed.{answer_bytes};
ghost use Rattle.feed.specs.Loopback.{GaveAt, HasTable, StartsWithSet, Took, Turned, publishing};

use rtr_ends::laws::{history_splits, router_speaks, serves_history};
use rtr_ends::{Cache, Conn, Router, Timing};
use rtr_pdu::laws::{no_beginning, one_split, written_is_read};
use std::alloc::{AllocError, Global};
use vrps::laws::same_members;
use vrps::{VersionLog, VrpSet};

/// How many bytes go from one end to the other in a turn, at most.
const TURN: usize = 4096;

/// The laws by which PDUs are distinguished in a stream.
fn know_units()
    ensures apart { NoBeginning }
    ensures written { WrittenIsRead }
{
    no_beginning();
    written_is_read();
}

/// A cache that has published this set alone, as serial 0 of session 1, and sends the intervals that RFC 8210 section 6 recommends.
fn cache_with(alloc: Global, set: VrpSet) -> Result<Cache<VersionLog>, AllocError>
    ensures { IfOk result (λ cache. StartsWithSet set cache) }
{
    let _within_limit = set.len();
    let log = VersionLog::new(alloc, 1, 0, 1)?;
    let mut cache = Cache::new(alloc, log, Timing::default());
    let _published = cache.publish(set)?;
    Ok(cache)
}

/// A new router that is connected, and how many bytes its question has, which are in the room then.
fn asking(alloc: Global, room: &mut [u8]) -> (Router, usize)
    requires { 8 ≤ length room.old }
    ensures router { Took [] result.0 }
    ensures question { take result.1 room.new ≡ sent V1 ResetQuery }
    ensures within { result.1 ≤ length room.old }
{
    let mut router = Router::new(alloc);
    router.connect(0);
    let asked = router.pull(room);
    (router, asked)
}

/// Hands a connection of the cache the question of a router.
fn ask(cache: &mut Cache<VersionLog>, conn: &Conn, question: &[u8]) -> Result<(), AllocError>
    ensures { (set : VrpSet) → question.now ≡ sent V1 ResetQuery → StandsAt HoldsSteps (publishing set) conn.now.0 [] cache.old → OnOk result (GaveAt set conn.now.0 [] cache.new) }
{
    if cache.receive(*conn, question) < question.len() {
        return Err(AllocError);
    }
    Ok(())
}

/// Hands a router a piece of what its cache sent.
fn hand_in(router: &mut Router, piece: &[u8]) -> Result<(), AllocError>
    ensures { (wire : List ℕ) → Took wire router.old → OnOk result (Took (wire ++ piece.now) router.new) }
{
    if router.receive(piece, 0) < piece.len() {
        return Err(AllocError);
    }
    Ok(())
}

/// A turn: what is due to the router goes to it, as far as it is no more than 4,096 bytes. Whether there was any.
fn turn(
    cache: &mut Cache<VersionLog>,
    conn: &Conn,
    router: &mut Router,
    wire: &mut Vec<u8>,
) -> Result<bool, AllocError>
    ensures { (set : VrpSet) → GaveAt set conn.now.0 wire.old.items cache.old → Took wire.old.items router.old → IfOk result (λ moved. Turned set conn.now.0 moved wire.new.items cache.new router.new) }
{
    let mut room = [0u8; TURN];
    let ready = cache.pull(*conn, &mut room);
    wire.extend_from_slice(&room[..ready])?;
    hand_in(router, &room[..ready])?;
    Ok(ready > 0)
}

/// Turns until nothing is due: all that the cache sent.
fn turns(
    alloc: Global,
    cache: &mut Cache<VersionLog>,
    conn: &Conn,
    router: &mut Router,
) -> Result<Vec<u8>, AllocError>
    ensures { (set : VrpSet) → GaveAt set conn.now.0 [] cache.old → Took [] router.old → IfOk result (λ wire. Turned set conn.now.0 false wire.items cache.new router.new) }
{
    let mut wire = Vec::new(alloc);
    for _turn in 0..u64::MAX {
        if !turn(cache, conn, router, &mut wire)? {
            return Ok(wire);
        }
    }
    Err(AllocError)
}

/// A new router that has asked a cache with this set for all, and has committed what the cache sent (RFC 8210 section 8.1); and those bytes.
pub(crate) fn fetched(alloc: Global, set: VrpSet) -> Result<(Router, Vec<u8>), AllocError>
    ensures table { IfOk result (λ fetched. HasTable set fetched.0) }
    ensures sent { IfOk result (λ fetched. fetched.1.items ≡ answer_bytes set) }
    ensures within_limit { IfOk result (λ _. IsVrpSet set) }
{
    know_units();
    one_split();
    history_splits();
    serves_history();
    same_members();
    router_speaks();
    let mut cache = cache_with(alloc, set)?;
    let conn = cache.open()?;
    let mut room = [0u8; TURN];
    let (mut router, asked) = asking(alloc, &mut room);
    ask(&mut cache, &conn, &room[..asked])?;
    let wire = turns(alloc, &mut cache, &conn, &mut router)?;
    router.closed(0);
    match router.committed() {
        Some(_) => Ok((router, wire)),
        None => Err(AllocError),
    }
}
