use rtr_ends::{Cache, Router, Timing};
use rtr_pdu::Version;
use vrps::{Serial, VersionLog, VrpSet};

#[test]
fn a_router_gets_what_a_cache_published(rt: HostRuntime) {
    let store = VersionLog::new(rt.alloc(), 4660, 5, 16).expect(&rt, "no fault");
    let mut cache = Cache::new(rt.alloc(), store, Timing::default());
    cache
        .publish(VrpSet::empty(rt.alloc()))
        .expect(&rt, "no fault");
    let conn = cache.open().expect(&rt, "no fault");
    let mut router = Router::new(rt.alloc());
    router.connect(0);
    let mut bytes = [0; 64];
    let asked = router.pull(&mut bytes);
    cache.receive(conn, &bytes[..asked]);
    let sent = cache.pull(conn, &mut bytes);
    router.receive(&bytes[..sent], 0);
    assert!(rt; router.committed() == Some((Version::V1, 4660, Serial(5))));
    let change = router
        .last_change()
        .expect(&rt, "no fault")
        .ok_or("nothing is committed")
        .expect(&rt, "no fault");
    assert!(rt; change.announce.is_empty() && change.withdraw.is_empty());
}
