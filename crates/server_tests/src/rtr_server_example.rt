use rtr_ends::{Cache, Timing};
use rtr_server::{CloseReason, Duplex, Server, Turn};
use std::test::Fail;
use vrps::{VersionLog, VrpSet};

#[test]
fn a_client_is_served_until_its_bytes_end(rt: HostRuntime) -> Result<(), Fail> {
    let store = VersionLog::new(rt.alloc(), 4660, 5, 16)?;
    let mut cache = Cache::new(rt.alloc(), store, Timing::default());
    cache.publish(VrpSet::empty(rt.alloc()))?;
    let mut server = Server::new(rt.alloc(), cache, 256);
    let query: &[u8] = &[1, 2, 0, 0, 0, 0, 0, 8];
    let output = Vec::new(rt.alloc());
    let client = server.admit(Duplex {
        input: query,
        output,
    })?;
    assert!(rt; server.serve(client, 64) == Some(Turn::Gone(CloseReason::PeerClosed)));
    assert!(rt; server.clients() == 0);
    Ok(())
}
