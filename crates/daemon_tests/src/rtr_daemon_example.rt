use rtr_daemon::{CacheSettings, Service};
use rtr_ends::Timing;
use rtr_server::Duplex;
use session_names::SessionIds;
use sources::Sources;
use std::test::Fail;
use vrps::VersionLog;

#[test]
fn what_is_taken_is_owed_and_published(rt: HostRuntime) -> Result<(), Fail> {
    let settings = CacheSettings {
        keep: 16,
        timing: Timing::default(),
        clients: 256,
    };
    let ids = SessionIds {
        session: 4660,
        session0: 4660,
        serial: 5,
    };
    let sources = Sources::new(rt.alloc(), 1)?;
    let mut service: Service<VersionLog, Duplex<&[u8], Vec<u8>>> = Service::new(
        rt.alloc(),
        settings,
        ids,
        sources,
    )?;
    let text = br#"[{"asn":64496,"prefix":"192.0.2.0/24","maxLength":24}]"#;
    service.take_export(0, text, 1_700_000_000)?;
    assert!(rt; service.is_pending());
    let report = service.publish(1_700_000_000)?;
    assert!(rt; report.records == 1);
    assert!(rt; !service.is_pending());
    Ok(())
}
