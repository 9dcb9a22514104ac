use status_server::{HttpConnections, IDLE_MILLIS};
use std::hash::RandomState;
use std::io;
use std::io::{ErrorKind, Read, Write};
use std::test::Fail;

/// A stream that never has a byte.
#[derive(Drop)]
struct Silent;

impl Read for Silent {
    fn read(&mut self, _buf: &mut [u8]) -> io::Result<usize> {
        Err(io::Error::from(ErrorKind::WouldBlock))
    }
}

impl Write for Silent {
    fn write(&mut self, buf: &[u8]) -> io::Result<usize> {
        Ok(buf.len())
    }

    fn flush(&mut self) -> io::Result<()> {
        Ok(())
    }
}

#[test]
fn an_idle_connection_has_30_seconds(rt: HostRuntime) -> Result<(), Fail> {
    let mut connections = HttpConnections::new(rt.alloc(), RandomState::new(&rt)?);
    connections.admit(7, Silent, 0)?;
    connections.expire(IDLE_MILLIS - 1);
    assert!(rt; connections.has(7));
    connections.expire(IDLE_MILLIS);
    assert!(rt; connections.is_empty());
    Ok(())
}
