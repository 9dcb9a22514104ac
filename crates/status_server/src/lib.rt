//! The status pages of a cache over HTTP/1.1, for clients over non-blocking streams.
//!
//! For example, where `rt` is the runtime that `main` is handed:
//!
//! ```rust
//! use status_server::{HttpConnections, IDLE_MILLIS};
//! use std::hash::RandomState;
//! use std::io;
//! use std::io::{ErrorKind, Read, Write};
//!
//! /// A stream that never has a byte.
//! #[derive(Drop)]
//! struct Silent;
//!
//! impl Read for Silent {
//!     fn read(&mut self, _buf: &mut [u8]) -> io::Result<usize> {
//!         Err(io::Error::from(ErrorKind::WouldBlock))
//!     }
//! }
//!
//! impl Write for Silent {
//!     fn write(&mut self, buf: &[u8]) -> io::Result<usize> {
//!         Ok(buf.len())
//!     }
//!
//!     fn flush(&mut self) -> io::Result<()> {
//!         Ok(())
//!     }
//! }
//!
//! let mut connections = HttpConnections::new(rt.alloc(), RandomState::new(&rt)?);
//! connections.admit(7, Silent, 0)?;
//! connections.expire(IDLE_MILLIS - 1);
//! assert!(rt; connections.has(7));
//! connections.expire(IDLE_MILLIS);
//! assert!(rt; connections.is_empty());
//! ```
#![tactic(auto)]

mod answers;
mod conditions;
mod host;
mod http_connection;
mod http_connections;
mod http_endpoint;
mod http_sockets;
pub mod laws;
mod list_forms;
mod plan;
mod representations;
mod resources;
mod responses;
mod status_endpoint;
mod status_source;
mod version_cache;

pub use host::is_served_host;
pub use http_connection::HttpProgress;
pub use http_connections::{
    CONNECTION_MILLIS, HttpAdmitFault, HttpConnections, IDLE_MILLIS, MAX_CONNECTIONS,
};
pub use http_endpoint::HttpEndpoint;
pub use http_sockets::{HttpAccept, HttpReady, HttpSockets};
pub use list_forms::ListForm;
pub use status_endpoint::{CachePlace, CacheView, StatusEndpoint};
pub use status_source::StatusSource;
pub use version_cache::VersionCache;
