//! The system's tables of TCP connections (proc(5): `/proc/net/tcp` and `/proc/net/tcp6`), and which of their connections are lost.
//!
//! For example, where `rt` is the runtime that `main` is handed:
//!
//! ```rust
//! use std::net::SocketAddr;
//! use tcp_table::{Endpoint, bytes_of, unanswered};
//!
//! let table = b"   0: 0100007F:0CFB 0200007F:9C40 01 0000000C:00000000 01:00000014 00000003\n";
//! let lines = unanswered(rt.alloc(), table)?;
//! let local = Endpoint::of(SocketAddr::from(([127, 0, 0, 1], 3323)));
//! let remote = Endpoint::of(SocketAddr::from(([127, 0, 0, 2], 40_000)));
//! assert!(rt; bytes_of(lines.as_slice(), &local, &remote) == Some(12));
//! ```
#![tactic(auto)]

mod endpoint;
mod line;
mod lines;
mod loss;

pub use endpoint::Endpoint;
pub use line::TcpLine;
pub use lines::{bytes_of, unanswered};
pub use loss::{Unanswered, is_lost, unanswered_after};
