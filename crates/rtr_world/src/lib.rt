//! One cache, its routers and the wires between them: what holds after every list of events (RFC 8210).
//!
//! For example, where `rt` is the runtime that `main` is handed:
//!
//! ```rust
//! use rtr_pdu::Version;
//! use rtr_world::{Event, World};
//! use vrps::{Serial, VrpSet};
//!
//! let mut world = World::new(rt.alloc(), 1, 4660, 4660, 5, 16)?;
//! world.step(&Event::Publish(VrpSet::empty(rt.alloc())))?;
//! world.catch_up(0)?;
//! assert!(rt; world.committed(0) == Some((Version::V1, 4660, Serial(5))));
//! ```
#![tactic(auto)]

mod event;
pub mod laws;
mod side;
mod side_bytes;
mod side_cleanup;
mod wire;
mod world;

pub use event::{CatchFault, Event, SideEvent, WorldFault};
pub use world::World;
