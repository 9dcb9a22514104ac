//! Notifications of a service to systemd (sd_notify(3)): the address of the notification socket, and when the watchdog is signalled.
//!
//! For example, where `rt` is the runtime that `main` is handed:
//!
//! ```rust
//! use sd_notify::{Watchdog, socket_address};
//!
//! let address = socket_address(rt.alloc(), "@manager")?.ok_or("no address")?;
//! assert!(rt; address.as_slice() == b"\x01\x00\x00manager".as_slice());
//! let mut watchdog = Watchdog::new(30_000_000, 0);
//! assert!(rt; watchdog.wait_limit(5000) == 10_000);
//! assert!(rt; !watchdog.take_signal(14_999));
//! assert!(rt; watchdog.take_signal(15_000));
//! ```
#![tactic(auto)]

mod addresses;
mod manager;
mod notifier;
mod watchdog;

pub use addresses::socket_address;
pub use manager::{OpenNotifySocket, service_manager};
pub use notifier::{Notifier, NotifySocket, enabled_watchdog};
pub use watchdog::Watchdog;
