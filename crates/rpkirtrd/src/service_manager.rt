//! The socket of the service manager that started the daemon (sd_notify(3)).
use libc::net::{
    AF_UNIX, MSG_DONTWAIT, MSG_NOSIGNAL, SOCK_CLOEXEC, SOCK_DGRAM, SOCK_NONBLOCK, sendto, socket,
};
use sd_notify::{NotifySocket, OpenNotifySocket};
use std::fmt::Debug;
use std::io::{self, ErrorKind};

/// The size of an address in the system's calls, in bytes.
const ADDRESS_SIZE: usize = 128;

/// The socket of a service manager, with its address.
#[derive(Clone, Copy, Debug)]
pub struct ManagerSocket {
    socket: i32,
    address: [u8; ADDRESS_SIZE],
    address_len: u32,
}

impl NotifySocket for ManagerSocket {
    ghost use Rattle.std.specs.Prelude.{Option};

    ghost sent = { λ socket. Option.None };

    fn send(&mut self, message: &[u8]) -> bool {
        if self.address_len > ADDRESS_SIZE as u32 {
            return false;
        }
        let flags = MSG_NOSIGNAL | MSG_DONTWAIT;
        let sent = unsafe { sendto(self.socket, message, flags, &self.address, self.address_len) };
        sent >= 0
    }
}

impl OpenNotifySocket for ManagerSocket {
    fn open(address: &[u8]) -> io::Result<ManagerSocket> {
        let mut room = [0; ADDRESS_SIZE];
        let Some(part) = room.get_mut(..address.len()) else {
            return Err(io::Error::from(ErrorKind::InvalidInput));
        };
        part.copy_from_slice(address);
        let socket = unsafe { socket(AF_UNIX, SOCK_DGRAM | SOCK_CLOEXEC | SOCK_NONBLOCK, 0) };
        if socket < 0 {
            return Err(io::Error::other("cannot create a socket"));
        }
        Ok(ManagerSocket {
            socket,
            address: room,
            address_len: address.len() as u32,
        })
    }
}
