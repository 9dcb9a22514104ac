//! The address of the notification socket.
ghost use Rattle.std.specs.Prelude.{◌≡◌, IfOk, option_map};
ghost use Rattle.sd_notify.specs.Addresses.{abstract_address, path_address, socket_address};

use std::alloc::{AllocError, Global};

/// The family AF_UNIX in the two bytes of an address, as this processor has them (unix(7)).
const FAMILY: [u8; 2] = [1, 0];

/// The longest name, in bytes: with a byte more it has the 108 of an address (unix(7)).
const LONGEST: usize = 107;

/// The address of the socket `name`, as the bytes of a `sockaddr_un` without padding (unix(7)). `name` is the value of `NOTIFY_SOCKET`: an
/// absolute path, or `@` and a name in the abstract namespace, of 2 to 107 bytes in all. A zero byte is appended to a path only.
/// `None`: it is neither, or has another length. `Err`: memory ran out.
pub fn socket_address(alloc: Global, name: &str) -> Result<Option<Vec<u8>>, AllocError>
    ensures { IfOk result (λ found. option_map (λ bytes. bytes.items) found ≡ socket_address name.now) }
{
    let bytes = name.as_bytes();
    if bytes.len() < 2 || bytes.len() > LONGEST {
        return Ok(None);
    }
    match bytes[0] {
        b'/' => Ok(Some(path_address(alloc, bytes)?)),
        b'@' => Ok(Some(abstract_address(alloc, &bytes[1..])?)),
        _ => Ok(None),
    }
}

/// The address of a path, which ends in a zero byte.
fn path_address(alloc: Global, path: &[u8]) -> Result<Vec<u8>, AllocError>
    ensures { IfOk result (λ bytes. bytes.items ≡ path_address path.now) }
{
    let mut address = Vec::new(alloc);
    address.extend_from_slice(&FAMILY)?;
    address.extend_from_slice(path)?;
    address.push(0)?;
    Ok(address)
}

/// The address of a name in the abstract namespace, which begins with a zero byte.
fn abstract_address(alloc: Global, name: &[u8]) -> Result<Vec<u8>, AllocError>
    ensures { IfOk result (λ bytes. bytes.items ≡ abstract_address name.now) }
{
    let mut address = Vec::new(alloc);
    address.extend_from_slice(&FAMILY)?;
    address.push(0)?;
    address.extend_from_slice(name)?;
    Ok(address)
}
