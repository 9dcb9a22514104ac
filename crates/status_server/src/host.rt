//! The host that a request names (RFC 9112 section 3.2). Under the name of another nothing is served, so DNS rebinding reads nothing.
ghost use Rattle.std.specs.Prelude.{◌≡◌, ◌≤◌, ◌↔◌, IsTrue, codes, length, map, option_copied};
ghost use Rattle.std.specs.List.{prefix_len};
ghost use Rattle.std.specs.Char.{is_ascii_digit};
ghost use Rattle.http.specs.Request.{head_of};
ghost use Rattle.http_server.specs.Host.{is_bracketed, is_port};
ghost use Rattle.status_server.specs.Hosts.{IsConfigured, IsIpv4Host, IsIpv6Host, IsNamed, IsServedHost, IsServedName, ChecksHost, HasValidHosts, bracket_len, colon_len, host_len, named_by, undotted};

use bytes::Bytes;
use http::header::HOST;
use http::{Request, Version};
use std::net::{Ipv4Addr, Ipv6Addr};

/// Why a request is refused before its path is looked at.
#[derive(Clone, Copy, Debug, PartialEq, Eq)]
pub(crate) enum HostFault {
    /// It has no Host in HTTP/1.1, or more than one (RFC 9112 section 3.2).
    Invalid,
    /// The host that it names is not served.
    NotServed,
}

/// Whether the text begins with `[`.
fn is_bracketed(text: &[u8]) -> bool
    ensures { result ≡ is_bracketed text.now }
{
    !text.is_empty() && text[0] == b'['
}

/// How many bytes come before `]`.
fn bracket_len(text: &[u8]) -> usize
    ensures value { result ≡ bracket_len text.now }
    ensures within { result ≤ length text.now }
{
    text.iter().take_while(|byte| **byte != b']').count()
}

/// How many bytes come before the first colon.
fn colon_len(text: &[u8]) -> usize
    ensures value { result ≡ colon_len text.now }
    ensures within { result ≤ length text.now }
{
    text.iter().take_while(|byte| **byte != b':').count()
}

/// How many decimal digits the text begins with.
fn digits_len(text: &[u8]) -> usize
    ensures { result ≡ prefix_len is_ascii_digit text.now }
{
    text.iter().take_while(|byte| byte.is_ascii_digit()).count()
}

/// Whether the text is nothing, or a colon and decimal digits (RFC 3986 section 3.2.3).
fn is_port(text: &[u8]) -> bool
    ensures { result ≡ is_port text.now }
{
    text.is_empty() || (text[0] == b':' && digits_len(&text[1..]) == text.len() - 1)
}

/// The length of the host of an authority: an IPv6 address ends with `]`, and every other host before the colon of the port.
fn host_len(text: &[u8]) -> usize
    ensures value { result ≡ host_len text.now }
    ensures within { result ≤ length text.now }
{
    if is_bracketed(text) {
        (bracket_len(text) + 1).min(text.len())
    } else {
        colon_len(text)
    }
}

/// Whether the text is an IPv4 address.
fn is_ipv4(text: &[u8]) -> bool
    ensures { IsTrue result ↔ IsIpv4Host text.now }
{
    match Ipv4Addr::parse_ascii(text) {
        Ok(_) => true,
        Err(_) => false,
    }
}

/// Whether an IPv6 address in brackets follows the first byte.
fn is_ipv6(text: &[u8]) -> bool
    ensures { IsTrue result ↔ IsIpv6Host text.now }
{
    let end = bracket_len(text);
    if !is_bracketed(text) || end + 1 != text.len() {
        return false;
    }
    match Ipv6Addr::parse_ascii(&text[1..end]) {
        Ok(_) => true,
        Err(_) => false,
    }
}

/// A name without the dot at its end.
fn undotted(name: &[u8]) -> &[u8]
    ensures { result.now ≡ undotted name.now }
{
    let len = name.len();
    if len > 0 && name[len - 1] == b'.' {
        &name[..len - 1]
    } else {
        name
    }
}

/// Whether a host is this name, without regard to ASCII case and to one dot at the end.
fn is_named(host: &[u8], name: &[u8]) -> bool
    ensures { IsTrue result ↔ IsNamed name.now host.now }
{
    undotted(host).eq_ignore_ascii_case(undotted(name))
}

/// Whether a host is the configured name.
fn is_configured(host: &[u8], name: Option<&str>) -> bool
    ensures { IsTrue result ↔ IsConfigured (option_copied name.entry) host.now }
{
    match name {
        Some(name) => is_named(host, name.as_bytes()),
        None => false,
    }
}

/// Whether a host is an address, `localhost` (RFC 6761 section 6.3) or the configured name.
fn is_served_name(host: &[u8], name: Option<&str>) -> bool
    ensures { IsTrue result ↔ IsServedName (option_copied name.entry) host.now }
{
    is_ipv4(host) || is_ipv6(host) || is_named(host, b"localhost") || is_configured(host, name)
}

/// Returns whether requests for `host` are served. `true`: it is an IPv4 address, an IPv6 address in brackets, `localhost` (RFC 6761 section 6.3) or
/// `name`, with or without a port. `false`: it is anything else.
///
/// `name` is the configured host name. `None`: there is no such name. Names are compared without regard to ASCII case and to one dot at the end.
pub fn is_served_host(host: &[u8], name: Option<&str>) -> bool
    ensures { IsTrue result ↔ IsServedHost (option_copied name.entry) host.now }
{
    let (host, port) = host.split_at(host_len(host));
    is_port(port) && is_served_name(host, name)
}

/// Whether a request has as many lines of Host as it may have.
fn has_valid_hosts(request: &Request<Bytes>) -> bool
    ensures { IsTrue result ↔ HasValidHosts (head_of request.now) }
{
    let hosts = request.headers().get_all(HOST).iter().count();
    hosts == 1 || (hosts == 0 && request.version() == Version::HTTP_10)
}

/// What a request names: the authority of its target, and without one its Host.
fn named_by(request: &Request<Bytes>) -> Option<&[u8]>
    ensures { option_copied result ≡ named_by (head_of request.now) }
{
    if let Some(authority) = request.uri().authority() {
        return Some(authority.as_str().as_bytes());
    }
    match request.headers().get(HOST) {
        Some(host) => Some(host.as_bytes()),
        None => None,
    }
}

/// Checks the host that a request names, if it names one.
pub(crate) fn check_host(request: &Request<Bytes>, name: Option<&str>) -> Result<(), HostFault>
    ensures { ChecksHost (option_copied name.entry) (head_of request.now) result }
{
    if !has_valid_hosts(request) {
        return Err(HostFault::Invalid);
    }
    match named_by(request) {
        Some(host) if !is_served_host(host, name) => Err(HostFault::NotServed),
        _ => Ok(()),
    }
}
