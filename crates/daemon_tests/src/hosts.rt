//! Hosts that are served, and others.
use status_server::is_served_host;
use test_values::scripts::Words;

/// Addresses (RFC 3986 section 3.2.2) and their ports (section 3.2.3). In front of each: whether it is served under no name, and under the name
/// `Cache.example.org`.
const ADDRESSES: &str = "yes yes 192.0.2.1
    yes yes 192.0.2.1:8323
    yes yes 192.0.2.1:
    no no 192.0.2.1:http
    no no 192.0.2.1:80:80
    no no 192.0.2.1.
    no no 192.0.2
    no no 192.0.2.256
    yes yes [2001:db8::1]
    yes yes [2001:db8::1]:8323
    yes yes [::1]
    no no 2001:db8::1
    no no [2001:db8::1
    no no [2001:db8::1]8323
    no no [2001:db8::1].example.org
    no no [192.0.2.1]
    no no
    no no :8323";

/// The same of names (RFC 6761 section 6.3).
const NAMES: &str = "yes yes localhost
    yes yes LocalHost.:8323
    no no localhost..
    no no localhost.example
    no yes cache.example.org
    no yes CACHE.EXAMPLE.ORG
    no yes cache.example.org.
    no yes cache.example.org.:8323
    no no cache.example.org..
    no no cache.example.org.evil
    no no cache.example.or
    no no www.cache.example.org
    no no cache.example.org:evil
    no no user@192.0.2.1";

/// Whether a host is judged as its line says.
fn is_judged(line: &str) -> bool {
    let mut words = Words { rest: line };
    let (unnamed, named) = (words.next(), words.next());
    let host = words.rest.as_bytes();
    is_served_host(host, None) == (unnamed == "yes")
        && is_served_host(host, Some("Cache.example.org")) == (named == "yes")
}

fn are_judged(lines: &str) -> bool {
    for line in lines.lines() {
        if !is_judged(line.trim()) {
            return false;
        }
    }
    true
}

#[test]
fn hosts_that_are_served(rt: HostRuntime) {
    assert!(rt; are_judged(ADDRESSES));
    assert!(rt; are_judged(NAMES));
}
