//! The response to an HTTP request, over a stream in memory.

use crate::caches::{NOW, empty, put_old, put_small};
use anyhow::{Result, bail};
use bytes::Bytes;
use prefixes::{Asn, IpPrefix, Route, Vrp};
use status_pages::{Status, Validity};
use status_server::{HttpConnections, ListForm, StatusSource};
use std::alloc::{AllocError, Global};
use std::hash::RandomState;
use std::io::{self, ErrorKind, Read, Write};
use vrps::{OriginIndex, VrpSet};

/// A cache with one record, whose data may be too old, or without a version.
#[derive(Drop)]
struct Source {
    alloc: Global,
    index: Option<OriginIndex>,
    /// Whether its data are too old.
    is_old: bool,
}

impl Source {
    /// A text of the version, if there is one.
    fn text(&self, text: &'static [u8]) -> Option<Bytes> {
        match &self.index {
            Some(_index) => Some(Bytes::from_static(text)),
            None => None,
        }
    }
}

impl StatusSource for Source {
    fn now(&mut self) -> u64 {
        NOW
    }

    fn status(&mut self) -> Result<Status, AllocError> {
        let mut status = empty(self.alloc);
        if self.is_old {
            put_old(self.alloc, &mut status)?;
        } else if self.index.is_some() {
            put_small(self.alloc, &mut status)?;
        }
        Ok(status)
    }

    fn list(&mut self, form: ListForm) -> Result<Option<Bytes>, AllocError> {
        Ok(self.text(match form {
            ListForm::Payloads => b"[{\"asn\":64496,\"maxLength\":24,\"prefix\":\"192.0.2.0/24\"}]",
            ListForm::Roas =>
                b"[{\"asn\":\"AS64496\",\"prefix\":\"192.0.2.0/24\",\"maxLength\":24,\"ta\":\"\"}]",
            ListForm::Csv => b"ASN,IP Prefix,Max Length\nAS64496,192.0.2.0/24,24\n",
            ListForm::RoutinatorCsv =>
                b"ASN,IP Prefix,Max Length,Trust Anchor\nAS64496,192.0.2.0/24,24,\n",
        }))
    }

    fn validity(&mut self, route: &Route) -> Result<Option<Validity>, AllocError> {
        match &self.index {
            Some(index) => Ok(Some(Validity::of_route(self.alloc, index, route)?)),
            None => Ok(None),
        }
    }
}

/// The cache of this name.
fn source_of(alloc: Global, name: &str) -> Result<Source> {
    if name == "empty" {
        return Ok(Source {
            alloc,
            index: None,
            is_old: false,
        });
    }
    let mut list = Vec::new(alloc);
    list.push(Vrp::new(IpPrefix::parse("192.0.2.0/24")?, 24, Asn(64496))?)?;
    let index = OriginIndex::over(alloc, &VrpSet::from_list(list)?)?;
    Ok(Source {
        alloc,
        index: Some(index),
        is_old: name == "old",
    })
}

/// A stream. Reads give the bytes of a request, at most `piece` bytes a call, and then would block. Writes pass on at most as many.
#[derive(Drop)]
struct Wire<W> {
    request: Vec<u8>,
    place: usize,
    output: W,
    piece: usize,
}

impl<W> Read for Wire<W> {
    fn read(&mut self, buf: &mut [u8]) -> io::Result<usize> {
        let bytes = self.request.as_slice();
        let rest = &bytes[self.place.min(bytes.len())..];
        if rest.is_empty() {
            return Err(io::Error::from(ErrorKind::WouldBlock));
        }
        let mut piece = &rest[..self.piece.min(rest.len())];
        let count = piece.read(buf)?;
        self.place = self.place.saturating_add(count);
        Ok(count)
    }
}

impl<W: Write> Write for Wire<W> {
    fn write(&mut self, buf: &[u8]) -> io::Result<usize> {
        let piece = &buf[..self.piece.min(buf.len())];
        self.output.write_all(piece)?;
        Ok(piece.len())
    }

    fn flush(&mut self) -> io::Result<()> {
        Ok(())
    }
}

/// Answers the request on standard input as these words say. Then it prints on standard error whether the connection is open.
pub(crate) fn answer(rt: &HostRuntime, words: &[String]) -> Result<()> {
    match words {
        [cache, piece] => serve(rt, cache.as_str(), piece.parse()?, None),
        [cache, piece, name] => serve(rt, cache.as_str(), piece.parse()?, Some(name.as_str())),
        _ => bail!("a cache and a number are required"),
    }
}

fn serve(rt: &HostRuntime, cache: &str, piece: usize, name: Option<&str>) -> Result<()> {
    let mut source = source_of(rt.alloc(), cache)?;
    let wire = Wire {
        request: read_request(rt)?,
        place: 0,
        output: rt.stdout(),
        piece,
    };
    let mut connections = HttpConnections::new(rt.alloc(), RandomState::new(rt)?);
    connections.admit(7, wire, 0)?;
    connections.serve(0, &mut source, name, 100_000);
    let is_open = !connections.is_empty() && !connections.has_busy();
    let state = if is_open { "open\n" } else { "closed\n" };
    Ok(rt.stderr().write_all(state.as_bytes())?)
}

fn read_request(rt: &HostRuntime) -> Result<Vec<u8>> {
    let mut request = Vec::new(rt.alloc());
    let _count = rt.stdin().read_to_end(&mut request)?;
    Ok(request)
}
