//! Files in memory.
use rtr_daemon::Stamp;
use std::alloc::{AllocError, Global};
use test_values::scripts::Words;

/// What a file has.
#[derive(Clone, Copy)]
enum Content<'a> {
    Text(&'a str),
    /// This many records, of which the first ones expire at a second since 1970.
    Records {
        count: u64,
        expiring: u64,
        expires: u64,
    },
}

impl<'a> Content<'a> {
    /// What a text spells: a number of records, or `COUNT EXPIRING SECONDS`, of which the first ones expire these seconds after the start.
    /// Another text is what the file has.
    fn of(text: &'a str, began: u64) -> Content<'a> {
        let mut words = Words { rest: text };
        let Some(count) = words.number() else {
            return Content::Text(text);
        };
        Content::Records {
            count,
            expiring: words.number().unwrap_or(0),
            expires: began.saturating_add(words.number().unwrap_or(0)),
        }
    }
}

/// A file: what it has, the AS of its records, how often it was written, and when, in seconds since 1970.
#[derive(Clone, Copy)]
pub(crate) struct Sheet<'a> {
    content: Content<'a>,
    asn: u32,
    times: u64,
    modified: u64,
}

impl<'a> Sheet<'a> {
    /// A file that was written at the start, in seconds since 1970.
    pub(crate) fn new(asn: u32, text: &'a str, began: u64) -> Sheet<'a> {
        Sheet {
            content: Content::of(text, began),
            asn,
            times: 0,
            modified: began,
        }
    }

    /// Rewrites it.
    pub(crate) fn write(&mut self, text: &'a str, began: u64, now: u64) {
        self.content = Content::of(text, began);
        self.modified = now;
        self.rewrite();
    }

    /// Rewrites it with the same content and modification time.
    pub(crate) fn rewrite(&mut self) {
        self.times = self.times.saturating_add(1);
    }

    pub(crate) fn stamp(&self) -> Stamp {
        let len = match self.content {
            Content::Text(text) => text.len() as u64,
            Content::Records { count, .. } => count,
        };
        Stamp {
            len,
            inode: self.times,
            modified: (i64::try_from(self.modified).unwrap_or(i64::MAX), 0),
            changed: (0, 0),
        }
    }

    /// Its bytes.
    pub(crate) fn bytes(&self, alloc: Global) -> Result<Vec<u8>, AllocError> {
        let text = match self.content {
            Content::Text(text) => String::from_str(alloc, text)?,
            Content::Records {
                count,
                expiring,
                expires,
            } => export_of(alloc, self.asn, count, expiring, expires)?,
        };
        Ok(text.into_bytes())
    }
}

/// An export of this many records of an AS, of which the first ones expire.
fn export_of(
    alloc: Global,
    asn: u32,
    count: u64,
    expiring: u64,
    expires: u64,
) -> Result<String, AllocError> {
    let mut text = String::from_str(alloc, "{\"roas\":[")?;
    for index in 0..count {
        let ends = if index < expiring {
            Some(expires)
        } else {
            None
        };
        add_record(&mut text, asn, index, ends)?;
    }
    text.push_str("]}")?;
    Ok(text)
}

/// Adds the record of an index, and when it expires.
fn add_record(
    text: &mut String,
    asn: u32,
    index: u64,
    ends: Option<u64>,
) -> Result<(), AllocError> {
    let comma = if index == 0 { "" } else { "," };
    let (high, low) = (index / 256 % 256, index % 256);
    write!(
        text,
        "{comma}{{\"asn\":{asn},\"prefix\":\"10.{high}.{low}.0/24\",\"maxLength\":24"
    )?;
    if let Some(ends) = ends {
        write!(text, ",\"expires\":{ends}")?;
    }
    text.push_str("}")
}
