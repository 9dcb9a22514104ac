//! What is printed of each fault, which ends with the number by which it is known.

use anyhow::Result;
use der_lite::DerFaultKind;
use exports::{EntryFault, ExportFault};
use feed::FeedFault;
use payload_lists::ListFault;
use payloads::GrammarFaultKind;
use points::PointFault;
use prefixes::PrefixFault;
use rtr_commands::AnswerFault;
use rtr_ends::{AskFault, StreamFault, TimingFault};
use rtr_pdu::{ReadFault, UnitFault};
use rtr_server::AdmitFault;
use rtr_world::{CatchFault, WorldFault};
use slurm::{SlurmArray, SlurmEntryFault, SlurmFault, SlurmObject};
use status_pages::QueryFault;
use std::fmt::Display;
use std::io::{self, Write};
use vrps::{PathFault, SetFault};

/// Prints each of these faults after its number, one a line.
fn print_each<F: Display, W: Write>(faults: &[(u8, F)], out: &mut W) -> io::Result<()> {
    for (number, fault) in faults {
        writeln!(out, "{number} {fault}")?;
    }
    Ok(())
}

/// Faults, each with its number.
macro_rules! numbered {
    ($($fault:expr),+ $(,)?) => {
        [$(($fault.number(), $fault)),+]
    };
}

/// Prints every fault.
pub(crate) fn print<W: Write>(out: &mut W) -> Result<()> {
    print_elements(out)?;
    print_payloads(out)?;
    print_offers(out)?;
    print_sets(out)?;
    print_files(out)?;
    print_pdus(out)?;
    print_ends(out)?;
    print_worlds(out)?;
    Ok(print_queries(out)?)
}

/// The faults of an element, also as faults of a payload.
fn print_elements<W: Write>(out: &mut W) -> io::Result<()> {
    let kinds = numbered![
        DerFaultKind::Truncated,
        DerFaultKind::WrongTag,
        DerFaultKind::BadLength,
        DerFaultKind::BadContent,
        DerFaultKind::Trailing,
    ];
    print_each(&kinds, out)?;
    for (number, kind) in kinds {
        print_each(&[(number, GrammarFaultKind::Element(kind))], out)?;
    }
    Ok(())
}

fn print_payloads<W: Write>(out: &mut W) -> io::Result<()> {
    print_each(
        &numbered![
            GrammarFaultKind::VersionPresent,
            GrammarFaultKind::AsnRange,
            GrammarFaultKind::Family,
            GrammarFaultKind::Empty,
            GrammarFaultKind::PrefixTooLong,
            GrammarFaultKind::MaxLength,
            GrammarFaultKind::Order,
            GrammarFaultKind::NumberRange,
            GrammarFaultKind::TimesOrder,
            GrammarFaultKind::HashAlg,
            GrammarFaultKind::Name,
            GrammarFaultKind::HashLength,
            GrammarFaultKind::NameTwice,
            GrammarFaultKind::TooMany,
            GrammarFaultKind::MaxLengthSuperfluous,
        ],
        out,
    )
}

/// The refusals of offers.
fn print_offers<W: Write>(out: &mut W) -> io::Result<()> {
    let refusals = numbered![
        PointFault::NotYet,
        PointFault::Stale,
        PointFault::OldNumber,
        PointFault::OldTime,
        PointFault::FileTwice(3),
        PointFault::Missing(3),
        PointFault::HashDiffers(3),
        PointFault::Memory,
    ];
    print_each(&refusals, out)?;
    let faults = [
        (1, FeedFault::Point(2, PointFault::Missing(3))),
        (2, FeedFault::TooMany),
        (3, FeedFault::Memory),
    ];
    print_each(&faults, out)
}

/// The faults of prefixes, sets and lists.
fn print_sets<W: Write>(out: &mut W) -> io::Result<()> {
    let faults = numbered![
        PrefixFault::TooLong,
        PrefixFault::HostBits,
        PrefixFault::BadText,
        PrefixFault::MaxLength,
    ];
    print_each(&faults, out)?;
    print_each(&numbered![SetFault::TooMany, SetFault::Memory], out)?;
    print_each(&numbered![ListFault::NoList, ListFault::Memory], out)?;
    print_each(&[(1, PathFault::EmptySequence)], out)
}

/// The faults of exports and of local exceptions.
fn print_files<W: Write>(out: &mut W) -> io::Result<()> {
    let faults = numbered![
        ExportFault::NotJson,
        ExportFault::NoRoas,
        ExportFault::Entry(3, EntryFault::Expires),
        ExportFault::Entry(3, EntryFault::Asn),
        ExportFault::TooMany,
        ExportFault::Memory,
        ExportFault::Repeated,
    ];
    print_each(&faults, out)?;
    let faults = numbered![
        SlurmFault::NotJson,
        SlurmFault::Members(SlurmObject::Filters),
        SlurmFault::Version,
        SlurmFault::NoArray(SlurmArray::BgpsecFilters),
        SlurmFault::Entry(SlurmArray::PrefixFilters, 7, SlurmEntryFault::NeitherKey),
        SlurmFault::TooMany,
        SlurmFault::Memory,
        SlurmFault::Repeated,
    ];
    print_each(&faults, out)
}

/// The faults of PDUs.
fn print_pdus<W: Write>(out: &mut W) -> io::Result<()> {
    let faults = numbered![
        UnitFault::Version,
        UnitFault::Type,
        UnitFault::Length,
        UnitFault::TooLong,
        UnitFault::Record,
        UnitFault::ErrorReport,
        UnitFault::Truncated,
    ];
    print_each(&faults, out)?;
    let faults = [
        (2, ReadFault::Fault(UnitFault::Type)),
        (8, ReadFault::ReadFailed),
    ];
    print_each(&faults, out)?;
    print_each(&numbered![AnswerFault::BadHex, AnswerFault::Memory], out)
}

/// The faults of a cache, of a router and of a server.
fn print_ends<W: Write>(out: &mut W) -> io::Result<()> {
    let faults = numbered![
        StreamFault::ReadFailed,
        StreamFault::WriteFailed,
        StreamFault::Memory,
    ];
    print_each(&faults, out)?;
    print_each(
        &numbered![AdmitFault::TooManyClients, AdmitFault::Memory],
        out,
    )?;
    print_each(
        &[
            (1, TimingFault::OutOfRange),
            (2, TimingFault::ExpireTooSmall),
        ],
        out,
    )?;
    print_each(&numbered![AskFault::Busy, AskFault::NotConnected], out)
}

fn print_worlds<W: Write>(out: &mut W) -> io::Result<()> {
    let faults = numbered![
        WorldFault::SessionUsed,
        WorldFault::TooManyVersions,
        WorldFault::NoSuchRouter,
        WorldFault::Memory,
    ];
    print_each(&faults, out)?;
    let faults = numbered![
        CatchFault::Memory,
        CatchFault::NoData,
        CatchFault::NoSuchRouter,
    ];
    print_each(&faults, out)
}

/// The faults of a query for a route, which have no number.
fn print_queries<W: Write>(out: &mut W) -> io::Result<()> {
    let faults = [
        QueryFault::Keys,
        QueryFault::Path,
        QueryFault::Asn,
        QueryFault::Prefix(PrefixFault::HostBits),
    ];
    for fault in &faults {
        writeln!(out, "{fault}")?;
    }
    Ok(())
}
