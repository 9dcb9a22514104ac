//! Exports of validators. The rows of files, of faults and of what expires are in `tests/file_rows.py`.
use exports::{
    Export, ExportFault, Ignored, fault_text, read_export, read_export_counted,
    read_export_lasting, read_export_until,
};
use json_texts::{Position, cut_text};
use std::alloc::Global;
use test_values::sets::{Rows, set_in};

/// The moment at which the files are read: 14 November 2023, 22:13:20 UTC.
const NOW: u64 = 1_700_000_000;

/// The two records that count in `TEXT`.
const TWO: Rows = &[("192.0.2.0/24", 24, 64496), ("2001:db8::/32", 48, 64497)];

const TEXT: &[u8] = br#"{"metadata":{"generated":1700000000},"aspas":[{}],"roas":[
    {"asn":64498,"prefix":"198.51.100.0/24","maxLength":24,"expires":1700000000},
    {"asn":"AS64497","prefix":"2001:db8::/32","maxLength":48,"expires":1700000005},
    {"asn":64496,"prefix":"192.0.2.0/24","maxLength":24,"expires":1700000002},
    {"asn":64497,"prefix":"2001:db8::/32","maxLength":48}]}"#;

/// Whether this is the export of that text.
fn is_export(alloc: Global, export: &Export) -> bool {
    match set_in(alloc, TWO) {
        Some(two) => {
            export.set.is_same(&two) && export.expired == 1 && export.built == Some(NOW)
        }
        None => false,
    }
}

/// Whether that text is read.
fn is_read(alloc: Global) -> bool {
    match read_export(alloc, TEXT, NOW) {
        Ok(export) => is_export(alloc, &export),
        Err(_) => false,
    }
}

/// Whether it is read with its end.
fn is_read_until(alloc: Global) -> bool {
    match read_export_until(alloc, TEXT, NOW) {
        Ok(read) => read.until == Some(NOW + 2) && is_export(alloc, &read.export),
        Err(_) => false,
    }
}

/// Whether it is read with the last second of each record.
fn is_read_lasting(alloc: Global) -> bool {
    match read_export_lasting(alloc, TEXT, NOW) {
        Ok(read) => {
            read.lasts.as_slice() == [NOW + 1, u64::MAX].as_slice()
                && is_export(alloc, &read.export)
        }
        Err(_) => false,
    }
}

/// Whether it is read with how much of it is not served.
fn is_read_counted(alloc: Global) -> bool {
    let ignored = Ignored {
        aspas: 1,
        router_keys: 0,
    };
    match read_export_counted(alloc, TEXT, NOW) {
        Ok(read) => read.ignored == ignored && is_export(alloc, &read.lasting.export),
        Err(_) => false,
    }
}

#[test]
fn an_export_is_read(rt: HostRuntime) {
    assert!(rt; is_read(rt.alloc()));
    assert!(rt; is_read_until(rt.alloc()));
    assert!(rt; is_read_lasting(rt.alloc()));
    assert!(rt; is_read_counted(rt.alloc()));
}

/// Whether bytes have this fault, which is reported so.
fn is_refused(alloc: Global, bytes: &[u8], fault: ExportFault, words: &str) -> bool {
    match read_export(alloc, bytes, NOW) {
        Ok(_) => false,
        Err(found) => match fault_text(alloc, bytes, found) {
            Ok(told) => found == fault && told.as_str() == words,
            Err(_) => false,
        },
    }
}

#[test]
fn a_fault_has_its_place(rt: HostRuntime) {
    let words = "not JSON at line 1, column 2 (fault 1)";
    assert!(rt; is_refused(rt.alloc(), b"[}", ExportFault::NotJson, words));
    assert!(rt; ExportFault::NotJson.number() == 1);
}

/// Whether a text is cut to this one.
fn is_cut(alloc: Global, text: &str, cut: &str) -> bool {
    match cut_text(alloc, text) {
        Ok(found) => found.as_str() == cut,
        Err(_) => false,
    }
}

#[test]
fn a_text_is_cut_at_80_bytes_between_characters(rt: HostRuntime) {
    let eighty = "01234567890123456789012345678901234567890123456789012345678901234567890123456789";
    assert!(rt; is_cut(rt.alloc(), eighty, eighty));
    let more =
        "0123456789012345678901234567890123456789012345678901234567890123456789012345678\u{e9}";
    let cut = "0123456789012345678901234567890123456789012345678901234567890123456789012345678...";
    assert!(rt; is_cut(rt.alloc(), more, cut));
}

#[test]
fn the_place_behind_the_end_is_that_of_the_end(rt: HostRuntime) {
    assert!(rt; Position::at(b"a\nb", 3) == Position { line: 2, column: 2 });
    assert!(rt; Position::at(b"a\nb", 9) == Position { line: 2, column: 2 });
    assert!(rt; Position::at(b"a\nb", 1) == Position { line: 1, column: 2 });
}
