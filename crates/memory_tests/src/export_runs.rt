use crate::telling::{begin, no_memory, tell, tell_payloads};
use exports::{ExportFault, read_export};

/// Reads an export and prints what it lists, or that memory ran out.
fn is_read(rt: &HostRuntime, text: &[u8]) -> bool {
    match read_export(rt.alloc(), text, 1) {
        Ok(export) => tell_payloads(rt, export.set.as_slice()),
        Err(ExportFault::Memory) => return no_memory(rt),
        Err(_) => tell(rt, "another fault"),
    }
    true
}

/// Reads an export, and once more if memory ran out.
fn tell_export(rt: &HostRuntime, text: &[u8]) {
    begin(rt.alloc());
    let _done = is_read(rt, text) || is_read(rt, text);
}

#[test]
fn read_a_plain_export(rt: HostRuntime) {
    tell_export(
        &rt,
        br#"{"roas":[{"asn":"AS64497","prefix":"198.51.100.0/24","maxLength":24,"expires":2},{"asn":64496,"prefix":"192.0.2.0/24","maxLength":24}]}"#,
    );
}

#[test]
fn read_an_export_as_a_whole(rt: HostRuntime) {
    tell_export(
        &rt,
        br#"{"roas":[{"asn":"AS64497","prefix":"198.51.100.0/24","maxLength":24,"x":1.5},{"asn":64496,"prefix":"192.0.2.0/24","maxLength":24}]}"#,
    );
}

#[test]
fn read_a_payload_list_as_an_export(rt: HostRuntime) {
    tell_export(
        &rt,
        br#"[{"asn":64497,"prefix":"198.51.100.0/24","maxLength":24},{"asn":64496,"prefix":"192.0.2.0/24","maxLength":24}]"#,
    );
}

#[test]
fn refuse_a_plain_export(rt: HostRuntime) {
    tell_export(
        &rt,
        br#"{"roas":[{"asn":"AS64497","prefix":"198.51.100.0/24","maxLength":24},{"asn":"AS064496","prefix":"192.0.2.0/24","maxLength":24}]}"#,
    );
}
