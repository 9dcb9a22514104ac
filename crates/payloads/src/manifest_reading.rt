//! Reading the payload of a manifest, from top to bottom (RFC 9286 section 4.2).

ghost use Rattle.std.specs.Prelude.{◌≡◌, []};
ghost use Rattle.der_lite.specs.Values.{is_negative as is_negative_content};
ghost use Rattle.payloads.specs.ManifestReading.{manifest_number_at, next_at, algorithm_at, name_at, hash_at, file_at, files_at, manifest_all};
ghost use Rattle.der_lite.specs.Decoding.{read_each};
ghost use Rattle.payloads.specs.Gives.{GivesNext, GivesOrMemory, GivesAllOrMemory, DecodesManifest, ListsFile, ListsFiles};

use crate::manifest_files::Files;
use crate::manifest_names::is_name;
use crate::roa_entry::LIMIT;
use crate::roa_reading::first_integer;
use crate::{GrammarFault, GrammarFaultKind, ListedFile, Manifest, PayloadFault};
use der_lite::{Cursor, Moment};
use std::alloc::Global;

/// The greatest length of the number's content in bytes (4.2.1).
pub(crate) const LONGEST_NUMBER: usize = 20;

/// 2.16.840.1.101.3.4.2.1 (RFC 7935 section 2).
pub(crate) const SHA_256: [u8; 9] = [0x60, 0x86, 0x48, 0x01, 0x65, 0x03, 0x04, 0x02, 0x01];

/// Whether the content of an INTEGER is that of a negative number.
pub(crate) fn is_negative(content: &[u8]) -> bool
    ensures { result ≡ is_negative_content content.now }
{
    matches!(content.first(), Some(128..))
}

/// manifestNumber INTEGER (0..MAX): its content (4.2.1).
#[tactic(auto, unfolding(crate::specs::ManifestReading::manifest_number_at))]
fn manifest_number<'a>(cursor: &mut Cursor<'a>) -> Result<&'a [u8], GrammarFault>
    ensures { GivesNext (λ content. content.now) result cursor.new (manifest_number_at cursor.old) }
{
    let offset = cursor.offset();
    let content = first_integer(cursor)?;
    if is_negative(content) || content.len() > LONGEST_NUMBER {
        return Err(GrammarFaultKind::NumberRange.at(offset));
    }
    Ok(content)
}

/// nextUpdate GeneralizedTime, later than thisUpdate (4.2.1).
#[tactic(auto, unfolding(crate::specs::ManifestReading::next_at, der_lite::specs::Moments::moment_before))]
fn next_update(cursor: &mut Cursor, this_update: &Moment) -> Result<Moment, GrammarFault>
    ensures { GivesNext (λ moment. moment) result cursor.new (next_at this_update.now cursor.old) }
{
    let offset = cursor.offset();
    let next_update = cursor.time()?;
    if *this_update < next_update {
        Ok(next_update)
    } else {
        Err(GrammarFaultKind::TimesOrder.at(offset))
    }
}

/// fileHashAlg OBJECT IDENTIFIER, that of SHA-256 (4.2.1).
#[tactic(auto, unfolding(crate::specs::ManifestReading::algorithm_at))]
fn hash_algorithm(cursor: &mut Cursor) -> Result<(), GrammarFault>
    ensures { GivesNext (λ _. tt) result cursor.new (algorithm_at cursor.old) }
{
    let offset = cursor.offset();
    let algorithm = cursor.oid()?;
    if algorithm != SHA_256.as_slice() {
        return Err(GrammarFaultKind::HashAlg.at(offset));
    }
    Ok(())
}

/// file IA5String, behind the files before it (4.2.2).
#[tactic(auto, unfolding(crate::specs::ManifestReading::name_at))]
fn file_name<'a>(cursor: &mut Cursor<'a>, before: &Files<'a>) -> Result<&'a str, GrammarFault>
    ensures { GivesNext (λ name. name.now) result cursor.new (name_at before.now cursor.old) }
{
    let offset = cursor.offset();
    let name = cursor.ia5()?;
    if !is_name(name) {
        return Err(GrammarFaultKind::Name.at(offset));
    }
    if before.has(name) {
        return Err(GrammarFaultKind::NameTwice.at(offset));
    }
    Ok(name)
}

/// hash BIT STRING, of SHA-256 (4.2.2).
#[tactic(auto, unfolding(crate::specs::ManifestReading::hash_at))]
fn file_hash(cursor: &mut Cursor) -> Result<[u8; 32], GrammarFault>
    ensures { GivesNext (λ hash. hash) result cursor.new (hash_at cursor.old) }
{
    let offset = cursor.offset();
    let bits = cursor.bits()?;
    match <[u8; 32]>::try_from(bits.bytes) {
        Ok(hash) if bits.unused == 0 => Ok(hash),
        _ => Err(GrammarFaultKind::HashLength.at(offset)),
    }
}

/// FileAndHash, behind the files before it (4.2.2).
#[tactic(auto, unfolding(crate::specs::ManifestReading::file_at))]
fn file<'a>(
    alloc: Global,
    cursor: &mut Cursor<'a>,
    files: &mut Files<'a>,
) -> Result<(), PayloadFault>
    ensures { ListsFile result files.old files.new cursor.new (file_at files.old cursor.old) }
{
    let offset = cursor.offset();
    let mut members = cursor.sequence()?;
    if files.count() >= LIMIT {
        return Err(PayloadFault::At(GrammarFaultKind::TooMany.at(offset)));
    }
    let name = file_name(&mut members, files)?;
    let hash = file_hash(&mut members)?;
    members.finish()?;
    files.add(alloc, name, hash)?;
    Ok(())
}

/// The files of the list, to the end (4.2.1).
fn each_file<'a>(
    alloc: Global,
    members: Cursor<'a>,
    files: &mut Files<'a>,
) -> Result<(), PayloadFault>
    requires { files.old ≡ [] }
    ensures { ListsFiles result files.new (read_each file_at members.entry) }
{
    let mut members = members;
    while !members.at_end() {
        file(alloc, &mut members, files)?;
    }
    Ok(())
}

/// fileList SEQUENCE SIZE (0..MAX) OF FileAndHash (4.2.1).
#[tactic(auto, unfolding(crate::specs::ManifestReading::files_at))]
fn file_list(alloc: Global, cursor: &mut Cursor) -> Result<Vec<ListedFile>, PayloadFault>
    ensures { GivesOrMemory (λ files. files.items) result cursor.new (files_at cursor.old) }
{
    let members = cursor.sequence()?;
    let mut files = Files::new(alloc);
    each_file(alloc, members, &mut files)?;
    Ok(files.into_list())
}

/// The fields of a manifest, its number in place (4.2.1).
#[derive(Drop)]
struct Fields<'a> {
    number: &'a [u8],
    this_update: Moment,
    next_update: Moment,
    files: Vec<ListedFile>,
}

/// Manifest, and nothing behind it (4.2).
#[tactic(auto, unfolding(crate::specs::ManifestReading::manifest_at, crate::specs::ManifestReading::manifest_all))]
fn whole_manifest(alloc: Global, payload: &[u8]) -> Result<Fields<'_>, PayloadFault>
    ensures { GivesAllOrMemory (λ f. record { number = f.number.now; this_update = f.this_update; next_update = f.next_update; files = f.files.items }) result (manifest_all payload.now) }
{
    let mut whole = Cursor::new(payload);
    let mut members = whole.sequence()?;
    let number = manifest_number(&mut members)?;
    let this_update = members.time()?;
    let next_update = next_update(&mut members, &this_update)?;
    hash_algorithm(&mut members)?;
    let files = file_list(alloc, &mut members)?;
    members.finish()?;
    whole.finish()?;
    Ok(Fields {
        number,
        this_update,
        next_update,
        files,
    })
}

/// Decodes a manifest payload (RFC 9286 section 4). `At`: the bytes are not a valid payload, and this is the first fault.
/// `Memory`: memory runs out, which may happen before the rest of the payload is checked.
pub fn decode_manifest(alloc: Global, payload: &[u8]) -> Result<Manifest, PayloadFault>
    ensures { DecodesManifest result payload.now }
{
    let fields = whole_manifest(alloc, payload)?;
    let mut number = Vec::new(alloc);
    number.extend_from_slice(fields.number)?;
    Ok(Manifest {
        number,
        this_update: fields.this_update,
        next_update: fields.next_update,
        files: fields.files,
    })
}
