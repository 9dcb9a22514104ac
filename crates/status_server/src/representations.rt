//! The bodies that are made of a status, of a list, or of a validity.
ghost use Rattle.std.specs.Prelude.{◌≡◌, ℕ, List, IsTrue, IfOk, OnOk, codes, true};
ghost use Rattle.status_pages.specs.Health.{IsHealthText};
ghost use Rattle.http_header.specs.FieldValue.{is_visible_text};
ghost use Rattle.status_server.specs.Answers.{BeginsAs, IsExportHead, SendsApi, SendsExport, SendsFault, SendsHealth, SendsList, SendsReady, SendsValidityText, made_at};
ghost use Rattle.status_server.specs.Responses.{Sends, SendsText, page_headers};

use crate::list_forms::ExportForm;
use crate::responses::{JSON, add_tag, refuse_early, send, send_page, send_text};
use bytes::{BufMut, Bytes};
use http::{HeaderMap, StatusCode};
use http_server::Response;
use prefixes::Route;
use status_pages::{
    QueryFault, Status, Validity, is_healthy, is_ready, oldest_built, served_vrps,
    write_api_status, write_export_head, write_form_page, write_health, write_routinator_head,
    write_validity, write_validity_page,
};
use std::alloc::{AllocError, Global};
use std::io::{self, Write};

/// A text that responses share.
pub(crate) fn shared(text: Vec<u8>) -> Result<Bytes, AllocError>
    ensures { IfOk result (λ bytes. bytes ≡ text.items) }
{
    match Bytes::from_vec(text) {
        Ok(bytes) => Ok(bytes),
        Err(_) => Err(AllocError),
    }
}

/// The health of a cache as a text.
fn health_text(alloc: Global, status: &Status) -> Result<Vec<u8>, AllocError>
    ensures { IfOk result (λ text. IsHealthText status.entry.now text.items) }
{
    let mut text = Vec::new(alloc);
    if write_health(&mut text, status).is_err() {
        return Err(AllocError);
    }
    Ok(text)
}

/// Sends the health of a cache: 200 if it is healthy, and otherwise 503 with the reasons.
pub(crate) fn send_health(
    alloc: Global,
    status: &Status,
    response: &mut Response,
) -> Result<(), AllocError>
    ensures { OnOk result (SendsHealth status.entry.now response.old response.new) }
{
    let text = health_text(alloc, status)?;
    let code = if is_healthy(status) {
        response.status
    } else {
        StatusCode::SERVICE_UNAVAILABLE
    };
    send_text(response, code, &text)
}

/// Sends `ok`.
pub(crate) fn send_ok(response: &mut Response) -> Result<(), AllocError>
    ensures { OnOk result (SendsText response.old.status (codes "ok\n") response.old response.new) }
{
    let code = response.status;
    send_text(response, code, b"ok\n")
}

/// Sends whether routers can be sent to a cache: 200 if so, and otherwise 503 with the reasons.
pub(crate) fn send_ready(
    alloc: Global,
    status: &Status,
    response: &mut Response,
) -> Result<(), AllocError>
    ensures { OnOk result (SendsReady status.entry.now response.old response.new) }
{
    if is_ready(status) {
        return send_ok(response);
    }
    let text = health_text(alloc, status)?;
    send_text(response, StatusCode::SERVICE_UNAVAILABLE, &text)
}

/// Sends the status of a cache as JSON.
pub(crate) fn send_api_status(
    alloc: Global,
    status: &Status,
    response: &mut Response,
) -> Result<(), AllocError>
    ensures { OnOk result (SendsApi status.entry.now response.old response.new) }
{
    let Some(serial) = status.serial else {
        return refuse_early(response);
    };
    let mut text = Vec::new(alloc);
    if write_api_status(&mut text, status, serial).is_err() {
        return Err(AllocError);
    }
    send(response, JSON, &text)
}

/// When the served data were made: at the earliest time of a source, or when the version was published if no source has a time.
fn made_at(status: &Status) -> u64
    ensures { result ≡ made_at status.entry.now }
{
    let published = status.changes.last().map(|change| change.at);
    match oldest_built(&status.files) {
        Some(made) => made,
        None => published.unwrap_or(status.now),
    }
}

/// Writes the start of an export whose data were made at this time, in seconds since 1970.
fn write_head<W: Write>(out: &mut W, form: ExportForm, made: u64, vrps: u64) -> io::Result<()>
    ensures { OnOk result (BeginsAs form (W.contents out.old) (W.contents out.new) made vrps) }
{
    match form {
        ExportForm::RpkiClient => write_export_head(out, made, vrps),
        ExportForm::Routinator => write_routinator_head(out, made),
    }
}

/// The start of an export whose data were made at this time, in seconds since 1970.
fn export_head(alloc: Global, form: ExportForm, made: u64, vrps: u64) -> Result<Vec<u8>, AllocError>
    ensures { IfOk result (λ head. IsExportHead form made vrps head.items) }
{
    let mut head = Vec::new(alloc);
    if write_head(&mut head, form, made, vrps).is_err() {
        return Err(AllocError);
    }
    Ok(head)
}

/// Sends an export: this list as the records of an object with metadata.
pub(crate) fn send_export(
    alloc: Global,
    form: ExportForm,
    status: &Status,
    list: Option<Bytes>,
    headers: &HeaderMap,
    response: &mut Response,
) -> Result<(), AllocError>
    ensures { OnOk result (SendsExport headers.now form status.entry.now list response.old response.new) }
{
    let (Some(serial), Some(list)) = (status.serial, list) else {
        return refuse_early(response);
    };
    let (session, made) = (status.session, made_at(status));
    let tag = format!(in alloc; "\"{session}-{serial}-{made}\"")?;
    if add_tag(headers, tag, JSON, response)? {
        return Ok(());
    }
    let head = export_head(alloc, form, made, served_vrps(status))?;
    response.body.put_slice(&head)?;
    response.body.push(list)?;
    response.body.put_slice(b"}")
}

/// Sends a list that is made once a version, with this media type.
pub(crate) fn send_list(
    alloc: Global,
    status: &Status,
    list: Option<Bytes>,
    kind: &'static str,
    headers: &HeaderMap,
    response: &mut Response,
) -> Result<(), AllocError>
    requires { IsTrue (is_visible_text kind.now) }
    ensures { OnOk result (SendsList headers.now kind.now status.entry.now list response.old response.new) }
{
    let (Some(serial), Some(list)) = (status.serial, list) else {
        return refuse_early(response);
    };
    let session = status.session;
    let tag = format!(in alloc; "\"{session}-{serial}\"")?;
    if add_tag(headers, tag, kind, response)? {
        return Ok(());
    }
    response.body.push(list)
}

/// Sends the validity of a route as a page of HTML. `now` is in seconds since 1970.
pub(crate) fn send_validity_page(
    alloc: Global,
    route: &Route,
    validity: &Validity,
    now: u64,
    response: &mut Response,
) -> Result<(), AllocError>
    ensures { OnOk result ((text : List ℕ) × Sends response.old.status page_headers text response.old response.new) }
{
    let mut text = Vec::new(alloc);
    if write_validity_page(&mut text, route, validity, now).is_err() {
        return Err(AllocError);
    }
    send_page(response, shared(text)?)
}

/// Sends the page of the form: why a query names no route, or the empty form if there is no query. `now` is in seconds since 1970.
pub(crate) fn send_form_page(
    alloc: Global,
    query: &str,
    fault: QueryFault,
    now: u64,
    response: &mut Response,
) -> Result<(), AllocError>
    ensures { OnOk result (SendsFault true query.now response.old response.new) }
{
    let mut text = Vec::new(alloc);
    if write_form_page(&mut text, alloc, query, fault, now).is_err() {
        return Err(AllocError);
    }
    if !query.is_empty() {
        response.status = StatusCode::BAD_REQUEST;
    }
    send_page(response, shared(text)?)
}

/// Sends the validity of a route as JSON. `now` is in seconds since 1970.
pub(crate) fn send_validity(
    alloc: Global,
    route: &Route,
    validity: &Validity,
    now: u64,
    response: &mut Response,
) -> Result<(), AllocError>
    ensures { OnOk result (SendsValidityText route.now validity.now response.old response.new) }
{
    let mut text = Vec::new(alloc);
    if write_validity(&mut text, route, validity, now).is_err() {
        return Err(AllocError);
    }
    send(response, JSON, &text)
}
