//! What responses have: their status, their headers and their body.
ghost use Rattle.std.specs.Prelude.{◌≡◌, [], ◌∷◌, codes, if◌then◌else◌, IfOk, IsTrue, ◌↔◌, OnOk, string_bytes};
ghost use Rattle.http_header.specs.FieldValue.{is_visible_text};
ghost use Rattle.status_server.specs.Conditions.{HasTag};
ghost use Rattle.status_server.specs.Responses.{IsDated, Refuses, Sends, SendsEarly, SendsTagged, SendsText, body_headers, page_headers};

use crate::conditions::has_tag;
use crate::plan::Plan;
use crate::resources::PATHS;
use bytes::{BufMut, Bytes};
use http::header::{
    ALLOW, CACHE_CONTROL, CONTENT_SECURITY_POLICY, CONTENT_TYPE, DATE, ETAG, RETRY_AFTER, VARY,
    X_CONTENT_TYPE_OPTIONS,
};
use http::{HeaderMap, HeaderName, HeaderValue, StatusCode};
use http_server::Response;
use httpdate::HttpDate;
use std::alloc::{AllocError, Global};

/// What a page may load and where its form leads: nothing from elsewhere.
const POLICY: &str =
    "default-src 'none'; style-src 'unsafe-inline'; base-uri 'none'; form-action 'self'; frame-ancestors 'none'";

const HTML: &str = "text/html; charset=utf-8";

pub(crate) const JSON: &str = "application/json; charset=utf-8";

/// The media type of the text format of Prometheus.
pub(crate) const METRICS: &str = "text/plain; version=0.0.4; charset=utf-8";

pub(crate) const CSV: &str = "text/csv; charset=utf-8; header=present";

const TEXT: &str = "text/plain; charset=utf-8";

/// What to do if the name is not served (RFC 9110 section 15.5.20).
const NOT_SERVED: &str =
    "this name is not served here: use an address, or start rpkirtrd with --status-name NAME\n";

/// Adds a header.
fn add(response: &mut Response, name: HeaderName, value: &'static str) -> Result<(), AllocError>
    requires { IsTrue (is_visible_text value.now) }
    ensures { OnOk result (Sends response.old.status ((name, value.now) ∷ []) [] response.old response.new) }
{
    response.add_header(name, HeaderValue::from_static(value))
}

/// Adds the headers of each body: the content type, no guessing of another type, and no use of a stored response without asking.
fn add_headers(response: &mut Response, kind: &'static str) -> Result<(), AllocError>
    requires { IsTrue (is_visible_text kind.now) }
    ensures { OnOk result (Sends response.old.status (body_headers kind.now) [] response.old response.new) }
{
    add(response, CONTENT_TYPE, kind)?;
    add(response, CACHE_CONTROL, "no-cache")?;
    add(response, X_CONTENT_TYPE_OPTIONS, "nosniff")
}

/// Adds the headers of a page of HTML.
fn add_page_headers(response: &mut Response) -> Result<(), AllocError>
    ensures { OnOk result (Sends response.old.status page_headers [] response.old response.new) }
{
    add_headers(response, HTML)?;
    add(response, CONTENT_SECURITY_POLICY, POLICY)
}

/// Sends a text that is shared with other responses.
pub(crate) fn send_shared(
    response: &mut Response,
    kind: &'static str,
    text: Bytes,
) -> Result<(), AllocError>
    requires { IsTrue (is_visible_text kind.now) }
    ensures { OnOk result (Sends response.old.status (body_headers kind.now) text response.old response.new) }
{
    add_headers(response, kind)?;
    response.body.push(text)
}

/// Sends a text of this kind.
pub(crate) fn send(
    response: &mut Response,
    kind: &'static str,
    text: &[u8],
) -> Result<(), AllocError>
    requires { IsTrue (is_visible_text kind.now) }
    ensures { OnOk result (Sends response.old.status (body_headers kind.now) text.now response.old response.new) }
{
    add_headers(response, kind)?;
    response.body.put_slice(text)
}

/// Sends a page of HTML.
pub(crate) fn send_page(response: &mut Response, text: Bytes) -> Result<(), AllocError>
    ensures { OnOk result (Sends response.old.status page_headers text response.old response.new) }
{
    add_page_headers(response)?;
    response.body.push(text)
}

/// Sends a text for people with this status.
pub(crate) fn send_text(
    response: &mut Response,
    status: StatusCode,
    text: &[u8],
) -> Result<(), AllocError>
    ensures { OnOk result (SendsText status text.now response.old response.new) }
{
    response.status = status;
    send(response, TEXT, text)
}

/// Refuses a request that has not one Host.
pub(crate) fn refuse_host(response: &mut Response) -> Result<(), AllocError>
    ensures { OnOk result (Refuses Plan.InvalidHost response.old response.new) }
{
    let text = b"a request must have exactly one Host header\n";
    send_text(response, StatusCode::BAD_REQUEST, text)
}

/// Refuses a request to a host that is not served.
pub(crate) fn refuse_name(response: &mut Response) -> Result<(), AllocError>
    ensures { OnOk result (Refuses Plan.NotServed response.old response.new) }
{
    let text = NOT_SERVED.as_bytes();
    send_text(response, StatusCode::MISDIRECTED_REQUEST, text)
}

/// Refuses a request for a path at which nothing is.
pub(crate) fn refuse_path(response: &mut Response) -> Result<(), AllocError>
    ensures { OnOk result (Refuses Plan.NotFound response.old response.new) }
{
    send_text(response, StatusCode::NOT_FOUND, PATHS.as_bytes())
}

/// Refuses a request of another method.
pub(crate) fn refuse_method(response: &mut Response) -> Result<(), AllocError>
    ensures { OnOk result (Refuses Plan.NotAllowed response.old response.new) }
{
    add(response, ALLOW, "GET, HEAD")?;
    let text = b"only GET and HEAD are answered\n";
    send_text(response, StatusCode::METHOD_NOT_ALLOWED, text)
}

/// Responds that no version is published yet. The first one follows a second or two after the start.
pub(crate) fn refuse_early(response: &mut Response) -> Result<(), AllocError>
    ensures { OnOk result (SendsEarly response.old response.new) }
{
    add(response, RETRY_AFTER, "1")?;
    let text = b"no version is published yet: ask again in a second\n";
    send_text(response, StatusCode::SERVICE_UNAVAILABLE, text)
}

/// Adds an entity tag (RFC 9110 section 8.8.3), and answers whether the client has its representation. Then the response is 304, without a body.
/// If not, a body of this kind follows.
pub(crate) fn add_tag(
    headers: &HeaderMap,
    tag: String,
    kind: &'static str,
    response: &mut Response,
) -> Result<bool, AllocError>
    requires { IsTrue (is_visible_text kind.now) }
    ensures known { IfOk result (λ known. IsTrue known ↔ HasTag headers.now (string_bytes tag)) }
    ensures sends { IfOk result (λ known. SendsTagged known (string_bytes tag) kind.now (λ text. text ≡ []) response.old response.new) }
{
    let is_known = has_tag(headers, tag.as_bytes());
    let Ok(value) = HeaderValue::from_string(tag) else {
        return Err(AllocError);
    };
    response.add_header(ETAG, value)?;
    if is_known {
        send_unchanged(response)?;
    } else {
        add_headers(response, kind)?;
    }
    Ok(is_known)
}

/// Sends that the client has the representation already (RFC 9110 section 15.4.5).
fn send_unchanged(response: &mut Response) -> Result<(), AllocError>
    ensures { OnOk result (Sends 304 ((codes "cache-control", codes "no-cache") ∷ []) [] response.old response.new) }
{
    response.status = StatusCode::NOT_MODIFIED;
    add(response, CACHE_CONTROL, "no-cache")
}

/// Says that the form of a response depends on what the client accepts (RFC 9110 section 12.5.5).
pub(crate) fn add_vary(response: &mut Response) -> Result<(), AllocError>
    ensures { OnOk result (Sends response.old.status ((codes "vary", codes "Accept") ∷ []) [] response.old response.new) }
{
    add(response, VARY, "Accept")
}

/// Adds the time of a response (RFC 9110 section 6.6.1), in seconds since 1970, if it is within the years 1970 to 9999.
pub(crate) fn add_date(alloc: Global, now: u64, response: &mut Response) -> Result<(), AllocError>
    ensures { OnOk result (IsDated now response.old response.new) }
{
    let Ok(date) = HttpDate::from_unix_secs(now) else {
        return Ok(());
    };
    match HeaderValue::from_bytes(alloc, &date.to_bytes()) {
        Ok(value) => response.add_header(DATE, value),
        Err(_) => Err(AllocError),
    }
}
