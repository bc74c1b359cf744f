//! Answers with their fields.
ghost use Rattle.std.specs.Prelude.{◌≡◌, [], ◌∷◌, ◌++◌, codes, IsTrue, OnOk};
ghost use Rattle.http_header.specs.FieldValue.{is_visible_text};
ghost use Rattle.http_server.specs.Response.{IsBlank, IsResponse, fields_of};
ghost use Rattle.board_answers.specs.Answers.{kept_fields, typed_fields};

use bytes::Bytes;
use http::{HeaderName, HeaderValue, StatusCode, header};
use http_server::Response;
use std::alloc::{AllocError, Global};
use taf_codes::Memory;

/// Begins a blank answer: how long it may be kept, and that no page of another origin reads or frames it.
pub(crate) fn begin(
    response: &mut Response,
    status: StatusCode,
    keep: &'static str,
) -> Result<(), AllocError>
    requires blank { IsBlank response.old }
    requires keep { IsTrue (is_visible_text keep.now) }
    ensures { OnOk result (IsResponse status (kept_fields keep.now) [] response.new) }
{
    response.status = status;
    add(response, header::CACHE_CONTROL, keep)?;
    add(response, header::X_CONTENT_TYPE_OPTIONS, "nosniff")?;
    add(response, header::REFERRER_POLICY, "no-referrer")?;
    add(response, header::X_FRAME_OPTIONS, "DENY")?;
    let name = HeaderName::from_static("cross-origin-resource-policy");
    add(response, name, "same-origin")
}

/// Adds a field whose value is known.
pub(crate) fn add(
    response: &mut Response,
    name: HeaderName,
    value: &'static str,
) -> Result<(), AllocError>
    requires { IsTrue (is_visible_text value.now) }
    ensures fields { OnOk result
        (fields_of response.new ≡ fields_of response.old ++ (name, value.now) ∷ []) }
    ensures status { response.new.status ≡ response.old.status }
    ensures body { response.new.body ≡ response.old.body }
{
    response.add_header(name, HeaderValue::from_static(value))
}

/// Begins a blank answer that has something to show, of this kind, which is not to be kept.
pub(crate) fn begin_typed(
    response: &mut Response,
    status: StatusCode,
    kind: &'static str,
) -> Result<(), Memory>
    requires blank { IsBlank response.old }
    requires kind { IsTrue (is_visible_text kind.now) }
    ensures { OnOk result
        (IsResponse status (typed_fields (codes "no-store") kind.now) [] response.new) }
{
    begin(response, status, "no-store")?;
    Ok(add(response, header::CONTENT_TYPE, kind)?)
}

/// Begins a blank answer that says that nothing has changed.
pub(crate) fn begin_unchanged(response: &mut Response) -> Result<(), Memory>
    requires { IsBlank response.old }
    ensures { OnOk result (IsResponse 304 (kept_fields (codes "no-store")) [] response.new) }
{
    Ok(begin(response, StatusCode::NOT_MODIFIED, "no-store")?)
}

/// Adds the tag of what is shown.
pub(crate) fn add_tag(alloc: Global, response: &mut Response, tag: &[u8]) -> Result<(), Memory>
    ensures fields { OnOk result (fields_of response.new
        ≡ fields_of response.old ++ (codes "etag", tag.now) ∷ []) }
    ensures status { response.new.status ≡ response.old.status }
    ensures body { response.new.body ≡ response.old.body }
{
    match HeaderValue::from_bytes(alloc, tag) {
        Ok(value) => Ok(response.add_header(header::ETAG, value)?),
        Err(_) => Err(Memory),
    }
}

/// Gives an answer that has none yet its body.
pub(crate) fn give(response: &mut Response, body: Vec<u8>) -> Result<(), Memory>
    requires { response.old.body.items ≡ [] }
    ensures body { OnOk result (response.new.body.items ≡ body.items) }
    ensures fields { fields_of response.new ≡ fields_of response.old }
    ensures status { response.new.status ≡ response.old.status }
{
    let Ok(body) = Bytes::from_vec(body) else {
        return Err(Memory);
    };
    Ok(response.body.push(body)?)
}
