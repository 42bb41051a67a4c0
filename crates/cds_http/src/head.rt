//! Reads the head of a message after all of it has come.

ghost use Rattle.std.specs.Prelude.{◌≡◌, ◌<◌, ◌≤◌, [], length, map, All, OnOk, IfErr, MatchResult, IsUtf8};
ghost use Rattle.httparse.specs.Spans.{span_bytes, IsHeaderWithin, header_bytes, IsRequestWithin, IsRequestOf, IsResponseWithin, IsResponseOf};
ghost use Rattle.http_header.specs.Token.{lowercase};
ghost use Rattle.http_header.specs.FieldName.{IsFieldName};
ghost use Rattle.http_header.specs.FieldValue.{IsFieldValue, plain_value};
ghost use Rattle.http_header.specs.HeaderMap.{append, value_count};
ghost use Rattle.cds_http.specs.declared.lines.LinePlace.{LinePlace};
ghost use Rattle.cds_http.specs.Lines.{EndsThere};
ghost use Rattle.cds_http.specs.Head.{head_limit, kept_fields, CanBeKept, HoldsRequest, HoldsReply, HeadRead};

use crate::{HttpError, Side, Start};
use bytes::Bytes as Shared;
use cds_base::Text;
use http_header::{HeaderMap, HeaderMapError, HeaderName, HeaderNameError, HeaderValue};
use httparse::Status;
use httparse::spans::{
    EMPTY_HEADER_SPAN, HeaderSpan, RequestSpans, ResponseSpans, Span, parse_request, parse_response,
};
use std::alloc::Global;

/// The most bytes of a head, or of a trailer.
pub(crate) const HEAD_LIMIT: usize = 16_384;

/// The most fields of a head, or of a trailer.
pub(crate) const FIELD_LIMIT: usize = 64;

/// The first line and the fields of a message.
#[derive(Drop)]
pub(crate) struct Head {
    pub start: Start,
    pub fields: HeaderMap,
}

/// Returns the name of a field in lower case.
fn read_name(alloc: Global, bytes: &[u8]) -> Result<HeaderName, HttpError>
    requires { IsFieldName bytes.now }
    ensures { MatchResult result (λ name. name ≡ lowercase bytes.now) (λ e. e ≡ HttpError.Mem) }
{
    match HeaderName::from_bytes(alloc, bytes) {
        Ok(name) => Ok(name),
        Err(HeaderNameError::Invalid) => unreachable!(),
        Err(_) => Err(HttpError::Mem),
    }
}

/// Returns the value of a field. It shares the text in which it stands.
fn read_value(text: &Shared, span: Span) -> Result<HeaderValue, HttpError>
    requires ordered { span.start ≤ span.end }
    requires within { span.end ≤ length text.now }
    requires sound { IsFieldValue (span_bytes text.now span) }
    ensures { MatchResult result (λ value. value ≡ plain_value (span_bytes text.now span)) (λ e. e ≡ HttpError.Mem) }
{
    match text.slice(span.start..span.end) {
        Ok(value) => Ok(HeaderValue::from_known_valid(value)),
        Err(_) => Err(HttpError::Mem),
    }
}

/// Makes room for `count` names.
fn make_room(fields: &mut HeaderMap, count: usize) -> Result<(), HttpError>
    requires { (fields.old ≡ []) × (count ≤ 64) }
    ensures same { fields.new ≡ fields.old }
    ensures err { IfErr result (λ e. e ≡ HttpError.Mem) }
{
    match fields.reserve(count) {
        Ok(_) => Ok(()),
        Err(HeaderMapError::MaxSizeReached) => unreachable!(),
        Err(_) => Err(HttpError::Mem),
    }
}

/// Adds a field.
fn add_field(fields: &mut HeaderMap, name: HeaderName, value: HeaderValue) -> Result<(), HttpError>
    requires names { length fields.old < 64 }
    requires values { value_count fields.old < 64 }
    ensures ok { OnOk result (fields.new ≡ append fields.old name value) }
    ensures err { IfErr result (λ e. e ≡ HttpError.Mem) }
{
    match fields.append(name, value) {
        Ok(_) => Ok(()),
        Err(HeaderMapError::MaxSizeReached) => unreachable!(),
        Err(_) => Err(HttpError::Mem),
    }
}

/// Returns the fields by their names.
fn read_fields(alloc: Global, text: &[u8], headers: &[HeaderSpan]) -> Result<HeaderMap, HttpError>
    requires within { All (IsHeaderWithin (length text.now)) headers.now }
    requires sound { All (λ h. CanBeKept (header_bytes text.now h)) headers.now }
    requires few { length headers.now ≤ 64 }
    ensures { MatchResult result (λ fields. fields ≡ kept_fields (map (header_bytes text.now) headers.now)) (λ e. e ≡ HttpError.Mem) }
{
    let shared = Shared::copy_from_slice(alloc, text)?;
    let mut fields = HeaderMap::new(alloc);
    make_room(&mut fields, headers.len())?;
    for header in headers {
        let name = read_name(alloc, header.name.of(text))?;
        let value = read_value(&shared, header.value)?;
        add_field(&mut fields, name, value)?;
    }
    Ok(fields)
}

/// Returns a text of the first line.
fn read_text(alloc: Global, bytes: &[u8]) -> Result<Text, HttpError>
    requires { IsUtf8 bytes.now }
    ensures { MatchResult result (λ text. text ≡ bytes.now) (λ e. e ≡ HttpError.Mem) }
{
    match str::from_utf8(bytes) {
        Ok(text) => Ok(Text::read(alloc, text)?),
        Err(_) => unreachable!(),
    }
}

/// Returns the head that these spans of a request cover.
fn request_head(
    alloc: Global,
    text: &[u8],
    headers: &[HeaderSpan],
    spans: RequestSpans,
) -> Result<Head, HttpError>
    requires within { IsRequestWithin text.now headers.now spans }
    requires covers { IsRequestOf text.now headers.now spans }
    requires few { length headers.now ≤ 64 }
    requires short { length text.now ≤ head_limit }
    ensures { MatchResult result (HoldsRequest text.now headers.now spans) (λ e. e ≡ HttpError.Mem) }
{
    let method = read_text(alloc, spans.method.of(text))?;
    let target = read_text(alloc, spans.path.of(text))?;
    let (covered, _) = headers.split_at(spans.headers);
    let fields = read_fields(alloc, text, covered)?;
    Ok(Head {
        start: Start::Request { method, target },
        fields,
    })
}

/// Returns the head that these spans of a reply cover.
fn reply_head(
    alloc: Global,
    text: &[u8],
    headers: &[HeaderSpan],
    spans: ResponseSpans,
) -> Result<Head, HttpError>
    requires within { IsResponseWithin text.now headers.now spans }
    requires covers { IsResponseOf text.now headers.now spans }
    requires few { length headers.now ≤ 64 }
    requires short { length text.now ≤ head_limit }
    ensures { MatchResult result (HoldsReply text.now headers.now spans) (λ e. e ≡ HttpError.Mem) }
{
    let (covered, _) = headers.split_at(spans.headers);
    let fields = read_fields(alloc, text, covered)?;
    Ok(Head {
        start: Start::Reply { status: spans.code },
        fields,
    })
}

/// Reads the head of a request.
fn read_request_head(alloc: Global, text: &[u8]) -> Result<Head, HttpError>
    requires { length text.now ≤ head_limit }
    ensures { EndsThere LinePlace.Before text.now → HeadRead Side.Request text.now result }
{
    let mut headers = [EMPTY_HEADER_SPAN; FIELD_LIMIT];
    match parse_request(text, &mut headers) {
        Ok(Status::Complete(spans)) => request_head(alloc, text, &headers, spans),
        Ok(Status::Partial) => Err(HttpError::BadHead),
        Err(_) => Err(HttpError::BadHead),
    }
}

/// Reads the head of a reply.
fn read_reply_head(alloc: Global, text: &[u8]) -> Result<Head, HttpError>
    requires { length text.now ≤ head_limit }
    ensures { EndsThere LinePlace.Before text.now → HeadRead Side.Reply text.now result }
{
    let mut headers = [EMPTY_HEADER_SPAN; FIELD_LIMIT];
    match parse_response(text, &mut headers) {
        Ok(Status::Complete(spans)) => reply_head(alloc, text, &headers, spans),
        Ok(Status::Partial) => Err(HttpError::BadHead),
        Err(_) => Err(HttpError::BadHead),
    }
}

/// Reads a head. The end of the head is the end of the text.
pub(crate) fn read_head(alloc: Global, side: Side, text: &[u8]) -> Result<Head, HttpError>
    requires { length text.now ≤ head_limit }
    ensures { EndsThere LinePlace.Before text.now → HeadRead side text.now result }
{
    match side {
        Side::Request => read_request_head(alloc, text),
        Side::Reply => read_reply_head(alloc, text),
    }
}
