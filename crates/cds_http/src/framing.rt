//! Finds how the body of a message is cut out of the bytes after its head.

ghost use Rattle.std.specs.Prelude.{◌≡◌, ◌≤◌, ◌⊎◌, IfErr};
ghost use Rattle.std.specs.List.{list_all};
ghost use Rattle.std.specs.Char.{is_digit};
ghost use Rattle.cds_base.specs.Number.{is_number_in};
ghost use Rattle.http_header.specs.HeaderMap.{get_all};
ghost use Rattle.cds_http.specs.Framing.{body_limit, counted_framing, coded_framing, unframed, framing_by, framing_of};

use crate::{HttpError, Side};
use cds_base::read_u32;
use http_header::{GetAll, HeaderMap, HeaderValue};

/// The most bytes of a body.
pub(crate) const BODY_LIMIT: usize = 67_108_864;

/// How a body ends: after `length` bytes, with its last chunk, or with the connection.
#[derive(Clone, Copy)]
pub(crate) enum Framing {
    Counted { length: usize },
    Chunked,
    ToEnd,
}

/// Returns whether all bytes are digits.
fn all_digits(bytes: &[u8]) -> bool
    ensures { result ≡ list_all (λ byte. is_digit byte 10) bytes.now }
{
    bytes.iter().all(|byte| char::from(*byte).is_digit(10))
}

/// Returns whether there is at least one byte and all are digits.
fn is_number(bytes: &[u8]) -> bool
    ensures { result ≡ is_number_in 10 bytes.now }
{
    bytes.len() > 0 && all_digits(bytes)
}

/// Returns the rule that a CONTENT-LENGTH gives.
fn counted(digits: &[u8]) -> Result<Framing, HttpError>
    ensures { result ≡ counted_framing digits.now }
{
    if !is_number(digits) {
        return Err(HttpError::BadLength);
    }
    match read_u32(digits) {
        Some(length) if length as usize <= BODY_LIMIT => Ok(Framing::Counted {
            length: length as usize,
        }),
        _ => Err(HttpError::TooLong),
    }
}

/// Returns the rule that a TRANSFER-ENCODING gives.
fn coded(coding: &[u8]) -> Result<Framing, HttpError>
    ensures { result ≡ coded_framing coding.now }
{
    if coding.eq_ignore_ascii_case(b"chunked") {
        Ok(Framing::Chunked)
    } else {
        Err(HttpError::BadLength)
    }
}

/// Returns the rule for a message without either field.
fn without(side: Side) -> Framing
    ensures { result ≡ unframed side }
{
    match side {
        Side::Request => Framing::Counted { length: 0 },
        Side::Reply => Framing::ToEnd,
    }
}

/// Returns the rule for the body that these fields give.
pub(crate) fn frame(side: Side, fields: &HeaderMap) -> Result<Framing, HttpError>
    ensures value { result ≡ framing_of side fields.now }
    ensures causes { IfErr result (λ e. (e ≡ HttpError.BadLength) ⊎ (e ≡ HttpError.TooLong)) }
{
    let mut lengths = fields.get_all("content-length").into_iter();
    let mut codings = fields.get_all("transfer-encoding").into_iter();
    match (lengths.next(), codings.next()) {
        (None, None) => Ok(without(side)),
        (Some(length), None) => {
            if lengths.next().is_some() {
                return Err(HttpError::BadLength);
            }
            counted(length.as_bytes())
        }
        (None, Some(coding)) => {
            if codings.next().is_some() {
                return Err(HttpError::BadLength);
            }
            coded(coding.as_bytes())
        }
        (Some(_), Some(_)) => Err(HttpError::BadLength),
    }
}
