//! Writes messages.

ghost use Rattle.std.specs.Prelude.{◌≡◌, ◌++◌, codes, length, OnOk, OnErr, IfOk};
ghost use Rattle.std.specs.Fmt.{decimal};
ghost use Rattle.cds_http.specs.Written.{CanBeWritten, line_break, field_line, field_lines, last_lines, request_line, reason_of, status_line, own_lines, request_text, reply_text, written_request, written_reply};

use crate::Fields;
use cds_base::Mem;
use std::alloc::Global;

/// Appends a request: the first line, the given fields, CONTENT-LENGTH, `CONNECTION: close`, an empty line, the body.
/// Names must be tokens, and values must have no CR, LF or NUL. A refusal leaves `out` as it was.
pub fn write_request(
    method: &str,
    target: &str,
    fields: &Fields,
    body: &[u8],
    out: &mut Vec<u8>,
) -> Result<(), Mem>
    requires { CanBeWritten fields.now }
    ensures ok { OnOk result (out.new.items ≡ out.old.items ++ written_request method.now target.now fields.now body.now) }
    ensures err { OnErr result (out.new.items ≡ out.old.items) }
{
    let head = request_head(*out.allocator(), method, target, fields, body.len() as u64)?;
    append_both(out, head.as_slice(), body)
}

/// Appends a reply: the first line with the reason of its status, `EXT:`, SERVER, the given fields, CONTENT-LENGTH,
/// `CONNECTION: close`, an empty line, the body. Names must be tokens, and values must have no CR, LF or NUL. A status
/// other than 200, 206, 400, 404, 405, 412, 413, 416, 500 and 503 is written with an empty reason. A refusal leaves
/// `out` as it was.
pub fn write_reply(status: u16, fields: &Fields, body: &[u8], out: &mut Vec<u8>) -> Result<(), Mem>
    requires { CanBeWritten fields.now }
    ensures ok { OnOk result (out.new.items ≡ out.old.items ++ written_reply status fields.now body.now) }
    ensures err { OnErr result (out.new.items ≡ out.old.items) }
{
    let head = reply_head(*out.allocator(), status, fields, body.len() as u64)?;
    append_both(out, head.as_slice(), body)
}

/// Appends the head of a reply: all of it up to its empty line. A body of `count` bytes is written after it. Names must
/// be tokens, and values must have no CR, LF or NUL. A refusal leaves `out` as it was.
pub fn write_reply_head(
    status: u16,
    fields: &Fields,
    count: u64,
    out: &mut Vec<u8>,
) -> Result<(), Mem>
    requires { CanBeWritten fields.now }
    ensures ok { OnOk result (out.new.items ≡ out.old.items ++ reply_text status fields.now count) }
    ensures err { OnErr result (out.new.items ≡ out.old.items) }
{
    let head = reply_head(*out.allocator(), status, fields, count)?;
    out.extend_from_slice(head.as_slice())?;
    Ok(())
}

/// Appends a head and a body, or nothing.
fn append_both(out: &mut Vec<u8>, head: &[u8], body: &[u8]) -> Result<(), Mem>
    ensures ok { OnOk result (out.new.items ≡ out.old.items ++ (head.now ++ body.now)) }
    ensures err { OnErr result (out.new.items ≡ out.old.items) }
{
    let before = out.len();
    out.extend_from_slice(head)?;
    if out.extend_from_slice(body).is_err() {
        out.truncate(before);
        return Err(Mem);
    }
    Ok(())
}

/// Returns the reason of a status that is written here, or an empty text for any other.
fn reason(status: u16) -> &'static [u8]
    ensures { result.now ≡ reason_of status }
{
    match status {
        200 => b"OK",
        206 => b"Partial Content",
        400 => b"Bad Request",
        404 => b"Not Found",
        405 => b"Method Not Allowed",
        412 => b"Precondition Failed",
        413 => b"Content Too Large",
        416 => b"Range Not Satisfiable",
        500 => b"Internal Server Error",
        503 => b"Service Unavailable",
        _ => b"",
    }
}

/// Appends bytes.
fn put(out: &mut Vec<u8>, piece: &[u8]) -> Result<(), Mem>
    ensures { OnOk result (out.new.items ≡ out.old.items ++ piece.now) }
{
    out.extend_from_slice(piece)?;
    Ok(())
}

/// Appends a number in decimal.
fn put_number(out: &mut Vec<u8>, number: u64) -> Result<(), Mem>
    ensures { OnOk result (out.new.items ≡ out.old.items ++ decimal number) }
{
    let digits = number.to_string(*out.allocator())?;
    out.extend_from_slice(digits.as_bytes())?;
    Ok(())
}

/// Appends a field line.
fn put_field(out: &mut Vec<u8>, name: &[u8], value: &[u8]) -> Result<(), Mem>
    ensures { OnOk result (out.new.items ≡ out.old.items ++ field_line name.now value.now) }
{
    put(out, name)?;
    put(out, b": ")?;
    put(out, value)?;
    put(out, b"\r\n")
}

/// Appends the given fields.
fn put_fields(out: &mut Vec<u8>, fields: &Fields) -> Result<(), Mem>
    ensures { OnOk result (out.new.items ≡ out.old.items ++ field_lines fields.now) }
{
    for field in fields.as_slice() {
        put_field(
            out,
            field.name.as_str().as_bytes(),
            field.value.as_str().as_bytes(),
        )?;
    }
    Ok(())
}

/// Appends CONTENT-LENGTH, `CONNECTION: close` and the empty line.
fn put_last(out: &mut Vec<u8>, count: u64) -> Result<(), Mem>
    ensures { OnOk result (out.new.items ≡ out.old.items ++ last_lines count) }
{
    put(out, b"CONTENT-LENGTH: ")?;
    put_number(out, count)?;
    put(out, b"\r\n")?;
    put_field(out, b"CONNECTION", b"close")?;
    put(out, b"\r\n")
}

/// Appends the first line of a request.
fn put_request_line(out: &mut Vec<u8>, method: &str, target: &str) -> Result<(), Mem>
    ensures { OnOk result (out.new.items ≡ out.old.items ++ request_line method.now target.now) }
{
    put(out, method.as_bytes())?;
    put(out, b" ")?;
    put(out, target.as_bytes())?;
    put(out, b" HTTP/1.1\r\n")
}

/// Appends the first line of a reply.
fn put_status_line(out: &mut Vec<u8>, status: u16) -> Result<(), Mem>
    ensures { OnOk result (out.new.items ≡ out.old.items ++ status_line status) }
{
    put(out, b"HTTP/1.1 ")?;
    put_number(out, u64::from(status))?;
    put(out, b" ")?;
    put(out, reason(status))?;
    put(out, b"\r\n")
}

/// Appends the fields of every reply.
fn put_own(out: &mut Vec<u8>) -> Result<(), Mem>
    ensures { OnOk result (out.new.items ≡ out.old.items ++ own_lines) }
{
    put(out, b"EXT:\r\n")?;
    put_field(out, b"SERVER", b"unix/1.0 UPnP/2.0 cds/1.0")
}

/// Returns the head of a request with a body of `count` bytes.
fn request_head(
    alloc: Global,
    method: &str,
    target: &str,
    fields: &Fields,
    count: u64,
) -> Result<Vec<u8>, Mem>
    ensures { IfOk result (λ head. head.items ≡ request_text method.now target.now fields.now count) }
{
    let mut head = Vec::new(alloc);
    put_request_line(&mut head, method, target)?;
    put_fields(&mut head, fields)?;
    put_last(&mut head, count)?;
    Ok(head)
}

/// Returns the head of a reply with a body of `count` bytes.
fn reply_head(alloc: Global, status: u16, fields: &Fields, count: u64) -> Result<Vec<u8>, Mem>
    ensures { IfOk result (λ head. head.items ≡ reply_text status fields.now count) }
{
    let mut head = Vec::new(alloc);
    put_status_line(&mut head, status)?;
    put_own(&mut head)?;
    put_fields(&mut head, fields)?;
    put_last(&mut head, count)?;
    Ok(head)
}
