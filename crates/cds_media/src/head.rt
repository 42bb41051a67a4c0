//! Writes the head of the reply to a request for a file.

ghost use Rattle.std.specs.Prelude.{◌≡◌, ◌++◌, ◌∷◌, [], ◌<◌, IfOk, OnErr, OnOk, string_bytes};
ghost use Rattle.cds_media.specs.Heads.{fields_of, head_text, kind_fields, part_text, places_text, range_field, refused_text};
ghost use Rattle.cds_media.specs.Plans.{FitsIn};
ghost use Rattle.cds_media.specs.declared.slice.Plan.TheVariants as planned;

use crate::slice::Plan;
use cds_base::{Mem, put, put_number};
use cds_http::{Fields, write_reply_head};
use std::alloc::Global;

/// Appends the head of the reply to a request for a file of this size, up to its empty line. If memory runs out, `out` stays as it
/// was.
///
/// - The status is 200 for the whole file, 206 for a part, and 416 for nothing.
/// - 200 and 206 have `CONTENT-TYPE: audio/flac` and `ACCEPT-RANGES: bytes`. 206 then has CONTENT-RANGE, as in `bytes 2-4/10`, with
///   the first place, the last place and the size. 416 has of these only CONTENT-RANGE, as in `bytes */10`.
/// - CONTENT-LENGTH counts the bytes that are planned.
pub fn write_media_head(plan: Plan, size: u64, out: &mut Vec<u8>) -> Result<(), Mem>
    requires fits { FitsIn size plan }
    ensures ok { OnOk result (out.new.items ≡ out.old.items ++ head_text size plan) }
    ensures err { OnErr result (out.new.items ≡ out.old.items) }
{
    let fields = head_fields(*out.allocator(), plan, size)?;
    write_reply_head(plan.status(), &fields, plan.count(size), out)
}

/// Returns the given fields of the reply.
fn head_fields(alloc: Global, plan: Plan, size: u64) -> Result<Fields, Mem>
    requires { FitsIn size plan }
    ensures { IfOk result (λ fields. fields ≡ fields_of size plan) }
{
    match plan {
        Plan::Whole => kind_fields(alloc),
        Plan::Part { from, to } => part_fields(alloc, size, from, to),
        Plan::None => refused_fields(alloc, size),
    }
}

/// Returns the two fields that 200 and 206 have.
fn kind_fields(alloc: Global) -> Result<Fields, Mem>
    ensures { IfOk result (λ fields. fields ≡ kind_fields) }
{
    let mut fields = Fields::new(alloc);
    fields.push(alloc, "CONTENT-TYPE", "audio/flac")?;
    fields.push(alloc, "ACCEPT-RANGES", "bytes")?;
    Ok(fields)
}

/// Returns the given fields of a reply with a part.
fn part_fields(alloc: Global, size: u64, from: u64, to: u64) -> Result<Fields, Mem>
    requires { from < to }
    ensures { IfOk result (λ fields. fields ≡ fields_of size (planned.Part from to)) }
{
    let text = part_text(alloc, size, from, to)?;
    let mut fields = kind_fields(alloc)?;
    fields.push(alloc, "CONTENT-RANGE", text.as_str())?;
    Ok(fields)
}

/// Returns the given fields of a reply to a range that is refused.
fn refused_fields(alloc: Global, size: u64) -> Result<Fields, Mem>
    ensures { IfOk result (λ fields. fields ≡ range_field (refused_text size) ∷ []) }
{
    let text = refused_text(alloc, size)?;
    let mut fields = Fields::new(alloc);
    fields.push(alloc, "CONTENT-RANGE", text.as_str())?;
    Ok(fields)
}

/// Returns which part it is, in the text of CONTENT-RANGE.
fn part_text(alloc: Global, size: u64, from: u64, to: u64) -> Result<String, Mem>
    requires { from < to }
    ensures { IfOk result (λ text. string_bytes text ≡ part_text size from to) }
{
    let mut text = String::new(alloc);
    put_places(&mut text, from, to)?;
    put(&mut text, "/")?;
    put_number(&mut text, size)?;
    Ok(text)
}

/// Appends the first and the last place of a part.
fn put_places(text: &mut String, from: u64, to: u64) -> Result<(), Mem>
    requires { from < to }
    ensures { OnOk result (string_bytes text.new ≡ string_bytes text.old ++ places_text from to) }
{
    put(text, "bytes ")?;
    put_number(text, from)?;
    put(text, "-")?;
    put_number(text, to - 1)
}

/// Returns the text of CONTENT-RANGE for a range that is refused.
fn refused_text(alloc: Global, size: u64) -> Result<String, Mem>
    ensures { IfOk result (λ text. string_bytes text ≡ refused_text size) }
{
    let mut text = String::new(alloc);
    put(&mut text, "bytes */")?;
    put_number(&mut text, size)?;
    Ok(text)
}
