//! Writing DIDL-Lite.

ghost use Rattle.std.specs.Prelude.{◌≡◌, ◌++◌, OnOk, OnErr, IfOk, codes, string_bytes};
ghost use Rattle.std.specs.List.{AllByRecursion};
ghost use Rattle.cds_object.specs.Fragment.{fragment};
ghost use Rattle.cds_didl.specs.Fragment.{fragment_of, fragments, didl_start, didl_text};
ghost use Rattle.cds_didl.specs.ReadBack.{HasRanges, IsReadBack};

use crate::Filter;
use crate::ranges::ranges;
use crate::row_text::put_row;
use cds_base::{Mem, put};
use cds_object::Row;
use std::alloc::Global;

/// How many bytes of room are first taken for each row, so that a page is seldom moved as it grows.
const ROW_LENGTH: usize = 640;

/// Appends the element of a row, with the properties that the filter lets through. The place of a track's bytes is the base,
/// which is escaped, then `/media/` and the id. A refusal leaves `out` as it was.
pub fn write_fragment(row: &Row, filter: &Filter, base: &str, out: &mut Vec<u8>) -> Result<(), Mem>
    ensures ok { OnOk result (out.new.items ≡ out.old.items ++ fragment_of filter.now base.now row.now) }
    ensures err { OnErr result (out.new.items ≡ out.old.items) }
{
    let mut text = String::new(*out.allocator());
    put_row(&mut text, row, filter, base)?;
    append(text, out)
}

/// Puts the element of a row as a report has it, with every property and an empty base. After a refusal the text may have a part
/// of it.
#[tactic(auto, using(crate::proofs::Whole::whole_text))]
pub fn put_fragment(out: &mut String, row: &Row) -> Result<(), Mem>
    ensures ok { OnOk result (string_bytes out.new ≡ string_bytes out.old ++ fragment row.now) }
{
    put_row(out, row, &Filter::all(), "")?;
    Ok(())
}

/// Appends a document of these rows. A refusal leaves `out` as it was. `read_didl` gives these rows of the document if the filter
/// is the whole one, texts and base have allowed characters only, and the document has at most `INPUT_LIMIT` bytes.
pub fn write_didl(rows: &[Row], filter: &Filter, base: &str, out: &mut Vec<u8>) -> Result<(), Mem>
    ensures ok { OnOk result (out.new.items ≡ out.old.items ++ didl_text filter.now base.now rows.now) }
    ensures read_back { OnOk result (IsReadBack filter.now base.now rows.now) }
    ensures err { OnErr result (out.new.items ≡ out.old.items) }
{
    let text = didl_text(*out.allocator(), rows, filter, base)?;
    append(text, out)
}

/// Appends a text. If `out` is empty, the text takes its place with no copy. A refusal leaves `out` as it was.
fn append(text: String, out: &mut Vec<u8>) -> Result<(), Mem>
    ensures ok { OnOk result (out.new.items ≡ out.old.items ++ string_bytes text) }
    ensures err { OnErr result (out.new.items ≡ out.old.items) }
{
    if out.is_empty() {
        *out = text.into_bytes();
    } else {
        out.extend_from_slice(text.as_bytes())?;
    }
    Ok(())
}

/// Returns the text of a document of these rows.
#[tactic(auto, unfolding(crate::specs::Fragment::didl_text))]
fn didl_text(alloc: Global, rows: &[Row], filter: &Filter, base: &str) -> Result<String, Mem>
    ensures text { IfOk result (λ text. string_bytes text ≡ didl_text filter.now base.now rows.now) }
    ensures ranged { OnOk result (AllByRecursion HasRanges rows.now) }
{
    let mut text = String::new(alloc);
    text.reserve(rows.len().saturating_mul(ROW_LENGTH))?;
    put_didl_start(&mut text)?;
    put_rows(&mut text, rows, filter, base)?;
    put_didl_end(&mut text)?;
    Ok(text)
}

/// Puts the start tag of a document. After a refusal the text may have a part of it.
#[tactic(auto, unfolding(crate::specs::Fragment::didl_start))]
pub fn put_didl_start(out: &mut String) -> Result<(), Mem>
    ensures { OnOk result (string_bytes out.new ≡ string_bytes out.old ++ didl_start) }
{
    put(
        out,
        "<DIDL-Lite xmlns=\"urn:schemas-upnp-org:metadata-1-0/DIDL-Lite/\" xmlns:dc=\"http://purl.org/dc/elements/1.1/\" xmlns:upnp=\"urn:schemas-upnp-org:metadata-1-0/upnp/\">",
    )?;
    Ok(())
}

/// Puts the end tag of a document. After a refusal the text may have a part of it.
pub fn put_didl_end(out: &mut String) -> Result<(), Mem>
    ensures { OnOk result (string_bytes out.new ≡ string_bytes out.old ++ codes "</DIDL-Lite>") }
{
    put(out, "</DIDL-Lite>")?;
    Ok(())
}

/// Puts the texts of rows.
fn put_rows(out: &mut String, rows: &[Row], filter: &Filter, base: &str) -> Result<(), Mem>
    ensures text { OnOk result (string_bytes out.new ≡ string_bytes out.old ++ fragments filter.now base.now rows.now) }
    ensures ranged { OnOk result (AllByRecursion HasRanges rows.now) }
{
    for row in rows {
        ranges(row);
        put_row(out, row, filter, base)?;
    }
    Ok(())
}
