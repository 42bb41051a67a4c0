//! Writes control requests.

ghost use Rattle.std.specs.Prelude.{◌≡◌, ◌++◌, IfOk, OnOk, OnErr, codes, string_bytes};
ghost use Rattle.cds_object.specs.Writing.{number_element, text_element};
ghost use Rattle.cds_soap.specs.Written.{envelope_start, envelope_end, service_start, service_end, slice_text, browse_text, search_text, arguments_text, request_body, request_fields, written_action};

use crate::names::{put_service_type, quoted_soap_action};
use crate::{Action, ActionName, BrowseRequest, SearchRequest};
use cds_base::{Mem, Text, put};
use cds_http::{Fields, write_request};
use cds_object::{put_number_element, put_text_element};
use std::alloc::Global;
use url::{Position, Url};

/// Appends the control request for an action in version 4 of the service, to an `http` address. Its target is the path
/// and the query of the address. Its HOST is the host and, unless that is 80, the port (UPnP Device Architecture 2.0 on
/// control). A refusal leaves `out` as it was.
pub fn write_action(action: &Action, url: &Url, out: &mut Vec<u8>) -> Result<(), Mem>
    requires http { url.now.scheme ≡ codes "http" }
    ensures ok { OnOk result (out.new.items ≡ out.old.items ++ written_action action.now url.now) }
    ensures err { OnErr result (out.new.items ≡ out.old.items) }
{
    let alloc = *out.allocator();
    let body = request_body(alloc, action)?;
    let fields = request_fields(alloc, action.name(), url)?;
    let target = url.slice(Position::BeforePath, Position::AfterQuery);
    write_request("POST", target, &fields, body.as_bytes(), out)
}

/// Returns the fields of a request.
fn request_fields(alloc: Global, name: ActionName, url: &Url) -> Result<Fields, Mem>
    ensures { IfOk result (λ fields. fields ≡ request_fields 4 name url.now) }
{
    let action = quoted_soap_action(alloc, 4, name)?;
    let host = url.slice(Position::BeforeHost, Position::AfterPort);
    let mut fields = Fields::new(alloc);
    fields.push(alloc, "HOST", host)?;
    fields.push(alloc, "CONTENT-TYPE", "text/xml; charset=\"utf-8\"")?;
    fields.push(alloc, "SOAPACTION", action.as_str())?;
    Ok(fields)
}

/// Returns the body of a request in version 4.
fn request_body(alloc: Global, action: &Action) -> Result<String, Mem>
    ensures { IfOk result (λ body. string_bytes body ≡ request_body 4 action.now) }
{
    let local = action.name().as_str();
    let mut body = String::new(alloc);
    put_envelope_start(&mut body)?;
    put_service_start(&mut body, 4, local)?;
    put_arguments(&mut body, action)?;
    put_service_end(&mut body, local)?;
    put_envelope_end(&mut body)?;
    Ok(body)
}

/// Appends the start of an envelope.
#[tactic(auto, unfolding(crate::specs::Written::envelope_start))]
pub fn put_envelope_start(out: &mut String) -> Result<(), Mem>
    ensures { OnOk result (string_bytes out.new ≡ string_bytes out.old ++ envelope_start) }
{
    put(
        out,
        "<?xml version=\"1.0\"?><s:Envelope xmlns:s=\"http://schemas.xmlsoap.org/soap/envelope/\" s:encodingStyle=\"http://schemas.xmlsoap.org/soap/encoding/\"><s:Body>",
    )
}

/// Appends the end of an envelope.
#[tactic(auto, unfolding(crate::specs::Written::envelope_end))]
pub fn put_envelope_end(out: &mut String) -> Result<(), Mem>
    ensures { OnOk result (string_bytes out.new ≡ string_bytes out.old ++ envelope_end) }
{
    put(out, "</s:Body></s:Envelope>")
}

/// Appends the start tag of an element of the service.
#[tactic(auto, unfolding(crate::specs::Written::service_start))]
pub fn put_service_start(out: &mut String, version: u8, local: &str) -> Result<(), Mem>
    ensures { OnOk result (string_bytes out.new ≡ string_bytes out.old ++ service_start version local.now) }
{
    put(out, "<u:")?;
    put(out, local)?;
    put(out, " xmlns:u=\"")?;
    put_service_type(out, version)?;
    put(out, "\">")?;
    Ok(())
}

/// Appends the end tag of an element of the service.
#[tactic(auto, unfolding(crate::specs::Written::service_end))]
pub fn put_service_end(out: &mut String, local: &str) -> Result<(), Mem>
    ensures { OnOk result (string_bytes out.new ≡ string_bytes out.old ++ service_end local.now) }
{
    put(out, "</u:")?;
    put(out, local)?;
    put(out, ">")?;
    Ok(())
}

/// Appends an element without attributes around a number of 32 bits.
pub fn put_u32_element(out: &mut String, name: &str, number: u32) -> Result<(), Mem>
    ensures { OnOk result (string_bytes out.new ≡ string_bytes out.old ++ number_element name.now number) }
{
    put_number_element(out, name, u64::from(number))
}

/// Appends an element without attributes around a text.
fn put_text(out: &mut String, name: &str, text: &Text) -> Result<(), Mem>
    ensures { OnOk result (string_bytes out.new ≡ string_bytes out.old ++ text_element name.now text.now) }
{
    put_text_element(out, name, text.as_str())
}

/// Appends the arguments that Browse and Search have in common.
#[tactic(auto, unfolding(crate::specs::Written::slice_text))]
fn put_slice(
    out: &mut String,
    filter: &Text,
    start: u32,
    count: u32,
    sort: &Text,
) -> Result<(), Mem>
    ensures { OnOk result (string_bytes out.new ≡ string_bytes out.old ++ slice_text filter.now start count sort.now) }
{
    put_text(out, "Filter", filter)?;
    put_u32_element(out, "StartingIndex", start)?;
    put_u32_element(out, "RequestedCount", count)?;
    put_text(out, "SortCriteria", sort)?;
    Ok(())
}

/// Appends the arguments of Browse.
#[tactic(auto, unfolding(crate::specs::Written::browse_text))]
fn put_browse(out: &mut String, request: &BrowseRequest) -> Result<(), Mem>
    ensures { OnOk result (string_bytes out.new ≡ string_bytes out.old ++ browse_text request.now) }
{
    put_text(out, "ObjectID", &request.object)?;
    put_text(out, "BrowseFlag", &request.flag)?;
    put_slice(
        out,
        &request.filter,
        request.start,
        request.count,
        &request.sort,
    )?;
    Ok(())
}

/// Appends the arguments of Search.
#[tactic(auto, unfolding(crate::specs::Written::search_text))]
fn put_search(out: &mut String, request: &SearchRequest) -> Result<(), Mem>
    ensures { OnOk result (string_bytes out.new ≡ string_bytes out.old ++ search_text request.now) }
{
    put_text(out, "ContainerID", &request.container)?;
    put_text(out, "SearchCriteria", &request.criteria)?;
    put_slice(
        out,
        &request.filter,
        request.start,
        request.count,
        &request.sort,
    )?;
    Ok(())
}

/// Appends the arguments of an action.
fn put_arguments(out: &mut String, action: &Action) -> Result<(), Mem>
    ensures { OnOk result (string_bytes out.new ≡ string_bytes out.old ++ arguments_text action.now) }
{
    match action {
        Action::Browse(request) => put_browse(out, request),
        Action::Search(request) => put_search(out, request),
        _ => Ok(()),
    }
}
