//! Writes answers.

ghost use Rattle.std.specs.Prelude.{◌≡◌, ◌++◌, ℕ, List, IfOk, OnOk, OnErr, codes, length, string_bytes, option_copied};
ghost use Rattle.cds_base.specs.Escape.{escaped};
ghost use Rattle.cds_object.specs.Writing.{text_element, number_element};
ghost use Rattle.cds_soap.specs.Names.{name_of_action};
ghost use Rattle.cds_soap.specs.Written.{description, fault_front, fault_end, fault_text, text_result, answer_status, answer_fields, written_answer, is_known_code, fits, Fits, CanBeToken};
ghost use Rattle.cds_soap.specs.declared.action.ActionName.{ActionName};
ghost use Rattle.cds_soap.specs.Shell.{page_of, page_front, page_back, in_response, front_inside, back_inside, front_of, back_of};

use crate::request_text::{
    put_envelope_end, put_envelope_start, put_service_end, put_service_start, put_u32_element,
};
use crate::{Action, ActionName, Answer};
use cds_base::{Mem, put};
use cds_escape::{escaped_length, put_escaped};
use cds_http::{Fields, write_reply_head};
use cds_object::put_text_element;
use std::alloc::Global;

/// Appends the reply that answers an action in a version of the service. The status is 200 with the results, or 500
/// with a fault of control. The answer must be of the kind of the action or a fault of a known code. A token must be 1
/// to 255 visible bytes of ASCII. It is written in `CDS-RESET-TOKEN` after the other given fields. A page is escaped in
/// the reply. A refusal leaves `out` as it was.
pub fn write_answer(
    action: &Action,
    version: u8,
    answer: &Answer,
    token: Option<&str>,
    out: &mut Vec<u8>,
) -> Result<(), Mem>
    requires fits { Fits (name_of_action action.now) answer.now }
    requires token { CanBeToken (option_copied token) }
    ensures ok { OnOk result (out.new.items ≡ out.old.items ++ written_answer action.now version answer.now (option_copied token.entry)) }
    ensures err { OnErr result (out.new.items ≡ out.old.items) }
{
    let alloc = *out.allocator();
    let front = front_of(alloc, action.name(), version, answer)?;
    let back = back_of(alloc, action.name(), answer)?;
    let page = page_of(answer);
    let size = escaped_length(page)?;
    let count = body_length(front.as_str(), page, size, back.as_str())?;
    let fields = answer_fields(alloc, token)?;
    let mut head = Vec::new(alloc);
    write_reply_head(status_of(answer), &fields, count as u64, &mut head)?;
    append_reply(
        head.as_slice(),
        front.as_bytes(),
        page,
        size,
        back.as_bytes(),
        out,
    )
}

/// Returns whether the code of a fault is known.
fn is_known_code(code: u16) -> bool
    ensures { result ≡ is_known_code code }
{
    1 <= description(code).len()
}

/// Returns whether an answer is a page, or a fault of a known code.
fn fits_page(answer: &Answer) -> bool
    ensures browse { result ≡ fits ActionName.Browse answer.now }
    ensures search { result ≡ fits ActionName.Search answer.now }
{
    match answer {
        Answer::Page { .. } => true,
        Answer::Number(_) => false,
        Answer::Text(_) => false,
        Answer::Fault { code } => is_known_code(*code),
    }
}

/// Returns whether an answer is a number, or a fault of a known code.
fn fits_number(answer: &Answer) -> bool
    ensures { result ≡ fits ActionName.GetSystemUpdateId answer.now }
{
    match answer {
        Answer::Page { .. } => false,
        Answer::Number(_) => true,
        Answer::Text(_) => false,
        Answer::Fault { code } => is_known_code(*code),
    }
}

/// Returns whether an answer is a text, or a fault of a known code.
fn fits_text(answer: &Answer) -> bool
    ensures token { result ≡ fits ActionName.GetServiceResetToken answer.now }
    ensures search { result ≡ fits ActionName.GetSearchCapabilities answer.now }
    ensures sort { result ≡ fits ActionName.GetSortCapabilities answer.now }
{
    match answer {
        Answer::Page { .. } => false,
        Answer::Number(_) => false,
        Answer::Text(_) => true,
        Answer::Fault { code } => is_known_code(*code),
    }
}

/// Returns whether an answer is of the kind of an action, or a fault of a known code. `write_answer` requires this.
pub fn fits(name: ActionName, answer: &Answer) -> bool
    ensures { result ≡ fits name answer.now }
{
    match name {
        ActionName::Browse => fits_page(answer),
        ActionName::Search => fits_page(answer),
        ActionName::GetSystemUpdateId => fits_number(answer),
        ActionName::GetServiceResetToken => fits_text(answer),
        ActionName::GetSearchCapabilities => fits_text(answer),
        ActionName::GetSortCapabilities => fits_text(answer),
    }
}

/// Returns the page of an answer, or nothing if it has none.
fn page_of(answer: &Answer) -> &[u8]
    ensures { result.now ≡ page_of answer.now }
{
    match answer {
        Answer::Page { result, .. } => result.as_slice(),
        _ => b"",
    }
}

/// Returns the status of an answer.
fn status_of(answer: &Answer) -> u16
    ensures { result ≡ answer_status answer.now }
{
    match answer {
        Answer::Fault { .. } => 500,
        _ => 200,
    }
}

/// Returns the given fields of an answer.
fn answer_fields(alloc: Global, token: Option<&str>) -> Result<Fields, Mem>
    ensures { IfOk result (λ fields. fields ≡ answer_fields (option_copied token.entry)) }
{
    let mut fields = Fields::new(alloc);
    fields.push(alloc, "CONTENT-TYPE", "text/xml; charset=\"utf-8\"")?;
    match token {
        Some(token) => fields.push(alloc, "CDS-RESET-TOKEN", token)?,
        None => (),
    }
    Ok(fields)
}

/// Appends what is before the page in its response.
#[tactic(auto, unfolding(crate::specs::Shell::page_front))]
fn put_page_front(out: &mut String, name: ActionName, version: u8) -> Result<(), Mem>
    ensures { OnOk result (string_bytes out.new ≡ string_bytes out.old ++ page_front name version) }
{
    put_service_start(out, version, name.response())?;
    put(out, "<Result>")?;
    Ok(())
}

/// Appends what is after the page in its response.
#[tactic(auto, unfolding(crate::specs::Shell::page_back))]
fn put_page_back(
    out: &mut String,
    name: ActionName,
    returned: u32,
    total: u32,
    update: u32,
) -> Result<(), Mem>
    ensures { OnOk result (string_bytes out.new ≡ string_bytes out.old ++ page_back name returned total update) }
{
    put(out, "</Result>")?;
    put_u32_element(out, "NumberReturned", returned)?;
    put_u32_element(out, "TotalMatches", total)?;
    put_u32_element(out, "UpdateID", update)?;
    put_service_end(out, name.response())?;
    Ok(())
}

/// Appends a response with one number.
#[tactic(auto, unfolding(crate::specs::Shell::in_response))]
fn put_number_response(
    out: &mut String,
    name: ActionName,
    version: u8,
    number: u32,
) -> Result<(), Mem>
    ensures { OnOk result (string_bytes out.new ≡ string_bytes out.old ++ in_response name version (number_element (codes "Id") number)) }
{
    put_service_start(out, version, name.response())?;
    put_u32_element(out, "Id", number)?;
    put_service_end(out, name.response())?;
    Ok(())
}

/// Appends a response with one text.
#[tactic(auto, unfolding(crate::specs::Shell::in_response))]
fn put_text_response(out: &mut String, name: ActionName, version: u8, text: &str) -> Result<(), Mem>
    ensures { OnOk result (string_bytes out.new ≡ string_bytes out.old ++ in_response name version (text_element (text_result name) text.now)) }
{
    put_service_start(out, version, name.response())?;
    put_text_element(out, text_result(name), text)?;
    put_service_end(out, name.response())?;
    Ok(())
}

/// Appends what is before the page in an envelope.
fn put_front_inside(
    out: &mut String,
    name: ActionName,
    version: u8,
    answer: &Answer,
) -> Result<(), Mem>
    ensures { OnOk result (string_bytes out.new ≡ string_bytes out.old ++ front_inside name version answer.now) }
{
    match answer {
        Answer::Page { .. } => put_page_front(out, name, version),
        Answer::Number(number) => put_number_response(out, name, version, *number),
        Answer::Text(text) => put_text_response(out, name, version, text.as_str()),
        Answer::Fault { code } => put_fault(out, *code),
    }
}

/// Appends what is after the page in an envelope.
fn put_back_inside(out: &mut String, name: ActionName, answer: &Answer) -> Result<(), Mem>
    ensures { OnOk result (string_bytes out.new ≡ string_bytes out.old ++ back_inside name answer.now) }
{
    match answer {
        Answer::Page {
            returned,
            total,
            update,
            ..
        } => put_page_back(out, name, *returned, *total, *update),
        _ => Ok(()),
    }
}

/// Returns what is before the page in the body. If there is no page, this is all of the body except its end.
fn front_of(alloc: Global, name: ActionName, version: u8, answer: &Answer) -> Result<String, Mem>
    ensures { IfOk result (λ front. string_bytes front ≡ front_of name version answer.now) }
{
    let mut front = String::new(alloc);
    put_envelope_start(&mut front)?;
    put_front_inside(&mut front, name, version, answer)?;
    Ok(front)
}

/// Returns what is after the page in the body.
fn back_of(alloc: Global, name: ActionName, answer: &Answer) -> Result<String, Mem>
    ensures { IfOk result (λ back. string_bytes back ≡ back_of name answer.now) }
{
    let mut back = String::new(alloc);
    put_back_inside(&mut back, name, answer)?;
    put_envelope_end(&mut back)?;
    Ok(back)
}

/// Returns the name of the result that is a text.
fn text_result(name: ActionName) -> &'static str
    ensures { result.now ≡ text_result name }
{
    match name {
        ActionName::GetServiceResetToken => "ResetToken",
        ActionName::GetSearchCapabilities => "SearchCaps",
        ActionName::GetSortCapabilities => "SortCaps",
        _ => "",
    }
}

/// Returns what the code of a fault means.
fn description(code: u16) -> &'static str
    ensures { result.now ≡ description code }
{
    match code {
        401 => "Invalid Action",
        402 => "Invalid Args",
        603 => "Out of Memory",
        701 => "No such object",
        708 => "Unsupported or invalid search criteria",
        709 => "Unsupported or invalid sort criteria",
        710 => "No such container",
        _ => "",
    }
}

/// Appends what is before the code of a fault.
#[tactic(auto, unfolding(crate::specs::Written::fault_front))]
fn put_fault_front(out: &mut String) -> Result<(), Mem>
    ensures { OnOk result (string_bytes out.new ≡ string_bytes out.old ++ fault_front) }
{
    put(
        out,
        "<s:Fault><faultcode>s:Client</faultcode><faultstring>UPnPError</faultstring><detail><UPnPError xmlns=\"urn:schemas-upnp-org:control-1-0\">",
    )
}

/// Appends what is after the description of a fault.
#[tactic(auto, unfolding(crate::specs::Written::fault_end))]
fn put_fault_end(out: &mut String) -> Result<(), Mem>
    ensures { OnOk result (string_bytes out.new ≡ string_bytes out.old ++ fault_end) }
{
    put(out, "</UPnPError></detail></s:Fault>")
}

/// Appends the code of a fault.
fn put_code(out: &mut String, code: u16) -> Result<(), Mem>
    ensures { OnOk result (string_bytes out.new ≡ string_bytes out.old ++ number_element (codes "errorCode") code) }
{
    put_u32_element(out, "errorCode", u32::from(code))
}

/// Appends what the code of a fault means.
fn put_description(out: &mut String, code: u16) -> Result<(), Mem>
    ensures { OnOk result (string_bytes out.new ≡ string_bytes out.old ++ text_element (codes "errorDescription") (description code)) }
{
    put_text_element(out, "errorDescription", description(code))
}

/// Appends a fault.
#[tactic(auto, unfolding(crate::specs::Written::fault_text))]
fn put_fault(out: &mut String, code: u16) -> Result<(), Mem>
    ensures { OnOk result (string_bytes out.new ≡ string_bytes out.old ++ fault_text code) }
{
    put_fault_front(out)?;
    put_code(out, code)?;
    put_description(out, code)?;
    put_fault_end(out)?;
    Ok(())
}

/// Returns the number of bytes of a body whose page has `size` bytes after it is escaped.
fn body_length(front: &str, page: &[u8], size: usize, back: &str) -> Result<usize, Mem>
    requires { size ≡ length (escaped page.now) }
    ensures { IfOk result (λ count. count ≡ length (front.now ++ (escaped page.now ++ back.now))) }
{
    match size.checked_add(front.len()) {
        Some(sum) => sum.checked_add(back.len()).ok_or(Mem),
        None => Err(Mem),
    }
}

/// Appends a head and a body, or nothing. The escaped page has `size` bytes.
fn append_reply(
    head: &[u8],
    front: &[u8],
    page: &[u8],
    size: usize,
    back: &[u8],
    out: &mut Vec<u8>,
) -> Result<(), Mem>
    requires { size ≡ length (escaped page.now) }
    ensures ok { OnOk result (out.new.items ≡ out.old.items ++ (head.now ++ (front.now ++ (escaped page.now ++ back.now)))) }
    ensures err { OnErr result (out.new.items ≡ out.old.items) }
{
    let before = out.len();
    match put_reply(head, front, page, size, back, out) {
        Ok(()) => Ok(()),
        Err(Mem) => {
            out.truncate(before);
            Err(Mem)
        }
    }
}

/// Appends a head and a body. The escaped page has `size` bytes. A refusal may leave some of the bytes.
fn put_reply(
    head: &[u8],
    front: &[u8],
    page: &[u8],
    size: usize,
    back: &[u8],
    out: &mut Vec<u8>,
) -> Result<(), Mem>
    requires { size ≡ length (escaped page.now) }
    ensures ok { OnOk result (out.new.items ≡ out.old.items ++ (head.now ++ (front.now ++ (escaped page.now ++ back.now)))) }
    ensures err { OnErr result ((some : List ℕ) × (out.new.items ≡ out.old.items ++ some)) }
{
    let around = front.len().saturating_add(back.len());
    out.reserve(head.len().saturating_add(around).saturating_add(size))?;
    out.extend_from_slice(head)?;
    out.extend_from_slice(front)?;
    out.reserve(size)?;
    put_escaped(page, out);
    out.extend_from_slice(back)?;
    Ok(())
}
