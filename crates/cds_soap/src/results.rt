//! Reads results and faults from elements.

ghost use Rattle.std.specs.Prelude.{◌≡◌, ◌^◌, IfOk, [], codes, option_copied, option_map};
ghost use Rattle.cds_markup.specs.Children.{only_of, named, nodes_in};
ghost use Rattle.cds_soap.specs.Given.{number_in, text_given, number_given, page_given, results_given};
ghost use Rattle.cds_soap.specs.declared.answer.Answer.{Answer};
ghost use Rattle.cds_soap.specs.Answered.{control_space, code_in};

use crate::given::{bytes_given, number_given, number_in, text_given};
use crate::{ActionName, Answer};
use cds_base::Mem;
use cds_markup::Element;
use std::alloc::Global;

/// Returns the page that an element gives.
#[tactic(auto, unfolding(crate::specs::Given::page_given))]
fn page_given(alloc: Global, element: &Element) -> Result<Option<Answer>, Mem>
    ensures { IfOk result (λ page. page ≡ page_given element.now) }
{
    let result = match bytes_given(alloc, element, "Result")? {
        Some(result) => result,
        None => return Ok(None),
    };
    let returned = match number_given(alloc, element, "NumberReturned")? {
        Some(returned) => returned,
        None => return Ok(None),
    };
    let total = match number_given(alloc, element, "TotalMatches")? {
        Some(total) => total,
        None => return Ok(None),
    };
    let update = match number_given(alloc, element, "UpdateID")? {
        Some(update) => update,
        None => return Ok(None),
    };
    Ok(Some(Answer::Page {
        result,
        returned,
        total,
        update,
    }))
}

/// Returns an answer that is one number.
fn number_result(alloc: Global, element: &Element, local: &str) -> Result<Option<Answer>, Mem>
    ensures { IfOk result (λ answer. answer ≡ option_map Answer.Number (number_given local.now element.now)) }
{
    match number_given(alloc, element, local)? {
        Some(number) => Ok(Some(Answer::Number(number))),
        None => Ok(None),
    }
}

/// Returns an answer that is one text.
fn text_result(alloc: Global, element: &Element, local: &str) -> Result<Option<Answer>, Mem>
    ensures { IfOk result (λ answer. answer ≡ option_map Answer.Text (text_given local.now element.now)) }
{
    match text_given(alloc, element, local)? {
        Some(text) => Ok(Some(Answer::Text(text))),
        None => Ok(None),
    }
}

/// Returns what an element says in answer to an action.
pub fn results_given(
    alloc: Global,
    name: ActionName,
    element: &Element,
) -> Result<Option<Answer>, Mem>
    ensures { IfOk result (λ answer. answer ≡ results_given name element.now) }
{
    match name {
        ActionName::Browse => page_given(alloc, element),
        ActionName::Search => page_given(alloc, element),
        ActionName::GetSystemUpdateId => number_result(alloc, element, "Id"),
        ActionName::GetServiceResetToken => text_result(alloc, element, "ResetToken"),
        ActionName::GetSearchCapabilities => text_result(alloc, element, "SearchCaps"),
        ActionName::GetSortCapabilities => text_result(alloc, element, "SortCaps"),
    }
}

/// Returns the one child of this name in the namespace of control.
#[tactic(auto, unfolding(crate::specs::Answered::control_space))]
fn only_of_control<'a>(element: &'a Element, local: &str) -> Option<&'a Element>
    ensures { option_copied result ≡ only_of (named control_space local.now (nodes_in element.now)) }
{
    element.only_child("urn:schemas-upnp-org:control-1-0", local)
}

/// Returns the number of 16 bits that a text is, with white space around it allowed.
fn code_of(text: &str) -> Option<u16>
    ensures { result ≡ number_in (2 ^ 16) text.now }
{
    match number_in(text) {
        Some(code) if code <= u32::from(u16::MAX) => Some(code as u16),
        _ => None,
    }
}

/// Returns the code of an error in its Fault.
#[tactic(auto, unfolding(crate::specs::Answered::code_in))]
pub fn code_in(alloc: Global, fault: &Element) -> Result<Option<u16>, Mem>
    ensures { IfOk result (λ code. code ≡ code_in fault.now) }
{
    let detail = match fault.only_child("", "detail") {
        Some(detail) => detail,
        None => return Ok(None),
    };
    let error = match only_of_control(detail, "UPnPError") {
        Some(error) => error,
        None => return Ok(None),
    };
    let code = match only_of_control(error, "errorCode") {
        Some(code) => code,
        None => return Ok(None),
    };
    let text = code.own_text(alloc)?;
    Ok(code_of(text.as_str()))
}
