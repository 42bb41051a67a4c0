//! Reads control requests.

ghost use Rattle.std.specs.Prelude.{◌≡◌, IfOk, option_copied, option_map};
ghost use Rattle.std.specs.List.{list_all};
ghost use Rattle.cds_markup.specs.Children.{elements_in};
ghost use Rattle.cds_soap.specs.Given.{browse_given, search_given, arguments_given, action_given, is_argument};
ghost use Rattle.cds_soap.specs.Control.{AnswersAsk, soap_action_in};
ghost use Rattle.cds_soap.specs.Found.{IsLookedAt, called_by, named_by, where_said, found_as, is_other, refusal_of};

use crate::envelope::in_envelope;
use crate::given::{number_given, text_given};
use crate::names::{name_in, says_action, version_in};
use crate::{Action, ActionName, Asked, BrowseRequest, SearchRequest, SoapError};
use cds_base::Mem;
use cds_http::Message;
use cds_markup::{Element, MarkupError, Node, read_outline};
use http_header::HeaderMap;
use std::alloc::Global;

/// The most child elements of an element that are looked at, one more than any action has arguments.
const WIDTH: usize = 7;

/// The levels below an envelope that are looked at: its Header and Body, the action, and its arguments.
const LEVELS: u8 = 3;

/// Returns what a control request asks for. Only its field SOAPACTION and its body are looked at, not its method, its
/// target or its host (UPnP Device Architecture 2.0 on control; UPnP ContentDirectory:4 on the arguments). The
/// refusals, in this order:
///
/// - `Markup`: the body is no document.
/// - `InvalidAction`: SOAPACTION does not name one of the actions in a version from 1 to 4.
/// - `InvalidAction`: the envelope does not hold the one element of this action in the namespace of this version.
/// - `InvalidArgs`: the arguments are not exactly those of the action, each once, or a number is not one of 32 bits.
pub fn read_action(alloc: Global, message: &Message) -> Result<Asked, SoapError>
    ensures { AnswersAsk message.now result }
{
    let seen = match read_outline(alloc, message.body.as_slice(), WIDTH, LEVELS) {
        Ok(seen) => seen,
        Err(refusal) => return Err(refusal_of(refusal)),
    };
    asked_in(alloc, message, &seen)
}

/// Returns the refusal of a body that is no document.
fn refusal_of(refusal: MarkupError) -> SoapError
    ensures { result ≡ refusal_of refusal }
{
    match refusal {
        MarkupError::Mem => SoapError::Mem,
        MarkupError::Bad { at } => SoapError::Markup(MarkupError::Bad { at }),
        MarkupError::TooDeep { at } => SoapError::Markup(MarkupError::TooDeep { at }),
        MarkupError::TooLong => SoapError::Markup(MarkupError::TooLong),
        MarkupError::Failed => SoapError::Markup(MarkupError::Failed),
    }
}

/// Returns what a message asks for, if this is looked at in its body.
fn asked_in(alloc: Global, message: &Message, seen: &Element) -> Result<Asked, SoapError>
    requires seen { IsLookedAt message.now.body seen.now }
    ensures { AnswersAsk message.now result }
{
    let found = match named_in(alloc, &message.fields, seen)? {
        Some(found) => found,
        None => return Err(SoapError::InvalidAction),
    };
    match action_given(alloc, found.name, found.call)? {
        Some(action) => Ok(Asked {
            action,
            version: found.version,
        }),
        None => Err(SoapError::InvalidArgs),
    }
}

/// The element of an action in a version.
#[derive(Drop)]
struct Found<'a> {
    name: ActionName,
    version: u8,
    call: &'a Element,
}

/// Returns the action whose name and namespace the element in the envelope has.
#[tactic(auto, unfolding(crate::specs::Found::called_by))]
fn called_in(element: &Element) -> Option<Found<'_>>
    ensures { option_map (λ f. found_as f.name f.version f.call.now) result ≡ called_by element.now }
{
    let call = match in_envelope(element) {
        Some(call) => call,
        None => return None,
    };
    let name = match name_in(call.name.local.as_str()) {
        Some(name) => name,
        None => return None,
    };
    let version = match version_in(call.name.space.as_str()) {
        Some(version) => version,
        None => return None,
    };
    Some(Found {
        name,
        version,
        call,
    })
}

/// Returns what was found, if SOAPACTION says it too.
fn where_said<'a>(alloc: Global, field: &[u8], found: Found<'a>) -> Result<Option<Found<'a>>, Mem>
    ensures { IfOk result (λ said. option_map (λ f. found_as f.name f.version f.call.now) said
        ≡ where_said field.now (found_as found.entry.name found.entry.version found.entry.call.now)) }
{
    if says_action(alloc, field, found.version, found.name)? {
        Ok(Some(found))
    } else {
        Ok(None)
    }
}

/// Returns the first value of SOAPACTION.
fn soap_action_in(fields: &HeaderMap) -> Option<&[u8]>
    ensures { option_copied result ≡ soap_action_in fields.now }
{
    match fields.get("soapaction") {
        Some(value) => Some(value.as_bytes()),
        None => None,
    }
}

/// Returns the action that SOAPACTION and the element in the envelope name.
#[tactic(auto, unfolding(crate::specs::Found::named_by))]
fn named_in<'a>(
    alloc: Global,
    fields: &HeaderMap,
    element: &'a Element,
) -> Result<Option<Found<'a>>, Mem>
    ensures { IfOk result (λ found. option_map (λ f. found_as f.name f.version f.call.now) found ≡ named_by fields.now element.now) }
{
    let field = match soap_action_in(fields) {
        Some(field) => field,
        None => return Ok(None),
    };
    let found = match called_in(element) {
        Some(found) => found,
        None => return Ok(None),
    };
    where_said(alloc, field, found)
}

/// Returns whether an argument of an action has this name.
fn is_argument(name: ActionName, element: &Element) -> bool
    ensures { result ≡ is_argument name element.now }
{
    match name {
        ActionName::Browse => {
            element.is_called("ObjectID")
                || element.is_called("BrowseFlag")
                || element.is_called("Filter")
                || element.is_called("StartingIndex")
                || element.is_called("RequestedCount")
                || element.is_called("SortCriteria")
        }
        ActionName::Search => {
            element.is_called("ContainerID")
                || element.is_called("SearchCriteria")
                || element.is_called("Filter")
                || element.is_called("StartingIndex")
                || element.is_called("RequestedCount")
                || element.is_called("SortCriteria")
        }
        _ => false,
    }
}

/// Returns whether a node is an element that is no argument of an action.
fn is_other(name: ActionName, node: &Node) -> bool
    ensures { result ≡ is_other name node.now }
{
    match node {
        Node::Child(element) => !is_argument(name, element),
        Node::Text(_) => false,
    }
}

/// Returns whether all elements among the nodes are arguments of an action.
fn has_only(name: ActionName, nodes: &[Node]) -> bool
    ensures { result ≡ list_all (λ child. is_argument name child) (elements_in nodes.now) }
{
    for node in nodes {
        if is_other(name, node) {
            return false;
        }
    }
    true
}

/// Returns the arguments of Browse.
#[tactic(auto, unfolding(crate::specs::Given::browse_given))]
fn browse_given(alloc: Global, element: &Element) -> Result<Option<BrowseRequest>, Mem>
    ensures { IfOk result (λ request. request ≡ browse_given element.now) }
{
    let object = match text_given(alloc, element, "ObjectID")? {
        Some(object) => object,
        None => return Ok(None),
    };
    let flag = match text_given(alloc, element, "BrowseFlag")? {
        Some(flag) => flag,
        None => return Ok(None),
    };
    let filter = match text_given(alloc, element, "Filter")? {
        Some(filter) => filter,
        None => return Ok(None),
    };
    let start = match number_given(alloc, element, "StartingIndex")? {
        Some(start) => start,
        None => return Ok(None),
    };
    let count = match number_given(alloc, element, "RequestedCount")? {
        Some(count) => count,
        None => return Ok(None),
    };
    let sort = match text_given(alloc, element, "SortCriteria")? {
        Some(sort) => sort,
        None => return Ok(None),
    };
    Ok(Some(BrowseRequest {
        object,
        flag,
        filter,
        start,
        count,
        sort,
    }))
}

/// Returns the arguments of Search.
#[tactic(auto, unfolding(crate::specs::Given::search_given))]
fn search_given(alloc: Global, element: &Element) -> Result<Option<SearchRequest>, Mem>
    ensures { IfOk result (λ request. request ≡ search_given element.now) }
{
    let container = match text_given(alloc, element, "ContainerID")? {
        Some(container) => container,
        None => return Ok(None),
    };
    let criteria = match text_given(alloc, element, "SearchCriteria")? {
        Some(criteria) => criteria,
        None => return Ok(None),
    };
    let filter = match text_given(alloc, element, "Filter")? {
        Some(filter) => filter,
        None => return Ok(None),
    };
    let start = match number_given(alloc, element, "StartingIndex")? {
        Some(start) => start,
        None => return Ok(None),
    };
    let count = match number_given(alloc, element, "RequestedCount")? {
        Some(count) => count,
        None => return Ok(None),
    };
    let sort = match text_given(alloc, element, "SortCriteria")? {
        Some(sort) => sort,
        None => return Ok(None),
    };
    Ok(Some(SearchRequest {
        container,
        criteria,
        filter,
        start,
        count,
        sort,
    }))
}

/// Returns an action with the arguments in its element. The element may have other children, too.
fn arguments_given(
    alloc: Global,
    name: ActionName,
    element: &Element,
) -> Result<Option<Action>, Mem>
    ensures { IfOk result (λ action. action ≡ arguments_given name element.now) }
{
    match name {
        ActionName::Browse => match browse_given(alloc, element)? {
            Some(request) => Ok(Some(Action::Browse(request))),
            None => Ok(None),
        },
        ActionName::Search => match search_given(alloc, element)? {
            Some(request) => Ok(Some(Action::Search(request))),
            None => Ok(None),
        },
        ActionName::GetSystemUpdateId => Ok(Some(Action::GetSystemUpdateId)),
        ActionName::GetServiceResetToken => Ok(Some(Action::GetServiceResetToken)),
        ActionName::GetSearchCapabilities => Ok(Some(Action::GetSearchCapabilities)),
        ActionName::GetSortCapabilities => Ok(Some(Action::GetSortCapabilities)),
    }
}

/// Returns an action with its arguments, if they are exactly those of its element.
#[tactic(auto, unfolding(crate::specs::Given::action_given))]
fn action_given(alloc: Global, name: ActionName, element: &Element) -> Result<Option<Action>, Mem>
    ensures { IfOk result (λ action. action ≡ action_given name element.now) }
{
    if has_only(name, element.children.as_slice()) {
        arguments_given(alloc, name, element)
    } else {
        Ok(None)
    }
}
