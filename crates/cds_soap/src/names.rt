//! The names of actions and the types of the service.

ghost use Rattle.std.specs.Prelude.{◌≡◌, ◌++◌, IfOk, OnOk, string_bytes};
ghost use Rattle.cds_soap.specs.Names.{name_of_action, named_as, response_to, service_front, service_type, soap_action, in_quotes};
ghost use Rattle.cds_soap.specs.Found.{version_in, name_in, says_action};

use crate::{Action, ActionName};
use cds_base::{Mem, put, put_number};
use std::alloc::Global;

impl Action {
    /// Returns which action it is.
    pub fn name(&self) -> ActionName
        ensures { result ≡ name_of_action self.now }
    {
        match self {
            Action::Browse(_) => ActionName::Browse,
            Action::Search(_) => ActionName::Search,
            Action::GetSystemUpdateId => ActionName::GetSystemUpdateId,
            Action::GetServiceResetToken => ActionName::GetServiceResetToken,
            Action::GetSearchCapabilities => ActionName::GetSearchCapabilities,
            Action::GetSortCapabilities => ActionName::GetSortCapabilities,
        }
    }
}

impl ActionName {
    /// Returns its name in requests.
    pub fn as_str(self) -> &'static str
        ensures { result.now ≡ named_as self }
    {
        match self {
            ActionName::Browse => "Browse",
            ActionName::Search => "Search",
            ActionName::GetSystemUpdateId => "GetSystemUpdateID",
            ActionName::GetServiceResetToken => "GetServiceResetToken",
            ActionName::GetSearchCapabilities => "GetSearchCapabilities",
            ActionName::GetSortCapabilities => "GetSortCapabilities",
        }
    }

    /// Returns the name of the element that answers it.
    pub fn response(self) -> &'static str
        ensures { result.now ≡ response_to self }
    {
        match self {
            ActionName::Browse => "BrowseResponse",
            ActionName::Search => "SearchResponse",
            ActionName::GetSystemUpdateId => "GetSystemUpdateIDResponse",
            ActionName::GetServiceResetToken => "GetServiceResetTokenResponse",
            ActionName::GetSearchCapabilities => "GetSearchCapabilitiesResponse",
            ActionName::GetSortCapabilities => "GetSortCapabilitiesResponse",
        }
    }
}

/// Returns the action with a name.
#[tactic(auto, unfolding(crate::specs::Found::name_in))]
pub fn name_in(local: &str) -> Option<ActionName>
    ensures { result ≡ name_in local.now }
{
    if local == "Browse" {
        Some(ActionName::Browse)
    } else if local == "Search" {
        Some(ActionName::Search)
    } else if local == "GetSystemUpdateID" {
        Some(ActionName::GetSystemUpdateId)
    } else if local == "GetServiceResetToken" {
        Some(ActionName::GetServiceResetToken)
    } else if local == "GetSearchCapabilities" {
        Some(ActionName::GetSearchCapabilities)
    } else if local == "GetSortCapabilities" {
        Some(ActionName::GetSortCapabilities)
    } else {
        None
    }
}

/// Returns the version of the service, 1 to 4, whose type a namespace is.
#[tactic(auto, unfolding(crate::specs::Found::version_in))]
pub fn version_in(space: &str) -> Option<u8>
    ensures { result ≡ version_in space.now }
{
    if space == "urn:schemas-upnp-org:service:ContentDirectory:1" {
        Some(1)
    } else if space == "urn:schemas-upnp-org:service:ContentDirectory:2" {
        Some(2)
    } else if space == "urn:schemas-upnp-org:service:ContentDirectory:3" {
        Some(3)
    } else if space == "urn:schemas-upnp-org:service:ContentDirectory:4" {
        Some(4)
    } else {
        None
    }
}

/// Appends the type of the service without its version.
#[tactic(auto, unfolding(crate::specs::Names::service_front))]
fn put_service_front(out: &mut String) -> Result<(), Mem>
    ensures { OnOk result (string_bytes out.new ≡ string_bytes out.old ++ service_front) }
{
    put(out, "urn:schemas-upnp-org:service:ContentDirectory:")
}

/// Appends the type of the service in a version.
#[tactic(auto, unfolding(crate::specs::Names::service_type))]
pub fn put_service_type(out: &mut String, version: u8) -> Result<(), Mem>
    ensures { OnOk result (string_bytes out.new ≡ string_bytes out.old ++ service_type version) }
{
    put_service_front(out)?;
    put_number(out, u64::from(version))?;
    Ok(())
}

/// Returns what SOAPACTION says of an action in a version, without quotes.
#[tactic(auto, unfolding(crate::specs::Names::soap_action))]
fn soap_action(alloc: Global, version: u8, name: ActionName) -> Result<String, Mem>
    ensures { IfOk result (λ text. string_bytes text ≡ soap_action version name) }
{
    let mut text = String::new(alloc);
    put_service_type(&mut text, version)?;
    put(&mut text, "#")?;
    put(&mut text, name.as_str())?;
    Ok(text)
}

/// Returns the text in quotes.
fn in_quotes(alloc: Global, text: &str) -> Result<String, Mem>
    ensures { IfOk result (λ quoted. string_bytes quoted ≡ in_quotes text.now) }
{
    let mut quoted = String::new(alloc);
    put(&mut quoted, "\"")?;
    put(&mut quoted, text)?;
    put(&mut quoted, "\"")?;
    Ok(quoted)
}

/// Returns what SOAPACTION says of an action in a version, with its quotes.
pub fn quoted_soap_action(alloc: Global, version: u8, name: ActionName) -> Result<String, Mem>
    ensures { IfOk result (λ text. string_bytes text ≡ in_quotes (soap_action version name)) }
{
    let action = soap_action(alloc, version, name)?;
    in_quotes(alloc, action.as_str())
}

/// Returns whether a text says this action in this version, with or without quotes.
pub fn says_action(alloc: Global, text: &[u8], version: u8, name: ActionName) -> Result<bool, Mem>
    ensures { IfOk result (λ says. says ≡ says_action text.now version name) }
{
    let action = soap_action(alloc, version, name)?;
    let quoted = in_quotes(alloc, action.as_str())?;
    Ok(text == action.as_bytes() || text == quoted.as_bytes())
}
