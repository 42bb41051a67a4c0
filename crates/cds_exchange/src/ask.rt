//! Makes an ask into an action and into the bytes of its request.

ghost use Rattle.std.specs.Prelude.{◌≡◌, ◌++◌, IfOk, OnOk, OnErr, codes};
ghost use Rattle.cds_soap.specs.declared.action.Action.{Action};
ghost use Rattle.cds_soap.specs.Written.{written_action};
ghost use Rattle.cds_exchange.specs.Asking.{browse_of, action_of};

use cds_base::{Mem, Text};
use cds_load::Ask;
use cds_soap::{Action, BrowseRequest, write_action};
use std::alloc::Global;
use url::Url;

/// The most rows of one ask.
const PAGE_SIZE: u32 = 256;

/// Returns the action of an ask (UPnP ContentDirectory:4 on GetServiceResetToken, GetSystemUpdateID and Browse). Browse
/// asks for every property of an object, or of at most 256 of its children from a place on. The rows come in the order
/// of the server.
pub fn action_of(alloc: Global, ask: &Ask) -> Result<Action, Mem>
    ensures { IfOk result (λ action. action ≡ action_of ask.now) }
{
    match *ask {
        Ask::Token => Ok(Action::GetServiceResetToken),
        Ask::Number => Ok(Action::GetSystemUpdateId),
        Ask::Metadata { id } => browse(alloc, id, "BrowseMetadata", 0),
        Ask::Children { id, start } => browse(alloc, id, "BrowseDirectChildren", start),
    }
}

/// Returns a Browse of an object.
fn browse(alloc: Global, id: u32, flag: &str, start: u32) -> Result<Action, Mem>
    ensures { IfOk result (λ action. action ≡ Action.Browse (browse_of id flag.now start)) }
{
    let object = Text::from(id.to_string(alloc)?);
    let flag = Text::read(alloc, flag)?;
    let filter = Text::read(alloc, "*")?;
    let sort = Text::read(alloc, "")?;
    Ok(Action::Browse(BrowseRequest {
        object,
        flag,
        filter,
        start,
        count: PAGE_SIZE,
        sort,
    }))
}

/// Appends the control request of an ask, to an `http` address. A refusal leaves `out` as it was.
pub fn ask_bytes(ask: &Ask, url: &Url, out: &mut Vec<u8>) -> Result<(), Mem>
    requires http { url.now.scheme ≡ codes "http" }
    ensures ok { OnOk result (out.new.items ≡ out.old.items ++ written_action (action_of ask.now) url.now) }
    ensures err { OnErr result (out.new.items ≡ out.old.items) }
{
    let action = action_of(*out.allocator(), ask)?;
    write_action(&action, url, out)?;
    Ok(())
}
