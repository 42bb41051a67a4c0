//! Answers searches.

ghost use Rattle.std.specs.Prelude.{◌≡◌, ◌++◌, ◌∷◌, [], ◌||◌, ◌==◌, codes, bytes_eq, map, option_map, IfOk, IsTrue, OnErr, OnOk};
ghost use Rattle.cds_ssdp.specs.Location.{is_location};
ghost use Rattle.cds_ssdp.specs.Targets.{root_device, device_type, service_type, is_in_version, is_itself, every_target, targets_of};
ghost use Rattle.cds_ssdp.specs.Replies.{reply_text};
ghost use Rattle.cds_ssdp.specs.Search.{is_search, is_discover, asked_by, replies_to, AnswersSearch};

use crate::device::Device;
use crate::messages::{message_in, only_field};
use crate::pieces::device_name;
use crate::replying::reply_text;
use cds_base::Mem;
use cds_http::{Message, Side, Start};
use std::alloc::Global;

/// Returns whether a message is the request `M-SEARCH *`.
fn is_search(message: &Message) -> bool
    ensures { result ≡ is_search message.now.start }
{
    match &message.start {
        Start::Request { method, target } => {
            method.as_str() == "M-SEARCH" && target.as_str() == "*"
        }
        Start::Reply { .. } => false,
    }
}

/// Returns whether a MAN says that devices are searched.
fn is_discover(man: Option<&[u8]>) -> bool
    ensures { result ≡ is_discover (option_map (λ x. x.now) man.entry) }
{
    match man {
        Some(man) => man == b"\"ssdp:discover\"".as_slice(),
        None => false,
    }
}

/// Returns what a message searches for, if it is a search.
fn asked_by(message: &Message) -> Option<&[u8]>
    ensures { option_map (λ asked. asked.now) result ≡ asked_by message.now }
{
    if is_search(message) && is_discover(only_field(&message.fields, "man")) {
        only_field(&message.fields, "st")
    } else {
        None
    }
}

/// Returns whether a text is one of four.
fn is_any(asked: &[u8], first: &[u8], second: &[u8], third: &[u8], fourth: &[u8]) -> bool
    ensures { result ≡ (bytes_eq asked.now first.now || bytes_eq asked.now second.now || bytes_eq asked.now third.now || bytes_eq asked.now fourth.now) }
{
    asked == first || asked == second || asked == third || asked == fourth
}

/// Returns whether a text is the type of the device in a version from 1 to 4.
fn is_device_type(asked: &[u8]) -> bool
    ensures { result ≡ is_in_version device_type asked.now }
{
    is_any(
        asked,
        b"urn:schemas-upnp-org:device:MediaServer:1",
        b"urn:schemas-upnp-org:device:MediaServer:2",
        b"urn:schemas-upnp-org:device:MediaServer:3",
        b"urn:schemas-upnp-org:device:MediaServer:4",
    )
}

/// Returns whether a text is the type of the service in a version from 1 to 4.
fn is_service_type(asked: &[u8]) -> bool
    ensures { result ≡ is_in_version service_type asked.now }
{
    is_any(
        asked,
        b"urn:schemas-upnp-org:service:ContentDirectory:1",
        b"urn:schemas-upnp-org:service:ContentDirectory:2",
        b"urn:schemas-upnp-org:service:ContentDirectory:3",
        b"urn:schemas-upnp-org:service:ContentDirectory:4",
    )
}

/// Returns whether a text is a target that is answered as it is asked for.
#[tactic(auto, unfolding(crate::specs::Targets::root_device))]
fn is_itself(asked: &[u8]) -> bool
    ensures { result ≡ is_itself asked.now }
{
    asked == b"upnp:rootdevice".as_slice() || is_device_type(asked) || is_service_type(asked)
}

/// Appends the reply that tells of a target.
fn put_reply(out: &mut Vec<Vec<u8>>, device: &Device, target: &[u8]) -> Result<(), Mem>
    ensures { OnOk result (map (λ v. v.items) out.new.items ≡ map (λ v. v.items) out.old.items ++ reply_text device.now target.now ∷ []) }
{
    let reply = reply_text(*out.allocator(), device, target)?;
    out.push(reply)?;
    Ok(())
}

/// Returns the one reply that tells of a target.
fn one_reply(alloc: Global, device: &Device, target: &[u8]) -> Result<Vec<Vec<u8>>, Mem>
    ensures { IfOk result (λ all. map (λ v. v.items) all.items ≡ reply_text device.now target.now ∷ []) }
{
    let mut all = Vec::new(alloc);
    put_reply(&mut all, device, target)?;
    Ok(all)
}

/// Returns the replies that tell of every target, with types in version 4.
fn every_reply(alloc: Global, device: &Device) -> Result<Vec<Vec<u8>>, Mem>
    ensures { IfOk result (λ all. map (λ v. v.items) all.items ≡ map (reply_text device.now) (every_target device.now.uuid)) }
{
    let name = device_name(alloc, device.uuid)?;
    let mut all = Vec::new(alloc);
    put_reply(&mut all, device, b"upnp:rootdevice")?;
    put_reply(&mut all, device, name.as_slice())?;
    put_reply(
        &mut all,
        device,
        b"urn:schemas-upnp-org:device:MediaServer:4",
    )?;
    put_reply(
        &mut all,
        device,
        b"urn:schemas-upnp-org:service:ContentDirectory:4",
    )?;
    Ok(all)
}

/// Returns the replies to a search for a target.
fn replies(alloc: Global, device: &Device, asked: &[u8]) -> Result<Vec<Vec<u8>>, Mem>
    ensures { IfOk result (λ all. map (λ v. v.items) all.items ≡ map (reply_text device.now) (targets_of device.now.uuid asked.now)) }
{
    if is_itself(asked) {
        return one_reply(alloc, device, asked);
    }
    let name = device_name(alloc, device.uuid)?;
    if asked.eq_ignore_ascii_case(name.as_slice()) {
        return one_reply(alloc, device, name.as_slice());
    }
    if asked == b"ssdp:all".as_slice() {
        return every_reply(alloc, device);
    }
    Ok(Vec::new(alloc))
}

/// Appends the replies to a search for a target, or nothing.
fn append_replies(device: &Device, asked: &[u8], out: &mut Vec<Vec<u8>>) -> Result<(), Mem>
    ensures ok { OnOk result (map (λ v. v.items) out.new.items ≡ map (λ v. v.items) out.old.items ++ map (reply_text device.now) (targets_of device.now.uuid asked.now)) }
    ensures err { OnErr result (out.new.items ≡ out.old.items) }
{
    let mut all = replies(*out.allocator(), device, asked)?;
    out.append(&mut all)?;
    Ok(())
}

/// Appends the replies to a message, or nothing.
fn answer_message(device: &Device, message: &Message, out: &mut Vec<Vec<u8>>) -> Result<(), Mem>
    ensures ok { OnOk result (map (λ v. v.items) out.new.items ≡ map (λ v. v.items) out.old.items ++ replies_to device.now (asked_by message.now)) }
    ensures err { OnErr result (out.new.items ≡ out.old.items) }
{
    match asked_by(message) {
        Some(asked) => append_replies(device, asked, out),
        None => Ok(()),
    }
}

/// Appends the replies to a search by SSDP (UPnP Device Architecture 2.0 on discovery), one for each target that
/// matches. A datagram searches if it begins with the request `M-SEARCH *` with one MAN of `"ssdp:discover"` and one ST.
/// Bytes after the request are passed over, and MX and HOST do not count. Both rules are this project's profile. Any
/// other datagram has no reply. Types match in the versions 1 to 4. The UUID of the device matches in letters of either
/// case. `ssdp:all` is answered by the root device, the UUID, the type of the device and the type of the service, both
/// types in version 4, in this order. The location must be one that `is_location` accepts. If memory runs out, nothing
/// is appended.
pub fn answer_search(device: &Device, datagram: &[u8], out: &mut Vec<Vec<u8>>) -> Result<(), Mem>
    requires location { IsTrue (is_location device.now.location) }
    ensures ok { OnOk result (AnswersSearch device.now datagram.now (map (λ v. v.items) out.old.items) (map (λ v. v.items) out.new.items)) }
    ensures err { OnErr result (out.new.items ≡ out.old.items) }
{
    match message_in(*out.allocator(), Side::Request, datagram)? {
        Some(message) => answer_message(device, &message, out),
        None => Ok(()),
    }
}
