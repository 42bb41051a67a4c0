//! Writes the replies to searches.

ghost use Rattle.std.specs.Prelude.{◌≡◌, ◌++◌, IfOk, OnOk, codes};
ghost use Rattle.cds_http.specs.Written.{field_line};
ghost use Rattle.cds_ssdp.specs.Targets.{device_name, usn_of};
ghost use Rattle.cds_ssdp.specs.Replies.{first_lines, start_lines, last_lines, reply_text};

use crate::device::Device;
use crate::pieces::{device_name, put, put_field, put_number};
use cds_base::Mem;
use std::alloc::Global;
use uuid::Uuid;

/// Appends the lines with which all replies begin.
#[tactic(auto, unfolding(crate::specs::Replies::first_lines))]
fn put_first(out: &mut Vec<u8>) -> Result<(), Mem>
    ensures { OnOk result (out.new.items ≡ out.old.items ++ first_lines) }
{
    put(
        out,
        b"HTTP/1.1 200 OK\r\nCACHE-CONTROL: max-age=1800\r\nEXT:\r\n",
    )
}

/// Appends the lines before ST.
#[tactic(auto, unfolding(crate::specs::Replies::start_lines))]
fn put_start(out: &mut Vec<u8>, location: &str) -> Result<(), Mem>
    ensures { OnOk result (out.new.items ≡ out.old.items ++ start_lines location.now) }
{
    put_first(out)?;
    put_field(out, b"LOCATION", location.as_bytes())?;
    put_field(out, b"SERVER", b"unix/1.0 UPnP/2.0 cds/1.0")?;
    Ok(())
}

/// Appends the lines after USN.
#[tactic(auto, unfolding(crate::specs::Replies::last_lines))]
fn put_last(out: &mut Vec<u8>, boot: u32) -> Result<(), Mem>
    ensures { OnOk result (out.new.items ≡ out.old.items ++ last_lines boot) }
{
    put(out, b"BOOTID.UPNP.ORG: ")?;
    put_number(out, boot)?;
    put(out, b"\r\n\r\n")?;
    Ok(())
}

/// Returns the USN of a target.
fn usn_of(alloc: Global, uuid: Uuid, target: &[u8]) -> Result<Vec<u8>, Mem>
    ensures { IfOk result (λ usn. usn.items ≡ usn_of uuid target.now) }
{
    let mut usn = device_name(alloc, uuid)?;
    if target == usn.as_slice() {
        return Ok(usn);
    }
    put(&mut usn, b"::")?;
    put(&mut usn, target)?;
    Ok(usn)
}

/// Returns the reply that tells of a target.
#[tactic(auto, unfolding(crate::specs::Replies::reply_text))]
pub fn reply_text(alloc: Global, device: &Device, target: &[u8]) -> Result<Vec<u8>, Mem>
    ensures { IfOk result (λ reply. reply.items ≡ reply_text device.now target.now) }
{
    let usn = usn_of(alloc, device.uuid, target)?;
    let mut reply = Vec::new(alloc);
    put_start(&mut reply, device.location.as_str())?;
    put_field(&mut reply, b"ST", target)?;
    put_field(&mut reply, b"USN", usn.as_slice())?;
    put_last(&mut reply, device.boot)?;
    Ok(reply)
}
