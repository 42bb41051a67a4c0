//! The replies that need no turn: a status without a body, or a document.

ghost use Rattle.std.specs.Prelude.{◌≡◌, ◌++◌, IfOk, OnOk, string_bytes};
ghost use Rattle.cds_serve.specs.Described.{document_fields, document_reply, document_text, free_reply, own_device, own_location};

use crate::target::{Document, FreeAnswer};
use cds_base::{Bytes, Mem, Text, put, put_number};
use cds_http::{Fields, write_reply};
use cds_server::empty_text;
use cds_ssdp::{Device, write_device, write_service};
use std::alloc::Global;
use uuid::Uuid;

/// Returns the reply that an answer without a turn is.
pub(crate) fn free_reply(alloc: Global, device: &Device, answer: FreeAnswer) -> Result<Bytes, Mem>
    ensures { IfOk result (λ text. text ≡ free_reply device.now answer) }
{
    match answer {
        FreeAnswer::Status(status) => empty_text(alloc, status),
        FreeAnswer::Document(document) => document_reply(alloc, device, document),
    }
}

/// Returns the reply with a document.
fn document_reply(alloc: Global, device: &Device, document: Document) -> Result<Bytes, Mem>
    ensures { IfOk result (λ text. text ≡ document_reply device.now document) }
{
    let mut body = Vec::new(alloc);
    put_document(device, document, &mut body)?;
    let fields = document_fields(alloc)?;
    let mut text = Vec::new(alloc);
    write_reply(200, &fields, body.as_slice(), &mut text)?;
    Ok(Bytes::from(text))
}

/// Appends the text of a document.
fn put_document(device: &Device, document: Document, out: &mut Vec<u8>) -> Result<(), Mem>
    ensures { OnOk result (out.new.items ≡ out.old.items ++ document_text device.now document) }
{
    match document {
        Document::Device => write_device(device, out),
        Document::Service => write_service(out),
    }
}

/// Returns the only given field of a reply with a document.
fn document_fields(alloc: Global) -> Result<Fields, Mem>
    ensures { IfOk result (λ fields. fields ≡ document_fields) }
{
    let mut fields = Fields::new(alloc);
    fields.push(alloc, "CONTENT-TYPE", "text/xml; charset=\"utf-8\"")?;
    Ok(fields)
}

/// Returns the device that a server at a port is.
pub(crate) fn own_device(alloc: Global, port: u16, uuid: Uuid) -> Result<Device, Mem>
    ensures { IfOk result (λ device. device ≡ own_device port uuid) }
{
    let location = own_location(alloc, port)?;
    Ok(Device {
        uuid,
        location: Text::from(location),
        boot: 1,
    })
}

/// Returns the address of the description of a server at a port, as the server's own machine knows it.
fn own_location(alloc: Global, port: u16) -> Result<String, Mem>
    ensures { IfOk result (λ text. string_bytes text ≡ own_location port) }
{
    let mut text = String::new(alloc);
    put(&mut text, "http://127.0.0.1:")?;
    put_number(&mut text, u64::from(port))?;
    put(&mut text, "/device.xml")?;
    Ok(text)
}
