//! Writes the descriptions of the device and of its service.

ghost use Rattle.std.specs.Prelude.{◌≡◌, ◌++◌, IfOk, OnErr, OnOk};
ghost use Rattle.cds_ssdp.specs.Description.{device_front, device_back, device_text, service_text};

use crate::device::Device;
use crate::pieces::{device_name, put};
use cds_base::Mem;
use std::alloc::Global;
use uuid::Uuid;

/// The description of the service.
const SERVICE: &[u8] = b"\
    <?xml version=\"1.0\"?><scpd xmlns=\"urn:schemas-upnp-org:service-1-0\">\
    <specVersion><major>2</major><minor>0</minor></specVersion>\
    <actionList>\
    <action><name>Browse</name>\
    <argumentList>\
    <argument><name>ObjectID</name><direction>in</direction></argument>\
    <argument><name>BrowseFlag</name><direction>in</direction></argument>\
    <argument><name>Filter</name><direction>in</direction></argument>\
    <argument><name>StartingIndex</name><direction>in</direction></argument>\
    <argument><name>RequestedCount</name><direction>in</direction></argument>\
    <argument><name>SortCriteria</name><direction>in</direction></argument>\
    <argument><name>Result</name><direction>out</direction></argument>\
    <argument><name>NumberReturned</name><direction>out</direction></argument>\
    <argument><name>TotalMatches</name><direction>out</direction></argument>\
    <argument><name>UpdateID</name><direction>out</direction></argument>\
    </argumentList></action>\
    <action><name>Search</name>\
    <argumentList>\
    <argument><name>ContainerID</name><direction>in</direction></argument>\
    <argument><name>SearchCriteria</name><direction>in</direction></argument>\
    <argument><name>Filter</name><direction>in</direction></argument>\
    <argument><name>StartingIndex</name><direction>in</direction></argument>\
    <argument><name>RequestedCount</name><direction>in</direction></argument>\
    <argument><name>SortCriteria</name><direction>in</direction></argument>\
    <argument><name>Result</name><direction>out</direction></argument>\
    <argument><name>NumberReturned</name><direction>out</direction></argument>\
    <argument><name>TotalMatches</name><direction>out</direction></argument>\
    <argument><name>UpdateID</name><direction>out</direction></argument>\
    </argumentList></action>\
    <action><name>GetSystemUpdateID</name>\
    <argumentList>\
    <argument><name>Id</name><direction>out</direction></argument>\
    </argumentList></action>\
    <action><name>GetServiceResetToken</name>\
    <argumentList>\
    <argument><name>ResetToken</name><direction>out</direction></argument>\
    </argumentList></action>\
    <action><name>GetSearchCapabilities</name>\
    <argumentList>\
    <argument><name>SearchCaps</name><direction>out</direction></argument>\
    </argumentList></action>\
    <action><name>GetSortCapabilities</name>\
    <argumentList>\
    <argument><name>SortCaps</name><direction>out</direction></argument>\
    </argumentList></action>\
    </actionList><serviceStateTable></serviceStateTable></scpd>";

/// Appends the description of the device up to its UUID.
fn put_front(out: &mut Vec<u8>) -> Result<(), Mem>
    ensures { OnOk result (out.new.items ≡ out.old.items ++ device_front) }
{
    put(
        out,
        b"\
        <?xml version=\"1.0\"?><root xmlns=\"urn:schemas-upnp-org:device-1-0\">\
        <specVersion><major>2</major><minor>0</minor></specVersion>\
        <device><deviceType>urn:schemas-upnp-org:device:MediaServer:4</deviceType>\
        <friendlyName>cds</friendlyName>\
        <manufacturer>cds</manufacturer>\
        <modelName>cds</modelName>\
        <UDN>",
    )
}

/// Appends the description of the device after its UUID.
fn put_back(out: &mut Vec<u8>) -> Result<(), Mem>
    ensures { OnOk result (out.new.items ≡ out.old.items ++ device_back) }
{
    put(
        out,
        b"\
        </UDN>\
        <serviceList><service>\
        <serviceType>urn:schemas-upnp-org:service:ContentDirectory:4</serviceType>\
        <serviceId>urn:upnp-org:serviceId:ContentDirectory</serviceId>\
        <SCPDURL>/cds.xml</SCPDURL>\
        <controlURL>/control</controlURL>\
        <eventSubURL>/event</eventSubURL>\
        </service></serviceList></device></root>",
    )
}

/// Returns the description of the device with a UUID.
#[tactic(auto, unfolding(crate::specs::Description::device_text))]
fn device_text(alloc: Global, uuid: Uuid) -> Result<Vec<u8>, Mem>
    ensures { IfOk result (λ text. text.items ≡ device_text uuid) }
{
    let name = device_name(alloc, uuid)?;
    let mut text = Vec::new(alloc);
    put_front(&mut text)?;
    put(&mut text, name.as_slice())?;
    put_back(&mut text)?;
    Ok(text)
}

/// Appends the description of a device (UPnP Device Architecture 2.0 on description). It names one service with three
/// paths: `/cds.xml` for its description, `/control` and `/event`. If memory runs out, nothing is appended.
pub fn write_device(device: &Device, out: &mut Vec<u8>) -> Result<(), Mem>
    ensures ok { OnOk result (out.new.items ≡ out.old.items ++ device_text device.now.uuid) }
    ensures err { OnErr result (out.new.items ≡ out.old.items) }
{
    let text = device_text(*out.allocator(), device.uuid)?;
    out.extend_from_slice(text.as_slice())?;
    Ok(())
}

/// Appends the description of the service: its actions with their arguments and results (UPnP Device Architecture 2.0 on
/// description; UPnP ContentDirectory:4 on actions). The table of state variables is empty, and no argument is related
/// to one. Both are this project's profile. If memory runs out, nothing is appended.
pub fn write_service(out: &mut Vec<u8>) -> Result<(), Mem>
    ensures ok { OnOk result (out.new.items ≡ out.old.items ++ service_text) }
    ensures err { OnErr result (out.new.items ≡ out.old.items) }
{
    out.extend_from_slice(SERVICE)?;
    Ok(())
}
