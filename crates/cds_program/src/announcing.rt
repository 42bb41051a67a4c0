//! A device that is announced.

ghost use Rattle.std.specs.Prelude.{◌≡◌, ◌⊎◌};
ghost use Rattle.cds_outside.specs.Outside.{Rose, Told};
ghost use Rattle.cds_ssdp.specs.Replies.{device_at};
ghost use Rattle.cds_program.specs.Announcing.{EndsAnnounce, KeepsOthers, WritesAnnounce};

use crate::program::write_usage;
use cds_announce::announce_at;
use cds_base::Mem;
use cds_outside::{Outside, Sink};
use cds_ssdp::Device;
use std::alloc::Global;
use uuid::Uuid;

/// How often a device that is announced has started.
const STARTS: u32 = 1;

/// What is announced: the device whose description is at a location, with the UUID of these bytes, by this many datagrams that come to
/// a port.
#[derive(Clone, Copy)]
pub struct Announcement<'a> {
    pub port: u16,
    pub location: &'a str,
    pub count: u32,
    pub uuid: [u8; 16],
}

/// Announces a device, and answers the status of `announce_at`. If the location is none, writes the usage (5). If memory runs out
/// before, the status is 4.
pub fn announce_device<K: Sink, O: Outside>(
    alloc: Global,
    announcement: &Announcement<'_>,
    sink: &mut K,
    outside: &mut O,
) -> u8
    ensures ends { EndsAnnounce (device_at announcement.now.uuid announcement.now.location.now 1) announcement.now.port announcement.now.count result
        (O.told outside.old) (O.told outside.new) }
    ensures writes { WritesAnnounce (device_at announcement.now.uuid announcement.now.location.now 1) result (K.told sink.old) (K.told sink.new) }
    ensures others_stay { KeepsOthers (O.told outside.old) (O.told outside.new) }
    ensures write_fault { result ≡ 3 → Rose (K.told sink.old).faults (K.told sink.new).faults }
    ensures service_fault { result ≡ 7 → Rose (O.told outside.old).faults (O.told outside.new).faults }
    ensures known { (result ≡ 0) ⊎ ((result ≡ 3) ⊎ ((result ≡ 4) ⊎ ((result ≡ 5) ⊎ (result ≡ 7)))) }
{
    let uuid = Uuid::from_bytes(announcement.uuid);
    match Device::at(alloc, uuid, announcement.location, STARTS) {
        Ok(Some(device)) => {
            announce_at(
                alloc,
                &device,
                announcement.port,
                announcement.count,
                outside,
            )
        }
        Ok(None) => write_usage(sink),
        Err(Mem) => 4,
    }
}
