//! Announces a device at a port, from the start to the end.

ghost use Rattle.std.specs.Prelude.{◌≡◌, ◌⊎◌, IsTrue};
ghost use Rattle.cds_outside.specs.Datagrams.{IsUnheard};
ghost use Rattle.cds_outside.specs.Outside.{Rose};
ghost use Rattle.cds_ssdp.specs.Location.{is_location};
ghost use Rattle.cds_announce.specs.Announcing.{EndsAnnouncing};
ghost use Rattle.cds_announce.specs.Ended.{AsksForDatagrams, EndsAnnouncement, datagrams_back, first_uuid, status_of};

use crate::announcing::announce;
use cds_outside::{DatagramFault, Outside, OutsideFault};
use cds_ssdp::Device;
use std::alloc::Global;
use uuid::Uuid;

/// Returns the UUID of a device that is given none: 00000000-0000-8000-8000-000000000000.
pub fn first_uuid() -> Uuid
    ensures { result ≡ first_uuid }
{
    Uuid::from_u128(0x8000_8000_0000_0000_0000)
}

/// Returns the status by how answering ended.
fn status_of(ended: Result<(), DatagramFault>) -> u8
    ensures { result ≡ status_of ended }
{
    match ended {
        Ok(()) => 0,
        Err(DatagramFault::Failed) => 7,
        Err(DatagramFault::Mem) => 4,
    }
}

/// Answers this number of datagrams of those that the outside gave, and hands them back.
fn announce_given<O: Outside>(
    alloc: Global,
    device: &Device,
    count: u32,
    given: O::U,
    outside: &mut O,
) -> u8
    requires location { IsTrue (is_location device.now.location) }
    requires unheard { IsUnheard (O.U.told given) }
    ensures ends { EndsAnnouncement device.now count result (O.told outside.old) (O.told outside.new) }
    ensures others_stay { O.told outside.new ≡ record (O.told outside.old) { faults = (O.told outside.new).faults; ended_datagrams = (O.told outside.new).ended_datagrams; datagrams = (O.told outside.new).datagrams } }
{
    let mut datagrams = given;
    let ended = announce(alloc, device, count, &mut datagrams);
    outside.end_datagrams(datagrams);
    status_of(ended)
}

/// Announces a device at a port, and answers the exit status. Answers this number of datagrams that come to the port, each with the
/// replies of the device to it. A reply that cannot be sent is lost. It may wait for datagrams. The location must be one that
/// `is_location` accepts.
///
/// The statuses:
/// - 0: all were answered.
/// - 4: memory ran out.
/// - 7: the port could not be had, or a datagram could not be received.
pub fn announce_at<O: Outside>(
    alloc: Global,
    device: &Device,
    port: u16,
    count: u32,
    outside: &mut O,
) -> u8
    requires location { IsTrue (is_location device.now.location) }
    ensures ends { EndsAnnouncement device.now count result (O.told outside.old) (O.told outside.new) }
    ensures asks { AsksForDatagrams port (O.told outside.old).asked (O.told outside.new).asked }
    ensures others_stay { O.told outside.new ≡ datagrams_back (O.told outside.old) (O.told outside.new) }
    ensures outside_fault { result ≡ 7 → Rose (O.told outside.old).faults (O.told outside.new).faults }
    ensures known { (result ≡ 0) ⊎ ((result ≡ 4) ⊎ (result ≡ 7)) }
{
    match outside.datagrams(alloc, port) {
        Ok(datagrams) => announce_given(alloc, device, count, datagrams, outside),
        Err(OutsideFault::Failed) => 7,
        Err(OutsideFault::Mem) => 4,
    }
}
