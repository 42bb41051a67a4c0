//! Answers datagrams, one after another.

ghost use Rattle.std.specs.Prelude.{◌≡◌, ◌≤◌, ◌++◌, [], List, ℕ, map, Some, IfOk, IsTrue};
ghost use Rattle.cds_outside.specs.Outside.{Told};
ghost use Rattle.cds_ssdp.specs.Location.{is_location};
ghost use Rattle.cds_ssdp.specs.Search.{AnswersSearch};
ghost use Rattle.cds_announce.specs.Announcing.{EndsAnnouncing, reply_to};

use cds_base::Mem;
use cds_outside::{DatagramFault, Datagrams};
use cds_ssdp::{Device, answer_search};
use std::alloc::Global;

/// Returns the replies of a device to a datagram.
fn replies_to(alloc: Global, device: &Device, datagram: &[u8]) -> Result<Vec<Vec<u8>>, Mem>
    requires location { IsTrue (is_location device.now.location) }
    ensures { IfOk result (λ replies. AnswersSearch device.now datagram.now [] (map (λ v. v.items) replies.items)) }
{
    let mut replies = Vec::new(alloc);
    answer_search(device, datagram, &mut replies)?;
    Ok(replies)
}

/// Sends replies to the sender of the last datagram, in their order. One that cannot be sent is lost.
fn send_all<U: Datagrams>(datagrams: &mut U, replies: &[Vec<u8>])
    ensures sent { Told (U.told datagrams.old).sent
        (λ list. (U.told datagrams.new).sent ≡ Some (list ++ map (reply_to (U.told datagrams.old).given) (map (λ v. v.items) replies.now))) }
    ensures others_stay { U.told datagrams.new ≡ record (U.told datagrams.old) { sent = (U.told datagrams.new).sent; faults = (U.told datagrams.new).faults } }
    ensures never_falls { (U.told datagrams.old).faults ≤ (U.told datagrams.new).faults }
{
    'replies: for reply in replies {
        let _ = datagrams.send(reply.as_slice());
    }
}

/// Answers the next datagram.
fn answer_next<U: Datagrams>(
    alloc: Global,
    device: &Device,
    datagrams: &mut U,
) -> Result<(), DatagramFault>
    requires location { IsTrue (is_location device.now.location) }
    ensures { EndsAnnouncing device.now 1 result (U.told datagrams.old) (U.told datagrams.new) }
{
    match datagrams.next(alloc) {
        Ok(datagram) => match replies_to(alloc, device, datagram.as_slice()) {
            Ok(replies) => {
                send_all(datagrams, replies.as_slice());
                Ok(())
            }
            Err(Mem) => Err(DatagramFault::Mem),
        },
        Err(fault) => Err(fault),
    }
}

/// Answers this number of datagrams as they come, each with the replies of the device to it. It may wait for them. A reply that
/// cannot be sent is lost. The location must be one that `is_location` accepts.
///
/// `Failed` comes only if no datagram could be received, and the count of faults of `datagrams` rises. If memory runs out, the last
/// datagram may be lost.
pub fn announce<U: Datagrams>(
    alloc: Global,
    device: &Device,
    count: u32,
    datagrams: &mut U,
) -> Result<(), DatagramFault>
    requires location { IsTrue (is_location device.now.location) }
    ensures { EndsAnnouncing device.now count result (U.told datagrams.old) (U.told datagrams.new) }
{
    let mut answered = 0;
    'datagrams: while answered < count {
        match answer_next(alloc, device, datagrams) {
            Ok(()) => answered += 1,
            Err(fault) => return Err(fault),
        }
    }
    Ok(())
}
