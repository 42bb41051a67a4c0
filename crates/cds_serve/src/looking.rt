//! One look of the notifier: a tick, and the notes that it sends.

ghost use Rattle.std.specs.Prelude.{◌≤◌};
ghost use Rattle.cds_turn.specs.Turn.{IsSeatOf, seat_told, start_of};
ghost use Rattle.cds_serve.specs.Looked.{Looks};

use crate::acts::Tick;
use crate::moment::ask_moment;
use crate::sending::send_notes;
use crate::served::Served;
use cds_base::Mem;
use cds_outside::{Clock, Link};
use cds_server::Serving;
use cds_turn::{Seat, Turn};
use std::alloc::Global;
use std::marker::Send;
use std::sync::Wait;

/// Has the server tick in one turn, and then sends the notes of the release that was due. Each note is sent once, in the order in
/// which the subscriptions were granted. A note that the link refuses is lost, and its SEQ is used.
///
/// Returns true exactly if the server was stopped. If memory runs out, the server may not have ticked, or only a prefix of the
/// notes was sent, never all. `last` is the last moment that the clock gave. If the clock fails, it is the moment of the turn.
pub fn notify_once<R: Wait, V: Serving + Send, T: Clock, L: Link>(
    rt: &R,
    alloc: Global,
    turn: &Turn<Served<V>>,
    seat: &mut Seat<Served<V>>,
    clock: &mut T,
    last: &mut u64,
    link: &mut L,
) -> Result<bool, Mem>
    requires { IsSeatOf turn.now seat.old }
    ensures seat { IsSeatOf turn.now seat.new }
    ensures looked { Looks (start_of turn.now seat.old) result last.old last.new
        (record {
          seat = seat_told turn.now seat.old;
          clock = T.told clock.old;
          link = L.told link.old;
        })
        (record {
          seat = seat_told turn.now seat.new;
          clock = T.told clock.new;
          link = L.told link.new;
        }) }
    ensures clock_faults_rise { (T.told clock.old).faults ≤ (T.told clock.new).faults }
    ensures link_faults_rise { (L.told link.old).faults ≤ (L.told link.new).faults }
{
    let now = ask_moment(clock, last);
    let look = turn.with(rt, seat, Tick { alloc, now })?;
    send_notes(alloc, link, &look.notes)?;
    Ok(look.stopped)
}
