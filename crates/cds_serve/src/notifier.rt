//! The job of the notifier, which sends the notes of changes.

ghost use Rattle.std.specs.Prelude.{◌≡◌, true, IsTrue, Ok};
ghost use Rattle.std.specs.Arc.{arc_value};
ghost use Rattle.cds_turn.specs.Turn.{IsSeatOf};

use crate::looking::notify_once;
use crate::scanner::REST;
use crate::served::Served;
use cds_base::Mem;
use cds_outside::{Clock, Gate, Job, Link};
use cds_server::Server;
use cds_turn::{Seat, Turn};
use std::alloc::Global;
use std::marker::Send;
use std::sync::{Arc, Wait};

/// Sends the notes of a server that others share. It looks every 50 ms, and ends once the server was stopped.
#[derive(Drop)]
pub struct Notifier<R, T, L, G> {
    pub rt: R,
    pub alloc: Global,
    pub turn: Arc<Turn<Served<Server>>>,
    pub seat: Seat<Served<Server>>,
    pub clock: T,
    pub link: L,
    pub gate: G,
    ghost own: { IsSeatOf (arc_value turn) seat },
}

/// What the notifier answers.
#[derive(Drop)]
pub struct Notified {
    pub seat: Seat<Served<Server>>,
}

impl<
    R: Wait + Send + Drop + 'static,
    T: Clock + Send + Drop + 'static,
    L: Link + Send + Drop + 'static,
    G: Gate + Send + Drop + 'static,
> Job for Notifier<R, T, L, G> {
    ghost use Rattle.cds_turn.specs.Turn.{seat_told};
    ghost use Rattle.cds_serve.specs.Jobs.{EndsNotifying};

    type Out = Notified;

    ghost answers = { λ notifier notified. IsSeatOf (arc_value notifier.turn) notified.seat
        × EndsNotifying (seat_told (arc_value notifier.turn) notifier.seat) (seat_told (arc_value notifier.turn) notified.seat) };

    fn run(self) -> Notified {
        let Notifier {
            rt,
            alloc,
            turn,
            mut seat,
            mut clock,
            mut link,
            gate: _,
        } = self;
        let mut last = 0;
        'looks: for _ in rt.forever() {
            let looked = notify_once(
                &rt, alloc, &turn, &mut seat, &mut clock, &mut last, &mut link,
            );
            if saw_stop(&looked) {
                return Notified { seat };
            }
            clock.rest(REST);
        }
        unreachable!()
    }
}

/// Returns whether a look found the server stopped.
fn saw_stop(looked: &Result<bool, Mem>) -> bool
    ensures { IsTrue result → looked.now ≡ Ok true }
{
    match looked {
        Ok(stopped) => *stopped,
        Err(Mem) => false,
    }
}
