//! The calls of a turn: open it, act in it, split and join its seats, and close it.
ghost use Rattle.std.specs.Prelude.{◌≡◌, ◌≢◌, ◌⊎◌, ◌+◌, ◌≤◌, Bool, List, [], ◌++◌, IfOk, IfErr, IsOk};
ghost use Rattle.std.specs.List.{count_by};
ghost use Rattle.cds_turn.specs.Line.{Extends, StandsBeyond};
ghost use Rattle.cds_turn.specs.Turn.{IsSeatOf, IsOver, IsOpen, start_of, seats_of, seen_by, own_by, passes_of, turns_of};

use crate::open::Open;
use crate::seat::Seat;
use crate::stands::{Act, StandsFor};
use crate::table;
use crate::turn::Turn;
use crate::view::Opening;
use atomic_table::{Refused, Table};
use cds_base::Mem;
use std::alloc::Global;
use std::marker::Brand;
use std::snapshot::Snapshot;
use std::sync::Wait;

impl<V: StandsFor + Drop> Turn<V> {
    /// Makes a turn over the value, and its first seat, which has all passes. If memory runs out, neither is made and
    /// the value is dropped.
    pub fn new(alloc: Global, value: V, seats: u32) -> Result<(Turn<V>, Seat<V>), Mem>
        requires seats { 1 ≤ seats }
        requires value { V.stands value (V.start value) [] }
        ensures seat { IfOk result (λ r. IsSeatOf r.0 r.1) }
        ensures start { IfOk result (λ r. start_of r.0 r.1 ≡ V.start value) }
        ensures seats { IfOk result (λ r. (seats_of r.0 ≡ seats) × (passes_of r.1 ≡ seats)) }
        ensures fresh { IfOk result (λ r. (seen_by r.1 ≡ []) × (turns_of r.1 ≡ 0)) }
        ensures own { IfOk result (λ r. own_by r.1 ≡ []) }
    {
        let opening = Opening {
            seats,
            value: Snapshot::of(&value),
        };
        let mut slots = Vec::with_capacity(alloc, 1)?;
        slots.push(Some(value))?;
        match Table::new(alloc, &[0, 0, 0], slots, &opening) {
            Ok((table, place)) => Ok((Turn { table }, Seat { place })),
            Err(Refused { slots: _ }) => Err(Mem),
        }
    }

    /// Does an act on the value once it is the caller's turn, which may take for ever. The list found begins with all
    /// that the seat had seen. If the seat has all passes, the list is just that. Any test then passes as many of the
    /// seat's own commands as of those that it had seen. The answer is one that the act's meaning allows for the list
    /// found.
    pub fn with<A: Act<V>, R: Wait>(&self, rt: &R, seat: &mut Seat<V>, act: A) -> A::Out
        requires { IsSeatOf self.now seat.old }
        ensures seat { IsSeatOf self.now seat.new }
        ensures passes { passes_of seat.new ≡ passes_of seat.old }
        ensures turns { turns_of seat.new ≡ turns_of seat.old + 1 }
        ensures counted { passes_of seat.old ≡ seats_of self.now → (test : V.Command → Bool) → count_by test (own_by seat.old) ≡ count_by test (seen_by seat.old) }
        ensures found { (found : List V.Command) × Extends found (seen_by seat.old)
            × (passes_of seat.old ≡ seats_of self.now → found ≡ seen_by seat.old)
            × A.answers act (start_of self.now seat.old) found result
            × (seen_by seat.new ≡ A.adds act (start_of self.now seat.old) found result ++ found)
            × (own_by seat.new ≡ A.adds act (start_of self.now seat.old) found result ++ own_by seat.old)
            × ((given : V) × (left : V) × V.stands given (start_of self.now seat.old) found
            × V.stands left (start_of self.now seat.old) (seen_by seat.new) × A.does act given left result) }
    {
        let lane = &self.table.shared;
        let place = &mut seat.place;
        let mut value = table::enter::<V, R, Brand>(rt, lane, place);
        let told = Snapshot::of(&act);
        let (answer, count) = act.act(&mut value);
        table::add::<V, A, Brand>(lane, place, &told, &answer, count);
        table::leave(lane, place, value);
        answer
    }

    /// Returns a new seat for another thread. It has seen the same, takes one of the passes and has no commands of its
    /// own.
    pub fn split(&self, seat: &mut Seat<V>) -> Seat<V>
        requires seat { IsSeatOf self.now seat.old }
        requires passes { 2 ≤ passes_of seat.old }
        ensures seat { IsSeatOf self.now seat.new }
        ensures seen { (seen_by seat.new ≡ seen_by seat.old) × (turns_of seat.new ≡ turns_of seat.old) }
        ensures own { own_by seat.new ≡ own_by seat.old }
        ensures passes { passes_of seat.new + 1 ≡ passes_of seat.old }
        ensures new_seat { IsSeatOf self.now result }
        ensures new_seen { seen_by result ≡ seen_by seat.old }
        ensures new_own { own_by result ≡ [] }
        ensures new_counts { (passes_of result ≡ 1) × (turns_of result ≡ 0) }
    {
        let given = table::part(&self.table.shared, &mut seat.place);
        Seat { place: given }
    }

    /// Takes in another seat of the turn: its own commands, its passes and its turns. Of the lists that the two have
    /// seen, one begins with the other. The seat then has seen the longer one.
    pub fn join(&self, into: &mut Seat<V>, other: Seat<V>)
        requires { IsSeatOf self.now into.old × IsSeatOf self.now other }
        ensures seat { IsSeatOf self.now into.new }
        ensures seen { Extends (seen_by into.new) (seen_by into.old) × Extends (seen_by into.new) (seen_by other) }
        ensures one { (seen_by into.new ≡ seen_by into.old) ⊎ (seen_by into.new ≡ seen_by other) }
        ensures own { own_by into.new ≡ own_by into.old ++ own_by other }
        ensures passes { passes_of into.new ≡ passes_of into.old + passes_of other }
        ensures turns { turns_of into.new ≡ turns_of into.old + turns_of other }
    {
        let Seat { place } = other;
        table::merge(&self.table.shared, &mut into.place, place);
    }

    /// Ends the turn. Returns the value, which stands for a list that begins with all that the seat had seen. Otherwise
    /// returns `Open` with two numbers that differ, and the value is gone.
    ///
    /// Either comes with some state that the turn's rule allows and that has this seat. For the value, all tickets are
    /// served in that state. For `Open`, the two numbers are the counts of that state modulo 2^64.
    ///
    /// If the seat has all passes, the value comes and stands for just what the seat has seen. Any test then passes as
    /// many of the seat's own commands as of those that it has seen.
    pub fn close(self, seat: Seat<V>) -> Result<V, Open>
        requires { IsSeatOf self seat }
        ensures value { IfOk result (λ value. StandsBeyond V.stands (start_of self seat) (seen_by seat) value) }
        ensures over { IfOk result (λ value. IsOver self seat value) }
        ensures open { IfErr result (λ o. IsOpen self seat o.ticket o.serving) }
        ensures differ { IfErr result (λ o. o.ticket ≢ o.serving) }
        ensures all { passes_of seat ≡ seats_of self → IsOk result }
        ensures seen { passes_of seat ≡ seats_of self → IfOk result (λ value. V.stands value (start_of self seat) (seen_by seat)) }
        ensures own { passes_of seat ≡ seats_of self → (test : V.Command → Bool) → count_by test (own_by seat) ≡ count_by test (seen_by seat) }
    {
        let Turn { table } = self;
        let Seat { place } = seat;
        let (open, slot) = table::end(table, place);
        if open.ticket != open.serving {
            return Err(open);
        }
        Ok(slot.unwrap())
    }
}
