//! What a seat knows, the rule that holds between any two steps, and what each kind of step tells.
use crate::stands::StandsFor;
use atomic_table::{Join, Play, Seat, Split, TableRule};
use std::collections::LinkedList;
use std::marker::PhantomData;
use std::snapshot::Snapshot;

/// What a seat knows. It stands in proofs alone: no value of it is made. So its numbers have no greatest value.
pub(crate) struct View<C, T> {
    /// The start of the turn's value. The view of a seat that was joined into another has none.
    pub start: Option<T>,
    /// The commands that the seat has seen, newest first.
    pub seen: LinkedList<C>,
    /// The commands that this seat appended, newest first.
    pub own: LinkedList<C>,
    /// What each of two seats had seen before they were joined into this one.
    pub older: LinkedList<LinkedList<C>>,
    /// How many seats may be made of it, itself included.
    pub passes: u64,
    /// How many turns were taken with it.
    pub turns: u64,
    /// The ticket that it holds.
    pub ticket: Option<u64>,
    /// While it has the turn, the list that the value was found at, with what was added since.
    pub found: Option<LinkedList<C>>,
}

/// What a table is told once, when it is made: how many seats there may be, and the value that it opens with.
#[derive(Drop)]
pub(crate) struct Opening<V> {
    pub seats: u32,
    pub value: Snapshot<V>,
}

/// The rule of the table.
pub(crate) struct Line<V> {
    of: PhantomData<V>,
}

/// A seat at the table. It has no bytes.
pub(crate) type Place<V> = Seat<
    Option<V>,
    View<<V as StandsFor>::Command, <V as StandsFor>::Start>,
>;

impl<V: StandsFor> TableRule<Option<V>, View<V::Command, V::Start>, Opening<V>> for Line<V> {
    ghost use Rattle.cds_turn.specs.Line.{Kept, newcomer};

    ghost holds = { λ key. Kept V.stands (V.start key.value.value) key.seats };

    ghost first = { λ key. newcomer (V.start key.value.value) key.seats };
}

/// Draws a ticket.
pub(crate) struct Draw;

impl<S, C, T> Play<S, View<C, T>> for Draw {
    ghost use Rattle.cds_turn.specs.Moves.{Draws};

    ghost then = { Draws };
}

/// How many seats there may be. Each call that looks picks it.
pub(crate) trait Sharing {
    ghost use Rattle.std.specs.Prelude.{ℕ};

    ghost seats: { ℕ };
}

/// Looks at the number that is served, and takes the slot if the number is that of the seat's own ticket.
pub(crate) struct Look<G> {
    of: PhantomData<G>,
}

impl<V: StandsFor, G: Sharing> Play<Option<V>, View<V::Command, V::Start>> for Look<G> {
    ghost use Rattle.cds_turn.specs.Moves.{Looks};

    ghost then = { Looks V.stands G.seats };
}

/// Commands that an act has appended to the list that it found. Each call that adds them to the count picks them.
pub(crate) trait Adding<C> {
    ghost use Rattle.std.specs.Prelude.{List};

    ghost added: { List C → List C };
}

/// Adds the commands to the count. At that moment they join the list.
pub(crate) struct Add<G> {
    of: PhantomData<G>,
}

impl<S, C, T, G: Adding<C>> Play<S, View<C, T>> for Add<G> {
    ghost use Rattle.cds_turn.specs.Moves.{Adds};

    ghost then = { Adds G.added };
}

/// Passes the turn on, and gives the slot back.
pub(crate) struct PassOn;

impl<S, C, T> Play<S, View<C, T>> for PassOn {
    ghost use Rattle.cds_turn.specs.Moves.{Passes};

    ghost then = { Passes };
}

/// Gives one pass to a new seat.
pub(crate) struct Part;

impl<C, T> Split<View<C, T>> for Part {
    ghost use Rattle.cds_turn.specs.Moves.{stays, parts};

    ghost left = { stays };

    ghost right = { parts };
}

/// Takes in what another seat has seen, its own commands, its passes and its turns.
pub(crate) struct Both;

impl<C, T> Join<View<C, T>> for Both {
    ghost use Rattle.cds_turn.specs.Line.{spent};
    ghost use Rattle.cds_turn.specs.Moves.{both};

    ghost both = { both };

    ghost spent = { spent };
}

/// Shows that what was seen begins with what each of the two seats had seen.
pub(crate) struct Settle;

impl<S, C, T> Play<S, View<C, T>> for Settle {
    ghost use Rattle.cds_turn.specs.Moves.{Settles};

    ghost then = { Settles };
}
