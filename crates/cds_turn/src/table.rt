//! The single steps of a turn, each on one word or on the slot.
ghost use Rattle.std.specs.Prelude.{◌≡◌, ◌≢◌, ◌≤◌, ℕ, ◌+◌, ◌%◌, ◌^◌, List, [], ◌∷◌, ◌++◌, length, Some, None, IsSome, IfSome, Bool, true, false};
ghost use Rattle.std.specs.List.{count_by};
ghost use Rattle.cds_turn.specs.Line.{Extends, StandsBeyond, EndsHome, EndsOpen};
ghost use Rattle.cds_turn.specs.Moves.{IsAt, Continues, at_rest, found_of, stays, parts, both, settled, IsTurnTable, Turns};

use crate::open::Open;
use crate::stands::{Act, StandsFor};
use crate::view::{
    Add, Adding, Both, Draw, Line, Look, Opening, Part, PassOn, Place, Settle, Sharing, View,
};
use atomic_table::{Shared, Table};
use std::alloc::Global;
use std::marker::Brand;
use std::snapshot::Snapshot;
use std::sync::Wait;

/// How often a waiting thread looks before it sleeps: for about as long as it takes to fall asleep and be woken.
const LOOKS: u32 = 4096;

/// The table of a turn, as all threads see it.
pub(crate) type Lane<V> = Shared<
    Option<V>,
    View<<V as StandsFor>::Command, <V as StandsFor>::Start>,
    Opening<V>,
    Line<V>,
>;

/// The table with its memory.
pub(crate) type Board<V> = Table<
    Option<V>,
    View<<V as StandsFor>::Command, <V as StandsFor>::Start>,
    Opening<V>,
    Line<V>,
    Global,
>;

impl<C> Adding<C> for Brand {
    ghost use Rattle.std.specs.Prelude.{[]};

    ghost added = { λ _. [] };
}

impl Sharing for Brand {
    ghost seats = { 0 };
}

/// Draws a ticket. The number returned is the ticket modulo 2^64.
fn draw<V: StandsFor>(lane: &Lane<V>, place: &mut Place<V>) -> u64
    requires table { IsAt lane.now.table_id place.old }
    requires rests { place.old ≡ at_rest place.old }
    requires starts { place.old.me.0.start ≡ Some (V.start lane.now.key.value.value) }
    ensures same { Continues place.old place.new }
    ensures ticket { (t : ℕ) × (result ≡ t % 2 ^ 64) × (place.new.me.0.ticket ≡ Some t) }
    ensures own { place.new.me.0.own ≡ place.old.me.0.own }
    ensures waits { (place.new.me.0.found ≡ None) × (place.new.me.1 ≡ []) }
{
    lane.fetch_add::<Draw>(place, 0, 1)
}

/// Looks at the number that is served, again and again for a moment. Returns true once it is the ticket: the seat then
/// has the turn. Otherwise the seat is as before.
fn is_served<V: StandsFor, G: Sharing>(lane: &Lane<V>, place: &mut Place<V>, ticket: u64) -> bool
    requires table { IsAt lane.now.table_id place.old }
    requires seats { G.seats ≡ lane.now.key.seats }
    requires ticket { (t : ℕ) × (ticket ≡ t % 2 ^ 64) × (place.old.me.0.ticket ≡ Some t) }
    requires waits { (place.old.me.0.found ≡ None) × (place.old.me.1 ≡ []) }
    ensures table { place.new.table_id ≡ place.old.table_id }
    ensures turn { result ≡ true → Turns V.stands G.seats place.old.me place.new.me }
    ensures waits { result ≡ false → place.new.me ≡ place.old.me }
{
    for _ in 0..LOOKS {
        if lane.load::<Look<G>>(place, 1) == ticket {
            return true;
        }
    }
    false
}

/// Waits until the ticket is served. The seat then holds the slot with the value. It sleeps while the number that is
/// served is one that is not its ticket. Fewer than 2^32 tickets are out at once. So the low 32 bits of that number,
/// which are all that a sleep compares, do not come back before the ticket is served.
fn await_turn<V: StandsFor, R: Wait, G: Sharing>(
    rt: &R,
    lane: &Lane<V>,
    place: &mut Place<V>,
    ticket: u64,
)
    requires table { IsAt lane.now.table_id place.old }
    requires seats { G.seats ≡ lane.now.key.seats }
    requires ticket { (t : ℕ) × (ticket ≡ t % 2 ^ 64) × (place.old.me.0.ticket ≡ Some t) }
    requires waits { (place.old.me.0.found ≡ None) × (place.old.me.1 ≡ []) }
    ensures table { place.new.table_id ≡ place.old.table_id }
    ensures turn { Turns V.stands G.seats place.old.me place.new.me }
{
    for _ in rt.forever() {
        if is_served::<V, G>(lane, place, ticket) {
            return;
        }
        let serving = lane.peek(1);
        if serving != ticket {
            lane.park(rt, 1, (serving & 0xffff_ffff) as u32);
        }
    }
    unreachable!()
}

/// Draws a ticket, waits for its turn and takes the value. The value stands for a list that begins with all that the
/// seat had seen.
pub(crate) fn enter<V: StandsFor, R: Wait, G: Sharing>(
    rt: &R,
    lane: &Lane<V>,
    place: &mut Place<V>,
) -> V
    requires table { IsAt lane.now.table_id place.old }
    requires seats { G.seats ≡ lane.now.key.seats }
    requires rests { place.old ≡ at_rest place.old }
    requires starts { place.old.me.0.start ≡ Some (V.start lane.now.key.value.value) }
    ensures same { Continues place.old place.new }
    ensures own { place.new.me.0.own ≡ place.old.me.0.own }
    ensures turn { place.new.me.0.found ≡ Some (found_of place.new) }
    ensures out { place.new.me.1 ≡ (0, None) ∷ [] }
    ensures stands { V.stands result (V.start lane.now.key.value.value) (found_of place.new) }
    ensures begun { Extends (found_of place.new) place.old.me.0.seen }
    ensures all { place.old.me.0.passes ≡ lane.now.key.seats → found_of place.new ≡ place.old.me.0.seen }
    ensures counted { place.old.me.0.passes ≡ lane.now.key.seats
        → (test : V.Command → Bool) → count_by test place.old.me.0.own ≡ count_by test place.old.me.0.seen }
{
    let ticket = draw(lane, place);
    await_turn::<V, R, G>(rt, lane, place, ticket);
    lane.exchange(place, 0, None).unwrap()
}

/// Adds the commands of an act to the count. From here on they stand in the list.
pub(crate) fn add<V: StandsFor, A: Act<V>, G: Adding<V::Command>>(
    lane: &Lane<V>,
    place: &mut Place<V>,
    act: &Snapshot<A>,
    answer: &A::Out,
    count: u64,
)
    requires table { IsAt lane.now.table_id place.old }
    requires turn { place.old.me.0.found ≡ Some (found_of place.old) }
    requires count { count ≡ length (G.added (found_of place.old)) }
    requires out { place.old.me.1 ≡ (0, None) ∷ [] }
    ensures same { Continues place.old place.new }
    ensures added { place.new.me.0.found ≡ Some (G.added (found_of place.old) ++ found_of place.old) }
    ensures own { place.new.me.0.own ≡ G.added (found_of place.old) ++ place.old.me.0.own }
    ensures out { place.new.me.1 ≡ (0, None) ∷ [] }
{
    let _ = act;
    let _ = answer;
    lane.fetch_add::<Add<G>>(place, 2, count);
}

/// Puts the value back into the slot.
fn give<V: StandsFor + Drop>(lane: &Lane<V>, place: &mut Place<V>, value: V)
    requires table { IsAt lane.now.table_id place.old }
    requires out { place.old.me.1 ≡ (0, None) ∷ [] }
    ensures table { place.new.table_id ≡ place.old.table_id }
    ensures view { place.new.me.0 ≡ place.old.me.0 }
    ensures home { place.new.me.1 ≡ (0, Some value) ∷ [] }
{
    lane.exchange(place, 0, Some(value));
}

/// Wakes all who sleep, if a ticket was drawn that is not served yet. A thread draws before it sleeps, and the number
/// that is served has changed before this looks. So a ticket that is not counted here is that of a thread that does not
/// sleep on the old number.
fn wake<V: StandsFor>(lane: &Lane<V>, serving: u64)
    requires { IsTurnTable lane.now.table_id }
{
    if lane.peek(0) != serving {
        lane.wake_all(1);
    }
}

/// Passes the turn on, and the slot with it. The seat has then seen the list as the turn left it.
fn pass_on<V: StandsFor>(lane: &Lane<V>, place: &mut Place<V>)
    requires table { IsAt lane.now.table_id place.old }
    requires starts { place.old.me.0.start ≡ Some (V.start lane.now.key.value.value) }
    requires turn { place.old.me.0.found ≡ Some (found_of place.old) }
    requires home { (value : V) × (place.old.me.1 ≡ (0, Some value) ∷ []) × V.stands value (V.start lane.now.key.value.value) (found_of place.old) }
    ensures table { place.new.table_id ≡ place.old.table_id }
    ensures rests { place.old.me.0.older ≡ [] → place.new ≡ at_rest place.new }
    ensures start { place.new.me.0.start ≡ place.old.me.0.start }
    ensures seen { place.new.me.0.seen ≡ found_of place.old }
    ensures own { place.new.me.0.own ≡ place.old.me.0.own }
    ensures passes { place.new.me.0.passes ≡ place.old.me.0.passes }
    ensures turns { place.new.me.0.turns ≡ place.old.me.0.turns + 1 }
{
    let served = lane.fetch_add::<PassOn>(place, 1, 1);
    wake(lane, served.wrapping_add(1));
}

/// Ends a turn: gives the value back and passes the turn on.
pub(crate) fn leave<V: StandsFor + Drop>(lane: &Lane<V>, place: &mut Place<V>, value: V)
    requires table { IsAt lane.now.table_id place.old }
    requires starts { place.old.me.0.start ≡ Some (V.start lane.now.key.value.value) }
    requires turn { place.old.me.0.found ≡ Some (found_of place.old) }
    requires out { place.old.me.1 ≡ (0, None) ∷ [] }
    requires stands { V.stands value (V.start lane.now.key.value.value) (found_of place.old) }
    ensures table { place.new.table_id ≡ place.old.table_id }
    ensures rests { place.old.me.0.older ≡ [] → place.new ≡ at_rest place.new }
    ensures start { place.new.me.0.start ≡ place.old.me.0.start }
    ensures seen { place.new.me.0.seen ≡ found_of place.old }
    ensures own { place.new.me.0.own ≡ place.old.me.0.own }
    ensures passes { place.new.me.0.passes ≡ place.old.me.0.passes }
    ensures turns { place.new.me.0.turns ≡ place.old.me.0.turns + 1 }
{
    give(lane, place, value);
    pass_on(lane, place);
}

/// Gives one pass to a new seat.
pub(crate) fn part<V: StandsFor>(lane: &Lane<V>, place: &mut Place<V>) -> Place<V>
    requires table { IsAt lane.now.table_id place.old }
    requires rests { place.old ≡ at_rest place.old }
    requires starts { place.old.me.0.start ≡ Some (V.start lane.now.key.value.value) }
    requires passes { 2 ≤ place.old.me.0.passes }
    ensures tables { (place.new.table_id ≡ place.old.table_id) × (result.table_id ≡ place.old.table_id) }
    ensures old { place.new.me ≡ (stays place.old.me.0, []) }
    ensures new { result.me ≡ (parts place.old.me.0, []) }
    ensures rests { (place.new ≡ at_rest place.new) × (result ≡ at_rest result) }
{
    lane.split_seat::<Part>(place)
}

/// Takes in another seat. What the seat has seen then begins with what each of the two had seen.
pub(crate) fn merge<V: StandsFor>(lane: &Lane<V>, place: &mut Place<V>, other: Place<V>)
    requires table { IsAt lane.now.table_id place.old × IsAt lane.now.table_id other }
    requires rests { (place.old ≡ at_rest place.old) × (other ≡ at_rest other) }
    requires starts { (place.old.me.0.start ≡ Some (V.start lane.now.key.value.value)) × (other.me.0.start ≡ Some (V.start lane.now.key.value.value)) }
    ensures table { place.new.table_id ≡ place.old.table_id }
    ensures both { place.new.me ≡ (settled (both place.old.me.0 other.me.0), []) }
    ensures rests { place.new ≡ at_rest place.new }
    ensures seen { Extends place.new.me.0.seen place.old.me.0.seen × Extends place.new.me.0.seen other.me.0.seen }
{
    lane.join_seat::<Both>(place, other);
    lane.load::<Settle>(place, 0);
}

/// Ends the table and returns both numbers and what is in the slot. If the seat has all passes, the numbers are equal.
/// If the numbers are equal, the value is in the slot.
pub(crate) fn end<V: StandsFor + Drop>(board: Board<V>, place: Place<V>) -> (Open, Option<V>)
    requires table { IsAt board.shared.table_id place }
    requires rests { place ≡ at_rest place }
    ensures home { result.0.ticket ≡ result.0.serving → IsSome result.1 }
    ensures value { result.0.ticket ≡ result.0.serving → IfSome result.1 (StandsBeyond V.stands (V.start board.shared.key.value.value) place.me.0.seen) }
    ensures all { place.me.0.passes ≡ board.shared.key.seats → result.0.ticket ≡ result.0.serving }
    ensures seen { result.0.ticket ≡ result.0.serving → place.me.0.passes ≡ board.shared.key.seats
        → IfSome result.1 (λ value. V.stands value (V.start board.shared.key.value.value) place.me.0.seen) }
    ensures over { result.0.ticket ≡ result.0.serving
        → (value : V) → result.1 ≡ Some value → EndsHome V.stands (V.start board.shared.key.value.value) board.shared.key.seats place.id place.me.0 value }
    ensures open { result.0.ticket ≢ result.0.serving
        → EndsOpen V.stands (V.start board.shared.key.value.value) board.shared.key.seats place.id place.me.0 result.0.ticket result.0.serving }
    ensures own { place.me.0.passes ≡ board.shared.key.seats → (test : V.Command → Bool) → count_by test place.me.0.own ≡ count_by test place.me.0.seen }
{
    let mut closed = board.close_with(place);
    let open = Open {
        ticket: closed.word(0),
        serving: closed.word(1),
    };
    let slot = closed.take(0);
    closed.free();
    (open, slot)
}
