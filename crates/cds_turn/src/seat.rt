//! `Seat`: what one caller holds.
ghost use Rattle.std.specs.Prelude.{◌≡◌};
ghost use Rattle.cds_turn.specs.Moves.{at_rest};

use crate::stands::StandsFor;
use crate::view::Place;

/// A caller's part in a turn: what it has seen, its passes and its turns. It has no bytes. A caller with two passes or
/// more can give one to a new seat for another thread.
#[derive(Drop)]
pub struct Seat<V: StandsFor> {
    pub(crate) place: Place<V>,
    ghost rests: { place ≡ at_rest place },
}
