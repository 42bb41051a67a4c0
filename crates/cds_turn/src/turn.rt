//! `Turn`: the value and the line before it.
ghost use Rattle.std.specs.Prelude.{◌≡◌};
ghost use Rattle.cds_turn.specs.Moves.{IsTurnTable};

use crate::stands::StandsFor;
use crate::table::Board;

/// A value that threads share in turns.
#[derive(Drop)]
pub struct Turn<V: StandsFor + Drop> {
    pub(crate) table: Board<V>,
    ghost sized: { IsTurnTable table.shared.table_id },
}
