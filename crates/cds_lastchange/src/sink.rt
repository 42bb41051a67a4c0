//! A taker of parts that judges them one by one as they come.

ghost use Rattle.std.specs.Prelude.{◌≡◌, ◌∷◌, [], Ok, IfOk};
ghost use Rattle.cds_lastchange.specs.Judged.{part_judged, nothing_said, misplaced};

use crate::judge::{Judge, Unfit};
use cds_base::Mem;
use cds_markup::{Part, PartSink};
use std::alloc::Global;
use std::marker::Model;

/// Takes the parts of a document up to the first that does not stand, and keeps none. Contracts see what the parts say, or the
/// place of the first that does not stand.
#[derive(Drop)]
pub struct Judging {
    said: Result<Judge, usize>,
}

impl Model for Judging {
    ghost use Rattle.std.specs.Prelude.{ℕ, Result};
    ghost use Rattle.cds_lastchange.specs.declared.judge.Judge.{Judge};

    ghost Value = { Result Judge ℕ };

    ghost view = { λ j. j.said };
}

impl Judging {
    /// Returns a taker of no parts.
    pub fn new(alloc: Global) -> Self
        ensures { result ≡ Ok nothing_said }
    {
        Judging {
            said: Ok(Judge::new(alloc)),
        }
    }

    /// Returns the place of the first part that does not stand.
    pub fn misplaced(&self) -> Option<usize>
        ensures { result ≡ misplaced self.now }
    {
        match &self.said {
            Ok(_) => None,
            Err(at) => Some(*at),
        }
    }

    /// Returns what the parts say, or the place of the first that does not stand.
    pub fn into_said(self) -> Result<Judge, usize>
        ensures { result ≡ self }
    {
        self.said
    }
}

impl PartSink for Judging {
    ghost use Rattle.cds_lastchange.specs.Judged.{judged_on, is_misplaced};

    ghost took = { judged_on };

    ghost enough = { is_misplaced };

    fn take(&mut self, part: Part) -> Result<(), Mem> {
        let before = std::mem::replace(&mut self.said, Err(0));
        let said = match before {
            Ok(judge) => judged(judge, &part)?,
            Err(at) => Err(at),
        };
        drop(std::mem::replace(&mut self.said, said));
        Ok(())
    }

    fn has_enough(&self) -> bool {
        self.said.is_err()
    }
}

/// Returns what is said up to and with a part. If the part does not stand, returns the place that is answered.
fn judged(judge: Judge, part: &Part) -> Result<Result<Judge, usize>, Mem>
    ensures { IfOk result (λ said. said ≡ part_judged judge part.now) }
{
    let mut judge = judge;
    match judge.part(part) {
        Ok(()) => Ok(Ok(judge)),
        Err(Unfit::Misplaced { at }) => Ok(Err(at)),
        Err(Unfit::Mem) => Err(Mem),
    }
}
