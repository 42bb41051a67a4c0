//! What takes the parts of a document.

ghost use Rattle.std.specs.Prelude.{◌≡◌, ◌++◌, ◌∷◌, [], Bool, false, OnOk};

use crate::{Part, Parts};
use cds_base::Mem;

/// Takes the parts of a document one by one, in their order. Once it has enough, it is given no more.
pub trait PartSink {
    ghost use Rattle.cds_markup.specs.declared.part.Part.{Part};

    // Says that this part turns the first into the second.
    ghost took: { Self → Part → Self → Type 0 };

    // Says whether no more is wanted.
    ghost enough: { Self → Bool } = { λ _. false };

    /// Takes the next part. A refusal means that memory ran out, and says nothing of what the part made.
    fn take(&mut self, part: Part) -> Result<(), Mem>
        ensures { OnOk result (took self.old part self.new) };

    /// Returns whether no more is wanted.
    fn has_enough(&self) -> bool
        ensures { result ≡ enough self.now };
}

impl PartSink for Parts {
    ghost use Rattle.cds_markup.specs.declared.part.Part.{Part};

    ghost took = { λ before part now. now ≡ before ++ part ∷ [] };

    fn take(&mut self, part: Part) -> Result<(), Mem> {
        self.push(part)
    }

    fn has_enough(&self) -> bool {
        false
    }
}
