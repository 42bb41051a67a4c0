//! Lists that only contracts see.

ghost use Rattle.std.specs.Prelude.{◌≡◌, [], ◌∷◌, ◌++◌};

use std::marker::Model;
use std::snapshot::Snapshot;

/// A list that only contracts see. It takes no memory, whatever is added.
#[derive(Drop)]
pub struct Trace<T> {
    steps: Option<Snapshot<TraceStep<T>>>,
}

/// The last item of a trace, and what stands before it.
struct TraceStep<T> {
    before: Option<Snapshot<TraceStep<T>>>,
    last: T,
}

impl<T> Model for Trace<T> {
    ghost use Rattle.std.specs.Prelude.{List, [], unwrap_or};
    ghost use Rattle.std.specs.Option.{option_map};

    ghost Value = { List T };

    ghost view = { λ t. unwrap_or (option_map (λ s. s.value) t.steps) [] };
}

impl<T> Model for TraceStep<T> {
    ghost use Rattle.std.specs.Prelude.{List, [], ◌∷◌, ◌++◌, length, unwrap_or};
    ghost use Rattle.std.specs.Option.{option_map};

    ghost Value = { List T };

    ghost view = { λ s. unwrap_or (option_map (λ s. s.value) s.before) [] ++ s.last ∷ [] };

    ghost size = { length };

    ghost use Rattle.std.proofs.Common.{arith, length-append};

    ghost size_decreases = { λ a h. Prim.grind (arith, length-append) };
}

impl<T> Trace<T> {
    /// Makes the empty list.
    pub fn new() -> Self
        ensures { result ≡ [] }
    {
        Trace { steps: None }
    }

    /// Adds the item at the end, and gives it back.
    pub fn push(&mut self, item: T) -> T
        ensures list { self.new ≡ self.old ++ item ∷ [] }
        ensures item { result ≡ item }
    {
        let step = TraceStep {
            before: self.steps.take(),
            last: item,
        };
        self.steps = Some(Snapshot::of(&step));
        let TraceStep { last, before: _ } = step;
        last
    }
}
