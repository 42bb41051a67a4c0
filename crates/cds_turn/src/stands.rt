//! The two traits of a turn: what a value says that it stands for, and what an act says that it does to the value.
ghost use Rattle.std.specs.Prelude.{◌≡◌, List, ◌++◌, length};

/// A value that stands for a list of accepted commands from a start. Contracts have lists newest first: a new command
/// stands before the list. So a list begins with another in time if it ends with it in writing.
pub trait StandsFor {
    /// One accepted command.
    type Command;
    /// What the value was opened with. No act changes it.
    type Start;

    // The start of a value that stands for the empty list.
    ghost start: { Self → Self.Start };

    // The value stands for this list of commands from this start.
    ghost stands: { Self → Self.Start → List Self.Command → Type 0 };
}

/// One job on the value, done in one turn: a command or a read.
pub trait Act<V: StandsFor>: Send {
    /// What the job answers.
    type Out;

    // The commands that it appends, newest first. They follow from the start, the list found and the answer.
    ghost adds: { Self → V.Start → List V.Command → Self.Out → List V.Command };

    // What its answer may be, given the start and the list found. An act that takes memory allows an answer for out of
    // memory here. It says in `adds` that nothing is appended then.
    ghost answers: { Self → V.Start → List V.Command → Self.Out → Type 0 };

    // What it does to the value: a relation of the value given, the value left and the answer.
    ghost does: { Self → V → V → Self.Out → Type 0 };

    /// Does the job on a value that stands for some list. Returns the answer and the number of commands that it
    /// appended to that list.
    fn act(self, value: &mut V) -> (Self::Out, u64)
        ensures count { (start : V.Start) (found : List V.Command) → V.stands value.old start found → result.1 ≡ length (adds self start found result.0) }
        ensures answer { (start : V.Start) (found : List V.Command) → V.stands value.old start found → answers self start found result.0 }
        ensures stands { (start : V.Start) (found : List V.Command) → V.stands value.old start found
            → V.stands value.new start (adds self start found result.0 ++ found) }
        ensures does { does self value.old value.new result.0 };
}
