//! Replicas and servers evaluated from the definitions: each clause is one of them.

ghost use Rattle.cds_follow.specs.Examples as examples;

/// States that a note that comes before the one that it follows leaves a gap, and then its object is still to be read.
pub fn notes_out_of_order()
    ensures { examples.notes_out_of_order }
{}

/// States that a repeated note is counted once.
pub fn repeated_notes()
    ensures { examples.repeated_notes }
{}

/// States that an object that is gone when it is read stays unread until its deletion is told.
pub fn read_of_what_is_gone()
    ensures { examples.read_of_what_is_gone }
{}

/// States that an object that is read in a later version than the notes tell holds the copy back until they tell it.
pub fn read_ahead_of_notes()
    ensures { examples.read_ahead_of_notes }
{}

/// States that a read stands among the changes of notes where its reply came, and what the replies alone tell of the load.
pub fn reads_stand_between_notes()
    ensures { examples.reads_stand_between_notes }
{}

/// States that notes that are taken at once are judged as one.
pub fn notes_taken_at_once()
    ensures { examples.notes_taken_at_once }
{}

/// States that a second subscribe request drops the early notes of the first.
pub fn early_notes_are_dropped()
    ensures { examples.early_notes_are_dropped }
{}

/// States that a name that is accepted again begins anew.
pub fn names_begin_anew()
    ensures { examples.names_begin_anew }
{}

/// States that a first note above the position drops the copy, or begins a running load anew.
pub fn first_notes_drop()
    ensures { examples.first_notes_drop }
{}

/// States that a note that comes before its subscription is accepted is taken with it, and that what the load has counted is not
/// counted again.
pub fn changes_are_not_counted_again()
    ensures { examples.changes_are_not_counted_again }
{}

/// States that the premises of the laws on honest servers, and on their names, hold of a replica that is given notes out of order.
pub fn premises_hold()
    ensures { examples.premises_hold }
{}

/// States what becomes of notes on the wire, and where their places are, if SEQs wrap after 256.
pub fn notes_on_the_wire()
    ensures { examples.notes_on_the_wire }
{}
