//! Laws of notes as they are written and read. Calling a function gives its law.

ghost use Rattle.cds_notify.specs.Laws.{BodiesAreReadBack, BodiesAreShort, ContainersAreFew, NotesAreReadBack, OneAnswer, ReleasedBodiesAreShort};

/// What `write_propertyset` writes says the number and the events that were written, if it is no longer than a document
/// may be.
pub fn bodies_are_read_back()
    ensures { BodiesAreReadBack }
{}

/// What `write_notify` writes around what `write_propertyset` writes is read as the note that was written: with its
/// name, its SEQ, its number and its events. The head and the body must be within their limits.
pub fn notes_are_read_back()
    ensures { NotesAreReadBack }
{}

/// A body of at most 262,144 events and at most 524,288 containers has fewer than 66,000,000 bytes.
pub fn bodies_are_short()
    ensures { BodiesAreShort }
{}

/// A release has at most two containers for each of its changes.
pub fn containers_are_few()
    ensures { ContainersAreFew }
{}

/// The body of a release of at most 262,144 changes, with at most 262,144 events, has fewer than 66,000,000 bytes, too.
pub fn released_bodies_are_short()
    ensures { ReleasedBodiesAreShort }
{}

/// A message has one answer, unless memory ran out.
pub fn one_answer()
    ensures { OneAnswer }
{}
