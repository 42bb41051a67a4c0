//! Small StateEvents that are evaluated from the definitions. Each clause is about some of them.

ghost use Rattle.cds_lastchange.specs.Examples as examples;

/// States what is written of a deletion, of a folder that is added with a track in it, and of the end of that update.
pub fn events_are_written()
    ensures { examples.events_are_written }
{}

/// States what is read of other forms: single quotes, a prefix, attributes that are passed over, and nothing at all.
pub fn forms_are_read()
    ensures { examples.forms_are_read }
{}

/// States that what is no event is refused at the start of its tag, and what is cut off at its end.
pub fn others_are_refused()
    ensures { examples.others_are_refused }
{}

/// States that a letter between tags is refused before a later fault, and a reference or a section before what follows it.
pub fn text_between_is_refused()
    ensures { examples.text_between_is_refused }
{}
