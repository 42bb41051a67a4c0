//! Laws of the definitions themselves. Calling a function gives its law.

ghost use Rattle.cds_object.specs.Laws as laws;

/// The text of a path is refused exactly at the start of its first name that cannot stand in a path.
pub fn bad_names_have_their_place()
    ensures { laws.bad_names_have_their_place }
{}

/// A cleaned text is clean and no shorter than it has to be. A text that is clean stays as it is.
pub fn texts_are_cleaned()
    ensures { laws.texts_are_cleaned }
{}
