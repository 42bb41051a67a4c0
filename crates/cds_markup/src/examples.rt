//! Small documents that are evaluated from the definitions. Each clause is about some of them.

ghost use Rattle.cds_markup.specs.Examples.{WrittenRows};

/// States the written forms of some elements.
pub fn written_rows()
    ensures { WrittenRows }
{}
