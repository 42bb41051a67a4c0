//! Small examples, evaluated by the definitions.

ghost use Rattle.cds_media.specs.Examples.{HeadsSayTheirPart, OthersPlanTheWhole, RangesAreCut, RangesAreRead, WrongFormsArePassedOver};

/// Reads a RANGE of each form by the definition.
pub fn ranges_are_read()
    ensures { RangesAreRead }
{}

/// Reads a RANGE of each wrong form by the definition.
pub fn wrong_forms_are_passed_over()
    ensures { WrongFormsArePassedOver }
{}

/// Plans ranges of small files by the definition.
pub fn ranges_are_cut()
    ensures { RangesAreCut }
{}

/// Plans messages without a range that counts by the definition.
pub fn others_plan_the_whole()
    ensures { OthersPlanTheWhole }
{}

/// Evaluates the given fields of replies by the definition.
pub fn heads_say_their_part()
    ensures { HeadsSayTheirPart }
{}
