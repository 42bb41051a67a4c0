//! Small texts and elements, evaluated by the definitions.

ghost use Rattle.cds_soap.specs.Examples.{NamesAreSaid, NumbersAreRead, EnvelopesAreOpened, ArgumentsAreTaken, AnswersAreTaken, BodiesAreWritten};

/// Evaluates what SOAPACTION says.
pub fn names_are_said()
    ensures { NamesAreSaid }
{}

/// Reads numbers with white space around them, and numbers above the limit.
pub fn numbers_are_read()
    ensures { NumbersAreRead }
{}

/// Opens envelopes with and without a Header, and elements that are no envelopes.
pub fn envelopes_are_opened()
    ensures { EnvelopesAreOpened }
{}

/// Takes arguments in any order, missing, twice, and of another action.
pub fn arguments_are_taken()
    ensures { ArgumentsAreTaken }
{}

/// Takes results and faults.
pub fn answers_are_taken()
    ensures { AnswersAreTaken }
{}

/// Evaluates bodies as they are written.
pub fn bodies_are_written()
    ensures { BodiesAreWritten }
{}
