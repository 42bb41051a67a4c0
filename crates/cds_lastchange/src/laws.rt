//! What is proved of the definitions themselves. Calling a function gives its law.

ghost use Rattle.cds_lastchange.specs.Feeding.{EveryCutting};
ghost use Rattle.cds_lastchange.specs.Laws.{WrittenIsRead, OneList, OneAnswer, AllAreAnswered, StateEventsAreDocuments};

/// What is written of events is read as these events, if it has at most 67,108,864 bytes.
pub fn written_is_read()
    ensures { WrittenIsRead }
{}

/// Bytes are at most one list of events.
pub fn one_list()
    ensures { OneList }
{}

/// Bytes are events, or they are refused in one way, and not both.
pub fn one_answer()
    ensures { OneAnswer }
{}

/// There is an answer to all bytes.
pub fn all_are_answered()
    ensures { AllAreAnswered }
{}

/// Bytes that are events are white space or a document.
pub fn state_events_are_documents()
    ensures { StateEventsAreDocuments }
{}

/// However bytes are cut, what a new reader answers to the pieces and the end decides them.
pub fn every_cutting()
    ensures { EveryCutting }
{}
