//! Laws of messages that are read and written.

ghost use Rattle.cds_http.specs.Laws.{OneOutcome, BytesSay, RefusedByCause, EndKeeps, HeadEnds, HeadsRefused, EveryCutting, CuttingsAgree, WholeIsSpelled, SpelledIsWhole, MessagesEnd};
ghost use Rattle.cds_http.specs.Returned.{RequestsAreReadBack, RepliesAreReadBack};

/// Bytes that begin with a message have at most one outcome.
pub fn one_outcome()
    ensures { OneOutcome }
{}

/// Every input has an outcome.
pub fn bytes_say()
    ensures { BytesSay }
{}

/// Bytes are refused for one of five causes.
pub fn refused_by_cause()
    ensures { RefusedByCause }
{}

/// The end of the connection refuses nothing that is whole.
pub fn end_keeps()
    ensures { EndKeeps }
{}

/// A head is cut off at the first empty line after a line that is not empty.
pub fn head_ends()
    ensures { HeadEnds }
{}

/// A head is refused if no such line comes within its limit, or if the text up to it is no head.
pub fn heads_refused()
    ensures { HeadsRefused }
{}

/// The outcome does not depend on how bytes are cut. A new reader gets the pieces and the end. Its answer, and the
/// bytes that it hands back, are what all bytes together say.
pub fn every_cutting()
    ensures { EveryCutting }
{}

/// Two cuttings of the same bytes have the same answer and the same bytes after the message.
pub fn cuttings_agree()
    ensures { CuttingsAgree }
{}

/// A whole message is one of the grammar.
pub fn whole_is_spelled()
    ensures { WholeIsSpelled }
{}

/// A message of the grammar is whole.
pub fn spelled_is_whole()
    ensures { SpelledIsWhole }
{}

/// The end of the connection after a message of the grammar gives that message.
pub fn messages_end()
    ensures { MessagesEnd }
{}

/// A written request is read as it was written.
pub fn requests_are_read_back()
    ensures { RequestsAreReadBack }
{}

/// A written reply is read as it was written.
pub fn replies_are_read_back()
    ensures { RepliesAreReadBack }
{}
