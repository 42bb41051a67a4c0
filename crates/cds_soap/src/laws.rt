//! Laws of requests and answers as they are written and read. Calling a function gives its law.

ghost use Rattle.cds_soap.specs.Laws.{AnswersAreRead, BodiesAreShort, OneAsk, OneReply, RequestsAreRead};

/// A message has one answer, unless memory ran out.
pub fn one_ask()
    ensures { OneAsk }
{}

/// The bytes of a reply have one answer to an action, unless memory ran out.
pub fn one_reply()
    ensures { OneReply }
{}

/// What `write_action` writes is read as a request for this action in version 4. The texts must have allowed
/// characters, and the body at most `INPUT_LIMIT` bytes. The address must have the path `/control`, no query, and a
/// host and port in the form of HOST.
pub fn requests_are_read()
    ensures { RequestsAreRead }
{}

/// What `write_answer` writes is read as this answer, in each version of the service, with a token or none. The texts
/// must have allowed characters, and the body at most `INPUT_LIMIT` bytes.
pub fn answers_are_read()
    ensures { AnswersAreRead }
{}

/// The body of a request or an answer has at most 1,024 bytes around its texts, which are escaped.
pub fn bodies_are_short()
    ensures { BodiesAreShort }
{}
