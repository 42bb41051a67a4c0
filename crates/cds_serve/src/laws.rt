//! Laws of what a connection is answered and of how a listening server makes names. Each function's contract is one law, and
//! calling the function gives the law.

ghost use Rattle.cds_serve.specs.Laws as laws;

/// States a law: a request answered with a status and no turn would get the same reply from the server, whatever it stands for.
pub fn free_answers_are_replies()
    ensures { laws.free_answers_are_replies }
{}

/// States what a subscription's name is made of: the moment of the boot words, the port, and the number of the grant.
pub fn names_are_of_the_start()
    ensures { laws.names_are_of_the_start }
{}

/// States when two listening servers can have a name in common, if each grants fewer than 2^32 subscriptions. They must have one
/// port and one moment modulo 2^48.
pub fn names_tell_the_server()
    ensures { laws.names_tell_the_server }
{}
