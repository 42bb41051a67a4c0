//! An ask as a control request to a script's server, and the bytes of its reply (UPnP Device Architecture 2.0 on control).

ghost use Rattle.std.specs.Prelude.{◌≡◌, ℕ, false, List, [], IfOk};
ghost use Rattle.cds_commands.specs.Commands.{Command};
ghost use Rattle.cds_http.specs.declared.error.HttpError.TheVariants.{Mem as OutOfMemory};
ghost use Rattle.cds_http.specs.declared.message.Message.{Message as MessageValue};
ghost use Rattle.cds_http.specs.declared.message.Side.TheVariants.{Request};
ghost use Rattle.cds_http.specs.Decided.{Decides};
ghost use Rattle.cds_http.specs.Known.{Whole};
ghost use Rattle.cds_soap.specs.Written.{written_action};
ghost use Rattle.cds_exchange.specs.Asking.{action_of};
ghost use Rattle.cds_exchange.specs.Honest.{IsInRange, IsPlainMoment};
ghost use Rattle.cds_follow.specs.Given.{moment_after};
ghost use Rattle.cds_server.specs.Serving.{StandsFor};
ghost use Rattle.cds_script.specs.Report.{script_token};
ghost use Rattle.cds_replay.specs.Events.{IsMessage, control_url};
ghost use Rattle.cds_replay.specs.Session.{script_start};
ghost use Rattle.cds_replay.specs.Wire.{server_reply};

use crate::wire::Wire;
use cds_base::Mem;
use cds_http::{Fed, HttpError, Message, MessageReader, Side};
use cds_replica::{Ask, Replica};
use cds_server::Server;
use std::alloc::Global;
use url::Url;

/// The URL at which a script's server takes control requests.
const CONTROL: &str = "http://127.0.0.1:49152/control";

/// Asks a server at a moment in milliseconds, and returns the bytes of the reply as a wire leaves them. The ask goes to the
/// server as a control request.
pub fn carried_reply<W: Wire>(
    alloc: Global,
    server: &mut Server,
    wire: &W,
    now: u64,
    ask: Ask,
) -> Result<Vec<u8>, Mem>
    ensures replies { (wrap first : ℕ) (commands : List Command) → StandsFor server.old (script_start wrap first) commands →
        IsPlainMoment (moment_after script_token first commands) →
        IfOk result (λ reply. reply.items ≡ W.carried wire.now (server_reply (moment_after script_token first commands) ask)) }
    ensures same { server.new ≡ server.old }
{
    let request = request_of(alloc, ask)?;
    let mut reply = reply_to(alloc, server, now, ask, request.as_slice())?;
    carry_over(wire, &mut reply);
    Ok(reply)
}

/// Returns the bytes of an ask's control request.
fn request_of(alloc: Global, ask: Ask) -> Result<Vec<u8>, Mem>
    ensures { IfOk result (λ request. request.items ≡ written_action (action_of ask) control_url) }
{
    let url = control_url(alloc)?;
    let mut request = Vec::new(alloc);
    Replica::ask_bytes(&ask, &url, &mut request)?;
    Ok(request)
}

/// Returns the reply of a server to the bytes of an ask's control request.
fn reply_to(
    alloc: Global,
    server: &mut Server,
    now: u64,
    ask: Ask,
    request: &[u8],
) -> Result<Vec<u8>, Mem>
    requires { request.now ≡ written_action (action_of ask) control_url }
    ensures replies { (wrap first : ℕ) (commands : List Command) → StandsFor server.old (script_start wrap first) commands →
        IsPlainMoment (moment_after script_token first commands) →
        IfOk result (λ reply. reply.items ≡ server_reply (moment_after script_token first commands) ask) }
    ensures same { server.new ≡ server.old }
{
    cds_exchange::laws::asks_are_read();
    cds_server::laws::what_is_asked_is_answered();
    asks_fit(ask);
    let message = message_of(alloc, Side::Request, request)?;
    let mut reply = Vec::new(alloc);
    let _note = server.handle(alloc, now, &message, &mut reply)?;
    Ok(reply)
}

/// Carries the bytes of a reply over a wire.
fn carry_over<W: Wire>(wire: &W, reply: &mut Vec<u8>)
    ensures { reply.new.items ≡ W.carried wire.now reply.old.items }
{
    wire.carry(reply.as_mut_slice());
}

/// Shows that the ids and places of an ask are of 32 bits. Only proofs need it.
fn asks_fit(ask: Ask)
    ensures { IsInRange ask }
{
    match ask {
        Ask::Token => {}
        Ask::Number => {}
        Ask::Metadata { id } => {
            let _ = id;
        }
        Ask::Children { id, start } => {
            let _ = id;
            let _ = start;
        }
    }
}

/// Returns the URL that is asked. Its text is a URL, so only memory can run out.
fn control_url(alloc: Global) -> Result<Url, Mem>
    ensures { IfOk result (λ url. url ≡ control_url) }
{
    match Url::parse(alloc, CONTROL) {
        Ok(url) => Ok(url),
        Err(_) => Err(Mem),
    }
}

/// Returns the message that bytes are. Condition: they are one whole message, with nothing after it.
pub fn message_of(alloc: Global, side: Side, bytes: &[u8]) -> Result<Message, Mem>
    requires { IsMessage side bytes.now }
    ensures { (message : MessageValue) → Decides false side bytes.now (Whole message []) → IfOk result (λ m. m ≡ message) }
{
    let mut reader = MessageReader::new(alloc, side)?;
    match reader.feed(alloc, bytes) {
        Ok(Fed::Whole { .. }) => {}
        Ok(Fed::More) => unreachable!(),
        Err(refusal) => return Err(of_memory(refusal)),
    }
    match reader.finish() {
        Ok(message) => Ok(message),
        Err(_) => unreachable!(),
    }
}

/// Returns the refusal as `Mem`. Condition: it is that memory ran out.
fn of_memory(refusal: HttpError) -> Mem
    requires { refusal ≡ OutOfMemory }
{
    match refusal {
        HttpError::Mem => Mem,
        HttpError::BadHead => unreachable!(),
        HttpError::HeadTooLong => unreachable!(),
        HttpError::BadLength => unreachable!(),
        HttpError::BadChunk => unreachable!(),
        HttpError::TooLong => unreachable!(),
        HttpError::Truncated => unreachable!(),
        HttpError::Failed => unreachable!(),
    }
}
