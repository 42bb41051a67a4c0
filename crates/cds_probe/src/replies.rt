//! The rows `action-write`, `answer` and `answer-write`: requests for an action, and replies to control requests
//! (SOAP).

ghost use Rattle.std.specs.Prelude.{◌≡◌};
ghost use Rattle.std.specs.List.{list_all};
ghost use Rattle.cds_soap.specs.Written.{is_token_byte, is_reset_token};

use crate::requests::{action, action_written, sent};
use crate::row::Row;
use crate::show::Out;
use cds_base::{Bytes, Mem, Text};
use cds_soap::{Action, Answer, fits, read_answer, write_answer};
use std::alloc::Global;
use std::convert::From;

/// Shows what comes of an action:
///
/// - `action-write | address | action | what it asks with ..`: the request for it;
/// - `answer | action | head | body | rest`: what a reply answers to it;
/// - `answer-write | action | version | token | kind | what it says ..`: the reply with an answer.
pub fn of_action(alloc: Global, row: &Row, out: &mut Out) {
    let at = if row.text(0) == "action-write" { 2 } else { 1 };
    match action(alloc, row, at) {
        Ok(action) => acted(alloc, &action, row, out),
        Err(refusal) => out.refuse(&refusal),
    }
}

fn acted(alloc: Global, action: &Action, row: &Row, out: &mut Out) {
    match row.text(0) {
        "action-write" => action_written(alloc, action, row.text(1), out),
        "answer" => answered(alloc, action, row, out),
        _ => written_to(alloc, action, row, out),
    }
}

fn answered(alloc: Global, action: &Action, row: &Row, out: &mut Out) {
    let text = sent(alloc, row, 2);
    out.note(text.is_whole());
    match read_answer(alloc, action, text.as_str().as_bytes()) {
        Ok(answer) => answer_shown(&answer, out),
        Err(refusal) => out.refuse(&refusal),
    }
}

fn answer_shown(answer: &Answer, out: &mut Out) {
    match answer {
        Answer::Page {
            result,
            returned,
            total,
            update,
        } => {
            out.show(result.as_slice());
            out.say("|", returned);
            out.say("|", total);
            out.say("|", update);
        }
        Answer::Number(number) => out.say("number ", number),
        Answer::Text(text) => {
            out.put("text ");
            out.show(text.as_str().as_bytes());
        }
        Answer::Fault { code } => out.say("fault ", code),
    }
}

/// Returns the answer that the fields from a place on say: its kind and what it says.
fn answer(alloc: Global, row: &Row, at: usize) -> Result<Answer, Mem> {
    let says = at.saturating_add(1);
    match row.text(at) {
        "page" => page(alloc, row, says),
        "text" => Ok(Answer::Text(Text::read(alloc, row.text(says))?)),
        "number" => Ok(Answer::Number(row.small(says))),
        _ => Ok(Answer::Fault {
            code: u16::try_from(row.number(says)).unwrap_or(0),
        }),
    }
}

fn page(alloc: Global, row: &Row, at: usize) -> Result<Answer, Mem> {
    let result = Bytes::from(Vec::from_slice(alloc, row.bytes(at))?);
    Ok(Answer::Page {
        result,
        returned: row.small(at.saturating_add(1)),
        total: row.small(at.saturating_add(2)),
        update: row.small(at.saturating_add(3)),
    })
}

fn written_to(alloc: Global, action: &Action, row: &Row, out: &mut Out) {
    match answer(alloc, row, 4) {
        Ok(answer) => reply_shown(alloc, action, row, &answer, out),
        Err(refusal) => out.refuse(&refusal),
    }
}

fn reply_shown(alloc: Global, action: &Action, row: &Row, answer: &Answer, out: &mut Out) {
    let mut text = Vec::new(alloc);
    let is_done = reply_to(action, row, answer, &mut text).is_ok();
    out.note(is_done);
    out.show(text.as_slice());
}

/// Writes the reply to an action with an answer and a token. Writes nothing if the answer does not fit or the token is
/// none.
fn reply_to(action: &Action, row: &Row, answer: &Answer, out: &mut Vec<u8>) -> Result<(), Mem> {
    let version = u8::try_from(row.number(2)).unwrap_or(0);
    let token = row.text(3);
    if !fits(action.name(), answer) {
        return Ok(());
    }
    if token.is_empty() {
        return write_answer(action, version, answer, None, out);
    }
    if is_token(token) {
        return write_answer(action, version, answer, Some(token), out);
    }
    Ok(())
}

/// Returns whether a byte may stand in a token.
fn is_token_byte(byte: u8) -> bool
    ensures { result ≡ is_token_byte byte }
{
    33 <= byte && byte <= 126
}

/// Returns whether all of these bytes may stand in a token.
fn are_token_bytes(bytes: &[u8]) -> bool
    ensures { result ≡ list_all is_token_byte bytes.now }
{
    bytes.iter().all(|byte| is_token_byte(*byte))
}

/// Returns whether a text is a token.
fn is_token(text: &str) -> bool
    ensures { result ≡ is_reset_token text.now }
{
    are_token_bytes(text.as_bytes()) && 1 <= text.len() && text.len() <= 255
}
