//! What turns write: the lines of a report (this project's profile).

ghost use Rattle.std.specs.Prelude.{◌≡◌, ◌+◌, ◌++◌, ◌∷◌, [], OnOk, drop, string_bytes, codes};
ghost use Rattle.std.specs.Fmt.{decimal};
ghost use Rattle.cds_object.specs.Fragment.{fragment, full_text};
ghost use Rattle.cds_replay.specs.Lines.{scan_line, read_line, stands_text, known_text, known_rows, numbered_line, note_line, delivered_line, taken_text, sent_lines, was_answered, was_noticed, can_be_told};

use crate::sent::{Sent, SentHead};
use cds_base::{Mem, put, put_number};
use cds_didl::put_fragment;
use cds_object::Row;
use cds_replica::{CopyRow, NotifyError, Read, Says, Taken};
use cds_store::{ApplyError, Span};

/// Puts a line of a word and a number.
fn put_numbered_line(out: &mut String, word: &str, number: u64) -> Result<(), Mem>
    ensures { OnOk result (string_bytes out.new ≡ string_bytes out.old ++ numbered_line word.now number) }
{
    put(out, word)?;
    put_number(out, number)?;
    put(out, "\n")
}

/// Returns whether a scan was answered: memory did not run out.
pub fn was_answered(answer: &Result<Span, ApplyError>) -> bool
    ensures { result ≡ was_answered answer.now }
{
    !matches!(answer, Err(ApplyError::Mem))
}

/// Puts the answer to a scan. If memory ran out there is no answer, and nothing is written.
pub fn put_scan(out: &mut String, answer: Result<Span, ApplyError>) -> Result<(), Mem>
    ensures { OnOk result (string_bytes out.new ≡ string_bytes out.old ++ scan_line answer) }
{
    match answer {
        Ok(span) => put_numbered_line(out, "scan ", u64::from(span.to)),
        Err(ApplyError::BadRecords { line }) => put_numbered_line(
            out,
            "scan bad ",
            u64::from(line),
        ),
        Err(ApplyError::Full { objects }) => put_numbered_line(
            out,
            "scan full ",
            u64::from(objects),
        ),
        Err(ApplyError::Spent { needed }) => put_numbered_line(
            out,
            "scan spent ",
            u64::from(needed),
        ),
        Err(ApplyError::Mem) => Ok(()),
    }
}

/// Puts what became of a reply that was taken.
pub fn put_read(out: &mut String, read: Read) -> Result<(), Mem>
    ensures { OnOk result (string_bytes out.new ≡ string_bytes out.old ++ read_line read) }
{
    match read {
        Read::Ok => put(out, "read ok\n"),
        Read::Fault { code } => put_numbered_line(out, "read ", u64::from(code)),
    }
}

/// Puts what a replica knows, and the rows of its copy if it stands, each ended by LF.
pub fn put_known(out: &mut String, known: Says, rows: &[CopyRow]) -> Result<(), Mem>
    ensures { OnOk result (string_bytes out.new ≡ string_bytes out.old ++ known_text known (known_rows rows.now)) }
{
    match known {
        Says::Gap { missing } => put_numbered_line(out, "gap ", u64::from(missing)),
        Says::BehindLoad => put(out, "behind load\n"),
        Says::BehindRead { id } => put_numbered_line(out, "behind read ", u64::from(id)),
        Says::BehindVersion { version } => {
            put_numbered_line(out, "behind version ", u64::from(version))
        }
        Says::Stands { at } => put_copy(out, at, rows),
    }
}

/// Puts the number of a copy and its rows, each ended by LF.
fn put_copy(out: &mut String, number: u32, rows: &[CopyRow]) -> Result<(), Mem>
    ensures { OnOk result (string_bytes out.new ≡ string_bytes out.old ++ stands_text number (known_rows rows.now)) }
{
    put_numbered_line(out, "stands ", u64::from(number))?;
    put_rows(out, rows)
}

/// Puts the known rows in their order, each ended by LF. A row is known if it is known what it says.
fn put_rows(out: &mut String, rows: &[CopyRow]) -> Result<(), Mem>
    ensures { OnOk result (string_bytes out.new ≡ string_bytes out.old ++ full_text (known_rows rows.now)) }
{
    for kept in rows {
        put_known_row(out, kept)?;
    }
    Ok(())
}

/// Puts a row, ended by LF, if it is known what it says.
fn put_known_row(out: &mut String, kept: &CopyRow) -> Result<(), Mem>
    ensures { OnOk result (string_bytes out.new ≡ string_bytes out.old ++ full_text (known_rows (kept.now ∷ []))) }
{
    match kept.row() {
        None => Ok(()),
        Some(row) => put_row(out, row),
    }
}

/// Puts a row, ended by LF.
fn put_row(out: &mut String, row: &Row) -> Result<(), Mem>
    ensures { OnOk result (string_bytes out.new ≡ string_bytes out.old ++ (fragment row.now ++ 10 ∷ [])) }
{
    put_fragment(out, row)?;
    put(out, "\n")
}

/// Puts a line for each note that was sent, from a place on that is counted from 0.
pub fn put_notes(out: &mut String, sent: &Sent, from: usize) -> Result<(), Mem>
    ensures { OnOk result (string_bytes out.new ≡ string_bytes out.old ++ sent_lines (from + 1) (drop from sent.now)) }
{
    for at in from..sent.len() {
        if let Some(head) = sent.head(at) {
            put_note(out, at as u64 + 1, head)?;
        }
    }
    Ok(())
}

/// Puts the number of a note, its SEQ and its SystemUpdateID.
fn put_note(out: &mut String, number: u64, head: SentHead) -> Result<(), Mem>
    ensures { OnOk result (string_bytes out.new ≡ string_bytes out.old ++ note_line number head) }
{
    put(out, "note ")?;
    put_number(out, number)?;
    put(out, " seq ")?;
    put_number(out, u64::from(head.seq))?;
    put_numbered_line(out, " at ", u64::from(head.number))
}

/// Puts what became of the note of a number. Its word is empty if memory ran out, or if the replica refused the changes of the
/// note.
pub fn put_delivered(
    out: &mut String,
    number: u64,
    answer: Result<Taken, NotifyError>,
) -> Result<(), Mem>
    ensures { OnOk result (string_bytes out.new ≡ string_bytes out.old ++ delivered_line number answer) }
{
    put(out, "deliver ")?;
    put_number(out, number)?;
    put(out, " ")?;
    put_taken(out, answer)?;
    put(out, "\n")
}

/// Puts the word of what became of a note.
fn put_taken(out: &mut String, answer: Result<Taken, NotifyError>) -> Result<(), Mem>
    ensures { OnOk result (string_bytes out.new ≡ string_bytes out.old ++ taken_text answer) }
{
    match answer {
        Ok(Taken::Took) => put(out, "took"),
        Ok(Taken::Repeat) => put(out, "repeat"),
        Ok(Taken::Early) => put(out, "early"),
        Ok(Taken::Held { missing }) => put_numbered(out, "held ", u64::from(missing)),
        Err(NotifyError::Unknown) => put(out, "unknown"),
        Err(NotifyError::Full { held }) => put_numbered(out, "full ", u64::from(held)),
        Err(_) => Ok(()),
    }
}

/// Puts a word and a number.
fn put_numbered(out: &mut String, word: &str, number: u64) -> Result<(), Mem>
    ensures { OnOk result (string_bytes out.new ≡ string_bytes out.old ++ (word.now ++ decimal number)) }
{
    put(out, word)?;
    put_number(out, number)
}

/// Returns whether a note was answered: memory did not run out.
pub fn was_noticed(answer: &Result<Taken, NotifyError>) -> bool
    ensures { result ≡ was_noticed answer.now }
{
    !matches!(answer, Err(NotifyError::Mem))
}

/// Returns whether what a note told could be: the replica did not refuse it for its changes.
pub fn can_be_told(answer: &Result<Taken, NotifyError>) -> bool
    ensures { result ≡ can_be_told answer.now }
{
    !matches!(
        answer,
        Err(NotifyError::Jump { .. }) | Err(NotifyError::Torn { .. })
    )
}

/// Puts the status of a reply.
pub fn put_status(out: &mut String, word: &str, status: u16) -> Result<(), Mem>
    ensures { OnOk result (string_bytes out.new ≡ string_bytes out.old ++ numbered_line word.now status) }
{
    put_numbered_line(out, word, u64::from(status))
}
