//! What a line of a script means.

ghost use Rattle.std.specs.Prelude.{◌≡◌, ◌+◌, ◌^◌, ◌<◌, ◌≤◌, ◌&&◌, nat_eq, nat_le, nat_lt, not, [], slice_index_or, true, false, None, Some, map, length, codes, IfOk, IfSome, Option, ◌*◌};
ghost use Rattle.cds_base.specs.Number.{plain_below};
ghost use Rattle.cds_object.specs.Content.{same_text};
ghost use Rattle.cds_object.specs.ContentOf.{bare_info};
ghost use Rattle.cds_script.specs.Lines.{words_of};
ghost use Rattle.cds_script.specs.Script.{number_from_to, info_from, path_said, folder_turn, track_turn, tag_turn, moment_limit, first_turn, at_turn, wrap_turn, deliver_turn, plain_turn, number_turn, plain_line, folder_line, track_line, tag_line, turn_of, meaning_of_turn, meaning_of_words, meaning_of};

use crate::word::{Word, words_in};
use crate::{Meaning, ScriptTurn};
use cds_base::{Mem, Sequence, Text, read_plain};
use cds_object::{Comment, FlacInfo, Path, PathError};
use std::alloc::Global;

/// Returns what a line of a script means, given without its LF.
pub fn read_line(alloc: Global, line: &[u8]) -> Result<Meaning, Mem>
    ensures { IfOk result (λ meaning. meaning ≡ meaning_of line.now) }
{
    match line {
        [] => Ok(Meaning::Nothing),
        [first, ..] => {
            if *first == b'#' {
                Ok(Meaning::Nothing)
            } else {
                read_words(alloc, line)
            }
        }
    }
}

/// Returns what a line means that is neither empty nor a comment.
fn read_words(alloc: Global, line: &[u8]) -> Result<Meaning, Mem>
    ensures { IfOk result (λ meaning. meaning ≡ meaning_of_words (words_of line.now)) }
{
    let parts = split_words(alloc, line)?;
    match words_in(alloc, parts.as_slice())? {
        None => Ok(Meaning::Outside),
        Some(words) => means(alloc, words.as_slice()),
    }
}

/// Returns what words mean.
fn means(alloc: Global, words: &[Word]) -> Result<Meaning, Mem>
    ensures { IfOk result (λ meaning. meaning ≡ meaning_of_turn (turn_of words.now)) }
{
    match turn(alloc, words)? {
        None => Ok(Meaning::Outside),
        Some(turn) => Ok(Meaning::Means(turn)),
    }
}

/// Returns the parts of a line between its spaces.
fn split_words(alloc: Global, line: &[u8]) -> Result<Vec<&[u8]>, Mem>
    ensures { IfOk result (λ words. map (λ w. w.now) words.items ≡ words_of line.now) }
{
    let words: Vec<&[u8]> = line.split(|byte| *byte == b' ').collect(alloc)?;
    Ok(words)
}

/// Returns whether a word has these bytes.
fn is_text(word: &[u8], text: &str) -> bool
    ensures { result ≡ same_text word.now text.now }
{
    word == text.as_bytes()
}

/// Returns the turn of a line of words.
fn turn(alloc: Global, words: &[Word]) -> Result<Option<ScriptTurn>, Mem>
    ensures { IfOk result (λ turn. turn ≡ turn_of words.now) }
{
    match words {
        [] => Ok(None),
        [word, others @ ..] => {
            let word = word.as_slice();
            if is_text(word, "folder") {
                folder(alloc, others)
            } else if is_text(word, "track") {
                track(alloc, others)
            } else if is_text(word, "tag") {
                tag(alloc, others)
            } else {
                Ok(short(word, others))
            }
        }
    }
}

/// Returns the turn of a line that is one word alone, or a word and a number.
fn short(word: &[u8], others: &[Word]) -> Option<ScriptTurn>
    ensures { result ≡ plain_line word.now others.now }
{
    match others {
        [] => plain(word),
        [number] => numbered(word, number.as_slice()),
        _ => None,
    }
}

/// Returns the turn of a line of one word.
fn plain(word: &[u8]) -> Option<ScriptTurn>
    ensures { result ≡ plain_turn word.now }
{
    if is_text(word, "scan") {
        Some(ScriptTurn::Scan)
    } else if is_text(word, "load") {
        Some(ScriptTurn::Load)
    } else if is_text(word, "read") {
        Some(ScriptTurn::Read)
    } else if is_text(word, "ask") {
        Some(ScriptTurn::Ask)
    } else if is_text(word, "subscribe") {
        Some(ScriptTurn::Subscribe)
    } else if is_text(word, "accept") {
        Some(ScriptTurn::Accept)
    } else if is_text(word, "renew") {
        Some(ScriptTurn::Renew)
    } else if is_text(word, "unsubscribe") {
        Some(ScriptTurn::Unsubscribe)
    } else if is_text(word, "readfault") {
        Some(ScriptTurn::ReadFault)
    } else {
        None
    }
}

/// Returns the turn of a line of a word and a number.
fn numbered(word: &[u8], number: &[u8]) -> Option<ScriptTurn>
    ensures { result ≡ number_turn word.now number.now }
{
    if is_text(word, "first") {
        first(number)
    } else if is_text(word, "at") {
        at(number)
    } else if is_text(word, "deliver") {
        deliver(number)
    } else if is_text(word, "wrap") {
        wrap(number)
    } else {
        None
    }
}

/// Returns the turn of a line that names the server's first number.
fn first(number: &[u8]) -> Option<ScriptTurn>
    ensures { result ≡ first_turn (plain_below (2 ^ 32) number.now) }
{
    match number_below(number, 1 << 32) {
        Some(number) => Some(ScriptTurn::First {
            number: number as u32,
        }),
        None => None,
    }
}

/// Returns the turn of a line that names the SEQ after which comes SEQ 1.
fn wrap(number: &[u8]) -> Option<ScriptTurn>
    ensures { result ≡ wrap_turn (plain_below (2 ^ 32) number.now) }
{
    match number_below(number, 1 << 32) {
        Some(number) => Some(ScriptTurn::Wrap {
            number: number as u32,
        }),
        None => None,
    }
}

/// Returns the turn of a line that names a moment.
fn at(moment: &[u8]) -> Option<ScriptTurn>
    ensures { result ≡ at_turn (plain_below moment_limit moment.now) }
{
    match read_plain(moment) {
        Some(moment) => Some(ScriptTurn::At { moment }),
        None => None,
    }
}

/// Returns the turn of a line that names a note.
fn deliver(note: &[u8]) -> Option<ScriptTurn>
    ensures { result ≡ deliver_turn (plain_below (2 ^ 32) note.now) }
{
    match number_below(note, 1 << 32) {
        Some(note) => Some(ScriptTurn::Deliver { note: note as u32 }),
        None => None,
    }
}

/// Returns the place that a word names, if it names one.
fn path_of(alloc: Global, word: &[u8]) -> Result<Option<Path>, Mem>
    ensures { IfOk result (λ path. path ≡ path_said word.now) }
{
    let Ok(text) = str::from_utf8(word) else {
        return Ok(None);
    };
    match Path::read(alloc, text) {
        Ok(path) => Ok(Some(path)),
        Err(PathError::BadPath { .. }) => Ok(None),
        Err(PathError::Mem) => Err(Mem),
    }
}

/// Returns the turn of a line that begins with `folder`, by its other words.
fn folder(alloc: Global, words: &[Word]) -> Result<Option<ScriptTurn>, Mem>
    ensures { IfOk result (λ turn. turn ≡ folder_line words.now) }
{
    match words {
        [path] => folder_at(alloc, path.as_slice()),
        _ => Ok(None),
    }
}

/// Returns the turn of a folder at the place that a word names.
fn folder_at(alloc: Global, path: &[u8]) -> Result<Option<ScriptTurn>, Mem>
    ensures { IfOk result (λ turn. turn ≡ folder_turn (path_said path.now)) }
{
    match path_of(alloc, path)? {
        None => Ok(None),
        Some(path) => Ok(Some(ScriptTurn::Folder { path })),
    }
}

/// Reads a number in plain decimal below a limit.
fn number_below(word: &[u8], limit: u64) -> Option<u64>
    ensures exact { result ≡ plain_below limit word.now }
    ensures below { IfSome result (λ n. n < limit) }
{
    match read_plain(word) {
        Some(n) => { if n < limit { Some(n) } else { None } }
        None => None,
    }
}

/// Reads a number in plain decimal from 1 up to another.
fn number_up_to(word: &[u8], high: u8) -> Option<u8>
    ensures { result ≡ number_from_to 1 high word.now }
{
    match number_below(word, u64::from(high) + 1) {
        Some(n) => { if n < 1 { None } else { Some(n as u8) } }
        None => None,
    }
}

/// Returns what a file without comments says, by the words of its samples in a second, channels, bits in a sample and samples.
fn info_of(
    alloc: Global,
    rate: &[u8],
    channels: &[u8],
    bits: &[u8],
    samples: &[u8],
) -> Option<FlacInfo>
    ensures exact { result ≡ info_from (plain_below (2 ^ 20) rate.now) (number_from_to 1 8 channels.now)
        (number_from_to 1 32 bits.now) (plain_below (2 ^ 36) samples.now) }
    ensures few { IfSome result (λ info. info.samples < 2 ^ 36) }
{
    let rate = number_below(rate, 1 << 20)?;
    let channels = number_up_to(channels, 8)?;
    let bits = number_up_to(bits, 32)?;
    let samples = number_below(samples, 1 << 36)?;
    Some(FlacInfo {
        rate: rate as u32,
        channels,
        bits,
        samples,
        comments: Sequence::new(alloc),
    })
}

/// Returns the turn of a line that begins with `track`, by its other words.
fn track(alloc: Global, words: &[Word]) -> Result<Option<ScriptTurn>, Mem>
    ensures { IfOk result (λ turn. turn ≡ track_line words.now) }
{
    match words {
        [path, size, rate, channels, bits, samples] => {
            let info = info_of(
                alloc,
                rate.as_slice(),
                channels.as_slice(),
                bits.as_slice(),
                samples.as_slice(),
            );
            track_at(alloc, path.as_slice(), read_plain(size.as_slice()), info)
        }
        _ => Ok(None),
    }
}

/// Returns the turn of a track at the place that a word names, if its size and what it says are there.
fn track_at(
    alloc: Global,
    path: &[u8],
    size: Option<u64>,
    info: Option<FlacInfo>,
) -> Result<Option<ScriptTurn>, Mem>
    ensures { IfOk result (λ turn. turn ≡ track_turn (path_said path.now) size info) }
{
    match (path_of(alloc, path)?, size, info) {
        (Some(path), Some(size), Some(info)) => Ok(Some(ScriptTurn::Track { path, info, size })),
        _ => Ok(None),
    }
}

/// Returns the turn of a line that begins with `tag`, by its other words.
fn tag(alloc: Global, words: &[Word]) -> Result<Option<ScriptTurn>, Mem>
    ensures { IfOk result (λ turn. turn ≡ tag_line words.now) }
{
    match words {
        [name, value] => tag_of(alloc, name.as_slice(), value.as_slice()),
        _ => Ok(None),
    }
}

/// Returns the turn of a comment, if its name and its value are texts.
fn tag_of(alloc: Global, name: &[u8], value: &[u8]) -> Result<Option<ScriptTurn>, Mem>
    ensures { IfOk result (λ turn. turn ≡ tag_turn name.now value.now) }
{
    let Ok(name) = str::from_utf8(name) else {
        return Ok(None);
    };
    let Ok(value) = str::from_utf8(value) else {
        return Ok(None);
    };
    let name = Text::read(alloc, name)?;
    let value = Text::read(alloc, value)?;
    Ok(Some(ScriptTurn::Tag {
        comment: Comment { name, value },
    }))
}
