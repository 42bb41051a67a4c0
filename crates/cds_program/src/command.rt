//! The words of the command line.

ghost use Rattle.std.specs.Prelude.{◌≡◌, ◌^◌, ◌∷◌, Some, None, codes, cond};
ghost use Rattle.cds_base.specs.Number.{plain_below};
ghost use Rattle.cds_program.specs.Command.{announcement_of, command_of, command_named, folder_in, generation_of, place_in, service_named, service_of, tracks_said};
ghost use Rattle.cds_program.specs.declared.command.Command.TheVariants.{Scan};
ghost use Rattle.uuid.specs.Text.{parsed};
ghost use Rattle.cds_object.specs.Content.{same_text};

use cds_announce::first_uuid;
use cds_base::{Text, read_plain};
use uuid::Uuid;

/// How many tracks a generated library has at most.
const MOST_TRACKS: u64 = 10_000;

/// What the program is asked to do.
#[derive(Clone, Copy)]
pub enum Command {
    /// Plays the script on standard input and writes its report.
    Replay,
    /// Plays the script on standard input and writes the counts of its report.
    Summary,
    /// Writes the script of a generated library.
    Generate {
        /// The seed of the library's changes.
        seed: u64,
        /// The number of its tracks, from 1 to 10,000.
        tracks: u32,
    },
    /// Reads the StateEvent on standard input and writes its one written form.
    Check,
    /// Scans the folder that the next word names, and writes its catalog and the files that were refused.
    Scan,
    /// Serves the folder that a later word names, at this port and for this many connections.
    Serve {
        /// The port.
        port: u16,
        /// The number of connections.
        requests: u32,
    },
    /// Announces a device whose description is at the location that a later word names.
    Announce {
        /// The port to which searches come.
        port: u16,
        /// The number of datagrams.
        count: u32,
        /// The bytes of the UUID of the device.
        uuid: [u8; 16],
    },
    /// Writes a page on the commands and the exit statuses.
    Help,
    /// Writes the version.
    Version,
}

/// Returns the command of the words after the program's name, or `None` if they are no command's.
pub fn read_command(words: &[Text]) -> Option<Command>
    ensures { result ≡ command_of words.now }
{
    match words.split_first() {
        None => None,
        Some((word, others)) => read_behind(word, others),
    }
}

/// Returns the command of a word with these after it.
fn read_behind(word: &Text, others: &[Text]) -> Option<Command>
    ensures { result ≡ command_of (word.now ∷ others.now) }
{
    match others.split_first() {
        None => named(word),
        Some((next, more)) => read_more(word, next, more),
    }
}

/// Returns the command of two words with these after them.
fn read_more(word: &Text, next: &Text, more: &[Text]) -> Option<Command>
    ensures { result ≡ command_of (word.now ∷ next.now ∷ more.now) }
{
    match more.split_first() {
        None => with_folder(word),
        Some((folder, rest)) => read_rest(word, next, folder, rest),
    }
}

/// Returns the command of three words with these after them.
fn read_rest(word: &Text, next: &Text, more: &Text, rest: &[Text]) -> Option<Command>
    ensures { result ≡ command_of (word.now ∷ next.now ∷ more.now ∷ rest.now) }
{
    match rest.split_first() {
        None => with_library(word, next, more),
        Some((requests, others)) => read_last(word, next, more, requests, others),
    }
}

/// Returns the command of four words with these after them.
fn read_last(
    word: &Text,
    port: &Text,
    place: &Text,
    many: &Text,
    others: &[Text],
) -> Option<Command>
    ensures { result ≡ command_of (word.now ∷ port.now ∷ place.now ∷ many.now ∷ others.now) }
{
    match others.split_first() {
        None => with_service(word, port, many),
        Some((uuid, [])) => with_uuid(word, port, many, uuid),
        Some((_, _)) => None,
    }
}

/// Returns the command of this name that takes a folder.
fn with_folder(word: &Text) -> Option<Command>
    ensures { result ≡ cond (same_text word.now (codes "scan")) (Some Scan) None }
{
    if is_text(word, "scan") {
        Some(Command::Scan)
    } else {
        None
    }
}

/// Returns the command of this name that takes a seed and a number of tracks.
fn with_library(word: &Text, seed: &Text, tracks: &Text) -> Option<Command>
    ensures { result ≡ cond (same_text word.now (codes "generate")) (generation_of (plain_below (2 ^ 64) seed.now) (tracks_said tracks.now)) None }
{
    if is_text(word, "generate") {
        generation(seed_of(seed), tracks_of(tracks))
    } else {
        None
    }
}

/// Returns the command to generate the script of this seed and this many tracks.
fn generation(seed: Option<u64>, tracks: Option<u32>) -> Option<Command>
    ensures { result ≡ generation_of seed tracks }
{
    match (seed, tracks) {
        (Some(seed), Some(tracks)) => Some(Command::Generate { seed, tracks }),
        (Some(_), None) => None,
        (None, _) => None,
    }
}

/// Returns the seed that a word is, in plain decimal.
fn seed_of(word: &Text) -> Option<u64>
    ensures { result ≡ plain_below (2 ^ 64) word.now }
{
    read_plain(word.as_str().as_bytes())
}

/// Returns the number of tracks that a word is, in plain decimal.
fn tracks_of(word: &Text) -> Option<u32>
    ensures { result ≡ tracks_said word.now }
{
    match read_plain(word.as_str().as_bytes()) {
        Some(value) if 1 <= value && value <= MOST_TRACKS => Some(value as u32),
        _ => None,
    }
}

/// Returns the command of this name that takes a port, a folder or a location, and a number.
fn with_service(word: &Text, port: &Text, many: &Text) -> Option<Command>
    ensures { result ≡ service_named word.now port.now many.now }
{
    if is_text(word, "serve") {
        service(port_of(port), count_of(many))
    } else if is_text(word, "announce") {
        announcement(
            port_of(port),
            count_of(many),
            Some(first_uuid().into_bytes()),
        )
    } else {
        None
    }
}

/// Returns the command of this name that takes a UUID besides.
fn with_uuid(word: &Text, port: &Text, many: &Text, uuid: &Text) -> Option<Command>
    ensures { result ≡ cond (same_text word.now (codes "announce")) (announcement_of (plain_below (2 ^ 16) port.now) (plain_below (2 ^ 32) many.now) (parsed uuid.now)) None }
{
    if is_text(word, "announce") {
        announcement(port_of(port), count_of(many), uuid_of(uuid))
    } else {
        None
    }
}

/// Returns the command to announce a device with the UUID of these bytes, by this many datagrams that come to a port.
fn announcement(port: Option<u16>, count: Option<u32>, uuid: Option<[u8; 16]>) -> Option<Command>
    ensures { result ≡ announcement_of port count uuid }
{
    match (port, count, uuid) {
        (Some(port), Some(count), Some(uuid)) => Some(Command::Announce { port, count, uuid }),
        (Some(_), Some(_), None) => None,
        (Some(_), None, _) => None,
        (None, _, _) => None,
    }
}

/// Returns the bytes of the UUID that a word is, in one of its text forms.
fn uuid_of(word: &Text) -> Option<[u8; 16]>
    ensures { result ≡ parsed word.now }
{
    match Uuid::parse_str(word.as_str()) {
        Ok(uuid) => Some(uuid.into_bytes()),
        Err(_) => None,
    }
}

/// Returns the command to serve at this port for this many connections.
fn service(port: Option<u16>, requests: Option<u32>) -> Option<Command>
    ensures { result ≡ service_of port requests }
{
    match (port, requests) {
        (Some(port), Some(requests)) => Some(Command::Serve { port, requests }),
        (Some(_), None) => None,
        (None, _) => None,
    }
}

/// Returns the port that a word is, in plain decimal.
fn port_of(word: &Text) -> Option<u16>
    ensures { result ≡ plain_below (2 ^ 16) word.now }
{
    match read_plain(word.as_str().as_bytes()) {
        Some(value) if value <= u64::from(u16::MAX) => Some(value as u16),
        _ => None,
    }
}

/// Returns the number of connections or datagrams that a word is, in plain decimal.
fn count_of(word: &Text) -> Option<u32>
    ensures { result ≡ plain_below (2 ^ 32) word.now }
{
    match read_plain(word.as_str().as_bytes()) {
        Some(value) if value <= u64::from(u32::MAX) => Some(value as u32),
        _ => None,
    }
}

/// Returns the folder that the words of `scan` name.
pub fn folder_in(words: &[Text]) -> &str
    ensures { result.now ≡ folder_in words.now }
{
    match words.get(1) {
        Some(folder) => folder.as_str(),
        None => "",
    }
}

/// Returns the folder that the words of `serve` name, or the location that those of `announce` name.
pub fn place_in(words: &[Text]) -> &str
    ensures { result.now ≡ place_in words.now }
{
    match words.get(2) {
        Some(folder) => folder.as_str(),
        None => "",
    }
}

/// Returns the command of this name.
fn named(word: &Text) -> Option<Command>
    ensures { result ≡ command_named word.now }
{
    if is_text(word, "replay") {
        Some(Command::Replay)
    } else if is_text(word, "summary") {
        Some(Command::Summary)
    } else if is_text(word, "check") {
        Some(Command::Check)
    } else if is_text(word, "--help") {
        Some(Command::Help)
    } else if is_text(word, "--version") {
        Some(Command::Version)
    } else {
        None
    }
}

/// Returns whether a word has these bytes.
fn is_text(word: &Text, text: &str) -> bool
    ensures { result ≡ same_text word.now text.now }
{
    word.as_str() == text
}
