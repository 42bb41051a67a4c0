//! The program from its words to its exit status.

ghost use Rattle.std.specs.Prelude.{◌≡◌, ◌≢◌, ◌⊎◌, ◌≤◌, ◌<◌, ◌+◌, ◌++◌, ℕ, [], Some, None, List, OnErr, OnOk};
ghost use Rattle.cds_base.specs.declared.limits.TheConstants.{INPUT_LIMIT};
ghost use Rattle.cds_outside.specs.Outside.{HoldsPart, raised, Rose, Told};
ghost use Rattle.cds_script.specs.Lines.{line_limit};
ghost use Rattle.cds_script.specs.Complete.{AnswersAreComplete};
ghost use Rattle.cds_script.specs.LoadBounds.{BoundsLoads};
ghost use Rattle.cds_script.specs.Played.{script_turns, script_stop, report_of, IsReportOf};
ghost use Rattle.cds_script.specs.Report.{script_ending};
ghost use Rattle.cds_script.specs.ScriptGiven.{StandsAtScanEnds};
ghost use Rattle.cds_summary.specs.Summary.{summary_ending};
ghost use Rattle.cds_generate.specs.Generated.{generated};
ghost use Rattle.cds_serve.specs.Life.{EndsLife, FoldersBack};
ghost use Rattle.cds_subcommands.specs.Check.{EndsCheck, WritesCheck};
ghost use Rattle.cds_subcommands.specs.Run.{Ends, Writes, EndsText, WritesText};
ghost use Rattle.cds_subcommands.specs.Scan.{AsksFor, EndsScan, GivesBack, WritesScan};
ghost use Rattle.cds_ssdp.specs.Replies.{device_at};
ghost use Rattle.cds_program.specs.Announcing.{EndsAnnounce, WritesAnnounce};
ghost use Rattle.cds_program.specs.Command.{command_of, folder_in, place_in, Announces, Generates, PlaysScript, Serves, TakesInput, help_text, version_text, usage_text};
ghost use Rattle.cds_program.specs.declared.command.Command.TheVariants.{Replay, Summary, Generate, Check, Scan, Serve, Announce, Help, Version};

use crate::announcing::{Announcement, announce_device};
use crate::command::{Command, folder_in, place_in, read_command};
use crate::serving::{Service, serve_folder};
use cds_base::Words;
use cds_outside::{Door, Folder, Outside, Runtime, Sink, Source};
use cds_replay::{ReplayError, replay, summary};
use cds_subcommands::{check, scan_folder, write_script, write_text};
use std::alloc::Global;
use std::marker::Send;

/// What is written if the words are no command's.
pub const USAGE: &str = "usage: cds COMMAND\n";

/// What `--version` writes.
pub const VERSION: &str = "cds 0.1.0\n";

/// What `--help` writes.
pub const HELP: &str = "usage: cds COMMAND

Commands:
  replay       play the script on standard input and write its report
  summary      play the script on standard input and write how many lines its report has
  generate SEED TRACKS
               write a script of 40 scans of a library with TRACKS tracks, from 1 to
               10000, which the number SEED, below 2^64, determines
  check        read a StateEvent on standard input and write its one written form
  scan FOLDER  scan a folder of FLAC files and write its catalog and the refused files
  serve PORT FOLDER REQUESTS
               serve a folder of FLAC files over HTTP until REQUESTS connections came;
               with 4294967295 it goes on until it is interrupted
  announce PORT LOCATION COUNT [UUID]
               answer searches for a server among COUNT datagrams that come to PORT;
               LOCATION is the http address of its description, which has the UUID
  --help       write this page
  --version    write the version

Exit status:
  0  the input was read to its end and the whole output was written
  1  a line of the script is outside the grammar
  2  standard input, or the folder, could not be read
  3  standard output could not be written
  4  memory ran out
  5  the words are no command, or LOCATION is no such address
  6  the input, or a line of a script, is too long, or the folder has too much
  7  the port, a connection, a datagram or a thread could not be had
  8  the input of check is no StateEvent
";

/// Plays the script on the source.
fn play<S: Source, K: Sink>(alloc: Global, source: &mut S, sink: &mut K) -> u8
    ensures ends { Told (S.told source.old).left (λ bytes. Ends result (script_ending bytes).status) }
    ensures writes { Told (S.told source.old).left (λ bytes. Told (K.told sink.old).holds
        (λ before. Writes result (script_ending bytes).text before (K.told sink.new).holds)) }
    ensures whole { Told (S.told source.old).left (λ bytes. result ≡ 0 → (S.told source.new).left ≡ Some []) }
    ensures within { result ≡ 0 → (S.told source.new).moved ≤ raised (S.told source.old).moved INPUT_LIMIT }
    ensures taken { (S.told source.new).moved ≤ (S.told source.old).moved + (INPUT_LIMIT + 1) }
    ensures long { result ≡ 6 → raised (S.told source.old).moved (line_limit + 1) ≤ (S.told source.new).moved }
    ensures read_fault { result ≡ 2 → Rose (S.told source.old).faults (S.told source.new).faults }
    ensures write_fault { result ≡ 3 → Rose (K.told sink.old).faults (K.told sink.new).faults }
    ensures known { (result ≡ 5 → ⊥) × (result ≤ 6) }
    ensures turns { Told (S.told source.old).left (λ bytes. IsReportOf (script_turns bytes) (script_stop bytes) (script_ending bytes)) }
    ensures load_bound { Told (S.told source.old).left (λ bytes. BoundsLoads (script_turns bytes)) }
    ensures stands { Told (S.told source.old).left (λ bytes. StandsAtScanEnds (script_turns bytes)) }
    ensures complete { Told (S.told source.old).left (λ bytes. AnswersAreComplete (script_turns bytes)) }
{
    match replay(alloc, source, sink) {
        Ok(()) => 0,
        Err(ReplayError::Line { .. }) => 1,
        Err(ReplayError::ReadFault) => 2,
        Err(ReplayError::WriteFault) => 3,
        Err(ReplayError::Mem) => 4,
        Err(ReplayError::Limit) => 6,
        Err(ReplayError::Refused { .. }) => unreachable!(),
    }
}

/// Plays the script on the source, and counts the lines of its report.
fn count<S: Source, K: Sink>(alloc: Global, source: &mut S, sink: &mut K) -> u8
    ensures ends { Told (S.told source.old).left (λ bytes. Ends result (summary_ending bytes).status) }
    ensures writes { Told (S.told source.old).left (λ bytes. Told (K.told sink.old).holds
        (λ before. Writes result (summary_ending bytes).text before (K.told sink.new).holds)) }
    ensures whole { Told (S.told source.old).left (λ bytes. result ≡ 0 → (S.told source.new).left ≡ Some []) }
    ensures within { result ≡ 0 → (S.told source.new).moved ≤ raised (S.told source.old).moved INPUT_LIMIT }
    ensures taken { (S.told source.new).moved ≤ (S.told source.old).moved + (INPUT_LIMIT + 1) }
    ensures long { result ≡ 6 → raised (S.told source.old).moved (line_limit + 1) ≤ (S.told source.new).moved }
    ensures read_fault { result ≡ 2 → Rose (S.told source.old).faults (S.told source.new).faults }
    ensures write_fault { result ≡ 3 → Rose (K.told sink.old).faults (K.told sink.new).faults }
    ensures known { (result ≡ 5 → ⊥) × (result ≤ 6) }
{
    match summary(alloc, source, sink) {
        Ok(()) => 0,
        Err(ReplayError::Line { .. }) => 1,
        Err(ReplayError::ReadFault) => 2,
        Err(ReplayError::WriteFault) => 3,
        Err(ReplayError::Mem) => 4,
        Err(ReplayError::Limit) => 6,
        Err(ReplayError::Refused { .. }) => unreachable!(),
    }
}

/// Writes the page on the commands and the exit statuses.
fn write_help<K: Sink>(sink: &mut K) -> u8
    ensures ends { EndsText result 0 }
    ensures writes { Told (K.told sink.old).holds (λ before. WritesText result help_text before (K.told sink.new).holds) }
    ensures write_fault { result ≡ 3 → Rose (K.told sink.old).faults (K.told sink.new).faults }
{
    write_text(sink, HELP.as_bytes(), 0)
}

/// Writes the usage, for words that are no command's.
pub fn write_usage<K: Sink>(sink: &mut K) -> u8
    ensures ends { EndsText result 5 }
    ensures writes { Told (K.told sink.old).holds (λ before. WritesText result usage_text before (K.told sink.new).holds) }
    ensures write_fault { result ≡ 3 → Rose (K.told sink.old).faults (K.told sink.new).faults }
{
    write_text(sink, USAGE.as_bytes(), 5)
}

/// Runs the program on the words after its name, and answers its exit status.
///
/// - `replay` plays the script on the source and writes its report to the sink.
/// - `summary` plays the script too, and writes only how many lines the report has, and how many begin with each of some words. If
///   the status is 1 or 6, it writes the last line of the report.
/// - `generate SEED TRACKS` writes the script of a generated library. `SEED` is below 2^64 and `TRACKS` from 1 to 10,000, both in
///   decimal.
/// - `check` reads the StateEvent on the source and writes its one written form and LF. If the input is none, it writes
///   `refused AT` with the place of the first fault, in bytes from 0. With the status 6 it writes `error limit`.
/// - `scan FOLDER` scans the folder once. It writes each row of its catalog and LF, and `refused PATH` and LF for each file that
///   was refused, in ascending order of their paths. With the status 6 it writes `error limit`.
/// - `serve PORT FOLDER REQUESTS` listens at the port, in decimal below 65,536. It answers `REQUESTS` connections over HTTP, a
///   number below 2^32. It writes `serving PORT` at the start and `served REQUESTS scans A refused B memory C` at the end.
/// - `announce PORT LOCATION COUNT` takes `COUNT` datagrams that come to the port, and answers the searches among them. The device has
///   its description at `LOCATION`, an `http` address, and the UUID 00000000-0000-8000-8000-000000000000. Another UUID may follow
///   `COUNT`. It writes nothing.
/// - `--help` and `--version`, each alone, write their text.
/// - Other words are no command's, and the usage is written.
///
/// The statuses:
/// - 0: the command did this.
/// - 1: a line of the script is outside the grammar.
/// - 2: the source could not be read, or a folder of the outside.
/// - 3: the sink could not be written.
/// - 4: memory ran out.
/// - 5: the words are no command's, or the location of `announce` is none.
/// - 6: the script or a line of it is too long; or the input of `check` has more than 67,108,864 bytes without a fault before; or
///   a path that `scan` found has too many names or bytes, or its folder too many entries or objects.
/// - 7: `serve` could not have the port, a connection or a thread; or `announce` the port or a datagram.
/// - 8: the input of `check` is no StateEvent.
pub fn run<R: Runtime, S: Source, K: Sink, O: Outside>(
    rt: &R,
    alloc: Global,
    words: &Words,
    source: &mut S,
    sink: &mut K,
    outside: &mut O,
) -> u8
where
    <O::D as Door>::Conn: Send,
    <O::F as Folder>::File: Send,
    // What was written is exactly the report of the script, up to its end, its broken line or its limit.
    ensures report { command_of words.now ≡ Some Replay → Told (S.told source.old).left
        (λ bytes. Told (K.told sink.old).holds (λ before. Writes result (script_ending bytes).text before (K.told sink.new).holds)) }
    ensures status { command_of words.now ≡ Some Replay → Told (S.told source.old).left (λ bytes. Ends result (script_ending bytes).status) }
    ensures read_to_its_end { TakesInput (command_of words.now) → Told (S.told source.old).left (λ bytes. result ≡ 0 → (S.told source.new).left ≡ Some []) }

    // What `summary` wrote is the counts of the lines of that report. Of a report that stops, it is the last line alone.
    ensures summary { command_of words.now ≡ Some Summary → Told (S.told source.old).left
        (λ bytes. Told (K.told sink.old).holds (λ before. Writes result (summary_ending bytes).text before (K.told sink.new).holds)) }
    ensures summary_status { command_of words.now ≡ Some Summary → Told (S.told source.old).left (λ bytes. Ends result (summary_ending bytes).status) }

    // What `generate` wrote is the script of its seed and its number of tracks, or a prefix of it if the status is not 0.
    ensures generate { (seed tracks : ℕ) → command_of words.now ≡ Some (Generate seed tracks) → Told (K.told sink.old).holds
        (λ before. Writes result (generated seed tracks) before (K.told sink.new).holds × HoldsPart before (generated seed tracks) (K.told sink.new).holds) }
    ensures generate_status { Generates (command_of words.now) → (result ≡ 0) ⊎ ((result ≡ 3) ⊎ (result ≡ 4)) }

    // The limit of an input, by the number of bytes that the source moved. However the program ends, it took at most one byte
    // more than an input may have.
    ensures within_limit { TakesInput (command_of words.now) → result ≡ 0 → (S.told source.new).moved ≤ raised (S.told source.old).moved INPUT_LIMIT }
    ensures taken { (S.told source.new).moved ≤ (S.told source.old).moved + (INPUT_LIMIT + 1) }
    ensures past_limit { TakesInput (command_of words.now) → result ≡ 6 → raised (S.told source.old).moved (line_limit + 1) ≤ (S.told source.new).moved }
    ensures past_check_limit { command_of words.now ≡ Some Check → result ≡ 6 → raised (S.told source.old).moved (INPUT_LIMIT + 1) ≤ (S.told source.new).moved }

    // What was written is what the script's turns write, one after the other, and then its last line. If an ask of these turns
    // writes `behind load`, no load was begun before it, or few reads were answered since. They are fewer than a load of the
    // catalog takes, and two more. They count since the load began, a first note dropped the copy, or the catalog last changed.
    ensures turns { command_of words.now ≡ Some Replay → Told (S.told source.old).left (λ bytes. Told (K.told sink.old).holds
        (λ before. Writes result (report_of (script_turns bytes) ++ (script_stop bytes).text) before (K.told sink.new).holds)) }
    ensures load_bound { command_of words.now ≡ Some Replay → Told (S.told source.old).left (λ bytes. BoundsLoads (script_turns bytes)) }

    // Each ask of these turns that writes `stands` and a number writes a scan end of the scans that were accepted by then. After
    // it come the rows of the catalog after the scans up to this one.
    ensures stands { command_of words.now ≡ Some Replay → Told (S.told source.old).left (λ bytes. StandsAtScanEnds (script_turns bytes)) }

    // The answer is complete: an ask of these turns writes the server's number and the catalog after all scans, if this holds
    // before. A load was begun, and the subscription that was accepted last lives. Each note that was sent to it was delivered,
    // at least once so that the answer was not `full`. No change waits for its release. A read wrote `read none` since the last
    // load, acceptance and delivery.
    ensures complete { command_of words.now ≡ Some Replay → Told (S.told source.old).left (λ bytes. AnswersAreComplete (script_turns bytes)) }

    // What `check` wrote is the one written form of the events that the input is and LF, if it is a StateEvent. Otherwise it is
    // the place of its first fault, or that it is too long.
    ensures check { command_of words.now ≡ Some Check → Told (S.told source.old).left
        (λ bytes. Told (K.told sink.old).holds (λ before. WritesCheck bytes result before (K.told sink.new).holds)) }
    ensures check_status { command_of words.now ≡ Some Check → Told (S.told source.old).left (λ bytes. EndsCheck bytes result) }

    // If the scan came to the end of the folder's tree, `scan` wrote its catalog from the first number 0, and the files that were
    // refused. Otherwise it wrote that the scan stopped at an entry. The outside was asked for
    // this folder alone, which came back with all its files.
    ensures scan { command_of words.now ≡ Some Scan → Told (K.told sink.old).holds
        (λ before. WritesScan (O.told outside.old).ended (O.told outside.new).ended result before (K.told sink.new).holds) }
    ensures scan_status { command_of words.now ≡ Some Scan → EndsScan (O.told outside.old).ended (O.told outside.new).ended result }
    ensures scan_asks { command_of words.now ≡ Some Scan → AsksFor (folder_in words.now) (O.told outside.old).asked (O.told outside.new).asked }
    ensures scan_back { command_of words.now ≡ Some Scan → GivesBack (O.told outside.old).ended (O.told outside.new).ended }

    // `serve` ends by its causes. With 0 both lines are written, its doors gave as many connections as were asked for, and its
    // spawner started six jobs. It may wait.
    ensures serve { (port requests : ℕ) → command_of words.now ≡ Some (Serve port requests) →
        EndsLife port (place_in words.now) requests result
        (record { outside = O.told outside.old; sink = K.told sink.old })
        (record { outside = O.told outside.new; sink = K.told sink.new }) }

    // `announce` ends by its causes. With 0 it took as many datagrams as were asked for, and sent for each exactly the replies of the
    // device, in their order. If its location is none, the usage is written. It may wait.
    ensures announce { (port count : ℕ) (uuid : List ℕ) → command_of words.now ≡ Some (Announce port count uuid) →
        EndsAnnounce (device_at uuid (place_in words.now) 1) port count result (O.told outside.old) (O.told outside.new) }
    ensures announce_writes { (port count : ℕ) (uuid : List ℕ) → command_of words.now ≡ Some (Announce port count uuid) →
        WritesAnnounce (device_at uuid (place_in words.now) 1) result (K.told sink.old) (K.told sink.new) }

    // `serve` hands back the folders of its workers, at most four. Otherwise only `scan` hands a folder back to the outside. No
    // command hands a link back, whose faults would count as the outside's.
    ensures folders_back { Serves (command_of words.now) → FoldersBack 4 (O.told outside.old).ended (O.told outside.new).ended }
    ensures folders_stay { command_of words.now ≢ Some Scan → (Serves (command_of words.now) → ⊥)
        → (O.told outside.new).ended ≡ (O.told outside.old).ended }
    ensures links_stay { (O.told outside.new).ended_links ≡ (O.told outside.old).ended_links }

    // Faults of the outside come only if their count rose.
    ensures read_fault { TakesInput (command_of words.now) → result ≡ 2 → Rose (S.told source.old).faults (S.told source.new).faults }
    ensures outside_fault { command_of words.now ≡ Some Scan → result ≡ 2 → Rose (O.told outside.old).faults (O.told outside.new).faults }
    ensures service_fault { result ≡ 7 → Rose (O.told outside.old).faults (O.told outside.new).faults }
    ensures write_fault { result ≡ 3 → Rose (K.told sink.old).faults (K.told sink.new).faults }

    // The other commands, and words that are no command's, write one text and take nothing of the source.
    ensures help { command_of words.now ≡ Some Help → EndsText result 0 × Told (K.told sink.old).holds
        (λ before. WritesText result help_text before (K.told sink.new).holds) }
    ensures version { command_of words.now ≡ Some Version → EndsText result 0 × Told (K.told sink.old).holds
        (λ before. WritesText result version_text before (K.told sink.new).holds) }
    ensures usage { command_of words.now ≡ None → EndsText result 5 × Told (K.told sink.old).holds
        (λ before. WritesText result usage_text before (K.told sink.new).holds) }
    ensures untouched { (TakesInput (command_of words.now) → ⊥) → source.new ≡ source.old }
    ensures outside_untouched { command_of words.now ≢ Some Scan → (Serves (command_of words.now) → ⊥) → (Announces (command_of words.now) → ⊥)
        → outside.new ≡ outside.old }

    // No other status comes.
    ensures only_usage { result ≡ 5 → (command_of words.now ≡ None) ⊎ Announces (command_of words.now) }
    ensures only_script { result ≡ 1 → PlaysScript (command_of words.now) }
    ensures only_check { result ≡ 8 → command_of words.now ≡ Some Check }
    ensures only_service { result ≡ 7 → Serves (command_of words.now) ⊎ Announces (command_of words.now) }
    ensures only_input { (result ≡ 2) ⊎ (result ≡ 6) → TakesInput (command_of words.now) ⊎ (command_of words.now ≡ Some Scan) }
    ensures only_memory { result ≡ 4 → TakesInput (command_of words.now) ⊎ ((command_of words.now ≡ Some Scan)
        ⊎ (Serves (command_of words.now) ⊎ (Generates (command_of words.now) ⊎ Announces (command_of words.now)))) }
    ensures known { result ≤ 8 }
{
    match read_command(words.as_slice()) {
        Some(Command::Replay) => play(alloc, source, sink),
        Some(Command::Summary) => count(alloc, source, sink),
        Some(Command::Generate { seed, tracks }) => write_script(alloc, seed, tracks, sink),
        Some(Command::Check) => check(alloc, source, sink),
        Some(Command::Scan) => scan_folder(alloc, folder_in(words.as_slice()), outside, sink),
        Some(Command::Serve { port, requests }) => {
            let service = Service {
                port,
                folder: place_in(words.as_slice()),
                requests,
            };
            serve_folder(rt, alloc, &service, sink, outside)
        }
        Some(Command::Announce { port, count, uuid }) => {
            let announcement = Announcement {
                port,
                location: place_in(words.as_slice()),
                count,
                uuid,
            };
            announce_device(alloc, &announcement, sink, outside)
        }
        Some(Command::Help) => write_help(sink),
        Some(Command::Version) => write_text(sink, VERSION.as_bytes(), 0),
        None => write_usage(sink),
    }
}
