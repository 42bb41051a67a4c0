//! Writes generated scripts.

ghost use Rattle.std.specs.Prelude.{◌≡◌, ◌+◌, ◌<◌, ◌≤◌, ◌++◌, ℕ, List, IfOk, IfErr, OnOk, OnErr, Some, length, slice_get, string_bytes, codes};
ghost use Rattle.cds_outside.specs.Outside.{HoldsPart, Rose, Told};
ghost use Rattle.cds_generate.specs.Generated.{all_reads, ask_text, closing_text, deliver_line, ending_text, folder_line, folders_of, generated, late_text, library_text, load_reads, note_text, present_lines, reads_text, scan_text, scanned_text, step_reads, step_text, steps_text, tag_line, text_of_step, texts_below, track_facts, track_line, track_place, tracks_text};
ghost use Rattle.cds_generate.specs.History.{CanGoOn, after_step, after_steps};
ghost use Rattle.cds_generate.specs.Writing.{OnWriteFault, Took};

use crate::error::GenerateError;
use crate::history::{History, Step};
use crate::library::Track;
use cds_base::{Mem, put, put_number};
use cds_outside::{Failed, Sink, write_all};
use std::alloc::Global;

/// How many scans a script has.
const STEPS: u32 = 40;

/// A load of the empty library, and a subscription.
const OPENING: &str = "load\nread\nread\nread\nread\nread\nread\nsubscribe\naccept\ndeliver 1\n";

// ---- counts

/// Returns how many folders there are for this many tracks.
fn folders_of(count: u64) -> u64
    requires { count ≤ 10000 }
    ensures { result ≡ folders_of count }
{
    1u64.max(count * 3 / 40)
}

/// Returns how many reads a whole load takes at most.
fn load_reads(count: u64) -> u64
    requires { count ≤ 10000 }
    ensures { result ≡ load_reads count }
{
    let folders = folders_of(count);
    4 + 2 * (folders + 1 + (folders + count) / 256)
}

/// Returns how many reads all objects take.
fn all_reads(count: u64) -> u64
    requires { count ≤ 10000 }
    ensures { result ≡ all_reads count }
{
    count + folders_of(count)
}

/// Returns how many reads a step has.
fn step_reads(step: u32, count: u64) -> u64
    requires { count ≤ 10000 }
    ensures { result ≡ step_reads step count }
{
    if step == 1 {
        all_reads(count)
    } else {
        2 * (count / 50 + 2)
    }
}

// ---- texts

/// Puts the line of a note that is delivered.
fn put_deliver(out: &mut String, note: u64) -> Result<(), Mem>
    ensures { OnOk result (string_bytes out.new ≡ string_bytes out.old ++ deliver_line note) }
{
    put(out, "deliver ")?;
    put_number(out, note)?;
    put(out, "\n")
}

/// Returns the line of a note that is delivered.
fn deliver_text(alloc: Global, note: u32) -> Result<String, Mem>
    ensures { IfOk result (λ text. string_bytes text ≡ deliver_line note) }
{
    let mut out = String::new(alloc);
    put_deliver(&mut out, u64::from(note))?;
    Ok(out)
}

/// Returns the lines of a note that is delivered twice.
fn twice_text(alloc: Global, note: u32) -> Result<String, Mem>
    ensures { IfOk result (λ text. string_bytes text ≡ deliver_line note ++ deliver_line note) }
{
    let mut out = String::new(alloc);
    put_deliver(&mut out, u64::from(note))?;
    put_deliver(&mut out, u64::from(note))?;
    Ok(out)
}

/// Returns the lines of a new subscription, whose first note is the one after a note.
fn renewed_text(alloc: Global, note: u32) -> Result<String, Mem>
    ensures { IfOk result (λ text. string_bytes text ≡ codes "unsubscribe\nsubscribe\naccept\n" ++ deliver_line (note + 1)) }
{
    let mut out = String::new(alloc);
    put(&mut out, "unsubscribe\nsubscribe\naccept\n")?;
    put_deliver(&mut out, u64::from(note) + 1)?;
    Ok(out)
}

/// Returns the line of a folder.
fn folder_text(alloc: Global, folder: u64) -> Result<String, Mem>
    ensures { IfOk result (λ text. string_bytes text ≡ folder_line folder) }
{
    let mut out = String::new(alloc);
    put(&mut out, "folder f")?;
    put_number(&mut out, folder)?;
    put(&mut out, "\n")?;
    Ok(out)
}

/// Puts the line of a track.
fn put_track(out: &mut String, folders: u64, number: u64, version: u32) -> Result<(), Mem>
    requires some { 1 ≤ folders }
    requires few { number ≤ 10000 }
    ensures { OnOk result (string_bytes out.new ≡ string_bytes out.old ++ track_line folders number version) }
{
    put_place(out, folders, number)?;
    put_facts(out, number, version)
}

/// Puts the end of the line of a track, from its size on.
fn put_facts(out: &mut String, number: u64, version: u32) -> Result<(), Mem>
    requires { number ≤ 10000 }
    ensures { OnOk result (string_bytes out.new ≡ string_bytes out.old ++ track_facts number version) }
{
    put_number(out, 1_000_000 + 1_000 * number + u64::from(version))?;
    put(out, " 44100 2 16 ")?;
    put_number(out, 441_000 + number)?;
    put(out, "\n")
}

/// Puts the beginning of the line of a track, up to its size.
fn put_place(out: &mut String, folders: u64, number: u64) -> Result<(), Mem>
    requires { 1 ≤ folders }
    ensures { OnOk result (string_bytes out.new ≡ string_bytes out.old ++ track_place folders number) }
{
    put(out, "track f")?;
    put_number(out, number % folders)?;
    put(out, "/t")?;
    put_number(out, number)?;
    put(out, ".flac ")
}

/// Puts the line of a track's title.
fn put_tag(out: &mut String, number: u64) -> Result<(), Mem>
    ensures { OnOk result (string_bytes out.new ≡ string_bytes out.old ++ tag_line number) }
{
    put(out, "tag TITLE Title%20")?;
    put_number(out, number)?;
    put(out, "\n")
}

/// Returns the lines of a track.
fn track_text(alloc: Global, folders: u64, number: u64, version: u32) -> Result<String, Mem>
    requires some { 1 ≤ folders }
    requires few { number ≤ 10000 }
    ensures { IfOk result (λ text. string_bytes text ≡ track_line folders number version ++ tag_line number) }
{
    let mut out = String::new(alloc);
    put_track(&mut out, folders, number, version)?;
    put_tag(&mut out, number)?;
    Ok(out)
}

/// Returns the lines of the scan of a step.
fn scan_text(alloc: Global, step: u32) -> Result<String, Mem>
    ensures { IfOk result (λ text. string_bytes text ≡ scan_text step) }
{
    let mut out = String::new(alloc);
    put(&mut out, "scan\nat ")?;
    put_number(&mut out, 250 * u64::from(step))?;
    put(&mut out, "\n")?;
    Ok(out)
}

// ---- into a sink

/// Writes a piece of the script.
fn write_piece<K: Sink>(sink: &mut K, piece: &[u8]) -> Result<(), GenerateError>
    ensures { Took result (K.told sink.old) piece.now (K.told sink.new) }
{
    match write_all(sink, piece) {
        Ok(()) => Ok(()),
        Err(Failed) => Err(GenerateError::WriteFault),
    }
}

/// Writes a text, or answers why there is none.
fn write_text<K: Sink>(sink: &mut K, text: Result<String, Mem>) -> Result<(), GenerateError>
    ensures { (whole : List ℕ) → IfOk text (λ t. string_bytes t ≡ whole) → Took result (K.told sink.old) whole (K.told sink.new) }
{
    match text {
        Ok(text) => write_piece(sink, text.as_bytes()),
        Err(Mem) => Err(GenerateError::Mem),
    }
}

/// Writes this many reads.
fn write_reads<K: Sink>(sink: &mut K, count: u64) -> Result<(), GenerateError>
    ensures { Took result (K.told sink.old) (reads_text count) (K.told sink.new) }
{
    'reads: for _ in 0..count {
        write_piece(sink, b"read\n")?;
    }
    Ok(())
}

/// Writes the folders.
fn write_folders<K: Sink>(alloc: Global, sink: &mut K, count: u64) -> Result<(), GenerateError>
    ensures { Took result (K.told sink.old) (texts_below count folder_line) (K.told sink.new) }
{
    for folder in 0..count {
        write_folder(alloc, sink, folder)?;
    }
    Ok(())
}

/// Writes the line of a folder.
fn write_folder<K: Sink>(alloc: Global, sink: &mut K, folder: u64) -> Result<(), GenerateError>
    ensures { Took result (K.told sink.old) (folder_line folder) (K.told sink.new) }
{
    write_text(sink, folder_text(alloc, folder))
}

/// Writes the tracks that are present.
fn write_tracks<K: Sink>(alloc: Global, sink: &mut K, tracks: &[Track]) -> Result<(), GenerateError>
    requires { length tracks.now ≤ 10000 }
    ensures { Took result (K.told sink.old) (tracks_text tracks.now) (K.told sink.new) }
{
    let folders = folders_of(tracks.len() as u64);
    for number in 0..tracks.len() {
        let track = track_at(tracks, number);
        write_track(alloc, sink, folders, number as u64, track)?;
    }
    Ok(())
}

/// Returns the track at a place.
fn track_at(tracks: &[Track], number: usize) -> Option<Track>
    ensures { result ≡ slice_get tracks.now number }
{
    tracks.get(number).copied()
}

/// Writes the lines of a track, if there is one and it is present.
fn write_track<K: Sink>(
    alloc: Global,
    sink: &mut K,
    folders: u64,
    number: u64,
    track: Option<Track>,
) -> Result<(), GenerateError>
    requires some { 1 ≤ folders }
    requires few { number ≤ 10000 }
    ensures { Took result (K.told sink.old) (present_lines folders number track) (K.told sink.new) }
{
    match track {
        None => Ok(()),
        Some(track) => write_present(alloc, sink, folders, number, track),
    }
}

/// Writes the lines of a track, if it is present.
fn write_present<K: Sink>(
    alloc: Global,
    sink: &mut K,
    folders: u64,
    number: u64,
    track: Track,
) -> Result<(), GenerateError>
    requires some { 1 ≤ folders }
    requires few { number ≤ 10000 }
    ensures { Took result (K.told sink.old) (present_lines folders number (Some track)) (K.told sink.new) }
{
    if track.present {
        write_text(sink, track_text(alloc, folders, number, track.version))
    } else {
        Ok(())
    }
}

/// Writes the folders and the tracks that are present.
fn write_library<K: Sink>(
    alloc: Global,
    sink: &mut K,
    tracks: &[Track],
) -> Result<(), GenerateError>
    requires { length tracks.now ≤ 10000 }
    ensures { Took result (K.told sink.old) (library_text tracks.now) (K.told sink.new) }
{
    write_folders(alloc, sink, folders_of(tracks.len() as u64))?;
    write_tracks(alloc, sink, tracks)
}

/// Writes what becomes of the note of a step.
fn write_note<K: Sink>(
    alloc: Global,
    sink: &mut K,
    reads: u64,
    kind: u64,
    note: u32,
) -> Result<(), GenerateError>
    ensures { Took result (K.told sink.old) (note_text reads kind note) (K.told sink.new) }
{
    if kind == 0 {
        write_renewed(alloc, sink, reads, note)
    } else if kind == 1 {
        write_text(sink, twice_text(alloc, note))
    } else if kind == 2 {
        Ok(())
    } else {
        write_deliver(alloc, sink, note)
    }
}

/// Writes a new subscription, its first note, which is the one after a note, and the reads of a load.
fn write_renewed<K: Sink>(
    alloc: Global,
    sink: &mut K,
    reads: u64,
    note: u32,
) -> Result<(), GenerateError>
    ensures { Took result (K.told sink.old) (codes "unsubscribe\nsubscribe\naccept\n" ++ deliver_line (note + 1) ++ reads_text reads) (K.told sink.new) }
{
    write_text(sink, renewed_text(alloc, note))?;
    write_reads(sink, reads)
}

/// Writes the line of a note that is delivered.
fn write_deliver<K: Sink>(alloc: Global, sink: &mut K, note: u32) -> Result<(), GenerateError>
    ensures { Took result (K.told sink.old) (deliver_line note) (K.told sink.new) }
{
    write_text(sink, deliver_text(alloc, note))
}

/// Writes the line of a late note, if there is one.
fn write_late<K: Sink>(alloc: Global, sink: &mut K, late: Option<u32>) -> Result<(), GenerateError>
    ensures { Took result (K.told sink.old) (late_text late) (K.told sink.new) }
{
    match late {
        None => Ok(()),
        Some(note) => write_deliver(alloc, sink, note),
    }
}

/// Writes an ask, if there is one.
fn write_ask<K: Sink>(sink: &mut K, asks: bool) -> Result<(), GenerateError>
    ensures { Took result (K.told sink.old) (ask_text asks) (K.told sink.new) }
{
    if asks {
        write_piece(sink, b"ask\n")
    } else {
        Ok(())
    }
}

/// Writes what ends a step or the script.
fn write_ending<K: Sink>(
    alloc: Global,
    sink: &mut K,
    late: Option<u32>,
    reads: u64,
    asks: bool,
) -> Result<(), GenerateError>
    ensures { Took result (K.told sink.old) (ending_text late reads asks) (K.told sink.new) }
{
    write_late(alloc, sink, late)?;
    write_reads(sink, reads)?;
    write_ask(sink, asks)
}

/// Writes the scan of a step and what becomes of its note.
fn write_scanned<K: Sink>(
    alloc: Global,
    sink: &mut K,
    tracks: &[Track],
    step: Step,
) -> Result<(), GenerateError>
    requires { length tracks.now ≤ 10000 }
    ensures { Took result (K.told sink.old) (scanned_text tracks.now step) (K.told sink.new) }
{
    write_library(alloc, sink, tracks)?;
    write_text(sink, scan_text(alloc, step.number))?;
    let reads = load_reads(tracks.len() as u64);
    write_note(alloc, sink, reads, step.kind, step.note)
}

/// Writes a step.
fn write_step<K: Sink>(
    alloc: Global,
    sink: &mut K,
    tracks: &[Track],
    step: Step,
) -> Result<(), GenerateError>
    requires { length tracks.now ≤ 10000 }
    ensures { Took result (K.told sink.old) (step_text tracks.now step) (K.told sink.new) }
{
    write_scanned(alloc, sink, tracks, step)?;
    let reads = step_reads(step.number, tracks.len() as u64);
    write_ending(alloc, sink, step.late, reads, step.number % 10 == 0)
}

/// Goes a step on and writes it.
fn play_step<K: Sink>(
    alloc: Global,
    sink: &mut K,
    history: &mut History,
    number: u32,
) -> Result<(), GenerateError>
    requires { CanGoOn history.old }
    ensures took { Took result (K.told sink.old) (text_of_step number history.old) (K.told sink.new) }
    ensures after { history.new ≡ after_step number history.old }
{
    let step = history.advance(number);
    write_step(alloc, sink, history.tracks(), step)
}

/// Goes this many steps on and writes them.
fn play_steps<K: Sink>(
    alloc: Global,
    sink: &mut K,
    history: &mut History,
    steps: u32,
) -> Result<(), GenerateError>
    requires few { steps < 4294967295 }
    requires goes_on { (k : ℕ) → k < steps → CanGoOn (after_steps k history.old) }
    ensures took { Took result (K.told sink.old) (steps_text steps history.old) (K.told sink.new) }
    ensures after { OnOk result (history.new ≡ after_steps steps history.old) }
{
    for done in 0..steps {
        play_step(alloc, sink, history, done + 1)?;
    }
    Ok(())
}

/// Writes what ends the script.
fn write_closing<K: Sink>(
    alloc: Global,
    sink: &mut K,
    history: &History,
) -> Result<(), GenerateError>
    requires { length history.now.library.tracks ≤ 10000 }
    ensures { Took result (K.told sink.old) (closing_text history.now) (K.told sink.new) }
{
    let reads = all_reads(history.tracks().len() as u64);
    write_ending(alloc, sink, history.late(), reads, true)
}

/// Writes the script of a generated library, by a seed and the number of its tracks. What is written is never together in memory: it
/// takes memory for the tracks and for one line. After an error a prefix of the script was written.
pub fn generate<K: Sink>(
    alloc: Global,
    seed: u64,
    tracks: u32,
    sink: &mut K,
) -> Result<(), GenerateError>
    requires some { 1 ≤ tracks }
    requires few { tracks ≤ 10000 }
    ensures content { OnOk result (Told (K.told sink.old).holds (λ before. (K.told sink.new).holds ≡ Some (before ++ generated seed tracks))) }
    ensures part { OnErr result (Told (K.told sink.old).holds (λ before. HoldsPart before (generated seed tracks) (K.told sink.new).holds)) }
    ensures write_fault { IfErr result (λ e. OnWriteFault e (Rose (K.told sink.old).faults (K.told sink.new).faults)) }
    ensures never_falls { (K.told sink.old).faults ≤ (K.told sink.new).faults }
{
    let mut history = History::new(alloc, seed, tracks)?;
    write_piece(sink, OPENING.as_bytes())?;
    play_steps(alloc, sink, &mut history, STEPS)?;
    write_closing(alloc, sink, &history)
}
