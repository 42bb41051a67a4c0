//! Counts the lines of the report of a script as they come, and writes the counts. The report itself is not kept.

ghost use Rattle.std.specs.Prelude.{◌≡◌, ℕ, ◌+◌, ◌-◌, ◌<◌, ◌≤◌, ◌++◌, ◌⊎◌, [], ◌∷◌, List, true, Some, None, Err, length, IfErr, OnOk};
ghost use Rattle.cds_base.specs.declared.limits.TheConstants.{INPUT_LIMIT};
ghost use Rattle.cds_outside.specs.Outside.{raised, Rose, Told};
ghost use Rattle.cds_script.specs.Lines.{is_unbroken, line_limit, script_limit};
ghost use Rattle.cds_script.specs.Report.{outside_ending};
ghost use Rattle.cds_summary.specs.Summary.{summary_ending, summary_text};
ghost use Rattle.cds_summary.specs.Tally.{IsTally};
ghost use Rattle.cds_replay.specs.Script.{left_in, stop_text, Sound};
ghost use Rattle.cds_replay.specs.Replay.{OnLine, OnRefused, OnLimit, OnReadFault, OnWriteFault, Holds, answer_of};
ghost use Rattle.cds_replay.specs.Summing.{Counted, Counting, Halted, IsOfReading, IsOfScript, IsOfWriting, Sums, straight};

use crate::play::{ReplayError, write_out};
use crate::script::{Script, ScriptStop, cut_line, write_stop};
use crate::wire::Straight;
use cds_base::Mem;
use cds_outside::{Failed, Sink, Source, empty_piece, read_piece};
use cds_summary::Tally;
use std::alloc::Global;

/// Plays the script that a source gives, counts the lines of its report, and writes the counts in place of the report. They are
/// `lines N`, and then a line for each of some words with the number of lines that begin with it. Each line is counted as soon as
/// it is there, and none is kept.
///
/// If a line of the script is outside the grammar, or a limit is passed, only the last line of the report is written (`line`,
/// `line_number`, `limit`). After any other error nothing was written, or a prefix of that. The replay takes at most one byte more
/// of the source than a script may have (`taken`).
pub fn summary<S: Source, K: Sink>(
    alloc: Global,
    source: &mut S,
    sink: &mut K,
) -> Result<(), ReplayError>
    ensures ok { OnOk result (Told (S.told source.old).left (Sums 0 (K.told sink.old).holds (K.told sink.new).holds)) }
    ensures ok_end { OnOk result (Told (S.told source.old).left (λ script. (S.told source.new).left ≡ Some [])) }
    ensures ok_moved { OnOk result ((S.told source.new).moved ≤ raised (S.told source.old).moved INPUT_LIMIT) }
    ensures line { IfErr result (λ e. OnLine e (λ line. Told (S.told source.old).left (Sums 1 (K.told sink.old).holds (K.told sink.new).holds))) }
    ensures line_number { IfErr result (λ e. OnLine e (λ line. Told (S.told source.old).left (λ script. summary_ending script ≡ outside_ending line))) }
    ensures limit { IfErr result (λ e. OnLimit e (Told (S.told source.old).left (Sums 6 (K.told sink.old).holds (K.told sink.new).holds))) }
    ensures limit_moved { IfErr result (λ e. OnLimit e (raised (S.told source.old).moved (line_limit + 1) ≤ (S.told source.new).moved)) }
    ensures never_refused { IfErr result (λ e. OnRefused e (λ line. ⊥)) }
    ensures read_fault { IfErr result (λ e. OnReadFault e (Rose (S.told source.old).faults (S.told source.new).faults)) }
    ensures write_fault { IfErr result (λ e. OnWriteFault e (Rose (K.told sink.old).faults (K.told sink.new).faults)) }
    ensures taken { (S.told source.new).moved ≤ (S.told source.old).moved + (INPUT_LIMIT + 1) }
    ensures source_faults { (S.told source.old).faults ≤ (S.told source.new).faults }
    ensures sink_faults { (K.told sink.old).faults ≤ (K.told sink.new).faults }
{
    let mut tally = Tally::new(alloc);
    match count_source(alloc, source, &mut tally) {
        Ok(()) => write_counts(alloc, &tally, sink),
        Err(ReplayError::Line { line }) => write_halt(alloc, ScriptStop::Outside { line }, sink),
        Err(ReplayError::Limit) => write_halt(alloc, ScriptStop::Limit, sink),
        Err(error) => Err(error),
    }
}

/// Counts the report of the script that a source gives.
fn count_source<S: Source>(
    alloc: Global,
    source: &mut S,
    tally: &mut Tally,
) -> Result<(), ReplayError>
    requires { IsTally tally.old [] }
    ensures counted { OnOk result (Told (S.told source.old).left (Counted tally.new)) }
    ensures end { OnOk result (Told (S.told source.old).left (λ script. (S.told source.new).left ≡ Some [])) }
    ensures moved { OnOk result ((S.told source.new).moved ≤ raised (S.told source.old).moved INPUT_LIMIT) }
    ensures halted { IfErr result (λ e. Told (S.told source.old).left (Halted e)) }
    ensures limit { IfErr result (λ e. OnLimit e (raised (S.told source.old).moved (line_limit + 1) ≤ (S.told source.new).moved)) }
    ensures read_fault { IfErr result (λ e. OnReadFault e (Rose (S.told source.old).faults (S.told source.new).faults)) }
    ensures own { IfErr result IsOfReading }
    ensures taken { (S.told source.new).moved ≤ (S.told source.old).moved + (INPUT_LIMIT + 1) }
    ensures source_faults { (S.told source.old).faults ≤ (S.told source.new).faults }
{
    let mut buffer = empty_piece(alloc)?;
    let mut script = Script::new(alloc)?;
    count_on(alloc, &mut script, tally, buffer.as_mut_slice(), source)
}

/// Counts what a source still gives of a script, piece by piece through the buffer.
fn count_on<S: Source>(
    alloc: Global,
    script: &mut Script,
    tally: &mut Tally,
    buffer: &mut [u8],
    source: &mut S,
) -> Result<(), ReplayError>
    requires sound { Sound straight script.old }
    requires some { 0 < length buffer.old }
    requires fresh { Counting script.old tally.old [] }
    ensures counted { OnOk result (Told (S.told source.old).left (Counted tally.new)) }
    ensures end { OnOk result (Told (S.told source.old).left (λ bytes. (S.told source.new).left ≡ Some [])) }
    ensures moved { OnOk result ((S.told source.new).moved ≤ raised (S.told source.old).moved (left_in script.old)) }
    ensures halted { IfErr result (λ e. Told (S.told source.old).left (Halted e)) }
    ensures limit { IfErr result (λ e. OnLimit e (raised (S.told source.old).moved (left_in script.old + line_limit + 1 - script_limit) ≤ (S.told source.new).moved)) }
    ensures read_fault { IfErr result (λ e. OnReadFault e (Rose (S.told source.old).faults (S.told source.new).faults)) }
    ensures own { IfErr result IsOfReading }
    ensures taken { (S.told source.new).moved ≤ (S.told source.old).moved + (left_in script.old + 1) }
    ensures source_faults { (S.told source.old).faults ≤ (S.told source.new).faults }
{
    loop {
        match read_piece(source, buffer, script.left()) {
            Err(Failed) => return Err(ReplayError::ReadFault),
            Ok(0) => return count_end(alloc, script, tally),
            Ok(count) => {
                let (piece, _) = buffer.split_at(count);
                count_piece(alloc, script, tally, piece)?;
            }
        }
    }
}

/// Counts what a piece of a script adds to the report.
fn count_piece(
    alloc: Global,
    script: &mut Script,
    tally: &mut Tally,
    piece: &[u8],
) -> Result<(), ReplayError>
    requires { Sound straight script.old }
    ensures goes { (before : List ℕ) → Counting script.old tally.old before → OnOk result (Counting script.new tally.new (before ++ piece.now)) }
    ensures sound { OnOk result (Sound straight script.new) }
    ensures left { OnOk result (left_in script.new + length piece.now ≡ left_in script.old) }
    ensures stops { (before more : List ℕ) → Counting script.old tally.old before → IfErr result (λ e. Halted e ((before ++ piece.now) ++ more)) }
    ensures limit { IfErr result (λ e. OnLimit e (left_in script.old + line_limit < script_limit + length piece.now)) }
    ensures own { IfErr result IsOfScript }
{
    let mut rest = piece;
    while let Some((line, after)) = cut_line(rest) {
        count_line(alloc, script, tally, line)?;
        rest = after;
    }
    count_rest(alloc, script, tally, rest)
}

/// Counts what the line that ends with these bytes and an LF adds to the report.
fn count_line(
    alloc: Global,
    script: &mut Script,
    tally: &mut Tally,
    line: &[u8],
) -> Result<(), ReplayError>
    requires sound { Sound straight script.old }
    requires whole { is_unbroken line.now ≡ true }
    ensures goes { (before : List ℕ) → Counting script.old tally.old before → OnOk result (Counting script.new tally.new (before ++ (line.now ++ 10 ∷ []))) }
    ensures sound { OnOk result (Sound straight script.new) }
    ensures left { OnOk result (left_in script.new + (length line.now + 1) ≡ left_in script.old) }
    ensures stops { (before more : List ℕ) → Counting script.old tally.old before → IfErr result (λ e. Halted e ((before ++ (line.now ++ 10 ∷ [])) ++ more)) }
    ensures limit { IfErr result (λ e. OnLimit e (left_in script.old + line_limit < script_limit + (length line.now + 1))) }
    ensures own { IfErr result IsOfScript }
{
    let mut out = String::new(alloc);
    let stop = script.end_line(alloc, &Straight, line, &mut out)?;
    count_out(tally, out.as_bytes(), stop)
}

/// Keeps the rest of a piece, which has no LF. It stops the script at most at a limit.
fn count_rest(
    alloc: Global,
    script: &mut Script,
    tally: &mut Tally,
    rest: &[u8],
) -> Result<(), ReplayError>
    requires sound { Sound straight script.old }
    requires whole { is_unbroken rest.now ≡ true }
    ensures goes { (before : List ℕ) → Counting script.old tally.old before → OnOk result (Counting script.new tally.new (before ++ rest.now)) }
    ensures sound { OnOk result (Sound straight script.new) }
    ensures left { OnOk result (left_in script.new + length rest.now ≡ left_in script.old) }
    ensures stops { (before more : List ℕ) → Counting script.old tally.old before → IfErr result (λ e. Halted e ((before ++ rest.now) ++ more)) }
    ensures limit { IfErr result (λ e. OnLimit e (left_in script.old + line_limit < script_limit + length rest.now)) }
    ensures own { IfErr result IsOfScript }
{
    let mut out = String::new(alloc);
    let stop = script.keep(alloc, rest, &mut out)?;
    count_out(tally, out.as_bytes(), stop)
}

/// Counts what the end of a script adds to the report.
fn count_end(alloc: Global, script: &mut Script, tally: &mut Tally) -> Result<(), ReplayError>
    requires { Sound straight script.old }
    ensures ends { (before : List ℕ) → Counting script.old tally.old before → OnOk result (Counted tally.new before) }
    ensures stops { (before : List ℕ) → Counting script.old tally.old before → IfErr result (λ e. Halted e before) }
    ensures no_limit { IfErr result (λ e. OnLimit e ⊥) }
    ensures own { IfErr result IsOfScript }
{
    let mut out = String::new(alloc);
    let stop = script.finish(alloc, &Straight, &mut out)?;
    count_out(tally, out.as_bytes(), stop)
}

/// Counts a part of the report, if the script does not stop. Returns the stop otherwise.
fn count_out(tally: &mut Tally, text: &[u8], stop: Option<ScriptStop>) -> Result<(), ReplayError>
    ensures answer { (result ≡ Err ReplayError.Mem) ⊎ (result ≡ answer_of stop) }
    ensures counted { (report : List ℕ) → IsTally tally.old report → OnOk result (IsTally tally.new (report ++ text.now)) }
{
    match stop {
        None => count_text(tally, text),
        Some(ScriptStop::Outside { line }) => Err(ReplayError::Line { line }),
        Some(ScriptStop::Limit) => Err(ReplayError::Limit),
        Some(ScriptStop::Refused { line }) => Err(ReplayError::Refused { line }),
    }
}

/// Counts a part of the report.
fn count_text(tally: &mut Tally, text: &[u8]) -> Result<(), ReplayError>
    ensures answer { (result ≡ Err ReplayError.Mem) ⊎ (result ≡ answer_of None) }
    ensures counted { (report : List ℕ) → IsTally tally.old report → OnOk result (IsTally tally.new (report ++ text.now)) }
{
    match tally.feed(text) {
        Ok(()) => Ok(()),
        Err(Mem) => Err(ReplayError::Mem),
    }
}

/// Writes the counts of a report.
fn write_counts<K: Sink>(alloc: Global, tally: &Tally, sink: &mut K) -> Result<(), ReplayError>
    ensures held { (report : List ℕ) → IsTally tally.now report → OnOk result (Holds (K.told sink.old).holds (summary_text report) (K.told sink.new).holds) }
    ensures own { IfErr result IsOfWriting }
    ensures write_fault { IfErr result (λ e. OnWriteFault e (Rose (K.told sink.old).faults (K.told sink.new).faults)) }
    ensures never_falls { (K.told sink.old).faults ≤ (K.told sink.new).faults }
{
    let mut out = String::new(alloc);
    tally.put(&mut out)?;
    write_out(sink, out.as_bytes(), None)
}

/// Writes the last line of a script that stops, and returns the stop.
fn write_halt<K: Sink>(alloc: Global, stop: ScriptStop, sink: &mut K) -> Result<(), ReplayError>
    ensures answer { (result ≡ Err ReplayError.Mem) ⊎ ((result ≡ Err ReplayError.WriteFault) ⊎ (result ≡ answer_of (Some stop))) }
    ensures held { result ≡ answer_of (Some stop) → Holds (K.told sink.old).holds (stop_text stop) (K.told sink.new).holds }
    ensures write_fault { IfErr result (λ e. OnWriteFault e (Rose (K.told sink.old).faults (K.told sink.new).faults)) }
    ensures never_falls { (K.told sink.old).faults ≤ (K.told sink.new).faults }
{
    let mut out = String::new(alloc);
    write_stop(&mut out, stop)?;
    write_out(sink, out.as_bytes(), Some(stop))
}
