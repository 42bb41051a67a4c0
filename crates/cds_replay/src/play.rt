//! Reads a script from a source and writes its report into a sink.

ghost use Rattle.std.specs.Prelude.{◌≡◌, ℕ, ◌+◌, ◌-◌, ◌<◌, ◌≤◌, ◌++◌, ◌⊎◌, [], ◌∷◌, List, true, Option, Some, None, length, take, drop, IfOk, IfErr, OnOk, OnErr};
ghost use Rattle.cds_base.specs.declared.limits.TheConstants.{INPUT_LIMIT};
ghost use Rattle.cds_outside.specs.Outside.{raised, Rose, Told};
ghost use Rattle.cds_script.specs.Lines.{is_unbroken, line_limit, script_limit};
ghost use Rattle.cds_script.specs.Report.{outside_ending, script_ending};
ghost use Rattle.cds_script.specs.Complete.{AnswersAreComplete};
ghost use Rattle.cds_script.specs.LoadBounds.{BoundsLoads};
ghost use Rattle.cds_script.specs.Played.{script_turns, script_stop, IsReportOf};
ghost use Rattle.cds_script.specs.ScriptGiven.{StandsAtScanEnds};
ghost use Rattle.cds_replay.specs.Reported.{IsReported, IsTheScripts};
ghost use Rattle.cds_replay.specs.Script.{left_in, Sound, GoesOn};
ghost use Rattle.cds_replay.specs.Wire.{WiredEnding, EndsOver, OnWire, AsksShow};
ghost use Rattle.cds_replay.specs.Replay.{OnLine, OnRefused, OnLimit, OnReadFault, OnWriteFault, Holds, Reports, EndsWith, EndsIn, Played, Stopped, answer_of};

use crate::script::{Script, ScriptStop, cut_line};
use crate::wire::{Straight, Wire};
use cds_base::Mem;
use cds_outside::{Failed, Sink, Source, empty_piece, read_piece, write_all};
use std::alloc::Global;
use std::convert::From;
use thiserror::Error;

/// Why a replay ended before its script did.
#[derive(Clone, Copy, Debug, PartialEq, Eq, Error)]
pub enum ReplayError {
    /// The line of this number, counted from 1, is outside the grammar. The report of the lines before it was written, and then
    /// the line `error line N`.
    #[error("line {line} is outside the grammar")]
    Line { line: u32 },
    /// The source could not be read.
    #[error("the script could not be read")]
    ReadFault,
    /// The sink could not be written.
    #[error("the report could not be written")]
    WriteFault,
    /// More than 67,108,864 bytes came, or a line of more than 4,096. The report of the lines before was written, and then the
    /// line `error limit`.
    #[error("the script or a line of it is too long")]
    Limit,
    /// The replica refused what the line of this number, counted from 1, gave it. This was what a wire left of a reply, or a note
    /// that does not go with what such replies showed before. The report of the lines before it was written.
    #[error("the replica refused what line {line} gave it")]
    Refused { line: u32 },
    #[error("out of memory")]
    Mem,
}

impl From<Mem> for ReplayError {
    ghost use Rattle.cds_replay.specs.declared.play.ReplayError.{ReplayError};

    ghost from_gives = { λ _ r. r ≡ ReplayError.Mem };

    fn from(_: Mem) -> Self {
        ReplayError::Mem
    }
}

/// Plays the script that a source gives and writes its report. The answer of a line is written before the next line is looked at.
/// However the replay ends, it takes at most one byte more of the source than a script may have (`taken`).
///
/// The report is what the script's turns write, one after the other, and then its last line (`turns`):
/// - each line `behind load` in it obeys the bound on loads (`load_bound`);
/// - each line `stands` tells a scan end, with the catalog of the scans up to it (`stands`);
/// - if all notes were delivered and all was read, the answer is the server's (`complete`).
pub fn replay<S: Source, K: Sink>(
    alloc: Global,
    source: &mut S,
    sink: &mut K,
) -> Result<(), ReplayError>
    ensures ok_status { OnOk result (Told (S.told source.old).left (λ script. (script_ending script).status ≡ 0)) }
    ensures ok_report { OnOk result (Told (S.told source.old).left (λ script. Holds (K.told sink.old).holds (script_ending script).text (K.told sink.new).holds)) }
    ensures ok_end { OnOk result (Told (S.told source.old).left (λ script. (S.told source.new).left ≡ Some [])) }
    ensures ok_moved { OnOk result ((S.told source.new).moved ≤ raised (S.told source.old).moved INPUT_LIMIT) }
    ensures line_status { IfErr result (λ e. OnLine e (λ line. Told (S.told source.old).left (λ script. (script_ending script).status ≡ 1))) }
    ensures line_report { IfErr result (λ e. OnLine e (λ line. Told (S.told source.old).left
        (λ script. Holds (K.told sink.old).holds (script_ending script).text (K.told sink.new).holds))) }
    ensures line_number { IfErr result (λ e. OnLine e (λ line. Told (S.told source.old).left
        (λ script. (front : List ℕ) × ((script_ending script).text ≡ front ++ (outside_ending line).text)))) }
    ensures limit_status { IfErr result (λ e. OnLimit e (Told (S.told source.old).left (λ script. (script_ending script).status ≡ 6))) }
    ensures limit_report { IfErr result (λ e. OnLimit e (Told (S.told source.old).left
        (λ script. Holds (K.told sink.old).holds (script_ending script).text (K.told sink.new).holds))) }
    ensures limit_moved { IfErr result (λ e. OnLimit e (raised (S.told source.old).moved (line_limit + 1) ≤ (S.told source.new).moved)) }
    ensures never_refused { IfErr result (λ e. OnRefused e (λ line. ⊥)) }
    ensures read_fault { IfErr result (λ e. OnReadFault e (Rose (S.told source.old).faults (S.told source.new).faults)) }
    ensures write_fault { IfErr result (λ e. OnWriteFault e (Rose (K.told sink.old).faults (K.told sink.new).faults)) }
    ensures taken { (S.told source.new).moved ≤ (S.told source.old).moved + (INPUT_LIMIT + 1) }
    ensures source_faults { (S.told source.old).faults ≤ (S.told source.new).faults }
    ensures sink_faults { (K.told sink.old).faults ≤ (K.told sink.new).faults }
    ensures turns { Told (S.told source.old).left (λ script. IsReportOf (script_turns script) (script_stop script) (script_ending script)) }
    ensures load_bound { Told (S.told source.old).left (λ script. BoundsLoads (script_turns script)) }
    ensures stands { Told (S.told source.old).left (λ script. StandsAtScanEnds (script_turns script)) }
    ensures complete { Told (S.told source.old).left (λ script. AnswersAreComplete (script_turns script)) }
{
    cds_script::laws::script_turns_may_be();
    cds_script::laws::reports_are_of_turns();
    cds_script::laws::all_turns_bound_loads();
    cds_script::laws::all_turns_stand_at_scan_ends();
    cds_script::laws::all_answers_are_complete();
    crate::laws::straight_reports_are_the_scripts();
    replay_by(alloc, source, sink, &Straight)
}

/// Plays a script whose server and replica have a wire between them. Each read goes to the server as a control request, and the
/// replica takes the bytes that the wire leaves of the reply.
///
/// The report is what the script's turns write, one after the other, and then its last line (`reported`). The turns go by what
/// the bytes are read as that the wire left. Rows follow each line `stands` in it. One of these replies showed for the id of each
/// row its content and its objectUpdateID (`asks`). If the replica refuses what a line gives it, the report of the lines before
/// is written, and the replay ends. Over a wire that leaves each reply as it is, the report is the script's (`straight_report`).
pub fn replay_by<S: Source, K: Sink, W: Wire>(
    alloc: Global,
    source: &mut S,
    sink: &mut K,
    wire: &W,
) -> Result<(), ReplayError>
    ensures ok { OnOk result (Told (S.told source.old).left (λ script. OnWire (W.carried wire.now) script (Reports None 0 (K.told sink.old).holds (K.told sink.new).holds))) }
    ensures ok_end { OnOk result (Told (S.told source.old).left (λ script. (S.told source.new).left ≡ Some [])) }
    ensures ok_moved { OnOk result ((S.told source.new).moved ≤ raised (S.told source.old).moved INPUT_LIMIT) }
    ensures line_report { IfErr result (λ e. OnLine e (λ line. Told (S.told source.old).left
        (λ script. OnWire (W.carried wire.now) script (Reports None 1 (K.told sink.old).holds (K.told sink.new).holds)))) }
    ensures line_number { IfErr result (λ e. OnLine e (λ line. Told (S.told source.old).left
        (λ script. OnWire (W.carried wire.now) script (EndsWith (outside_ending line).text)))) }
    ensures limit_report { IfErr result (λ e. OnLimit e (Told (S.told source.old).left
        (λ script. OnWire (W.carried wire.now) script (Reports None 6 (K.told sink.old).holds (K.told sink.new).holds)))) }
    ensures limit_moved { IfErr result (λ e. OnLimit e (raised (S.told source.old).moved (line_limit + 1) ≤ (S.told source.new).moved)) }
    ensures refused_report { IfErr result (λ e. OnRefused e (λ line. Told (S.told source.old).left
        (λ script. OnWire (W.carried wire.now) script (Reports (Some line) 0 (K.told sink.old).holds (K.told sink.new).holds)))) }
    ensures straight { ((bytes : List ℕ) → W.carried wire.now bytes ≡ bytes) → IfErr result (λ e. OnRefused e (λ line. ⊥)) }
    ensures read_fault { IfErr result (λ e. OnReadFault e (Rose (S.told source.old).faults (S.told source.new).faults)) }
    ensures write_fault { IfErr result (λ e. OnWriteFault e (Rose (K.told sink.old).faults (K.told sink.new).faults)) }
    ensures taken { (S.told source.new).moved ≤ (S.told source.old).moved + (INPUT_LIMIT + 1) }
    ensures source_faults { (S.told source.old).faults ≤ (S.told source.new).faults }
    ensures sink_faults { (K.told sink.old).faults ≤ (K.told sink.new).faults }
    ensures asks { Told (S.told source.old).left (λ script. (ending : WiredEnding) → EndsOver (W.carried wire.now) script ending → AsksShow ending.steps) }
    ensures once { Told (S.told source.old).left (λ script. (one other : WiredEnding) → EndsOver (W.carried wire.now) script one →
        EndsOver (W.carried wire.now) script other → one ≡ other) }
    ensures reported { Told (S.told source.old).left (λ script. (ending : WiredEnding) → EndsOver (W.carried wire.now) script ending →
        IsReported (W.carried wire.now) script ending) }
    ensures straight_report { ((bytes : List ℕ) → W.carried wire.now bytes ≡ bytes) → Told (S.told source.old).left
        (λ script. (ending : WiredEnding) → EndsOver (W.carried wire.now) script ending → IsTheScripts script ending) }
{
    crate::laws::asks_write_what_was_left();
    crate::laws::wires_end_once();
    crate::laws::wires_report_steps();
    crate::laws::straight_reports_are_the_scripts();
    let mut buffer = empty_piece(alloc)?;
    let mut script = Script::new(alloc)?;
    play_on(
        alloc,
        wire,
        &mut script,
        buffer.as_mut_slice(),
        source,
        sink,
    )
}

/// Plays what a source still gives of a script, piece by piece through the buffer.
fn play_on<W: Wire, S: Source, K: Sink>(
    alloc: Global,
    wire: &W,
    script: &mut Script,
    buffer: &mut [u8],
    source: &mut S,
    sink: &mut K,
) -> Result<(), ReplayError>
    requires sound { Sound (W.carried wire.now) script.old }
    requires some { 0 < length buffer.old }
    ensures well { (bytes : List ℕ) → GoesOn (W.carried wire.now) script.old [] [] → (S.told source.old).left ≡ Some bytes →
        OnOk result (EndsIn (W.carried wire.now) bytes [] (K.told sink.old).holds (K.told sink.new).holds) }
    ensures end { (bytes : List ℕ) → GoesOn (W.carried wire.now) script.old [] [] → (S.told source.old).left ≡ Some bytes →
        OnOk result ((S.told source.new).left ≡ Some []) }
    ensures stops { (bytes : List ℕ) → GoesOn (W.carried wire.now) script.old [] [] → (S.told source.old).left ≡ Some bytes →
        IfErr result (λ e. Stopped (W.carried wire.now) e bytes [] (K.told sink.old).holds (K.told sink.new).holds) }
    ensures moved { OnOk result ((S.told source.new).moved ≤ raised (S.told source.old).moved (left_in script.old)) }
    ensures limit { IfErr result (λ e. OnLimit e (raised (S.told source.old).moved (left_in script.old + line_limit + 1 - script_limit) ≤ (S.told source.new).moved)) }
    ensures read_fault { IfErr result (λ e. OnReadFault e (Rose (S.told source.old).faults (S.told source.new).faults)) }
    ensures straight { ((bytes : List ℕ) → W.carried wire.now bytes ≡ bytes) → IfErr result (λ e. OnRefused e (λ line. ⊥)) }
    ensures write_fault { IfErr result (λ e. OnWriteFault e (Rose (K.told sink.old).faults (K.told sink.new).faults)) }
    ensures taken { (S.told source.new).moved ≤ (S.told source.old).moved + (left_in script.old + 1) }
    ensures source_faults { (S.told source.old).faults ≤ (S.told source.new).faults }
    ensures sink_faults { (K.told sink.old).faults ≤ (K.told sink.new).faults }
{
    loop {
        match read_piece(source, buffer, script.left()) {
            Err(Failed) => return Err(ReplayError::ReadFault),
            Ok(0) => return finish(alloc, wire, script, sink),
            Ok(count) => {
                let (piece, _) = buffer.split_at(count);
                take_piece(alloc, wire, script, piece, sink)?;
            }
        }
    }
}

/// Plays a piece of a script. What a line adds to the report is written before the next line is looked at, so the answers of a
/// piece never stand in memory together.
fn take_piece<W: Wire, K: Sink>(
    alloc: Global,
    wire: &W,
    script: &mut Script,
    piece: &[u8],
    sink: &mut K,
) -> Result<(), ReplayError>
    requires { Sound (W.carried wire.now) script.old }
    ensures goes { (before written : List ℕ) → GoesOn (W.carried wire.now) script.old before written →
        OnOk result (Played (W.carried wire.now) before written piece.now (K.told sink.old).holds (K.told sink.new).holds script.new) }
    ensures sound { OnOk result (Sound (W.carried wire.now) script.new) }
    ensures left { OnOk result (left_in script.new + length piece.now ≡ left_in script.old) }
    ensures stops { (before written more : List ℕ) → GoesOn (W.carried wire.now) script.old before written → IfErr result
        (λ e. Stopped (W.carried wire.now) e ((before ++ piece.now) ++ more) written (K.told sink.old).holds (K.told sink.new).holds) }
    ensures limit { IfErr result (λ e. OnLimit e (left_in script.old + line_limit < script_limit + length piece.now)) }
    ensures no_read { IfErr result (λ e. OnReadFault e ⊥) }
    ensures straight { ((bytes : List ℕ) → W.carried wire.now bytes ≡ bytes) → IfErr result (λ e. OnRefused e (λ line. ⊥)) }
    ensures write_fault { IfErr result (λ e. OnWriteFault e (Rose (K.told sink.old).faults (K.told sink.new).faults)) }
    ensures never_falls { (K.told sink.old).faults ≤ (K.told sink.new).faults }
{
    let mut rest = piece;
    while let Some((line, after)) = cut_line(rest) {
        take_line(alloc, wire, script, line, sink)?;
        rest = after;
    }
    keep_rest(alloc, wire, script, rest, sink)
}

/// Plays the line that ends with these bytes and an LF, and writes what it adds to the report.
fn take_line<W: Wire, K: Sink>(
    alloc: Global,
    wire: &W,
    script: &mut Script,
    line: &[u8],
    sink: &mut K,
) -> Result<(), ReplayError>
    requires sound { Sound (W.carried wire.now) script.old }
    requires whole { is_unbroken line.now ≡ true }
    ensures goes { (before written : List ℕ) → GoesOn (W.carried wire.now) script.old before written →
        OnOk result (Played (W.carried wire.now) before written (line.now ++ 10 ∷ []) (K.told sink.old).holds (K.told sink.new).holds script.new) }
    ensures sound { OnOk result (Sound (W.carried wire.now) script.new) }
    ensures left { OnOk result (left_in script.new + (length line.now + 1) ≡ left_in script.old) }
    ensures stops { (before written more : List ℕ) → GoesOn (W.carried wire.now) script.old before written → IfErr result
        (λ e. Stopped (W.carried wire.now) e ((before ++ (line.now ++ 10 ∷ [])) ++ more) written (K.told sink.old).holds (K.told sink.new).holds) }
    ensures limit { IfErr result (λ e. OnLimit e (left_in script.old + line_limit < script_limit + (length line.now + 1))) }
    ensures no_read { IfErr result (λ e. OnReadFault e ⊥) }
    ensures straight { ((bytes : List ℕ) → W.carried wire.now bytes ≡ bytes) → IfErr result (λ e. OnRefused e (λ line. ⊥)) }
    ensures write_fault { IfErr result (λ e. OnWriteFault e (Rose (K.told sink.old).faults (K.told sink.new).faults)) }
    ensures never_falls { (K.told sink.old).faults ≤ (K.told sink.new).faults }
{
    let mut out = String::new(alloc);
    let stop = script.end_line(alloc, wire, line, &mut out)?;
    write_out(sink, out.as_bytes(), stop)
}

/// Keeps the rest of a piece, which has no LF, and writes what this adds to the report. It adds at most that a limit was passed.
fn keep_rest<W: Wire, K: Sink>(
    alloc: Global,
    wire: &W,
    script: &mut Script,
    rest: &[u8],
    sink: &mut K,
) -> Result<(), ReplayError>
    requires sound { Sound (W.carried wire.now) script.old }
    requires whole { is_unbroken rest.now ≡ true }
    ensures goes { (before written : List ℕ) → GoesOn (W.carried wire.now) script.old before written →
        OnOk result (Played (W.carried wire.now) before written rest.now (K.told sink.old).holds (K.told sink.new).holds script.new) }
    ensures sound { OnOk result (Sound (W.carried wire.now) script.new) }
    ensures left { OnOk result (left_in script.new + length rest.now ≡ left_in script.old) }
    ensures stops { (before written more : List ℕ) → GoesOn (W.carried wire.now) script.old before written → IfErr result
        (λ e. Stopped (W.carried wire.now) e ((before ++ rest.now) ++ more) written (K.told sink.old).holds (K.told sink.new).holds) }
    ensures limit { IfErr result (λ e. OnLimit e (left_in script.old + line_limit < script_limit + length rest.now)) }
    ensures no_read { IfErr result (λ e. OnReadFault e ⊥) }
    ensures straight { ((bytes : List ℕ) → W.carried wire.now bytes ≡ bytes) → IfErr result (λ e. OnRefused e (λ line. ⊥)) }
    ensures write_fault { IfErr result (λ e. OnWriteFault e (Rose (K.told sink.old).faults (K.told sink.new).faults)) }
    ensures never_falls { (K.told sink.old).faults ≤ (K.told sink.new).faults }
{
    let _ = wire;
    let mut out = String::new(alloc);
    let stop = script.keep(alloc, rest, &mut out)?;
    write_out(sink, out.as_bytes(), stop)
}

/// Ends a script whose last byte has come, and writes what this adds to the report.
fn finish<W: Wire, K: Sink>(
    alloc: Global,
    wire: &W,
    script: &mut Script,
    sink: &mut K,
) -> Result<(), ReplayError>
    requires { Sound (W.carried wire.now) script.old }
    ensures well { (before written : List ℕ) → GoesOn (W.carried wire.now) script.old before written →
        OnOk result (EndsIn (W.carried wire.now) before written (K.told sink.old).holds (K.told sink.new).holds) }
    ensures stops { (before written : List ℕ) → GoesOn (W.carried wire.now) script.old before written →
        IfErr result (λ e. Stopped (W.carried wire.now) e before written (K.told sink.old).holds (K.told sink.new).holds) }
    ensures no_limit { IfErr result (λ e. OnLimit e ⊥) }
    ensures no_read { IfErr result (λ e. OnReadFault e ⊥) }
    ensures straight { ((bytes : List ℕ) → W.carried wire.now bytes ≡ bytes) → IfErr result (λ e. OnRefused e (λ line. ⊥)) }
    ensures write_fault { IfErr result (λ e. OnWriteFault e (Rose (K.told sink.old).faults (K.told sink.new).faults)) }
    ensures never_falls { (K.told sink.old).faults ≤ (K.told sink.new).faults }
{
    let mut out = String::new(alloc);
    let stop = script.finish(alloc, wire, &mut out)?;
    write_out(sink, out.as_bytes(), stop)
}

/// Writes a text, and returns the stop that it ends with.
pub fn write_out<K: Sink>(
    sink: &mut K,
    text: &[u8],
    stop: Option<ScriptStop>,
) -> Result<(), ReplayError>
    ensures answer { (result ≡ Err ReplayError.WriteFault) ⊎ (result ≡ answer_of stop) }
    ensures held { (result ≡ answer_of stop) → Holds (K.told sink.old).holds text.now (K.told sink.new).holds }
    ensures write_fault { IfErr result (λ e. OnWriteFault e (Rose (K.told sink.old).faults (K.told sink.new).faults)) }
    ensures never_falls { (K.told sink.old).faults ≤ (K.told sink.new).faults }
{
    match write_all(sink, text) {
        Err(Failed) => return Err(ReplayError::WriteFault),
        Ok(()) => {}
    }
    match stop {
        None => Ok(()),
        Some(ScriptStop::Outside { line }) => Err(ReplayError::Line { line }),
        Some(ScriptStop::Limit) => Err(ReplayError::Limit),
        Some(ScriptStop::Refused { line }) => Err(ReplayError::Refused { line }),
    }
}
