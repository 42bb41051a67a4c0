//! A script that comes part by part. Each line is answered as soon as it has ended.

ghost use Rattle.std.specs.Prelude.{◌≡◌, ℕ, ◌+◌, ◌<◌, ◌≤◌, ◌++◌, ◌^◌, [], ◌∷◌, List, Some, true, length, IfOk, OnOk, MatchOption, string_bytes};
ghost use Rattle.cds_script.specs.declared.turn.Meaning.TheVariants.{Means};
ghost use Rattle.cds_script.specs.Lines.{is_unbroken, line_limit, script_limit};
ghost use Rattle.cds_script.specs.Script.{IsInRange, meaning_of};
ghost use Rattle.cds_replay.specs.declared.script.ScriptStop.TheVariants.{Outside};
ghost use Rattle.cds_replay.specs.Wired.{ReplayStep};
ghost use Rattle.cds_replay.specs.Session.{IsAfter, IsPlayed, IsBounded, Grows};
ghost use Rattle.cds_replay.specs.Script.{stop_text, left_in, Sound, GoesOn, Fed, Finished, WhileGoing, AtLimit, AtRefusal, LineRead};

use crate::session::{Session, TurnError};
use crate::wire::Wire;
use cds_base::{INPUT_LIMIT, Mem, put, put_number};
use cds_script::{Meaning, ScriptTurn, read_line};
use memchr::memchr;
use std::alloc::Global;
use std::mem::replace;

/// How many bytes a line has at most, without its LF.
const LINE_LIMIT: usize = 4_096;

/// Why a script ends before its last byte.
#[derive(Clone, Copy)]
pub enum ScriptStop {
    /// The line of this number, counted from 1, is outside the grammar.
    Outside { line: u32 },
    /// The script or a line of it is too long.
    Limit,
    /// The replica refused what the line of this number, counted from 1, gave it.
    Refused { line: u32 },
}

/// A script that has come in part. The report goes on at the end of the text that each call is given.
#[derive(Drop)]
pub struct Script {
    session: Session,
    /// The bytes so far of the line that has not ended.
    partial: Vec<u8>,
    /// The number of that line, counted from 1.
    line: u32,
    /// How many bytes the script may still have from the start of that line on.
    room: usize,
}

impl Script {
    /// Returns a script before any byte of it has come.
    pub fn new(alloc: Global) -> Result<Script, Mem>
        ensures sound { (carried : List ℕ → List ℕ) → IfOk result (Sound carried) }
        ensures left { IfOk result (λ script. left_in script ≡ script_limit) }
        ensures goes { (carried : List ℕ → List ℕ) → IfOk result (λ script. GoesOn carried script [] []) }
    {
        let session = Session::new(alloc)?;
        Ok(Script {
            session,
            partial: Vec::new(alloc),
            line: 1,
            room: INPUT_LIMIT,
        })
    }

    /// Returns how many more bytes the script may have.
    pub fn left(&self) -> usize
        requires { length self.now.partial.items ≤ self.now.room }
        ensures { result ≡ left_in self.now }
    {
        self.room - self.partial.len()
    }

    /// Answers the last line, if it has no LF.
    pub fn finish<W: Wire>(
        &mut self,
        alloc: Global,
        wire: &W,
        out: &mut String,
    ) -> Result<Option<ScriptStop>, Mem>
        requires { Sound (W.carried wire.now) self.old }
        ensures meaning { (before written : List ℕ) → GoesOn (W.carried wire.now) self.old before written → IfOk result
            (λ stop. Finished (W.carried wire.now) stop before written (string_bytes out.old) (string_bytes out.new)) }
        ensures no_limit { IfOk result (λ stop. AtLimit stop ⊥) }
        ensures straight { ((bytes : List ℕ) → W.carried wire.now bytes ≡ bytes) → IfOk result (λ stop. AtRefusal stop ⊥) }
    {
        if self.partial.is_empty() {
            Ok(None)
        } else {
            let line = replace(&mut self.partial, Vec::new(alloc));
            answer_line(
                &mut self.session,
                alloc,
                wire,
                line.as_slice(),
                self.line,
                out,
            )
        }
    }

    /// Answers the line that ends with these bytes and an LF. After a stop or an error the script is done with.
    pub fn end_line<W: Wire>(
        &mut self,
        alloc: Global,
        wire: &W,
        line: &[u8],
        out: &mut String,
    ) -> Result<Option<ScriptStop>, Mem>
        requires sound { Sound (W.carried wire.now) self.old }
        requires whole { is_unbroken line.now ≡ true }
        ensures meaning { (before written : List ℕ) → GoesOn (W.carried wire.now) self.old before written → IfOk result
            (λ stop. Fed (W.carried wire.now) stop before written (line.now ++ 10 ∷ []) (string_bytes out.old) (string_bytes out.new) self.new) }
        ensures sound { IfOk result (λ stop. WhileGoing stop (Sound (W.carried wire.now) self.new)) }
        ensures left { IfOk result (λ stop. WhileGoing stop (left_in self.new + (length line.now + 1) ≡ left_in self.old)) }
        ensures limit { IfOk result (λ stop. AtLimit stop (left_in self.old + line_limit < script_limit + (length line.now + 1))) }
        ensures straight { ((bytes : List ℕ) → W.carried wire.now bytes ≡ bytes) → IfOk result (λ stop. AtRefusal stop ⊥) }
    {
        if self.partial.is_empty() {
            self.take_line(alloc, wire, line, out)
        } else {
            let mut whole = replace(&mut self.partial, Vec::new(alloc));
            whole.extend_from_slice(line)?;
            self.take_line(alloc, wire, whole.as_slice(), out)
        }
    }

    /// Answers a line, given whole and without its LF.
    fn take_line<W: Wire>(
        &mut self,
        alloc: Global,
        wire: &W,
        line: &[u8],
        out: &mut String,
    ) -> Result<Option<ScriptStop>, Mem>
        requires sound { Sound (W.carried wire.now) self.old }
        requires none { self.old.partial.items ≡ [] }
        requires whole { is_unbroken line.now ≡ true }
        ensures meaning { (before written : List ℕ) → GoesOn (W.carried wire.now) self.old before written → IfOk result
            (λ stop. Fed (W.carried wire.now) stop before written (line.now ++ 10 ∷ []) (string_bytes out.old) (string_bytes out.new) self.new) }
        ensures sound { IfOk result (λ stop. WhileGoing stop (Sound (W.carried wire.now) self.new)) }
        ensures left { IfOk result (λ stop. WhileGoing stop (left_in self.new + (length line.now + 1) ≡ left_in self.old)) }
        ensures limit { IfOk result (λ stop. AtLimit stop (left_in self.old + line_limit < script_limit + (length line.now + 1))) }
        ensures straight { ((bytes : List ℕ) → W.carried wire.now bytes ≡ bytes) → IfOk result (λ stop. AtRefusal stop ⊥) }
    {
        if self.room <= line.len() || LINE_LIMIT < line.len() {
            write_stop(out, ScriptStop::Limit)?;
            return Ok(Some(ScriptStop::Limit));
        }
        let stop = answer_line(&mut self.session, alloc, wire, line, self.line, out)?;
        self.line += 1;
        self.room -= line.len() + 1;
        Ok(stop)
    }

    /// Keeps bytes without an LF for the line that they begin. After a stop or an error the script is done with.
    pub fn keep(
        &mut self,
        alloc: Global,
        rest: &[u8],
        out: &mut String,
    ) -> Result<Option<ScriptStop>, Mem>
        requires kept { is_unbroken self.old.partial.items ≡ true }
        requires short { length self.old.partial.items ≤ line_limit }
        requires within { length self.old.partial.items ≤ self.old.room }
        requires inside { self.old.room ≤ script_limit }
        requires whole { is_unbroken rest.now ≡ true }
        ensures meaning { (carried : List ℕ → List ℕ) (before written : List ℕ) → GoesOn carried self.old before written → IfOk result
            (λ stop. Fed carried stop before written rest.now (string_bytes out.old) (string_bytes out.new) self.new) }
        ensures sound { (carried : List ℕ → List ℕ) → Sound carried self.old → IfOk result (λ stop. WhileGoing stop (Sound carried self.new)) }
        ensures left { IfOk result (λ stop. WhileGoing stop (left_in self.new + length rest.now ≡ left_in self.old)) }
        ensures limit { IfOk result (λ stop. AtLimit stop (left_in self.old + line_limit < script_limit + length rest.now)) }
        ensures not_refused { IfOk result (λ stop. AtRefusal stop ⊥) }
    {
        if self.left() < rest.len() || LINE_LIMIT - self.partial.len() < rest.len() {
            write_stop(out, ScriptStop::Limit)?;
            return Ok(Some(ScriptStop::Limit));
        }
        self.partial.extend_from_slice(rest)?;
        Ok(None)
    }
}

/// Returns the first line and what comes after its LF, if the bytes have an LF.
pub fn cut_line(bytes: &[u8]) -> Option<(&[u8], &[u8])>
    ensures { MatchOption result (is_unbroken bytes.now ≡ true) (λ cut. (is_unbroken cut.0.now ≡ true) × (bytes.now ≡ cut.0.now ++ 10 ∷ cut.1.now)) }
{
    match memchr(b'\n', bytes) {
        None => None,
        Some(at) => {
            let (line, rest) = bytes.split_at(at);
            let (_, after) = rest.split_at(1);
            Some((line, after))
        }
    }
}

/// Does what a line means.
fn answer_line<W: Wire>(
    session: &mut Session,
    alloc: Global,
    wire: &W,
    line: &[u8],
    number: u32,
    out: &mut String,
) -> Result<Option<ScriptStop>, Mem>
    requires played { IsPlayed (W.carried wire.now) session.old }
    requires bounded { IsBounded session.old }
    ensures meaning { (steps : List ReplayStep) → IsAfter session.old steps → IfOk result
        (λ stop. LineRead (W.carried wire.now) stop steps (meaning_of line.now) number (string_bytes out.old) (string_bytes out.new) session.new) }
    ensures grows { IfOk result (λ stop. WhileGoing stop (Grows session.old session.new)) }
    ensures played { IfOk result (λ stop. WhileGoing stop (IsPlayed (W.carried wire.now) session.new)) }
    ensures no_limit { IfOk result (λ stop. AtLimit stop ⊥) }
    ensures straight { ((bytes : List ℕ) → W.carried wire.now bytes ≡ bytes) → IfOk result (λ stop. AtRefusal stop ⊥) }
{
    cds_script::laws::lines_mean_in_range();
    match read_line(alloc, line)? {
        Meaning::Nothing => Ok(None),
        Meaning::Means(turn) => answer_turn(session, alloc, wire, turn, number, out),
        Meaning::Outside => write_outside(out, number),
    }
}

/// Takes a turn if it may stand. Otherwise its line is outside the grammar.
fn answer_turn<W: Wire>(
    session: &mut Session,
    alloc: Global,
    wire: &W,
    turn: ScriptTurn,
    number: u32,
    out: &mut String,
) -> Result<Option<ScriptStop>, Mem>
    requires played { IsPlayed (W.carried wire.now) session.old }
    requires bounded { IsBounded session.old }
    requires fits { IsInRange turn }
    ensures meaning { (steps : List ReplayStep) → IsAfter session.old steps → IfOk result
        (λ stop. LineRead (W.carried wire.now) stop steps (Means turn) number (string_bytes out.old) (string_bytes out.new) session.new) }
    ensures grows { IfOk result (λ stop. WhileGoing stop (Grows session.old session.new)) }
    ensures played { IfOk result (λ stop. WhileGoing stop (IsPlayed (W.carried wire.now) session.new)) }
    ensures no_limit { IfOk result (λ stop. AtLimit stop ⊥) }
    ensures straight { ((bytes : List ℕ) → W.carried wire.now bytes ≡ bytes) → IfOk result (λ stop. AtRefusal stop ⊥) }
{
    if !session.may_stand(&turn) {
        return write_outside(out, number);
    }
    crate::laws::straight_wires_are_taken();
    match session.answer(alloc, wire, turn, out) {
        Ok(()) => Ok(None),
        Err(TurnError::Refused) => Ok(Some(ScriptStop::Refused { line: number })),
        Err(TurnError::Mem) => Err(Mem),
    }
}

/// Writes that the line of a number is outside the grammar.
fn write_outside(out: &mut String, number: u32) -> Result<Option<ScriptStop>, Mem>
    ensures stop { IfOk result (λ stop. stop ≡ Some (Outside number)) }
    ensures written { OnOk result (string_bytes out.new ≡ string_bytes out.old ++ stop_text (Outside number)) }
{
    let stop = ScriptStop::Outside { line: number };
    write_stop(out, stop)?;
    Ok(Some(stop))
}

/// Writes the last line of a script that stops, if it has one. A turn that is refused writes none.
pub fn write_stop(out: &mut String, stop: ScriptStop) -> Result<(), Mem>
    ensures { OnOk result (string_bytes out.new ≡ string_bytes out.old ++ stop_text stop) }
{
    match stop {
        ScriptStop::Outside { line } => {
            put(out, "error line ")?;
            put_number(out, u64::from(line))?;
            put(out, "\n")?;
        }
        ScriptStop::Limit => put(out, "error limit\n")?,
        ScriptStop::Refused { .. } => {}
    }
    Ok(())
}
