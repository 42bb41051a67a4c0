//! The parts of documents that come in pieces.

ghost use Rattle.std.specs.Prelude.{◌≡◌, ◌≤◌, ◌+◌, true, if◌then◌else◌, ℕ, List, [], ◌∷◌, length, Ok, Err, Some, None, IsOkAnd};
ghost use Rattle.cds_markup.specs.declared.error.MarkupError.TheVariants.{Failed};
ghost use Rattle.cds_markup.specs.declared.part.Part.{Part};
ghost use Rattle.cds_markup.specs.Taking.{Takes};
ghost use Rattle.cds_markup.specs.Tellings.{ToldSo, Puts, told_byte, told, told_piece, last_parts, shown, telling_of, telling_in, listed, begin_telling};
ghost use Rattle.cds_markup.specs.Reads.{reading_of};
ghost use Rattle.cds_markup.specs.Runs.{RunSo, takes_run};
ghost use Rattle.cds_markup.specs.Feeding.{StandsFor, TakesPiece, TakesEnd};

use crate::cursor::Cursor;
use crate::event::Event;
use crate::marks::{Marks, OpenText};
use crate::plain::behind;
use crate::{MarkupError, Part, PartSink};
use cds_base::{INPUT_LIMIT, Mem};
use std::alloc::Global;
use std::fmt;
use std::fmt::{Debug, Formatter};
use std::marker::Model;

/// A machine at a place of the input, with what is open there.
#[derive(Drop)]
pub struct Spot {
    /// The machine and its place.
    pub cursor: Cursor,
    /// What is open.
    pub marks: Marks,
}

/// Gives the parts of a document that comes in pieces, without keeping the bytes. Contracts see what is read so far and what is
/// open. They see `None` after a refusal, also one for memory, and once what takes the parts has enough.
#[derive(Drop)]
pub struct PartReader {
    spot: Option<Spot>,
}

impl Model for PartReader {
    ghost use Rattle.std.specs.Prelude.{Option};
    ghost use Rattle.cds_markup.specs.Tellings.{Telling, telling_in};

    ghost Value = { Option Telling };

    ghost view = { λ r. telling_in r.spot };
}

/// Prints its name alone. A derived form of all that it holds would be hard to prove, and nothing prints it.
impl Debug for PartReader {
    fn fmt<W: fmt::Write>(&self, f: &mut Formatter<W>) -> fmt::Result {
        f.debug_struct("PartReader").finish_non_exhaustive()
    }
}

/// Gives the part, if there is one and it is wanted.
fn put<S: PartSink>(part: Option<Part>, to: &mut S) -> Result<(), MarkupError>
    ensures { Puts (Takes S.took S.enough) to.old (listed part) result to.new }
{
    match part {
        Some(part) => {
            if !to.has_enough() {
                to.take(part)?;
            }
            Ok(())
        }
        None => Ok(()),
    }
}

/// Gives the part before a fault. Returns the refusal, unless no more is wanted.
fn refuse<S: PartSink>(
    part: Option<Part>,
    refusal: MarkupError,
    to: &mut S,
) -> Result<(), MarkupError>
    ensures { ToldSo (Takes S.took S.enough) S.enough to.old (Err (listed part, refusal)) result to.new begin_telling }
{
    put(part, to)?;
    if to.has_enough() {
        Ok(())
    } else {
        Err(refusal)
    }
}

impl Spot {
    /// Returns the first place.
    pub fn new(alloc: Global) -> Self
        ensures { telling_of result ≡ begin_telling }
    {
        Spot {
            cursor: Cursor::new(alloc),
            marks: Marks::new(),
        }
    }

    /// Gives the open literal text as far as it goes. The text goes on after what is read.
    fn show<S: PartSink>(&mut self, alloc: Global, to: &mut S) -> Result<(), MarkupError>
        ensures { ToldSo (Takes S.took S.enough) S.enough to.old (Ok (last_parts (telling_of self.old), shown (telling_of self.old))) result to.new (telling_of self.new) }
    {
        let first = self.cursor.first();
        let open = self.cursor.machine.cuts_text();
        put(self.marks.show(alloc, open, first), to)
    }

    /// Reads one byte more.
    fn byte<S: PartSink>(&mut self, alloc: Global, b: u8, to: &mut S) -> Result<(), MarkupError>
        ensures { ToldSo (Takes S.took S.enough) S.enough to.old (told_byte (telling_of self.old) b) result to.new (telling_of self.new) }
    {
        let at = self.cursor.at;
        let first = self.cursor.first();
        let open = self.cursor.machine.cuts_text();
        let between = self.cursor.machine.mode.is_between();
        match self.cursor.next(alloc, b) {
            Ok(Some(event)) => {
                let part = self.marks.complete(alloc, at, first, event)?;
                put(part, to)
            }
            Ok(None) => {
                let begins = self.cursor.machine.mode.begins(between);
                put(self.marks.pass(begins, at), to)
            }
            Err(refusal) => match refusal {
                MarkupError::Mem => Err(refusal),
                other => refuse(self.marks.last(alloc, open, first), other, to),
            },
        }
    }

    /// Passes over a `<`, which stands before these bytes. No literal text is open before.
    fn pass_less(&mut self, rest: &[u8])
        requires takes { takes_run (reading_of self.old.cursor.machine) ≡ true }
        requires none { self.old.marks.text ≡ None }
        requires room { self.old.cursor.at + length rest.now + 1 ≤ INPUT_LIMIT }
        ensures { RunSo (telling_of self.old) (60 ∷ rest.now) (Ok 1) (telling_of self.new) }
    {
        self.marks.begin = self.cursor.at;
        self.cursor.machine.mode.begin_less();
        self.cursor.at += 1;
    }

    /// Passes over the first characters of a literal text. These are white space alone, or letters of which the first is not
    /// white space. No literal text is open before. Returns how many bytes it passed over.
    #[inline(never)]
    fn begin_run(&mut self, alloc: Global, bytes: &[u8]) -> Result<usize, Mem>
        requires takes { takes_run (reading_of self.old.cursor.machine) ≡ true }
        requires none { self.old.marks.text ≡ None }
        requires room { self.old.cursor.at + length bytes.now ≤ INPUT_LIMIT }
        ensures { RunSo (telling_of self.old) bytes.now result (telling_of self.new) }
    {
        let at = self.cursor.at;
        let Some((first, _behind)) = bytes.split_first() else {
            return Ok(0);
        };
        let mut text = OpenText::before(alloc, at, *first);
        let count = text.run(bytes)?;
        if count > 0 {
            self.marks.text = Some(text);
            self.cursor.at += count;
        }
        Ok(count)
    }

    /// Passes over the first bytes that complete nothing, all of them within the limit. Returns how many.
    fn run_within(&mut self, alloc: Global, bytes: &[u8]) -> Result<usize, Mem>
        requires { self.old.cursor.at + length bytes.now ≤ INPUT_LIMIT }
        ensures { RunSo (telling_of self.old) bytes.now result (telling_of self.new) }
    {
        if self.cursor.machine.takes_run() {
            let Some(text) = &mut self.marks.text else {
                if let Some(rest) = behind(bytes, b'<') {
                    self.pass_less(rest);
                    return Ok(1);
                }
                return self.begin_run(alloc, bytes);
            };
            let count = text.run(bytes)?;
            self.cursor.at += count;
            return Ok(count);
        }
        let count = self.cursor.machine.run(alloc, bytes)?;
        self.cursor.at += count;
        Ok(count)
    }

    /// Passes over the first bytes that complete nothing. Returns how many.
    fn run(&mut self, alloc: Global, bytes: &[u8]) -> Result<usize, Mem>
        ensures { RunSo (telling_of self.old) bytes.now result (telling_of self.new) }
    {
        if self.cursor.at >= INPUT_LIMIT {
            return Ok(0);
        }
        let room = (INPUT_LIMIT - self.cursor.at).min(bytes.len());
        self.run_within(alloc, bytes.split_at(room).0)
    }

    /// Reads these bytes, as long as more parts are wanted.
    fn pass<S: PartSink>(
        &mut self,
        alloc: Global,
        piece: &[u8],
        to: &mut S,
    ) -> Result<(), MarkupError>
        ensures { ToldSo (Takes S.took S.enough) S.enough to.old (told (telling_of self.old) piece.now) result to.new (telling_of self.new) }
    {
        let mut left = piece;
        while let Some((first, rest)) = left.split_first() {
            if to.has_enough() {
                return Ok(());
            }
            let count = self.run(alloc, left)?;
            if count > 0 {
                left = left.split_at(count).1;
                continue;
            }
            if let Err(refusal) = self.byte(alloc, *first, to) {
                return Err(refusal);
            }
            left = rest;
        }
        Ok(())
    }

    /// Reads a piece, and gives the literal text that is open after it as far as it goes.
    pub fn piece<S: PartSink>(
        &mut self,
        alloc: Global,
        piece: &[u8],
        to: &mut S,
    ) -> Result<(), MarkupError>
        ensures { ToldSo (Takes S.took S.enough) S.enough to.old (told_piece (telling_of self.old) piece.now) result to.new (telling_of self.new) }
    {
        self.pass(alloc, piece, to)?;
        self.show(alloc, to)
    }

    /// Returns the place to go on from, unless no more is wanted.
    fn unless(self, enough: bool) -> Option<Self>
        ensures { telling_in result ≡ (if enough then None else Some (telling_of self)) }
    {
        if enough { None } else { Some(self) }
    }
}

impl PartReader {
    /// Returns a reader to which nothing came yet. It takes no memory so far.
    pub fn new(alloc: Global) -> Result<Self, Mem>
        ensures { IsOkAnd result (λ r. StandsFor r [] []) }
    {
        Ok(PartReader {
            spot: Some(Spot::new(alloc)),
        })
    }

    /// Reads the next piece. What its bytes complete is given, and an open literal text as far as it goes. A text that pieces cut
    /// comes in several runs of one place.
    ///
    /// The piece is refused if a byte of it decides that no document begins so, whatever comes after. Then what stands before the
    /// fault is given, as far as its whole characters go. If what takes the parts has enough, the bytes after that are not read,
    /// and the answer is `Ok`. Later calls answer `Failed` and give nothing, as they do after a refusal or `Mem`.
    pub fn feed<S: PartSink>(
        &mut self,
        alloc: Global,
        piece: &[u8],
        to: &mut S,
    ) -> Result<(), MarkupError>
        ensures takes { (came : List ℕ) (given : List Part) → StandsFor self.old came given
            → TakesPiece (Takes S.took S.enough) S.enough came given piece.now result to.old to.new self.new }
        ensures failed { self.old ≡ None → (result ≡ Err Failed) × (to.new ≡ to.old) × (self.new ≡ None) }
    {
        let Some(mut spot) = self.spot.take() else {
            return Err(MarkupError::Failed);
        };
        spot.piece(alloc, piece, to)?;
        drop(std::mem::replace(&mut self.spot, spot.unless(to.has_enough())));
        Ok(())
    }

    /// Ends the input, before which all parts were given. `Failed` comes only if a piece was refused, memory ran out, or what
    /// took the parts had enough.
    pub fn finish(self) -> Result<(), MarkupError>
        ensures ends { (came : List ℕ) (given : List Part) → StandsFor self came given → TakesEnd came given result }
        ensures failed { self ≡ None → result ≡ Err Failed }
    {
        let Some(spot) = self.spot else {
            return Err(MarkupError::Failed);
        };
        spot.cursor.end()
    }
}
