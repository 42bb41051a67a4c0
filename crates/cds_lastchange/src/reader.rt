//! Reading StateEvents, which come in pieces.

ghost use Rattle.std.specs.Prelude.{◌≡◌, None, Err, IsOkAnd, []};
ghost use Rattle.std.specs.List.{list_all};
ghost use Rattle.cds_base.specs.Characters.{is_blank};
ghost use Rattle.cds_lastchange.specs.declared.error.StateError.TheVariants.{Failed as IsFailed};
ghost use Rattle.cds_lastchange.specs.Judged.{ended_so, refused_so};
ghost use Rattle.cds_lastchange.specs.Feeding.{IsRead, Fed, Finished};

use crate::judge::Judge;
use crate::sink::Judging;
use crate::{Events, StateError};
use cds_base::Mem;
use cds_markup::{MarkupError, PartReader};
use std::alloc::Global;
use std::fmt;
use std::fmt::{Debug, Formatter};
use std::marker::Model;

/// Returns whether there is nothing but white space.
fn is_blank(bytes: &[u8]) -> bool
    ensures { result ≡ list_all is_blank bytes.now }
{
    bytes.iter().all(|b| *b == b' ' || *b == b'\t' || *b == b'\n' || *b == b'\r')
}

/// Returns the answer to a piece. `read` is what reading the parts so far answered. `misplaced` is the place of the first part
/// that does not stand.
fn refused(read: Result<(), MarkupError>, misplaced: Option<usize>) -> Result<(), StateError>
    ensures { result ≡ refused_so read misplaced }
{
    if let Err(MarkupError::Mem) = read {
        return Err(StateError::Mem);
    }
    if let Err(MarkupError::Failed) = read {
        return Err(StateError::Failed);
    }
    if let Some(at) = misplaced {
        return Err(StateError::NotStateEvent { at });
    }
    match read {
        Ok(()) => Ok(()),
        Err(refusal) => Err(StateError::from(refusal)),
    }
}

/// Returns the answer at the end. `read` is what reading the parts answered, and `said` what they say. `blank` says whether
/// nothing but white space came.
fn ended(
    alloc: Global,
    read: Result<(), MarkupError>,
    blank: bool,
    said: Result<Judge, usize>,
) -> Result<Events, StateError>
    ensures { result ≡ ended_so read blank said }
{
    if let Err(MarkupError::Failed) = read {
        return Err(StateError::Failed);
    }
    if blank {
        return Ok(Events::new(alloc));
    }
    if let Err(refusal) = read {
        return Err(StateError::from(refusal));
    }
    match said {
        Ok(judge) => Ok(judge.events),
        Err(at) => Err(StateError::NotStateEvent { at }),
    }
}

/// Reads a StateEvent that comes in pieces, without keeping them. Contracts see what is read so far, what the parts so far say,
/// and whether nothing but white space came. After a refusal, also one for memory, they see nothing read.
#[derive(Drop)]
pub struct StateReader {
    parts: PartReader,
    judging: Judging,
    blank: bool,
}

impl Model for StateReader {
    ghost use Rattle.cds_lastchange.specs.Feeding.{Came, came};

    ghost Value = { Came };

    ghost view = { λ r. came r.parts r.judging r.blank };
}

/// Prints its name alone. A derived form of all that it holds would be hard to prove, and nothing prints it.
impl Debug for StateReader {
    fn fmt<W: fmt::Write>(&self, f: &mut Formatter<W>) -> fmt::Result {
        f.debug_struct("StateReader").finish_non_exhaustive()
    }
}

impl StateReader {
    /// Returns a reader to which nothing came yet. It takes no memory so far.
    pub fn new(alloc: Global) -> Result<Self, Mem>
        ensures { IsOkAnd result (λ r. IsRead [] r) }
    {
        Ok(StateReader {
            parts: PartReader::new(alloc)?,
            judging: Judging::new(alloc),
            blank: true,
        })
    }

    /// Reads the next piece. It is refused if a byte of it decides so, whatever comes after. That byte depends on the refusal:
    ///
    /// - For `Bad` it is the byte at its place.
    /// - For `NotStateEvent` it is the byte that ends the tag, the reference or the section at its place, or begins the character
    ///   there.
    /// - For `TooLong` it is the byte after 67,108,864 others.
    ///
    /// After a refusal, also after `Mem`, each call answers `Failed`.
    pub fn feed(&mut self, alloc: Global, piece: &[u8]) -> Result<(), StateError>
        ensures fed { Fed self.old piece.now result self.new }
        ensures failed { self.old.parts ≡ None → (result ≡ Err IsFailed) × (self.new.parts ≡ None) }
    {
        self.blank = self.blank && is_blank(piece);
        let read = self.parts.feed(alloc, piece, &mut self.judging);
        refused(read, self.judging.misplaced())
    }

    /// Ends the input. Returns the events, or why the bytes that came are none. `Bad` has the place where they break as a
    /// document. `NotStateEvent` has one of these places:
    ///
    /// - the `<` of an element that may not stand there or lacks what it needs;
    /// - the start of a reference or a CDATA section;
    /// - a character that is not white space.
    ///
    /// The answer is the fault that shows first in reading order. If one byte shows two, it is that of the document. All faults
    /// except those of the end itself were already the answer of a piece. `Failed` comes only if a piece was refused or memory
    /// ran out.
    pub fn finish(self, alloc: Global) -> Result<Events, StateError>
        ensures finished { Finished self result }
        ensures failed { self.parts ≡ None → result ≡ Err IsFailed }
    {
        let StateReader {
            parts,
            judging,
            blank,
        } = self;
        ended(alloc, parts.finish(), blank, judging.into_said())
    }
}
