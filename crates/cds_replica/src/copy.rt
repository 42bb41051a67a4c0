//! A copy of a catalog that goes on with the changes of notes and with reads.

ghost use Rattle.std.specs.Prelude.{◌≡◌, IfOk, option_copied, slice_get, cond};
ghost use Rattle.std.specs.List.{filter_map};
ghost use Rattle.cds_follow.specs.Copy.{shown_row};
ghost use Rattle.cds_replica.specs.Answer.{read_of};
ghost use Rattle.cds_replica.specs.Steps.{IsStep, copy_takes, row_of_read};
ghost use Rattle.cds_replica.specs.CopyState.{AreAbove, bare_rows, lesser_of, least_wanted};
ghost use Rattle.cds_replica.specs.CopySteps.{IsHeard, count_from, leap_from, copy_read, version_of, can_be_of};

use crate::AnswerError;
use crate::copy_row::CopyRow;
use crate::copy_rows::{additions, change_all, read};
use crate::count_error::CountError;
use crate::order::Identified;
use crate::outline::{first_cannot, outlines_of};
use crate::taking::only_row;
use cds_load::{Read, Shown};
use cds_object::{Event, Row, Rows};
use std::alloc::Global;
use std::fmt;
use std::fmt::{Debug, Formatter};
use std::marker::Model;

/// The rows of a copy in ascending order of ids, with what is to be read of them.
#[derive(Drop)]
pub struct CatalogCopy {
    rows: Vec<CopyRow>,
    /// The greatest version that a read showed since the load; 0 if none did.
    read_up_to: u32,
}

impl Model for CatalogCopy {
    ghost use Rattle.cds_replica.specs.CopyState.{KeptCopy};

    ghost Value = { KeptCopy };

    ghost view = { λ c. record { rows = c.rows.items; read_up_to = c.read_up_to } };
}

/// Writes its name alone. Deriving this for all that it holds would cost much to prove, and nothing prints it.
impl Debug for CatalogCopy {
    fn fmt<W: fmt::Write>(&self, f: &mut Formatter<W>) -> fmt::Result {
        f.debug_struct("CatalogCopy").finish_non_exhaustive()
    }
}

/// Returns the refusal with the numbers if the first change is not the one after the position.
pub fn leap(at: u32, events: &[Event]) -> Option<CountError>
    requires { AreAbove at events.now }
    ensures { result ≡ leap_from at events.now }
{
    match events.first() {
        None => None,
        Some(event) => {
            let first = event.update();
            let expected = at + 1;
            if first == expected {
                None
            } else {
                Some(CountError::Jump { expected, first })
            }
        }
    }
}

/// Returns the lesser of the least so far and another id.
fn lesser(least: Option<u32>, id: u32) -> Option<u32>
    ensures { result ≡ lesser_of least (Some id) }
{
    match least {
        None => Some(id),
        Some(other) => Some(other.min(id)),
    }
}

impl CatalogCopy {
    /// Returns a copy of rows, of which nothing was read since the load.
    pub fn new(rows: Vec<CopyRow>) -> CatalogCopy
        ensures { result ≡ record { rows = rows.items; read_up_to = 0 } }
    {
        CatalogCopy {
            rows,
            read_up_to: 0,
        }
    }

    /// Returns the rows, in ascending order of ids.
    pub fn rows(&self) -> &[CopyRow]
        ensures { result.now ≡ self.now.rows }
    {
        self.rows.as_slice()
    }

    /// Returns the greatest version that a read showed since the load; 0 if none did.
    pub fn read_up_to(&self) -> u32
        ensures { result ≡ self.now.read_up_to }
    {
        self.read_up_to
    }

    /// Returns the object of the least id that is to be read.
    pub fn unread(&self) -> Option<u32>
        ensures { result ≡ least_wanted self.now }
    {
        let mut least = None;
        for row in self.rows.iter() {
            if row.is_wanted() {
                least = lesser(least, row.id());
            }
        }
        least
    }

    /// Returns the row at a place among those of which it is known what they say, counted from 0. It takes a walk over the rows.
    pub fn row(&self, at: usize) -> Option<&Row>
        ensures { option_copied result ≡ slice_get (filter_map shown_row (bare_rows self.now)) at }
    {
        let mut left = at;
        for row in self.rows.iter() {
            if let Some(row) = row.row() {
                if left == 0 {
                    return Some(row);
                }
                left -= 1;
            }
        }
        None
    }

    /// Counts changes on the copy, each above the position. `Jump` comes if the first of them is not the one after the position,
    /// and `Torn` if a change cannot be. An addition is of an id that does not stand, under a container that does. A modification
    /// or deletion is of what stands, and never the root's. A deletion is of what has no child. All memory is taken before
    /// anything is changed.
    pub fn count(&mut self, alloc: Global, at: u32, events: &[Event]) -> Result<(), CountError>
        requires { AreAbove at events.now }
        ensures { IsHeard (count_from self.old at events.now) self.old self.new result }
    {
        match leap(at, events) {
            Some(leap) => return Err(leap),
            None => {}
        }
        let outlines = outlines_of(alloc, self.rows.as_slice())?;
        match first_cannot(outlines, events)? {
            Some(id) => return Err(CountError::Torn { id }),
            None => {}
        }
        self.rows.reserve(additions(events))?;
        change_all(&mut self.rows, alloc, events);
        Ok(())
    }

    /// Takes the reply to the read of the object that is to be read next. A refusal leaves the copy as it was: the object is
    /// still to be read.
    pub fn take(&mut self, shown: Shown) -> Result<Read, AnswerError>
        ensures outcome { IsStep (copy_takes self.old (least_wanted self.old) shown) self.old self.new result }
        ensures read { IfOk result (λ read. read ≡ read_of shown) }
    {
        let Some(id) = self.unread() else {
            return Err(AnswerError::Unreadable);
        };
        match shown {
            Shown::Page { rows, .. } => self.take_row(id, rows),
            Shown::Fault { code } => Ok(Read::Fault { code }),
            Shown::Text(_) | Shown::Number(_) => Err(AnswerError::Unreadable),
        }
    }

    /// Takes an object's own row, which is to be shown alone.
    fn take_row(&mut self, id: u32, rows: Rows) -> Result<Read, AnswerError>
        ensures outcome { IsStep (row_of_read self.old id rows) self.old self.new result }
        ensures read { IfOk result (λ read. read ≡ Read.Ok) }
    {
        let Some(row) = only_row(rows) else {
            return Err(AnswerError::Unreadable);
        };
        if self.read(id, row) {
            Ok(Read::Ok)
        } else {
            Err(AnswerError::Torn { id })
        }
    }

    /// Takes an object's own row, if it can be its: it has its id, and the kind that the id has in the copy. Answers whether it
    /// did. A version lower than the one that is kept is passed over.
    pub fn read(&mut self, id: u32, row: Row) -> bool
        ensures answer { result ≡ can_be_of self.old id row }
        ensures after { self.new ≡ cond result (copy_read self.old id (version_of row)) self.old }
    {
        if !self.can_be_of(id, &row) {
            return false;
        }
        let version = row.object_update;
        read(self.rows.as_mut_slice(), id, row.content, version);
        self.read_up_to = version.max(self.read_up_to);
        true
    }

    /// Returns whether a row can be that of this object of the copy.
    fn can_be_of(&self, id: u32, row: &Row) -> bool
        ensures { result ≡ can_be_of self.now id row.now }
    {
        for kept in self.rows.iter() {
            if kept.id() == id {
                return row.id.0 == id && row.content.is_folder() == kept.is_folder();
            }
        }
        false
    }
}
