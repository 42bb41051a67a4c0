//! Search criteria, read from a text.

ghost use Rattle.std.specs.Prelude.{◌≡◌, length, reverse, IfOk};
ghost use Rattle.cds_criteria.specs.Reading.{Start, Inside, read_on, criteria_read, ended, whole_of, level_any};
ghost use Rattle.cds_criteria.specs.Tokens.{tokens_of};
ghost use Rattle.cds_criteria.specs.Course.{reading_of};
ghost use Rattle.cds_criteria.specs.Meaning.{meets};
ghost use Rattle.cds_criteria.specs.CriteriaAnswer.{IsCriteriaAnswer};

use crate::CriteriaError;
use crate::course::{Course, Level, Position, Stage};
use crate::reading::level_any;
use crate::step::{Taken, take};
use crate::tree::Disjunction;
use cds_base::Mem;
use cds_object::Row;
use std::alloc::Global;
use std::marker::Model;

/// The most bytes of search criteria.
const LONGEST: usize = 4096;

/// What is asked of objects in a search (UPnP ContentDirectory:4 on SearchCriteria): every object, or those that meet conditions
/// joined by `and` and `or`. Contracts see the criteria as their grammar has them.
#[derive(Drop)]
pub struct SearchCriteria {
    any: Option<Disjunction>,
}

impl Model for SearchCriteria {
    ghost use Rattle.cds_criteria.specs.Criteria.{Criteria};
    ghost use Rattle.cds_criteria.specs.CriteriaCode.{criteria_code};

    ghost Value = { Criteria };

    ghost coded = { criteria_code };

    ghost use Rattle.cds_criteria.specs.Parts.{criteria_of};

    ghost view = { λ s. criteria_of s.any };
}

impl SearchCriteria {
    /// Reads the criteria that a text is: `*`, or conditions joined by `and` and `or`, of which `and` binds tighter. A condition
    /// is a property, an operator and a value in `"`; a property, `exists` and `true` or `false`; or criteria in parentheses. At
    /// most 16 parentheses are open at once, and the text has at most 4,096 bytes. Any other text is refused as `BadCriteria`, at
    /// the first token that cannot stand there.
    pub fn read(alloc: Global, text: &str) -> Result<Self, CriteriaError>
        ensures { IsCriteriaAnswer (criteria_read text.now) result }
    {
        if text.len() > LONGEST {
            return Err(CriteriaError::BadCriteria { at: LONGEST });
        }
        read_text(alloc, text.as_bytes())
    }

    /// Returns whether an object meets the criteria. A property that it lacks meets no comparison. Numbers compare as numbers if
    /// the value is one of at most 64 bits, and meet no comparison otherwise. Texts compare by bytes, and the case of ASCII
    /// letters does not count.
    pub fn meets(&self, row: &Row) -> bool
        ensures { result ≡ meets self.now row.now }
    {
        match &self.any {
            None => true,
            Some(any) => any.meets(row),
        }
    }
}

/// Returns the criteria that a text is, however long it is.
fn read_text(alloc: Global, text: &[u8]) -> Result<SearchCriteria, CriteriaError>
    ensures { IsCriteriaAnswer (read_on (length text.now) Start (tokens_of text.now)) result }
{
    let mut course = Course::Start;
    let mut rest = text;
    while !rest.is_empty() {
        match take(alloc, course, rest)? {
            None => {
                return Err(CriteriaError::BadCriteria {
                    at: text.len() - rest.len(),
                });
            }
            Some(taken) => {
                let Taken {
                    course: further,
                    size,
                } = taken;
                course = further;
                rest = rest.split_at(size.max(1).min(rest.len())).1;
            }
        }
    }
    match ended(alloc, course)? {
        None => Err(CriteriaError::BadCriteria { at: text.len() }),
        Some(criteria) => Ok(criteria),
    }
}

/// Returns the criteria that were read, if they are whole.
fn ended(alloc: Global, course: Course) -> Result<Option<SearchCriteria>, Mem>
    ensures { IfOk result (λ criteria. criteria ≡ ended (reading_of course)) }
{
    match course {
        Course::Start => Ok(None),
        Course::All => Ok(Some(SearchCriteria { any: None })),
        Course::Inside(at) => ended_inside(alloc, at),
        Course::Cut => Ok(None),
    }
}

/// Returns the criteria of a position, if they are whole.
fn ended_inside(alloc: Global, at: Position) -> Result<Option<SearchCriteria>, Mem>
    ensures { IfOk result (λ criteria. criteria ≡ ended (Inside at.stage at.room at.level (reverse at.outer.items))) }
{
    let Position {
        stage,
        level,
        mut outer,
        ..
    } = at;
    match stage {
        Stage::Term => Ok(None),
        Stage::Test(_) => Ok(None),
        Stage::Argument(_, _) => Ok(None),
        Stage::Answer(_) => Ok(None),
        Stage::Joint => match outer.pop() {
            None => whole(alloc, level),
            Some(_) => Ok(None),
        },
    }
}

/// Returns the criteria of a level, if a condition stands after its last `or`.
fn whole(alloc: Global, level: Level) -> Result<Option<SearchCriteria>, Mem>
    ensures { IfOk result (λ criteria. criteria ≡ whole_of (level_any level)) }
{
    match level_any(alloc, level)? {
        None => Ok(None),
        Some(any) => Ok(Some(SearchCriteria { any: Some(any) })),
    }
}
