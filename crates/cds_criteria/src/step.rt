//! One step of the reading of a text.

ghost use Rattle.std.specs.Prelude.{◌≡◌, IfOk};
ghost use Rattle.std.specs.Option.{option_map};
ghost use Rattle.cds_criteria.specs.Tokens.{token_at};
ghost use Rattle.cds_criteria.specs.Reading.{next};
ghost use Rattle.cds_criteria.specs.Course.{reading_of};
ghost use Rattle.cds_criteria.specs.Taken.{taken, taken_of, with_size};

use crate::course::Course;
use crate::reading::next;
use crate::token::{Found, is_space, token_at};
use cds_base::Mem;
use std::alloc::Global;

/// How far the reading has come, and how many bytes were read.
#[derive(Drop)]
pub(crate) struct Taken {
    pub course: Course,
    pub size: usize,
}

/// Reads the token that begins a text, or returns `None` if it cannot stand there.
fn token_taken(alloc: Global, course: Course, rest: &[u8]) -> Result<Option<Taken>, Mem>
    ensures { IfOk result (λ it. option_map taken_of it ≡ with_size (token_at rest.now).size (next (reading_of course) (token_at rest.now).token)) }
{
    let Found { token, size } = token_at(alloc, rest)?;
    match next(alloc, course, token)? {
        None => Ok(None),
        Some(course) => Ok(Some(Taken { course, size })),
    }
}

/// Reads a byte of white space or a token. Returns `None` if the token cannot stand there, or if there is no byte.
pub(crate) fn take(alloc: Global, course: Course, rest: &[u8]) -> Result<Option<Taken>, Mem>
    ensures { IfOk result (λ it. option_map taken_of it ≡ taken (reading_of course) rest.now) }
{
    match rest {
        [] => Ok(None),
        [first, ..] => {
            if is_space(*first) {
                Ok(Some(Taken { course, size: 1 }))
            } else {
                token_taken(alloc, course, rest)
            }
        }
    }
}
