//! The reading of search criteria, token by token.

ghost use Rattle.std.specs.Prelude.{◌≡◌, ◌+◌, ◌<◌, Some, None, length, reverse, IfOk};
ghost use Rattle.std.specs.Option.{option_map};
ghost use Rattle.cds_criteria.specs.Reading.{Inside, no_level, after_factor, level_any, all_behind, and_level, or_level, close_level, open_level, within, at_start, next, whole_of, ended};
ghost use Rattle.cds_criteria.specs.Course.{reading_of};
ghost use Rattle.cds_criteria.specs.declared.course.Stage.TheVariants.{Term, Test, Argument, Answer, Joint};

use crate::course::{Course, Level, Position, Stage};
use crate::token::Token;
use crate::tree::{Condition, Conjunction, Disjunction};
use crate::{Operator, Property};
use cds_base::Mem;
use std::alloc::Global;

/// Goes on at the same level with another stage.
fn at_stage(at: Position, stage: Stage) -> Course
    ensures { reading_of result ≡ Inside stage at.room at.level (reverse at.outer.items) }
{
    let Position {
        room,
        level,
        outer,
        ..
    } = at;
    Course::Inside(Position {
        stage,
        room,
        level,
        outer,
    })
}

/// Adds a condition, after which a joint is awaited.
fn after_factor(alloc: Global, condition: Condition, at: Position) -> Result<Course, Mem>
    ensures { IfOk result (λ course. reading_of course ≡ after_factor condition at.room at.level (reverse at.outer.items)) }
{
    let Position {
        room,
        level,
        outer,
        ..
    } = at;
    let Level { before, factors } = level;
    let factors = Conjunction::with(alloc, factors, condition)?;
    Ok(Course::Inside(Position {
        stage: Stage::Joint,
        room,
        level: Level {
            before,
            factors: Some(factors),
        },
        outer,
    }))
}

/// Makes a level with nothing in it.
fn no_level() -> Level
    ensures { result ≡ no_level }
{
    Level {
        before: None,
        factors: None,
    }
}

/// Opens a parenthesis, if there is room.
fn open_level(at: Position) -> Result<Option<Course>, Mem>
    ensures { IfOk result (λ course. option_map reading_of course ≡ open_level at.room at.level (reverse at.outer.items)) }
{
    let Position {
        room,
        level,
        outer,
        ..
    } = at;
    if room == 0 {
        return Ok(None);
    }
    let mut outer = outer;
    outer.push(level)?;
    Ok(Some(Course::Inside(Position {
        stage: Stage::Term,
        room: room - 1,
        level: no_level(),
        outer,
    })))
}

/// Joins the conditions of a level to those before its last `or`.
pub(crate) fn level_any(alloc: Global, level: Level) -> Result<Option<Disjunction>, Mem>
    ensures { IfOk result (λ any. any ≡ level_any level) }
{
    let Level { before, factors } = level;
    match factors {
        None => Ok(None),
        Some(all) => Ok(Some(Disjunction::with(alloc, before, all)?)),
    }
}

/// Goes on after `and`, which stands only after a condition.
fn and_level(at: Position) -> Option<Course>
    ensures { option_map reading_of result ≡ and_level at.level.factors at.room at.level (reverse at.outer.items) }
{
    let Position {
        room,
        level,
        outer,
        ..
    } = at;
    let Level { before, factors } = level;
    match factors {
        None => None,
        Some(all) => Some(Course::Inside(Position {
            stage: Stage::Term,
            room,
            level: Level {
                before,
                factors: Some(all),
            },
            outer,
        })),
    }
}

/// Goes on after `or`, which stands only after a condition.
fn or_level(alloc: Global, at: Position) -> Result<Option<Course>, Mem>
    ensures { IfOk result (λ course. option_map reading_of course ≡ or_level (level_any at.level) at.room (reverse at.outer.items)) }
{
    let Position {
        room,
        level,
        outer,
        ..
    } = at;
    match level_any(alloc, level)? {
        None => Ok(None),
        Some(any) => Ok(Some(Course::Inside(Position {
            stage: Stage::Term,
            room,
            level: Level {
                before: Some(any),
                factors: None,
            },
            outer,
        }))),
    }
}

/// Closes a parenthesis, if one is open.
fn close_level(alloc: Global, at: Position) -> Result<Option<Course>, Mem>
    ensures { IfOk result (λ course. option_map reading_of course ≡ close_level (level_any at.level) at.room (reverse at.outer.items)) }
{
    let Position {
        room,
        level,
        mut outer,
        ..
    } = at;
    let Some(any) = level_any(alloc, level)? else {
        return Ok(None);
    };
    let Some(level) = outer.pop() else {
        return Ok(None);
    };
    let group = Condition::group(alloc, any)?;
    let at = Position {
        stage: Stage::Term,
        room: room + 1,
        level,
        outer,
    };
    Ok(Some(after_factor(alloc, group, at)?))
}

/// Returns what follows a token that stands where a property or `(` is awaited.
fn term(at: Position, token: Token) -> Result<Option<Course>, Mem>
    ensures { IfOk result (λ course. option_map reading_of course ≡ within Term at.room at.level (reverse at.outer.items) token) }
{
    match token {
        Token::Open => open_level(at),
        Token::Name(property) => Ok(Some(at_stage(at, Stage::Test(property)))),
        _ => Ok(None),
    }
}

/// Returns what follows a token that stands after a property.
fn test(property: Property, at: Position, token: Token) -> Option<Course>
    ensures { option_map reading_of result ≡ within (Test property) at.room at.level (reverse at.outer.items) token }
{
    match token {
        Token::Existence => Some(at_stage(at, Stage::Answer(property))),
        Token::Sign(operator) => Some(at_stage(at, Stage::Argument(property, operator))),
        Token::CutSign => Some(Course::Cut),
        _ => None,
    }
}

/// Returns what follows a token that stands after an operator.
fn argument(
    alloc: Global,
    property: Property,
    operator: Operator,
    at: Position,
    token: Token,
) -> Result<Option<Course>, Mem>
    ensures { IfOk result (λ course. option_map reading_of course ≡ within (Argument property operator) at.room at.level (reverse at.outer.items) token) }
{
    match token {
        Token::Value(value) => {
            let condition = Condition::compare(property, operator, value);
            Ok(Some(after_factor(alloc, condition, at)?))
        }
        Token::CutValue => Ok(Some(Course::Cut)),
        _ => Ok(None),
    }
}

/// Returns what follows a token that stands after `exists`.
fn answer(
    alloc: Global,
    property: Property,
    at: Position,
    token: Token,
) -> Result<Option<Course>, Mem>
    ensures { IfOk result (λ course. option_map reading_of course ≡ within (Answer property) at.room at.level (reverse at.outer.items) token) }
{
    match token {
        Token::Truth(there) => {
            let condition = Condition::exists(property, there);
            Ok(Some(after_factor(alloc, condition, at)?))
        }
        _ => Ok(None),
    }
}

/// Returns what follows a token that stands after a condition.
fn joint(alloc: Global, at: Position, token: Token) -> Result<Option<Course>, Mem>
    ensures { IfOk result (λ course. option_map reading_of course ≡ within Joint at.room at.level (reverse at.outer.items) token) }
{
    match token {
        Token::AndWord => Ok(and_level(at)),
        Token::OrWord => or_level(alloc, at),
        Token::Close => close_level(alloc, at),
        _ => Ok(None),
    }
}

/// Returns what follows a token within criteria.
fn within(alloc: Global, at: Position, token: Token) -> Result<Option<Course>, Mem>
    ensures { IfOk result (λ course. option_map reading_of course ≡ within at.stage at.room at.level (reverse at.outer.items) token) }
{
    match at.stage {
        Stage::Term => term(at, token),
        Stage::Test(property) => Ok(test(property, at, token)),
        Stage::Argument(property, operator) => argument(alloc, property, operator, at, token),
        Stage::Answer(property) => answer(alloc, property, at, token),
        Stage::Joint => joint(alloc, at, token),
    }
}

/// Returns what follows the first token of a text.
fn at_start(alloc: Global, token: Token) -> Result<Option<Course>, Mem>
    ensures { IfOk result (λ course. option_map reading_of course ≡ at_start token) }
{
    match token {
        Token::Star => Ok(Some(Course::All)),
        token => {
            let at = Position {
                stage: Stage::Term,
                room: 16,
                level: no_level(),
                outer: Vec::new(alloc),
            };
            term(at, token)
        }
    }
}

/// Returns what follows a token, or `None` if it cannot stand there.
pub(crate) fn next(alloc: Global, course: Course, token: Token) -> Result<Option<Course>, Mem>
    ensures { IfOk result (λ further. option_map reading_of further ≡ next (reading_of course) token) }
{
    match course {
        Course::Start => at_start(alloc, token),
        Course::All => Ok(None),
        Course::Inside(at) => within(alloc, at, token),
        Course::Cut => Ok(None),
    }
}
