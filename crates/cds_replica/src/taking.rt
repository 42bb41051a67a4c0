//! What each reply leads to, stage by stage. Each step takes the stage's parts, and hands them back if it refuses.

ghost use Rattle.std.specs.Prelude.{◌≡◌, ◌+◌, ◌<◌, ◌^◌, ◌&&◌, List, true, false, nat_eq, length, IfOk};
ghost use Rattle.cds_object.specs.Object.{is_folder};
ghost use Rattle.cds_object.specs.declared.event.Event.{Event};
ghost use Rattle.cds_load.specs.Outcome.{Outcome};
ghost use Rattle.cds_load.specs.Stages.{Held, Loads, Begun as HoldsBegun, HasToken as HoldsToken, HasNumber as HoldsNumber, HasRoot as HoldsRoot, Lists as HoldsListing, HasPage as HoldsPage, taken, page_taken, after_page};
ghost use Rattle.cds_replica.specs.Answer.{read_of, only};
ghost use Rattle.cds_replica.specs.Holding.{held_in, listing_in};
ghost use Rattle.cds_replica.specs.Steps.{IsStep, load_takes, leads_to};
ghost use Rattle.cds_replica.specs.State.{NoCopy};
ghost use Rattle.cds_replica.specs.Phases.{phase_in, ends_load, answer_of};

use crate::AnswerError;
use crate::count_error::CountError;
use crate::listing::Listing;
use crate::phase::Phase;
use crate::stage::Stage;
use cds_load::{Read, Shown};
use cds_object::{Event, Row, Rows};
use std::alloc::Global;

/// The stage that follows, and the answer.
type StageStep = (Stage, Result<Read, AnswerError>);

/// The phase that follows, and the answer.
pub type PhaseStep = (Phase, Result<Read, AnswerError>);

impl Stage {
    /// Returns what a reply leads to, with the changes that were kept for the load's end.
    pub fn take(self, alloc: Global, changes: &[Event], shown: Shown) -> PhaseStep
        ensures outcome { IsStep (load_takes changes.now (taken (held_in self) shown)) (NoCopy (held_in self)) (phase_in result.0) result.1 }
        ensures read { IfOk result.1 (λ read. read ≡ read_of shown) }
    {
        match self {
            Stage::Idle => goes_on((Stage::Idle, Err(AnswerError::Unreadable))),
            Stage::Begun => goes_on(take_token(&shown)),
            Stage::HasToken => goes_on(take_number(&shown)),
            Stage::HasNumber(number) => goes_on(take_root(number, shown)),
            Stage::HasRoot { number, root } => {
                goes_on(take_number_after_root(alloc, number, root, &shown))
            }
            Stage::Lists { number, listing } => goes_on(take_page(number, listing, shown)),
            Stage::HasPage {
                number,
                listing,
                page,
            } => take_number_after_page(alloc, number, listing, page, changes, &shown),
        }
    }
}

/// Returns the phase of a load that goes on.
fn goes_on(step: StageStep) -> PhaseStep
    ensures step { (becomes : Outcome Held) (old : Held) (changes : List Event) → IsStep becomes old (held_in step.0) step.1 →
        IsStep (load_takes changes becomes) (NoCopy old) (phase_in result.0) result.1 }
    ensures read { (shown : Read) → IfOk step.1 (λ read. read ≡ shown) → IfOk result.1 (λ read. read ≡ shown) }
{
    (Phase::Load(step.0), step.1)
}

fn take_token(shown: &Shown) -> StageStep
    ensures outcome { IsStep (taken (Loads HoldsBegun) shown.now) (Loads HoldsBegun) (held_in result.0) result.1 }
    ensures read { IfOk result.1 (λ read. read ≡ read_of shown.now) }
{
    match shown {
        Shown::Text(_) => (Stage::HasToken, Ok(Read::Ok)),
        _ => (Stage::Begun, Err(AnswerError::Unreadable)),
    }
}

fn take_number(shown: &Shown) -> StageStep
    ensures outcome { IsStep (taken (Loads HoldsToken) shown.now) (Loads HoldsToken) (held_in result.0) result.1 }
    ensures read { IfOk result.1 (λ read. read ≡ read_of shown.now) }
{
    match shown {
        Shown::Number(number) => (Stage::HasNumber(*number), Ok(Read::Ok)),
        _ => (Stage::HasToken, Err(AnswerError::Unreadable)),
    }
}

fn take_root(number: u32, shown: Shown) -> StageStep
    ensures outcome { IsStep (taken (Loads (HoldsNumber number)) shown) (Loads (HoldsNumber number)) (held_in result.0) result.1 }
    ensures read { IfOk result.1 (λ read. read ≡ read_of shown) }
{
    let Shown::Page { rows, .. } = shown else {
        return (Stage::HasNumber(number), Err(AnswerError::Unreadable));
    };
    match only_row(rows) {
        None => (Stage::HasNumber(number), Err(AnswerError::Unreadable)),
        Some(root) => {
            if is_root(&root) {
                (Stage::HasRoot { number, root }, Ok(Read::Ok))
            } else {
                (Stage::HasNumber(number), Err(AnswerError::Torn { id: 0 }))
            }
        }
    }
}

/// Returns the row, if there is only one.
pub fn only_row(rows: Rows) -> Option<Row>
    ensures { result ≡ only rows }
{
    let mut rows = rows.into_vec();
    if rows.len() == 1 { rows.pop() } else { None }
}

/// Returns whether a row is that of the root, a container.
fn is_root(row: &Row) -> bool
    ensures { result ≡ (nat_eq row.now.id 0 && is_folder row.now.content) }
{
    row.id.0 == 0 && row.content.is_folder()
}

fn take_number_after_root(alloc: Global, number: u32, root: Row, shown: &Shown) -> StageStep
    ensures outcome { IsStep (taken (Loads (HoldsRoot number root)) shown.now) (Loads (HoldsRoot number root)) (held_in result.0) result.1 }
    ensures read { IfOk result.1 (λ read. read ≡ read_of shown.now) }
{
    let Shown::Number(second) = shown else {
        return (
            Stage::HasRoot { number, root },
            Err(AnswerError::Unreadable),
        );
    };
    if *second != number {
        return (Stage::Begun, Ok(Read::Ok));
    }
    match Listing::new(alloc, root) {
        Ok(listing) => (Stage::Lists { number, listing }, Ok(Read::Ok)),
        Err(root) => (Stage::HasRoot { number, root }, Err(AnswerError::Mem)),
    }
}

fn take_page(number: u32, listing: Listing, shown: Shown) -> StageStep
    ensures outcome { IsStep (taken (Loads (HoldsListing number (listing_in listing))) shown) (Loads (HoldsListing number (listing_in listing)))
        (held_in result.0) result.1 }
    ensures read { IfOk result.1 (λ read. read ≡ read_of shown) }
{
    match shown {
        Shown::Page { rows, .. } => {
            let page = Some(rows);
            (
                Stage::HasPage {
                    number,
                    listing,
                    page,
                },
                Ok(Read::Ok),
            )
        }
        Shown::Fault { code } => {
            let page = None;
            (
                Stage::HasPage {
                    number,
                    listing,
                    page,
                },
                Ok(Read::Fault { code }),
            )
        }
        _ => (
            Stage::Lists { number, listing },
            Err(AnswerError::Unreadable),
        ),
    }
}

fn take_number_after_page(
    alloc: Global,
    number: u32,
    listing: Listing,
    page: Option<Rows>,
    changes: &[Event],
    shown: &Shown,
) -> PhaseStep
    ensures outcome { IsStep (load_takes changes.now (taken (Loads (HoldsPage number (listing_in listing) page)) shown.now))
        (NoCopy (Loads (HoldsPage number (listing_in listing) page))) (phase_in result.0) result.1 }
    ensures read { IfOk result.1 (λ read. read ≡ read_of shown.now) }
{
    let Shown::Number(again) = shown else {
        return (
            with_page(number, listing, page),
            Err(AnswerError::Unreadable),
        );
    };
    if *again != number {
        return (Phase::Load(Stage::Begun), Ok(Read::Ok));
    }
    judge_page(alloc, number, listing, page, changes)
}

/// Returns the load as it stands with a page.
fn with_page(number: u32, listing: Listing, page: Option<Rows>) -> Phase
    ensures { phase_in result ≡ NoCopy (Loads (HoldsPage number (listing_in listing) page)) }
{
    Phase::Load(Stage::HasPage {
        number,
        listing,
        page,
    })
}

/// Judges a page whose number stayed.
fn judge_page(
    alloc: Global,
    number: u32,
    listing: Listing,
    page: Option<Rows>,
    changes: &[Event],
) -> PhaseStep
    ensures outcome { IsStep (load_takes changes.now (page_taken number (listing_in listing) page))
        (NoCopy (Loads (HoldsPage number (listing_in listing) page))) (phase_in result.0) result.1 }
    ensures read { IfOk result.1 (λ read. read ≡ Read.Ok) }
{
    match page {
        Some(rows) if listing.fits(rows.as_slice()) => {
            add_page(alloc, number, listing, rows, changes)
        }
        page => {
            let id = listing.id();
            (
                with_page(number, listing, page),
                Err(AnswerError::Torn { id }),
            )
        }
    }
}

/// Adds a page that fits.
fn add_page(
    alloc: Global,
    number: u32,
    listing: Listing,
    page: Rows,
    changes: &[Event],
) -> PhaseStep
    requires { length listing.part.items + length page < 2 ^ 32 }
    ensures outcome { IsStep (leads_to changes.now (after_page number (listing_in listing) page))
        (NoCopy (Loads (HoldsPage number (listing_in listing) (Some page)))) (phase_in result.0) result.1 }
    ensures read { IfOk result.1 (λ read. read ≡ Read.Ok) }
{
    if listing.ends_load(page.as_slice()) {
        end_load(alloc, number, listing, page, changes)
    } else {
        go_on(alloc, number, listing, page, changes)
    }
}

/// Goes on with a page after which another is to come.
fn go_on(alloc: Global, number: u32, listing: Listing, page: Rows, changes: &[Event]) -> PhaseStep
    requires short { length listing.part.items + length page < 2 ^ 32 }
    requires goes_on { ends_load (listing_in listing) page ≡ false }
    ensures outcome { IsStep (leads_to changes.now (after_page number (listing_in listing) page))
        (NoCopy (Loads (HoldsPage number (listing_in listing) (Some page)))) (phase_in result.0) result.1 }
    ensures read { IfOk result.1 (λ read. read ≡ Read.Ok) }
{
    match listing.with_page(alloc, page.into_vec()) {
        Ok(listing) => (Phase::Load(Stage::Lists { number, listing }), Ok(Read::Ok)),
        Err((listing, page)) => (
            with_page(number, listing, Some(Rows::from(page))),
            Err(AnswerError::Mem),
        ),
    }
}

/// Ends a load with its last page.
fn end_load(
    alloc: Global,
    number: u32,
    listing: Listing,
    page: Rows,
    changes: &[Event],
) -> PhaseStep
    requires ends { ends_load (listing_in listing) page ≡ true }
    ensures outcome { IsStep (leads_to changes.now (after_page number (listing_in listing) page))
        (NoCopy (Loads (HoldsPage number (listing_in listing) (Some page)))) (phase_in result.0) result.1 }
    ensures read { IfOk result.1 (λ read. read ≡ Read.Ok) }
{
    match listing.into_copy(alloc, number, page.into_vec(), changes) {
        Ok(copy) => (Phase::Copy { number, copy }, Ok(Read::Ok)),
        Err((listing, page, refusal)) => (
            with_page(number, listing, Some(Rows::from(page))),
            Err(answer_of(refusal)),
        ),
    }
}

/// Returns the answer to a reply with which the changes that were kept cannot be counted.
fn answer_of(refusal: CountError) -> AnswerError
    ensures { result ≡ answer_of refusal }
{
    match refusal {
        CountError::Jump { expected, first } => AnswerError::Jump { expected, first },
        CountError::Torn { id } => AnswerError::Torn { id },
        CountError::Mem => AnswerError::Mem,
    }
}
