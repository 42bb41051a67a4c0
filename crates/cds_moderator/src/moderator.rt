//! The moderator of one server.

ghost use Rattle.std.specs.Prelude.{◌≡◌, ◌+◌, ◌<◌, ◌≤◌, ◌&&◌, ℕ, List, [], ◌∷◌, filter, nat_lt, Some, option_map, is_some, OnOk, IfSome};
ghost use Rattle.cds_catalog.specs.Library.{FolderMap};
ghost use Rattle.cds_commands.specs.Commands.{Command, Scans, Ticks, scans_of};
ghost use Rattle.cds_commands.specs.Releases.{release_at, release_size, releases_of};
ghost use Rattle.cds_moderator.specs.Moderating.{Moderates, AreSpans, above, is_due, is_pause_over, is_waiting, joined, last_within, next_span, nothing_pending, scan_size, scan_span, span_of, with_release, with_span};

use cds_base::Mem;
use cds_store::Span;
use std::alloc::Global;
use std::marker::Model;

/// How many changes one release has at most.
const RELEASE_SIZE: u64 = 262_144;

/// How many milliseconds lie between two releases at least.
const RELEASE_PAUSE: u64 = 200;

/// The spans of changes that are not released yet, the oldest first, and the moment of the last release.
#[derive(Drop, Debug)]
pub struct Moderator {
    pending: Vec<Span>,
    moment: Option<u64>,
    /// The end of the newest span, released or not.
    end: Option<u32>,
}

impl Model for Moderator {
    ghost use Rattle.std.specs.Prelude.{◌-◌};
    ghost use Rattle.std.specs.Vec.{vec_capacity, vec_len};
    ghost use Rattle.cds_moderator.specs.Moderating.{Moderating, AreSpans, EndsAt};

    ghost Value = { Moderating };

    ghost view = { λ m. record {
      moderated = record { pending = m.pending.items; moment = m.moment; end = m.end };
      spare = vec_capacity m.pending - vec_len m.pending;
    } };

    ghost invariant = { λ m. AreSpans m.pending.items × EndsAt m.end m.pending.items };
}

/// Drops the spans that do not end above a number.
fn drop_released(pending: &mut Vec<Span>, to: u32)
    ensures { pending.new.items ≡ above to pending.old.items }
{
    pending.retain(|span| to < span.to);
}

/// Returns the last end of some spans that is not above `most`, or `before`.
fn last_within(spans: &[Span], most: u64, before: u32) -> u32
    ensures { result ≡ last_within most before spans.now }
{
    let mut last = before;
    for span in spans {
        if u64::from(span.to) <= most {
            last = span.to;
        }
    }
    last
}

/// Joins as many of the spans as one release may have.
fn join(pending: &[Span]) -> Option<Span>
    ensures { result ≡ joined pending.now }
{
    match pending.first().copied() {
        None => None,
        Some(oldest) => {
            let from = oldest.from;
            let most = u64::from(from) + RELEASE_SIZE;
            let to = last_within(pending, most, from);
            Some(Span { from, to })
        }
    }
}

/// Returns whether spans wait, and the pause after the last release is over.
fn is_due(pending: &[Span], moment: Option<u64>, now: u64) -> bool
    ensures { result ≡ (is_waiting pending.now && is_pause_over now moment) }
{
    !pending.is_empty() && is_pause_over(now, moment)
}

/// Returns whether the pause after the last release is over.
fn is_pause_over(now: u64, moment: Option<u64>) -> bool
    ensures { result ≡ is_pause_over now moment }
{
    match moment {
        None => true,
        Some(moment) => match moment.checked_add(RELEASE_PAUSE) {
            None => false,
            Some(over) => over <= now,
        },
    }
}

impl Moderator {
    /// Returns a moderator before any change, which takes no memory.
    pub fn new(alloc: Global) -> Moderator
        ensures nothing { result.moderated ≡ nothing_pending }
        ensures stands { (first : ℕ) → Moderates result first [] }
    {
        Moderator {
            pending: Vec::new(alloc),
            moment: None,
            end: None,
        }
    }

    /// Makes room for one more span.
    pub fn reserve(&mut self) -> Result<(), Mem>
        ensures spare { OnOk result (1 ≤ self.new.spare) }
        ensures same { self.new.moderated ≡ self.old.moderated }
    {
        self.pending.reserve(1)?;
        Ok(())
    }

    /// Adds the span of a scan's changes, which were accepted. It takes no memory.
    pub fn changed(&mut self, span: Span)
        requires spare { 1 ≤ self.old.spare }
        requires changes { (span.from < span.to) × (span.to ≤ span.from + scan_size) }
        requires goes_on { (end : ℕ) → self.old.moderated.end ≡ Some end → span.from ≡ end }
        ensures step { self.new.moderated ≡ with_span span self.old.moderated }
        ensures stands { (first : ℕ) (commands : List Command) (library : FolderMap) → Moderates self.old first commands
            → span ≡ scan_span (scans_of first commands) library → Moderates self.new first (Scans library ∷ commands) }
    {
        self.end = Some(span.to);
        if self.pending.push(span).is_err() {
            unreachable!();
        }
    }

    /// Returns whether a release comes at a moment in milliseconds. It does if some change is not released yet, and the last
    /// release, if there was one, was at least 200 milliseconds before.
    pub fn due(&self, now: u64) -> bool
        ensures step { result ≡ is_due now self.now.moderated }
        ensures stands { (first : ℕ) (commands : List Command) → Moderates self.now first commands
            → result ≡ is_some (release_at now (scans_of first commands) (releases_of first commands)) }
    {
        is_due(self.pending.as_slice(), self.moment, now)
    }

    /// Returns the release that would come at a moment, or `None` if none is due. It has as many whole scans as have at most
    /// 262,144 changes together. It has at least one.
    pub fn next_span(&self, now: u64) -> Option<Span>
        ensures step { result ≡ next_span now self.now.moderated }
        ensures stands { (first : ℕ) (commands : List Command) → Moderates self.now first commands
            → result ≡ option_map span_of (release_at now (scans_of first commands) (releases_of first commands)) }
        ensures size { IfSome result (λ span. (span.from < span.to) × (span.to ≤ span.from + release_size)) }
    {
        if self.due(now) {
            join(self.pending.as_slice())
        } else {
            None
        }
    }

    /// Makes the release that comes at a moment, which is then the moment of the last one. If none is due it answers `None`, and
    /// nothing changes.
    pub fn release(&mut self, now: u64) -> Option<Span>
        ensures step { result ≡ next_span now self.old.moderated }
        ensures after { self.new.moderated ≡ with_release now result self.old.moderated }
        ensures stands { (first : ℕ) (commands : List Command) → Moderates self.old first commands
            → result ≡ option_map span_of (release_at now (scans_of first commands) (releases_of first commands))
            × Moderates self.new first (Ticks now ∷ commands) }
        ensures size { IfSome result (λ span. (span.from < span.to) × (span.to ≤ span.from + release_size)) }
    {
        match self.next_span(now) {
            None => None,
            Some(span) => {
                self.settle(now, span);
                Some(span)
            }
        }
    }

    /// Takes out the spans of a release at a moment.
    fn settle(&mut self, now: u64, span: Span)
        ensures { self.new.moderated ≡ with_release now (Some span) self.old.moderated }
    {
        drop_released(&mut self.pending, span.to);
        self.moment = Some(now);
    }
}
