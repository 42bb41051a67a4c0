//! Keeps the events of changes that are not forgotten, and finds the events of a span.

ghost use Rattle.std.specs.Prelude.{◌≡◌, ◌++◌, filter, IfOk, OnOk, OnErr};
ghost use Rattle.cds_changes.specs.EventsWithParents.{lies_in, events_in, is_after};

use crate::Span;
use cds_base::Mem;
use cds_changes::EventWithParent;
use cds_object::Event;
use std::alloc::Global;

/// Returns whether an event lies in a span.
pub(crate) fn lies_in(event: Event, span: Span) -> bool
    ensures { result ≡ lies_in span.from span.to event }
{
    let update = event.update();
    span.from < update && update <= span.to
}

/// Returns the events of a span.
pub(crate) fn events_within(
    alloc: Global,
    kept: &[EventWithParent],
    span: Span,
) -> Result<Vec<Event>, Mem>
    ensures { IfOk result (λ events. events.items ≡ events_in span.from span.to kept.now) }
{
    let mut events = Vec::new(alloc);
    for item in kept {
        if lies_in(item.event, span) {
            events.push(item.event)?;
        }
    }
    Ok(events)
}

/// Keeps more events. If memory runs out, all stays as it was.
pub(crate) fn keep(kept: &mut Vec<EventWithParent>, more: &[EventWithParent]) -> Result<(), Mem>
    ensures ok { OnOk result (kept.new.items ≡ kept.old.items ++ more.now) }
    ensures err { OnErr result (kept.new.items ≡ kept.old.items) }
{
    kept.extend_from_slice(more)?;
    Ok(())
}

/// Returns whether an event is above a number.
fn is_after(item: &EventWithParent, to: u32) -> bool
    ensures { result ≡ is_after to item.now }
{
    to < item.event.update()
}

/// Drops the events up to a number.
pub(crate) fn retain_after(kept: &mut Vec<EventWithParent>, to: u32)
    ensures { kept.new.items ≡ filter (is_after to) kept.old.items }
{
    kept.retain(|item| is_after(item, to));
}
