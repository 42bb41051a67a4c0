//! What scans and ticks do, beside the work of the store.

ghost use Rattle.std.specs.Prelude.{◌≡◌, ◌≤◌, ◌∷◌, ℕ, nat_le, List, IfOk};
ghost use Rattle.cds_catalog.specs.Library.{FolderMap};
ghost use Rattle.cds_catalog.specs.History.{History};
ghost use Rattle.cds_changes.specs.Containers.{containers_between};
ghost use Rattle.cds_changes.specs.Events.{events_between};
ghost use Rattle.cds_commands.specs.Commands.{Command, Scans, scans_of};
ghost use Rattle.cds_moderator.specs.Moderating.{Moderates, scan_span};
ghost use Rattle.cds_notify.specs.Propertyset.{propertyset_text};
ghost use Rattle.cds_store.specs.Stands.{StandsFor as StoreStandsFor};
ghost use Rattle.cds_server.specs.Serving.{CanFollow};

use cds_base::{Bytes, Mem};
use cds_moderator::Moderator;
use cds_notify::write_propertyset;
use cds_object::Events;
use cds_store::{Keeping, Span, Store};
use std::alloc::Global;

/// Returns whether a span has no change.
fn is_empty(span: Span) -> bool
    ensures { result ≡ nat_le span.to span.from }
{
    span.to <= span.from
}

/// Tells a moderator a scan's changes; it must have room for one more span. If the scan has no changes, nothing is told.
pub fn tell(moderator: &mut Moderator, span: Span)
    requires spare { 1 ≤ moderator.old.spare }
    requires follows { CanFollow span moderator.old.moderated }
    ensures { (first : ℕ) (commands : List Command) (library : FolderMap) → Moderates moderator.old first commands
        → span ≡ scan_span (scans_of first commands) library → Moderates moderator.new first (Scans library ∷ commands) }
{
    if is_empty(span) {
        return;
    }
    moderator.changed(span);
}

/// Returns the body of the notes of a release: the number of its last change, the containers that changed in its span, and the
/// changes.
pub fn note_body(alloc: Global, store: &Store, span: Span) -> Result<Bytes, Mem>
    requires kept { store.now.forgotten ≤ span.from }
    ensures { IfOk result (λ body. (history : History) → StoreStandsFor store.now history → body
        ≡ propertyset_text span.to (containers_between history span.from span.to) (events_between history span.from span.to)) }
{
    let mut events = Events::new(alloc);
    store.changes_after(alloc, span, &mut events)?;
    let mut containers = Vec::new(alloc);
    store.containers_after(alloc, span, &mut containers)?;
    let mut body = Vec::new(alloc);
    write_propertyset(
        alloc,
        span.to,
        containers.as_slice(),
        events.as_slice(),
        &mut body,
    )?;
    Ok(Bytes::from(body))
}
