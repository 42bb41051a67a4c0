//! Scans taken one after the other, and the rows after them.

ghost use Rattle.std.specs.Prelude.{◌≡◌, ◌∷◌, [], ◌++◌, ◌<◌, ◌^◌, length, OnOk, OnErr, IfOk, IfErr, string_bytes};
ghost use Rattle.std.specs.List.{AllByRecursion};
ghost use Rattle.cds_object.specs.Fragment.{full_text};
ghost use Rattle.cds_catalog.specs.History.{History};
ghost use Rattle.cds_store.specs.Stands.{StandsFor};
ghost use Rattle.cds_browse.specs.Runs.{AllAccepted, after_scans, Stopped, Ran};

use cds_base::{Mem, put};
use cds_didl::put_fragment;
use cds_object::{Records, Row};
use cds_store::{ApplyError, Keeping, View};
use std::alloc::Global;

/// Takes scans in their order, and appends the fragments of all rows after them in ascending order of ids, each ended by LF. It
/// stops at the first refusal and returns it. Then nothing is appended, and the scans before it are kept.
pub fn run_scans<K: Keeping>(
    alloc: Global,
    keeping: &mut K,
    scans: &[Records],
    out: &mut Vec<u8>,
) -> Result<(), ApplyError>
    requires { AllByRecursion (λ records. length records < 2 ^ 32) scans.now }
    ensures { (history : History) → StandsFor (K.stored keeping.old) history →
        Ran history scans.now result (K.stored keeping.new) out.old.items out.new.items }
{
    take_all(alloc, keeping, scans)?;
    let text = rows_text(alloc, keeping)?;
    append(text.as_str(), out)?;
    Ok(())
}

/// Appends a text. A refusal leaves `out` as it was.
fn append(text: &str, out: &mut Vec<u8>) -> Result<(), Mem>
    ensures ok { OnOk result (out.new.items ≡ out.old.items ++ text.now) }
    ensures err { OnErr result (out.new.items ≡ out.old.items) }
{
    out.extend_from_slice(text.as_bytes())?;
    Ok(())
}

/// Takes scans in their order, up to the first that is refused.
fn take_all<K: Keeping>(alloc: Global, keeping: &mut K, scans: &[Records]) -> Result<(), ApplyError>
    requires { AllByRecursion (λ records. length records < 2 ^ 32) scans.now }
    ensures taken { (history : History) → StandsFor (K.stored keeping.old) history →
        OnOk result (AllAccepted history scans.now × StandsFor (K.stored keeping.new) (after_scans history scans.now)) }
    ensures stopped { (history : History) → StandsFor (K.stored keeping.old) history →
        IfErr result (λ refusal. Stopped history scans.now refusal (K.stored keeping.new)) }
{
    for records in scans {
        let _span = keeping.apply(alloc, records)?;
    }
    Ok(())
}

/// Returns the fragments of all rows of a view, each ended by LF.
fn rows_text<V: View>(alloc: Global, view: &V) -> Result<String, Mem>
    ensures { IfOk result (λ text. string_bytes text ≡ full_text (V.rows view.now)) }
{
    let mut text = String::new(alloc);
    for at in 0..view.len() {
        if let Some(row) = view.row(at) {
            put_row(&mut text, row)?;
        }
    }
    Ok(text)
}

/// Appends the fragment of a row, ended by LF.
fn put_row(text: &mut String, row: &Row) -> Result<(), Mem>
    ensures { OnOk result (string_bytes text.new ≡ string_bytes text.old ++ full_text (row.now ∷ [])) }
{
    put_fragment(text, row)?;
    put(text, "\n")?;
    Ok(())
}
