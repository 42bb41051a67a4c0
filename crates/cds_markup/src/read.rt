//! The calls that read a whole document from bytes in memory.

ghost use Rattle.std.specs.Prelude.{◌≡◌, ◌++◌, OnErr, OnOk};
ghost use Rattle.cds_markup.specs.Answer.{ran_out};
ghost use Rattle.cds_markup.specs.Decided.{Decides};
ghost use Rattle.cds_markup.specs.Placed.{DecidesPlaced};
ghost use Rattle.cds_markup.specs.GivenParts.{Tells, TellsTo};

use crate::build::Builder;
use crate::part_reader::Spot;
use crate::placed::{Placed, PlacedBuilder};
use crate::{Element, MarkupError, PartSink, Parts};
use cds_base::Mem;
use std::alloc::Global;

/// Gives the parts of a document one by one, in the order of the bytes. It gives all of them, or those before the first fault.
///
/// - A start tag is given once the `>` or `/` that ends it stands, whatever follows a `/`.
/// - A literal text that a fault cuts is given as far as its whole characters go.
/// - A reference, a section or an end tag that a fault cuts is not given.
///
/// The refusals are these:
///
/// - `Bad` has the place of the first byte that cannot stand there, or of the end of the input if that is no document. It may
///   also have the place of the `>` or `/` that ends a start tag which breaks a rule of namespaces.
/// - `TooDeep` has the place of the first byte of a start tag's name that comes while 16 elements are open.
/// - `TooLong` comes if more than 67,108,864 bytes came and no fault is before.
/// - `Mem` says nothing of the bytes, nor of what was given.
///
/// If what takes the parts has enough, the bytes after that are not read, and the answer is `Ok`.
pub fn give_parts<S: PartSink>(alloc: Global, bytes: &[u8], to: &mut S) -> Result<(), MarkupError>
    ensures told { TellsTo S.took S.enough bytes.now result to.old to.new }
{
    let mut spot = Spot::new(alloc);
    spot.piece(alloc, bytes, to)?;
    if to.has_enough() {
        return Ok(());
    }
    spot.cursor.end()
}

/// Adds the parts of a document, as `give_parts` gives them. `Mem` leaves the parts as they were.
pub fn read_parts(alloc: Global, bytes: &[u8], out: &mut Parts) -> Result<(), MarkupError>
    ensures told { Tells bytes.now result out.old out.new }
{
    let mut found = Parts::new(alloc);
    let answer = give_parts(alloc, bytes, &mut found);
    if ran_out(&answer) || append(alloc, out, found).is_err() {
        return Err(MarkupError::Mem);
    }
    answer
}

/// Returns whether memory ran out.
fn ran_out(answer: &Result<(), MarkupError>) -> bool
    ensures { result ≡ ran_out answer.now }
{
    if let Err(MarkupError::Mem) = answer {
        return true;
    }
    false
}

/// Reads a document. Returns the element that the bytes are, or why they are none, as `give_parts` says.
pub fn read_document(alloc: Global, bytes: &[u8]) -> Result<Element, MarkupError>
    ensures { Decides bytes.now result }
{
    let mut builder = Builder::new(alloc);
    give_parts(alloc, bytes, &mut builder)?;
    match builder.into_element() {
        Some(element) => Ok(element),
        None => unreachable!(),
    }
}

/// Reads a document as `read_document` does. The answer also has the places where its element and the child elements of that
/// begin.
pub fn read_placed(alloc: Global, bytes: &[u8]) -> Result<Placed, MarkupError>
    ensures { DecidesPlaced bytes.now result }
{
    let mut builder = PlacedBuilder::new(alloc);
    give_parts(alloc, bytes, &mut builder)?;
    match builder.into_placed() {
        Some(placed) => Ok(placed),
        None => unreachable!(),
    }
}

/// Adds all these parts, or none.
fn append(alloc: Global, out: &mut Parts, found: Parts) -> Result<(), Mem>
    ensures ok { OnOk result (out.new ≡ out.old ++ found) }
    ensures err { OnErr result (out.new ≡ out.old) }
{
    if out.is_empty() {
        drop(std::mem::replace(out, found));
        return Ok(());
    }
    let mut all = std::mem::replace(out, Parts::new(alloc)).into_vec();
    let mut more = found.into_vec();
    let done = all.append(&mut more);
    drop(std::mem::replace(out, Parts::from(all)));
    done?;
    Ok(())
}
