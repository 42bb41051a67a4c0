//! Reading DIDL-Lite.

ghost use Rattle.std.specs.Prelude.{◌≡◌, ◌<◌, length, slice_get, Some};
ghost use Rattle.cds_markup.specs.Placed.{ArePlaces};
ghost use Rattle.cds_didl.specs.Didl.{rows_said, Answers, IsFaultOf, IsRefusalOrMem};

use crate::DidlError;
use crate::error::Fault;
use crate::rows::rows_said;
use cds_markup::{MarkupError, Placed, read_placed};
use cds_object::Rows;
use std::alloc::Global;

/// Reads a DIDL-Lite document. Returns the rows of its containers and items in their order.
///
/// `Markup` comes if the bytes are no document. Otherwise the first element that is not as it has to be is refused, in the order
/// of the document:
///
/// - `NotDidl` has the place of the root, if that is another element, or of a child that is neither a container nor an item.
/// - `BadValue` has the place of a container or item that lacks a part that it needs, has it twice or has it in another form.
pub fn read_didl(alloc: Global, bytes: &[u8]) -> Result<Rows, DidlError>
    ensures { Answers bytes.now result }
{
    let placed = match read_placed(alloc, bytes) {
        Ok(placed) => placed,
        Err(MarkupError::Mem) => return Err(DidlError::Mem),
        Err(refusal) => return Err(DidlError::Markup(refusal)),
    };
    match rows_said(alloc, &placed.element) {
        Ok(rows) => Ok(rows),
        Err(fault) => Err(refusal_of(bytes, &placed, fault)),
    }
}

/// Returns the refusal of a fault of the document's element. The contract alone needs the bytes.
fn refusal_of(_bytes: &[u8], placed: &Placed, fault: Fault) -> DidlError
    requires places { ArePlaces _bytes.now placed.now }
    requires faulty { IsFaultOf (rows_said placed.now.element) fault }
    ensures { IsRefusalOrMem _bytes.now fault result }
{
    match fault {
        Fault::OutOfMemory => DidlError::Mem,
        Fault::Root => DidlError::NotDidl { at: placed.at },
        Fault::NotRow { number } => DidlError::NotDidl {
            at: child_place(placed, number),
        },
        Fault::BadRow { number } => DidlError::BadValue {
            at: child_place(placed, number),
        },
    }
}

/// Returns the place of the child element that has `number` children before it.
fn child_place(placed: &Placed, number: usize) -> usize
    requires { number < length placed.now.children }
    ensures { slice_get placed.now.children number ≡ Some result }
{
    match placed.children.get(number) {
        Some(at) => *at,
        None => unreachable!(),
    }
}
