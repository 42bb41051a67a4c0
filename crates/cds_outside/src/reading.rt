//! Reading a source piece by piece, up to a limit.

ghost use Rattle.std.specs.Prelude.{◌≡◌, ◌+◌, ◌<◌, ◌≤◌, [], length, take, drop, Some, IfOk, OnErr};
ghost use Rattle.cds_outside.specs.Outside.{raised, Rose, Told};
ghost use Rattle.cds_base.specs.declared.limits.TheConstants.{INPUT_LIMIT};

use crate::{Failed, Source};
use cds_base::Mem;
use std::alloc::Global;

/// The number of bytes that are read at once.
const PIECE: usize = 8_192;

/// Makes room for a piece, which is not empty.
pub fn empty_piece(alloc: Global) -> Result<Vec<u8>, Mem>
    ensures { IfOk result (λ piece. 0 < length piece.items) }
{
    let piece = vec![in alloc; 0; PIECE]?;
    Ok(piece)
}

/// Reads a piece into the beginning of the buffer, and returns how many bytes came. At most `left` + 1 bytes are read; `left` is
/// what is left up to the limit. If the source tells its bytes, 0 says that it has no more.
pub fn read_piece<S: Source>(
    source: &mut S,
    buffer: &mut [u8],
    left: usize,
) -> Result<usize, Failed>
    requires some { 0 < length buffer.old }
    requires within { left ≤ INPUT_LIMIT }
    ensures room { IfOk result (λ n. n ≤ length buffer.old) }
    ensures few { IfOk result (λ n. n ≤ left + 1) }
    ensures count { IfOk result (λ n. (S.told source.new).moved ≡ raised (S.told source.old).moved n) }
    ensures content { IfOk result (λ n. Told (S.told source.old).left (λ bytes. take n buffer.new ≡ take n bytes)) }
    ensures rest { IfOk result (λ n. Told (S.told source.old).left (λ bytes. (S.told source.new).left ≡ Some (drop n bytes))) }
    ensures end { IfOk result (λ n. n ≡ 0 → Told (S.told source.old).left (λ bytes. bytes ≡ [])) }
    ensures stays { OnErr result ((S.told source.new).moved ≡ (S.told source.old).moved) }
    ensures rose { OnErr result (Rose (S.told source.old).faults (S.told source.new).faults) }
    ensures never_falls { (S.told source.old).faults ≤ (S.told source.new).faults }
{
    let most = buffer.len().min(left + 1);
    let (front, _) = buffer.split_at_mut(most);
    source.read(front)
}
