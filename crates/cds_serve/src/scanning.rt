//! One scan of the folder, and its acceptance by the server.

ghost use Rattle.std.specs.Prelude.{◌≡◌, ◌+◌, ◌≤◌, ◌<◌, ◌^◌, length, None, IfErr, IfOk, IsErrOf, IsOk, OnOk};
ghost use Rattle.cds_scan.specs.Scanning.{GoesOn};
ghost use Rattle.cds_turn.specs.Turn.{IsSeatOf, seat_told, start_of};
ghost use Rattle.cds_catalog.specs.Scans.{bad_record};
ghost use Rattle.cds_serve.specs.Scanned.{IsUnscanned, MayGive, ScansOnce, declined, declined_by};
ghost use Rattle.cds_serve.specs.Served.{CanBeClosed};

use crate::acts::accepting;
use crate::moment::ask_moment;
use crate::served::Served;
use cds_outside::{Clock, Folder};
use cds_scan::{Scan, ScanError, scan};
use cds_server::{Serving, TakeError};
use cds_store::ApplyError;
use cds_turn::{Seat, Turn};
use std::alloc::Global;
use std::marker::Send;
use std::sync::Wait;
use thiserror::Error;

/// Why a scan was not accepted. If memory ran out, it is always `Mem`.
#[derive(Debug, Drop, Error)]
pub enum ScanRefused {
    /// The folder was not scanned; no turn was taken.
    #[error("the folder was not scanned: {0}")]
    Scan(ScanError),
    /// The server refused what the scan found.
    #[error("the scan was refused: {0}")]
    Apply(ApplyError),
    /// The server is closed: its catalog could not be kept, now or at an earlier scan.
    #[error("the catalog could not be kept")]
    Keeper,
    #[error("out of memory")]
    Mem,
}

/// Scans the folder from its beginning outside a turn, and has the server take what was found in one turn. `Scan` is the refusal
/// of `scan`; then no turn is taken. `Apply` is the refusal of `Server::accept_scan`, for the commands that the server stood for
/// in the turn. `Keeper` comes of a server that is closed, never of one that keeps nothing outside. A refused scan adds nothing to
/// what the server stands for. `last` is the last moment that the clock gave. If the clock fails, it is the moment of the turn.
pub fn scan_once<R: Wait, V: Serving + Send, F: Folder, T: Clock>(
    rt: &R,
    alloc: Global,
    turn: &Turn<Served<V>>,
    seat: &mut Seat<Served<V>>,
    folder: &mut F,
    clock: &mut T,
    last: &mut u64,
) -> Result<(), ScanRefused>
    requires { IsSeatOf turn.now seat.old }
    ensures seat { IsSeatOf turn.now seat.new }
    ensures scanned { ScansOnce (CanBeClosed V.told V.stands (start_of turn.now seat.old)) (start_of turn.now seat.old) result last.old last.new
        (record {
          seat = seat_told turn.now seat.old;
          folder = F.told folder.old;
          clock = T.told clock.old;
        })
        (record {
          seat = seat_told turn.now seat.new;
          folder = F.told folder.new;
          clock = T.told clock.new;
        }) }
    ensures goes { GoesOn (F.told folder.old) (F.told folder.new) }
    ensures clock_faults_rise { (T.told clock.old).faults ≤ (T.told clock.new).faults }
{
    let found = scanned(alloc, folder)?;
    let now = ask_moment(clock, last);
    scan_answer(turn.with(rt, seat, accepting(alloc, now, &found)))
}

/// Scans the folder, and returns what was found.
fn scanned<F: Folder>(alloc: Global, folder: &mut F) -> Result<Scan, ScanRefused>
    ensures given { IfOk result (MayGive (F.told folder.old)
        (F.told folder.new)) }
    ensures stands { IfOk result (λ scan. bad_record scan.records ≡ None) }
    ensures few { IfOk result (λ scan. length scan.records < 2 ^ 32) }
    ensures refused { IfErr result (IsUnscanned (F.told folder.old)
        (F.told folder.new)) }
    ensures goes { GoesOn (F.told folder.old) (F.told folder.new) }
{
    match scan(alloc, folder) {
        Ok(found) => Ok(found),
        Err(ScanError::Mem) => Err(ScanRefused::Mem),
        Err(refusal) => Err(ScanRefused::Scan(refusal)),
    }
}

/// Returns the answer of a scan, by the answer of the server.
fn scan_answer(answer: Result<(), TakeError>) -> Result<(), ScanRefused>
    ensures ok { OnOk answer (IsOk result) }
    ensures refused { IfErr answer (λ refusal. IsErrOf result (declined refusal)) }
{
    match answer {
        Ok(()) => Ok(()),
        Err(refusal) => Err(declined(refusal)),
    }
}

/// Returns a refusal of the server as one of a scan.
fn declined(refusal: TakeError) -> ScanRefused
    ensures { result ≡ declined refusal }
{
    match refusal {
        TakeError::Apply(refusal) => declined_by(refusal),
        TakeError::Keeper => ScanRefused::Keeper,
        TakeError::Mem => ScanRefused::Mem,
    }
}

/// Returns a refusal of the store as one of a scan.
fn declined_by(refusal: ApplyError) -> ScanRefused
    ensures { result ≡ declined_by refusal }
{
    match refusal {
        ApplyError::Mem => ScanRefused::Mem,
        other => ScanRefused::Apply(other),
    }
}
