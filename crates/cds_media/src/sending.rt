//! Sends bytes of a source to a sink, piece by piece.

ghost use Rattle.std.specs.Prelude.{◌≡◌, ◌+◌, ◌<◌, ◌≤◌, [], Some, ◌++◌, length, take, drop, IfErr, IfOk, OnErr, OnOk};
ghost use Rattle.cds_outside.specs.Outside.{HoldsPart, Rose, Told, raised};
ghost use Rattle.cds_media.specs.Sent.{HasRest, OnReadFault, OnShort, OnWriteFault};

use crate::SendError;
use cds_outside::{Failed, Sink, Source, write_all};

/// The number of bytes that are read at once.
pub(crate) const PIECE: usize = 32_768;

/// Sends the next `count` bytes of the source to the sink. After a failure, a prefix of them was written. `ReadFault` comes only if
/// the source's count of faults rises, and `WriteFault` only if the sink's does. If neither count rises, `Short` comes exactly if the
/// source ends before `count` bytes; `at` is how many it had. At most `count` bytes are taken from the source.
pub fn send<S: Source, K: Sink>(source: &mut S, count: u64, sink: &mut K) -> Result<(), SendError>
    ensures whole { OnOk result (Told (S.told source.old).left (λ bytes. Told (K.told sink.old).holds (λ held. (K.told sink.new).holds ≡ Some (held ++ take count bytes)))) }
    ensures enough { OnOk result (Told (S.told source.old).left (λ bytes. count ≤ length bytes)) }
    ensures rest { OnOk result (Told (S.told source.old).left (λ bytes. (S.told source.new).left ≡ Some (drop count bytes))) }
    ensures part { OnErr result (Told (S.told source.old).left (λ bytes. Told (K.told sink.old).holds (λ held. HoldsPart held (take count bytes) (K.told sink.new).holds))) }
    ensures short { IfErr result (λ e. OnShort e (λ at. (at < count) × Told (S.told source.old).left (λ bytes. length bytes ≡ at))) }
    ensures all { IfErr result (λ e. OnShort e (λ _. Told (S.told source.old).left (λ bytes. Told (K.told sink.old).holds (λ held. (K.told sink.new).holds ≡ Some (held ++ bytes))))) }
    ensures left { OnErr result (Told (S.told source.old).left (λ bytes. HasRest bytes count (S.told source.new).left)) }
    ensures moved { OnOk result (raised (S.told source.new).moved 0 ≡ raised (S.told source.old).moved count) }
    ensures moved_short { IfErr result (λ e. OnShort e (λ at. (S.told source.new).moved ≡ raised (S.told source.old).moved at)) }
    ensures took { (S.told source.new).moved ≤ (S.told source.old).moved + count }
    ensures read_fault { IfErr result (λ e. OnReadFault e (Rose (S.told source.old).faults (S.told source.new).faults)) }
    ensures write_fault { IfErr result (λ e. OnWriteFault e (Rose (K.told sink.old).faults (K.told sink.new).faults)) }
    ensures read_faults_never_fall { (S.told source.old).faults ≤ (S.told source.new).faults }
    ensures write_faults_never_fall { (K.told sink.old).faults ≤ (K.told sink.new).faults }
{
    let mut buffer = [0u8; PIECE];
    send_through(&mut buffer, source, count, sink)
}

/// Sends bytes through a buffer, which has room.
fn send_through<S: Source, K: Sink>(
    buffer: &mut [u8],
    source: &mut S,
    count: u64,
    sink: &mut K,
) -> Result<(), SendError>
    requires { 0 < length buffer.old }
    ensures whole { OnOk result (Told (S.told source.old).left (λ bytes. Told (K.told sink.old).holds (λ held. (K.told sink.new).holds ≡ Some (held ++ take count bytes)))) }
    ensures enough { OnOk result (Told (S.told source.old).left (λ bytes. count ≤ length bytes)) }
    ensures rest { OnOk result (Told (S.told source.old).left (λ bytes. (S.told source.new).left ≡ Some (drop count bytes))) }
    ensures part { OnErr result (Told (S.told source.old).left (λ bytes. Told (K.told sink.old).holds (λ held. HoldsPart held (take count bytes) (K.told sink.new).holds))) }
    ensures short { IfErr result (λ e. OnShort e (λ at. (at < count) × Told (S.told source.old).left (λ bytes. length bytes ≡ at))) }
    ensures all { IfErr result (λ e. OnShort e (λ _. Told (S.told source.old).left (λ bytes. Told (K.told sink.old).holds (λ held. (K.told sink.new).holds ≡ Some (held ++ bytes))))) }
    ensures left { OnErr result (Told (S.told source.old).left (λ bytes. HasRest bytes count (S.told source.new).left)) }
    ensures moved { OnOk result (raised (S.told source.new).moved 0 ≡ raised (S.told source.old).moved count) }
    ensures moved_short { IfErr result (λ e. OnShort e (λ at. (S.told source.new).moved ≡ raised (S.told source.old).moved at)) }
    ensures took { (S.told source.new).moved ≤ (S.told source.old).moved + count }
    ensures read_fault { IfErr result (λ e. OnReadFault e (Rose (S.told source.old).faults (S.told source.new).faults)) }
    ensures write_fault { IfErr result (λ e. OnWriteFault e (Rose (K.told sink.old).faults (K.told sink.new).faults)) }
    ensures read_faults_never_fall { (S.told source.old).faults ≤ (S.told source.new).faults }
    ensures write_faults_never_fall { (K.told sink.old).faults ≤ (K.told sink.new).faults }
{
    let mut at: u64 = 0;
    'pieces: while at < count {
        match move_piece(buffer, source, count - at, sink) {
            Err(fault) => return Err(fault),
            Ok(0) => return Err(SendError::Short { at }),
            Ok(moved) => at += moved,
        }
    }
    Ok(())
}

/// Moves the next piece from the source to the sink: at most `left` bytes. Returns how many there were. If the source tells its
/// bytes, 0 says that it has no more.
fn move_piece<S: Source, K: Sink>(
    buffer: &mut [u8],
    source: &mut S,
    left: u64,
    sink: &mut K,
) -> Result<u64, SendError>
    requires some { 0 < length buffer.old }
    requires wanted { 0 < left }
    ensures few { IfOk result (λ n. n ≤ left) }
    ensures enough { IfOk result (λ n. Told (S.told source.old).left (λ bytes. n ≤ length bytes)) }
    ensures whole { IfOk result (λ n. Told (S.told source.old).left (λ bytes. Told (K.told sink.old).holds (λ held. (K.told sink.new).holds ≡ Some (held ++ take n bytes)))) }
    ensures rest { IfOk result (λ n. Told (S.told source.old).left (λ bytes. (S.told source.new).left ≡ Some (drop n bytes))) }
    ensures end { IfOk result (λ n. n ≡ 0 → Told (S.told source.old).left (λ bytes. bytes ≡ [])) }
    ensures moved { IfOk result (λ n. (S.told source.new).moved ≡ raised (S.told source.old).moved n) }
    ensures part { OnErr result (Told (S.told source.old).left (λ bytes. Told (K.told sink.old).holds (λ held. HoldsPart held (take left bytes) (K.told sink.new).holds))) }
    ensures left { OnErr result (Told (S.told source.old).left (λ bytes. HasRest bytes left (S.told source.new).left)) }
    ensures took_few { OnErr result ((S.told source.new).moved ≤ (S.told source.old).moved + left) }
    ensures not_short { IfErr result (λ e. OnShort e (λ _. ⊥)) }
    ensures read_fault { IfErr result (λ e. OnReadFault e (Rose (S.told source.old).faults (S.told source.new).faults)) }
    ensures write_fault { IfErr result (λ e. OnWriteFault e (Rose (K.told sink.old).faults (K.told sink.new).faults)) }
    ensures read_faults_never_fall { (S.told source.old).faults ≤ (S.told source.new).faults }
    ensures write_faults_never_fall { (K.told sink.old).faults ≤ (K.told sink.new).faults }
{
    match read_next(source, buffer, left) {
        Err(Failed) => Err(SendError::ReadFault),
        Ok(count) => {
            let (piece, _) = buffer.split_at(count);
            match write_all(sink, piece) {
                Err(Failed) => Err(SendError::WriteFault),
                Ok(()) => Ok(count as u64),
            }
        }
    }
}

/// Reads the next piece into the beginning of the buffer, at most `left` bytes, and returns how many came. If the source tells its
/// bytes, 0 says that it has no more.
pub(crate) fn read_next<S: Source>(
    source: &mut S,
    buffer: &mut [u8],
    left: u64,
) -> Result<usize, Failed>
    requires some { 0 < length buffer.old }
    requires wanted { 0 < left }
    ensures room { IfOk result (λ n. n ≤ length buffer.old) }
    ensures few { IfOk result (λ n. n ≤ left) }
    ensures enough { IfOk result (λ n. Told (S.told source.old).left (λ bytes. n ≤ length bytes)) }
    ensures count { IfOk result (λ n. (S.told source.new).moved ≡ raised (S.told source.old).moved n) }
    ensures content { IfOk result (λ n. Told (S.told source.old).left (λ bytes. take n buffer.new ≡ take n bytes)) }
    ensures rest { IfOk result (λ n. Told (S.told source.old).left (λ bytes. (S.told source.new).left ≡ Some (drop n bytes))) }
    ensures end { IfOk result (λ n. n ≡ 0 → Told (S.told source.old).left (λ bytes. bytes ≡ [])) }
    ensures stays { OnErr result ((S.told source.new).moved ≡ (S.told source.old).moved) }
    ensures rest_stays { OnErr result (Told (S.told source.old).left (λ bytes. (S.told source.new).left ≡ Some bytes)) }
    ensures rose { OnErr result (Rose (S.told source.old).faults (S.told source.new).faults) }
    ensures never_falls { (S.told source.old).faults ≤ (S.told source.new).faults }
{
    let most = left.min(buffer.len() as u64) as usize;
    let (front, _) = buffer.split_at_mut(most);
    source.read(front)
}
