//! Sends bytes of a source over a connection, piece by piece. What the connection has left stays as it is.

ghost use Rattle.std.specs.Prelude.{◌≡◌, ◌+◌, ◌<◌, ◌≤◌, [], Some, ◌++◌, length, take, drop, IfErr, IfOk, OnErr, OnOk};
ghost use Rattle.cds_outside.specs.Outside.{HoldsPart, Rose, Told, raised};
ghost use Rattle.cds_media.specs.Sent.{HasRest, OnReadFault, OnShort, OnWriteFault};

use crate::SendError;
use crate::sending::{PIECE, read_next};
use cds_outside::{Conn, Failed, Source};

/// Sends the next `count` bytes of the source over the connection, as `send` does. After a failure, a prefix of them was written.
/// `ReadFault` comes only if the source's count of faults rises, and `WriteFault` only if the connection's does. If neither count
/// rises, `Short` comes exactly if the source ends before `count` bytes; `at` is how many it had. What the connection has left stays
/// as it is.
pub fn send_over<S: Source, C: Conn>(
    source: &mut S,
    count: u64,
    conn: &mut C,
) -> Result<(), SendError>
    ensures whole { OnOk result (Told (S.told source.old).left (λ bytes. Told (C.Sink.told conn.old).holds (λ held. (C.Sink.told conn.new).holds ≡ Some (held ++ take count bytes)))) }
    ensures enough { OnOk result (Told (S.told source.old).left (λ bytes. count ≤ length bytes)) }
    ensures rest { OnOk result (Told (S.told source.old).left (λ bytes. (S.told source.new).left ≡ Some (drop count bytes))) }
    ensures part { OnErr result (Told (S.told source.old).left (λ bytes. Told (C.Sink.told conn.old).holds (λ held. HoldsPart held (take count bytes) (C.Sink.told conn.new).holds))) }
    ensures short { IfErr result (λ e. OnShort e (λ at. (at < count) × Told (S.told source.old).left (λ bytes. length bytes ≡ at))) }
    ensures all { IfErr result (λ e. OnShort e (λ _. Told (S.told source.old).left (λ bytes. Told (C.Sink.told conn.old).holds (λ held. (C.Sink.told conn.new).holds ≡ Some (held ++ bytes))))) }
    ensures left { OnErr result (Told (S.told source.old).left (λ bytes. HasRest bytes count (S.told source.new).left)) }
    ensures moved { OnOk result (raised (S.told source.new).moved 0 ≡ raised (S.told source.old).moved count) }
    ensures moved_short { IfErr result (λ e. OnShort e (λ at. (S.told source.new).moved ≡ raised (S.told source.old).moved at)) }
    ensures took { (S.told source.new).moved ≤ (S.told source.old).moved + count }
    ensures read_fault { IfErr result (λ e. OnReadFault e (Rose (S.told source.old).faults (S.told source.new).faults)) }
    ensures write_fault { IfErr result (λ e. OnWriteFault e (Rose (C.Sink.told conn.old).faults (C.Sink.told conn.new).faults)) }
    ensures read_faults_never_fall { (S.told source.old).faults ≤ (S.told source.new).faults }
    ensures write_faults_never_fall { (C.Sink.told conn.old).faults ≤ (C.Sink.told conn.new).faults }
    ensures source_stays { C.Source.told conn.new ≡ C.Source.told conn.old }
    ensures finished_stays { C.finished conn.new ≡ C.finished conn.old }
{
    let mut buffer = [0u8; PIECE];
    send_through(&mut buffer, source, count, conn)
}

/// Sends bytes through a buffer, which has room.
fn send_through<S: Source, C: Conn>(
    buffer: &mut [u8],
    source: &mut S,
    count: u64,
    conn: &mut C,
) -> Result<(), SendError>
    requires { 0 < length buffer.old }
    ensures whole { OnOk result (Told (S.told source.old).left (λ bytes. Told (C.Sink.told conn.old).holds (λ held. (C.Sink.told conn.new).holds ≡ Some (held ++ take count bytes)))) }
    ensures enough { OnOk result (Told (S.told source.old).left (λ bytes. count ≤ length bytes)) }
    ensures rest { OnOk result (Told (S.told source.old).left (λ bytes. (S.told source.new).left ≡ Some (drop count bytes))) }
    ensures part { OnErr result (Told (S.told source.old).left (λ bytes. Told (C.Sink.told conn.old).holds (λ held. HoldsPart held (take count bytes) (C.Sink.told conn.new).holds))) }
    ensures short { IfErr result (λ e. OnShort e (λ at. (at < count) × Told (S.told source.old).left (λ bytes. length bytes ≡ at))) }
    ensures all { IfErr result (λ e. OnShort e (λ _. Told (S.told source.old).left (λ bytes. Told (C.Sink.told conn.old).holds (λ held. (C.Sink.told conn.new).holds ≡ Some (held ++ bytes))))) }
    ensures left { OnErr result (Told (S.told source.old).left (λ bytes. HasRest bytes count (S.told source.new).left)) }
    ensures moved { OnOk result (raised (S.told source.new).moved 0 ≡ raised (S.told source.old).moved count) }
    ensures moved_short { IfErr result (λ e. OnShort e (λ at. (S.told source.new).moved ≡ raised (S.told source.old).moved at)) }
    ensures took { (S.told source.new).moved ≤ (S.told source.old).moved + count }
    ensures read_fault { IfErr result (λ e. OnReadFault e (Rose (S.told source.old).faults (S.told source.new).faults)) }
    ensures write_fault { IfErr result (λ e. OnWriteFault e (Rose (C.Sink.told conn.old).faults (C.Sink.told conn.new).faults)) }
    ensures read_faults_never_fall { (S.told source.old).faults ≤ (S.told source.new).faults }
    ensures write_faults_never_fall { (C.Sink.told conn.old).faults ≤ (C.Sink.told conn.new).faults }
    ensures source_stays { C.Source.told conn.new ≡ C.Source.told conn.old }
    ensures finished_stays { C.finished conn.new ≡ C.finished conn.old }
{
    let mut at: u64 = 0;
    'pieces: while at < count {
        match move_piece(buffer, source, count - at, conn) {
            Err(fault) => return Err(fault),
            Ok(0) => return Err(SendError::Short { at }),
            Ok(moved) => at += moved,
        }
    }
    Ok(())
}

/// Moves the next piece from the source to the connection: at most `left` bytes. Returns how many there were. If the source tells
/// its bytes, 0 says that it has no more.
fn move_piece<S: Source, C: Conn>(
    buffer: &mut [u8],
    source: &mut S,
    left: u64,
    conn: &mut C,
) -> Result<u64, SendError>
    requires some { 0 < length buffer.old }
    requires wanted { 0 < left }
    ensures few { IfOk result (λ n. n ≤ left) }
    ensures enough { IfOk result (λ n. Told (S.told source.old).left (λ bytes. n ≤ length bytes)) }
    ensures whole { IfOk result (λ n. Told (S.told source.old).left (λ bytes. Told (C.Sink.told conn.old).holds (λ held. (C.Sink.told conn.new).holds ≡ Some (held ++ take n bytes)))) }
    ensures rest { IfOk result (λ n. Told (S.told source.old).left (λ bytes. (S.told source.new).left ≡ Some (drop n bytes))) }
    ensures end { IfOk result (λ n. n ≡ 0 → Told (S.told source.old).left (λ bytes. bytes ≡ [])) }
    ensures moved { IfOk result (λ n. (S.told source.new).moved ≡ raised (S.told source.old).moved n) }
    ensures part { OnErr result (Told (S.told source.old).left (λ bytes. Told (C.Sink.told conn.old).holds (λ held. HoldsPart held (take left bytes) (C.Sink.told conn.new).holds))) }
    ensures left { OnErr result (Told (S.told source.old).left (λ bytes. HasRest bytes left (S.told source.new).left)) }
    ensures took_few { OnErr result ((S.told source.new).moved ≤ (S.told source.old).moved + left) }
    ensures not_short { IfErr result (λ e. OnShort e (λ _. ⊥)) }
    ensures read_fault { IfErr result (λ e. OnReadFault e (Rose (S.told source.old).faults (S.told source.new).faults)) }
    ensures write_fault { IfErr result (λ e. OnWriteFault e (Rose (C.Sink.told conn.old).faults (C.Sink.told conn.new).faults)) }
    ensures read_faults_never_fall { (S.told source.old).faults ≤ (S.told source.new).faults }
    ensures write_faults_never_fall { (C.Sink.told conn.old).faults ≤ (C.Sink.told conn.new).faults }
    ensures source_stays { C.Source.told conn.new ≡ C.Source.told conn.old }
    ensures finished_stays { C.finished conn.new ≡ C.finished conn.old }
{
    match read_next(source, buffer, left) {
        Err(Failed) => Err(SendError::ReadFault),
        Ok(count) => {
            let (piece, _) = buffer.split_at(count);
            match send_whole(conn, piece) {
                Err(Failed) => Err(SendError::WriteFault),
                Ok(()) => Ok(count as u64),
            }
        }
    }
}

/// Sends the whole piece. After a failure, a prefix of it may have been taken.
fn send_whole<C: Conn>(conn: &mut C, piece: &[u8]) -> Result<(), Failed>
    ensures content { OnOk result (Told (C.Sink.told conn.old).holds (λ held. (C.Sink.told conn.new).holds ≡ Some (held ++ piece.now))) }
    ensures part { OnErr result (Told (C.Sink.told conn.old).holds (λ held. HoldsPart held piece.now (C.Sink.told conn.new).holds)) }
    ensures rose { OnErr result (Rose (C.Sink.told conn.old).faults (C.Sink.told conn.new).faults) }
    ensures never_falls { (C.Sink.told conn.old).faults ≤ (C.Sink.told conn.new).faults }
    ensures source_stays { C.Source.told conn.new ≡ C.Source.told conn.old }
    ensures finished_stays { C.finished conn.new ≡ C.finished conn.old }
{
    let mut at = 0;
    'pieces: while at < piece.len() {
        let (_, left) = piece.split_at(at);
        at += conn.send(left)?;
    }
    Ok(())
}
