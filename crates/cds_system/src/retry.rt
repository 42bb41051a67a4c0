//! Reads and writes that a signal interrupted are tried again.

ghost use Rattle.std.specs.Prelude.{◌≤◌, length, IfOk};

use std::io;
use std::io::{ErrorKind, Read, Write};

/// Reads once into the beginning of the buffer. It reads again if a signal interrupted it.
pub fn read_again<S: Read>(stream: &mut S, into: &mut [u8]) -> io::Result<usize>
    ensures { IfOk result (λ n. n ≤ length into.old) }
{
    for _ in 0..u64::MAX {
        match stream.read(into) {
            Ok(count) => return Ok(count),
            Err(error) => {
                if error.kind() != ErrorKind::Interrupted {
                    return Err(error);
                }
            }
        }
    }
    Err(io::Error::from(ErrorKind::TimedOut))
}

/// Writes a prefix of the piece once. It writes again if a signal interrupted it.
pub fn write_again<S: Write>(stream: &mut S, piece: &[u8]) -> io::Result<usize>
    ensures { IfOk result (λ n. n ≤ length piece.now) }
{
    for _ in 0..u64::MAX {
        match stream.write(piece) {
            Ok(count) => return Ok(count),
            Err(error) => {
                if error.kind() != ErrorKind::Interrupted {
                    return Err(error);
                }
            }
        }
    }
    Err(io::Error::from(ErrorKind::TimedOut))
}
