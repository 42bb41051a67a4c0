//! What the outside in memory was asked for.

ghost use Rattle.std.specs.Prelude.{◌≡◌};

use cds_outside::Trace;

/// What the outside in memory was asked for.
#[derive(Drop)]
pub enum Ask {
    /// The folder at a path.
    Folder { path: Trace<u8> },
    /// A link.
    Link,
    /// A clock.
    Clock,
    /// The door at a port.
    Door { port: u16 },
    /// A spawner.
    Spawner,
    /// The datagrams of a port.
    Datagrams { port: u16 },
}

/// Returns bytes, which only contracts see.
pub fn traced(bytes: &[u8]) -> Trace<u8>
    ensures { result ≡ bytes.now }
{
    let mut trace = Trace::new();
    for byte in bytes {
        trace.push(*byte);
    }
    trace
}
