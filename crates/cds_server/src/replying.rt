//! The texts of replies that are written after a server has answered.

ghost use Rattle.std.specs.Prelude.{◌≡◌, IsErr, IfOk};
ghost use Rattle.cds_control.specs.Making.{written_made};
ghost use Rattle.cds_server.specs.Asking.{Fits, FitsMade, IsAction, IsText, said, said_of, text_in};

use crate::asking::Asking;
use crate::made::Made;
use cds_base::{Bytes, Mem};
use cds_soap::Asked;
use std::alloc::Global;

/// Writes the reply, by what was asked and what a server made of it. Only the reply to an action takes memory: any other is there
/// already, and is not copied.
pub fn write_made(alloc: Global, asking: Asking, made: Made) -> Result<Bytes, Mem>
    requires fits { Fits asking made }
    ensures text { IfOk result (λ text. text ≡ said asking made) }
    ensures cause { IsErr result → IsAction asking }
{
    match asking {
        Asking::Ready(text) => Ok(text),
        Asking::Action { host, asked } => write_action(alloc, host.as_str(), &asked, made),
        Asking::Subscription(_) => Ok(text_in(made)),
    }
}

/// Returns the reply that a server made whole.
fn text_in(made: Made) -> Bytes
    requires { IsText made }
    ensures { result ≡ text_in made }
{
    match made {
        Made::Text(text) => text,
        Made::Ready => unreachable!(),
        Made::Action(_) => unreachable!(),
    }
}

/// Writes the reply to an action in the version that was asked.
fn write_action(alloc: Global, host: &str, asked: &Asked, made: Made) -> Result<Bytes, Mem>
    requires fits { FitsMade host.now asked.now made }
    ensures { IfOk result (λ text. text ≡ said_of host.now asked.now made) }
{
    match made {
        Made::Action(made) => cds_control::write_made(alloc, host, asked, made),
        Made::Ready => unreachable!(),
        Made::Text(_) => unreachable!(),
    }
}
