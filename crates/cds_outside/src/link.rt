//! The link of the outside, which sends requests and brings replies.

use cds_base::{Bytes, Mem, Text};
use std::alloc::Global;
use std::convert::From;
use std::error::Error;
use std::fmt;

/// Why a link gave no reply.
#[derive(Clone, Copy, Debug, PartialEq, Eq)]
pub enum LinkFault {
    /// The link failed, and its count of faults says so.
    Failed,
    /// Memory ran out.
    Mem,
    /// The reply is longer than the limit. The count of faults says so too.
    Over,
}

impl fmt::Display for LinkFault {
    fn fmt<W: fmt::Write>(&self, f: &mut fmt::Formatter<W>) -> fmt::Result {
        match self {
            LinkFault::Failed => write!(f, "a link failed"),
            LinkFault::Mem => write!(f, "out of memory"),
            LinkFault::Over => write!(f, "a reply is longer than its limit"),
        }
    }
}

impl Error for LinkFault {}

impl From<Mem> for LinkFault {
    ghost use Rattle.std.specs.Prelude.{◌≡◌};
    ghost use Rattle.cds_outside.specs.declared.link.LinkFault.TheVariants.{Mem};

    ghost from_gives = { λ _ e. e ≡ Mem };

    fn from(_e: cds_base::Mem) -> Self {
        LinkFault::Mem
    }
}

/// What a link sent: the address, the bytes of the request, and the limit, in bytes, of its reply.
#[derive(Drop, Debug)]
pub struct LinkRequest {
    pub url: Text,
    pub bytes: Bytes,
    pub limit: usize,
}

/// Sends a request to an address and brings the reply.
pub trait Link {
    ghost use Rattle.std.specs.Prelude.{◌≡◌, ◌≤◌, length, Some, IfOk};
    ghost use Rattle.cds_outside.specs.Outside.{Told};
    ghost use Rattle.cds_outside.specs.Links.{IsFirstReply, LinkRose, LinkTold, PassesFirst, WhereOver, requests_after};

    // What it tells of itself.
    ghost told: { Self → LinkTold };

    /// Sends the request to the address, and returns the reply's bytes, at most `limit`. `Over` comes exactly if `limit` bytes
    /// came and one more. `Failed` and `Over` come only if the count of faults rises.
    fn exchange(
        &mut self,
        alloc: Global,
        url: &str,
        request: &[u8],
        limit: usize,
    ) -> Result<Vec<u8>, LinkFault>
        ensures within { IfOk result (λ reply. length reply.items ≤ limit) }
        ensures reply { IfOk result (λ reply. Told (told self.old).replies (λ list. IsFirstReply reply.items list (told self.new).replies)) }
        ensures over { WhereOver result (Told (told self.old).replies (λ list. PassesFirst limit list (told self.new).replies)) }
        ensures requests { Told (told self.old).requests (λ list. (told self.new).requests ≡ Some (requests_after result (record { url = url.now; bytes = request.now; limit = limit }) list)) }
        ensures rose { LinkRose result (told self.old).faults (told self.new).faults }
        ensures never_falls { (told self.old).faults ≤ (told self.new).faults };
}
