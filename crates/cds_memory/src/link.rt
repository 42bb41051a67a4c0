//! Links in memory.

ghost use Rattle.std.specs.Prelude.{◌≡◌, ◌==◌, ◌≤◌, ◌<◌, ◌||◌, ℕ, List, [], ◌∷◌, ◌++◌, length, drop, Some, IfOk, IsErr, IsTrue};
ghost use Rattle.cds_outside.specs.declared.link.LinkRequest.{LinkRequest};
ghost use Rattle.cds_outside.specs.Links.{IsFirstReply, LinkRose, PassesFirst, WhereOver, has_no_reply, requests_after};
ghost use Rattle.cds_memory.specs.Links.{LinkState, fresh_link};
ghost use Rattle.cds_memory.specs.Memory.{next_fails};
ghost use Rattle.cds_outside.specs.Outside.{raised};

use crate::streams::is_listed;
use cds_base::{Bytes, Mem, Numbers, Sequence, Text};
use cds_outside::{Link, LinkFault, LinkRequest};
use std::alloc::Global;
use std::marker::Model;

/// A link in memory. It gives the replies that it was made with, and keeps all requests. It fails at the calls that it was told,
/// and if no reply is left.
#[derive(Drop, Debug)]
pub struct MemLink {
    replies: Vec<Bytes>,
    requests: Sequence<LinkRequest>,
    calls: u64,
    faults: u64,
    fails: Numbers,
}

impl Model for MemLink {
    ghost use Rattle.cds_memory.specs.Links.{LinkState};

    ghost Value = { LinkState };

    ghost view = { λ s.
        record {
          replies = s.replies.items;
          requests = s.requests;
          calls = s.calls;
          faults = s.faults;
          fails = s.fails;
        } };
}

impl MemLink {
    /// Makes a link that gives these replies in their order. `fails` are the numbers, counted from 1, of the calls that are to
    /// fail.
    pub fn new(alloc: Global, replies: Sequence<Bytes>, fails: Numbers) -> Self
        ensures { result ≡ record { replies = replies; requests = []; calls = 0; faults = 0; fails = fails } }
    {
        MemLink {
            replies: replies.into_vec(),
            requests: Sequence::new(alloc),
            calls: 0,
            faults: 0,
            fails,
        }
    }

    /// Returns the same link before anything was asked of it.
    pub fn afresh(self, alloc: Global) -> Self
        ensures { result ≡ fresh_link self }
    {
        MemLink {
            replies: self.replies,
            requests: Sequence::new(alloc),
            calls: 0,
            faults: 0,
            fails: self.fails,
        }
    }

    /// Returns the requests that it took, in their order.
    pub fn requests(&self) -> &[LinkRequest]
        ensures { result.now ≡ self.now.requests }
    {
        self.requests.as_slice()
    }

    /// Returns how many calls failed, and how many replies were too long.
    pub fn faults(&self) -> u64
        ensures { result ≡ self.now.faults }
    {
        self.faults
    }
}

/// Returns a request that is kept.
fn request_of(alloc: Global, url: &str, bytes: &[u8], limit: usize) -> Result<LinkRequest, Mem>
    ensures { IfOk result (λ request. request ≡ record { url = url.now; bytes = bytes.now; limit = limit }) }
{
    let url = Text::read(alloc, url)?;
    let mut kept = Bytes::new(alloc);
    kept.extend(bytes)?;
    Ok(LinkRequest {
        url,
        bytes: kept,
        limit,
    })
}

impl Link for MemLink {
    ghost use Rattle.cds_memory.specs.Links.{link_told_of};

    ghost told = { link_told_of };

    fn exchange(
        &mut self,
        alloc: Global,
        url: &str,
        request: &[u8],
        limit: usize,
    ) -> Result<Vec<u8>, LinkFault>
        ensures fails { IsTrue ((length self.old.replies == 0) || next_fails self.old.fails self.old.calls) → IsErr result }
        ensures failed { IsTrue (has_no_reply result) → IsTrue ((length self.old.replies == 0) || next_fails self.old.fails self.old.calls) }
        ensures calls { self.new.calls ≡ raised self.old.calls 1 }
        ensures same { self.new.fails ≡ self.old.fails }
        ensures within { IfOk result (λ reply. length reply.items ≤ limit) }
        ensures reply { IfOk result (λ reply. IsFirstReply reply.items self.old.replies (Some self.new.replies)) }
        ensures over { WhereOver result (PassesFirst limit self.old.replies (Some self.new.replies)) }
        ensures requests { self.new.requests ≡ requests_after result (record { url = url.now; bytes = request.now; limit = limit }) self.old.requests }
        ensures rose { LinkRose result self.old.faults self.new.faults }
        ensures never_falls { self.old.faults ≤ self.new.faults }
    {
        self.calls = self.calls.saturating_add(1);
        self.requests.push(request_of(alloc, url, request, limit)?)?;
        if self.replies.is_empty() || is_listed(self.fails.as_slice(), self.calls) {
            self.faults = self.faults.saturating_add(1);
            return Err(LinkFault::Failed);
        }
        let reply = self.replies.remove(0);
        if reply.len() > limit {
            self.faults = self.faults.saturating_add(1);
            return Err(LinkFault::Over);
        }
        Ok(reply.into_vec())
    }
}
