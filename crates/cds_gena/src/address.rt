//! The addresses of notes.

ghost use Rattle.std.specs.Prelude.{◌≡◌, ◌==◌, [], ◌++◌, length, IfOk, OnOk, OnErr, Some, is_some, option_copied, slice_get};
ghost use Rattle.cds_gena.specs.Asked.{url_in};
ghost use Rattle.cds_gena.specs.Subscribed.{IsDelivered};

use crate::gena::url_in;
use crate::sid::Sid;
use cds_base::{Mem, Text};
use std::alloc::Global;
use std::marker::Model;
use url::Url;

/// The address of one note: the name of its subscription, the URL at which it is delivered, and its SEQ.
#[derive(Drop, Debug)]
pub struct Address {
    pub sid: Sid,
    pub callback: Text,
    pub seq: u32,
}

impl Address {
    /// Returns whether notes can be delivered at its callback: the text of an `http` URL with a host.
    pub fn is_delivered(&self, alloc: Global) -> Result<bool, Mem>
        ensures { IfOk result (λ can. can ≡ is_some (url_in self.now.callback)) }
    {
        Ok(url_in(alloc, self.callback.as_str().as_bytes())?.is_some())
    }

    /// Returns the URL at which the note is delivered. The callback must be the text of an `http` URL with a host.
    pub fn url(&self, alloc: Global) -> Result<Url, Mem>
        requires delivered { IsDelivered self.now }
        ensures { IfOk result (λ url. url_in self.now.callback ≡ Some url) }
    {
        match url_in(alloc, self.callback.as_str().as_bytes())? {
            Some(url) => Ok(url),
            None => unreachable!(),
        }
    }
}

/// A list of addresses.
#[derive(Drop, Debug)]
pub struct Addresses {
    items: Vec<Address>,
}

impl Model for Addresses {
    ghost use Rattle.std.specs.Prelude.{List};
    ghost use Rattle.cds_gena.specs.declared.address.Address.{Address};

    ghost Value = { List Address };

    ghost view = { λ a. a.items.items };
}

impl Addresses {
    /// Returns the empty list. This takes no memory.
    pub fn new(alloc: Global) -> Addresses
        ensures { result ≡ [] }
    {
        Addresses {
            items: Vec::new(alloc),
        }
    }

    /// Appends others. If memory runs out, the list is as before.
    pub fn append(&mut self, mut more: Vec<Address>) -> Result<(), Mem>
        ensures ok { OnOk result (self.new ≡ self.old ++ more.items) }
        ensures err { OnErr result (self.new ≡ self.old) }
    {
        self.items.append(&mut more)?;
        Ok(())
    }

    /// Returns the number of addresses.
    pub fn len(&self) -> usize
        ensures { result ≡ length self.now }
    {
        self.items.len()
    }

    /// Returns whether the list is empty.
    pub fn is_empty(&self) -> bool
        ensures { result ≡ (length self.now == 0) }
    {
        self.items.is_empty()
    }

    /// Returns the address at a place counted from 0, or `None` past the end.
    pub fn get(&self, at: usize) -> Option<&Address>
        ensures { option_copied result ≡ slice_get self.now at }
    {
        self.items.get(at)
    }

    /// Returns all addresses.
    pub fn as_slice(&self) -> &[Address]
        ensures { result.now ≡ self.now }
    {
        self.items.as_slice()
    }
}
