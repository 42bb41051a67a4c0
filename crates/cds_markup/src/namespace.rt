//! Namespaces, which many names share.

ghost use Rattle.std.specs.Prelude.{◌≡◌, [], length, IfOk};
ghost use Rattle.std.specs.Str.{bytes_eq};
ghost use Rattle.cds_markup.specs.Shared.{hash_of};

use cds_base::Mem;
use std::alloc::Global;
use std::fmt;
use std::fmt::{Debug, Formatter};
use std::hash::{DefaultHasher, Hasher};
use std::marker::Model;
use std::rc::Rc;

/// A text that is not empty, with the hash of its bytes. Contracts see the list of its bytes.
#[derive(Drop)]
pub struct Hashed {
    text: String,
    hash: u64,
}

impl Model for Hashed {
    ghost use Rattle.std.specs.Prelude.{◌≡◌, ℕ, List, string_bytes};
    ghost use Rattle.cds_markup.specs.Shared.{hash_of};

    ghost Value = { List ℕ };

    ghost view = { λ h. string_bytes h.text };

    ghost invariant = { λ h. h.hash ≡ hash_of (string_bytes h.text) };
}

/// Returns the hash of a text.
fn hash_of(text: &str) -> u64
    ensures { result ≡ hash_of text.now }
{
    if text.is_empty() {
        return 0;
    }
    let mut hasher = DefaultHasher::new();
    hasher.write(text.as_bytes());
    hasher.finish()
}

/// The namespace of a name, or none. Names share it, so that it takes memory once, however many elements have it. Contracts see
/// the list of its bytes, which is empty for none.
#[derive(Drop)]
pub struct Namespace {
    shared: Option<Rc<Hashed>>,
}

impl Model for Namespace {
    ghost use Rattle.std.specs.Prelude.{ℕ, List};
    ghost use Rattle.cds_markup.specs.Shared.{shared_bytes};

    ghost Value = { List ℕ };

    ghost view = { λ n. shared_bytes n.shared };
}

impl Debug for Namespace {
    fn fmt<W: fmt::Write>(&self, f: &mut Formatter<W>) -> fmt::Result {
        Debug::fmt(self.as_str(), f)
    }
}

/// Returns the text and its hash in memory that several owners share.
fn share(alloc: Global, text: &str) -> Result<Rc<Hashed>, Mem>
    ensures { IfOk result (λ shared. shared.value ≡ text.now) }
{
    let hash = hash_of(text);
    let text = String::from_str(alloc, text)?;
    match Rc::new(alloc, Hashed { text, hash }) {
        Ok(shared) => Ok(shared),
        Err(_) => Err(Mem),
    }
}

impl Namespace {
    /// Returns what stands for no namespace. It takes no memory.
    pub fn none() -> Self
        ensures { result ≡ [] }
    {
        Namespace { shared: None }
    }

    /// Makes a namespace with these bytes.
    pub fn read(alloc: Global, text: &str) -> Result<Self, Mem>
        ensures { IfOk result (λ space. space ≡ text.now) }
    {
        if text.is_empty() {
            return Ok(Namespace::none());
        }
        let shared = share(alloc, text)?;
        Ok(Namespace {
            shared: Some(shared),
        })
    }

    /// Returns the same namespace, which takes no more memory.
    pub fn copy(&self) -> Result<Self, Mem>
        ensures { IfOk result (λ copy. copy ≡ self.now) }
    {
        match &self.shared {
            Some(shared) => {
                let shared = shared.clone()?;
                Ok(Namespace {
                    shared: Some(shared),
                })
            }
            None => Ok(Namespace::none()),
        }
    }

    /// Returns the text, as std has it.
    pub fn as_str(&self) -> &str
        ensures { result.now ≡ self.now }
    {
        match &self.shared {
            Some(shared) => shared.as_ref().text.as_str(),
            None => "",
        }
    }

    /// Returns how many bytes there are.
    pub fn len(&self) -> usize
        ensures { result ≡ length self.now }
    {
        self.as_str().len()
    }

    /// Returns the hash of the text.
    pub fn hash(&self) -> u64
        ensures { result ≡ hash_of self.now }
    {
        match &self.shared {
            Some(shared) => shared.as_ref().hash,
            None => 0,
        }
    }
}
