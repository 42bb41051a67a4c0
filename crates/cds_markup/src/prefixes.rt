//! The namespaces that a start tag declares, and how a prefix is looked up among many.

ghost use Rattle.std.specs.Prelude.{◌≡◌, IfOk, OnOk};
ghost use Rattle.std.specs.Str.{bytes_eq};
ghost use Rattle.std.specs.Ordering.{nat_cmp};
ghost use Rattle.std.specs.Cmp.Lexicographic.{slice_cmp};
ghost use Rattle.std.specs.BTreeMap.{get};
ghost use Rattle.cds_markup.specs.Namespaces.{declared};
ghost use Rattle.cds_markup.specs.Prefixes.{said_at, Indexes, PutsPlace};

use crate::namespace::Namespace;
use crate::tag::Declaration;
use cds_base::{Mem, Sequence, Text};
use std::alloc::Global;
use std::collections::BTreeMap;
use std::marker::Model;

/// The most declarations of a tag that are compared one by one. More have an index, since a tag may have thousands.
const MOST_COMPARED: usize = 16;

/// The place of the first declaration of each prefix.
type Index = BTreeMap<Text, usize>;

/// The namespaces that a tag declares, in order. Contracts see the list of declarations.
#[derive(Drop)]
pub struct Scope {
    listed: Sequence<Declaration>,
    /// There is an index if there are many.
    index: Option<Index>,
}

impl Model for Scope {
    ghost use Rattle.std.specs.Prelude.{List, IfSome};
    ghost use Rattle.cds_markup.specs.declared.tag.Declaration.{Declaration};
    ghost use Rattle.cds_markup.specs.Prefixes.{Indexes};

    ghost Value = { List Declaration };

    ghost view = { λ s. s.listed };

    ghost invariant = { λ s. IfSome s.index (Indexes s.listed s.listed) };
}

/// Returns whether the texts are the same. Most prefixes are empty, and for these the length alone decides.
fn same_text(one: &Text, other: &Text) -> bool
    ensures { result ≡ bytes_eq one.now other.now }
{
    if other.len() == 0 {
        one.len() == 0
    } else {
        one.as_str() == other.as_str()
    }
}

/// Returns what these declarations say of a prefix. They are compared one by one.
fn declared(found: &[Declaration], prefix: &Text) -> Result<Option<Namespace>, Mem>
    ensures { IfOk result (λ space. space ≡ declared found.now prefix.now) }
{
    for one in found {
        if same_text(&one.prefix, prefix) {
            let space = one.space.copy()?;
            return Ok(Some(space));
        }
    }
    Ok(None)
}

/// Puts the place of a declaration of this prefix into the index.
fn put_place(alloc: Global, index: &mut Index, prefix: &Text, place: usize) -> Result<(), Mem>
    ensures { OnOk result (PutsPlace index.old index.new prefix.now place) }
{
    let prefix = prefix.copy(alloc)?;
    index.insert(prefix, place)?;
    Ok(())
}

/// Returns the place of the first declaration of each prefix. It begins with the last, and earlier places replace later ones.
fn index_of(alloc: Global, listed: &[Declaration]) -> Result<Index, Mem>
    ensures { IfOk result (Indexes listed.now listed.now) }
{
    let mut index = BTreeMap::new(alloc);
    let mut at = listed.len();
    while at > 0 {
        at -= 1;
        put_place(alloc, &mut index, &listed[at].prefix, at)?;
    }
    Ok(index)
}

/// Returns what the declaration at a place says, if there is one.
fn said_at(listed: &[Declaration], place: Option<usize>) -> Result<Option<Namespace>, Mem>
    ensures { IfOk result (λ space. space ≡ said_at listed.now place) }
{
    let Some(place) = place else {
        return Ok(None);
    };
    let Some(one) = listed.get(place) else {
        return Ok(None);
    };
    let space = one.space.copy()?;
    Ok(Some(space))
}

/// Returns the place that the index has for a prefix.
fn place_of(index: &Index, prefix: &Text) -> Option<usize>
    ensures { result ≡ get (slice_cmp nat_cmp) index.now prefix.now }
{
    index.get(prefix).copied()
}

impl Scope {
    /// Makes a scope of these declarations.
    pub fn of(alloc: Global, listed: Sequence<Declaration>) -> Result<Self, Mem>
        ensures { IfOk result (λ scope. scope ≡ listed) }
    {
        let index = if listed.len() > MOST_COMPARED {
            Some(index_of(alloc, listed.as_slice())?)
        } else {
            None
        };
        Ok(Scope { listed, index })
    }

    /// Returns the declarations.
    pub fn as_slice(&self) -> &[Declaration]
        ensures { result.now ≡ self.now }
    {
        self.listed.as_slice()
    }

    /// Returns what the tag declares of a prefix.
    pub fn declared(&self, prefix: &Text) -> Result<Option<Namespace>, Mem>
        ensures { IfOk result (λ space. space ≡ declared self.now prefix.now) }
    {
        let listed = self.listed.as_slice();
        match &self.index {
            Some(index) => said_at(listed, place_of(index, prefix)),
            None => declared(listed, prefix),
        }
    }
}
