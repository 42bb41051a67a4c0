//! The places of objects in the library.

ghost use Rattle.std.specs.Prelude.{◌≡◌, [], IfOk, nat_eq, nat_le, ◌||◌, refl};
ghost use Rattle.std.specs.List.{list_any, slice_split};
ghost use Rattle.std.specs.Ordering.{as_partial_cmp};
ghost use Rattle.cds_object.specs.Path.{path_cmp, same_path, parent_of, name_of, is_bad_name, bad_name_at};
ghost use Rattle.cds_object.specs.PathAnswer.{IsPathAnswer};
ghost use Rattle.cds_object.specs.PathOrder.{paths_total, paths_tie, paths_equal, paths_agree, paths_in_part};

use crate::PathError;
use cds_base::{Mem, Sequence, Text};
use std::alloc::Global;
use std::cmp::Ordering;
use std::marker::Model;

/// The place of an object in the library: the names of the folders that lead to it, and its own name. The place of the
/// root has no name. Contracts see the list of the names, each as the list of its bytes.
#[derive(Drop, Debug)]
pub struct Path {
    names: Sequence<Text>,
}

impl Model for Path {
    ghost use Rattle.std.specs.Prelude.{ℕ, List};

    ghost Value = { List (List ℕ) };

    ghost view = { λ p. p.names };
}

/// The most names that lead to an object, with its own.
const MOST_NAMES: usize = 16;

/// The most bytes of a name.
const LONGEST_NAME: usize = 255;

/// The most bytes of the text of a path.
const LONGEST_TEXT: usize = 1024;

impl Path {
    /// Reads the place that a text names: 1 to 16 names separated by `/`. Each name has 1 to 255 bytes and no NUL, and
    /// is neither `.` nor `..`. The text has at most 1,024 bytes. Any other text is refused as `BadPath`.
    pub fn read(alloc: Global, text: &str) -> Result<Self, PathError>
        ensures { IsPathAnswer text.now result }
    {
        let names = split_names(alloc, text)?;
        if let Some(at) = first_bad_name(names.as_slice()) {
            return Err(PathError::BadPath { at });
        }
        if text.len() > LONGEST_TEXT {
            return Err(PathError::BadPath { at: LONGEST_TEXT });
        }
        Ok(Path { names })
    }

    /// Returns the place of the root.
    pub fn root(alloc: Global) -> Self
        ensures { result ≡ [] }
    {
        Path {
            names: Sequence::new(alloc),
        }
    }

    /// Returns the names that lead to the object. Its own name is the last.
    pub fn names(&self) -> &[Text]
        ensures { result.now ≡ self.now }
    {
        self.names.as_slice()
    }

    /// Returns the object's own name, empty for the root.
    pub fn name(&self) -> &str
        ensures { result.now ≡ name_of self.now }
    {
        match self.names.as_slice().last() {
            Some(name) => name.as_str(),
            None => "",
        }
    }

    /// Returns whether it is the place of the root.
    pub fn is_root(&self) -> bool
        ensures { result ≡ same_path self.now [] }
    {
        self.names.is_empty()
    }

    /// Returns the place of the folder in which the object stands. For the root it is the root again.
    pub fn parent(&self, alloc: Global) -> Result<Self, Mem>
        ensures { IfOk result (λ parent. parent ≡ parent_of self.now) }
    {
        let above = self.names.len().saturating_sub(1);
        let (folders, _) = self.names.as_slice().split_at(above);
        let mut names = Sequence::new(alloc);
        for name in folders {
            names.push(name.copy(alloc)?)?;
        }
        Ok(Path { names })
    }

    /// Returns an equal place.
    pub fn copy(&self, alloc: Global) -> Result<Self, Mem>
        ensures { IfOk result (λ copy. copy ≡ self.now) }
    {
        let mut names = Sequence::new(alloc);
        for name in self.names.as_slice() {
            names.push(name.copy(alloc)?)?;
        }
        Ok(Path { names })
    }
}

/// Returns the names that a text has between its `/`.
fn split_names(alloc: Global, text: &str) -> Result<Sequence<Text>, Mem>
    ensures { IfOk result (λ names. names ≡ slice_split (λ b. nat_eq b 47) text.now) }
{
    let mut names = Sequence::new(alloc);
    for name in text.split('/') {
        names.push(Text::read(alloc, name)?)?;
    }
    Ok(names)
}

/// Returns the place in the text of the first name that cannot stand in a path. A 17th name cannot stand.
fn first_bad_name(names: &[Text]) -> Option<usize>
    ensures { result ≡ bad_name_at 0 0 names.now }
{
    let mut at = 0;
    for (number, name) in names.iter().enumerate() {
        if is_bad_there(number, name) {
            return Some(at);
        }
        at += name.len() + 1;
    }
    None
}

/// Returns whether a name cannot stand in a path with this many names before it.
fn is_bad_there(number: usize, name: &Text) -> bool
    ensures { result ≡ (nat_le 16 number || is_bad_name name.now) }
{
    number >= MOST_NAMES || is_bad(name.as_str())
}

/// Returns whether a name cannot stand in a path.
fn is_bad(name: &str) -> bool
    ensures { result ≡ is_bad_name name.now }
{
    name.is_empty() || name.len() > LONGEST_NAME || name == "." || name == ".." || has_nul(name)
}

fn has_nul(name: &str) -> bool
    ensures { result ≡ list_any (λ b. nat_eq b 0) name.now }
{
    name.as_bytes().contains(&0)
}

impl PartialEq for Path {
    ghost eq = { same_path };

    ghost laws = { paths_agree };

    fn eq(&self, other: &Path) -> bool {
        self.names == other.names
    }
}

impl Eq for Path {
    ghost laws = { paths_equal };
}

impl Ord for Path {
    ghost cmp = { path_cmp };

    ghost total = { paths_total };

    ghost matches_partial_cmp = { λ x y. refl };

    ghost matches_eq = { paths_tie };

    fn cmp(&self, other: &Path) -> Ordering {
        self.names.cmp(&other.names)
    }
}

impl PartialOrd for Path {
    ghost partial_cmp = { as_partial_cmp path_cmp };

    ghost laws = { paths_in_part };

    fn partial_cmp(&self, other: &Path) -> Option<Ordering> {
        Some(self.cmp(other))
    }
}
