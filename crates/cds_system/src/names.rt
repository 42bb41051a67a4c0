//! The names in a folder of the real file system, as bytes. The system gives no kind with a name. So each name is judged by its
//! bytes first: one that nothing is served by need not be text.

use crate::retry::read_again;
use std::alloc::Global;
use std::io::Read;
use std::{io, str};

/// The number of bytes of names that are read at once. The longest name and its end take 256.
const PIECE: usize = 4096;

/// How a file's name ends, if it is listed. The case of its letters does not matter.
const FLAC: &[u8] = b".flac";

/// The names in an open folder.
#[derive(Drop)]
pub struct Names<D: Read + Drop> {
    folder: D,
    names: Vec<u8>,
    at: usize,
}

/// What a name can be the name of, by its bytes.
#[derive(Clone, Copy, PartialEq, Eq)]
pub enum NameKind {
    /// A folder or a FLAC file.
    Either,
    /// A folder alone: as a file it is passed over.
    Folder,
    /// A FLAC file alone: as a folder it is passed over.
    Flac,
    /// Nothing that is listed.
    Nothing,
}

impl<D: Read + Drop> Names<D> {
    /// Makes the names of a folder that was opened.
    pub fn new(alloc: Global, folder: D) -> Self {
        Names {
            folder,
            names: Vec::new(alloc),
            at: 0,
        }
    }

    /// Returns the next name, or `None` at the end.
    pub fn next(&mut self, alloc: Global) -> io::Result<Option<Vec<u8>>> {
        if self.at >= self.names.len() && !self.fill()? {
            return Ok(None);
        }
        self.take(alloc)
    }

    /// Reads more names. Returns whether there were any.
    fn fill(&mut self) -> io::Result<bool> {
        let mut piece = [0u8; PIECE];
        let count = read_again(&mut self.folder, &mut piece)?;
        let (came, _) = piece.split_at(count);
        self.names.clear();
        self.names.extend_from_slice(came)?;
        self.at = 0;
        Ok(count > 0)
    }

    /// Takes the name that stands next among those that were read.
    fn take(&mut self, alloc: Global) -> io::Result<Option<Vec<u8>>> {
        let name = Vec::from_slice(alloc, name_at(self.names.as_slice(), self.at))?;
        self.at = self.at.saturating_add(name.len()).saturating_add(1);
        Ok(Some(name))
    }
}

/// Returns the name that begins at a place, up to its NUL.
fn name_at(names: &[u8], at: usize) -> &[u8] {
    let (_, left) = names.split_at(at.min(names.len()));
    let length = left.iter().position(|byte| *byte == 0);
    let (name, _) = left.split_at(length.unwrap_or(left.len()).min(left.len()));
    name
}

/// Returns what a name can be the name of. Folders whose name begins with a dot and files whose name begins with `._` are passed
/// over, and so are files that are not FLAC files by their name.
pub fn kind_of(name: &[u8]) -> NameKind {
    let is_hidden = name.starts_with(b".");
    let is_flac = ends_in_flac(name) && !name.starts_with(b"._");
    match (is_hidden, is_flac) {
        (true, true) => NameKind::Flac,
        (true, false) => NameKind::Nothing,
        (false, true) => NameKind::Either,
        (false, false) => NameKind::Folder,
    }
}

/// Returns whether a name ends in `.flac`, in any case of its letters.
fn ends_in_flac(name: &[u8]) -> bool {
    let before = name.len().saturating_sub(FLAC.len());
    match name.get(before..) {
        Some(last) => last.eq_ignore_ascii_case(FLAC),
        None => false,
    }
}

/// Returns whether a name ends as the names of files do: in a dot, a letter, and one to three letters or digits. A name that is
/// no text cannot be looked up, so this tells a picture from a folder.
pub fn has_file_ending(name: &[u8]) -> bool {
    match name.rsplit(|byte| *byte == b'.').next() {
        Some(last) => last.len() < name.len() && is_file_ending(last),
        None => false,
    }
}

/// Returns whether these bytes are a letter, and one to three letters or digits.
fn is_file_ending(last: &[u8]) -> bool {
    match last.split_first() {
        Some((first, others)) => {
            first.is_ascii_alphabetic()
                && (1..4).contains(&others.len())
                && others.iter().all(|byte| byte.is_ascii_alphanumeric())
        }
        None => false,
    }
}
