//! What a script says was found since the last scan.

ghost use Rattle.std.specs.Prelude.{◌≡◌, ◌<◌, ◌^◌, ◌++◌, [], ◌∷◌, map, IfOk, OnOk};
ghost use Rattle.cds_script.specs.FoundFile.{with_comment, track_record};
ghost use Rattle.cds_script.specs.Report.{commented, last_commented, folder_record, record_of};

use cds_base::{Mem, Sequence};
use cds_object::{Comment, FlacInfo, Path, Record, Records, content_of, folder_of};
use std::alloc::Global;
use std::marker::Model;

/// A file that a script says was found: its place, what it says, and its size in bytes.
#[derive(Drop, Debug)]
pub struct FoundFile {
    path: Path,
    info: FlacInfo,
    size: u64,
}

impl Model for FoundFile {
    ghost use Rattle.std.specs.Prelude.{◌<◌, ◌^◌};
    ghost use Rattle.cds_script.specs.FoundFile.{FoundFile as FileFound};

    ghost Value = { FileFound };

    ghost view = { λ f. record { path = f.path; info = f.info; size = f.size } };

    ghost invariant = { λ f. f.info.samples < 2 ^ 36 };
}

impl FoundFile {
    /// Returns a file at a place, with what it says and its size in bytes.
    pub fn new(path: Path, info: FlacInfo, size: u64) -> FoundFile
        requires { info.samples < 2 ^ 36 }
        ensures { result ≡ record { path = path; info = info; size = size } }
    {
        FoundFile { path, info, size }
    }

    /// Puts a comment after those that the file has.
    pub fn add(&mut self, comment: Comment) -> Result<(), Mem>
        ensures { OnOk result (self.new ≡ with_comment comment self.old) }
    {
        self.info.comments.push(comment)
    }

    /// Returns the record of the track: what its file says.
    pub fn record(&self, alloc: Global) -> Result<Record, Mem>
        ensures { IfOk result (λ made. made ≡ track_record self.now) }
    {
        let content = content_of(alloc, &self.info, self.path.name(), self.size)?;
        let path = self.path.copy(alloc)?;
        Ok(Record { path, content })
    }
}

/// One thing that a script says was found.
#[derive(Drop, Debug)]
pub enum Found {
    Folder { path: Path },
    Track { file: FoundFile },
}

impl Found {
    /// Returns the record of what was found.
    pub fn record(&self, alloc: Global) -> Result<Record, Mem>
        ensures { IfOk result (λ made. made ≡ record_of self.now) }
    {
        match self {
            Found::Folder { path } => folder_record(alloc, path),
            Found::Track { file } => file.record(alloc),
        }
    }
}

/// Returns the same with a comment put to it, if it is a track.
fn with_comment(one: Found, comment: Comment) -> Result<Found, Mem>
    ensures { IfOk result (λ made. made ≡ commented comment one) }
{
    match one {
        Found::Folder { path } => Ok(Found::Folder { path }),
        Found::Track { mut file } => {
            file.add(comment)?;
            Ok(Found::Track { file })
        }
    }
}

/// Returns the record of a folder, whose title is its name, cleaned.
fn folder_record(alloc: Global, path: &Path) -> Result<Record, Mem>
    ensures { IfOk result (λ made. made ≡ folder_record path.now) }
{
    let content = folder_of(alloc, path.name())?;
    let path = path.copy(alloc)?;
    Ok(Record { path, content })
}

/// What a script says was found since the last scan, in the order of its lines.
#[derive(Drop, Debug)]
pub struct FoundList {
    items: Vec<Found>,
}

impl Model for FoundList {
    ghost use Rattle.std.specs.Prelude.{List};
    ghost use Rattle.cds_script.specs.declared.found.Found.{Found as OneFound};

    ghost Value = { List OneFound };

    ghost view = { λ f. f.items.items };
}

impl FoundList {
    /// Returns an empty list, which takes no memory.
    pub fn new(alloc: Global) -> FoundList
        ensures { result ≡ [] }
    {
        FoundList {
            items: Vec::new(alloc),
        }
    }

    /// Adds one thing.
    pub fn push(&mut self, one: Found) -> Result<(), Mem>
        ensures { OnOk result (self.new ≡ self.old ++ one ∷ []) }
    {
        self.items.push(one)?;
        Ok(())
    }

    /// Puts a comment to the last thing, if it is a track.
    pub fn tag(&mut self, comment: Comment) -> Result<(), Mem>
        ensures { OnOk result (self.new ≡ last_commented comment self.old) }
    {
        match self.items.pop() {
            None => Ok(()),
            Some(one) => {
                let one = with_comment(one, comment)?;
                self.items.push(one)?;
                Ok(())
            }
        }
    }

    /// Returns the records of what was found.
    pub fn records(&self, alloc: Global) -> Result<Records, Mem>
        ensures { IfOk result (λ records. records ≡ map record_of self.now) }
    {
        let mut records = Sequence::new(alloc);
        for one in self.items.as_slice() {
            records.push(one.record(alloc)?)?;
        }
        Ok(records)
    }
}
