//! Tests of the folder of the system, over folders that they make: that it gives each entry with its path and begins anew, and
//! that its files give their bytes.

ghost use Rattle.std.specs.Prelude.{IsTrue};
ghost use Rattle.std.specs.List.{list_any};
ghost use Rattle.cds_outside.specs.Entries.{is_file_at};

use crate::made::MEMORY;
use cds_base::Text;
use cds_outside::{Entry, Folder, FolderFault, Outside, Source};
use cds_system::{RealDoor, RealOutside};
use std::alloc::Global;
use std::fs;
use std::net::Net;
use std::process::Abort;
use std::rt::Files;
use std::sync::Wait;
use std::time::Clock;

/// Returns a path at which nothing stands yet. It is named after a port that no one else has.
fn free_path<R: Net + Wait + Clock + Clone + Copy + Drop + Abort>(rt: R, alloc: Global) -> String {
    let door = RealDoor::open(rt, alloc, 0).expect(&rt, "no door");
    let port = door.port().expect(&rt, "no port");
    format!(in alloc; "/tmp/cds-folder-{port}").expect(&rt, MEMORY)
}

/// Makes a folder with a folder in it, and a file of five bytes in that.
fn make<R: Files + Abort>(rt: &R, alloc: Global, root: &str) {
    let inner = format!(in alloc; "{root}/Slow").expect(rt, MEMORY);
    let file = format!(in alloc; "{root}/Slow/a b.flac").expect(rt, MEMORY);
    fs::create_dir_all(rt, inner.as_str()).expect(rt, "no folder is made");
    fs::write(rt, file.as_str(), b"12345").expect(rt, "no file is written");
}

/// Removes the folder at a path, with all in it.
fn remove<R: Files + Abort>(rt: &R, alloc: Global, root: &str) {
    rt.remove_dir_all(alloc, root)
        .expect(rt, "the folder stays");
}

/// Returns an entry as a line.
fn line_of<R: Abort>(rt: &R, alloc: Global, entry: &Entry) -> String {
    match entry {
        Entry::Folder { path } => {
            let path = path.as_str();
            format!(in alloc; "folder {path}\n").expect(rt, MEMORY)
        }
        Entry::File { path, size } => {
            let path = path.as_str();
            format!(in alloc; "file {path} {size}\n").expect(rt, MEMORY)
        }
        Entry::End => format!(in alloc; "end\n").expect(rt, MEMORY),
    }
}

/// Returns what a folder gives, an entry a line. It is called `calls` times, or until a call fails.
fn listing<R: Abort, F: Folder>(rt: &R, alloc: Global, folder: &mut F, calls: u32) -> String {
    let mut lines = String::new(alloc);
    for _ in 0..calls {
        match folder.entry(alloc) {
            Ok(entry) => {
                let line = line_of(rt, alloc, &entry);
                lines.push_str(line.as_str()).expect(rt, MEMORY);
            }
            Err(FolderFault::Failed) => {
                lines.push_str("failed\n").expect(rt, MEMORY);
                break;
            }
            Err(FolderFault::Mem) => {
                lines.push_str("memory\n").expect(rt, MEMORY);
                break;
            }
        }
    }
    lines
}

/// Checks what a folder gives in four calls.
fn check_listing<R: Abort, F: Folder>(rt: &R, alloc: Global, folder: &mut F, want: &str) {
    let given = listing(rt, alloc, folder, 4);
    assert!(rt; given.as_str() == want, "{given}");
}

/// What four calls give of the folder that is made: its two entries, its end, and its first entry again.
const LISTED: &str = "folder Slow\nfile Slow/a b.flac 5\nend\nfolder Slow\n";

#[test]
fn a_folder_gives_its_entries_and_begins_anew(rt: HostRuntime) {
    let alloc = rt.alloc();
    let root = free_path(rt, alloc);
    make(&rt, alloc, root.as_str());
    let mut outside = RealOutside::new(rt);
    let mut folder = outside
        .folder(alloc, root.as_str())
        .expect(&rt, "no folder");
    check_listing(&rt, alloc, &mut folder, LISTED);
    remove(&rt, alloc, root.as_str());
    folder.restart();
    check_listing(&rt, alloc, &mut folder, "failed\n");
}

/// A file, which holds a text `times` times and is read in pieces of at most `piece` bytes.
#[derive(Drop)]
struct FileCase {
    name: &'static str,
    text: &'static str,
    times: usize,
    piece: usize,
}

const FILES: [FileCase; 5] = [
    FileCase {
        name: "an empty file",
        text: "",
        times: 0,
        piece: 8,
    },
    FileCase {
        name: "five bytes, two at once",
        text: "12345",
        times: 1,
        piece: 2,
    },
    FileCase {
        name: "five bytes, with more room",
        text: "12345",
        times: 1,
        piece: 8,
    },
    FileCase {
        name: "10,000 bytes, 3,000 at once",
        text: "0123456789",
        times: 1_000,
        piece: 3_000,
    },
    FileCase {
        name: "10,000 bytes, 5,000 at once",
        text: "0123456789",
        times: 1_000,
        piece: 5_000,
    },
];

/// Returns the bytes that the file of a case holds.
fn bytes_of<R: Abort>(rt: &R, alloc: Global, case: &FileCase) -> Vec<u8> {
    let mut bytes = Vec::new(alloc);
    for _ in 0..case.times {
        bytes
            .extend_from_slice(case.text.as_bytes())
            .expect(rt, MEMORY);
    }
    bytes
}

/// Returns the path and the size of the next entry of a folder, which has to be a file.
#[tactic(auto, using(cds_outside::proofs::Given::just_given))]
fn next_file<R: Abort, F: Folder>(rt: &R, alloc: Global, folder: &mut F) -> (Text, u64)
    ensures { IsTrue (list_any (is_file_at result.0) (F.told folder.new).given) }
{
    match folder.entry(alloc) {
        Ok(Entry::File { path, size }) => (path, size),
        _ => panic!(rt; "the next entry is no file"),
    }
}

/// Reads a source to its end in the pieces of a case, and checks that these bytes come, and no more behind the end.
fn check_bytes<R: Abort, S: Source>(rt: &R, source: &mut S, bytes: &[u8], case: &FileCase) {
    let mut into = [0u8; 5_000];
    let mut left = bytes;
    for _ in 0..bytes.len() {
        let count = source
            .read(&mut into[..case.piece.min(5_000)])
            .expect(rt, case.name);
        if count == 0 {
            break;
        }
        left = left.strip_prefix(&into[..count]).expect(rt, case.name);
    }
    assert!(rt; left.is_empty(), "{}: bytes are missing", case.name);
    assert!(rt; source.read(&mut into) == Ok(0), "{}: the end", case.name);
    assert!(rt;
        source.read(&mut into) == Ok(0),
        "{}: the end once more",
        case.name
    );
}

/// Checks that the next entry of a folder is a file of these bytes, which are read to their end.
fn check_file<R: Abort, F: Folder>(
    rt: &R,
    alloc: Global,
    folder: &mut F,
    bytes: &[u8],
    case: &FileCase,
) {
    let (path, size) = next_file(rt, alloc, folder);
    assert!(rt; size == bytes.len() as u64, "{}: the size", case.name);
    let mut file = folder.open(alloc, path.as_str()).expect(rt, case.name);
    check_bytes(rt, &mut file, bytes, case);
    folder.done(file);
}

/// Makes the file of a case in the folder at a path, and checks what the folder gives of it.
fn check_case<R: Files + Abort, O: Outside>(
    rt: &R,
    alloc: Global,
    outside: &mut O,
    root: &str,
    case: &FileCase,
) {
    let bytes = bytes_of(rt, alloc, case);
    put_file(rt, alloc, root, bytes.as_slice());
    let mut folder = outside.folder(alloc, root).expect(rt, "no folder");
    check_file(rt, alloc, &mut folder, bytes.as_slice(), case);
    outside.end_folder(folder);
}

/// Writes the only file of the folder at a path.
fn put_file<R: Files + Abort>(rt: &R, alloc: Global, root: &str, bytes: &[u8]) {
    let file = format!(in alloc; "{root}/a.flac").expect(rt, MEMORY);
    fs::create_dir_all(rt, root).expect(rt, "no folder is made");
    fs::write(rt, file.as_str(), bytes).expect(rt, "no file is written");
}

#[test]
fn a_file_gives_its_bytes_up_to_its_end(rt: HostRuntime) {
    let root = free_path(rt, rt.alloc());
    let mut outside = RealOutside::new(rt);
    for case in &FILES {
        check_case(&rt, rt.alloc(), &mut outside, root.as_str(), case);
    }
    remove(&rt, rt.alloc(), root.as_str());
}

/// Checks that the next entry of the folder at a path is a file, which cannot be opened when all at that path is gone.
fn check_gone<R: Files + Abort, F: Folder>(rt: &R, alloc: Global, folder: &mut F, root: &str) {
    let (path, size) = next_file(rt, alloc, folder);
    assert!(rt; size == 5);
    remove(rt, alloc, root);
    match folder.open(alloc, path.as_str()) {
        Ok(file) => {
            folder.done(file);
            panic!(rt; "a file that is gone was opened")
        }
        Err(fault) => assert!(rt; fault == FolderFault::Failed),
    }
}

/// Makes a folder with a file at a path, and checks this of it.
fn check_gone_at<R: Files + Abort, O: Outside>(rt: &R, alloc: Global, outside: &mut O, root: &str) {
    put_file(rt, alloc, root, b"12345");
    let mut folder = outside.folder(alloc, root).expect(rt, "no folder");
    check_gone(rt, alloc, &mut folder, root);
    outside.end_folder(folder);
}

#[test]
fn a_file_that_is_gone_is_not_opened(rt: HostRuntime) {
    let root = free_path(rt, rt.alloc());
    let mut outside = RealOutside::new(rt);
    check_gone_at(&rt, rt.alloc(), &mut outside, root.as_str());
}
