//! Tests of scans of folders whose calls or files fail. The examples show what a scan finds otherwise.

use crate::made::{MEMORY, folder_item, only, text_of, tree};
use cds_base::{Bytes, Sequence};
use cds_flac::FlacError;
use cds_memory::{MemFolder, MemItem};
use cds_object::{Content, Record};
use cds_scan::{RefusedFile, Scan, ScanError, scan};
use std::alloc::Global;
use std::process::Abort;

/// A file of 44,100 Hz, 2 channels, 16 bits and 441,000 samples, with the comment `TITLE=Z`.
const FILE: [u8; 65] = [
    0x66, 0x4C, 0x61, 0x43, 0x00, 0x00, 0x00, 0x22, 0x03, 0xE8, 0x03, 0xE8, 0x00, 0x00, 0x00, 0x00,
    0x00, 0x00, 0x0A, 0xC4, 0x42, 0xF0, 0x00, 0x06, 0xBA, 0xA8, 0x00, 0x00, 0x00, 0x00, 0x00, 0x00,
    0x00, 0x00, 0x00, 0x00, 0x00, 0x00, 0x00, 0x00, 0x00, 0x00, 0x84, 0x00, 0x00, 0x13, 0x00, 0x00,
    0x00, 0x00, 0x01, 0x00, 0x00, 0x00, 0x07, 0x00, 0x00, 0x00, 0x54, 0x49, 0x54, 0x4C, 0x45, 0x3D,
    0x5A,
];

/// A folder or a file.
#[derive(Drop)]
struct ItemCase {
    /// Its path, which ends in `/` if it is a folder's.
    path: &'static str,
    /// How many bytes of `FILE` it has, if it is a file. One that has more bytes than `FILE` cannot be opened.
    bytes: usize,
    /// The read of it that fails, 0 for none.
    fails: u32,
}

/// A file that is refused.
#[derive(Drop)]
struct RefusedCase {
    path: &'static str,
    error: FlacError,
}

/// The titles of records, and the refused files, each in its order.
#[derive(Drop)]
struct Found {
    titles: &'static [&'static str],
    refused: &'static [RefusedCase],
}

/// The items of a folder, the call of it that fails, 0 for none, and what a scan answers.
#[derive(Drop)]
struct ScanCase {
    name: &'static str,
    items: &'static [ItemCase],
    fails: u32,
    answer: Result<Found, ScanError>,
}

/// A folder and a track.
const TWO: [ItemCase; 2] = [
    ItemCase {
        path: "a/",
        bytes: 0,
        fails: 0,
    },
    ItemCase {
        path: "x.flac",
        bytes: 65,
        fails: 0,
    },
];

const CASES: [ScanCase; 9] = [
    ScanCase {
        name: "nothing",
        items: &[],
        fails: 0,
        answer: Ok(Found {
            titles: &[],
            refused: &[],
        }),
    },
    ScanCase {
        name: "a file that is cut off, one that fails at its second read, and one that cannot be opened",
        items: &[
            ItemCase {
                path: "v.flac",
                bytes: 66,
                fails: 0,
            },
            ItemCase {
                path: "u.flac",
                bytes: 65,
                fails: 2,
            },
            ItemCase {
                path: "bad.flac",
                bytes: 48,
                fails: 0,
            },
            ItemCase {
                path: "good.flac",
                bytes: 65,
                fails: 0,
            },
        ],
        fails: 0,
        answer: Ok(Found {
            titles: &["Z"],
            refused: &[
                RefusedCase {
                    path: "bad.flac",
                    error: FlacError::Truncated { at: 48 },
                },
                RefusedCase {
                    path: "u.flac",
                    error: FlacError::ReadFault,
                },
                RefusedCase {
                    path: "v.flac",
                    error: FlacError::ReadFault,
                },
            ],
        }),
    },
    ScanCase {
        name: "a folder's path that no object may have",
        items: &[
            ItemCase {
                path: "a/",
                bytes: 0,
                fails: 0,
            },
            ItemCase {
                path: "a/../",
                bytes: 0,
                fails: 0,
            },
        ],
        fails: 0,
        answer: Err(ScanError::TooDeep { bytes: 4 }),
    },
    ScanCase {
        name: "such a path of a file that is no track",
        items: &[
            ItemCase {
                path: "x.flac",
                bytes: 3,
                fails: 0,
            },
            ItemCase {
                path: "..",
                bytes: 3,
                fails: 0,
            },
            ItemCase {
                path: "b/",
                bytes: 0,
                fails: 0,
            },
        ],
        fails: 0,
        answer: Err(ScanError::TooDeep { bytes: 2 }),
    },
    ScanCase {
        name: "the first entry fails",
        items: &TWO,
        fails: 1,
        answer: Err(ScanError::FolderFault),
    },
    ScanCase {
        name: "the second entry fails",
        items: &TWO,
        fails: 2,
        answer: Err(ScanError::FolderFault),
    },
    ScanCase {
        name: "the open fails",
        items: &TWO,
        fails: 3,
        answer: Ok(Found {
            titles: &["a"],
            refused: &[RefusedCase {
                path: "x.flac",
                error: FlacError::ReadFault,
            }],
        }),
    },
    ScanCase {
        name: "the last entry fails",
        items: &TWO,
        fails: 4,
        answer: Err(ScanError::FolderFault),
    },
    ScanCase {
        name: "none of the calls fails",
        items: &TWO,
        fails: 5,
        answer: Ok(Found {
            titles: &["a", "Z"],
            refused: &[],
        }),
    },
];

/// Returns what a file holds, or `None` if it cannot be opened.
fn bytes_of<R: Abort>(rt: &R, alloc: Global, length: usize) -> Option<Bytes> {
    match FILE.get(..length) {
        None => None,
        Some(bytes) => {
            let bytes = Vec::from_slice(alloc, bytes).expect(rt, MEMORY);
            Some(Bytes::from(bytes))
        }
    }
}

/// Makes a file.
fn file_item<R: Abort>(rt: &R, alloc: Global, item: &ItemCase) -> MemItem {
    MemItem::FileItem {
        path: text_of(rt, alloc, item.path),
        size: 65,
        bytes: bytes_of(rt, alloc, item.bytes),
        fails: only(rt, alloc, item.fails),
    }
}

/// Makes a file or a folder.
fn item_of<R: Abort>(rt: &R, alloc: Global, item: &ItemCase) -> MemItem {
    match item.path.strip_suffix('/') {
        Some(folder) => folder_item(rt, alloc, folder),
        None => file_item(rt, alloc, item),
    }
}

/// Makes the folder of a case.
fn folder_of<R: Abort>(rt: &R, alloc: Global, case: &ScanCase) -> MemFolder {
    let mut list = Sequence::new(alloc);
    for item in case.items {
        list.push(item_of(rt, alloc, item)).expect(rt, MEMORY);
    }
    tree(rt, list, only(rt, alloc, case.fails))
}

/// Returns the title that a content has.
fn title_of(content: &Content) -> &str {
    match content {
        Content::Folder { title } => title.as_str(),
        Content::Track(track) => track.title.as_str(),
    }
}

/// Checks that records have the titles of a case.
fn check_titles<R: Abort>(rt: &R, records: &[Record], titles: &[&str], name: &str) {
    for (record, title) in records.iter().zip(titles) {
        assert!(rt;
            title_of(&record.content) == *title,
            "{name}: the title {title}"
        );
    }
    assert!(rt; records.len() == titles.len(), "{name}: how many records");
}

/// Checks that exactly the files of a case are refused.
fn check_refused<R: Abort>(rt: &R, files: &[RefusedFile], cases: &[RefusedCase], name: &str) {
    for (file, case) in files.iter().zip(cases) {
        assert!(rt;
            file.path.as_str() == case.path,
            "{name}: the path {}",
            case.path
        );
        assert!(rt;
            file.error == case.error,
            "{name}: the error of {}",
            case.path
        );
    }
    assert!(rt;
        files.len() == cases.len(),
        "{name}: how many files are refused"
    );
}

/// Checks what a scan answers.
fn check_answer<R: Abort>(rt: &R, answer: &Result<Scan, ScanError>, case: &ScanCase) {
    match (answer, &case.answer) {
        (Ok(scan), Ok(found)) => {
            check_titles(rt, scan.records.as_slice(), found.titles, case.name);
            check_refused(rt, scan.refused.as_slice(), found.refused, case.name);
        }
        (Err(error), Err(want)) => assert!(rt; error == want, "{}: the error", case.name),
        (Ok(_), Err(_)) => panic!(rt; "{}: the folder is scanned", case.name),
        (Err(_), Ok(_)) => panic!(rt; "{}: the folder is not scanned", case.name),
    }
}

/// Scans a folder, and checks the answer.
fn check_scan<R: Abort>(rt: &R, alloc: Global, folder: &mut MemFolder, case: &ScanCase) {
    let answer = scan(alloc, folder);
    check_answer(rt, &answer, case);
}

/// Checks a case, and that the folder got back each file that it opened.
fn check_case<R: Abort>(rt: &R, alloc: Global, case: &ScanCase) {
    let mut folder = folder_of(rt, alloc, case);
    check_scan(rt, alloc, &mut folder, case);
    let is_back = folder.opened() == folder.returned();
    assert!(rt; is_back, "{}: the files that came back", case.name);
}

#[test]
fn scans_of_folders_that_fail(rt: HostRuntime) {
    for case in &CASES {
        check_case(&rt, rt.alloc(), case);
    }
}
