//! Tests of the program over an outside in memory, in which a stream or a folder fails. The examples show what it does
//! otherwise.

use crate::made::{MEMORY, calls, sink, source};
use cds_base::{Numbers, Sequence, Text, Words};
use cds_memory::{MemFolder, MemItem, MemObjects, MemOutside, MemSink, are_tree};
use cds_outside::Runtime;
use cds_program::run;
use std::alloc::Global;
use std::process::Abort;

/// A command, what it is given, which calls fail, and what becomes of it.
#[derive(Drop)]
struct CommandCase {
    name: &'static str,
    /// The words of the command line.
    words: &'static [&'static str],
    /// What standard input holds.
    input: &'static str,
    /// The reads, the writes and the calls of the folder that fail.
    reads: &'static [u32],
    writes: &'static [u32],
    calls: &'static [u32],
    /// The folders in the folder of the outside.
    folders: &'static [&'static str],
    status: u8,
    /// How many faults the outside counts.
    faults: u64,
    /// What is written.
    text: &'static str,
}

/// The listing of a folder with nothing in it.
const LISTING: &str =
    "<container id=\"0\" parentID=\"-1\" restricted=\"1\" searchable=\"1\" childCount=\"0\"><dc:title>root</dc:title><upnp:class>object.container</upnp:class><upnp:objectUpdateID>0</upnp:objectUpdateID><upnp:containerUpdateID>0</upnp:containerUpdateID><upnp:totalDeletedChildCount>0</upnp:totalDeletedChildCount></container>\n";

/// How a generated script begins, up to its first track.
const GENERATED: &str =
    "load\nread\nread\nread\nread\nread\nread\nsubscribe\naccept\ndeliver 1\nfolder f0\n";

const CASES: [CommandCase; 20] = [
    CommandCase {
        name: "replay, the first read",
        words: &["replay"],
        input: "ask\n",
        reads: &[1],
        writes: &[],
        calls: &[],
        folders: &[],
        status: 2,
        faults: 0,
        text: "",
    },
    CommandCase {
        name: "replay, the second read",
        words: &["replay"],
        input: "ask\n",
        reads: &[2],
        writes: &[],
        calls: &[],
        folders: &[],
        status: 2,
        faults: 0,
        text: "behind load\n",
    },
    CommandCase {
        name: "replay, the first write",
        words: &["replay"],
        input: "ask\n",
        reads: &[],
        writes: &[1],
        calls: &[],
        folders: &[],
        status: 3,
        faults: 0,
        text: "",
    },
    CommandCase {
        name: "summary, the first read",
        words: &["summary"],
        input: "ask\n",
        reads: &[1],
        writes: &[],
        calls: &[],
        folders: &[],
        status: 2,
        faults: 0,
        text: "",
    },
    CommandCase {
        name: "summary, the second read",
        words: &["summary"],
        input: "ask\n",
        reads: &[2],
        writes: &[],
        calls: &[],
        folders: &[],
        status: 2,
        faults: 0,
        text: "",
    },
    CommandCase {
        name: "summary, the first write",
        words: &["summary"],
        input: "ask\n",
        reads: &[],
        writes: &[1],
        calls: &[],
        folders: &[],
        status: 3,
        faults: 0,
        text: "",
    },
    CommandCase {
        name: "summary, the first write, of the last line",
        words: &["summary"],
        input: "ask\nasks\n",
        reads: &[],
        writes: &[1],
        calls: &[],
        folders: &[],
        status: 3,
        faults: 0,
        text: "",
    },
    CommandCase {
        name: "generate, the first write",
        words: &["generate", "7", "1"],
        input: "",
        reads: &[],
        writes: &[1],
        calls: &[],
        folders: &[],
        status: 3,
        faults: 0,
        text: "",
    },
    CommandCase {
        name: "generate, the third write",
        words: &["generate", "7", "1"],
        input: "",
        reads: &[],
        writes: &[3],
        calls: &[],
        folders: &[],
        status: 3,
        faults: 0,
        text: GENERATED,
    },
    CommandCase {
        name: "check, the second read",
        words: &["check"],
        input: " ",
        reads: &[2],
        writes: &[],
        calls: &[],
        folders: &[],
        status: 2,
        faults: 0,
        text: "",
    },
    CommandCase {
        name: "check, the first write",
        words: &["check"],
        input: " ",
        reads: &[],
        writes: &[1],
        calls: &[],
        folders: &[],
        status: 3,
        faults: 0,
        text: "",
    },
    CommandCase {
        name: "no words, the first write",
        words: &[],
        input: "",
        reads: &[],
        writes: &[1],
        calls: &[],
        folders: &[],
        status: 3,
        faults: 0,
        text: "",
    },
    CommandCase {
        name: "an unknown word, the first write",
        words: &["play"],
        input: "",
        reads: &[],
        writes: &[1],
        calls: &[],
        folders: &[],
        status: 3,
        faults: 0,
        text: "",
    },
    CommandCase {
        name: "the version, the first write",
        words: &["--version"],
        input: "",
        reads: &[],
        writes: &[1],
        calls: &[],
        folders: &[],
        status: 3,
        faults: 0,
        text: "",
    },
    CommandCase {
        name: "the help, the first write",
        words: &["--help"],
        input: "",
        reads: &[],
        writes: &[1],
        calls: &[],
        folders: &[],
        status: 3,
        faults: 0,
        text: "",
    },
    CommandCase {
        name: "scan, nothing fails",
        words: &["scan", "x"],
        input: "",
        reads: &[],
        writes: &[],
        calls: &[],
        folders: &[],
        status: 0,
        faults: 0,
        text: LISTING,
    },
    CommandCase {
        name: "scan, the first write",
        words: &["scan", "x"],
        input: "",
        reads: &[],
        writes: &[1],
        calls: &[],
        folders: &[],
        status: 3,
        faults: 0,
        text: "",
    },
    CommandCase {
        name: "scan, the first entry",
        words: &["scan", "x"],
        input: "",
        reads: &[],
        writes: &[],
        calls: &[1],
        folders: &["a"],
        status: 2,
        faults: 1,
        text: "",
    },
    CommandCase {
        name: "scan, the second entry",
        words: &["scan", "x"],
        input: "",
        reads: &[],
        writes: &[],
        calls: &[2],
        folders: &["a"],
        status: 2,
        faults: 1,
        text: "",
    },
    CommandCase {
        name: "scan, a path that no object may have",
        words: &["scan", "x"],
        input: "",
        reads: &[],
        writes: &[],
        calls: &[],
        folders: &["a", "a/.."],
        status: 6,
        faults: 0,
        text: "error limit\n",
    },
];

/// Makes the words of a command line.
pub fn words_of<R: Abort>(rt: &R, alloc: Global, words: &[&str]) -> Words {
    let mut list = Words::new(alloc);
    for word in words {
        let word = Text::read(alloc, word).expect(rt, MEMORY);
        list.push(word).expect(rt, MEMORY);
    }
    list
}

/// Makes folders at these paths.
fn items_of<R: Abort>(rt: &R, alloc: Global, folders: &[&str]) -> Sequence<MemItem> {
    let mut items = Sequence::new(alloc);
    for folder in folders {
        let path = Text::read(alloc, folder).expect(rt, MEMORY);
        items.push(MemItem::FolderItem { path }).expect(rt, MEMORY);
    }
    items
}

/// Makes a folder with these folders, of which these calls fail. They must be a tree.
fn folder_of<R: Abort>(rt: &R, alloc: Global, folders: &[&str], fails: &[u32]) -> MemFolder {
    let fails = calls(rt, alloc, fails);
    let items = items_of(rt, alloc, folders);
    let is_whole = are_tree(items.as_slice());
    if is_whole {
        MemFolder::new(items, fails)
    } else {
        panic!(rt; "no tree")
    }
}

/// Makes an outside's objects: that folder alone.
fn objects_of<R: Abort>(rt: &R, alloc: Global, folder: MemFolder) -> MemObjects<R> {
    let mut objects = MemObjects::new(alloc);
    objects.folders.push(folder).expect(rt, MEMORY);
    objects
}

/// Returns the status of the case's command with the case's input.
fn status_of<R: Runtime + Abort>(
    rt: &R,
    alloc: Global,
    case: &CommandCase,
    sink: &mut MemSink,
    outside: &mut MemOutside<R>,
) -> u8 {
    let words = words_of(rt, alloc, case.words);
    let mut source = source(rt, alloc, case.input.as_bytes(), case.reads);
    run(rt, alloc, &words, &mut source, sink, outside)
}

/// Checks the status of the command, the faults that the outside counts, and what is written.
fn check_command<R: Runtime + Abort>(
    rt: &R,
    alloc: Global,
    case: &CommandCase,
    outside: &mut MemOutside<R>,
) {
    let mut sink = sink(rt, alloc, case.writes);
    let status = status_of(rt, alloc, case, &mut sink, outside);
    assert!(rt; status == case.status, "{}: the status {status}", case.name);
    assert!(rt;
        outside.faults() == case.faults,
        "{}: the faults",
        case.name
    );
    assert!(rt;
        sink.as_slice() == case.text.as_bytes(),
        "{}: the text",
        case.name
    );
}

/// Checks a case over an outside with the folder of the case alone.
fn check_case<R: Runtime + Abort>(rt: &R, alloc: Global, case: &CommandCase) {
    let folder = folder_of(rt, alloc, case.folders, case.calls);
    let objects = objects_of(rt, alloc, folder);
    let mut outside = MemOutside::new(objects, Numbers::new(alloc));
    check_command(rt, alloc, case, &mut outside);
}

#[test]
fn faults_have_their_statuses(rt: HostRuntime) {
    for case in &CASES {
        check_case(&rt, rt.alloc(), case);
    }
}
