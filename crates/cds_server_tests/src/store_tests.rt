//! Tests of both bodies of the store, by the calls that they have in common. No program runs the plain one. What it
//! keeps, the other one keeps.

ghost use Rattle.std.specs.Prelude.{◌<◌, ◌^◌, length};
ghost use Rattle.std.specs.List.{AllByRecursion};

use crate::made::{MEMORY, records_of, text_of};
use cds_browse::{browse, run_scans};
use cds_object::{Class, Event, Events, Records, Row, Trackers};
use cds_soap::BrowseRequest;
use cds_store::{ApplyError, Keeping, PlainStore, Span, Store, View};
use std::alloc::Global;
use std::process::Abort;

/// What a scan is answered.
#[derive(Clone, Copy)]
enum Answer {
    Took { from: u32, to: u32 },
    Bad { line: u32 },
    Spent { needed: u32 },
}

/// A row: its id, its parent's (0 for the root), its objectUpdateID, and what a container tracks.
#[derive(Drop)]
struct RowCase {
    id: u32,
    parent: u32,
    update: u32,
    trackers: Option<Trackers>,
}

/// A history of scans, and what both bodies keep of it.
#[derive(Drop)]
struct Case {
    name: &'static str,
    /// The first number.
    first: u32,
    /// The scans, parted by `|`, and what is answered to each.
    scans: &'static str,
    answers: &'static [Answer],
    /// The rows after all scans.
    rows: &'static [RowCase],
    /// The number up to which changes are then forgotten.
    forget: u32,
    /// The events, the containers and the ids of the root's children that are told then.
    events: &'static [Event],
    containers: &'static [(u32, u32)],
    children: &'static [u32],
}

const CASES: [Case; 5] = [
    Case {
        name: "a folder with a track goes, comes back, and its track changes",
        first: 10,
        scans: "R/ R/a | | R/ R/a | R/ R/a=2",
        answers: &[
            Answer::Took { from: 10, to: 12 },
            Answer::Took { from: 12, to: 14 },
            Answer::Took { from: 14, to: 16 },
            Answer::Took { from: 16, to: 17 },
        ],
        rows: &[
            RowCase {
                id: 0,
                parent: 0,
                update: 10,
                trackers: Some(Trackers {
                    container_update: 15,
                    child_count: 1,
                    deleted: 1,
                }),
            },
            RowCase {
                id: 3,
                parent: 0,
                update: 15,
                trackers: Some(Trackers {
                    container_update: 17,
                    child_count: 1,
                    deleted: 0,
                }),
            },
            RowCase {
                id: 4,
                parent: 3,
                update: 17,
                trackers: None,
            },
        ],
        forget: 12,
        events: &[
            Event::ObjDel {
                id: 2,
                update: 13,
                st: true,
            },
            Event::ObjDel {
                id: 1,
                update: 14,
                st: true,
            },
            Event::StDone { id: 1, update: 14 },
            Event::ObjAdd {
                id: 3,
                update: 15,
                st: true,
                parent: 0,
                class: Class::Container,
            },
            Event::ObjAdd {
                id: 4,
                update: 16,
                st: true,
                parent: 3,
                class: Class::Track,
            },
            Event::StDone { id: 3, update: 16 },
            Event::ObjMod {
                id: 4,
                update: 17,
                st: false,
            },
        ],
        containers: &[(0, 15), (3, 17)],
        children: &[3],
    },
    Case {
        name: "a folder takes the place of a track",
        first: 0,
        scans: "x y | x/ y",
        answers: &[
            Answer::Took { from: 0, to: 2 },
            Answer::Took { from: 2, to: 4 },
        ],
        rows: &[
            RowCase {
                id: 0,
                parent: 0,
                update: 0,
                trackers: Some(Trackers {
                    container_update: 4,
                    child_count: 2,
                    deleted: 1,
                }),
            },
            RowCase {
                id: 2,
                parent: 0,
                update: 2,
                trackers: None,
            },
            RowCase {
                id: 3,
                parent: 0,
                update: 4,
                trackers: Some(Trackers {
                    container_update: 4,
                    child_count: 0,
                    deleted: 0,
                }),
            },
        ],
        forget: 2,
        events: &[
            Event::ObjDel {
                id: 1,
                update: 3,
                st: false,
            },
            Event::ObjAdd {
                id: 3,
                update: 4,
                st: false,
                parent: 0,
                class: Class::Container,
            },
        ],
        containers: &[(0, 4), (3, 4)],
        children: &[2, 3],
    },
    Case {
        name: "records that are refused",
        first: 0,
        scans: "R/a R/ | R/a | a a/b | a b a=2 | a a x/y",
        answers: &[
            Answer::Took { from: 0, to: 2 },
            Answer::Bad { line: 1 },
            Answer::Bad { line: 2 },
            Answer::Bad { line: 3 },
            Answer::Bad { line: 2 },
        ],
        rows: &[
            RowCase {
                id: 0,
                parent: 0,
                update: 0,
                trackers: Some(Trackers {
                    container_update: 1,
                    child_count: 1,
                    deleted: 0,
                }),
            },
            RowCase {
                id: 1,
                parent: 0,
                update: 1,
                trackers: Some(Trackers {
                    container_update: 2,
                    child_count: 1,
                    deleted: 0,
                }),
            },
            RowCase {
                id: 2,
                parent: 1,
                update: 2,
                trackers: None,
            },
        ],
        forget: 2,
        events: &[],
        containers: &[],
        children: &[1],
    },
    Case {
        name: "numbers that run out",
        first: 4_294_967_293,
        scans: "a b c | b c",
        answers: &[
            Answer::Spent { needed: 3 },
            Answer::Took {
                from: 4_294_967_293,
                to: 4_294_967_295,
            },
        ],
        rows: &[
            RowCase {
                id: 0,
                parent: 0,
                update: 4_294_967_293,
                trackers: Some(Trackers {
                    container_update: 4_294_967_295,
                    child_count: 2,
                    deleted: 0,
                }),
            },
            RowCase {
                id: 1,
                parent: 0,
                update: 4_294_967_294,
                trackers: None,
            },
            RowCase {
                id: 2,
                parent: 0,
                update: 4_294_967_295,
                trackers: None,
            },
        ],
        forget: 4_294_967_294,
        events: &[Event::ObjAdd {
            id: 2,
            update: 4_294_967_295,
            st: false,
            parent: 0,
            class: Class::Track,
        }],
        containers: &[(0, 4_294_967_295)],
        children: &[1, 2],
    },
    Case {
        name: "a track goes and comes back beside another",
        first: 0,
        scans: "F/ F/a | F/ | F/ F/a F/b",
        answers: &[
            Answer::Took { from: 0, to: 2 },
            Answer::Took { from: 2, to: 3 },
            Answer::Took { from: 3, to: 5 },
        ],
        rows: &[
            RowCase {
                id: 0,
                parent: 0,
                update: 0,
                trackers: Some(Trackers {
                    container_update: 1,
                    child_count: 1,
                    deleted: 0,
                }),
            },
            RowCase {
                id: 1,
                parent: 0,
                update: 1,
                trackers: Some(Trackers {
                    container_update: 5,
                    child_count: 2,
                    deleted: 1,
                }),
            },
            RowCase {
                id: 3,
                parent: 1,
                update: 4,
                trackers: None,
            },
            RowCase {
                id: 4,
                parent: 1,
                update: 5,
                trackers: None,
            },
        ],
        forget: 4,
        events: &[Event::ObjAdd {
            id: 4,
            update: 5,
            st: false,
            parent: 1,
            class: Class::Track,
        }],
        containers: &[(1, 5)],
        children: &[1],
    },
];

/// Returns whether this is answered.
fn is_answer(answer: &Result<Span, ApplyError>, want: &Answer) -> bool {
    match (answer, want) {
        (Ok(span), Answer::Took { from, to }) => span.from == *from && span.to == *to,
        (Err(ApplyError::BadRecords { line }), Answer::Bad { line: at }) => line == at,
        (Err(ApplyError::Spent { needed }), Answer::Spent { needed: count }) => needed == count,
        _ => false,
    }
}

/// Returns whether a scan is answered so.
fn takes<R: Abort, K: Keeping>(
    rt: &R,
    alloc: Global,
    store: &mut K,
    scan: &str,
    want: &Answer,
) -> bool {
    let records = records_of(rt, alloc, scan);
    let answer = store.apply(alloc, &records);
    is_answer(&answer, want)
}

/// Scans, and checks what is answered to each scan of a case.
fn check_scans<R: Abort, K: Keeping>(rt: &R, alloc: Global, store: &mut K, case: &Case) {
    let mut at = 0usize;
    for scan in case.scans.split("|") {
        let want = case.answers.get(at).expect(rt, case.name);
        let is_answered = takes(rt, alloc, store, scan, want);
        assert!(rt; is_answered, "{}: the answer to `{scan}`", case.name);
        at = at.saturating_add(1);
    }
    assert!(rt; at == case.answers.len(), "{}: how many scans", case.name);
}

/// Checks that there is a row, and that it is this one. It was found by its place or by its id.
fn check_row<R: Abort>(rt: &R, row: Option<&Row>, want: &RowCase, by: &str, name: &str) {
    let id = want.id;
    assert!(rt; row.is_some(), "{name}: no row {id} by its {by}");
    let row = row.expect(rt, name);
    let parent = match row.parent {
        Some(id) => id.0,
        None => 0,
    };
    assert!(rt; row.id.0 == id, "{name}: the id of row {id} by its {by}");
    assert!(rt;
        parent == want.parent,
        "{name}: the parent of row {id} by its {by}"
    );
    assert!(rt;
        row.object_update == want.update,
        "{name}: the number of row {id} by its {by}"
    );
    assert!(rt;
        row.trackers == want.trackers,
        "{name}: the trackers of row {id} by its {by}"
    );
}

/// Checks that there are exactly the rows of a case, at their places and by their ids.
fn check_rows<R: Abort, K: Keeping>(rt: &R, store: &K, case: &Case) {
    for (at, row) in case.rows.iter().enumerate() {
        check_row(rt, store.row(at), row, "place", case.name);
        check_row(rt, store.get(row.id), row, "id", case.name);
    }
    assert!(rt;
        store.len() == case.rows.len(),
        "{}: how many rows",
        case.name
    );
}

/// Forgets what a case forgets. Returns the span of the changes after it.
fn forget<R: Abort, K: Keeping>(rt: &R, store: &mut K, case: &Case) -> Span {
    let number = store.system_update_id();
    assert!(rt; case.forget <= number, "{}: the number {number}", case.name);
    store.forget(case.forget);
    Span {
        from: case.forget,
        to: store.system_update_id(),
    }
}

/// Checks that exactly the events of a case are told of a span.
fn check_events<R: Abort, K: Keeping>(rt: &R, alloc: Global, store: &K, span: Span, case: &Case) {
    assert!(rt;
        store.forgotten() <= span.from,
        "{}: too much is forgotten",
        case.name
    );
    let mut events = Events::new(alloc);
    store
        .changes_after(alloc, span, &mut events)
        .expect(rt, MEMORY);
    assert!(rt;
        events.as_slice() == case.events,
        "{}: the events",
        case.name
    );
}

/// Checks that exactly the containers of a case are told of a span, with their numbers.
fn check_containers<R: Abort, K: Keeping>(
    rt: &R,
    alloc: Global,
    store: &K,
    span: Span,
    case: &Case,
) {
    assert!(rt;
        store.forgotten() <= span.from,
        "{}: too much is forgotten",
        case.name
    );
    let mut containers = Vec::new(alloc);
    store
        .containers_after(alloc, span, &mut containers)
        .expect(rt, MEMORY);
    assert!(rt;
        containers.as_slice() == case.containers,
        "{}: the containers",
        case.name
    );
}

/// Makes the Browse request for all of the root's children.
fn root_asked<R: Abort>(rt: &R, alloc: Global) -> BrowseRequest {
    BrowseRequest {
        object: text_of(rt, alloc, "0"),
        flag: text_of(rt, alloc, "BrowseDirectChildren"),
        filter: text_of(rt, alloc, "*"),
        start: 0,
        count: 0,
        sort: text_of(rt, alloc, ""),
    }
}

/// Checks that the root has exactly the children of a case, and that the page says the store's number.
fn check_children<R: Abort, K: Keeping>(rt: &R, alloc: Global, store: &K, case: &Case) {
    let asked = root_asked(rt, alloc);
    let page = browse(alloc, store, &asked).expect(rt, case.name);
    assert!(rt;
        page.ids.as_slice() == case.children,
        "{}: the children",
        case.name
    );
    let number = store.system_update_id();
    assert!(rt;
        page.update == number,
        "{}: the number of the page",
        case.name
    );
}

/// Checks what a new store keeps of a case.
fn check_store<R: Abort, K: Keeping>(rt: &R, alloc: Global, store: &mut K, case: &Case) {
    check_scans(rt, alloc, store, case);
    check_rows(rt, store, case);
    let span = forget(rt, store, case);
    assert!(rt;
        store.forgotten() == case.forget,
        "{}: what is forgotten",
        case.name
    );
    check_events(rt, alloc, store, span, case);
    check_containers(rt, alloc, store, span, case);
    check_children(rt, alloc, store, case);
}

#[test]
fn the_plain_body_keeps_what_it_is_given(rt: HostRuntime) {
    for case in &CASES {
        let mut store = PlainStore::new(rt.alloc(), case.first).expect(&rt, MEMORY);
        check_store(&rt, rt.alloc(), &mut store, case);
    }
}

#[test]
fn the_other_body_keeps_the_same(rt: HostRuntime) {
    for case in &CASES {
        let mut store = Store::new(rt.alloc(), case.first).expect(&rt, MEMORY);
        check_store(&rt, rt.alloc(), &mut store, case);
    }
}

/// The rows after two tracks, and then a folder in the place of one of them.
const ROWS: &str =
    "<container id=\"0\" parentID=\"-1\" restricted=\"1\" searchable=\"1\" childCount=\"2\"><dc:title>root</dc:title><upnp:class>object.container</upnp:class><upnp:objectUpdateID>0</upnp:objectUpdateID><upnp:containerUpdateID>4</upnp:containerUpdateID><upnp:totalDeletedChildCount>1</upnp:totalDeletedChildCount></container>\n<item id=\"2\" parentID=\"0\" restricted=\"1\"><dc:title>y</dc:title><upnp:class>object.item.audioItem.musicTrack</upnp:class><upnp:objectUpdateID>2</upnp:objectUpdateID><res protocolInfo=\"http-get:*:audio/flac:*\" size=\"1\" bitsPerSample=\"8\" nrAudioChannels=\"1\">/media/2</res></item>\n<container id=\"3\" parentID=\"0\" restricted=\"1\" searchable=\"1\" childCount=\"0\"><dc:title>x.flac</dc:title><upnp:class>object.container</upnp:class><upnp:objectUpdateID>4</upnp:objectUpdateID><upnp:containerUpdateID>4</upnp:containerUpdateID><upnp:totalDeletedChildCount>0</upnp:totalDeletedChildCount></container>\n";

/// Makes both scans.
fn both_scans<R: Abort>(rt: &R, alloc: Global) -> Vec<Records>
    ensures { AllByRecursion (λ records. length records < 2 ^ 32) result.items }
{
    let first = records_of(rt, alloc, "x.flac y.flac");
    let second = records_of(rt, alloc, "x.flac/ y.flac");
    let mut scans = Vec::new(alloc);
    scans.push(first).expect(rt, MEMORY);
    scans.push(second).expect(rt, MEMORY);
    scans
}

/// Checks that these scans append those rows.
fn check_appended<R: Abort, K: Keeping>(rt: &R, alloc: Global, store: &mut K, scans: &[Records])
    requires { AllByRecursion (λ records. length records < 2 ^ 32) scans.now }
{
    let mut out = Vec::new(alloc);
    run_scans(alloc, store, scans, &mut out).expect(rt, "both scans");
    assert!(rt; out.as_slice() == ROWS.as_bytes());
}

#[test]
fn the_plain_body_appends_its_rows(rt: HostRuntime) {
    let scans = both_scans(&rt, rt.alloc());
    let mut store = PlainStore::new(rt.alloc(), 0).expect(&rt, MEMORY);
    check_appended(&rt, rt.alloc(), &mut store, scans.as_slice());
}

#[test]
fn the_other_body_appends_the_same(rt: HostRuntime) {
    let scans = both_scans(&rt, rt.alloc());
    let mut store = Store::new(rt.alloc(), 0).expect(&rt, MEMORY);
    check_appended(&rt, rt.alloc(), &mut store, scans.as_slice());
}
