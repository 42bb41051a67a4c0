//! Tests of Search and of sorted pages, by the calls, over both bodies of the store. The answers were worked by hand.

use crate::made::{MEMORY, records_of, text_of};
use cds_browse::{BrowseError, Page, browse, search};
use cds_soap::{BrowseRequest, SearchRequest};
use cds_store::{Keeping, PlainStore, Store, View};
use std::alloc::Global;
use std::process::Abort;

/// The library, in two scans. The second adds a track and changes another. Then the rows are:
///
/// | id | parent | title | size | objectUpdateID | containerUpdateID |
/// |---|---|---|---|---|---|
/// | 0 | | root | | 0 | 6 |
/// | 1 | 0 | A | | 1 | 4 |
/// | 2 | 1 | A/B | | 2 | 7 |
/// | 3 | 2 | A/B/c | 8 | 7 | |
/// | 4 | 1 | A/d | 30 | 4 | |
/// | 5 | 0 | E | 7 | 5 | |
/// | 6 | 0 | 0 | 9 | 6 | |
const SCANS: [&str; 2] = [
    "A/ A/B/ A/B/c=7 A/d=30 E=7",
    "0=9 A/ A/B/ A/B/c=8 A/d=30 E=7",
];

/// A request that has a page: a container, search criteria or nothing to ask for its children, the place, the count and the sort
/// criteria. Then the ids, the total and the update number of the page.
type PageCase = (
    &'static str,
    &'static str,
    u32,
    u32,
    &'static str,
    &'static [u32],
    u32,
    u32,
);

const PAGES: [PageCase; 20] = [
    ("0", "", 0, 0, "", &[1, 5, 6], 3, 7),
    ("0", "", 0, 0, "+dc:title", &[6, 1, 5], 3, 7),
    ("0", "", 0, 0, "-dc:title", &[5, 1, 6], 3, 7),
    ("0", "", 1, 1, "-dc:title", &[1], 3, 7),
    ("1", "", 0, 0, "-dc:title", &[4, 2], 2, 4),
    ("2", "", 3, 0, "-dc:title", &[], 1, 7),
    ("0", "*", 0, 0, "", &[1, 2, 3, 4, 5, 6], 6, 7),
    ("1", "*", 0, 0, "", &[2, 3, 4], 3, 4),
    ("2", "*", 0, 0, "", &[3], 1, 7),
    ("0", "*", 1, 2, "+dc:title", &[1, 2], 6, 7),
    ("0", "*", 6, 0, "+dc:title", &[], 6, 7),
    (
        "0",
        "*",
        0,
        0,
        "-upnp:objectUpdateID",
        &[3, 6, 5, 4, 2, 1],
        6,
        7,
    ),
    ("0", "*", 0, 0, "+upnp:artist", &[1, 2, 3, 4, 5, 6], 6, 7),
    (
        "0",
        "*",
        0,
        0,
        "-upnp:artist,-dc:title",
        &[5, 4, 3, 2, 1, 6],
        6,
        7,
    ),
    ("0", "res@size > \"8\"", 0, 0, "", &[4, 6], 2, 7),
    ("0", "res@size > \"8\"", 0, 0, "+dc:title", &[6, 4], 2, 7),
    ("0", "@parentID = \"1\"", 0, 0, "", &[2, 4], 2, 7),
    (
        "1",
        "upnp:class derivedfrom \"OBJECT.ITEM\"",
        0,
        1,
        "",
        &[3],
        2,
        4,
    ),
    ("0", "upnp:artist != \"x\"", 0, 0, "", &[], 0, 7),
    ("0", "upnp:artist exists false", 4, 9, "", &[5, 6], 6, 7),
];

/// A request that is refused: as above, without a place and a count.
const REFUSALS: [(&str, &str, &str, BrowseError); 11] = [
    ("9", "", "", BrowseError::NoObject),
    ("3", "", "", BrowseError::NoContainer),
    ("9", "*", "", BrowseError::NoContainer),
    ("3", "*", "", BrowseError::NoContainer),
    ("01", "*", "", BrowseError::NoContainer),
    (
        "0",
        "dc:title = Rock",
        "",
        BrowseError::BadCriteria { at: 11 },
    ),
    (
        "0",
        "dc:title = Rock",
        "dc:title",
        BrowseError::BadCriteria { at: 11 },
    ),
    ("3", "dc:title = Rock", "", BrowseError::NoContainer),
    ("0", "*", "dc:title", BrowseError::BadSort { at: 0 }),
    ("0", "", "+dc:title,", BrowseError::BadSort { at: 10 }),
    ("3", "", "+dc:title,", BrowseError::NoContainer),
];

/// A request.
#[derive(Clone, Copy)]
struct Wanted {
    container: &'static str,
    criteria: &'static str,
    start: u32,
    count: u32,
    sort: &'static str,
}

/// Asks for children if there are no criteria, and searches otherwise.
fn answer_to<R: Abort, V: View>(
    rt: &R,
    alloc: Global,
    view: &V,
    wanted: Wanted,
) -> Result<Page, BrowseError> {
    let filter = text_of(rt, alloc, "*");
    let sort = text_of(rt, alloc, wanted.sort);
    if wanted.criteria.is_empty() {
        let asked = BrowseRequest {
            object: text_of(rt, alloc, wanted.container),
            flag: text_of(rt, alloc, "BrowseDirectChildren"),
            filter,
            start: wanted.start,
            count: wanted.count,
            sort,
        };
        return browse(alloc, view, &asked);
    }
    let asked = SearchRequest {
        container: text_of(rt, alloc, wanted.container),
        criteria: text_of(rt, alloc, wanted.criteria),
        filter,
        start: wanted.start,
        count: wanted.count,
        sort,
    };
    search(alloc, view, &asked)
}

/// Checks the page of a case.
fn check_page<R: Abort, V: View>(rt: &R, alloc: Global, view: &V, case: &PageCase) {
    let (container, criteria, start, count, sort, ids, total, update) = *case;
    let wanted = Wanted {
        container,
        criteria,
        start,
        count,
        sort,
    };
    let page = answer_to(rt, alloc, view, wanted).expect(rt, "a page");
    assert!(rt;
        page.ids.as_slice() == ids,
        "{container} `{criteria}` by `{sort}`: the ids"
    );
    assert!(rt; page.total == total, "{container} `{criteria}`: the total");
    assert!(rt;
        page.update == update,
        "{container} `{criteria}`: the update number"
    );
}

/// Checks what a library answers to all requests.
fn check_answers<R: Abort, V: View>(rt: &R, alloc: Global, view: &V) {
    for case in &PAGES {
        check_page(rt, alloc, view, case);
    }
    for (container, criteria, sort, refusal) in &REFUSALS {
        let wanted = Wanted {
            container: *container,
            criteria: *criteria,
            start: 0,
            count: 0,
            sort: *sort,
        };
        match answer_to(rt, alloc, view, wanted) {
            Ok(_) => panic!(rt; "{container} `{criteria}` by `{sort}` has a page"),
            Err(given) => {
                assert!(rt;
                    given == *refusal,
                    "{container} `{criteria}` by `{sort}`: the refusal"
                )
            }
        }
    }
}

/// Takes both scans.
fn take_scans<R: Abort, K: Keeping>(rt: &R, alloc: Global, store: &mut K) {
    for scan in &SCANS {
        let records = records_of(rt, alloc, scan);
        store.apply(alloc, &records).expect(rt, "a scan");
    }
}

#[test]
fn the_plain_body_is_searched(rt: HostRuntime) {
    let mut store = PlainStore::new(rt.alloc(), 0).expect(&rt, MEMORY);
    take_scans(&rt, rt.alloc(), &mut store);
    check_answers(&rt, rt.alloc(), &store);
}

#[test]
fn the_other_body_is_searched(rt: HostRuntime) {
    let mut store = Store::new(rt.alloc(), 0).expect(&rt, MEMORY);
    take_scans(&rt, rt.alloc(), &mut store);
    check_answers(&rt, rt.alloc(), &store);
}
