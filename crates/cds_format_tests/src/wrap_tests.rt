//! A test of the SEQs of a subscription for which SEQ 1 comes after SEQ 256.

use crate::made::MEMORY;
use cds_gena::{Addresses, Book, is_deliverable};
use std::alloc::Global;
use std::process::Abort;
use url::Url;

/// Returns a book with one subscription for 1,800 seconds from moment 0 on.
fn book_with_one<R: Abort>(rt: &R, alloc: Global) -> Book {
    let callback = Url::parse(alloc, "http://10.0.0.9/n").expect(rt, "no URL");
    let mut book = Book::with_wrap(alloc, [0, 0], 256);
    assert!(rt; is_deliverable(&callback), "the callback");
    book.subscribe(alloc, 0, &callback, 1_800)
        .expect(rt, "no subscription");
    book
}

/// Returns the SEQ of the next note, if exactly one goes out at moment 0.
fn next_seq<R: Abort>(rt: &R, alloc: Global, book: &mut Book) -> Option<u32> {
    let mut out = Addresses::new(alloc);
    book.next_notes(alloc, 0, &mut out).expect(rt, MEMORY);
    match out.as_slice() {
        [to] => Some(to.seq),
        _ => None,
    }
}

#[test]
fn a_subscription_lives_on_after_its_last_seq(rt: HostRuntime) {
    let mut book = book_with_one(&rt, rt.alloc());
    for before in 0..699 {
        let seq = next_seq(&rt, rt.alloc(), &mut book);
        assert!(rt; seq == Some(before % 256 + 1), "after {before} notes");
    }
    assert!(rt; book.live(0) == 1, "the subscription");
}
