//! Tests of a replica for which SEQs wrap early: after SEQ 256 comes SEQ 1.

use crate::made::MEMORY;
use cds_object::Events;
use cds_replica::{Note, NotifyError, Replica, Says, Sid, Taken};
use std::alloc::Global;
use std::process::Abort;

/// The SEQ after which comes SEQ 1.
const WRAP: u32 = 256;

/// How many notes come in a block, the last one first.
const BLOCK: u32 = 50;

/// Returns the SEQ of a place.
fn seq_of(place: u32) -> u32 {
    if place == 0 {
        0
    } else {
        (place - 1) % WRAP + 1
    }
}

/// Gives a replica a note of subscription 1 without changes, and returns what becomes of it.
fn deliver(alloc: Global, replica: &mut Replica, seq: u32) -> Result<Taken, NotifyError> {
    let note = Note {
        sid: Sid(1),
        seq,
        number: 0,
        events: Events::new(alloc),
    };
    replica.notify(alloc, note)
}

/// Gives a replica subscription 1 with its first note.
fn subscribe<R: Abort>(rt: &R, alloc: Global, replica: &mut Replica) {
    replica.subscribing().expect(rt, MEMORY);
    assert!(rt; replica.is_subscribing(), "no request is out");
    let answer = replica.subscribed(alloc, Sid(1));
    answer.expect(rt, "no subscription");
    let first = deliver(alloc, replica, 0);
    assert!(rt; first == Ok(Taken::Took), "the first note");
}

/// Gives a replica the notes of places 1 to 257 in order. SEQ 1 comes twice.
fn come_past_the_wrap<R: Abort>(rt: &R, alloc: Global, replica: &mut Replica) {
    for place in 1..258 {
        let answer = deliver(alloc, replica, seq_of(place));
        assert!(rt; answer == Ok(Taken::Took), "place {place}");
    }
}

/// A note that comes when place 258 is next: its SEQ, and what becomes of it. A place may be 64 away. A note that is less than 192
/// places away is given its own place or none.
#[derive(Drop)]
struct FarCase {
    name: &'static str,
    seq: u32,
    answer: Result<Taken, NotifyError>,
}

const FAR: [FarCase; 9] = [
    FarCase {
        name: "place 257, with SEQ 1 again",
        seq: 1,
        answer: Ok(Taken::Repeat),
    },
    FarCase {
        name: "place 194, which is 64 before",
        seq: 194,
        answer: Ok(Taken::Repeat),
    },
    FarCase {
        name: "place 193, which is 65 before, and place 449, which is 191 after",
        seq: 193,
        answer: Err(NotifyError::Unknown),
    },
    FarCase {
        name: "place 67, which is 191 before, and place 323, which is 65 after",
        seq: 67,
        answer: Err(NotifyError::Unknown),
    },
    FarCase {
        name: "place 322, which is 64 after",
        seq: 66,
        answer: Ok(Taken::Held { missing: 2 }),
    },
    FarCase {
        name: "place 322 again",
        seq: 66,
        answer: Ok(Taken::Repeat),
    },
    FarCase {
        name: "place 0",
        seq: 0,
        answer: Err(NotifyError::Unknown),
    },
    FarCase {
        name: "a SEQ above the last one",
        seq: 257,
        answer: Err(NotifyError::Unknown),
    },
    FarCase {
        name: "the next place",
        seq: 2,
        answer: Ok(Taken::Took),
    },
];

/// Returns the first case whose note is answered otherwise.
fn other_than_said(alloc: Global, replica: &mut Replica) -> Option<&'static str> {
    for case in &FAR {
        if deliver(alloc, replica, case.seq) != case.answer {
            return Some(case.name);
        }
    }
    None
}

#[test]
fn notes_are_known_by_places_that_are_near(rt: HostRuntime) {
    let mut replica = Replica::with_wrap(rt.alloc(), WRAP);
    subscribe(&rt, rt.alloc(), &mut replica);
    come_past_the_wrap(&rt, rt.alloc(), &mut replica);
    assert!(rt; replica.next_place() == 258, "the next place");
    let other = other_than_said(rt.alloc(), &mut replica);
    assert!(rt; other == None, "{}", other.unwrap_or(""));
    assert!(rt; replica.next_place() == 259, "the place after it");
    assert!(rt; replica.says() == Says::Gap { missing: 3 }, "the gap");
}

/// Gives a replica the notes of a block, the last one first. Each but the last that comes waits for the first place.
fn come_backwards<R: Abort>(rt: &R, alloc: Global, replica: &mut Replica, first: u32) {
    for before in 1..BLOCK {
        let place = first.saturating_add(BLOCK.saturating_sub(before));
        let answer = deliver(alloc, replica, seq_of(place));
        let held = Ok(Taken::Held {
            missing: seq_of(first),
        });
        assert!(rt;
            answer == held,
            "{before} from the end of the block of {first}"
        );
    }
    let answer = deliver(alloc, replica, seq_of(first));
    assert!(rt; answer == Ok(Taken::Took), "place {first}");
}

#[test]
fn two_thousand_notes_that_come_late(rt: HostRuntime) {
    let mut replica = Replica::with_wrap(rt.alloc(), WRAP);
    subscribe(&rt, rt.alloc(), &mut replica);
    for block in 0..40 {
        let first = BLOCK.saturating_mul(block).saturating_add(1);
        come_backwards(&rt, rt.alloc(), &mut replica, first);
    }
    assert!(rt; replica.next_place() == 2_001, "the next place");
}
