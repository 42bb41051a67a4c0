//! Tests of a replica that is given what no honest server shows or sends. The examples show what it makes of honest
//! ones.

use crate::made::{MEMORY, PAGE};
use cds_base::Text;
use cds_object::{Class, Content, Event, Events, ObjectId, Row, Rows, TrackContent, Trackers};
use cds_replica::{AnswerError, Ask, Note, NotifyError, Read, Replica, Says, Shown, Sid, Taken};
use std::alloc::Global;
use std::process::Abort;

/// An object: its id, which is its objectUpdateID too; its parent's id; and how many children it has if it is a folder.
#[derive(Drop)]
struct Object {
    id: u32,
    parent: u32,
    children: Option<u32>,
}

/// What a reply shows.
#[derive(Clone, Copy)]
enum Reply {
    Token,
    Number(u32),
    Page(&'static [Object]),
    Refusal,
}

const ROOT: Object = Object {
    id: 0,
    parent: 0,
    children: Some(2),
};

const ONE: Object = Object {
    id: 1,
    parent: 0,
    children: None,
};

const TWO: Object = Object {
    id: 2,
    parent: 0,
    children: None,
};

/// The root of a catalog with nothing in it.
const ALONE: Object = Object {
    id: 0,
    parent: 0,
    children: Some(0),
};

/// The replies to a whole load of two tracks.
const HONEST: [Reply; 6] = [
    Reply::Token,
    Reply::Number(7),
    Reply::Page(&[ROOT]),
    Reply::Number(7),
    Reply::Page(&[ONE, TWO]),
    Reply::Number(7),
];

/// The replies to a whole load of nothing.
const EMPTY: [Reply; 6] = [
    Reply::Token,
    Reply::Number(0),
    Reply::Page(&[ALONE]),
    Reply::Number(0),
    Reply::Page(&[]),
    Reply::Number(0),
];

fn content_of<R: Abort>(rt: &R, alloc: Global, object: &Object) -> Content {
    let title = Text::read(alloc, "title").expect(rt, MEMORY);
    match object.children {
        Some(_) => Content::Folder { title },
        None => Content::Track(TrackContent {
            title,
            artist: None,
            album: None,
            genre: None,
            number: None,
            size: 1000,
            duration: Some(10000),
            rate: 44100,
            channels: 2,
            bits: 16,
        }),
    }
}

fn row_of<R: Abort>(rt: &R, alloc: Global, object: &Object) -> Row {
    let content = content_of(rt, alloc, object);
    let trackers = match &content {
        Content::Folder { .. } => Some(Trackers {
            container_update: 0,
            child_count: object.children.unwrap_or(0),
            deleted: 0,
        }),
        Content::Track(_) => None,
    };
    let parent = if object.id == 0 {
        None
    } else {
        Some(ObjectId(object.parent))
    };
    Row {
        id: ObjectId(object.id),
        parent,
        content,
        object_update: object.id,
        trackers,
    }
}

fn page_of<R: Abort>(rt: &R, alloc: Global, objects: &[Object]) -> Shown {
    let mut rows = Rows::new(alloc);
    for object in objects {
        rows.push(row_of(rt, alloc, object)).expect(rt, MEMORY);
    }
    Shown::Page {
        rows,
        total: 0,
        update: 0,
    }
}

fn shown_of<R: Abort>(rt: &R, alloc: Global, reply: &Reply) -> Shown {
    match reply {
        Reply::Token => Shown::Text(Text::read(alloc, "token").expect(rt, MEMORY)),
        Reply::Number(number) => Shown::Number(*number),
        Reply::Page(objects) => page_of(rt, alloc, objects),
        Reply::Refusal => Shown::Fault { code: 701 },
    }
}

/// Gives a replica a reply to what it asks, and checks what it answers.
fn check_take<R: Abort>(
    rt: &R,
    alloc: Global,
    replica: &mut Replica,
    reply: &Reply,
    want: Result<Read, AnswerError>,
    name: &str,
) {
    assert!(rt; !replica.next_ask().is_none(), "{name}: it asks nothing");
    let shown = shown_of(rt, alloc, reply);
    let is_wanted = replica.take(alloc, shown) == want;
    assert!(rt; is_wanted, "{name}: what it answers");
}

/// Begins a load, and checks that it takes all these replies.
fn load<R: Abort>(rt: &R, alloc: Global, replica: &mut Replica, replies: &[Reply]) {
    replica.begin_load().expect(rt, MEMORY);
    for reply in replies {
        check_take(rt, alloc, replica, reply, Ok(Read::Ok), "a load");
    }
}

/// Has a replica take the first four honest replies. After them the page of the tracks is asked for.
fn load_up_to_a_page<R: Abort>(rt: &R, alloc: Global, replica: &mut Replica) {
    let honest = &HONEST;
    load(rt, alloc, replica, &honest[..4]);
}

/// How many replies of a load are taken, the reply that is then refused, and why.
#[derive(Drop)]
struct RefusedCase {
    name: &'static str,
    taken: usize,
    reply: Reply,
    refusal: AnswerError,
}

const REFUSED: [RefusedCase; 11] = [
    RefusedCase {
        name: "a number for the token",
        taken: 0,
        reply: Reply::Number(7),
        refusal: AnswerError::Unreadable,
    },
    RefusedCase {
        name: "a token for the number",
        taken: 1,
        reply: Reply::Token,
        refusal: AnswerError::Unreadable,
    },
    RefusedCase {
        name: "a refusal for the number",
        taken: 1,
        reply: Reply::Refusal,
        refusal: AnswerError::Unreadable,
    },
    RefusedCase {
        name: "a refusal for the root",
        taken: 2,
        reply: Reply::Refusal,
        refusal: AnswerError::Unreadable,
    },
    RefusedCase {
        name: "no row for the root",
        taken: 2,
        reply: Reply::Page(&[]),
        refusal: AnswerError::Unreadable,
    },
    RefusedCase {
        name: "two rows for the root",
        taken: 2,
        reply: Reply::Page(&[ROOT, ONE]),
        refusal: AnswerError::Unreadable,
    },
    RefusedCase {
        name: "another folder for the root",
        taken: 2,
        reply: Reply::Page(&[Object {
            id: 1,
            parent: 0,
            children: Some(0),
        }]),
        refusal: AnswerError::Torn { id: 0 },
    },
    RefusedCase {
        name: "a track for the root",
        taken: 2,
        reply: Reply::Page(&[Object {
            id: 0,
            parent: 0,
            children: None,
        }]),
        refusal: AnswerError::Torn { id: 0 },
    },
    RefusedCase {
        name: "a page for the number after the root",
        taken: 3,
        reply: Reply::Page(&[ROOT]),
        refusal: AnswerError::Unreadable,
    },
    RefusedCase {
        name: "a number for a page",
        taken: 4,
        reply: Reply::Number(7),
        refusal: AnswerError::Unreadable,
    },
    RefusedCase {
        name: "a refusal for the number after a page",
        taken: 5,
        reply: Reply::Refusal,
        refusal: AnswerError::Unreadable,
    },
];

/// Checks that a replica refuses the reply of a case, and asks and says the same afterwards.
fn check_refused<R: Abort>(rt: &R, alloc: Global, replica: &mut Replica, case: &RefusedCase) {
    let ask = replica.next_ask();
    let says = replica.says();
    check_take(
        rt,
        alloc,
        replica,
        &case.reply,
        Err(case.refusal),
        case.name,
    );
    assert!(rt;
        replica.next_ask() == ask,
        "{}: what it asks then",
        case.name
    );
    assert!(rt; replica.says() == says, "{}: what it says then", case.name);
}

/// Checks the same of a fresh replica after the honest replies of the case.
fn check_refused_by<R: Abort>(rt: &R, alloc: Global, replica: &mut Replica, case: &RefusedCase) {
    let honest = &HONEST;
    load(rt, alloc, replica, &honest[..case.taken.min(6)]);
    check_refused(rt, alloc, replica, case);
}

#[test]
fn replies_that_are_refused(rt: HostRuntime) {
    for case in &REFUSED {
        let mut replica = Replica::new(rt.alloc());
        check_refused_by(&rt, rt.alloc(), &mut replica, case);
    }
}

/// A page of the root that cannot be, and what is read when it comes.
#[derive(Drop)]
struct PageCase {
    name: &'static str,
    page: Reply,
    read: Read,
}

const PAGES: [PageCase; 7] = [
    PageCase {
        name: "a refusal",
        page: Reply::Refusal,
        read: Read::Fault { code: 701 },
    },
    PageCase {
        name: "no rows",
        page: Reply::Page(&[]),
        read: Read::Ok,
    },
    PageCase {
        name: "a row too few",
        page: Reply::Page(&[ONE]),
        read: Read::Ok,
    },
    PageCase {
        name: "a row too many",
        page: Reply::Page(&[
            ONE,
            TWO,
            Object {
                id: 3,
                parent: 0,
                children: None,
            },
        ]),
        read: Read::Ok,
    },
    PageCase {
        name: "a row of another parent",
        page: Reply::Page(&[
            ONE,
            Object {
                id: 2,
                parent: 1,
                children: None,
            },
        ]),
        read: Read::Ok,
    },
    PageCase {
        name: "a row twice",
        page: Reply::Page(&[ONE, ONE]),
        read: Read::Ok,
    },
    PageCase {
        name: "the root among its children",
        page: Reply::Page(&[ONE, ALONE]),
        read: Read::Ok,
    },
];

/// Checks that a replica takes the page of a case and refuses it when the same number comes after it. Another number then
/// begins the load again.
fn check_page<R: Abort>(rt: &R, alloc: Global, replica: &mut Replica, case: &PageCase) {
    let torn = Err(AnswerError::Torn { id: 0 });
    load_up_to_a_page(rt, alloc, replica);
    check_take(rt, alloc, replica, &case.page, Ok(case.read), case.name);
    check_take(rt, alloc, replica, &Reply::Number(7), torn, case.name);
    check_take(
        rt,
        alloc,
        replica,
        &Reply::Number(9),
        Ok(Read::Ok),
        case.name,
    );
    assert!(rt;
        replica.next_ask() == Some(Ask::Token),
        "{}: what it asks then",
        case.name
    );
}

#[test]
fn pages_that_cannot_be(rt: HostRuntime) {
    for case in &PAGES {
        let mut replica = Replica::new(rt.alloc());
        check_page(&rt, rt.alloc(), &mut replica, case);
    }
}

/// Gives a replica the bytes of a reply to what it asks. Returns whether it answers this.
fn answers<R: Abort>(
    rt: &R,
    alloc: Global,
    replica: &mut Replica,
    reply: &[u8],
    want: Result<Read, AnswerError>,
) -> bool {
    assert!(rt; !replica.next_ask().is_none(), "it asks nothing");
    replica.answer(alloc, reply) == want
}

/// Checks that the page is unreadable for a replica at every place where it is cut off.
fn check_cuts<R: Abort>(rt: &R, alloc: Global, replica: &mut Replica) {
    let unreadable = Err(AnswerError::Unreadable);
    let bytes = PAGE.as_bytes();
    for end in 0..bytes.len() {
        let is_refused = answers(rt, alloc, replica, &bytes[..end], unreadable);
        assert!(rt; is_refused, "the first {end} bytes are read");
    }
}

/// Makes the whole page, with bytes of another reply after it.
fn more_than_the_page<R: Abort>(rt: &R, alloc: Global) -> Vec<u8> {
    let mut reply = Vec::from_slice(alloc, PAGE.as_bytes()).expect(rt, MEMORY);
    reply
        .extend_from_slice(b"HTTP/1.1 200 OK")
        .expect(rt, MEMORY);
    reply
}

/// Checks that a replica reads a page.
fn check_whole<R: Abort>(rt: &R, alloc: Global, replica: &mut Replica, reply: &[u8]) {
    assert!(rt;
        answers(rt, alloc, replica, reply, Ok(Read::Ok)),
        "the page"
    );
    assert!(rt;
        replica.next_ask() == Some(Ask::Number),
        "what it asks then"
    );
}

#[test]
fn replies_that_are_cut_off(rt: HostRuntime) {
    let mut replica = Replica::new(rt.alloc());
    load_up_to_a_page(&rt, rt.alloc(), &mut replica);
    check_cuts(&rt, rt.alloc(), &mut replica);
}

#[test]
fn a_reply_is_read_although_other_bytes_come_after_it(rt: HostRuntime) {
    let reply = more_than_the_page(&rt, rt.alloc());
    let mut replica = Replica::new(rt.alloc());
    load_up_to_a_page(&rt, rt.alloc(), &mut replica);
    check_whole(&rt, rt.alloc(), &mut replica, reply.as_slice());
}

/// A note of subscription 1: its SEQ, its number and its events; what is answered; and what the replica says then.
#[derive(Drop)]
struct NoteCase {
    name: &'static str,
    seq: u32,
    number: u32,
    events: &'static [Event],
    answer: Result<Taken, NotifyError>,
    says: Says,
}

/// The addition of a track with this number.
const LATE: Event = Event::ObjAdd {
    id: 1,
    update: 5,
    st: false,
    parent: 0,
    class: Class::Track,
};

const NEXT: Event = Event::ObjAdd {
    id: 1,
    update: 1,
    st: false,
    parent: 0,
    class: Class::Track,
};

/// The change of an object that is not there.
const OTHER: Event = Event::ObjMod {
    id: 7,
    update: 1,
    st: false,
};

/// Notes, two of which tell what cannot be.
const NOTES: [NoteCase; 4] = [
    NoteCase {
        name: "the first note",
        seq: 0,
        number: 0,
        events: &[],
        answer: Ok(Taken::Took),
        says: Says::Stands { at: 0 },
    },
    NoteCase {
        name: "a change that is not the next",
        seq: 1,
        number: 5,
        events: &[LATE],
        answer: Err(NotifyError::Jump {
            expected: 1,
            first: 5,
        }),
        says: Says::Stands { at: 0 },
    },
    NoteCase {
        name: "the change of an object that is not there",
        seq: 1,
        number: 1,
        events: &[OTHER],
        answer: Err(NotifyError::Torn { id: 7 }),
        says: Says::Stands { at: 0 },
    },
    NoteCase {
        name: "the next change",
        seq: 1,
        number: 1,
        events: &[NEXT],
        answer: Ok(Taken::Took),
        says: Says::BehindRead { id: 1 },
    },
];

/// Makes the note of a case.
fn note_of<R: Abort>(rt: &R, alloc: Global, case: &NoteCase) -> Note {
    let mut events = Events::new(alloc);
    events.extend(case.events).expect(rt, MEMORY);
    Note {
        sid: Sid(1),
        seq: case.seq,
        number: case.number,
        events,
    }
}

/// Gives a replica the note of a case, and checks what it answers and says.
fn check_note<R: Abort>(rt: &R, alloc: Global, replica: &mut Replica, case: &NoteCase) {
    let note = note_of(rt, alloc, case);
    let is_answered = replica.notify(alloc, note) == case.answer;
    assert!(rt; is_answered, "{}: what it answers", case.name);
    assert!(rt; replica.says() == case.says, "{}: what it says", case.name);
}

/// Gives a replica a copy of nothing, and subscription 1.
fn subscribe<R: Abort>(rt: &R, alloc: Global, replica: &mut Replica) {
    load(rt, alloc, replica, &EMPTY);
    replica.subscribing().expect(rt, MEMORY);
    assert!(rt; replica.is_subscribing(), "no request is out");
    let answer = replica.subscribed(alloc, Sid(1));
    answer.expect(rt, "no subscription");
}

/// Checks that the replica stands at 1, with a track under the root.
fn check_track<R: Abort>(rt: &R, replica: &Replica) {
    let counted = Trackers {
        container_update: 1,
        child_count: 1,
        deleted: 0,
    };
    assert!(rt; replica.says() == Says::Stands { at: 1 }, "what it says");
    let root = replica.rows(0).expect(rt, "no root");
    assert!(rt; root.trackers == Some(counted), "what the root counts");
    let track = replica.rows(1).expect(rt, "no track");
    assert!(rt; track.id.0 == 1, "the id of the track");
    assert!(rt; track.object_update == 1, "the objectUpdateID of the track");
    assert!(rt; replica.rows(2).is_none(), "a third row");
}

/// Checks that a replica takes a load, a subscription, notes and a read, and gives its rows.
fn check_way<R: Abort>(rt: &R, alloc: Global, replica: &mut Replica) {
    subscribe(rt, alloc, replica);
    for case in &NOTES {
        check_note(rt, alloc, replica, case);
    }
    check_take(
        rt,
        alloc,
        replica,
        &Reply::Page(&[ONE]),
        Ok(Read::Ok),
        "the track",
    );
    check_track(rt, replica);
}

#[test]
fn a_replica_goes_its_way(rt: HostRuntime) {
    let mut replica = Replica::new(rt.alloc());
    check_way(&rt, rt.alloc(), &mut replica);
}
