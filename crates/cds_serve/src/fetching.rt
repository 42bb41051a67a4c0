//! Answering a request for a file: its head, and the bytes that are planned of it.

ghost use Rattle.std.specs.Prelude.{◌≡◌, ◌≤◌, ◌++◌, true, take, IfOk, OnErr, IsTrue, Some, string_bytes};
ghost use Rattle.cds_outside.specs.Outside.{Rose, Told};
ghost use Rattle.cds_http.specs.declared.message.Message.{Message};
ghost use Rattle.cds_media.specs.Heads.{head_text};
ghost use Rattle.cds_media.specs.Plans.{FitsIn, is_get, start_of};
ghost use Rattle.cds_media.specs.declared.slice.Plan.TheVariants as planned;
ghost use Rattle.cds_server.specs.Media.{path_text};
ghost use Rattle.cds_serve.specs.Answered.{no_memory_reply};
ghost use Rattle.cds_serve.specs.Fetched.{Fetches, IsEndedBy, OpensAt, Opens, WritesUnless, answer_for, count_for, takes_file};
ghost use Rattle.cds_serve.specs.Told.{Writes};

use crate::connection::{BEFORE_REPLY, BEHIND_REPLY, send_all, starve, write};
use cds_base::{Bytes, Mem};
use cds_http::{Message, Start};
use cds_media::{Plan, plan, send_over, write_media_head};
use cds_outside::{Conn, Failed, Folder, FolderFault, Gate, Linger, Source};
use cds_server::{Media, empty_text, path_text};
use std::alloc::Global;

/// How a request for a file ended.
#[derive(Clone, Copy, Debug, PartialEq, Eq)]
pub enum Fate {
    /// Memory ran out: the constant reply was written.
    Starved,
    /// It was answered before a file was opened.
    Refused,
    /// The file could not be opened.
    Unopened,
    /// The head was written, and then the bytes that were asked for.
    Sent,
}

/// What is sent of a file.
#[derive(Clone, Copy)]
struct Slice<'a> {
    media: &'a Media,
    plan: Plan,
    /// Whether its bytes are sent, and not the head alone.
    has_body: bool,
}

/// What is needed before a file is opened.
#[derive(Drop)]
struct Prepared {
    path: String,
    head: Vec<u8>,
    /// The place of the first byte that is sent.
    at: u64,
    /// How many bytes are sent.
    count: u64,
}

/// Answers a request for a file, by the file that the server named, and finishes the connection.
///
/// - If the id named no track, the status is 404.
/// - If the method is neither GET nor HEAD, it is 405.
/// - If GET asks for a range that does not lie in the file, it is 416. No file is opened in these three cases.
/// - If the file cannot be opened, it is 404.
///
/// Otherwise the head is written, and after it the planned bytes for GET. If memory runs out, the constant reply is written.
pub(crate) fn fetch<C: Conn, G: Gate, F: Folder>(
    alloc: Global,
    conn: &mut C,
    gate: &mut G,
    folder: &mut F,
    message: &Message,
    media: &Option<Media>,
) -> Fate
    ensures fetched { Fetches message.now media.now result (F.told folder.old) (F.told folder.new) (C.Sink.told conn.old) (C.Sink.told conn.new) }
    ensures ended { C.finished conn.new ≡ true }
    ensures write_faults_rise { (C.Sink.told conn.old).faults ≤ (C.Sink.told conn.new).faults }
    ensures source_stays { C.Source.told conn.new ≡ C.Source.told conn.old }
    ensures file_faults_rise { (F.told folder.old).file_faults ≤ (F.told folder.new).file_faults }
{
    match media {
        None => answer_with(conn, gate, empty_text(alloc, 404), Fate::Refused),
        Some(media) => {
            if takes_file(&message.start) {
                fetch_planned(alloc, conn, gate, folder, message, media)
            } else {
                answer_with(conn, gate, empty_text(alloc, 405), Fate::Refused)
            }
        }
    }
}

/// Returns whether a message asks by GET or HEAD.
fn takes_file(start: &Start) -> bool
    ensures { result ≡ takes_file start.now }
{
    match start {
        Start::Request { method, .. } => method.as_str() == "GET" || method.as_str() == "HEAD",
        Start::Reply { .. } => false,
    }
}

/// Returns whether a message asks by GET.
fn is_get(start: &Start) -> bool
    ensures { result ≡ is_get start.now }
{
    match start {
        Start::Request { method, .. } => method.as_str() == "GET",
        Start::Reply { .. } => false,
    }
}

/// Answers a request for this file by GET or HEAD.
fn fetch_planned<C: Conn, G: Gate, F: Folder>(
    alloc: Global,
    conn: &mut C,
    gate: &mut G,
    folder: &mut F,
    message: &Message,
    media: &Media,
) -> Fate
    requires takes { IsTrue (takes_file message.now.start) }
    ensures fetched { Fetches message.now (Some media.now) result (F.told folder.old) (F.told folder.new) (C.Sink.told conn.old) (C.Sink.told conn.new) }
    ensures ended { C.finished conn.new ≡ true }
    ensures write_faults_rise { (C.Sink.told conn.old).faults ≤ (C.Sink.told conn.new).faults }
    ensures source_stays { C.Source.told conn.new ≡ C.Source.told conn.old }
    ensures file_faults_rise { (F.told folder.old).file_faults ≤ (F.told folder.new).file_faults }
{
    match plan(message, media.size) {
        Plan::None => answer_with(conn, gate, beyond_text(alloc, media.size), Fate::Refused),
        Plan::Whole => {
            let slice = slice_of(media, Plan::Whole, message);
            send_slice(alloc, conn, gate, folder, slice)
        }
        Plan::Part { from, to } => {
            let slice = slice_of(media, Plan::Part { from, to }, message);
            send_slice(alloc, conn, gate, folder, slice)
        }
    }
}

/// Returns what is sent of a file by this plan.
fn slice_of<'a>(media: &'a Media, plan: Plan, message: &Message) -> Slice<'a>
    ensures media { result.media.now ≡ media.now }
    ensures plan { result.plan ≡ plan }
    ensures has_body { result.has_body ≡ is_get message.now.start }
{
    Slice {
        media,
        plan,
        has_body: is_get(&message.start),
    }
}

/// Returns the reply if a range does not lie in a file of this size.
fn beyond_text(alloc: Global, size: u64) -> Result<Bytes, Mem>
    ensures { IfOk result (λ text. text ≡ head_text size planned.None) }
{
    let mut head = Vec::new(alloc);
    write_media_head(Plan::None, size, &mut head)?;
    Ok(Bytes::from(head))
}

/// Writes a reply, or the constant reply if memory ran out. Finishes the connection. Returns this fate if the reply was there.
fn answer_with<C: Conn, G: Gate>(
    conn: &mut C,
    gate: &mut G,
    text: Result<Bytes, Mem>,
    fate: Fate,
) -> Fate
    ensures answered { IfOk text (λ text. (result ≡ fate) × Writes text (C.Sink.told conn.old) (C.Sink.told conn.new)) }
    ensures starved { OnErr text ((result ≡ Fate.Starved) × Writes no_memory_reply (C.Sink.told conn.old) (C.Sink.told conn.new)) }
    ensures ended { C.finished conn.new ≡ true }
    ensures write_faults_rise { (C.Sink.told conn.old).faults ≤ (C.Sink.told conn.new).faults }
    ensures source_stays { C.Source.told conn.new ≡ C.Source.told conn.old }
{
    match text {
        Ok(text) => {
            write(conn, gate, text.as_slice(), Linger::Never);
            fate
        }
        Err(Mem) => starved(conn, gate),
    }
}

/// Writes the constant reply, and finishes the connection.
fn starved<C: Conn, G: Gate>(conn: &mut C, gate: &mut G) -> Fate
    ensures fate { result ≡ Fate.Starved }
    ensures written { Writes no_memory_reply (C.Sink.told conn.old) (C.Sink.told conn.new) }
    ensures ended { C.finished conn.new ≡ true }
    ensures write_faults_rise { (C.Sink.told conn.old).faults ≤ (C.Sink.told conn.new).faults }
    ensures source_stays { C.Source.told conn.new ≡ C.Source.told conn.old }
{
    let _ = starve(conn, gate, Linger::Never);
    Fate::Starved
}

/// Opens a file, and sends its head and what is planned of it.
fn send_slice<C: Conn, G: Gate, F: Folder>(
    alloc: Global,
    conn: &mut C,
    gate: &mut G,
    folder: &mut F,
    slice: Slice<'_>,
) -> Fate
    requires fits { FitsIn slice.media.now.size slice.plan }
    ensures fetched { (m : Message) → is_get m.start ≡ slice.entry.has_body → answer_for (Some slice.entry.media.now) m ≡ Opens slice.entry.media.now slice.entry.plan
        → Fetches m (Some slice.entry.media.now) result (F.told folder.old) (F.told folder.new) (C.Sink.told conn.old) (C.Sink.told conn.new) }
    ensures ended { C.finished conn.new ≡ true }
    ensures write_faults_rise { (C.Sink.told conn.old).faults ≤ (C.Sink.told conn.new).faults }
    ensures source_stays { C.Source.told conn.new ≡ C.Source.told conn.old }
    ensures file_faults_rise { (F.told folder.old).file_faults ≤ (F.told folder.new).file_faults }
{
    match prepare(alloc, slice) {
        Ok(prepared) => {
            let fate = send_opened(alloc, conn, gate, folder, &prepared);
            drop(prepared);
            fate
        }
        Err(Mem) => starved(conn, gate),
    }
}

/// Returns what is needed before a file is opened.
fn prepare(alloc: Global, slice: Slice<'_>) -> Result<Prepared, Mem>
    requires fits { FitsIn slice.media.now.size slice.plan }
    ensures path { IfOk result (λ prepared. string_bytes prepared.path ≡ path_text slice.entry.media.now.path) }
    ensures head { IfOk result (λ prepared. prepared.head.items ≡ head_text slice.entry.media.now.size slice.entry.plan) }
    ensures at { IfOk result (λ prepared. prepared.at ≡ start_of slice.entry.plan) }
    ensures count { IfOk result (λ prepared. prepared.count ≡ count_for slice.entry.has_body slice.entry.media.now.size slice.entry.plan) }
{
    let path = path_text(alloc, &slice.media.path)?;
    let mut head = Vec::new(alloc);
    write_media_head(slice.plan, slice.media.size, &mut head)?;
    Ok(Prepared {
        path,
        head,
        at: slice.plan.start(),
        count: count_for(slice),
    })
}

/// Returns how many bytes of a file are sent after its head.
fn count_for(slice: Slice<'_>) -> u64
    requires fits { FitsIn slice.media.now.size slice.plan }
    ensures { result ≡ count_for slice.entry.has_body slice.entry.media.now.size slice.entry.plan }
{
    if slice.has_body {
        slice.plan.count(slice.media.size)
    } else {
        0
    }
}

/// Opens a file at a place, sends its head and its bytes from there on, and hands it back.
fn send_opened<C: Conn, G: Gate, F: Folder>(
    alloc: Global,
    conn: &mut C,
    gate: &mut G,
    folder: &mut F,
    prepared: &Prepared,
) -> Fate
    ensures opened { OpensAt (string_bytes prepared.now.path) prepared.now.at prepared.now.count prepared.now.head.items result (F.told folder.old) (F.told folder.new) (C.Sink.told conn.old) (C.Sink.told conn.new) }
    ensures ended { C.finished conn.new ≡ true }
    ensures write_faults_rise { (C.Sink.told conn.old).faults ≤ (C.Sink.told conn.new).faults }
    ensures source_stays { C.Source.told conn.new ≡ C.Source.told conn.old }
    ensures file_faults_rise { (F.told folder.old).file_faults ≤ (F.told folder.new).file_faults }
{
    match folder.open_at(alloc, prepared.path.as_str(), prepared.at) {
        Ok(mut file) => {
            send_file(
                conn,
                gate,
                prepared.head.as_slice(),
                &mut file,
                prepared.count,
            );
            folder.done(file);
            Fate::Sent
        }
        Err(FolderFault::Failed) => {
            answer_with(conn, gate, empty_text(alloc, 404), Fate::Unopened)
        }
        Err(FolderFault::Mem) => starved(conn, gate),
    }
}

/// Writes a head and the next bytes of a file between the two points of the gate, and then finishes the connection.
fn send_file<C: Conn, G: Gate, S: Source>(
    conn: &mut C,
    gate: &mut G,
    head: &[u8],
    file: &mut S,
    count: u64,
)
    ensures sent { Told (S.told file.old).left (λ bytes. WritesUnless (Rose (S.told file.old).faults (S.told file.new).faults) (head.now ++ take count bytes) (C.Sink.told conn.old) (C.Sink.told conn.new)) }
    ensures ended { C.finished conn.new ≡ true }
    ensures write_faults_rise { (C.Sink.told conn.old).faults ≤ (C.Sink.told conn.new).faults }
    ensures source_stays { C.Source.told conn.new ≡ C.Source.told conn.old }
{
    gate.pass(BEFORE_REPLY);
    send_both(conn, head, file, count);
    gate.pass(BEHIND_REPLY);
    conn.finish(Linger::Never);
}

/// Sends a head, and then the next bytes of a file.
fn send_both<C: Conn, S: Source>(conn: &mut C, head: &[u8], file: &mut S, count: u64)
    ensures sent { Told (S.told file.old).left (λ bytes. WritesUnless (Rose (S.told file.old).faults (S.told file.new).faults) (head.now ++ take count bytes) (C.Sink.told conn.old) (C.Sink.told conn.new)) }
    ensures write_faults_rise { (C.Sink.told conn.old).faults ≤ (C.Sink.told conn.new).faults }
    ensures source_stays { C.Source.told conn.new ≡ C.Source.told conn.old }
{
    match send_all(conn, head) {
        Ok(()) => {
            let _ = send_over(file, count, conn);
        }
        Err(Failed) => {}
    }
}

/// Returns the answer of a call in which a request for a file ended so.
pub(crate) fn ended_by(fate: Fate) -> Result<(), Mem>
    ensures { IsEndedBy fate result }
{
    match fate {
        Fate::Starved => Err(Mem),
        _ => Ok(()),
    }
}
