//! The job of a worker, which serves connections.

ghost use Rattle.std.specs.Prelude.{◌≡◌};
ghost use Rattle.std.specs.Arc.{arc_value};
ghost use Rattle.cds_turn.specs.Turn.{IsSeatOf, own_by, passes_of};
ghost use Rattle.cds_serve.specs.Jobs.{AddsAnswers, EndsWorking};

use crate::connection::serve_one;
use crate::served::Served;
use cds_outside::{Clock, Door, Folder, Gate, Job, Link};
use cds_server::Server;
use cds_ssdp::Device;
use cds_turn::{Seat, Turn};
use std::alloc::Global;
use std::marker::Send;
use std::sync::{Arc, Wait};

/// What a worker takes its connections from and serves them with.
#[derive(Drop)]
pub struct Post<D, T, L, G, F> {
    pub door: D,
    pub clock: T,
    /// The last moment that the clock gave.
    pub last: u64,
    pub link: L,
    pub gate: G,
    /// The device that the server is.
    pub device: Device,
    /// The folder whose files are sent.
    pub folder: F,
    /// How many connections it is to serve.
    pub share: u32,
}

/// Serves a share of the connections of a door, one after another, over a server that others share. If the door fails, it ends
/// before its share is served.
#[derive(Drop)]
pub struct Worker<R, D, T, L, G, F> {
    pub rt: R,
    pub alloc: Global,
    pub turn: Arc<Turn<Served<Server>>>,
    pub seat: Seat<Served<Server>>,
    pub post: Post<D, T, L, G, F>,
    ghost own: { IsSeatOf (arc_value turn) seat },
}

/// What a worker answers.
#[derive(Drop)]
pub struct Worked<D, F> {
    pub door: D,
    pub folder: F,
    pub seat: Seat<Served<Server>>,
    /// How many connections its door gave; it was to serve each of them. They are fewer than its share only if the door failed.
    pub served: u32,
}

impl<
    R: Wait + Send + Drop + 'static,
    D: Door + Send + Drop + 'static,
    T: Clock + Send + Drop + 'static,
    L: Link + Send + Drop + 'static,
    G: Gate + Send + Drop + 'static,
    F: Folder + Send + Drop + 'static,
> Job for Worker<R, D, T, L, G, F> {
    type Out = Worked<D, F>;

    ghost answers = { λ worker worked. IsSeatOf (arc_value worker.turn) worked.seat
        × (passes_of worked.seat ≡ passes_of worker.seat)
        × AddsAnswers (own_by worker.seat) (own_by worked.seat)
        × EndsWorking worker.post.share worked.served (D.told worker.post.door) (D.told worked.door) };

    fn run(self) -> Worked<D, F> {
        let Worker {
            rt,
            alloc,
            turn,
            mut seat,
            mut post,
        } = self;
        let served = serve_share(&rt, alloc, &turn, &mut seat, &mut post);
        drop(turn);
        drop(rt);
        let (door, folder) = ends_of(post);
        Worked {
            door,
            folder,
            seat,
            served,
        }
    }
}

/// Returns the door and the folder of a post, and drops the rest.
fn ends_of<D, T: Drop, L: Drop, G: Drop, F>(post: Post<D, T, L, G, F>) -> (D, F)
    ensures { result ≡ (post.door, post.folder) }
{
    let Post {
        door,
        clock,
        last: _,
        link,
        gate,
        device,
        folder,
        share: _,
    } = post;
    drop(device);
    drop(gate);
    drop(link);
    drop(clock);
    (door, folder)
}

/// Serves as many connections as the share of a post has, or fewer if its door fails. Returns how many it served.
fn serve_share<R: Wait, D: Door, T: Clock, L: Link, G: Gate, F: Folder>(
    rt: &R,
    alloc: Global,
    turn: &Turn<Served<Server>>,
    seat: &mut Seat<Served<Server>>,
    post: &mut Post<D, T, L, G, F>,
) -> u32
    requires { IsSeatOf turn.now seat.old }
    ensures seat { IsSeatOf turn.now seat.new }
    ensures passes { passes_of seat.new ≡ passes_of seat.old }
    ensures own { AddsAnswers (own_by seat.old) (own_by seat.new) }
    ensures ends { EndsWorking post.old.share result (D.told post.old.door) (D.told post.new.door) }
{
    let share = post.share;
    let mut served = 0;
    'connections: while served < share {
        match post.door.accept() {
            Ok(mut conn) => {
                let _ = serve_one(
                    rt,
                    alloc,
                    turn,
                    seat,
                    &mut conn,
                    &mut post.clock,
                    &mut post.last,
                    &mut post.link,
                    &mut post.gate,
                    &post.device,
                    &mut post.folder,
                );
                served += 1;
            }
            Err(_) => return served,
        }
    }
    served
}
