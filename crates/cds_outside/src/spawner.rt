//! Jobs, and the spawner of the outside, which starts them.

ghost use Rattle.std.specs.Prelude.{◌≡◌, IfSome};

use crate::Failed;
use std::marker::{Model, Send, Sync};
use std::snapshot::Snapshot;
use std::sync::Wait;
use std::thread::{Promise, PromisedHandle, SpawnError, Threads, spawn_with};

/// What a program that starts threads asks of its runtime.
pub trait Runtime: Threads + Wait + Clone + Drop + Send + Sync + 'static {}

impl<R: Threads + Wait + Clone + Drop + Send + Sync + 'static> Runtime for R {}

/// Work that is done once, in a thread of its own.
pub trait Job: Send + Drop + 'static {
    type Out: Send + Drop + 'static;

    // What its answer may be.
    ghost answers: { Self → Self.Out → Type 0 };

    /// Does the work, and returns its answer.
    fn run(self) -> Self::Out
        ensures { answers self result };
}

/// The promise that the answer of a started job keeps.
#[derive(Drop)]
struct AnswerOf<J> {
    job: Snapshot<J>,
}

impl<J: Job> Promise<J::Out> for AnswerOf<J> {
    ghost kept_by = { λ promise answer. J.answers promise.job.value answer };
}

/// A job that was started. Contracts see the job. One that is dropped runs on.
#[derive(Drop)]
pub struct Running<J: Job> {
    handle: PromisedHandle<J::Out, AnswerOf<J>>,
}

impl<J: Job> Model for Running<J> {
    ghost Value = { J };

    ghost view = { λ r. r.handle.promise.job.value };
}

impl<J: Job> Running<J> {
    /// Returns the job's answer, once it has ended. It may wait for that.
    pub fn join<R: Threads>(self, rt: &R) -> J::Out
        ensures { J.answers self result }
    {
        self.handle.join(rt)
    }
}

/// Starts the job in a thread of its own. If no thread can be made, `None` comes; the job is then dropped, and was not run.
fn start_job<J: Job, R: Threads>(rt: &R, job: J) -> Option<Running<J>>
    ensures { IfSome result (λ running. running ≡ job) }
{
    let promise = AnswerOf {
        job: Snapshot::of(&job),
    };
    match spawn_with(rt, promise, move || job.run()) {
        Ok(handle) => Some(Running { handle }),
        Err(SpawnError { value: _ }) => None,
    }
}

/// How an attempt to make a thread ended. Only `Spawner::start` makes one.
#[derive(Drop, Debug)]
pub struct Attempt {
    is_made: bool,
}

impl Model for Attempt {
    ghost use Rattle.std.specs.Prelude.{Bool};

    ghost Value = { Bool };

    ghost view = { λ a. a.is_made };
}

impl Attempt {
    /// Returns whether there is a thread, which runs the job.
    pub fn is_made(&self) -> bool
        ensures { result ≡ self.now }
    {
        self.is_made
    }
}

/// Starts jobs. A spawner says whether the next job may be started, and counts how that ended. `start` is the same for all
/// spawners.
pub trait Spawner {
    ghost use Rattle.std.specs.Prelude.{◌≡◌, ◌≤◌, if◌then◌else◌, IfOk, IsFalse, OnErr};
    ghost use Rattle.cds_outside.specs.Outside.{raised, Rose};
    ghost use Rattle.cds_outside.specs.Told.{SpawnerTold};

    // What it tells of itself.
    ghost told: { Self → SpawnerTold };

    /// Returns `Ok` if the next job may be started. `Failed` comes only if the count of faults rises.
    fn may_start(&mut self) -> Result<(), Failed>
        ensures started_stays { (told self.new).started ≡ (told self.old).started }
        ensures rose { OnErr result (Rose (told self.old).faults (told self.new).faults) }
        ensures never_falls { (told self.old).faults ≤ (told self.new).faults };

    /// Counts a job that was started, or a fault if no thread could be made for it.
    fn count(&mut self, attempt: Attempt)
        ensures started { (told self.new).started ≡ (if attempt then raised (told self.old).started 1 else (told self.old).started) }
        ensures rose { IsFalse attempt → Rose (told self.old).faults (told self.new).faults }
        ensures never_falls { (told self.old).faults ≤ (told self.new).faults };

    /// Starts the job in a thread of its own. A refused job is dropped and was not run. `Failed` comes only if the count of
    /// faults rises.
    final fn start<J: Job, R: Threads>(&mut self, rt: &R, job: J) -> Result<Running<J>, Failed>
        ensures job { IfOk result (λ running. running ≡ job) }
        ensures started { IfOk result (λ _. (told self.new).started ≡ raised (told self.old).started 1) }
        ensures started_stays { OnErr result ((told self.new).started ≡ (told self.old).started) }
        ensures rose { OnErr result (Rose (told self.old).faults (told self.new).faults) }
        ensures never_falls { (told self.old).faults ≤ (told self.new).faults }
    {
        self.may_start()?;
        match start_job(rt, job) {
            Some(running) => {
                self.count(Attempt { is_made: true });
                Ok(running)
            }
            None => {
                self.count(Attempt { is_made: false });
                Err(Failed)
            }
        }
    }
}
