//! Jobs on the shared server, each done in one turn.

ghost use Rattle.std.specs.Prelude.{◌≡◌, ◌<◌, ◌^◌, Option, is_some, length};
ghost use Rattle.cds_commands.specs.Commands.{Command};
ghost use Rattle.cds_serve.specs.Served.{added};

use crate::served::Served;
use cds_base::{Bytes, Mem};
use cds_scan::Scan;
use cds_server::{Answered, Asking, FirstNote, Media, Notes, Serving, TakeError};
use cds_turn::Act;
use std::alloc::Global;

/// What is written and sent for a message: the reply, and the first note of a subscription that was accepted.
#[derive(Drop)]
pub(crate) struct Reply {
    pub text: Bytes,
    pub note: Option<FirstNote>,
}

/// What a tick found: the notes of a release, if one was due, and whether the server was stopped.
#[derive(Drop)]
pub(crate) struct Look {
    pub notes: Option<Notes>,
    pub stopped: bool,
}

/// Returns how many commands were appended, by whether one was accepted.
fn appended(accepted: bool) -> u64
    ensures { (command : Option Command) → accepted ≡ is_some command → result ≡ length (added command) }
{
    if accepted { 1 } else { 0 }
}

/// Has the server answer what was asked at a moment.
#[derive(Clone, Copy)]
pub(crate) struct Handle<'a> {
    pub alloc: Global,
    pub now: u64,
    pub asking: &'a Asking,
}

impl<'a, V: Serving> Act<Served<V>> for Handle<'a> {
    ghost use Rattle.std.specs.Prelude.{⊤};
    ghost use Rattle.cds_serve.specs.Acts.{IsAnswerGiven, answer_adds};

    type Out = Result<Answered, Mem>;

    ghost adds = { λ act start found answer. answer_adds start found act.now act.asking.now answer };

    ghost answers = { λ act start found answer. IsAnswerGiven start found act.now act.asking.now answer };

    ghost does = { λ _ _ _ _. ⊤ };

    fn act(self, served: &mut Served<V>) -> (Result<Answered, Mem>, u64) {
        match served.answer(self.alloc, self.now, self.asking) {
            Ok(answered) => {
                let count = appended(answered.accepted);
                (Ok(answered), count)
            }
            Err(Mem) => (Err(Mem), 0),
        }
    }
}

/// Has the server name the file of the track with an id.
#[derive(Clone, Copy)]
pub(crate) struct Find {
    pub alloc: Global,
    pub id: u32,
}

impl<V: Serving> Act<Served<V>> for Find {
    ghost use Rattle.std.specs.Prelude.{[], ⊤};
    ghost use Rattle.cds_serve.specs.Acts.{IsFileNamed};

    type Out = Result<Option<Media>, Mem>;

    ghost adds = { λ _ _ _ _. [] };

    ghost answers = { λ act start found answer. IsFileNamed start found act.id answer };

    ghost does = { λ _ _ _ _. ⊤ };

    fn act(self, served: &mut Served<V>) -> (Result<Option<Media>, Mem>, u64) {
        (served.media(self.alloc, self.id), 0)
    }
}

/// Has the server take what a scan found at a moment.
#[derive(Drop)]
pub(crate) struct Accept<'a> {
    pub alloc: Global,
    pub now: u64,
    pub scan: &'a Scan,
    ghost few: { length scan.now.records < 2 ^ 32 },
}

impl<'a, V: Serving> Act<Served<V>> for Accept<'a> {
    ghost use Rattle.std.specs.Prelude.{⊤};
    ghost use Rattle.cds_serve.specs.Acts.{IsScanAnswer, scan_adds};
    ghost use Rattle.cds_serve.specs.Served.{CanBeClosed};

    type Out = Result<(), TakeError>;

    ghost adds = { λ act _ _ answer. scan_adds act.scan.now.records answer };

    ghost answers = { λ act start found answer. IsScanAnswer (CanBeClosed V.told V.stands start) start found act.scan.now.records answer };

    ghost does = { λ _ _ _ _. ⊤ };

    fn act(self, served: &mut Served<V>) -> (Result<(), TakeError>, u64) {
        match served.take_scan(self.alloc, self.now, self.scan) {
            Ok(()) => (Ok(()), 1),
            Err(refusal) => (Err(refusal), 0),
        }
    }
}

/// Returns the job of taking what a scan found at a moment.
pub(crate) fn accepting<'a>(alloc: Global, now: u64, scan: &'a Scan) -> Accept<'a>
    requires { length scan.now.records < 2 ^ 32 }
    ensures { result.scan.now ≡ scan.now }
{
    Accept { alloc, now, scan }
}

/// Has the server tick at a moment.
#[derive(Clone, Copy)]
pub(crate) struct Tick {
    pub alloc: Global,
    pub now: u64,
}

impl<V: Serving> Act<Served<V>> for Tick {
    ghost use Rattle.std.specs.Prelude.{⊤};
    ghost use Rattle.cds_serve.specs.Acts.{IsLook, look_adds};

    type Out = Result<Look, Mem>;

    ghost adds = { λ act _ _ answer. look_adds act.now answer };

    ghost answers = { λ act start found answer. IsLook start found act.now answer };

    ghost does = { λ _ _ _ _. ⊤ };

    fn act(self, served: &mut Served<V>) -> (Result<Look, Mem>, u64) {
        let stopped = served.stopped();
        match served.tick(self.alloc, self.now) {
            Ok(notes) => (Ok(Look { notes, stopped }), 1),
            Err(Mem) => (Err(Mem), 0),
        }
    }
}

/// Tells the server to stop.
#[derive(Clone, Copy)]
pub(crate) struct Stop;

impl<V: Serving> Act<Served<V>> for Stop {
    ghost use Rattle.std.specs.Prelude.{[], ◌∷◌, ⊤};
    ghost use Rattle.cds_commands.specs.Commands.{Stops};

    type Out = ();

    ghost adds = { λ _ _ _ _. Stops ∷ [] };

    ghost answers = { λ _ _ _ _. ⊤ };

    ghost does = { λ _ _ _ _. ⊤ };

    fn act(self, served: &mut Served<V>) -> ((), u64) {
        served.stop();
        ((), 1)
    }
}

/// Asks whether the server was stopped.
#[derive(Clone, Copy)]
pub(crate) struct IsStopped;

impl<V: Serving> Act<Served<V>> for IsStopped {
    ghost use Rattle.std.specs.Prelude.{◌≡◌, [], ⊤};
    ghost use Rattle.cds_commands.specs.Commands.{is_stopped};

    type Out = bool;

    ghost adds = { λ _ _ _ _. [] };

    ghost answers = { λ _ _ found stopped. stopped ≡ is_stopped found };

    ghost does = { λ _ _ _ _. ⊤ };

    fn act(self, served: &mut Served<V>) -> (bool, u64) {
        (served.stopped(), 0)
    }
}
