//! Notes, and why a message is not a note.

ghost use Rattle.std.specs.Prelude.{◌≡◌};

use cds_base::Mem;
use cds_gena::Sid;
use cds_object::Events;
use std::marker::Model;
use thiserror::Error;

/// A note.
#[derive(Drop, Debug)]
pub struct Note {
    /// The name of its subscription.
    pub sid: Sid,
    /// Its SEQ: 0 for the first note of a subscription, then 1, 2 and so on. After the last SEQ comes SEQ 1.
    pub seq: u32,
    /// The SystemUpdateID.
    pub number: u32,
    /// The changes.
    pub events: Events,
}

impl Model for Note {
    ghost use Rattle.cds_commands.specs.Wire.{WireNote};

    ghost Value = { WireNote };

    ghost view = { λ n. record { name = n.sid.0; seq = n.seq; number = n.number; events = n.events } };
}

/// Why a message is not a note.
#[derive(Clone, Copy, Debug, PartialEq, Eq, Error)]
pub enum NoteError {
    #[error("out of memory")]
    Mem,
    /// It is no NOTIFY, or it has no NT, no NTS or no valid SEQ (status 400).
    #[error("no note")]
    Head,
    /// It is about other events, or names no subscription (status 412).
    #[error("precondition failed")]
    Precondition,
    /// Its body is no set of properties with a number and changes (status 400).
    #[error("no such body")]
    Body,
}

impl From<Mem> for NoteError {
    ghost use Rattle.cds_notify.specs.declared.note.NoteError.TheVariants.{Mem};

    ghost from_gives = { λ _ result. result ≡ Mem };

    fn from(_e: Mem) -> NoteError {
        NoteError::Mem
    }
}
