//! What the parts of a document say of a catalog's changes.

ghost use Rattle.std.specs.Prelude.{◌≡◌, ◌∷◌, [], Ok, Err, Some};
ghost use Rattle.cds_lastchange.specs.declared.judge.Unfit.TheVariants.{Mem as OutOfMemory};
ghost use Rattle.cds_lastchange.specs.Judged.{event_judged, start_judged, part_judged, nothing_said, Judges};

use crate::attributes::{event_of, is_state_event};
use crate::{Event, Events};
use cds_base::Mem;
use cds_markup::{Attr, Name, Part};
use std::alloc::Global;

/// What is open around a part.
#[derive(Clone, Copy)]
pub enum Level {
    /// Nothing.
    Outside,
    /// The root.
    InRoot,
    /// An event in it.
    InEvent,
}

/// A reason why a part is not taken.
#[derive(Clone, Copy)]
pub enum Unfit {
    /// The part makes the document no StateEvent. This place is answered.
    Misplaced { at: usize },
    /// Out of memory.
    Mem,
}

impl From<Mem> for Unfit {
    ghost from_gives = { λ _ e. e ≡ OutOfMemory };

    fn from(_: Mem) -> Self {
        Unfit::Mem
    }
}

/// What the parts so far say.
#[derive(Drop)]
pub struct Judge {
    /// What is open.
    pub level: Level,
    /// The events so far.
    pub events: Events,
}

impl Judge {
    /// Returns a judge of no parts.
    pub fn new(alloc: Global) -> Self
        ensures { result ≡ nothing_said }
    {
        Judge {
            level: Level::Outside,
            events: Events::new(alloc),
        }
    }

    /// Takes the root's start tag at this place.
    fn root(&mut self, at: usize, name: &Name, attrs: &[Attr]) -> Result<(), Unfit>
        requires { self.old.level ≡ Level.Outside }
        ensures { Judges (start_judged self.old.level self.old.events at name.now attrs.now) result self.new }
    {
        if !is_state_event(name) {
            return Err(Unfit::Misplaced { at });
        }
        self.level = Level::InRoot;
        Ok(())
    }

    /// Takes the start tag of an event at this place.
    fn event(&mut self, at: usize, event: Option<Event>) -> Result<(), Unfit>
        ensures { Judges (event_judged self.old.events at event) result self.new }
    {
        match event {
            None => Err(Unfit::Misplaced { at }),
            Some(event) => {
                self.events.push(event)?;
                self.level = Level::InEvent;
                Ok(())
            }
        }
    }

    /// Takes a start tag at this place.
    fn start(&mut self, at: usize, name: &Name, attrs: &[Attr]) -> Result<(), Unfit>
        ensures { Judges (start_judged self.old.level self.old.events at name.now attrs.now) result self.new }
    {
        match self.level {
            Level::Outside => self.root(at, name, attrs),
            Level::InRoot => self.event(at, event_of(name, attrs)),
            Level::InEvent => Err(Unfit::Misplaced { at }),
        }
    }

    /// Takes an end tag.
    fn end(&mut self)
        ensures { Ok self.new ≡ part_judged self.old (Part.End 0) }
    {
        self.level = match self.level {
            Level::InEvent => Level::InRoot,
            _ => Level::Outside,
        };
    }

    /// Takes the next part.
    pub fn part(&mut self, part: &Part) -> Result<(), Unfit>
        ensures { Judges (part_judged self.old part.now) result self.new }
    {
        match part {
            Part::Start {
                at,
                name,
                attrs,
                ..
            } => self.start(*at, name, attrs.as_slice()),
            Part::End { .. } => {
                self.end();
                Ok(())
            }
            Part::Run {
                non_blank: None,
                ..
            } => Ok(()),
            Part::Run {
                non_blank: Some(non_blank),
                ..
            } => Err(Unfit::Misplaced { at: *non_blank }),
        }
    }
}
