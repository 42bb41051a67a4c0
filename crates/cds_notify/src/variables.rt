//! Looks in the parts of a document for the two variables of a note.

ghost use Rattle.std.specs.Prelude.{◌≡◌, OnOk, true};
ghost use Rattle.cds_notify.specs.Joined.{counted, no_texts, only_text, run_kept};
ghost use Rattle.cds_notify.specs.Gathering.{and_run, closed, gathering_begun, gathering_of, is_changes, is_event, is_number, level_in, opened, property_level, set_level, variable_level};

use cds_base::{Mem, Text};
use cds_markup::{Name, Part, PartSink};
use std::alloc::Global;
use std::marker::Model;

/// The variables of one name so far: how many came, and their own texts, joined.
#[derive(Drop)]
pub struct Joined {
    count: usize,
    text: String,
}

impl Model for Joined {
    ghost use Rattle.std.specs.Prelude.{string_bytes};
    ghost use Rattle.cds_notify.specs.Joined.{Texts, texts};

    ghost Value = { Texts };

    ghost view = { λ j. texts j.count (string_bytes j.text) };
}

impl Joined {
    /// Returns that none came.
    fn new(alloc: Global) -> Self
        ensures { result ≡ no_texts }
    {
        Joined {
            count: 0,
            text: String::new(alloc),
        }
    }

    /// Counts one more, if one begins.
    fn count_if(&mut self, begins: bool) -> Result<(), Mem>
        ensures { OnOk result (self.new ≡ counted begins self.old) }
    {
        if !begins {
            return Ok(());
        }
        match self.count.checked_add(1) {
            Some(count) => {
                self.count = count;
                Ok(())
            }
            None => Err(Mem),
        }
    }

    /// Adds a run of text.
    fn push(&mut self, run: &str) -> Result<(), Mem>
        ensures { OnOk result (self.new ≡ run_kept true run.now self.old) }
    {
        self.text.push_str(run)?;
        Ok(())
    }

    /// Returns the text, if exactly one came.
    pub fn into_only(self) -> Option<Text>
        ensures { result ≡ only_text self }
    {
        if self.count == 1 {
            Some(Text::from(self.text))
        } else {
            None
        }
    }
}

/// What an element is, as far as it is looked at.
#[derive(Clone, Copy)]
pub enum Level {
    /// What stands around the root.
    Outside,
    /// A set of properties.
    InSet,
    /// A property of it.
    InProperty,
    /// A SystemUpdateID in a property.
    InNumber,
    /// A LastChange in a property.
    InChanges,
    /// Any other element. All that stands in it is passed over.
    Passed,
}

/// Returns whether a name is this one in the namespace of events.
#[tactic(auto, unfolding(crate::specs::Said::event_space))]
fn is_event(name: &Name, local: &str) -> bool
    ensures { result ≡ is_event local.now name.now }
{
    name.local.as_str() == local && name.space.as_str() == "urn:schemas-upnp-org:event-1-0"
}

/// Returns what a root of this name is.
fn set_level(name: &Name) -> Level
    ensures { result ≡ set_level name.now }
{
    if is_event(name, "propertyset") {
        Level::InSet
    } else {
        Level::Passed
    }
}

/// Returns what an element of this name is in a set of properties.
fn property_level(name: &Name) -> Level
    ensures { result ≡ property_level name.now }
{
    if is_event(name, "property") {
        Level::InProperty
    } else {
        Level::Passed
    }
}

/// Returns what an element of this name is in a property.
fn variable_level(name: &Name) -> Level
    ensures { result ≡ variable_level name.now }
{
    if name.local.as_str() == "SystemUpdateID" {
        Level::InNumber
    } else if name.local.as_str() == "LastChange" {
        Level::InChanges
    } else {
        Level::Passed
    }
}

impl Level {
    /// Returns what a child element of this name is.
    fn level_in(self, name: &Name) -> Self
        ensures { result ≡ level_in self name.now }
    {
        match self {
            Level::Outside => set_level(name),
            Level::InSet => property_level(name),
            Level::InProperty => variable_level(name),
            _ => Level::Passed,
        }
    }

    /// Returns whether it is a SystemUpdateID.
    fn is_number(self) -> bool
        ensures { result ≡ is_number self }
    {
        match self {
            Level::InNumber => true,
            _ => false,
        }
    }

    /// Returns whether it is a LastChange.
    fn is_changes(self) -> bool
        ensures { result ≡ is_changes self }
    {
        match self {
            Level::InChanges => true,
            _ => false,
        }
    }
}

/// Takes the parts of a document. It keeps the texts of the variables SystemUpdateID and LastChange in the properties
/// of a set, and nothing else.
#[derive(Drop)]
pub struct Variables {
    /// The innermost element that is open.
    pub level: Level,
    /// What is open around it, the innermost first; at most 16.
    pub around: Vec<Level>,
    /// The SystemUpdateIDs.
    pub number: Joined,
    /// The LastChanges.
    pub changes: Joined,
}

impl Variables {
    /// Returns one that has no parts yet.
    pub fn new(alloc: Global) -> Self
        ensures { gathering_of result ≡ gathering_begun }
    {
        Variables {
            level: Level::Outside,
            around: Vec::new(alloc),
            number: Joined::new(alloc),
            changes: Joined::new(alloc),
        }
    }

    /// Opens an element at its start tag.
    fn open(&mut self, name: &Name) -> Result<(), Mem>
        ensures { OnOk result (gathering_of self.new ≡ opened name.now (gathering_of self.old)) }
    {
        let level = self.level.level_in(name);
        self.number.count_if(level.is_number())?;
        self.changes.count_if(level.is_changes())?;
        if self.around.insert(0, self.level).is_err() {
            return Err(Mem);
        }
        self.level = level;
        Ok(())
    }

    /// Ends the innermost element.
    fn close(&mut self)
        ensures { gathering_of self.new ≡ closed (gathering_of self.old) }
    {
        if self.around.is_empty() {
            return;
        }
        self.level = self.around.remove(0);
    }

    /// Adds a run of text, if it stands in one of the variables.
    fn run(&mut self, text: &Text) -> Result<(), Mem>
        ensures { OnOk result (gathering_of self.new ≡ and_run text.now (gathering_of self.old)) }
    {
        match self.level {
            Level::InNumber => self.number.push(text.as_str()),
            Level::InChanges => self.changes.push(text.as_str()),
            _ => Ok(()),
        }
    }
}

impl PartSink for Variables {
    ghost use Rattle.cds_notify.specs.Gathering.{gathers};

    ghost took = { gathers };

    fn take(&mut self, part: Part) -> Result<(), Mem> {
        match &part {
            Part::Start { name, .. } => self.open(name),
            Part::End { .. } => {
                self.close();
                Ok(())
            }
            Part::Run { text, .. } => self.run(text),
        }
    }

    fn has_enough(&self) -> bool {
        false
    }
}
