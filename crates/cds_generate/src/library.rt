//! The tracks of a generated library, and the draws by which they change.

ghost use Rattle.std.specs.Prelude.{◌≡◌, ◌-◌, ◌<◌, ◌≤◌, IfOk, length};
ghost use Rattle.cds_generate.specs.Draws.{next_number, drawn_below};
ghost use Rattle.cds_generate.specs.Library.{AreBelow, at_place, changed, changed_by, changes_of, drawn, drawn_change, drawn_changes, first_library, first_raised, library_at, most_changes, raised, turned, version_limit};

use cds_base::Mem;
use std::alloc::Global;
use std::marker::Model;

/// The multiplier of the generator of draws, which is that of Knuth's MMIX.
const MULTIPLIER: u64 = 6_364_136_223_846_793_005;

/// What the generator adds at each draw.
const INCREMENT: u64 = 1_442_695_040_888_963_407;

/// A track: how often it changed, and whether it is in the library.
#[derive(Clone, Copy, Debug, PartialEq, Eq)]
pub struct Track {
    pub version: u32,
    pub present: bool,
}

/// The tracks of a library, numbered from 0, and the number of the generator of draws.
#[derive(Drop, Debug)]
pub(crate) struct Library {
    number: u64,
    tracks: Vec<Track>,
}

impl Model for Library {
    ghost use Rattle.cds_generate.specs.Library.{LibraryState};

    ghost Value = { LibraryState };

    ghost view = { λ l. record { number = l.number; tracks = l.tracks.items } };
}

/// Draws a number below `n`.
fn draw(number: &mut u64, n: u64) -> u64
    requires { 0 < n }
    ensures after { number.new ≡ next_number number.old }
    ensures drawn { result ≡ drawn_below n (next_number number.old) }
    ensures below { result < n }
{
    *number = number.wrapping_mul(MULTIPLIER).wrapping_add(INCREMENT);
    (*number >> 33) % n
}

/// Raises the version of the track at a place.
fn raise(tracks: &mut Vec<Track>, at: usize)
    requires within { at < length tracks.old.items }
    requires room { AreBelow version_limit tracks.old.items }
    ensures { tracks.new.items ≡ at_place at raised tracks.old.items }
{
    let track = tracks[at];
    tracks[at] = Track {
        version: track.version + 1,
        present: track.present,
    };
}

/// Removes the track at a place, or brings it back.
fn turn(tracks: &mut Vec<Track>, at: usize)
    requires { at < length tracks.old.items }
    ensures { tracks.new.items ≡ at_place at turned tracks.old.items }
{
    let track = tracks[at];
    tracks[at] = Track {
        version: track.version,
        present: !track.present,
    };
}

/// Makes a drawn change of the track at a place.
fn change_at(tracks: &mut Vec<Track>, at: usize, kind: u64)
    requires within { at < length tracks.old.items }
    requires room { AreBelow version_limit tracks.old.items }
    ensures { tracks.new.items ≡ at_place at (changed at kind) tracks.old.items }
{
    if kind == 0 && at != 0 {
        turn(tracks, at);
    } else {
        raise(tracks, at);
    }
}

/// Draws a change and makes it.
fn change(number: &mut u64, tracks: &mut Vec<Track>)
    requires some { 0 < length tracks.old.items }
    requires room { AreBelow version_limit tracks.old.items }
    ensures after { number.new ≡ next_number (next_number number.old) }
    ensures changed { tracks.new.items ≡ changed_by (next_number number.old) (next_number (next_number number.old)) tracks.old.items }
{
    let at = draw(number, tracks.len() as u64) as usize;
    let kind = draw(number, 4);
    change_at(tracks, at, kind);
}

impl Library {
    /// Returns a library in which each track is present, in version 0.
    pub(crate) fn new(alloc: Global, seed: u64, count: u32) -> Result<Library, Mem>
        ensures { IfOk result (λ library. library ≡ first_library seed count) }
    {
        let mut tracks = Vec::new(alloc);
        for _ in 0..count {
            tracks.push(Track {
                version: 0,
                present: true,
            })?;
        }
        Ok(Library {
            number: seed,
            tracks,
        })
    }

    /// Returns the tracks.
    pub(crate) fn tracks(&self) -> &[Track]
        ensures { result.now ≡ self.now.tracks }
    {
        self.tracks.as_slice()
    }

    /// Draws a number below `n`.
    pub(crate) fn draw(&mut self, n: u64) -> u64
        requires { 0 < n }
        ensures after { self.new ≡ drawn self.old }
        ensures drawn { result ≡ drawn_below n (next_number self.old.number) }
    {
        draw(&mut self.number, n)
    }

    /// Draws a change and makes it.
    fn change(&mut self)
        requires some { 0 < length self.old.tracks }
        requires room { AreBelow version_limit self.old.tracks }
        ensures { self.new ≡ drawn_change self.old }
    {
        change(&mut self.number, &mut self.tracks);
    }

    /// Raises the version of track 0.
    fn raise_first(&mut self)
        requires some { 0 < length self.old.tracks }
        requires room { AreBelow version_limit self.old.tracks }
        ensures { self.new ≡ first_raised self.old }
    {
        raise(&mut self.tracks, 0);
    }

    /// Draws changes and makes them.
    fn change_often(&mut self, count: u64)
        requires some { 0 < length self.old.tracks }
        requires few { count ≤ most_changes }
        requires room { AreBelow (version_limit - most_changes) self.old.tracks }
        ensures { self.new ≡ drawn_changes count self.old }
    {
        for _ in 0..count {
            self.change();
        }
    }

    /// Changes the library before the scan of a step. Before the first step nothing changes.
    pub(crate) fn change_before(&mut self, step: u32)
        requires some { 0 < length self.old.tracks }
        requires few { length self.old.tracks ≤ 10000 }
        requires room { AreBelow (version_limit - most_changes - 1) self.old.tracks }
        ensures { self.new ≡ library_at step self.old }
    {
        if step > 1 {
            let count = self.tracks.len() as u64 / 50 + 1;
            self.raise_first();
            self.change_often(count);
        }
    }
}
