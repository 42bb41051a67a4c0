//! Keeps the subscriptions of one server.

ghost use Rattle.std.specs.Prelude.{◌≡◌, ◌↔◌, ◌⊎◌, ◌+◌, ◌≤◌, ◌^◌, ℕ, List, [], ◌∷◌, ◌++◌, map, filter, length, slice_index, nat_eq, not, Some, None, Err, IsOk, IsSome, IsTrue, IfOk, IfErr, IfSome, OnOk, OnErr};
ghost use Rattle.std.specs.List.{AllByRecursion};
ghost use Rattle.indexmap.specs.IndexMap.{get};
ghost use Rattle.url.specs.Parts.{serialize};
ghost use Rattle.cds_commands.specs.Commands.{Command, Start, Grants, Renews, Ends, Ticks, scans_of};
ghost use Rattle.cds_commands.specs.Names.{high_word, low_word, name_of, names_of};
ghost use Rattle.cds_commands.specs.Places.{seq_after};
ghost use Rattle.cds_commands.specs.Releases.{release_at, releases_of};
ghost use Rattle.cds_commands.specs.Subscriptions.{end_after, granted};
ghost use Rattle.cds_gena.specs.declared.error.GenaError.TheVariants as GenaError;
ghost use Rattle.cds_gena.specs.Asked.{is_deliverable};
ghost use Rattle.cds_gena.specs.Served.{Served};
ghost use Rattle.cds_gena.specs.Subscribed.{IsDelivered, StandsFor, address_of, alive, expired, grant_refusal, holds_alive, least_wrap, living_named, nothing_granted, notified, number_of, raised, renewed, until, with_grant, without};

use crate::address::{Address, Addresses};
use crate::error::GenaError;
use crate::sid::Sid;
use cds_base::{Mem, Text};
use indexmap::IndexMap;
use std::alloc::Global;
use std::marker::Model;
use url::Url;

/// The most subscriptions that live at the same time.
const SUBSCRIPTION_LIMIT: usize = 64;

/// A subscription that has not ended.
#[derive(Drop, Debug)]
pub struct Subscription {
    /// The URL at which its notes are delivered.
    pub callback: Text,
    /// The moment at which it runs out, in milliseconds.
    pub end: u128,
    /// The SEQ of its next note.
    pub next_seq: u32,
}

/// The subscriptions that have not ended, by their numbers, in the order in which they were granted.
type Living = IndexMap<u32, Subscription>;

/// The subscriptions of a server: how many were granted, and those that have not ended. Each has a number, counted from
/// 1. Its name has 128 bits, made from the boot words of the server and this number.
#[derive(Drop)]
pub struct Book {
    /// The name of number 0.
    names: u128,
    /// The SEQ after which comes SEQ 1.
    wrap: u32,
    granted: u32,
    living: Living,
}

impl Model for Book {
    ghost use Rattle.cds_gena.specs.Subscribed.{Booked, IsBook};

    ghost Value = { Booked };

    ghost view = { λ b. record { names = b.names; wrap = b.wrap; subscribed = record { granted = b.granted; living = b.living.entries } } };

    ghost invariant = { λ b. IsBook b.names b.granted b.living.entries };
}

/// Returns the moment at which a subscription runs out that is granted at `now` for this many seconds.
fn end_after(now: u64, seconds: u32) -> u128
    ensures { result ≡ end_after now seconds }
{
    u128::from(now) + u128::from(seconds) * 1000
}

/// Returns how many subscriptions have not run out at a moment.
fn count_alive(living: &Living, now: u64) -> usize
    ensures { result ≡ length (alive now living.now.entries) }
{
    let now = u128::from(now);
    living.iter().filter(|entry| now < entry.1.end).count()
}

/// Returns whether the subscription with a number has not run out at a moment.
fn is_alive(living: &Living, number: u32, now: u64) -> bool
    ensures { result ≡ holds_alive now number living.now.entries }
{
    match living.get(&number) {
        Some(s) => u128::from(now) < s.end,
        None => false,
    }
}

/// Adds a subscription after the others.
fn add(living: &mut Living, number: u32, s: Subscription) -> Result<(), Mem>
    requires new { get nat_eq living.old number ≡ None }
    ensures ok { OnOk result (living.new.entries ≡ living.old.entries ++ (number, s) ∷ []) }
    ensures err { OnErr result (living.new.entries ≡ living.old.entries) }
{
    living.insert(number, s)?;
    Ok(())
}

/// Puts off the end of the subscription with a number.
fn put_off(living: &mut Living, number: u32, end: u128)
    ensures { living.new.entries ≡ map (until number end) living.old.entries }
{
    living.retain(|n, s| {
        if *n == number {
            s.end = end;
        }
        true
    });
}

/// Drops the subscription with a number.
fn drop_numbered(living: &mut Living, number: u32)
    ensures { living.new.entries ≡ filter (λ p. not (nat_eq p.0 number)) living.old.entries }
{
    living.retain(|n, _| *n != number);
}

/// Drops the subscriptions that have run out at a moment.
fn drop_past(living: &mut Living, now: u64)
    ensures { living.new.entries ≡ alive now living.old.entries }
{
    let now = u128::from(now);
    living.retain(|_, s| now < s.end);
}

/// Returns the SEQ after a SEQ: 1 comes after the last one.
fn seq_after(wrap: u32, seq: u32) -> u32
    ensures { result ≡ seq_after wrap seq }
{
    if seq < wrap { seq + 1 } else { 1 }
}

/// Gives each subscription the SEQ after that of its last note.
fn raise(living: &mut Living, wrap: u32)
    ensures { living.new.entries ≡ map (raised wrap) living.old.entries }
{
    living.retain(|_, s| {
        s.next_seq = seq_after(wrap, s.next_seq);
        true
    });
}

/// Returns the addresses of the notes to the subscriptions that have not run out at a moment, in the order in which
/// they were granted.
fn addresses(alloc: Global, living: &Living, names: u128, now: u64) -> Result<Vec<Address>, Mem>
    requires names { names + 2 ^ 32 ≤ 2 ^ 128 }
    ensures { IfOk result (λ all. all.items ≡ map (address_of names) (alive now living.now.entries)) }
{
    let now = u128::from(now);
    let mut all = Vec::new(alloc);
    for (number, s) in living.iter() {
        let number = *number;
        if now < s.end {
            let callback = s.callback.copy(alloc)?;
            all.push(Address {
                sid: Sid(names + u128::from(number)),
                callback,
                seq: s.next_seq,
            })?;
        }
    }
    Ok(all)
}

/// Returns the number of a name, if it is one that a book with this name of number 0 can give.
fn number_of(names: u128, sid: Sid) -> Option<u32>
    ensures { result ≡ number_of names sid.0 }
{
    match sid.0.checked_sub(names) {
        None => None,
        Some(number) => {
            if number <= u128::from(u32::MAX) {
                Some(number as u32)
            } else {
                None
            }
        }
    }
}

/// Returns the upper 64 bits of each name: those of the first boot word, with the four bits of the version.
fn high_word(high: u64) -> u64
    ensures { result ≡ high_word high }
{
    high / 65_536 * 65_536 + 32_768 + high % 4_096
}

/// Returns the lower 64 bits of the name of number 0: those of the second boot word, with the two bits of the variant.
/// The lowest 32 bits are left for the number.
fn low_word(low: u64) -> u64
    ensures result { result ≡ low_word low }
    ensures room { result + 2 ^ 32 ≤ 2 ^ 64 }
{
    9_223_372_036_854_775_808 + low % 4_611_686_018_427_387_904 / 4_294_967_296 * 4_294_967_296
}

impl Book {
    /// Returns a book without any subscription, by the two boot words of a server. After SEQ 4294967295 comes SEQ 1, as
    /// UPnP Device Architecture 2.0 has it. This takes no memory.
    pub fn new(alloc: Global, boot: [u64; 2]) -> Book
        ensures nothing { result.subscribed ≡ nothing_granted }
        ensures wrap { result.wrap ≡ 4294967295 }
        ensures stands { (start : Start) → start.high ≡ slice_index boot 0 → start.low ≡ slice_index boot 1 → start.wrap ≡ 4294967295 → StandsFor result start [] }
        ensures names { (first wrap : ℕ) → result.names ≡ names_of (record { high = slice_index boot 0; low = slice_index boot 1; first = first; wrap = wrap }) }
    {
        Book::with_wrap(alloc, boot, u32::MAX)
    }

    /// Returns such a book in which SEQ 1 comes after another SEQ, which is at least 256. It is for tests. This takes no
    /// memory.
    pub fn with_wrap(alloc: Global, boot: [u64; 2], wrap: u32) -> Book
        requires wrap { least_wrap ≤ wrap }
        ensures nothing { result.subscribed ≡ nothing_granted }
        ensures wrap { result.wrap ≡ wrap }
        ensures stands { (start : Start) → start.high ≡ slice_index boot 0 → start.low ≡ slice_index boot 1 → start.wrap ≡ wrap → StandsFor result start [] }
        ensures names { (first : ℕ) → result.names ≡ names_of (record { high = slice_index boot 0; low = slice_index boot 1; first = first; wrap = wrap }) }
    {
        let names = u128::from(high_word(boot[0])) * 18_446_744_073_709_551_616
            + u128::from(low_word(boot[1]));
        Book {
            names,
            wrap,
            granted: 0,
            living: IndexMap::new(alloc),
        }
    }

    /// Returns the name of number 0. No subscription gets it.
    pub fn names(&self) -> u128
        ensures { result ≡ self.now.names }
    {
        self.names
    }

    /// Returns how many subscriptions were granted.
    pub fn granted(&self) -> u32
        ensures { result ≡ self.now.subscribed.granted }
    {
        self.granted
    }

    /// Returns how many subscriptions have not run out at a moment in milliseconds. There are at most 64 if the calls
    /// so far were accepted and no moment was before that of an earlier call.
    pub fn live(&self, now: u64) -> usize
        ensures exact { result ≡ length (alive now self.now.subscribed.living) }
        ensures few { (start : Start) (commands : List Command) → StandsFor self.now start commands → Served now commands → result ≤ 64 }
    {
        count_alive(&self.living, now)
    }

    /// Returns the number of a name whose subscription has not run out at a moment.
    fn living_named(&self, now: u64, sid: Sid) -> Option<u32>
        ensures { result ≡ living_named now sid.0 self.now }
    {
        match number_of(self.names, sid) {
            None => None,
            Some(number) => {
                if is_alive(&self.living, number, now) {
                    Some(number)
                } else {
                    None
                }
            }
        }
    }

    /// Returns why no subscription is granted at a moment in milliseconds.
    fn grant_refusal(&self, now: u64) -> Option<GenaError>
        ensures { result ≡ grant_refusal now self.now.subscribed }
    {
        if self.granted == u32::MAX {
            return Some(GenaError::Spent);
        }
        let live = count_alive(&self.living, now);
        if live < SUBSCRIPTION_LIMIT {
            None
        } else {
            Some(GenaError::Full { live: live as u32 })
        }
    }

    /// Grants a subscription at a moment in milliseconds for this many seconds, and returns its name. The callback must
    /// be an `http` URL with a host. `Spent` comes if the last number was given. After that check, `Full` comes if the
    /// limit of living subscriptions is reached, with their number. A refusal changes nothing.
    pub fn subscribe(
        &mut self,
        alloc: Global,
        now: u64,
        callback: &Url,
        seconds: u32,
    ) -> Result<Sid, GenaError>
        requires delivered { IsTrue (is_deliverable callback.now) }
        ensures granted { OnOk result (self.new.subscribed ≡ with_grant now (serialize callback.now) seconds self.old.subscribed) }
        ensures sid { IfOk result (λ sid. sid.0 ≡ self.old.names + (self.old.subscribed.granted + 1)) }
        ensures room { OnOk result (grant_refusal now self.old.subscribed ≡ None) }
        ensures refused { IfSome (grant_refusal now self.old.subscribed) (λ e. result ≡ Err e) }
        ensures errors { IfErr result (λ e. (e ≡ GenaError.Mem) ⊎ (grant_refusal now self.old.subscribed ≡ Some e)) }
        ensures stands { (start : Start) (commands : List Command) → StandsFor self.old start commands
            → IfOk result (λ sid. (sid.0 ≡ name_of start (granted commands + 1))
            × StandsFor self.new start (Grants now (serialize callback.now) seconds ∷ commands)) }
        ensures names { self.new.names ≡ self.old.names }
        ensures wrap { self.new.wrap ≡ self.old.wrap }
        ensures kept { OnErr result (self.new ≡ self.old) }
    {
        if let Some(refusal) = self.grant_refusal(now) {
            return Err(refusal);
        }
        let number = self.granted + 1;
        let callback = Text::read(alloc, callback.as_str())?;
        let subscription = Subscription {
            callback,
            end: end_after(now, seconds),
            next_seq: 1,
        };
        add(&mut self.living, number, subscription)?;
        self.granted = number;
        Ok(Sid(self.names + u128::from(number)))
    }

    /// Renews the subscription with a name for this many seconds from a moment in milliseconds on. `Precondition` comes
    /// if no subscription with that name lives then, and nothing changes. It takes no memory.
    pub fn renew(&mut self, now: u64, sid: Sid, seconds: u32) -> Result<(), GenaError>
        ensures lives { IsOk result ↔ IsSome (living_named now sid.0 self.old) }
        ensures renewed { OnOk result (IfSome (living_named now sid.0 self.old)
            (λ number. self.new.subscribed ≡ renewed number (end_after now seconds) self.old.subscribed)) }
        ensures stands { (start : Start) (commands : List Command) → StandsFor self.old start commands
            → OnOk result (IfSome (living_named now sid.0 self.old) (λ number. StandsFor self.new start (Renews now number seconds ∷ commands))) }
        ensures errors { IfErr result (λ e. e ≡ GenaError.Precondition) }
        ensures names { self.new.names ≡ self.old.names }
        ensures wrap { self.new.wrap ≡ self.old.wrap }
        ensures kept { OnErr result (self.new ≡ self.old) }
    {
        match self.living_named(now, sid) {
            None => Err(GenaError::Precondition),
            Some(number) => {
                put_off(&mut self.living, number, end_after(now, seconds));
                Ok(())
            }
        }
    }

    /// Ends the subscription with a name. `Precondition` comes if no subscription with that name lives at the moment,
    /// and nothing changes. It takes no memory.
    pub fn unsubscribe(&mut self, now: u64, sid: Sid) -> Result<(), GenaError>
        ensures lives { IsOk result ↔ IsSome (living_named now sid.0 self.old) }
        ensures ended { OnOk result (IfSome (living_named now sid.0 self.old) (λ number. self.new.subscribed ≡ without number self.old.subscribed)) }
        ensures stands { (start : Start) (commands : List Command) → StandsFor self.old start commands
            → OnOk result (IfSome (living_named now sid.0 self.old) (λ number. StandsFor self.new start (Ends now number ∷ commands))) }
        ensures errors { IfErr result (λ e. e ≡ GenaError.Precondition) }
        ensures names { self.new.names ≡ self.old.names }
        ensures wrap { self.new.wrap ≡ self.old.wrap }
        ensures kept { OnErr result (self.new ≡ self.old) }
    {
        match self.living_named(now, sid) {
            None => Err(GenaError::Precondition),
            Some(number) => {
                drop_numbered(&mut self.living, number);
                Ok(())
            }
        }
    }

    /// Drops the subscriptions that have run out at a moment in milliseconds.
    pub fn expire(&mut self, now: u64)
        ensures expired { self.new.subscribed ≡ expired now self.old.subscribed }
        ensures stands { (start : Start) (commands : List Command) → StandsFor self.old start commands
            → release_at now (scans_of start.first commands) (releases_of start.first commands) ≡ None
            → StandsFor self.new start (Ticks now ∷ commands) }
        ensures names { self.new.names ≡ self.old.names }
        ensures wrap { self.new.wrap ≡ self.old.wrap }
    {
        drop_past(&mut self.living, now);
    }

    /// Drops the subscriptions that have run out at a moment. Appends the address of a note to each of the others, in
    /// the order in which they were granted. After the last SEQ comes SEQ 1, and the subscription lives on. Each address
    /// has a callback at which notes can be delivered. All memory is taken first: if it runs out, nothing changes.
    pub fn next_notes(&mut self, alloc: Global, now: u64, out: &mut Addresses) -> Result<(), Mem>
        ensures notes { OnOk result (out.new ≡ out.old ++ map (address_of self.old.names) (alive now self.old.subscribed.living)) }
        ensures delivered { OnOk result (AllByRecursion IsDelivered (map (address_of self.old.names) (alive now self.old.subscribed.living))) }
        ensures raised { OnOk result (self.new.subscribed ≡ notified self.old.wrap (expired now self.old.subscribed)) }
        ensures stands { (start : Start) (commands : List Command) → StandsFor self.old start commands
            → IsSome (release_at now (scans_of start.first commands) (releases_of start.first commands))
            → OnOk result (StandsFor self.new start (Ticks now ∷ commands)) }
        ensures names { self.new.names ≡ self.old.names }
        ensures wrap { self.new.wrap ≡ self.old.wrap }
        ensures kept { OnErr result ((self.new ≡ self.old) × (out.new ≡ out.old)) }
    {
        let all = addresses(alloc, &self.living, self.names, now)?;
        out.append(all)?;
        drop_past(&mut self.living, now);
        raise(&mut self.living, self.wrap);
        Ok(())
    }
}
