//! A test of the lock under four threads.

ghost use Rattle.std.specs.Prelude.{◌≡◌, ◌≤◌, []};
ghost use Rattle.cds_turn.specs.Turn.{IsSeatOf, passes_of};

use crate::made::MEMORY;
use cds_base::Mem;
use cds_turn::{Act, Open, Seat, StandsFor, Turn};
use std::alloc::Global;
use std::collections::LinkedList;
use std::process::Abort;
use std::sync::Wait;
use std::test::Fail;
use std::thread::{Threads, join};

/// How many numbers each of four threads appends.
const EACH: u64 = 1_000;

/// A list of numbers, newest first, with a number that it was opened with.
#[derive(Drop)]
struct Log {
    opened: u64,
    numbers: LinkedList<u64>,
}

impl StandsFor for Log {
    ghost use Rattle.std.specs.Prelude.{◌≡◌};

    type Command = u64;

    type Start = u64;

    ghost start = { λ log. log.opened };

    ghost stands = { λ log start list. (log.opened ≡ start) × (log.numbers ≡ list) };
}

/// Appends a number.
#[derive(Clone, Copy)]
struct Append(u64);

impl Act<Log> for Append {
    ghost use Rattle.std.specs.Prelude.{◌≡◌, [], ◌∷◌, is_ok, if◌then◌else◌, ⊤};

    type Out = Result<(), Mem>;

    ghost adds = { λ act _ _ done. if is_ok done then act.0 ∷ [] else [] };

    ghost answers = { λ _ _ _ _. ⊤ };

    ghost does = { λ act before after done. after.numbers ≡ (if is_ok done then act.0 ∷ before.numbers else before.numbers) };

    fn act(self, log: &mut Log) -> (Result<(), Mem>, u64) {
        match log.numbers.push_front(self.0) {
            Ok(()) => (Ok(()), 1),
            Err(_) => (Err(Mem), 0),
        }
    }
}

fn empty_log(alloc: Global, opened: u64) -> Log
    ensures { (result.opened ≡ opened) × (result.numbers ≡ []) }
{
    Log {
        opened,
        numbers: LinkedList::new(alloc),
    }
}

/// Appends `count` numbers from `first` on, each in a turn of its own. Returns whether there was memory for all.
fn append_all<R: Wait>(
    rt: &R,
    turn: &Turn<Log>,
    mut seat: Seat<Log>,
    first: u64,
    count: u64,
) -> (Seat<Log>, bool)
    requires { IsSeatOf turn.now seat }
    ensures { IsSeatOf turn.entry.now result.0 × (passes_of result.0 ≡ passes_of seat) }
{
    let mut all = true;
    for i in 0..count {
        let done = turn.with(rt, &mut seat, Append(first.wrapping_add(i)));
        all = all && done.is_ok();
    }
    (seat, all)
}

/// Returns the numbers of a list from the oldest on.
fn oldest_first<R: Abort>(rt: &R, alloc: Global, log: &Log) -> Vec<u64> {
    let mut numbers = Vec::new(alloc);
    for number in log.numbers.iter() {
        numbers.push(*number).expect(rt, MEMORY);
    }
    numbers.reverse();
    numbers
}

/// Lets two threads append to the list, each in turns of its own.
fn by_two<R: Threads + Wait + Sync>(
    rt: &R,
    turn: &Turn<Log>,
    one: Seat<Log>,
    other: Seat<Log>,
    first: u64,
) -> ((Seat<Log>, bool), (Seat<Log>, bool))
    requires { IsSeatOf turn.now one × IsSeatOf turn.now other }
    ensures { IsSeatOf turn.entry.now result.0.0 × IsSeatOf turn.entry.now result.1.0 }
{
    join(
        rt,
        move || -> (Seat<Log>, bool)
            requires { IsSeatOf turn.now one }
            ensures { IsSeatOf turn.entry.now result.0 }
        { append_all(rt, turn, one, first, EACH) },
        move || -> (Seat<Log>, bool)
            requires { IsSeatOf turn.now other }
            ensures { IsSeatOf turn.entry.now result.0 }
        { append_all(rt, turn, other, first.wrapping_add(EACH), EACH) },
    )
}

/// Lets four threads append to the list. Returns whether there was memory for all.
fn by_four<R: Threads + Wait + Sync>(
    rt: &R,
    turn: &Turn<Log>,
    mut seat: Seat<Log>,
) -> (Seat<Log>, bool)
    requires { IsSeatOf turn.now seat × (4 ≤ passes_of seat) }
    ensures { IsSeatOf turn.entry.now result.0 }
{
    let second = turn.split(&mut seat);
    let third = turn.split(&mut seat);
    let fourth = turn.split(&mut seat);
    let (((mut seat, a), (second, b)), ((third, c), (fourth, d))) = join(
        rt,
        move || -> ((Seat<Log>, bool), (Seat<Log>, bool))
            requires { IsSeatOf turn.now seat × IsSeatOf turn.now second }
            ensures { IsSeatOf turn.entry.now result.0.0 × IsSeatOf turn.entry.now result.1.0 }
        { by_two(rt, turn, seat, second, 0) },
        move || -> ((Seat<Log>, bool), (Seat<Log>, bool))
            requires { IsSeatOf turn.now third × IsSeatOf turn.now fourth }
            ensures { IsSeatOf turn.entry.now result.0.0 × IsSeatOf turn.entry.now result.1.0 }
        { by_two(rt, turn, third, fourth, 2 * EACH) },
    );
    turn.join(&mut seat, second);
    turn.join(&mut seat, third);
    turn.join(&mut seat, fourth);
    (seat, a && b && c && d)
}

/// Returns whether the numbers of one thread begin at its first, go up by one and are `EACH` in all.
fn is_in_order(numbers: &[u64], first: u64) -> bool {
    let mut next = first;
    for number in numbers {
        if *number >= first && *number - first < EACH {
            if *number != next {
                return false;
            }
            next = next.wrapping_add(1);
        }
    }
    next == first.wrapping_add(EACH)
}

/// Checks that these are the numbers of all four threads, and no others.
fn check_numbers<R: Abort>(rt: &R, numbers: &[u64]) {
    assert!(rt; numbers.len() as u64 == 4 * EACH, "how many numbers");
    for thread in 0..4u64 {
        let first = thread.wrapping_mul(EACH);
        assert!(rt; is_in_order(numbers, first), "the numbers from {first} on");
    }
}

/// Checks that a list has them.
fn check_log<R: Abort>(rt: &R, alloc: Global, log: &Log) {
    let numbers = oldest_first(rt, alloc, log);
    check_numbers(rt, numbers.as_slice());
}

#[test]
fn four_threads_lose_nothing(rt: HostRuntime) -> Result<(), Fail> {
    let (turn, seat) = Turn::new(rt.alloc(), empty_log(rt.alloc(), 7), 4)?;
    let (seat, all) = by_four(&rt, &turn, seat);
    let log = turn.close(seat).expect(&rt, "no ticket is out");
    assert!(rt; all, "memory ran out");
    check_log(&rt, rt.alloc(), &log);
    Ok(())
}
