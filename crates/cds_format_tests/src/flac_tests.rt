//! Tests of FLAC files whose source fails, or is slow and long.

ghost use Rattle.std.specs.Prelude.{◌≡◌, ◌≤◌, length, None};

use crate::made::source;
use cds_flac::{FlacError, read_flac};
use cds_outside::{Failed, Source};
use std::alloc::Global;
use std::process::Abort;

/// A whole file: STREAMINFO and one comment.
const FILE: [u8; 65] = [
    0x66, 0x4C, 0x61, 0x43, 0x00, 0x00, 0x00, 0x22, 0x03, 0xE8, 0x03, 0xE8, 0x00, 0x00, 0x00, 0x00,
    0x00, 0x00, 0x0A, 0xC4, 0x42, 0xF0, 0x00, 0x06, 0xBA, 0xA8, 0x00, 0x00, 0x00, 0x00, 0x00, 0x00,
    0x00, 0x00, 0x00, 0x00, 0x00, 0x00, 0x00, 0x00, 0x00, 0x00, 0x84, 0x00, 0x00, 0x13, 0x00, 0x00,
    0x00, 0x00, 0x01, 0x00, 0x00, 0x00, 0x07, 0x00, 0x00, 0x00, 0x54, 0x49, 0x54, 0x4C, 0x45, 0x3D,
    0x5A,
];

/// Returns whether the file is refused for a failed read if the read of this number fails.
fn is_read_fault<R: Abort>(rt: &R, alloc: Global, call: u32) -> bool {
    let mut source = source(rt, alloc, &FILE, &[call]);
    read_flac(alloc, &mut source).err() == Some(FlacError::ReadFault)
}

#[test]
fn a_failed_read_is_a_read_fault(rt: HostRuntime) {
    for call in 1..8 {
        assert!(rt; is_read_fault(&rt, rt.alloc(), call), "read {call}");
    }
}

/// STREAMINFO, and the header of a picture of 16,000,000 bytes.
const BEFORE_PICTURE: [u8; 46] = [
    0x66, 0x4C, 0x61, 0x43, 0x00, 0x00, 0x00, 0x22, 0x03, 0xE8, 0x03, 0xE8, 0x00, 0x00, 0x00, 0x00,
    0x00, 0x00, 0x0A, 0xC4, 0x42, 0xF0, 0x00, 0x06, 0xBA, 0xA8, 0x00, 0x00, 0x00, 0x00, 0x00, 0x00,
    0x00, 0x00, 0x00, 0x00, 0x00, 0x00, 0x00, 0x00, 0x00, 0x00, 0x06, 0xF4, 0x24, 0x00,
];

/// A source that gives one byte at a time of its first part, then zeros that it does not hold, then one byte at a time
/// of its last part. It keeps the most that it was asked for.
#[derive(Drop)]
struct Slow {
    front: &'static [u8],
    zeros: usize,
    back: &'static [u8],
    given: usize,
    moved: u64,
    most: usize,
}

impl Source for Slow {
    ghost told = { λ s. record { left = None; moved = s.moved; faults = 0 } };

    fn read(&mut self, into: &mut [u8]) -> Result<usize, Failed> {
        self.most = self.most.max(into.len());
        let count = give(self, into);
        self.moved = self.moved.saturating_add(count as u64);
        Ok(count)
    }
}

fn give(slow: &mut Slow, into: &mut [u8]) -> usize
    ensures room { result ≤ length into.old }
    ensures moved { slow.new.moved ≡ slow.old.moved }
{
    if into.is_empty() {
        return 0;
    }
    if slow.given < slow.front.len() {
        into[0] = slow.front[slow.given];
        slow.given += 1;
        return 1;
    }
    if slow.zeros > 0 {
        let count = slow.zeros.min(into.len());
        into[..count].fill(0);
        slow.zeros -= count;
        return count;
    }
    let place = slow.given - slow.front.len();
    if place < slow.back.len() {
        into[0] = slow.back[place];
        slow.given += 1;
        return 1;
    }
    0
}

/// Makes a slow source of the file with a picture of 16,000,000 bytes before its comments.
fn with_picture() -> Slow {
    Slow {
        front: &BEFORE_PICTURE,
        zeros: 16_000_000,
        back: &FILE[42..],
        given: 0,
        moved: 0,
        most: 0,
    }
}

/// Reads that file, and checks what it says of itself.
fn check_read<R: Abort>(rt: &R, alloc: Global, slow: &mut Slow) {
    let info = read_flac(alloc, slow).expect(rt, "the file is not read");
    assert!(rt; info.samples == 441000);
    assert!(rt; info.comments.len() == 1);
}

#[test]
fn a_picture_is_read_over_and_nobody_holds_it(rt: HostRuntime) {
    let mut slow = with_picture();
    check_read(&rt, rt.alloc(), &mut slow);
    assert!(rt; slow.moved == 16_000_069);
    assert!(rt; slow.most <= 65536);
}
