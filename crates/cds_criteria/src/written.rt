//! A short text that is written in place, without memory.

ghost use Rattle.std.specs.Prelude.{◌≡◌, ◌++◌, ◌+◌, ◌/◌, ◌<◌, ◌≤◌, [], ◌∷◌, cond, codes, length};
ghost use Rattle.std.specs.Fmt.{decimal};
ghost use Rattle.cds_object.specs.Fragment.{two_digits, three_digits, duration_text};

use itoa::Buffer;
use std::marker::Model;

/// A text of at most 64 bytes. Contracts see the list of its bytes.
#[derive(Drop)]
pub(crate) struct Written {
    bytes: [u8; 64],
    size: usize,
}

impl Model for Written {
    ghost use Rattle.std.specs.Prelude.{ℕ, List, take, ◌≤◌};

    ghost Value = { List ℕ };

    ghost view = { λ w. take w.size w.bytes };

    ghost invariant = { λ w. w.size ≤ 64 };
}

impl Written {
    /// Makes the empty text.
    pub(crate) fn new() -> Self
        ensures { result ≡ [] }
    {
        Written {
            bytes: [0; 64],
            size: 0,
        }
    }

    /// Adds a byte at the end.
    pub(crate) fn push(&mut self, b: u8)
        requires { length self.old < 64 }
        ensures { self.new ≡ self.old ++ b ∷ [] }
    {
        self.bytes[self.size] = b;
        self.size += 1;
    }

    /// Returns the bytes.
    pub(crate) fn as_slice(&self) -> &[u8]
        ensures { result.now ≡ self.now }
    {
        self.bytes.as_slice().split_at(self.size).0
    }
}

/// Adds bytes at the end.
fn put_all(out: &mut Written, bytes: &[u8])
    requires { length out.old + length bytes.now ≤ 64 }
    ensures { out.new ≡ out.old ++ bytes.now }
{
    for byte in bytes {
        out.push(*byte);
    }
}

/// Adds a number in decimal.
fn put_decimal(out: &mut Written, n: u64)
    requires { length out.old + length (decimal n) ≤ 64 }
    ensures { out.new ≡ out.old ++ decimal n }
{
    let mut buffer = Buffer::new();
    put_all(out, buffer.format(n).as_bytes());
}

/// Adds a zero, if it is wanted.
fn put_zero(out: &mut Written, wanted: bool)
    requires { length out.old ≤ 61 }
    ensures exact { out.new ≡ out.old ++ cond wanted (codes "0") [] }
    ensures short { length out.new ≤ length out.old + 1 }
{
    if wanted {
        out.push(b'0');
    }
}

/// Adds a number of one or two digits in two.
fn put_two(out: &mut Written, n: u64)
    requires small { n < 100 }
    requires room { length out.old ≤ 60 }
    ensures exact { out.new ≡ out.old ++ two_digits n }
    ensures short { length out.new ≤ length out.old + 3 }
{
    put_zero(out, n < 10);
    put_decimal(out, n);
}

/// Adds a number of up to three digits in three.
fn put_three(out: &mut Written, n: u64)
    requires small { n < 1000 }
    requires room { length out.old ≤ 59 }
    ensures exact { out.new ≡ out.old ++ three_digits n }
{
    put_zero(out, n < 100);
    put_zero(out, n < 10);
    put_decimal(out, n);
}

/// Adds a `:` and a number of one or two digits in two.
fn put_part(out: &mut Written, n: u64)
    requires small { n < 100 }
    requires room { length out.old ≤ 59 }
    ensures exact { out.new ≡ out.old ++ codes ":" ++ two_digits n }
    ensures short { length out.new ≤ length out.old + 4 }
{
    out.push(b':');
    put_two(out, n);
}

/// Adds the hours of a duration in milliseconds.
fn put_hours(out: &mut Written, ms: u64)
    requires { length out.old ≤ 20 }
    ensures exact { out.new ≡ out.old ++ decimal (ms / 3600000) }
    ensures short { length out.new ≤ length out.old + 20 }
{
    put_decimal(out, ms / 3_600_000);
}

/// Adds a duration in milliseconds as hours, minutes, seconds and milliseconds.
#[tactic(auto, unfolding(cds_object::specs::Fragment::duration_text, cds_object::specs::Fragment::seconds_text))]
pub(crate) fn put_duration(out: &mut Written, ms: u64)
    requires { length out.old ≤ 20 }
    ensures { out.new ≡ out.old ++ duration_text ms }
{
    put_hours(out, ms);
    put_part(out, ms / 60_000 % 60);
    put_part(out, ms / 1000 % 60);
    out.push(b'.');
    put_three(out, ms % 1000);
}
