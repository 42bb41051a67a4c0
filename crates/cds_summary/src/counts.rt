//! The counts of a summary, and the lines that tell them.

ghost use Rattle.std.specs.Prelude.{◌≡◌, ◌++◌, OnOk, string_bytes};
ghost use Rattle.cds_summary.specs.Summary.{count_line, first_word};
ghost use Rattle.cds_summary.specs.Tally.{and_line, and_word, counts_text, first_counts, last_counts, middle_counts};

use cds_base::{Mem, put, put_number};
use memchr::memchr;

/// How many lines there are, and how many of them begin with each of some words. A count stops at the last value of a u64.
#[derive(Clone, Copy)]
pub struct Counts {
    pub lines: u64,
    pub accept: u64,
    pub behind: u64,
    pub deliver: u64,
    pub gap: u64,
    pub note: u64,
    pub read: u64,
    pub readfault: u64,
    pub renew: u64,
    pub scan: u64,
    pub stands: u64,
    pub unsubscribe: u64,
}

/// Returns the first word of a line.
fn first_word(line: &[u8]) -> &[u8]
    ensures { result.now ≡ first_word line.now }
{
    match memchr(b' ', line) {
        None => line,
        Some(at) => {
            let (word, _) = line.split_at(at);
            word
        }
    }
}

/// Returns a count after one more line, by the line's first word.
fn and_word(word: &str, first: &[u8], count: u64) -> u64
    ensures { result ≡ and_word word.now first.now count }
{
    if first == word.as_bytes() {
        count.saturating_add(1)
    } else {
        count
    }
}

/// Returns counts after one more line.
pub fn and_line(line: &[u8], counts: Counts) -> Counts
    ensures { result ≡ and_line line.now counts }
{
    let first = first_word(line);
    Counts {
        lines: counts.lines.saturating_add(1),
        accept: and_word("accept", first, counts.accept),
        behind: and_word("behind", first, counts.behind),
        deliver: and_word("deliver", first, counts.deliver),
        gap: and_word("gap", first, counts.gap),
        note: and_word("note", first, counts.note),
        read: and_word("read", first, counts.read),
        readfault: and_word("readfault", first, counts.readfault),
        renew: and_word("renew", first, counts.renew),
        scan: and_word("scan", first, counts.scan),
        stands: and_word("stands", first, counts.stands),
        unsubscribe: and_word("unsubscribe", first, counts.unsubscribe),
    }
}

/// Puts the lines that tell the counts.
pub fn put_counts(out: &mut String, counts: &Counts) -> Result<(), Mem>
    ensures { OnOk result (string_bytes out.new ≡ string_bytes out.old ++ counts_text counts.now) }
{
    put_first(out, counts)?;
    put_middle(out, counts)?;
    put_last(out, counts)
}

/// Puts the lines that tell the first counts.
fn put_first(out: &mut String, counts: &Counts) -> Result<(), Mem>
    ensures { OnOk result (string_bytes out.new ≡ string_bytes out.old ++ first_counts counts.now) }
{
    put_count(out, "lines", counts.lines)?;
    put_count(out, "accept", counts.accept)?;
    put_count(out, "behind", counts.behind)?;
    put_count(out, "deliver", counts.deliver)
}

/// Puts the lines that tell the counts in the middle.
fn put_middle(out: &mut String, counts: &Counts) -> Result<(), Mem>
    ensures { OnOk result (string_bytes out.new ≡ string_bytes out.old ++ middle_counts counts.now) }
{
    put_count(out, "gap", counts.gap)?;
    put_count(out, "note", counts.note)?;
    put_count(out, "read", counts.read)?;
    put_count(out, "readfault", counts.readfault)
}

/// Puts the lines that tell the last counts.
fn put_last(out: &mut String, counts: &Counts) -> Result<(), Mem>
    ensures { OnOk result (string_bytes out.new ≡ string_bytes out.old ++ last_counts counts.now) }
{
    put_count(out, "renew", counts.renew)?;
    put_count(out, "scan", counts.scan)?;
    put_count(out, "stands", counts.stands)?;
    put_count(out, "unsubscribe", counts.unsubscribe)
}

/// Puts the line that tells a count.
fn put_count(out: &mut String, word: &str, count: u64) -> Result<(), Mem>
    ensures { OnOk result (string_bytes out.new ≡ string_bytes out.old ++ count_line word.now count) }
{
    put(out, word)?;
    put(out, " ")?;
    put_number(out, count)?;
    put(out, "\n")
}
