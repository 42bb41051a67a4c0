//! A report that comes in parts, of which only the counts are kept.

ghost use Rattle.std.specs.Prelude.{◌≡◌, ◌++◌, ◌∷◌, [], ℕ, List, true, IfOk, MatchOption, OnOk, string_bytes};
ghost use Rattle.cds_script.specs.Lines.{is_unbroken, lines_of};
ghost use Rattle.cds_summary.specs.Summary.{summary_text};
ghost use Rattle.cds_summary.specs.Tally.{IsTally, counts_of};

use crate::counts::{Counts, and_line, put_counts};
use cds_base::Mem;
use memchr::memchr;
use std::alloc::Global;

/// The counts of a report that comes in parts. Of the report itself only a last line is kept that has not ended.
#[derive(Drop)]
pub struct Tally {
    counts: Counts,
    partial: Vec<u8>,
}

impl Tally {
    /// Returns the tally of a report of which nothing has come.
    pub fn new(alloc: Global) -> Tally
        ensures { IsTally result [] }
    {
        Tally {
            counts: Counts {
                lines: 0,
                accept: 0,
                behind: 0,
                deliver: 0,
                gap: 0,
                note: 0,
                read: 0,
                readfault: 0,
                renew: 0,
                scan: 0,
                stands: 0,
                unsubscribe: 0,
            },
            partial: Vec::new(alloc),
        }
    }

    /// Counts the lines of a part of the report. After an error the tally is done with.
    pub fn feed(&mut self, part: &[u8]) -> Result<(), Mem>
        ensures { (report : List ℕ) → IsTally self.old report → OnOk result (IsTally self.new (report ++ part.now)) }
    {
        let mut rest = part;
        while let Some((line, after)) = cut_line(rest) {
            self.end_line(line)?;
            rest = after;
        }
        self.keep(rest)
    }

    /// Counts the line that ends with these bytes and an LF.
    fn end_line(&mut self, line: &[u8]) -> Result<(), Mem>
        requires { is_unbroken line.now ≡ true }
        ensures { (report : List ℕ) → IsTally self.old report → OnOk result (IsTally self.new (report ++ (line.now ++ 10 ∷ []))) }
    {
        self.partial.extend_from_slice(line)?;
        self.counts = and_line(self.partial.as_slice(), self.counts);
        self.partial.clear();
        Ok(())
    }

    /// Keeps bytes without an LF for the line that they begin.
    fn keep(&mut self, rest: &[u8]) -> Result<(), Mem>
        requires { is_unbroken rest.now ≡ true }
        ensures { (report : List ℕ) → IsTally self.old report → OnOk result (IsTally self.new (report ++ rest.now)) }
    {
        self.partial.extend_from_slice(rest)?;
        Ok(())
    }

    /// Puts the summary of the report, which has come to its end.
    pub fn put(&self, out: &mut String) -> Result<(), Mem>
        ensures { (report : List ℕ) → IsTally self.now report → OnOk result (string_bytes out.new ≡ string_bytes out.old ++ summary_text report) }
    {
        put_counts(out, &self.counts_of_all())
    }

    /// Returns the counts of the report, which has come to its end.
    fn counts_of_all(&self) -> Counts
        ensures { (report : List ℕ) → IsTally self.now report → result ≡ counts_of (lines_of report) }
    {
        if self.partial.is_empty() {
            self.counts
        } else {
            and_line(self.partial.as_slice(), self.counts)
        }
    }
}

/// Returns the first line and what comes after its LF, if the bytes have an LF.
fn cut_line(bytes: &[u8]) -> Option<(&[u8], &[u8])>
    ensures { MatchOption result (is_unbroken bytes.now ≡ true) (λ cut. (is_unbroken cut.0.now ≡ true) × (bytes.now ≡ cut.0.now ++ 10 ∷ cut.1.now)) }
{
    match memchr(b'\n', bytes) {
        None => None,
        Some(at) => {
            let (line, rest) = bytes.split_at(at);
            let (_, after) = rest.split_at(1);
            Some((line, after))
        }
    }
}
