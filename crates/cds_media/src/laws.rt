//! Laws of ranges, and of what is planned of a file.

ghost use Rattle.cds_media.specs.Laws.{PlansAreExact, PlansFollowRanges, PlansHaveFourCases, RangesAreSpelled, SlicesAreNamed};

/// A RANGE is read as a range exactly if it is one of the three forms of that range.
pub fn ranges_are_spelled()
    ensures { RangesAreSpelled }
{}

/// If a range counts, what it cuts out is planned. It counts if the method is GET, and RANGE comes once in one of the three forms.
/// If none does, the whole file is planned.
pub fn plans_follow_ranges()
    ensures { PlansFollowRanges }
{}

/// Says by the numbers of a range what it cuts out, in four cases: one that is passed over, one that is refused, one of an empty
/// file, and any other.
pub fn plans_have_four_cases()
    ensures { PlansHaveFourCases }
{}

/// If a range is not passed over, exactly the bytes that it asks for are planned.
pub fn plans_are_exact()
    ensures { PlansAreExact }
{}

/// The planned bytes are the ones of the file from the start of the plan on. If the file has at least as many bytes as it was planned
/// for, their number is the one that the plan says.
pub fn slices_are_named()
    ensures { SlicesAreNamed }
{}
