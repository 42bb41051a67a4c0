//! The comparisons of criteria.

/// An operator between a property and a value (UPnP ContentDirectory:4 on SearchCriteria).
#[derive(Clone, Copy, Debug, PartialEq, Eq)]
pub enum Operator {
    /// `=`
    Equals,
    /// `!=`
    Differs,
    /// `<`
    Below,
    /// `<=`
    AtMost,
    /// `>`
    Above,
    /// `>=`
    AtLeast,
    /// `contains`
    Contains,
    /// `doesNotContain`
    DoesNotContain,
    /// `derivedfrom`: the class that the value names, or a class derived from it.
    DerivedFrom,
}
