//! The ids of objects.

/// The id of an object, drawn once and never used again. The root has 0 (UPnP ContentDirectory:4 on object ids).
#[derive(Clone, Copy, Debug, PartialEq, Eq, PartialOrd, Ord)]
pub struct ObjectId(pub u32);
