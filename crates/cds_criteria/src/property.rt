//! The properties of objects that can be searched for.

/// A property of objects that criteria may name (UPnP ContentDirectory:4 on the search capabilities).
#[derive(Clone, Copy, Debug, PartialEq, Eq)]
pub enum Property {
    /// `@id`
    Id,
    /// `@parentID`
    ParentId,
    /// `dc:title`
    Title,
    /// `upnp:class`
    Class,
    /// `upnp:artist`
    Artist,
    /// `upnp:album`
    Album,
    /// `upnp:genre`
    Genre,
    /// `upnp:originalTrackNumber`
    TrackNumber,
    /// `upnp:objectUpdateID`
    ObjectUpdate,
    /// `upnp:containerUpdateID`
    ContainerUpdate,
    /// `res@size`
    Size,
    /// `res@duration`
    Duration,
}
