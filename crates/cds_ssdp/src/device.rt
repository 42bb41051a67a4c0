//! The device that is found, and where its description is.

ghost use Rattle.std.specs.Prelude.{◌≡◌, ◌<◌, ◌^◌, IfOk, None, option_and_then};
ghost use Rattle.std.specs.List.{list_all};
ghost use Rattle.std.specs.Result.{result_ok};
ghost use Rattle.url.specs.Parser.{parse_url};
ghost use Rattle.cds_ssdp.specs.Location.{is_printed, is_location, where_http, http_url};
ghost use Rattle.cds_ssdp.specs.Replies.{device_at};

use cds_base::{Mem, Text};
use std::alloc::Global;
use url::{ParseError, Url};
use uuid::Uuid;

/// The most bytes of a location.
const LOCATION_LIMIT: usize = 4_096;

/// A media server, as others find it.
#[derive(Drop)]
pub struct Device {
    /// The UUID in its name.
    pub uuid: Uuid,
    /// The address of its description. `is_location` says which texts may stand here.
    pub location: Text,
    /// The number that replies carry in BOOTID.UPNP.ORG.
    pub boot: u32,
}

/// Returns whether each byte is visible ASCII.
fn all_printed(bytes: &[u8]) -> bool
    ensures { result ≡ list_all is_printed bytes.now }
{
    bytes.iter().all(|byte| 33 <= *byte && *byte <= 126)
}

/// Returns the URL that a text is, if it is one.
fn parsed(alloc: Global, text: &str) -> Result<Option<Url>, Mem>
    ensures { IfOk result (λ url. url ≡ result_ok (parse_url None text.now)) }
{
    match Url::parse(alloc, text) {
        Ok(url) => Ok(Some(url)),
        Err(ParseError::OutOfMemory | ParseError::Overflow) => Err(Mem),
        Err(_) => Ok(None),
    }
}

/// Returns the URL, if its scheme is `http`.
fn where_http(url: Url) -> Option<Url>
    ensures { result ≡ where_http url }
{
    if url.scheme() == "http" {
        Some(url)
    } else {
        None
    }
}

/// Returns the `http` URL that a text is, if it is one.
pub(crate) fn http_url(alloc: Global, text: &str) -> Result<Option<Url>, Mem>
    ensures { IfOk result (λ url. url ≡ http_url text.now) }
{
    match parsed(alloc, text)? {
        Some(url) => Ok(where_http(url)),
        None => Ok(None),
    }
}

/// Returns whether a text may be the location of a device: an `http` address of at most 4,096 bytes, each of them
/// visible ASCII. The last two conditions are this project's profile.
pub fn is_location(alloc: Global, text: &str) -> Result<bool, Mem>
    ensures { IfOk result (λ can. can ≡ is_location text.now) }
{
    if text.len() > LOCATION_LIMIT || !all_printed(text.as_bytes()) {
        return Ok(false);
    }
    Ok(http_url(alloc, text)?.is_some())
}

impl Device {
    /// Returns the device of this UUID whose description is at a location. `None` comes exactly if `is_location` rejects the text.
    pub fn at(alloc: Global, uuid: Uuid, location: &str, boot: u32) -> Result<Option<Device>, Mem>
        ensures { IfOk result (λ device. device ≡ device_at uuid location.now boot) }
    {
        if !is_location(alloc, location)? {
            return Ok(None);
        }
        let location = Text::read(alloc, location)?;
        Ok(Some(Device {
            uuid,
            location,
            boot,
        }))
    }
}
