//! The names of subscriptions.

ghost use Rattle.std.specs.Prelude.{◌≡◌, ◌++◌, option_map, IfOk, OnOk, OnErr};
ghost use Rattle.cds_gena.specs.SidText.{sid_in, sid_text};

use cds_base::{Mem, Text};
use std::alloc::Global;
use uuid::Uuid;

/// The name of a subscription: the number of the UUID in its SID (UPnP Device Architecture 2.0 on eventing).
#[derive(Clone, Copy, Debug, PartialEq, Eq)]
pub struct Sid(pub u128);

impl Sid {
    /// Returns the name in the text of a SID field: `uuid:`, in exactly these letters, and a UUID in one of its text
    /// forms. `None` comes for any other text.
    pub fn read(text: &[u8]) -> Option<Sid>
        ensures { option_map (λ sid. sid.0) result ≡ sid_in text.now }
    {
        if !text.starts_with(b"uuid:") {
            return None;
        }
        let (_, rest) = text.split_at(5);
        match Uuid::try_parse_ascii(rest) {
            Ok(id) => Some(Sid(id.as_u128())),
            Err(_) => None,
        }
    }

    /// Appends the text of its SID field: `uuid:` and the UUID hyphenated in lower case. If memory runs out, nothing is
    /// appended.
    pub fn write(&self, out: &mut Vec<u8>) -> Result<(), Mem>
        ensures ok { OnOk result (out.new.items ≡ out.old.items ++ sid_text self.now.0) }
        ensures err { OnErr result (out.new.items ≡ out.old.items) }
    {
        let mut buffer = Uuid::encode_buffer();
        let id = Uuid::from_u128(self.0);
        let text = id.urn().encode_lower(&mut buffer);
        out.extend_from_slice(&text.as_bytes()[4..])?;
        Ok(())
    }
    /// Returns the text of its SID field.
    pub fn text(&self, alloc: Global) -> Result<Text, Mem>
        ensures { IfOk result (λ text. text ≡ sid_text self.now.0) }
    {
        let mut buffer = Uuid::encode_buffer();
        let id = Uuid::from_u128(self.0);
        let mut text = String::from_str(alloc, "uuid:")?;
        text.push_str(id.hyphenated().encode_lower(&mut buffer))?;
        Ok(Text::from(text))
    }
}
