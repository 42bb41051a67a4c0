//! Appends pieces of texts. After a refusal a text may have a part of a piece.

ghost use Rattle.std.specs.Prelude.{◌≡◌, ◌++◌, IfOk, OnOk};
ghost use Rattle.std.specs.Fmt.{decimal};
ghost use Rattle.cds_http.specs.Written.{field_line};
ghost use Rattle.cds_ssdp.specs.Targets.{device_name};

use cds_base::Mem;
use std::alloc::Global;
use uuid::Uuid;

/// Appends bytes.
pub fn put(out: &mut Vec<u8>, piece: &[u8]) -> Result<(), Mem>
    ensures { OnOk result (out.new.items ≡ out.old.items ++ piece.now) }
{
    out.extend_from_slice(piece)?;
    Ok(())
}

/// Appends a field line.
pub fn put_field(out: &mut Vec<u8>, name: &[u8], value: &[u8]) -> Result<(), Mem>
    ensures { OnOk result (out.new.items ≡ out.old.items ++ field_line name.now value.now) }
{
    put(out, name)?;
    put(out, b": ")?;
    put(out, value)?;
    put(out, b"\r\n")
}

/// Appends a number in decimal.
pub fn put_number(out: &mut Vec<u8>, number: u32) -> Result<(), Mem>
    ensures { OnOk result (out.new.items ≡ out.old.items ++ decimal number) }
{
    let digits = number.to_string(*out.allocator())?;
    out.extend_from_slice(digits.as_bytes())?;
    Ok(())
}

/// Returns the name of a device.
#[tactic(auto, unfolding(crate::specs::Targets::device_name))]
pub fn device_name(alloc: Global, uuid: Uuid) -> Result<Vec<u8>, Mem>
    ensures { IfOk result (λ name. name.items ≡ device_name uuid) }
{
    let mut buffer = Uuid::encode_buffer();
    let text = uuid.hyphenated().encode_lower(&mut buffer);
    let mut name = Vec::new(alloc);
    put(&mut name, b"uuid:")?;
    put(&mut name, text.as_bytes())?;
    Ok(name)
}
