//! Appending pieces to a text. A refusal leaves the text as it was.

ghost use Rattle.std.specs.Prelude.{◌≡◌, ◌++◌, OnErr, OnOk, string_bytes};
ghost use Rattle.std.specs.Fmt.{decimal};

use crate::Mem;
use itoa::Buffer;

/// Appends a text. A refusal leaves `out` as it was.
pub fn put(out: &mut String, text: &str) -> Result<(), Mem>
    ensures ok { OnOk result (string_bytes out.new ≡ string_bytes out.old ++ text.now) }
    ensures err { OnErr result (string_bytes out.new ≡ string_bytes out.old) }
{
    out.push_str(text)?;
    Ok(())
}

/// Appends a number in decimal. A refusal leaves `out` as it was.
pub fn put_number(out: &mut String, number: u64) -> Result<(), Mem>
    ensures ok { OnOk result (string_bytes out.new ≡ string_bytes out.old ++ decimal number) }
    ensures err { OnErr result (string_bytes out.new ≡ string_bytes out.old) }
{
    let mut buffer = Buffer::new();
    out.push_str(buffer.format(number))?;
    Ok(())
}
