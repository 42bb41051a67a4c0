//! The HOST of a control request.

ghost use Rattle.std.specs.Prelude.{◌≡◌, ◌&&◌, nat_le, length, Some, None, if◌then◌else◌, option_copied};
ghost use Rattle.std.specs.List.{list_all};
ghost use Rattle.cds_soap.specs.Laws.{is_host_byte, is_host};

/// The largest number of bytes in a HOST.
const HOST_LIMIT: usize = 255;

/// Returns whether a byte is an ASCII letter or digit, or one of `.`, `-`, `:`, `[` and `]`.
fn is_host_byte(byte: u8) -> bool
    ensures { result ≡ is_host_byte byte }
{
    (97 <= byte && byte <= 122)
        || (65 <= byte && byte <= 90)
        || (48 <= byte && byte <= 57)
        || byte == b'.'
        || byte == b'-'
        || byte == b':'
        || byte == b'['
        || byte == b']'
}

/// Returns whether all bytes may stand in a HOST.
fn has_host_bytes(bytes: &[u8]) -> bool
    ensures { result ≡ list_all is_host_byte bytes.now }
{
    bytes.iter().all(|byte| is_host_byte(*byte))
}

/// Returns whether the bytes are a HOST in its form.
fn is_host(bytes: &[u8]) -> bool
    ensures { result ≡ is_host bytes.now }
{
    has_host_bytes(bytes) && 1 <= bytes.len() && bytes.len() <= HOST_LIMIT
}

/// Returns the text of a HOST, if it is in its form: 1 to 255 ASCII letters, digits, `.`, `-`, `:`, `[` and `]`.
pub fn host_text(bytes: &[u8]) -> Option<&str>
    ensures { option_copied result ≡ (if is_host bytes.now then Some bytes.now else None) }
{
    match std::str::from_utf8(bytes) {
        Ok(text) => { if is_host(bytes) { Some(text) } else { None } }
        Err(_) => None,
    }
}
