//! Names of files.

ghost use Rattle.std.specs.Prelude.{◌≡◌, ◌≤◌, ◌-◌, length, drop};
ghost use Rattle.std.specs.Str.{str_to_ascii_lowercase};
ghost use Rattle.cds_object.specs.Content.{same_text};
ghost use Rattle.cds_scan.specs.Outcomes.{ends_in_flac};

/// Returns whether a name ends in `.flac` in any ASCII case.
pub fn ends_in_flac(name: &str) -> bool
    ensures { result ≡ ends_in_flac name.now }
{
    name.len() >= 5 && is_in_any_case(last_five(name), b".flac")
}

/// Returns the last five bytes of a name.
fn last_five(name: &str) -> &[u8]
    requires { 5 ≤ length name.now }
    ensures { result.now ≡ drop (length name.now - 5) name.now }
{
    name.as_bytes().split_at(name.len() - 5).1
}

/// Returns whether a text equals `lower`, which is in lower case, when its own ASCII case is ignored.
fn is_in_any_case(text: &[u8], lower: &[u8]) -> bool
    requires { str_to_ascii_lowercase lower.now ≡ lower.now }
    ensures { result ≡ same_text (str_to_ascii_lowercase text.now) lower.now }
{
    text.eq_ignore_ascii_case(lower)
}
