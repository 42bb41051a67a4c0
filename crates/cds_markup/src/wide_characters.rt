//! The states in which a character of more than one byte may begin.

ghost use Rattle.std.specs.Prelude.{◌≡◌, ◌==◌, ◌&&◌};
ghost use Rattle.cds_markup.specs.Bytes.{is_none, wide_attr, wide_tag, wide_root, wide_misc, takes_wide, root_begins, may_begin, begins_tag, may_begin_name};

use crate::end_tag::name_goes_on;
use crate::mode::{AttributeState, Misc, Mode, RootState, StartTagState};
use crate::tag::Open;

/// The byte order mark.
const MARK: [u8; 3] = [0xEF, 0xBB, 0xBF];

impl AttributeState {
    fn takes_wide(&self) -> bool
        ensures { result ≡ wide_attr self.now }
    {
        match self {
            AttributeState::AttrName(_) => true,
            AttributeState::Value(_, value) => value.reference.is_none(),
            _ => false,
        }
    }
}

impl StartTagState {
    fn takes_wide(&self) -> bool
        ensures { result ≡ wide_tag self.now }
    {
        match self {
            StartTagState::Opened | StartTagState::Name(_) | StartTagState::Spaced(_) => true,
            StartTagState::Tagged(_) => false,
            StartTagState::Attribute(_, attribute_state) => attribute_state.takes_wide(),
        }
    }
}

impl RootState {
    fn takes_wide(&self) -> bool
        ensures { result ≡ wide_root self.now }
    {
        match self {
            RootState::Content(_) | RootState::Less | RootState::Section(_, _) => true,
            RootState::Comment(dashes) => *dashes < 2,
            RootState::Cdata(left) => left.is_over(),
            RootState::StartTag(start_tag_state) => start_tag_state.takes_wide(),
            _ => false,
        }
    }

    /// Returns whether these bytes may begin a character here.
    fn may_begin(&self, opens: &[Open], bytes: &[u8]) -> bool
        ensures { result ≡ root_begins self.now opens.now bytes.now }
    {
        match self {
            RootState::EndTag(n) => match opens.first() {
                Some(innermost) => name_goes_on(&innermost.name, *n, bytes).is_some(),
                None => false,
            },
            _ => self.takes_wide(),
        }
    }
}

impl Misc {
    fn takes_wide(&self, before: bool) -> bool
        ensures { result ≡ wide_misc before self.now }
    {
        match self {
            Misc::MiscLess => before,
            Misc::MiscComment(dashes) => *dashes < 2,
            _ => false,
        }
    }
}

impl Mode {
    fn takes_wide(&self) -> bool
        ensures { result ≡ takes_wide self.now }
    {
        match self {
            Mode::First => true,
            Mode::Prolog(misc) => misc.takes_wide(true),
            Mode::Inside(root_state) => root_state.takes_wide(),
            Mode::Epilog(misc) => misc.takes_wide(false),
            _ => false,
        }
    }

    /// Returns whether these bytes may begin a character here, if these elements are open.
    pub fn may_begin(&self, opens: &[Open], bytes: &[u8]) -> bool
        ensures { result ≡ may_begin self.now opens.now bytes.now }
    {
        match self {
            Mode::Begin => MARK.starts_with(bytes),
            Mode::Inside(root_state) => root_state.may_begin(opens, bytes),
            _ => self.takes_wide(),
        }
    }

    /// Returns whether a `<` inside an element stands right before.
    pub fn begins_tag(&self) -> bool
        ensures { result ≡ begins_tag self.now }
    {
        matches!(self, Mode::Inside(RootState::Less))
    }
}

/// Returns whether the byte may begin a name: an ASCII letter, `_`, or the first byte of a character beyond ASCII.
pub fn may_begin_name(b: u8) -> bool
    ensures { result ≡ may_begin_name b }
{
    b.is_ascii_alphabetic() || b == b'_' || (b >= 0xC2 && b <= 0xF4)
}
