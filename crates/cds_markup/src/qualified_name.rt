//! How the characters of a qualified name are read.

ghost use Rattle.std.specs.Prelude.{◌≡◌, ◌==◌, true, false, Some, None, []};
ghost use Rattle.cds_base.specs.Characters.{begins_name, is_in_name};
ghost use Rattle.cds_markup.specs.Names.{name_state, goes_on, is_whole, name_of};
ghost use Rattle.cds_markup.specs.Steps.{GoesSo, NamedSo};

use crate::letters::Letters;
use crate::mode::{NameState, NameStep};
use crate::tag::QName;
use cds_base::Mem;
use std::alloc::Global;

/// Returns whether a name may begin with the character.
pub fn begins_name(c: char) -> bool
    ensures { result ≡ begins_name c }
{
    c.is_ascii_alphabetic() || c == '_' || (c >= '\u{80}' && cds_base::is_allowed(c))
}

/// Returns whether the character may stand inside a name.
pub fn is_in_name(c: char) -> bool
    ensures { result ≡ is_in_name c }
{
    begins_name(c) || c.is_ascii_digit() || c == '-' || c == '.'
}

impl NameState {
    /// Returns a name that has no character yet.
    pub fn new(alloc: Global) -> Self
        ensures { result ≡ name_state [] None }
    {
        NameState {
            first: Letters::new(alloc),
            second: None,
        }
    }

    /// Returns whether the name may end here.
    pub fn is_whole(&self) -> bool
        ensures { result ≡ is_whole self.now.second }
    {
        match &self.second {
            Some(second) => !second.is_empty(),
            None => true,
        }
    }

    /// Returns the qualified name.
    pub fn into_name(self, alloc: Global) -> QName
        ensures { result ≡ name_of self }
    {
        let NameState { first, second } = self;
        match second {
            Some(second) => QName {
                prefix: first.into_text(),
                local: second.into_text(),
            },
            None => QName {
                prefix: Letters::new(alloc).into_text(),
                local: first.into_text(),
            },
        }
    }

    /// Adds the character to the name, if it belongs to it. Returns whether it does.
    pub fn go_on(&mut self, alloc: Global, c: char) -> Result<bool, Mem>
        ensures { GoesSo (goes_on self.old c) result self.old self.new }
    {
        match &mut self.second {
            None => {
                if is_in_name(c) {
                    self.first.push(c)?;
                    return Ok(true);
                }
                if c == ':' {
                    drop(std::mem::replace(&mut self.second, Some(Letters::new(alloc))));
                    return Ok(true);
                }
                Ok(false)
            }
            Some(second) => {
                let belongs = if second.is_empty() {
                    begins_name(c)
                } else {
                    is_in_name(c)
                };
                if belongs {
                    second.push(c)?;
                }
                Ok(belongs)
            }
        }
    }
}

/// Takes one character of a name or right after it. A name that ends is taken out.
pub fn name_step(name_state: &mut NameState, alloc: Global, c: char) -> Result<NameStep, Mem>
    ensures { NamedSo (goes_on name_state.old c) (is_whole name_state.old.second) (name_of name_state.old) result name_state.new }
{
    if name_state.go_on(alloc, c)? {
        return Ok(NameStep::Goes);
    }
    if !name_state.is_whole() {
        return Ok(NameStep::Breaks);
    }
    let whole = std::mem::replace(name_state, NameState::new(alloc));
    Ok(NameStep::Ends(whole.into_name(alloc)))
}
