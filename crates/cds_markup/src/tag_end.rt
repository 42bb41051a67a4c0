//! How a start tag ends.

ghost use Rattle.std.specs.Prelude.{◌≡◌, true, List, Ok, Some};
ghost use Rattle.cds_markup.specs.declared.tag.Open.{Open};
ghost use Rattle.cds_markup.specs.Tags.{ends_tag};
ghost use Rattle.cds_markup.specs.Next.{Done};
ghost use Rattle.cds_markup.specs.Root.{given, step_root};
ghost use Rattle.cds_markup.specs.Wholes.{step};
ghost use Rattle.cds_markup.specs.Steps.{opens_after, MovesSo};
ghost use Rattle.cds_markup.specs.TagEnds.{is_tag_over, tag_there, is_over_in, ends_start, token_at, state_at};

use crate::mode::{Mode, NameState, RootState, StartTagState};
use crate::start_tag::{ends_tag, no_tag};
use crate::tag::Tag;
use cds_base::Sequence;
use std::alloc::Global;

impl StartTagState {
    /// Returns whether the tag may end here.
    fn is_over(&self) -> bool
        ensures { result ≡ is_tag_over self.now }
    {
        match self {
            StartTagState::Name(name_state) => name_state.is_whole(),
            StartTagState::Tagged(_) => true,
            StartTagState::Spaced(_) => true,
            _ => false,
        }
    }

    /// Takes out the tag, which may end here.
    fn take_tag(&mut self, alloc: Global) -> Tag
        requires { is_tag_over self.old ≡ true }
        ensures { result ≡ tag_there self.old }
    {
        match self {
            StartTagState::Name(name_state) => {
                let whole = std::mem::replace(name_state, NameState::new(alloc));
                Tag {
                    name: whole.into_name(alloc),
                    attrs: Sequence::new(alloc),
                }
            }
            StartTagState::Tagged(tag) => std::mem::replace(tag, no_tag(alloc)),
            StartTagState::Spaced(tag) => std::mem::replace(tag, no_tag(alloc)),
            _ => unreachable!(),
        }
    }
}

impl RootState {
    /// Returns whether a start tag may end here.
    fn is_tag_over(&self) -> bool
        ensures { result ≡ is_over_in self.now }
    {
        match self {
            RootState::StartTag(start_tag_state) => start_tag_state.is_over(),
            _ => false,
        }
    }

    /// Goes over to the state after a start tag that this character ends.
    fn leave_tag(&mut self, c: char)
        ensures { self.new ≡ state_at c }
    {
        if c == '>' {
            self.go_to(RootState::Content(0));
        } else {
            self.go_to(RootState::Slashed);
        }
    }

    /// Ends a start tag with this character. Returns the tag.
    #[tactic(auto, using(crate::proofs::TagEnds::root_ends))]
    fn end_tag(&mut self, alloc: Global, c: char) -> Tag
        requires ends { ends_tag c ≡ true }
        requires over { is_over_in self.old ≡ true }
        ensures step { (opens : List Open) → step_root self.old opens c ≡ Done (given (token_at c result) (opens_after (token_at c result) opens) self.new) }
        ensures state { self.new ≡ state_at c }
    {
        match self {
            RootState::StartTag(start_tag_state) => {
                let tag = start_tag_state.take_tag(alloc);
                self.leave_tag(c);
                tag
            }
            _ => unreachable!(),
        }
    }
}

impl Mode {
    /// Returns whether the character ends a start tag here.
    pub fn ends_start(&self, c: char) -> bool
        ensures { result ≡ ends_start self.now c }
    {
        match self {
            Mode::Inside(root_state) => ends_tag(c) && root_state.is_tag_over(),
            _ => false,
        }
    }

    /// Ends a start tag with this character. Returns the tag.
    #[tactic(auto, using(crate::proofs::TagEnds::mode_ends))]
    pub fn end_start(&mut self, alloc: Global, c: char) -> Tag
        requires { ends_start self.old c ≡ true }
        ensures { (opens : List Open) → MovesSo opens (step self.old opens c) (Ok (Some (token_at c result))) self.new }
    {
        match self {
            Mode::Inside(root_state) => root_state.end_tag(alloc, c),
            _ => unreachable!(),
        }
    }
}
