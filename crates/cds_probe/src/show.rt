//! How answers are shown: in ASCII on one line. Control bytes, bytes above ASCII and `%` are shown as `%XX`.

use cds_base::Text;
use percent_encoding::{AsciiSet, CONTROLS, ascii_set, percent_encode};
use std::alloc::Global;
use std::fmt::Debug;

/// The bytes of ASCII that are shown as `%XX`.
const HIDDEN: AsciiSet = ascii_set!(CONTROLS.add(b'%'));

/// The answer to a row. It remembers if memory ran out, so that only the end has to check.
#[derive(Drop)]
pub struct Out {
    text: String,
    is_cut: bool,
}

impl Out {
    /// Makes an empty answer.
    pub fn new(alloc: Global) -> Out {
        Out {
            text: String::new(alloc),
            is_cut: false,
        }
    }

    /// Notes whether a call had enough memory.
    pub fn note(&mut self, is_done: bool) {
        if !is_done {
            self.is_cut = true;
        }
    }

    /// Returns whether each call had enough memory.
    pub fn is_whole(&self) -> bool {
        !self.is_cut
    }

    /// Returns what is written.
    pub fn as_str(&self) -> &str {
        self.text.as_str()
    }

    /// Puts a text as it is.
    pub fn put(&mut self, text: &str) {
        let is_done = self.text.push_str(text).is_ok();
        self.note(is_done);
    }

    /// Puts a value as `{:?}` has it.
    pub fn value<T: Debug>(&mut self, value: &T) {
        let is_done = write!(self.text, "{value:?}").is_ok();
        self.note(is_done);
    }

    /// Puts a text and a value.
    pub fn say<T: Debug>(&mut self, text: &str, value: &T) {
        self.put(text);
        self.value(value);
    }

    /// Shows bytes.
    pub fn show(&mut self, bytes: &[u8]) {
        let is_done = percent_encode(bytes, HIDDEN)
            .append_to(&mut self.text)
            .is_ok();
        self.note(is_done);
    }

    /// Shows bytes in quotes, after a space.
    pub fn quote(&mut self, bytes: &[u8]) {
        self.put(" \"");
        self.show(bytes);
        self.put("\"");
    }

    /// Shows a text in quotes, or `-` if there is none, after a space.
    pub fn quote_maybe(&mut self, text: &Option<Text>) {
        match text {
            Some(text) => self.quote(text.as_str().as_bytes()),
            None => self.put(" -"),
        }
    }

    /// Shows why something is refused.
    pub fn refuse<E: Debug>(&mut self, refusal: &E) {
        self.say("refused: ", refusal);
    }
}
