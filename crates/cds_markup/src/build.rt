//! How the element of a document is built from its parts.

ghost use Rattle.std.specs.Prelude.{◌≡◌, [], IfOk, string_bytes};
ghost use Rattle.cds_markup.specs.Building.{state_of, flushed, opened, closed, with_text, nothing_yet, first_element};

use crate::{Attrs, Element, Name, Node, Nodes, Part, PartSink};
use cds_base::{Mem, Text};
use std::alloc::Global;

/// An element that is open.
#[derive(Drop)]
pub struct Frame {
    /// Its name.
    pub name: Name,
    /// Its attributes.
    pub attrs: Attrs,
    /// The nodes that stand before it in the element around it.
    pub before: Nodes,
}

/// What the parts so far say.
#[derive(Drop)]
pub struct Builder {
    /// The elements that are open, the innermost first; at most 16.
    pub frames: Vec<Frame>,
    /// The nodes of the innermost element so far.
    pub nodes: Nodes,
    /// A text after those nodes that may go on, as long as it is one run.
    pub text: Text,
    /// The same text, if it is more than one run.
    pub more: String,
}

impl Builder {
    /// Returns a builder that has no parts yet.
    pub fn new(alloc: Global) -> Self
        ensures { state_of result ≡ nothing_yet }
    {
        Builder {
            frames: Vec::new(alloc),
            nodes: Nodes::new(alloc),
            text: Text::from(String::new(alloc)),
            more: String::new(alloc),
        }
    }

    /// Adds the text to the nodes, if there is one and it is one run.
    fn flush_one(&mut self, alloc: Global) -> Result<(), Mem>
        requires { string_bytes self.old.more ≡ [] }
        ensures { IfOk result (λ done. state_of self.new ≡ flushed (state_of self.old)) }
    {
        if self.text.len() == 0 {
            return Ok(());
        }
        let text = std::mem::replace(&mut self.text, Text::from(String::new(alloc)));
        self.nodes.push(Node::Text(text))
    }

    /// Adds the text to the nodes, if there is one.
    fn flush(&mut self, alloc: Global) -> Result<(), Mem>
        ensures { IfOk result (λ done. state_of self.new ≡ flushed (state_of self.old)) }
    {
        if self.more.is_empty() {
            return self.flush_one(alloc);
        }
        drop(std::mem::replace(&mut self.text, Text::from(String::new(alloc))));
        let text = std::mem::replace(&mut self.more, String::new(alloc));
        self.nodes.push(Node::Text(Text::from(text)))
    }

    /// Adds the text to the nodes, then opens an element at its start tag.
    fn open(&mut self, alloc: Global, name: Name, attrs: Attrs) -> Result<(), Mem>
        ensures { IfOk result (λ done. state_of self.new ≡ opened name attrs (flushed (state_of self.old))) }
    {
        self.flush(alloc)?;
        let before = std::mem::replace(&mut self.nodes, Nodes::new(alloc));
        let frame = Frame {
            name,
            attrs,
            before,
        };
        if self.frames.insert(0, frame).is_err() {
            return Err(Mem);
        }
        Ok(())
    }

    /// Adds the text to the nodes, then ends the innermost element.
    fn close(&mut self, alloc: Global) -> Result<(), Mem>
        ensures { IfOk result (λ done. state_of self.new ≡ closed (flushed (state_of self.old))) }
    {
        self.flush(alloc)?;
        if self.frames.is_empty() {
            return Ok(());
        }
        let frame = self.frames.remove(0);
        let children = std::mem::replace(&mut self.nodes, frame.before);
        let element = Element {
            name: frame.name,
            attrs: frame.attrs,
            children,
        };
        self.nodes.push(Node::Child(element))
    }

    /// Adds a run of text.
    fn run(&mut self, text: Text) -> Result<(), Mem>
        ensures { IfOk result (λ done. state_of self.new ≡ with_text text (state_of self.old)) }
    {
        if self.more.is_empty() {
            if self.text.len() == 0 {
                drop(std::mem::replace(&mut self.text, text));
                return Ok(());
            }
            self.more.push_str(self.text.as_str())?;
        }
        self.more.push_str(text.as_str())?;
        Ok(())
    }

    /// Returns the first node, if it is an element.
    pub fn into_element(self) -> Option<Element>
        ensures { result ≡ first_element self.nodes }
    {
        self.nodes.into_first()
    }
}

impl PartSink for Builder {
    ghost use Rattle.cds_markup.specs.Building.{builds};

    ghost took = { builds };

    fn take(&mut self, part: Part) -> Result<(), Mem> {
        let alloc = *self.more.allocator();
        match part {
            Part::Start { name, attrs, .. } => self.open(alloc, name, attrs),
            Part::End { .. } => self.close(alloc),
            Part::Run { text, .. } => self.run(text),
        }
    }

    fn has_enough(&self) -> bool {
        false
    }
}
