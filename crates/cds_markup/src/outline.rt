//! Reads a document down to a few levels, and builds what is kept of its element from the parts.

ghost use Rattle.std.specs.Prelude.{◌≡◌, ◌<◌, ◌++◌, [], IfOk, OnOk};
ghost use Rattle.cds_markup.specs.Building.{and_text, first_element};
ghost use Rattle.cds_markup.specs.Outline.{DecidesOutline};
ghost use Rattle.cds_markup.specs.Outlining.{opened_as, inner_levels, with_run, cut_of, with_inner, outlining_of, outlining_begun, opened, closed, and_run};

use crate::namespace::Namespace;
use crate::{Attrs, Element, MarkupError, Name, Node, Nodes, Part, PartSink, give_parts};
use cds_base::{Mem, Text};
use std::alloc::Global;
use std::marker::Model;

/// A text that grows by runs. Its first run is moved into it. Contracts see the list of its bytes.
#[derive(Drop)]
pub struct JoinedRuns {
    /// The text, as long as it is one run.
    one: Text,
    /// The text, if it is more than one run.
    more: String,
}

impl Model for JoinedRuns {
    ghost use Rattle.std.specs.Prelude.{ℕ, List, string_bytes};
    ghost use Rattle.cds_markup.specs.Building.{text_kept};

    ghost Value = { List ℕ };

    ghost view = { λ r. text_kept r.one (string_bytes r.more) };
}

impl JoinedRuns {
    /// Returns an empty text.
    fn new(alloc: Global) -> Self
        ensures { result ≡ [] }
    {
        JoinedRuns {
            one: Text::from(String::new(alloc)),
            more: String::new(alloc),
        }
    }

    /// Adds a run.
    fn push(&mut self, run: Text) -> Result<(), Mem>
        ensures { OnOk result (self.new ≡ self.old ++ run) }
    {
        if self.more.is_empty() {
            if self.one.len() == 0 {
                drop(std::mem::replace(&mut self.one, run));
                return Ok(());
            }
            self.more.push_str(self.one.as_str())?;
            let none = Text::from(String::new(*self.more.allocator()));
            drop(std::mem::replace(&mut self.one, none));
        }
        self.more.push_str(run.as_str())?;
        Ok(())
    }

    /// Returns the text.
    fn into_text(self) -> Text
        ensures { result ≡ self }
    {
        if self.more.is_empty() {
            self.one
        } else {
            Text::from(self.more)
        }
    }
}

/// An element that is open, with what is kept of it so far.
#[derive(Drop)]
pub struct OpenElement {
    /// Its name.
    pub name: Name,
    /// How many levels are kept, with its own. At the last level its text is kept, and above it its child elements.
    pub levels: usize,
    /// The child elements that are kept.
    pub children: Nodes,
    /// The text that is kept.
    pub text: JoinedRuns,
}

/// Adds the text to the nodes, if there is one.
fn with_text(nodes: Nodes, text: JoinedRuns) -> Result<Nodes, Mem>
    ensures { IfOk result (λ all. all ≡ and_text nodes text) }
{
    let text = text.into_text();
    if text.len() == 0 {
        return Ok(nodes);
    }
    let mut all = nodes;
    all.push(Node::Text(text))?;
    Ok(all)
}

impl OpenElement {
    /// Returns an element of which nothing came yet but its start tag.
    fn new(alloc: Global, name: Name, levels: usize) -> Self
        ensures { result ≡ opened_as name levels }
    {
        OpenElement {
            name,
            levels,
            children: Nodes::new(alloc),
            text: JoinedRuns::new(alloc),
        }
    }

    /// Returns how many levels are kept of its next child element.
    fn inner_levels(&self, width: usize) -> usize
        ensures { result ≡ inner_levels width self.now }
    {
        if self.children.len() < width {
            self.levels.saturating_sub(1)
        } else {
            0
        }
    }

    /// Adds a run of text, if its text is kept.
    fn run(&mut self, text: Text) -> Result<(), Mem>
        ensures { OnOk result (self.new ≡ with_run text self.old) }
    {
        if self.levels == 1 {
            return self.text.push(text);
        }
        Ok(())
    }

    /// Returns what is kept of it.
    fn into_element(self, alloc: Global) -> Result<Element, Mem>
        ensures { IfOk result (λ element. element ≡ cut_of self) }
    {
        let children = with_text(self.children, self.text)?;
        Ok(Element {
            name: self.name,
            attrs: Attrs::new(alloc),
            children,
        })
    }

    /// Adds an element inside it that ends, if anything of that is kept.
    fn add(&mut self, alloc: Global, inner: OpenElement) -> Result<(), Mem>
        ensures { OnOk result (self.new ≡ with_inner inner self.old) }
    {
        if inner.levels == 0 {
            return Ok(());
        }
        let element = inner.into_element(alloc)?;
        self.children.push(Node::Child(element))
    }
}

/// What is kept of the parts so far.
#[derive(Drop)]
pub struct OutlineBuilder {
    /// The most child elements that are kept of an element.
    pub width: usize,
    /// The innermost element that is open, or what stands around the root.
    pub current: OpenElement,
    /// What is open around it, the innermost first; at most 16.
    pub around: Vec<OpenElement>,
}

impl OutlineBuilder {
    /// Returns a builder that has no parts yet.
    fn new(alloc: Global, width: usize, levels: u8) -> Self
        ensures { outlining_of result ≡ outlining_begun width levels }
    {
        let name = Name {
            space: Namespace::none(),
            local: Text::from(String::new(alloc)),
        };
        OutlineBuilder {
            width,
            current: OpenElement::new(alloc, name, usize::from(levels) + 2),
            around: Vec::new(alloc),
        }
    }

    /// Opens an element at its start tag.
    fn open(&mut self, alloc: Global, name: Name) -> Result<(), Mem>
        ensures { IfOk result (λ done. outlining_of self.new ≡ opened name (outlining_of self.old)) }
    {
        let levels = self.current.inner_levels(self.width);
        let inner = OpenElement::new(alloc, name, levels);
        let outer = std::mem::replace(&mut self.current, inner);
        if self.around.insert(0, outer).is_err() {
            return Err(Mem);
        }
        Ok(())
    }

    /// Ends the innermost element.
    fn close(&mut self, alloc: Global) -> Result<(), Mem>
        ensures { IfOk result (λ done. outlining_of self.new ≡ closed (outlining_of self.old)) }
    {
        if self.around.is_empty() {
            return Ok(());
        }
        let outer = self.around.remove(0);
        let inner = std::mem::replace(&mut self.current, outer);
        self.current.add(alloc, inner)
    }

    /// Adds a run of text.
    fn run(&mut self, text: Text) -> Result<(), Mem>
        ensures { IfOk result (λ done. outlining_of self.new ≡ and_run text (outlining_of self.old)) }
    {
        self.current.run(text)
    }

    /// Returns the first element, if there is one.
    fn into_outline(self) -> Option<Element>
        ensures { result ≡ first_element self.current.children }
    {
        let current = self.current;
        current.children.into_first()
    }
}

impl PartSink for OutlineBuilder {
    ghost use Rattle.cds_markup.specs.Outlining.{outlines};

    ghost took = { outlines };

    fn take(&mut self, part: Part) -> Result<(), Mem> {
        let alloc = *self.around.allocator();
        match part {
            Part::Start { name, attrs, .. } => {
                drop(attrs);
                self.open(alloc, name)
            }
            Part::End { .. } => self.close(alloc),
            Part::Run { text, .. } => self.run(text),
        }
    }

    fn has_enough(&self) -> bool {
        false
    }
}

/// Reads a document as `read_document` does, with the same refusals. It keeps the root and `levels` levels below it, without
/// attributes:
///
/// - Above the last level an element keeps its first child elements, at most `width`, and no text.
/// - At the last level it keeps its own text, as one, and no child element.
///
/// Memory is taken for what is kept and for one part at a time.
pub fn read_outline(
    alloc: Global,
    bytes: &[u8],
    width: usize,
    levels: u8,
) -> Result<Element, MarkupError>
    requires { 0 < width }
    ensures { DecidesOutline width levels bytes.now result }
{
    let mut builder = OutlineBuilder::new(alloc, width, levels);
    give_parts(alloc, bytes, &mut builder)?;
    match builder.into_outline() {
        Some(element) => Ok(element),
        None => unreachable!(),
    }
}
