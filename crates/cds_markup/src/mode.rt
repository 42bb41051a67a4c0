//! The states of the machine: what came, and what may come next.

ghost use Rattle.std.specs.Prelude.{◌≡◌, if◌then◌else◌, true, drop, List, ℕ, Ok, Err, None};
ghost use Rattle.cds_markup.specs.declared.error.MachineError.TheVariants.{Broken};
ghost use Rattle.cds_markup.specs.Steps.{is_next, is_over};

use crate::error::MachineError;
use crate::letters::Letters;
use crate::tag::{QName, Tag};
use std::marker::Model;

/// Bytes of a word that are still to come. Contracts see the list of them.
#[derive(Drop)]
pub struct WordRest {
    bytes: &'static [u8],
}

impl Model for WordRest {
    ghost use Rattle.std.specs.Prelude.{ℕ, List};

    ghost Value = { List ℕ };

    ghost view = { λ t. t.bytes.now };
}

impl WordRest {
    /// Returns this word, all of it to come.
    pub fn of(bytes: &'static [u8]) -> Self
        ensures { result ≡ bytes.now }
    {
        WordRest { bytes }
    }

    /// Returns whether the character is the next byte.
    pub fn is_next(&self, c: char) -> bool
        ensures { result ≡ is_next c self.now }
    {
        match self.bytes.first() {
            Some(b) => c == char::from(*b),
            None => false,
        }
    }

    /// Returns whether no byte is to come.
    pub fn is_over(&self) -> bool
        ensures { result ≡ is_over self.now }
    {
        self.bytes.is_empty()
    }

    /// Passes over one byte, if there is one.
    pub fn advance(&mut self)
        ensures { self.new ≡ drop 1 self.old }
    {
        if let Some((_first, rest)) = self.bytes.split_first() {
            self.bytes = rest;
        }
    }

    /// Takes one character, which has to be the next byte.
    pub fn step<T>(&mut self, c: char) -> Result<Option<T>, MachineError>
        ensures next { result ≡ (if is_next c self.old then Ok None else Err Broken) }
        ensures rest { is_next c self.old ≡ true → self.new ≡ drop 1 self.old }
    {
        if !self.is_next(c) {
            return Err(MachineError::Broken);
        }
        self.advance();
        Ok(None)
    }
}

/// Inside a reference, after its `&`.
#[derive(Drop)]
pub enum ReferenceState {
    /// The `&` came.
    Ampersand,
    /// `&a` came.
    EntityA,
    /// The rest of an entity's name and its `;` are to come. It stands for this character.
    Entity(WordRest, char),
    /// `&#` came.
    Sharp,
    /// Digits came and make this number, hexadecimal ones if the first is true, and decimal ones otherwise.
    Number(bool, u32),
}

/// Inside a qualified name.
#[derive(Drop)]
pub struct NameState {
    /// The name before the colon, if one comes.
    pub first: Letters,
    /// The name after the colon, empty right after it.
    pub second: Option<Letters>,
}

/// What a character makes of a name.
#[derive(Drop)]
pub enum NameStep {
    /// It belongs to the name.
    Goes,
    /// It stands after the name, which is this one.
    Ends(QName),
    /// It cannot stand there.
    Breaks,
}

/// Inside an attribute's value, after its first quote.
#[derive(Drop)]
pub struct ValueState {
    /// Whether the quote is a double one.
    pub double: bool,
    /// What it says so far.
    pub text: Letters,
    /// Whether a literal carriage return stands right before.
    pub behind_return: bool,
    /// An open reference in it.
    pub reference: Option<ReferenceState>,
}

/// Inside an attribute.
#[derive(Drop)]
pub enum AttributeState {
    /// In its name.
    AttrName(NameState),
    /// After its name and white space.
    AttrNamed(QName),
    /// After its equals sign and white space.
    Equals(QName),
    /// In its value.
    Value(QName, ValueState),
}

/// Inside a start tag, after its `<`.
#[derive(Drop)]
pub enum StartTagState {
    /// The `<` came.
    Opened,
    /// In the element's name.
    Name(NameState),
    /// After a name or a value.
    Tagged(Tag),
    /// After white space.
    Spaced(Tag),
    /// In an attribute.
    Attribute(Tag, AttributeState),
}

/// A part of the declaration.
#[derive(Clone, Copy, PartialEq, Eq)]
pub enum Stage {
    /// The version.
    Version,
    /// The encoding.
    Encoding,
    /// Whether the document stands alone.
    Standalone,
    /// Nothing more.
    Closing,
}

/// Inside the declaration, after its `<?`.
#[derive(Drop)]
pub enum DeclarationState {
    /// The rest of `xml` is to come, and white space after it.
    Xml(WordRest),
    /// After white space, with this part or a later one to come.
    Gap(Stage),
    /// The rest of this part's name is to come, and an equals sign after it.
    PartName(Stage, WordRest),
    /// After this part's equals sign, and white space.
    PartEquals(Stage),
    /// The rest of this part's value is to come, and this quote after it.
    PartValue(Stage, u32, WordRest),
    /// After the first quote of the standalone part.
    YesOrNo(u32),
    /// After a part, with this part or a later one to come.
    BehindPart(Stage),
    /// `?` came.
    Question,
}

/// White space and comments before the root or after it.
#[derive(Drop)]
pub enum Misc {
    /// Between them.
    Blanks,
    /// `<` came.
    MiscLess,
    /// `<!` came.
    MiscBang,
    /// `<!-` came.
    MiscDash,
    /// Inside a comment, after this many dashes of those that count.
    MiscComment(u32),
}

/// Inside an element, or in the root's start tag.
#[derive(Drop)]
pub enum RootState {
    /// Between tags, after this many closing brackets of those that count in a literal text.
    Content(u32),
    /// `<` came.
    Less,
    /// `<!` came.
    Bang,
    /// `<!-` came.
    Dash,
    /// Inside a comment, after this many dashes of those that count.
    Comment(u32),
    /// The rest of `<![CDATA[` is to come.
    Cdata(WordRest),
    /// Inside a CDATA section, after this many closing brackets of those that count, with its text so far.
    Section(u32, Letters),
    /// Inside a reference.
    Reference(ReferenceState),
    /// Inside a start tag.
    StartTag(StartTagState),
    /// The `/` of an empty element's tag came.
    Slashed,
    /// Inside an end tag, after this many bytes of its name.
    EndTag(usize),
}

/// What a document may have next.
#[derive(Drop)]
pub enum Mode {
    /// Nothing came.
    Begin,
    /// A byte order mark came.
    Marked,
    /// A `<` came as the first character, perhaps after a byte order mark.
    First,
    /// In the declaration.
    Declaration(DeclarationState),
    /// Before the root.
    Prolog(Misc),
    /// In the root.
    Inside(RootState),
    /// After the root.
    Epilog(Misc),
}
