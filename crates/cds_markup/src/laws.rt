//! What is proved of documents, of the machine that reads them, and of what formats over documents look for. Calling a
//! function gives its law.

ghost use Rattle.cds_markup.specs.ChildPlaces.{PlacesAreOfElements};
ghost use Rattle.cds_markup.specs.Children.{PlacesAreOne};
ghost use Rattle.cds_markup.specs.Drafts.{DraftsAreRead};
ghost use Rattle.cds_markup.specs.Feeding.{RunsSay};
ghost use Rattle.cds_markup.specs.Laws.{AllAreAnswered, AllIsTold, DocumentsAreRead, GoOnOrBreak, LeavesHaveOneEnd, NothingCountsPastTheLimit, OneAnswer, OneElement, OneTelling, PartsAreBuilt, PartsAreFound, PartsAreGiven, PartsAreOfRoots, PartsAreOne, PartsAreTold, PartsBegin, PartsStandBefore};
ghost use Rattle.cds_markup.specs.Reader.{EveryCutting};
ghost use Rattle.cds_markup.specs.Verdicts.{AnswersAreExact, AnswersAreSo};
ghost use Rattle.cds_markup.specs.Written.{WrittenIsRead};

/// What is answered to bytes is what the grammar says. They are read exactly if they are a document, and each refusal is given
/// exactly if it stands. The parts of a document, once nested, are its element.
pub fn documents_are_read()
    ensures { DocumentsAreRead }
{}

/// Bytes are a document of at most one element.
pub fn one_element()
    ensures { OneElement }
{}

/// There is an answer to all bytes: they are a document, or they are refused.
pub fn all_are_answered()
    ensures { AllAreAnswered }
{}

/// Bytes are a document, or they are refused in one way, and not both.
pub fn one_answer()
    ensures { OneAnswer }
{}

/// By the grammar alone, some document goes on from any bytes, or there is a first byte with which none does.
pub fn go_on_or_break()
    ensures { GoOnOrBreak }
{}

/// What is built of the parts of a document is its element.
pub fn parts_are_built()
    ensures { PartsAreBuilt }
{}

/// The parts that reading a document gives are its parts, each at its place.
pub fn parts_are_told()
    ensures { PartsAreTold }
{}

/// The parts that reading gives of any bytes are those that stand there before the first fault. Each is what the grammar says at
/// its place. Nothing that is found before the fault is left out.
pub fn parts_are_given()
    ensures { PartsAreGiven }
{}

/// Each of the parts of bytes stands there. Nothing that is found there before the first fault is left out.
pub fn parts_are_found()
    ensures { PartsAreFound }
{}

/// Take the parts up to a place at which no literal text ends. They begin the parts of all bytes that begin so.
pub fn parts_begin()
    ensures { PartsBegin }
{}

/// The parts up to a place are the parts of the bytes before it.
pub fn parts_stand_before()
    ensures { PartsStandBefore }
{}

/// A reference or a CDATA section that begins at a place ends at one place.
pub fn leaves_have_one_end()
    ensures { LeavesHaveOneEnd }
{}

/// The parts of a document are those of its root as it is written, whichever way it is read.
pub fn parts_are_of_roots()
    ensures { PartsAreOfRoots }
{}

/// The parts of bytes are one list. The bytes alone tell what stands at its place by the grammar.
pub fn parts_are_one()
    ensures { PartsAreOne }
{}

/// What `give_parts` and `read_parts` tell of bytes is one answer and one list of parts, unless memory ran out.
pub fn one_telling()
    ensures { OneTelling }
{}

/// What is told of all bytes is what they are answered and the parts that reading gives of them.
pub fn all_is_told()
    ensures { AllIsTold }
{}

/// If more than 67,108,864 bytes came, what comes after them changes neither the answer nor the parts.
pub fn nothing_counts_past_the_limit()
    ensures { NothingCountsPastTheLimit }
{}

/// However bytes are cut, what a new reader answers to the pieces and the end decides them.
pub fn every_cutting()
    ensures { EveryCutting }
{}

/// Let an element be one that can be written within the limits. Then what is written of it is a document that means it.
pub fn written_is_read()
    ensures { WrittenIsRead }
{}

/// A literal text in several runs says what it says in one. The element of the parts is also that of their runs.
pub fn runs_say()
    ensures { RunsSay }
{}

/// Bytes have at most one place of the root's start tag, and at most one of each child's.
pub fn places_are_one()
    ensures { PlacesAreOne }
{}

/// In a document of an element, a root's place is that of the root as it is written. The place of a child, counted by the
/// children before it, is that of this child: its `<` stands there, and it says that child of the element.
pub fn places_are_of_elements()
    ensures { PlacesAreOfElements }
{}

/// Let a draft say an element. Then the written draft is a document of the element, with or without the declaration of the
/// version before it.
pub fn drafts_are_read()
    ensures { DraftsAreRead }
{}

/// What any bytes are answered is true: they are a document, or the refusal stands against them.
pub fn answers_are_so()
    ensures { AnswersAreSo }
{}

/// Every document is taken. Every refusal that stands against bytes is what they are answered.
pub fn answers_are_exact()
    ensures { AnswersAreExact }
{}
