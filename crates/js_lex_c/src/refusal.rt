//! Why a call about a document does nothing.

ghost use Rattle.std.specs.Prelude.{◌≡◌};
ghost use Rattle.js_lex_c.specs.DocumentFaults.{refusal_of};
ghost use Rattle.js_lex_c.specs.Refusals.{EndsWith, refusal_number};

use crate::fault::lex_fault_number;
use js_document::DocumentFault;
use js_session::LexFault;

/// Why a call about a document does nothing.
#[derive(Clone, Copy)]
pub enum Refusal {
    /// What was passed is no text that can be read, there is no memory, or the text of the document would be too long.
    Lex(LexFault),
    /// The number is that of no source type.
    UnknownSourceType,
    /// The edit starts behind its end, or one of them is no place of the text.
    BadEdit,
    /// The handle holds no document.
    NoDocument,
    /// The number is that of no rule that chooses goals, of no line ends, or of no unit of columns.
    UnknownNumber,
    /// No token has the byte, or there is no such line.
    NothingThere,
}

impl Refusal {
    /// There is no memory.
    pub(crate) const NO_MEMORY: Refusal = Refusal::Lex(LexFault::Memory);

    /// What a call answers.
    pub(crate) fn number(self) -> u32
        ensures { result ≡ refusal_number self }
    {
        match self {
            Refusal::Lex(fault) => lex_fault_number(fault),
            Refusal::UnknownSourceType => 13,
            Refusal::BadEdit => 14,
            Refusal::NoDocument => 15,
            Refusal::UnknownNumber => 16,
            Refusal::NothingThere => 17,
        }
    }

    /// Why there is no document of a text or of an edit.
    pub(crate) fn of_document(fault: DocumentFault) -> Refusal
        ensures { result ≡ refusal_of fault }
    {
        match fault {
            DocumentFault::BadEdit => Refusal::BadEdit,
            DocumentFault::Overlong => Refusal::Lex(LexFault::Overlong),
            DocumentFault::Memory => Refusal::NO_MEMORY,
        }
    }
}

/// What a call answers that did what it is to do, or that was refused.
pub(crate) fn answer_of(found: Result<(), Refusal>) -> u32
    ensures { EndsWith found result }
{
    match found {
        Ok(()) => 0,
        Err(refusal) => refusal.number(),
    }
}
