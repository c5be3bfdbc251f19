//! A document by one of the rules that choose goals.

ghost use Rattle.std.specs.Prelude.{◌≡◌, ◌<◌, ◌^◌, ◌⊎◌, length, map, None, Err, IfErr, IfNone, IfOk, IfSome, IsOk, OnErr, OnOk};
ghost use Rattle.std.specs.Option.{option_map};
ghost use Rattle.js_relex.specs.Documents.{IsEdit, edited};
ghost use Rattle.js_session.specs.Report.{IsSliceOnPlaces};
ghost use Rattle.js_lists.specs.LiveLists.{live_taken};
ghost use Rattle.js_lists.specs.Taken.{value_handed};
ghost use Rattle.js_document.specs.Documents.{EditCause, IsDocumentOf, TextCause, change_of_new};
ghost use Rattle.js_document.specs.LiveTokens.{IsTokenAt};
ghost use Rattle.js_document.specs.Values.{IsValueAt, live_values};
ghost use Rattle.js_document.specs.declared.fault.DocumentFault.{DocumentFault};
ghost use Rattle.js_document_c.specs.Chosen.{choice_of, document_in, goals_in};
ghost use Rattle.js_document_c.specs.Held.{IsEdited};

use js_document::{AutoState, Change, Document, DocumentFault, Edit, JsxState, KeepGoals};
use js_kind::Token;
use js_lists::TokenValue;
use js_session::Steps;
use js_text::SourceType;
use std::alloc::Global;
use std::sync::ledger::Ledger;

/// The rule by which a document chooses its goals.
#[derive(Clone, Copy, PartialEq, Eq, Debug)]
pub enum Goals {
    /// That of js_auto.
    Auto,
    /// That of js_jsx, for texts with JSX.
    Jsx,
}

/// A document, by the rule that chooses its goals.
#[derive(Drop)]
pub enum ChosenDocument {
    Auto(Document<AutoState>),
    Jsx(Document<JsxState>),
}

/// Each live token has a value beside it.
fn have_values<K: KeepGoals>(document: &Document<K>)
    ensures { map (λ x. x.token) (live_taken document.now.commands document.now.report.rows)
        ≡ document.now.report.tokens }
{
    drop(document.values());
}

/// The value of the live token that the byte at the offset belongs to.
#[tactic(auto, using(crate::proofs::ValueLemmas::no_token_without_value))]
fn value_at<K: KeepGoals>(document: &Document<K>, offset: u32) -> Option<TokenValue<'_>>
    ensures value { IsValueAt offset document.now.report.tokens
        (live_values document.now.commands document.now.report.rows) (option_map value_handed result) }
    ensures none { IfNone result (IsTokenAt offset document.now.report.tokens None) }
    ensures slices { IfSome result (λ value. IsSliceOnPlaces document.now.text (value_handed value)) }
{
    have_values(document);
    document.value_at(offset)
}

impl ChosenDocument {
    /// The document of a text. The counter rises by one for each row.
    pub fn new<L: Ledger>(
        alloc: Global,
        text: &str,
        source_type: SourceType,
        goals: Goals,
        steps: &mut Steps<L>,
    ) -> Result<ChosenDocument, DocumentFault>
        ensures document { IfOk result (λ d. IsDocumentOf (choice_of goals) text.now source_type (document_in d)) }
        ensures goals { IfOk result (λ d. goals_in d ≡ goals) }
        ensures change { IfOk result (λ d. (document_in d).change ≡ change_of_new (document_in d).report) }
        // Each fault comes for its cause alone, and where its cause is there, nothing but a lack of memory comes in its
        // place.
        ensures cause { IfErr result (λ fault. (fault ≡ DocumentFault.Memory) ⊎ TextCause text.now fault) }
        ensures exact { (fault : DocumentFault) → TextCause text.now fault
            → (result ≡ Err fault) ⊎ (result ≡ Err DocumentFault.Memory) }
        ensures complete { length text.now < 2 ^ 32 → IsOk result ⊎ (result ≡ Err DocumentFault.Memory) }
    {
        match goals {
            Goals::Auto => match Document::<AutoState>::new(alloc, text, source_type, steps) {
                Ok(document) => Ok(ChosenDocument::Auto(document)),
                Err(fault) => Err(fault),
            },
            Goals::Jsx => match Document::<JsxState>::new(alloc, text, source_type, steps) {
                Ok(document) => Ok(ChosenDocument::Jsx(document)),
                Err(fault) => Err(fault),
            },
        }
    }

    /// Makes an edit. Where there is no document of it, this one stays as it was.
    pub fn edit<L: Ledger>(
        &mut self,
        alloc: Global,
        edit: &Edit<'_>,
        steps: &mut Steps<L>,
    ) -> Result<(), DocumentFault>
        ensures ok { OnOk result (IsEdited (goals_in self.old) (document_in self.old) edit.now.start edit.now.end
            edit.now.text.now (document_in self.new)) }
        ensures goals { goals_in self.new ≡ goals_in self.old }
        ensures err { OnErr result (self.new ≡ self.old) }
        // Each fault comes for its cause alone, and where its cause is there, nothing but a lack of memory comes in its
        // place.
        ensures cause { IfErr result (λ fault. (fault ≡ DocumentFault.Memory)
            ⊎ EditCause (document_in self.old).text edit.now.start edit.now.end edit.now.text.now fault) }
        ensures exact { (fault : DocumentFault)
            → EditCause (document_in self.old).text edit.now.start edit.now.end edit.now.text.now fault
            → (result ≡ Err fault) ⊎ (result ≡ Err DocumentFault.Memory) }
        ensures complete { IsEdit (document_in self.old).text edit.now.start edit.now.end
            → length (edited (document_in self.old).text edit.now.start edit.now.end edit.now.text.now) < 2 ^ 32
            → IsOk result ⊎ (result ≡ Err DocumentFault.Memory) }
    {
        match self {
            ChosenDocument::Auto(document) => document.edit(alloc, edit, steps),
            ChosenDocument::Jsx(document) => document.edit(alloc, edit, steps),
        }
    }

    /// The text.
    pub fn text(&self) -> &str
        ensures { result.now ≡ (document_in self.now).text }
    {
        match self {
            ChosenDocument::Auto(document) => document.text(),
            ChosenDocument::Jsx(document) => document.text(),
        }
    }

    /// What the last edit changed.
    pub fn changed(&self) -> Change
        ensures { result ≡ (document_in self.now).change }
    {
        match self {
            ChosenDocument::Auto(document) => document.changed(),
            ChosenDocument::Jsx(document) => document.changed(),
        }
    }

    /// The live token that the byte at the offset belongs to. None: it belongs to none, or is behind the text.
    pub fn token_at(&self, offset: u32) -> Option<Token>
        ensures { IsTokenAt offset (document_in self.now).report.tokens result }
    {
        match self {
            ChosenDocument::Auto(document) => document.token_at(offset),
            ChosenDocument::Jsx(document) => document.token_at(offset),
        }
    }

    /// The value of that token. None: the byte belongs to no token, or is behind the text.
    pub fn value_at(&self, offset: u32) -> Option<TokenValue<'_>>
        ensures value { IsValueAt offset (document_in self.now).report.tokens
            (live_values (document_in self.now).commands (document_in self.now).report.rows)
            (option_map value_handed result) }
        ensures none { IfNone result (IsTokenAt offset (document_in self.now).report.tokens None) }
        ensures slices { IfSome result (λ value. IsSliceOnPlaces (document_in self.now).text (value_handed value)) }
    {
        match self {
            ChosenDocument::Auto(document) => value_at(document, offset),
            ChosenDocument::Jsx(document) => value_at(document, offset),
        }
    }
}
