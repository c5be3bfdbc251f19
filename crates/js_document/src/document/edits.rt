//! Edits that are made one behind the other.

ghost use Rattle.std.specs.Prelude.{◌≡◌, ◌≤◌, ◌⊎◌, ℕ, Err, IfErr, IsOk, OnOk};
ghost use Rattle.js_document.specs.InTurn.{EditsCause, EditsInTurn, LacksMemory, MayEditInTurn, StopsAt};
ghost use Rattle.js_document.specs.declared.fault.DocumentFault.{DocumentFault};

use super::Document;
use crate::fault::{DocumentFault, EditsFault};
use crate::keep::KeepGoals;
use js_relex::Edit;
use js_session::Steps;
use std::alloc::Global;
use std::sync::ledger::Ledger;

impl<K: KeepGoals> Document<K> {
    /// Makes edits, one behind the other, each of the text that those before it made. Where there is no document of one of
    /// them, this is the document of those before it; how many these are is told with the fault.
    pub fn edit_all<L: Ledger>(
        &mut self,
        alloc: Global,
        edits: &[Edit<'_>],
        steps: &mut Steps<L>,
    ) -> Result<(), EditsFault>
        ensures ok { OnOk result (EditsInTurn K.choice K.alike self.old edits.now steps.old steps.new self.new) }
        ensures err { IfErr result (StopsAt K.choice K.alike self.old edits.now steps.old steps.new self.new) }
        // Each fault comes for its cause alone, and where its cause is there, nothing but a lack of memory comes in its
        // place.
        ensures cause { IfErr result
            (λ f. (f.fault ≡ DocumentFault.Memory) ⊎ EditsCause self.old.text edits.now f.made f.fault) }
        ensures exact { (index : ℕ) (fault : DocumentFault) → EditsCause self.old.text edits.now index fault
            → (result ≡ Err (record { made = index; fault = fault })) ⊎ LacksMemory result }
        ensures complete { MayEditInTurn self.old.text edits.now → IsOk result ⊎ LacksMemory result }
        ensures at_least { steps.old ≤ steps.new }
    {
        for (made, edit) in edits.iter().enumerate() {
            match self.edit(alloc, edit, steps) {
                Ok(()) => {}
                Err(fault) => return Err(EditsFault { made, fault }),
            }
        }
        Ok(())
    }
}
