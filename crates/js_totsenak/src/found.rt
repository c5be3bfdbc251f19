//! What is found of a source, without its tokens.

ghost use Rattle.std.specs.Prelude.{◌≡◌, ◌⊎◌, IfOk, OnOk, IfErr, IsOk};
ghost use Rattle.js_choose.specs.Faults.{ChoiceCause};
ghost use Rattle.js_choose.specs.declared.fault.ChoiceFault.{ChoiceFault};
ghost use Rattle.js_session.specs.Faults.{IsReadable};
ghost use Rattle.js_totsenak.specs.Found.{IsFound};

use js_choose::{ChoiceFault, ChooseGoals};
use js_kind::Token;
use js_lexer::Findings;
use js_lists::{TakeTokens, TokenValue, read_chosen};
use js_text::{RegexInfo, SourceType};
use std::alloc::{AllocError, Global};

/// Takes what is found of a source, and keeps nothing of its tokens.
#[derive(Drop)]
struct FindingsTaker {
    found: Findings,
}

impl TakeTokens for FindingsTaker {
    ghost use Rattle.std.specs.Prelude.{⊤};
    ghost use Rattle.js_totsenak.specs.Found.{KeepsFound, KeepsNothing};

    ghost takes = { KeepsNothing };

    ghost ends = { KeepsFound };

    ghost breaks_off = { λ _ _. ⊤ };

    #[inline(always)]
    fn take(
        &mut self,
        _: &Token,
        _: TokenValue<'_>,
        _: Option<RegexInfo>,
    ) -> Result<(), AllocError> {
        Ok(())
    }

    fn end(&mut self, found: Findings) -> Result<(), AllocError> {
        self.found = found;
        Ok(())
    }
}

/// What is found of a source whose goals are chosen by the rule of a chooser: what is live of it.
pub fn findings_of_source<G: ChooseGoals>(
    alloc: Global,
    source: &[u8],
    source_type: SourceType,
) -> Result<Findings, ChoiceFault>
    ensures found { IfOk result (IsFound G.choice source.now source_type) }
    ensures ok { OnOk result (IsReadable source.now) }
    // Each fault comes for its cause alone, and where the source has one, it comes.
    ensures cause { IfErr result (λ fault. (fault ≡ ChoiceFault.Memory) ⊎ ChoiceCause source.now fault) }
    ensures exact { (fault : ChoiceFault) → ChoiceCause source.now fault → result ≡ Err fault }
    ensures complete { IsReadable source.now → IsOk result ⊎ (result ≡ Err ChoiceFault.Memory) }
{
    let mut taker = FindingsTaker {
        found: Findings::new_in(alloc),
    };
    read_chosen::<G, FindingsTaker>(alloc, source, source_type, &mut taker)?;
    Ok(taker.found)
}
