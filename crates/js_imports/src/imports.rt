//! The imports and exports of sources.

ghost use Rattle.std.specs.Prelude.{◌≡◌, ◌⊎◌, IfOk, OnOk, IfErr, IsOk};
ghost use Rattle.js_choose.specs.Faults.{ChoiceCause};
ghost use Rattle.js_choose.specs.declared.fault.ChoiceFault.{ChoiceFault};
ghost use Rattle.js_session.specs.Faults.{IsReadable};
ghost use Rattle.js_imports.specs.Imports.{AreImportsOf};

use crate::found::Found;
use crate::scan::Scanner;
use js_choose::{ChoiceFault, ChooseGoals};
use js_kind::Token;
use js_lexer::Findings;
use js_lists::{TakeTokens, TokenValue, read_chosen};
use js_text::{RegexInfo, SourceType};
use std::alloc::{AllocError, Global};

impl TakeTokens for Scanner {
    ghost use Rattle.std.specs.Prelude.{⊤};
    ghost use Rattle.js_imports.specs.Imports.{PassesOver, Steps};

    ghost takes = { Steps };

    ghost ends = { PassesOver };

    ghost breaks_off = { λ _ _. ⊤ };

    #[inline(always)]
    fn take(
        &mut self,
        token: &Token,
        value: TokenValue<'_>,
        _: Option<RegexInfo>,
    ) -> Result<(), AllocError> {
        self.step(token, value)
    }

    fn end(&mut self, _: Findings) -> Result<(), AllocError> {
        Ok(())
    }
}

/// What a source imports and exports, in the order in which it begins: the goals of the source are chosen by the rule of
/// a chooser, and calls of `require` count where it is said. docs/IMPORTS.md has the rule in words.
pub fn imports_of_source<G: ChooseGoals>(
    alloc: Global,
    source: &[u8],
    source_type: SourceType,
    counts_require: bool,
) -> Result<Vec<Found>, ChoiceFault>
    ensures imports { IfOk result (λ found.
        AreImportsOf G.choice source.now source_type counts_require found.items) }
    ensures ok { OnOk result (IsReadable source.now) }
    // Each fault comes for its cause alone, and where the source has one, it comes.
    ensures cause { IfErr result (λ fault. (fault ≡ ChoiceFault.Memory) ⊎ ChoiceCause source.now fault) }
    ensures exact { (fault : ChoiceFault) → ChoiceCause source.now fault → result ≡ Err fault }
    ensures complete { IsReadable source.now → IsOk result ⊎ (result ≡ Err ChoiceFault.Memory) }
{
    let mut scanner = Scanner::new(alloc, counts_require);
    read_chosen::<G, Scanner>(alloc, source, source_type, &mut scanner)?;
    Ok(scanner.into_found().into_told())
}
