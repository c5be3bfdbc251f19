//! Sources as pages.

ghost use Rattle.std.specs.Prelude.{◌≡◌, ◌⊎◌, ◌<◌, ◌^◌, IfOk, OnOk, IfErr, IsOk, length, string_bytes};
ghost use Rattle.js_choose.specs.Faults.{ChoiceCause};
ghost use Rattle.js_choose.specs.declared.fault.ChoiceFault.{ChoiceFault};
ghost use Rattle.js_session.specs.Faults.{IsReadable};
ghost use Rattle.js_totsenak.specs.Syntaxes.{rule_of};
ghost use Rattle.js_html.specs.Html.{IsHtml, IsInForm, ShowsFound};

use crate::faults::placed_faults;
use js_auto::GoalChooser;
use js_choose::{ChoiceFault, ChooseGoals};
use js_jsx::JsxChooser;
use js_lists::{LiveLists, chosen_lists};
use js_page::{PAGE_END, page_head, with_fragment};
use js_text::SourceType;
use js_totsenak::Syntax;
use std::alloc::{AllocError, Global};

/// What is written of a source.
#[derive(Clone, Copy)]
pub enum Form<'t> {
    /// The elements alone, as a `pre`.
    Fragment,
    /// A page with this title.
    Page(&'t str),
}

/// A text, and behind it what is listed of a source as elements.
fn with_lists(
    alloc: Global,
    text: String,
    source: &str,
    lists: &LiveLists,
) -> Result<String, AllocError>
    requires { length source.now < 2 ^ 32 }
    ensures { IfOk result (λ new.
        ShowsFound (string_bytes text) source.now lists.now.tokens lists.now.found (string_bytes new)) }
{
    let faults = placed_faults(alloc, &lists.found)?;
    with_fragment(
        text,
        source,
        lists.tokens.as_slice(),
        lists.found.comments.as_slice(),
        &faults,
    )
}

/// A page with a title of what is listed of a source.
fn page_of_lists(
    alloc: Global,
    title: &str,
    source: &str,
    lists: &LiveLists,
) -> Result<String, AllocError>
    requires { length source.now < 2 ^ 32 }
    ensures { IfOk result (λ text.
        IsInForm (Form.Page title.entry) source.now lists.now.tokens lists.now.found (string_bytes text)) }
{
    let head = page_head(alloc, title)?;
    let mut text = with_lists(alloc, head, source, lists)?;
    text.push_str(PAGE_END)?;
    Ok(text)
}

/// What is listed of a source in a form.
fn lists_in_form(
    alloc: Global,
    form: Form<'_>,
    source: &str,
    lists: &LiveLists,
) -> Result<String, AllocError>
    requires { length source.now < 2 ^ 32 }
    ensures { IfOk result (λ text.
        IsInForm form.entry source.now lists.now.tokens lists.now.found (string_bytes text)) }
{
    match form {
        Form::Fragment => with_lists(alloc, String::new(alloc), source, lists),
        Form::Page(title) => page_of_lists(alloc, title, source, lists),
    }
}

/// A source in a form, whose goals are chosen by the rule of a chooser.
fn in_form<G: ChooseGoals>(
    alloc: Global,
    form: Form<'_>,
    source: &[u8],
    source_type: SourceType,
) -> Result<String, ChoiceFault>
    ensures html { IfOk result (λ text. IsHtml G.choice form.entry source.now source_type (string_bytes text)) }
    ensures ok { OnOk result (IsReadable source.now) }
    ensures cause { IfErr result (λ fault. (fault ≡ ChoiceFault.Memory) ⊎ ChoiceCause source.now fault) }
    ensures exact { (fault : ChoiceFault) → ChoiceCause source.now fault → result ≡ Err fault }
    ensures complete { IsReadable source.now → IsOk result ⊎ (result ≡ Err ChoiceFault.Memory) }
{
    let lists = chosen_lists::<G>(alloc, source, source_type)?;
    let text = unsafe { str::from_utf8_unchecked(source) };
    match lists_in_form(alloc, form, text, &lists) {
        Ok(html) => Ok(html),
        Err(_) => Err(ChoiceFault::Memory),
    }
}

/// A source in a form, whose goals are chosen by the rule for its syntax: each live token and comment of its report in an
/// element of its own.
pub fn html_of_source(
    alloc: Global,
    form: Form<'_>,
    syntax: Syntax,
    source: &[u8],
    source_type: SourceType,
) -> Result<String, ChoiceFault>
    ensures html { IfOk result (λ text.
        IsHtml (rule_of syntax) form.entry source.now source_type (string_bytes text)) }
    ensures ok { OnOk result (IsReadable source.now) }
    // Each fault comes for its cause alone, and where the source has one, it comes.
    ensures cause { IfErr result (λ fault. (fault ≡ ChoiceFault.Memory) ⊎ ChoiceCause source.now fault) }
    ensures exact { (fault : ChoiceFault) → ChoiceCause source.now fault → result ≡ Err fault }
    ensures complete { IsReadable source.now → IsOk result ⊎ (result ≡ Err ChoiceFault.Memory) }
{
    match syntax {
        Syntax::JavaScript => in_form::<GoalChooser>(alloc, form, source, source_type),
        Syntax::Jsx => in_form::<JsxChooser>(alloc, form, source, source_type),
    }
}
