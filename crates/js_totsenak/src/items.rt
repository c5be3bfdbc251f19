//! What is told of a source as JSON: its comments, its faults and its tokens, in order of place.

ghost use Rattle.std.specs.Prelude.{◌≡◌, ◌++◌, OnOk, IfOk, map};
ghost use Rattle.js_totsenak.specs.Items.{ArePlaced, comment_item, deferred_item, diagnostic_item, items_of};
ghost use Rattle.js_totsenak.specs.Items.{span_start, token_items, warning_item};

use js_kind::Token;
use js_lists::LiveLists;
use js_text::{Comment, Diagnostic, Span};
use std::alloc::{AllocError, Global};

/// What an item is.
#[derive(Clone, Copy)]
pub(crate) enum Subject {
    Comment(Comment),
    Diagnostic(Diagnostic),
    /// A diagnostic that counts in a module alone, where it is not settled whether the source is one.
    Deferred(Diagnostic),
    Warning(Span),
    /// The token with this index.
    Token(usize),
}

/// Something that is told of a source.
#[derive(Clone, Copy)]
pub(crate) struct Item {
    /// Where it starts, as an offset in bytes.
    pub start: u32,
    pub subject: Subject,
}

/// Where a span starts. What is about the whole source stands at its start.
fn span_start(span: Option<Span>) -> u32
    ensures { result ≡ span_start span }
{
    match span {
        Some(span) => span.start,
        None => 0,
    }
}

fn add_comments(items: &mut Vec<Item>, comments: &[Comment]) -> Result<(), AllocError>
    ensures { OnOk result (items.new.items ≡ items.old.items ++ map comment_item comments.now) }
{
    for comment in comments {
        items.push(Item {
            start: comment.span.start,
            subject: Subject::Comment(*comment),
        })?;
    }
    Ok(())
}

fn add_diagnostics(items: &mut Vec<Item>, diagnostics: &[Diagnostic]) -> Result<(), AllocError>
    ensures { OnOk result (items.new.items ≡ items.old.items ++ map diagnostic_item diagnostics.now) }
{
    for diagnostic in diagnostics {
        items.push(Item {
            start: span_start(diagnostic.span()),
            subject: Subject::Diagnostic(*diagnostic),
        })?;
    }
    Ok(())
}

fn add_deferred(items: &mut Vec<Item>, deferred: &[Diagnostic]) -> Result<(), AllocError>
    ensures { OnOk result (items.new.items ≡ items.old.items ++ map deferred_item deferred.now) }
{
    for diagnostic in deferred {
        items.push(Item {
            start: span_start(diagnostic.span()),
            subject: Subject::Deferred(*diagnostic),
        })?;
    }
    Ok(())
}

fn add_warnings(items: &mut Vec<Item>, warnings: &[Span]) -> Result<(), AllocError>
    ensures { OnOk result (items.new.items ≡ items.old.items ++ map warning_item warnings.now) }
{
    for span in warnings {
        items.push(Item {
            start: span.start,
            subject: Subject::Warning(*span),
        })?;
    }
    Ok(())
}

fn add_tokens(items: &mut Vec<Item>, tokens: &[Token]) -> Result<(), AllocError>
    ensures { OnOk result (items.new.items ≡ items.old.items ++ token_items 0 tokens.now) }
{
    for (index, token) in tokens.iter().enumerate() {
        items.push(Item {
            start: token.start(),
            subject: Subject::Token(index),
        })?;
    }
    Ok(())
}

/// The items of a source, list by list.
fn items_of(alloc: Global, lists: &LiveLists) -> Result<Vec<Item>, AllocError>
    ensures { IfOk result (λ items. items.items ≡ items_of lists.now.found lists.now.tokens) }
{
    let mut items = Vec::new(alloc);
    add_comments(&mut items, lists.found.comments.as_slice())?;
    add_diagnostics(&mut items, lists.found.diagnostics.as_slice())?;
    add_deferred(&mut items, lists.found.deferred.as_slice())?;
    add_warnings(&mut items, lists.found.warnings.as_slice())?;
    add_tokens(&mut items, lists.tokens.as_slice())?;
    Ok(items)
}

/// Puts items in order of place.
fn place(items: &mut Vec<Item>) -> Result<(), AllocError>
    ensures { OnOk result (ArePlaced items.old.items items.new.items) }
{
    items.sort_by_key(|item| item.start)?;
    Ok(())
}

/// The items of a source, in order of place.
pub(crate) fn placed_items(alloc: Global, lists: &LiveLists) -> Result<Vec<Item>, AllocError>
    ensures { IfOk result (λ items. ArePlaced (items_of lists.now.found lists.now.tokens) items.items) }
{
    let mut items = items_of(alloc, lists)?;
    place(&mut items)?;
    Ok(items)
}
