//! Trees of nodes, as one list: each node stands behind its children.

ghost use Rattle.std.specs.Prelude.{◌≡◌, ◌∷◌, ◌++◌, [], ℕ, List, None, true, length, take, drop, slice_get, OnOk};
ghost use Rattle.std.specs.List.{last_or};
ghost use Rattle.std.specs.Str.{IsCharBoundary};
ghost use Rattle.js_reader.specs.Decoded.{IsStretch};
ghost use Rattle.js_parse_tool.specs.Trees.{AreInOrder, AreKept, Fits, IsBefore, last_end};
ghost use Rattle.js_parse_tool.specs.declared.node.Node.{Node};

use crate::node::{Node, NodeKind};
use js_text::{ItemList, Span, SpanList};
use std::alloc::{AllocError, Global};
use std::marker::Model;

/// The first of the spans.
fn first_of(spans: &[Span]) -> Option<Span>
    ensures { result ≡ slice_get spans.now 0 }
{
    spans.first().copied()
}

/// The last of the spans.
fn last_of(spans: &[Span]) -> Option<Span>
    ensures { result ≡ last_or None spans.now }
{
    spans.last().copied()
}

/// Where the last of the spans ends; 0 where there is none.
fn last_end(spans: &[Span]) -> u32
    ensures { result ≡ last_end spans.now }
{
    match last_of(spans) {
        Some(span) => span.end,
        None => 0,
    }
}

/// Whether no span begins before the place.
fn is_before(place: u32, spans: &[Span]) -> bool
    ensures { result ≡ true → IsBefore place spans.now }
{
    match first_of(spans) {
        Some(first) => place <= first.start,
        None => true,
    }
}

/// Whether the span is a stretch of the source: its ends are places of it, in order.
fn is_stretch(source: &str, span: Span) -> bool
    ensures { result ≡ true → IsStretch source.now span.start span.end }
{
    if span.start > span.end {
        return false;
    }
    if !source.is_char_boundary(span.start as usize) {
        return false;
    }
    source.is_char_boundary(span.end as usize)
}

/// Whether a root may stand at the span, between the roots before it and those within it.
fn fits(source: &str, before: &[Span], span: Span, within: &[Span]) -> bool
    ensures { result ≡ true → Fits source.now before.now span within.now }
{
    if !is_stretch(source, span) {
        return false;
    }
    if last_end(before) > span.start {
        return false;
    }
    if last_end(within) > span.end {
        return false;
    }
    is_before(span.start, within)
}

/// What the roots within take up, or the place behind those before, where there is none.
fn taken_up(before: &[Span], within: &[Span]) -> Span
    ensures { (text : List ℕ) → IsCharBoundary text (last_end before.now)
        → AreInOrder text (last_end before.now) within.now → Fits text before.now result within.now }
{
    let end = last_end(within);
    match first_of(within) {
        Some(first) => Span {
            start: first.start,
            end,
        },
        None => Span::empty(last_end(before)),
    }
}

/// The span, where a root may stand there; else what the roots within take up.
fn fitting(source: &str, before: &[Span], span: Span, within: &[Span]) -> Span
    ensures { IsCharBoundary source.now (last_end before.now)
        → AreInOrder source.now (last_end before.now) within.now → Fits source.now before.now result within.now }
{
    if fits(source, before, span, within) {
        return span;
    }
    taken_up(before, within)
}

/// Trees over a source, one after another: their nodes, each behind its children, and where their roots stand.
#[derive(Drop)]
pub(crate) struct Trees<'a> {
    alloc: Global,
    source: &'a str,
    nodes: ItemList<Node>,
    roots: SpanList,
}

impl<'a> Model for Trees<'a> {
    ghost use Rattle.js_parse_tool.specs.Trees.{AreKept, TreesState};

    ghost Value = { TreesState };

    ghost view = { λ t. record { text = t.source.now; nodes = t.nodes; roots = t.roots } };

    ghost invariant = { λ t. AreKept t.source.now t.nodes t.roots };
}

impl<'a> Trees<'a> {
    /// No tree.
    pub(crate) fn new(alloc: Global, source: &'a str) -> Trees<'a>
        ensures text { result.text ≡ source.now }
        ensures none { result.nodes ≡ [] }
    {
        Trees {
            alloc,
            source,
            nodes: ItemList::new_in(alloc),
            roots: SpanList::new_in(alloc),
        }
    }

    /// Where memory for more is from.
    pub(crate) fn alloc(&self) -> Global {
        self.alloc
    }

    /// How many roots there are: what the next ones are added behind.
    pub(crate) fn mark(&self) -> usize
        ensures { result ≡ length self.now.roots }
    {
        self.roots.len()
    }

    /// The nodes, each behind its children: those of trees.
    pub(crate) fn nodes(&self) -> &[Node]
        ensures nodes { result.now ≡ self.now.nodes }
        ensures kept { AreKept self.now.text result.now self.now.roots }
    {
        self.nodes.as_slice()
    }

    /// Where the roots stand.
    pub(crate) fn roots(&self) -> &[Span]
        ensures { result.now ≡ self.now.roots }
    {
        self.roots.as_slice()
    }

    /// The source.
    pub(crate) fn source(&self) -> &'a str
        ensures { result.now ≡ self.now.text }
    {
        self.source
    }

    /// What the last root is.
    pub(crate) fn last_kind(&self) -> Option<NodeKind> {
        self.nodes.as_slice().last().map(|node| node.kind)
    }

    /// Adds a node, whose children are the roots behind the mark. Where there is no memory for it, no tree may be left.
    fn add(&mut self, mark: usize, node: Node) -> Result<(), AllocError>
        requires { AreKept self.old.text (self.old.nodes ++ node ∷ []) (take mark self.old.roots ++ node.span ∷ []) }
        ensures node { OnOk result (self.new.nodes ≡ self.old.nodes ++ node ∷ []) }
        ensures text { self.new.text ≡ self.old.text }
    {
        self.nodes.push(node)?;
        self.roots.truncate(mark);
        match self.roots.push(node.span) {
            Ok(()) => Ok(()),
            Err(error) => {
                self.nodes.truncate(0);
                self.roots.truncate(0);
                Err(error)
            }
        }
    }

    /// Adds a root, whose children are the roots behind the mark. It stands at the span, where a root may; else it
    /// takes up what its children do.
    pub(crate) fn close(
        &mut self,
        mark: usize,
        kind: NodeKind,
        span: Span,
    ) -> Result<(), AllocError>
        ensures node { OnOk result ((node : Node) × (self.new.nodes ≡ self.old.nodes ++ node ∷ []) × (node.kind ≡ kind)
            × (node.children ≡ length (drop mark self.old.roots))) }
        ensures text { self.new.text ≡ self.old.text }
    {
        let mark = mark.min(self.roots.len());
        let (before, within) = self.roots.as_slice().split_at(mark);
        let node = Node {
            kind,
            span: fitting(self.source, before, span, within),
            children: within.len(),
        };
        self.add(mark, node)
    }
}
