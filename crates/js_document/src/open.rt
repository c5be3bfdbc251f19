//! What is open, as links to it.

ghost use Rattle.std.specs.Prelude.{◌≡◌, ℕ, ◌+◌, ◌<◌, ◌↔◌, List, [], ◌∷◌, drop, length, slice_get};
ghost use Rattle.std.specs.Prelude.{IfOk, IsTrue, OnErr};
ghost use Rattle.js_document.specs.Trie.{HasMore, IsOpen, brace_with, is_brace, last_brace, node_of, opened};

use std::alloc::{AllocError, Global};
use std::marker::Model;

/// How many kinds of scopes there may be.
const SCOPES: usize = 8;

/// A scope that is open, with a link to what was open before it.
#[derive(Clone, Copy)]
pub(crate) struct Node {
    pub(crate) parent: u32,
    pub(crate) scope: u8,
    /// The last open brace, from this scope on, if one is open.
    pub(crate) brace: Option<u8>,
}

/// Whether a brace opens the scope.
fn is_brace(scope: u8) -> bool
    ensures { result ≡ is_brace scope }
{
    match scope {
        0 => true,
        1 => true,
        2 => true,
        _ => false,
    }
}

/// What may be open, each once: the same scopes have the same link, whichever text opened them. A link is 0 where
/// nothing is open, and else one more than the number of the node of the scope that was opened last. A scope is a number
/// below 8; a brace opens those below 3.
#[derive(Drop)]
pub struct OpenTrie {
    nodes: Vec<Node>,
    /// For each link, and each scope, the link where that is opened too; 0 where it was not yet.
    children: Vec<u32>,
}

impl Model for OpenTrie {
    ghost use Rattle.std.specs.Prelude.{List};
    ghost use Rattle.js_document.specs.Trie.{IsTable};
    ghost use Rattle.js_document.specs.declared.open.Node.{Node};

    ghost Value = { List Node };

    ghost view = { λ t. t.nodes.items };

    ghost invariant = { λ t. IsTable t.nodes.items t.children.items };
}

impl OpenTrie {
    /// Nothing was opened yet.
    pub fn new(alloc: Global) -> Result<OpenTrie, AllocError>
        ensures { IfOk result (λ t. t ≡ []) }
    {
        Ok(OpenTrie {
            nodes: Vec::new(alloc),
            children: Vec::from_elem(alloc, 0, SCOPES)?,
        })
    }

    /// The node of a link, if anything is open.
    fn node(&self, link: u32) -> Option<Node>
        ensures { result ≡ node_of self.now link }
    {
        match link.checked_sub(1) {
            Some(number) => self.nodes.get(number as usize).copied(),
            None => None,
        }
    }

    /// The scope that was opened last, if one is open.
    pub fn last(&self, link: u32) -> Option<u8>
        ensures is { (scopes : List ℕ) → IsOpen self.now link scopes → result ≡ slice_get scopes 0 }
        ensures told { result ≡ slice_get (opened self.now link) 0 }
    {
        match self.node(link) {
            Some(node) => Some(node.scope),
            None => None,
        }
    }

    /// The last open brace, if one is open.
    pub fn last_brace(&self, link: u32) -> Option<u8>
        ensures { result ≡ last_brace (opened self.now link) }
    {
        let _ = &self.nodes;
        match self.node(link) {
            Some(node) => node.brace,
            None => None,
        }
    }

    /// The link to what is open without the scope that was opened last, if one is open.
    pub fn close(&self, link: u32) -> u32
        ensures is { (scopes : List ℕ) → IsOpen self.now link scopes → IsOpen self.now result (drop 1 scopes) }
        ensures told { opened self.now result ≡ drop 1 (opened self.now link) }
    {
        let _ = &self.nodes;
        match self.node(link) {
            Some(node) => node.parent,
            None => 0,
        }
    }

    /// The link to what is open without so many scopes, the one that was opened last first. Each costs a step.
    pub fn close_all(&self, link: u32, count: usize) -> u32
        ensures is { (scopes : List ℕ) → IsOpen self.now link scopes → IsOpen self.now result (drop count scopes) }
        ensures told { opened self.now result ≡ drop count (opened self.now link) }
    {
        let mut below = link;
        let mut left = count;
        while left > 0 {
            below = self.close(below);
            left -= 1;
        }
        below
    }

    /// What is open is what the link tells.
    pub(crate) fn is_told(&self, link: u32)
        ensures { (scopes : List ℕ) → IsOpen self.now link scopes → opened self.now link ≡ scopes }
    {
        let _ = &self.nodes;
        let _ = link;
    }

    /// Whether both links lead to the same.
    pub fn is_same(&self, link: u32, other: u32) -> bool
        ensures { (scopes others : List ℕ) → IsOpen self.now link scopes → IsOpen self.now other others
            → IsTrue result ↔ (scopes ≡ others) }
    {
        let _ = &self.nodes;
        link == other
    }

    /// The last open brace where the scope is opened too.
    fn brace_with(&self, link: u32, scope: u8) -> Option<u8>
        ensures { result ≡ brace_with self.now link scope }
    {
        if is_brace(scope) {
            return Some(scope);
        }
        match self.node(link) {
            Some(node) => node.brace,
            None => None,
        }
    }

    /// The next link. One of 2^32 or more finds no memory.
    fn next_link(&self) -> Result<u32, AllocError>
        ensures { IfOk result (λ link. link ≡ length self.now + 1) }
    {
        match u32::try_from(self.nodes.len() + 1) {
            Ok(link) => Ok(link),
            Err(_) => Err(AllocError),
        }
    }

    /// The link to what is open where this scope is opened too. Where there is no memory for it, all stays as it was.
    pub fn open(&mut self, link: u32, scope: u8) -> Result<u32, AllocError>
        requires inside { (scopes : List ℕ) × IsOpen self.old link scopes }
        requires few { scope < 8 }
        ensures ok { IfOk result (λ new. (scopes : List ℕ) → IsOpen self.old link scopes
            → IsOpen self.new new (scope ∷ scopes)) }
        ensures more { HasMore self.old self.new }
        ensures err { OnErr result (self.new ≡ self.old) }
    {
        let place = link as usize * SCOPES + scope as usize;
        let child = self.children[place];
        if child != 0 {
            return Ok(child);
        }
        let child = self.next_link()?;
        let brace = self.brace_with(link, scope);
        self.nodes.reserve(1)?;
        self.children.extend_from_slice(&[0; SCOPES])?;
        self.nodes.push(Node {
            parent: link,
            scope,
            brace,
        })?;
        self.children[place] = child;
        Ok(child)
    }
}
