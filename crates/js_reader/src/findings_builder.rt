//! What readings find, as a lexer gathers it.

ghost use Rattle.std.specs.Prelude.{◌≡◌, ◌≤◌, ◌↔◌, [], length, IfOk, IsTrue};
ghost use Rattle.js_grammar.specs.Outcome.{AreWithin, found_since, lengths_of};
ghost use Rattle.js_trivia.specs.Trivia.{no_trivia, AreRangesUpTo, CanCutBack};
ghost use Rattle.js_reader.specs.Found.{HasFound, findings_in, found_lengths, found_up_to, lengths_in};

use crate::findings::{Findings, items_from};
use js_text::{DiagnosticList, SpanList};
use js_trivia::{TriviaBuilder, TriviaLengths};
use std::alloc::{AllocError, Global};

/// What was reported, what was reported for the case that the source is a module, comments and irregular white space,
/// and what was warned of.
#[derive(Drop)]
pub struct FindingsBuilder {
    pub errors: DiagnosticList,
    pub deferred: DiagnosticList,
    pub trivia: TriviaBuilder,
    pub warnings: SpanList,
}

/// How much was found.
#[derive(Drop)]
pub struct FindingsLengths {
    pub trivia: TriviaLengths,
    pub errors: usize,
    pub deferred: usize,
    pub warnings: usize,
}

impl FindingsBuilder {
    /// Nothing is found yet. It needs no memory.
    pub fn new_in(alloc: Global) -> FindingsBuilder
        ensures { result ≡ record { errors = []; deferred = []; trivia = no_trivia; warnings = [] } }
    {
        FindingsBuilder {
            errors: DiagnosticList::new_in(alloc),
            deferred: DiagnosticList::new_in(alloc),
            trivia: TriviaBuilder::new_in(alloc),
            warnings: SpanList::new_in(alloc),
        }
    }

    /// How much was found, between two gaps.
    #[inline(always)]
    pub fn lengths(&self) -> FindingsLengths
        requires { self.now.trivia.attachment.pending ≡ [] }
        ensures lengths { result ≡ found_lengths self.now }
        ensures ranges { AreRangesUpTo result.trivia.comments result.trivia.pure_range result.trivia.no_side_effects }
    {
        FindingsLengths {
            errors: self.errors.len(),
            deferred: self.deferred.len(),
            trivia: self.trivia.lengths(),
            warnings: self.warnings.len(),
        }
    }

    /// Whether it may go back there, reported errors left out: no list is shorter than it was, the ranges are of
    /// comments that stay, and what stays starts before the token that was the last one.
    pub fn can_cut_back(&self, to: &FindingsLengths) -> bool
        ensures { IsTrue result ↔ (to.now.deferred ≤ length self.now.deferred)
            × (to.now.warnings ≤ length self.now.warnings)
            × CanCutBack to.now.trivia to.now.trivia.previous.start self.now.trivia }
    {
        if to.deferred > self.deferred.len() || to.warnings > self.warnings.len() {
            return false;
        }
        self.trivia
            .can_cut_back(&to.trivia, to.trivia.previous.start())
    }

    /// Drops what was found since then, if since then the lists only grew.
    pub fn cut_back(&mut self, to: FindingsLengths)
        requires { HasFound to self.old }
        ensures { self.new ≡ found_up_to to self.old }
    {
        self.errors.truncate(to.errors);
        self.deferred.truncate(to.deferred);
        self.warnings.truncate(to.warnings);
        self.trivia.cut_back(to.trivia);
    }

    /// Whether nothing was found since then, between two gaps.
    #[inline(always)]
    pub fn has_found_nothing_since(&self, then: &FindingsLengths) -> bool
        requires { self.now.trivia.attachment.pending ≡ [] }
        ensures { IsTrue result ↔ (lengths_in then.now ≡ lengths_of (findings_in self.now)) }
    {
        let now = self.lengths();
        then.errors == now.errors
            && then.deferred == now.deferred
            && then.trivia.comments == now.trivia.comments
            && then.trivia.irregular == now.trivia.irregular
            && then.warnings == now.warnings
    }

    /// Copies of what was found since then, between two gaps.
    pub fn since(&self, alloc: Global, then: &FindingsLengths) -> Result<Findings, AllocError>
        requires between { self.now.trivia.attachment.pending ≡ [] }
        requires within { AreWithin (lengths_in then.now) (findings_in self.now) }
        ensures { IfOk result (λ found. found ≡ found_since (lengths_in then.now) (findings_in self.now)) }
    {
        let comments = then.trivia.comments as usize;
        let irregular = then.trivia.irregular as usize;
        Ok(Findings {
            diagnostics: items_from(alloc, self.errors.as_slice(), then.errors)?,
            deferred: items_from(alloc, self.deferred.as_slice(), then.deferred)?,
            comments: items_from(alloc, self.trivia.comments(), comments)?,
            irregular: items_from(alloc, self.trivia.irregular_whitespaces(), irregular)?,
            warnings: items_from(alloc, self.warnings.as_slice(), then.warnings)?,
        })
    }
}
