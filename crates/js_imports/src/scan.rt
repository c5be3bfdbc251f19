//! The rule followed token by token.

ghost use Rattle.std.specs.Prelude.{◌≡◌, ◌-◌, IfOk, OnOk, Option, length};
ghost use Rattle.js_text.specs.declared.reg_exp_flags.RegexInfo.{RegexInfo};
ghost use Rattle.js_lists.specs.Taken.{taken_as, value_handed};
ghost use Rattle.js_imports.specs.Scans.{at_start, begun, bracket_passed, changed, closed, done, ended, is_passed_over};
ghost use Rattle.js_imports.specs.Scans.{left, left_call, left_end, left_text, moved, opened_more, passed, separated};
ghost use Rattle.js_imports.specs.Scans.{separated_part, span_of, stepped, with_name, with_open, with_text};

use crate::class::{TokenClass, class_of};
use crate::found::{FoundList, Role};
use crate::moves::{Act, Move, Phase, move_behind};
use crate::opened::{Open, OpenPart, OpenStack};
use js_kind::Token;
use js_lists::TokenValue;
use js_text::RowValue;
use std::alloc::{AllocError, Global};
use std::marker::Model;

/// Follows the rule by which imports and exports are found, token by token.
#[derive(Drop)]
pub(crate) struct Scanner {
    alloc: Global,
    /// Whether calls of `require` count.
    counts: bool,
    /// What the last tokens were.
    phase: Phase,
    /// How many brackets are open.
    depth: u32,
    /// Where the last token ends.
    end: u32,
    /// The index, among what is found, of what the last tokens belong to.
    current: usize,
    opened: OpenStack,
    found: FoundList,
}

impl Model for Scanner {
    ghost use Rattle.js_imports.specs.Scans.{Scan};

    ghost Value = { Scan };

    ghost view = { λ s. record {
      counts = s.counts;
      phase = s.phase;
      depth = s.depth;
      end = s.end;
      current = s.current;
      opened = s.opened;
      found = s.found;
    } };
}

/// A value of its own.
fn kept(alloc: Global, value: TokenValue<'_>) -> Result<RowValue, AllocError>
    ensures { IfOk result (λ kept. kept ≡ value_handed value.entry) }
{
    match value {
        TokenValue::Nothing => Ok(RowValue::Nothing),
        TokenValue::Slice(span) => Ok(RowValue::Slice(span)),
        TokenValue::Units(text) => Ok(RowValue::Units(text.copy(alloc)?)),
        TokenValue::Bad => Ok(RowValue::Bad),
    }
}

impl Scanner {
    /// No token was taken. It needs no memory yet.
    pub(crate) fn new(alloc: Global, counts: bool) -> Scanner
        ensures { result ≡ at_start counts }
    {
        Scanner {
            alloc,
            counts,
            phase: Phase::Plain,
            depth: 0,
            end: 0,
            current: 0,
            opened: OpenStack::new(alloc),
            found: FoundList::new(alloc),
        }
    }

    /// What was found.
    pub(crate) fn into_found(self) -> FoundList
        ensures { result ≡ self.found }
    {
        self.found
    }

    /// Behind the `(` of an import call: a token that is no `)` begins its argument.
    fn leave_call(&mut self, class: TokenClass, token: &Token)
        ensures { self.new ≡ left_call class token.now self.old }
    {
        match class {
            TokenClass::CloseParen => {}
            _ => self.found.set_argument_start(self.current, token.start()),
        }
    }

    /// Behind the string in an import call: where its argument goes on, it has no specifier.
    fn leave_text(&mut self, class: TokenClass)
        ensures { self.new ≡ left_text class self.old }
    {
        match class {
            TokenClass::CloseParen => {}
            TokenClass::Comma => {}
            _ => self.found.drop_value(self.current),
        }
    }

    /// Behind what looks like an import call: where a `{` follows in brackets, it was the head of a method.
    fn leave_end(&mut self, class: TokenClass, token: &Token)
        ensures { self.new ≡ left_end class token.now self.old }
    {
        match class {
            TokenClass::OpenBrace if self.depth == 0 => {}
            TokenClass::OpenBrace => {
                self.found
                    .set_role(self.current, Role::Nothing, token.end());
            }
            _ => {}
        }
    }

    /// Takes up what the token shows of those before it.
    #[tactic(auto, unfolding(crate::specs::Scans::left))]
    fn leave(&mut self, class: TokenClass, token: &Token)
        ensures { self.new ≡ left class token.now self.old }
    {
        match self.phase {
            Phase::Call => self.leave_call(class, token),
            Phase::CallText => self.leave_text(class),
            Phase::CallEnd => self.leave_end(class, token),
            _ => {}
        }
    }

    /// Begins something that may be found.
    fn begin(&mut self, token: &Token) -> Result<(), AllocError>
        ensures { OnOk result (self.new ≡ begun token.now self.old) }
    {
        self.current = self.found.len();
        self.found.begin(token.span())
    }

    /// Opens an import call or a pattern, to which the last tokens belong.
    fn open(&mut self, part: OpenPart) -> Result<(), AllocError>
        ensures { OnOk result (self.new ≡ with_open part self.old) }
    {
        self.opened.open(Open {
            part,
            index: self.current,
            depth: self.depth,
        })
    }

    /// Gives what the last tokens belong to its specifier, and tells what it is.
    fn tell(&mut self, role: Role, token: &Token, value: TokenValue<'_>) -> Result<(), AllocError>
        ensures { OnOk result (self.new ≡ changed
            (with_text role (span_of token.now) (value_handed value.entry)) self.old.current self.old) }
    {
        let value = kept(self.alloc, value)?;
        self.found.set_text(self.current, role, token.span(), value);
        Ok(())
    }

    /// Adds a name that is exported.
    fn add_name(&mut self, token: &Token, value: TokenValue<'_>) -> Result<(), AllocError>
        ensures { OnOk result (self.new ≡ with_name token.now (value_handed value.entry) self.old) }
    {
        let value = kept(self.alloc, value)?;
        self.found.add_name(token.span(), value)
    }

    /// Exports the last name by this one.
    fn rename(&mut self, token: &Token, value: TokenValue<'_>) -> Result<(), AllocError>
        ensures { OnOk result (self.new ≡ changed
            (with_text Role.ExportName (span_of token.now) (value_handed value.entry))
            (length self.old.found - 1) self.old) }
    {
        let value = kept(self.alloc, value)?;
        let last = self.found.len().saturating_sub(1);
        self.found
            .set_text(last, Role::ExportName, token.span(), value);
        Ok(())
    }

    /// Does what is to be done at a token.
    #[tactic(auto, unfolding(crate::specs::Scans::done))]
    fn do_at(&mut self, act: Act, token: &Token, value: TokenValue<'_>) -> Result<(), AllocError>
        ensures { OnOk result (self.new ≡ done act token.now (value_handed value.entry) self.old) }
    {
        match act {
            Act::Nothing => Ok(()),
            Act::Begin => self.begin(token),
            Act::TellImport => self.tell(Role::StaticImport, token, value),
            Act::TellFrom => self.tell(Role::ExportFrom, token, value),
            Act::TellMeta => self.tell(Role::ImportMeta, token, TokenValue::Nothing),
            Act::TellRequire => {
                self.found
                    .set_role(self.current, Role::Require, token.end());
                Ok(())
            }
            Act::Extend => {
                self.found.set_end(self.current, token.end());
                Ok(())
            }
            Act::KeepText => self.tell(Role::Nothing, token, value),
            Act::OpenCall => self.open(OpenPart::Argument),
            Act::DropCall => {
                self.opened.close();
                Ok(())
            }
            Act::OpenPattern => {
                self.begin(token)?;
                self.open(OpenPart::Pattern)
            }
            Act::AddName => self.add_name(token, value),
            Act::Rename => self.rename(token, value),
        }
    }

    /// Ends a part of an import call, or a pattern, with a closing bracket.
    fn end_part(&mut self, part: OpenPart, index: usize, token: &Token)
        ensures { self.new ≡ ended part index token.now self.old }
    {
        match part {
            OpenPart::Argument => {
                self.found.set_argument_end(index, self.end);
                self.found.set_role(index, Role::DynamicImport, token.end());
                self.current = index;
                self.phase = Phase::CallEnd;
            }
            OpenPart::Options => {
                self.found.set_role(index, Role::DynamicImport, token.end());
                self.current = index;
                self.phase = Phase::CallEnd;
            }
            OpenPart::Pattern => {
                self.found.set_argument_end(index, token.end());
                self.found.set_role(index, Role::ExportPattern, token.end());
            }
        }
    }

    /// Closes a bracket.
    #[tactic(auto, unfolding(crate::specs::Scans::closed))]
    fn close(&mut self, token: &Token)
        ensures { self.new ≡ closed token.now self.old }
    {
        self.depth = self.depth.saturating_sub(1);
        match self.opened.last() {
            Some(last) if last.depth == self.depth => {
                self.opened.close();
                self.end_part(last.part, last.index, token);
            }
            _ => {}
        }
    }

    /// Ends the argument of an import call with a comma.
    fn end_argument(&mut self, last: Open) -> Result<(), AllocError>
        ensures { OnOk result (self.new ≡ separated_part last.part last self.old) }
    {
        match last.part {
            OpenPart::Argument => {
                self.found.set_argument_end(last.index, self.end);
                self.opened.close();
                self.opened.open(Open {
                    part: OpenPart::Options,
                    index: last.index,
                    depth: last.depth,
                })
            }
            OpenPart::Options | OpenPart::Pattern => Ok(()),
        }
    }

    /// Passes a comma.
    #[tactic(auto, unfolding(crate::specs::Scans::separated))]
    fn separate(&mut self) -> Result<(), AllocError>
        ensures { OnOk result (self.new ≡ separated self.old) }
    {
        match self.opened.last() {
            Some(last) if last.depth == self.depth.saturating_sub(1) => self.end_argument(last),
            _ => Ok(()),
        }
    }

    /// Opens a bracket. Of 2^32 there is no memory.
    fn open_more(&mut self) -> Result<(), AllocError>
        ensures { OnOk result (self.new ≡ opened_more self.old) }
    {
        let Some(depth) = self.depth.checked_add(1) else {
            return Err(AllocError);
        };
        self.depth = depth;
        Ok(())
    }

    /// Takes up what a token does to brackets, and to what stands in them.
    #[tactic(auto, unfolding(crate::specs::Scans::bracket_passed))]
    fn pass_bracket(&mut self, class: TokenClass, token: &Token) -> Result<(), AllocError>
        ensures { OnOk result (self.new ≡ bracket_passed class token.now self.old) }
    {
        match class {
            TokenClass::OpenParen => self.open_more(),
            TokenClass::OpenBrace => self.open_more(),
            TokenClass::OpenSquare => self.open_more(),
            TokenClass::OpenTemplate => self.open_more(),
            TokenClass::CloseParen => {
                self.close(token);
                Ok(())
            }
            TokenClass::CloseBrace => {
                self.close(token);
                Ok(())
            }
            TokenClass::CloseOther => {
                self.close(token);
                Ok(())
            }
            TokenClass::Comma => self.separate(),
            _ => Ok(()),
        }
    }

    /// Moves behind a token.
    #[tactic(auto, unfolding(crate::specs::Scans::moved))]
    fn go(&mut self, next: Move, token: &Token, value: TokenValue<'_>) -> Result<(), AllocError>
        ensures { OnOk result (self.new ≡ moved next token.now (value_handed value.entry) self.old) }
    {
        self.do_at(next.act, token, value)?;
        self.phase = next.phase;
        Ok(())
    }

    /// Takes a token of a class.
    #[inline(never)]
    #[tactic(auto, unfolding(crate::specs::Scans::passed))]
    fn pass(
        &mut self,
        class: TokenClass,
        token: &Token,
        value: TokenValue<'_>,
    ) -> Result<(), AllocError>
        ensures { OnOk result (self.new ≡ passed class token.now (value_handed value.entry) self.old) }
    {
        let next = move_behind(self.phase, class, self.depth == 0);
        self.leave(class, token);
        self.go(next, token, value)?;
        self.pass_bracket(class, token)?;
        self.end = token.end();
        Ok(())
    }

    /// Whether a token of a class changes nothing but where the last token ends.
    #[inline(always)]
    fn is_passed_over(&self, class: TokenClass) -> bool
        ensures { result ≡ is_passed_over self.now.phase class }
    {
        match self.phase {
            Phase::Plain => class.is_plain(),
            _ => false,
        }
    }

    /// Takes a token. Most change nothing.
    #[inline(always)]
    pub(crate) fn step(&mut self, token: &Token, value: TokenValue<'_>) -> Result<(), AllocError>
        ensures { (regex : Option RegexInfo) → OnOk result
            (self.new ≡ stepped (taken_as token.now value.entry regex) self.old) }
    {
        let class = class_of(token.kind()).as_written(
            token.escaped(),
            token.is_on_new_line(),
            self.counts,
        );
        if self.is_passed_over(class) {
            self.end = token.end();
            return Ok(());
        }
        self.pass(class, token, value)
    }
}
