//! The row at which the rows of an edited text join the old ones.

ghost use Rattle.std.specs.Prelude.{◌≡◌, ◌↔◌, ◌≤◌, ◌+◌, ◌-◌, IsTrue, length};
ghost use Rattle.js_session.specs.Shifted.{shifted};
ghost use Rattle.js_relex.specs.Joined.{IsCommonEnd, IsMovedToken, Joins, at_start};

use js_kind::Token;
use js_session::{Command, Row, Shift};
use js_text::Span;
use std::marker::Model;

/// Whether the new place is the old one, moved.
fn is_place_moved(shift: &Shift, old: u32, new: u32) -> bool
    ensures { IsTrue result ↔ (new ≡ shifted shift.now.from shift.now.to old) }
{
    u64::from(new) == u64::from(old.saturating_sub(shift.from)) + u64::from(shift.to)
}

/// Whether the tokens have the same kind and flags.
fn is_alike(old: &Token, new: &Token) -> bool
    ensures { IsTrue result ↔ (at_start old.now ≡ at_start new.now) }
{
    let mut old = *old;
    old.set_span(Span { start: 0, end: 0 });
    let mut new = *new;
    new.set_span(Span { start: 0, end: 0 });
    old.is_same(&new)
}

/// Whether the token stands behind the edit, and is the old one, moved.
fn is_moved(shift: &Shift, old: &Token, new: &Token) -> bool
    ensures { IsTrue result ↔ IsMovedToken shift.now.from shift.now.to old.now new.now }
{
    if old.start() < shift.from {
        return false;
    }
    if new.start() < shift.to {
        return false;
    }
    if !is_place_moved(shift, old.start(), new.start()) {
        return false;
    }
    if !is_place_moved(shift, old.end(), new.end()) {
        return false;
    }
    is_alike(old, new)
}

/// Whether both commands are the same.
fn is_same(old: Command, new: Command) -> bool
    ensures { IsTrue result ↔ (old ≡ new) }
{
    old == new
}

/// How many commands at the end of both lists are the same.
fn common_end(old: &[Command], new: &[Command]) -> usize
    ensures { IsCommonEnd old.now new.now result }
{
    let mut common = 0;
    while common < old.len() {
        if common >= new.len() {
            return common;
        }
        if !is_same(old[old.len() - 1 - common], new[new.len() - 1 - common]) {
            return common;
        }
        common += 1;
    }
    common
}

/// What the rows of an edited text may join: the rows of a document, which are moved.
#[derive(Drop)]
pub(crate) struct Joining<'d> {
    shift: Shift,
    rows: &'d [Row],
    old_commands: &'d [Command],
    commands: &'d [Command],
    /// How many commands at the end of both lists are the same.
    common: usize,
}

impl<'d> Model for Joining<'d> {
    ghost use Rattle.std.specs.Prelude.{◌≡◌, ◌+◌, length};
    ghost use Rattle.js_relex.specs.Joined.{IsCommonEnd, JoiningState};

    ghost Value = { JoiningState };

    ghost view = { λ j. record {
      from = j.shift.from;
      to = j.shift.to;
      rows = j.rows.now;
      old_commands = j.old_commands.now;
      commands = j.commands.now;
    } };

    ghost invariant = { λ j. IsCommonEnd j.old_commands.now j.commands.now j.common
        × (length j.rows.now ≡ length j.old_commands.now + 1) };
}

impl<'d> Joining<'d> {
    /// The old rows, which answer the old commands, are to be joined by those of the commands.
    pub(crate) fn new(
        shift: Shift,
        rows: &'d [Row],
        old_commands: &'d [Command],
        commands: &'d [Command],
    ) -> Joining<'d>
        requires { length rows.now ≡ length old_commands.now + 1 }
        ensures { result ≡ record {
          from = shift.from;
          to = shift.to;
          rows = rows.now;
          old_commands = old_commands.now;
          commands = commands.now;
        } }
    {
        Joining {
            shift,
            rows,
            old_commands,
            commands,
            common: common_end(old_commands, commands),
        }
    }

    /// The commands of the new text.
    pub(crate) fn commands(&self) -> &'d [Command]
        ensures { result.now ≡ self.now.commands }
    {
        self.commands
    }

    /// Whether the row, behind which so many commands are left, joins an old one.
    pub(crate) fn is_joined_by(&self, row: &Row, left: usize) -> bool
        requires { left ≤ length self.now.commands }
        ensures { IsTrue result ↔ Joins self.now (length self.now.commands - left) row.now }
    {
        if left > self.common {
            return false;
        }
        let old = &self.rows[self.old_commands.len() - left];
        is_moved(&self.shift, &old.token, &row.token)
    }
}
