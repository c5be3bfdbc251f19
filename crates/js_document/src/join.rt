//! The row at which the rows of an edited text join the old ones.

ghost use Rattle.std.specs.Prelude.{◌≡◌, ◌↔◌, ◌≤◌, ◌+◌, ◌<◌, ◌^◌, List, None, IfSome, IsTrue};
ghost use Rattle.js_session.specs.Shifted.{shifted_token};
ghost use Rattle.js_kind.specs.TokenParts.{TokenParts};
ghost use Rattle.js_relex.specs.Joined.{at_start};
ghost use Rattle.js_document.specs.Gap.{AreOrdered};
ghost use Rattle.js_document.specs.Reading.{IsSeam, JoinsHeld, JoinsNone};
ghost use Rattle.js_document.specs.States.{IsLast};

use crate::blocks::Held;
use crate::gap::GapRows;
use crate::keep::KeepGoals;
use crate::open::OpenTrie;
use js_kind::Token;
use js_session::Shift;
use std::marker::Model;

/// The old rows that may be joined: those behind the gap, the last one first, with their places padded.
#[derive(Drop)]
pub(crate) struct Joining<'d, K> {
    entries: &'d GapRows<K>,
    /// How the places of the new text are padded.
    pad: u32,
    /// The padded end of the edit.
    limit: u32,
}

impl<'d, K> Model for Joining<'d, K> {
    ghost use Rattle.js_document.specs.Gap.{AreOrdered};
    ghost use Rattle.js_document.specs.Reading.{JoiningState};

    ghost Value = { JoiningState K };

    ghost view = { λ j. record { back = j.entries.now.back; pad = j.pad; limit = j.limit } };

    ghost invariant = { λ j. AreOrdered {K = K} j.entries.now };
}

/// The token of the new text, padded.
fn padded(token: &Token, pad: u32) -> Token
    requires ordered { token.now.start ≤ token.now.end }
    requires fits { token.now.end + pad < 2 ^ 32 }
    ensures { result ≡ shifted_token 0 pad token.now }
{
    let mut token = *token;
    Shift { from: 0, to: pad }.move_token(&mut token);
    token
}

impl<'d, K: KeepGoals> Joining<'d, K> {
    /// The rows behind the gap may be joined behind the limit, which is padded as they are.
    pub(crate) fn new(entries: &'d GapRows<K>, pad: u32, limit: u32) -> Joining<'d, K>
        requires { AreOrdered {K = K} entries.now }
        ensures { result ≡ record { back = entries.now.back; pad = pad; limit = limit } }
    {
        Joining {
            entries,
            pad,
            limit,
        }
    }

    /// How many old rows start behind the place.
    fn behind(&self, start: u32) -> usize
        ensures { IsSeam {K = K} self.now.back start result }
    {
        self.entries.rows_behind(start)
    }

    /// Whether the row of a token, behind which this is known, joins the old row of the entry; its token is padded, too.
    fn is_joined(
        &self,
        open: &OpenTrie,
        entry: &Held<'_, K>,
        token: &Token,
        padded: &Token,
        state: K,
    ) -> bool
        requires { padded.now ≡ shifted_token 0 self.now.pad token.now }
        ensures same { IsTrue result → entry.now.row.token ≡ padded.now }
        ensures alike { (tokens others : List TokenParts) (other : TokenParts) → K.knows open.now state tokens
            → K.knows open.now entry.now.state others → IsLast token.now tokens → IsLast other others
            → at_start other ≡ at_start token.now → entry.now.row.token ≡ padded.now → IsTrue result ↔ K.alike tokens others }
    {
        if !entry.token().is_same(padded) {
            return false;
        }
        state.is_alike(entry.state(), open, token)
    }

    /// How many old rows stand behind the first that starts with the padded token and is joined by its row, from the one
    /// on that has so many behind it.
    fn find(
        &self,
        open: &OpenTrie,
        at: usize,
        token: &Token,
        padded: &Token,
        state: K,
    ) -> Option<usize>
        requires padded { padded.now ≡ shifted_token 0 self.now.pad token.now }
        requires behind { self.now.limit ≤ padded.now.start }
        requires seam { IsSeam {K = K} self.now.back padded.now.start at }
        ensures some { (tokens : List TokenParts) → K.knows open.now state tokens → IsLast token.now tokens
            → IfSome result (JoinsHeld {K = K} K.knows K.alike open.now self.now token.now tokens) }
        ensures none { (tokens : List TokenParts) → K.knows open.now state tokens → IsLast token.now tokens
            → result ≡ None → JoinsNone {K = K} K.knows K.alike open.now self.now token.now tokens }
    {
        let end = self.entries.back_len();
        let mut left = at;
        while left < end {
            let entry = self.entries.behind(left);
            if entry.token().start() != padded.start() {
                return None;
            }
            if self.is_joined(open, &entry, token, padded, state) {
                return Some(left);
            }
            left += 1;
        }
        None
    }

    /// How many old rows stand behind the one that the row of the token joins, behind which this is known. None: it
    /// joins none.
    pub(crate) fn joined_by(&self, open: &OpenTrie, token: &Token, state: K) -> Option<usize>
        requires ordered { token.now.start ≤ token.now.end }
        requires fits { token.now.end + self.now.pad < 2 ^ 32 }
        ensures some { (tokens : List TokenParts) → K.knows open.now state tokens → IsLast token.now tokens
            → IfSome result (JoinsHeld {K = K} K.knows K.alike open.now self.now token.now tokens) }
        ensures none { (tokens : List TokenParts) → K.knows open.now state tokens → IsLast token.now tokens
            → result ≡ None → JoinsNone {K = K} K.knows K.alike open.now self.now token.now tokens }
    {
        let padded = padded(token, self.pad);
        if padded.start() < self.limit {
            return None;
        }
        self.find(open, self.behind(padded.start()), token, &padded, state)
    }
}
