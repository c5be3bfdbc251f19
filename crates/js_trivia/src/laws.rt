//! Laws over the definitions alone: each function carries one, and answers nothing.

ghost use Rattle.std.specs.Prelude.{◌≡◌, ◌++◌, ℕ, Bool, false, List, [], length, None};
ghost use Rattle.std.specs.List.{position_from};
ghost use Rattle.js_text.specs.declared.comment.Comment.{Comment};
ghost use Rattle.js_text.specs.declared.span.Span.{Span};
ghost use Rattle.js_kind.specs.TokenParts.{TokenParts};
ghost use Rattle.js_grammar.specs.Gap.{Piece};
ghost use Rattle.js_grammar.specs.PieceItems.{items_of, gap_of};
ghost use Rattle.js_trivia.specs.Pieces.{end_of, MayRead};
ghost use Rattle.js_grammar.specs.GapItems.{Found, Gap};
ghost use Rattle.js_trivia.specs.Trivia.{Trivia, BeforeGap, HeldBefore, calls, handle_token, after_gap, lengths_of};
ghost use Rattle.js_trivia.specs.Trivia.{cut_to, GrewFrom, held, comment_starts, is_past, is_span, add_comment};
ghost use Rattle.js_trivia.specs.Trivia.{add_irregular};

/// The calls for a whole gap add its comments as `attach` has them, its irregular white space, and its annotations.
pub fn gap_is_attached()
    ensures attached { (low high : ℕ) (gap : Gap) (s : Trivia) → BeforeGap low high gap s
        → handle_token gap.token (calls gap.items s) ≡ after_gap gap s }
    ensures grew { (low high : ℕ) (gap : Gap) (s : Trivia) → BeforeGap low high gap s → GrewFrom s (after_gap gap s) }
    ensures held { (low high : ℕ) (gap : Gap) (s : Trivia) → BeforeGap low high gap s
        → HeldBefore high (after_gap gap s) }
{}

/// The same for a gap by its pieces.
pub fn pieces_are_attached()
    ensures attached { (is_first : Bool) (previous token : TokenParts) (place : ℕ) (pieces : List Piece) (s : Trivia)
        → MayRead is_first previous place pieces s
        → handle_token token (calls (items_of place pieces) s)
        ≡ after_gap (gap_of is_first previous place pieces token) s }
    ensures held { (is_first : Bool) (previous token : TokenParts) (place : ℕ) (pieces : List Piece) (s : Trivia)
        → MayRead is_first previous place pieces s
        → HeldBefore (end_of place pieces) (after_gap (gap_of is_first previous place pieces token) s) }
{}

/// Cut back to its lengths, a builder whose lists only grew is as it was.
pub fn cut_back_restores()
    ensures restored { (s now : Trivia) → s.attachment.pending ≡ [] → GrewFrom s now → cut_to (lengths_of s) now ≡ s }
    ensures composed { (s then now : Trivia) → GrewFrom s then → GrewFrom then now → GrewFrom s now }
{}

/// Cut back to its lengths, a builder whose lists only grew keeps what was marked since.
pub fn cut_back_keeps_marks()
    ensures { (s now : Trivia) (older more : List Comment) (spans : List Span)
        → held now.attachment ≡ older ++ more → length older ≡ length s.attachment.attached
        → now.irregular_whitespaces ≡ s.irregular_whitespaces ++ spans
        → cut_to (lengths_of s) now ≡ record s { attachment = record s.attachment { attached = older; pending = [] } } }
{}

/// A comment that starts at or before the last one is not added, and changes nothing where none of its span is held.
pub fn earlier_comments_are_not_added()
    ensures kept { (found : Found) (s : Trivia) → is_past found.span.start (comment_starts (held s.attachment)) ≡ false
        → (add_comment found s).attachment ≡ s.attachment }
    ensures unknown { (found : Found) (s : Trivia)
        → is_past found.span.start (comment_starts (held s.attachment)) ≡ false
        → position_from (is_span found.span.start found.span.end) 0 (held s.attachment) ≡ None
        → add_comment found s ≡ s }
{}

/// What is told of twice is listed once.
pub fn told_twice_is_listed_once()
    ensures comments { (found : Found) (s : Trivia)
        → (add_comment found (add_comment found s)).attachment ≡ (add_comment found s).attachment }
    ensures irregular { (span : Span) (s : Trivia)
        → add_irregular span (add_irregular span s) ≡ add_irregular span s }
{}
