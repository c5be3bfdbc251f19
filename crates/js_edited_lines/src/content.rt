//! What stands on a line.

ghost use Rattle.std.specs.Prelude.{◌≡◌, ℕ, ◌<◌, ◌≤◌, List, [], ◌∷◌, ◌++◌, length, IfNone, IfSome};
ghost use Rattle.std.specs.Str.{chars};
ghost use Rattle.js_lines.specs.Lines.{last_line, line_content, lines_ended};
ghost use Rattle.js_edited_lines.specs.Content.{IsWithoutReturn};
ghost use Rattle.js_lines.specs.declared.line_ends.LineEnds.{LineEnds as WhatEnds};

/// What stands before the last character of a text, and that character.
fn split_last(text: &str) -> Option<(&str, char)>
    ensures none { IfNone result (chars text.now ≡ []) }
    ensures some { IfSome result (λ parts. chars text.now ≡ chars parts.0.now ++ parts.1 ∷ []) }
    ensures within { IfSome result (λ parts. length parts.0.now ≤ length text.now) }
{
    let mut rest = text.chars();
    let last = rest.next_back()?;
    Some((rest.as_str(), last))
}

/// A text without the CR that it ends in, if it does.
fn without_return(text: &str) -> &str
    ensures characters { IsWithoutReturn (chars text.now) (chars result.now) }
    ensures within { length result.now ≤ length text.now }
{
    let Some((front, last)) = split_last(text) else {
        return text;
    };
    if last == '\r' {
        return front;
    }
    text
}

/// A line without its line end.
pub(crate) fn without_end(line: &str) -> &str
    ensures content { (ends : WhatEnds) (ys : List ℕ) → lines_ended ends (chars line.now) ys ≡ 1
        → last_line ends (chars line.now) ys ≡ [] → chars result.now ≡ line_content ends (chars line.now ++ ys) }
    ensures within { length result.now ≤ length line.now }
{
    let Some((front, last)) = split_last(line) else {
        return line;
    };
    if last == '\n' {
        return without_return(front);
    }
    front
}
