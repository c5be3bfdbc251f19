//! The classes of comments that hold a licence.

ghost use Rattle.std.specs.Prelude.{◌≡◌};
ghost use Rattle.js_licences.specs.Licences.{holds_licence};

use js_text::CommentContent;

/// Whether a comment of the class holds a licence.
pub fn holds_licence(content: CommentContent) -> bool
    ensures { result ≡ holds_licence content }
{
    matches!(content, CommentContent::Legal | CommentContent::JsdocLegal)
}
