//! Sources whose licences are added.

ghost use Rattle.std.specs.Prelude.{◌≡◌, ◌⊎◌, ◌<◌, ◌^◌, length};
ghost use Rattle.std.specs.Prelude.{encode_utf8_all, IfOk, OnOk, OnErr, IfErr, IsOk};
ghost use Rattle.js_choose.specs.Faults.{ChoiceCause};
ghost use Rattle.js_choose.specs.declared.fault.ChoiceFault.{ChoiceFault};
ghost use Rattle.js_lines.specs.declared.line_ends.LineEnds.TheVariants.{EcmaScript};
ghost use Rattle.js_session.specs.Faults.{IsReadable};
ghost use Rattle.js_totsenak.specs.Stretches.{characters_between};
ghost use Rattle.js_licences.specs.Licences.{AddsLicences, AddsSome, line_at, occurrence_of, occurrences};
ghost use Rattle.js_licences.specs.Licences.{with_occurrence, with_occurrences};

use crate::classes::holds_licence;
use crate::licences::{Licences, Place};
use js_choose::{ChoiceFault, ChooseGoals};
use js_lines::{ColumnUnit, LineEnds, LineTable};
use js_text::{Comment, SourceText, SourceType, Span};
use js_totsenak::findings_of_source;
use std::alloc::{AllocError, Global};

/// The text of a stretch of a source.
fn text_between(source: &str, span: Span) -> &str
    requires { length source.now < 2 ^ 32 }
    ensures { result.now ≡ encode_utf8_all (characters_between source.now span.start span.end) }
{
    let behind = ColumnUnit::Bytes.split_at(source, span.start as usize).1;
    let length = span.end.saturating_sub(span.start);
    ColumnUnit::Bytes.split_at(behind, length as usize).0
}

/// Where an offset of a source with a name stands.
fn place_of(
    alloc: Global,
    name: &str,
    lines: &LineTable<'_>,
    offset: u32,
) -> Result<Place, AllocError>
    requires { lines.now.ends ≡ EcmaScript }
    ensures { IfOk result (λ place. place ≡ record { name = name.now; line = line_at lines.now.text offset }) }
{
    let mut copy = SourceText::new_in(alloc);
    copy.push_str(name)?;
    let line = lines.position(offset, ColumnUnit::Bytes).line;
    Ok(Place {
        name: copy,
        line: u64::from(line) + 1,
    })
}

impl Licences {
    /// Adds a comment of a source with a name.
    fn add_comment(
        &mut self,
        name: &str,
        lines: &LineTable<'_>,
        comment: &Comment,
    ) -> Result<(), AllocError>
        requires ends { lines.now.ends ≡ EcmaScript }
        requires short { length lines.now.text < 2 ^ 32 }
        ensures ok { OnOk result
            (self.new ≡ with_occurrence self.old (occurrence_of name.now lines.now.text comment.now)) }
        ensures err { OnErr result (self.new ≡ self.old) }
    {
        let place = place_of(self.allocator(), name, lines, comment.span.start)?;
        self.add_occurrence(text_between(lines.text(), comment.span), place)
    }

    /// Adds those comments of a source with a name that hold a licence. Where there is no memory for one of them, those
    /// before it were added.
    fn add_comments(
        &mut self,
        name: &str,
        lines: &LineTable<'_>,
        comments: &[Comment],
    ) -> Result<(), AllocError>
        requires ends { lines.now.ends ≡ EcmaScript }
        requires short { length lines.now.text < 2 ^ 32 }
        ensures ok { OnOk result
            (self.new ≡ with_occurrences self.old (occurrences name.now lines.now.text comments.now)) }
        ensures err { OnErr result (AddsSome self.old self.new) }
    {
        for comment in comments {
            if holds_licence(comment.content) {
                self.add_comment(name, lines, comment)?;
            }
        }
        Ok(())
    }

    /// Adds those comments of a source that hold a licence, by its lines.
    fn add_text(&mut self, name: &str, source: &str, comments: &[Comment]) -> Result<(), AllocError>
        requires { length source.now < 2 ^ 32 }
        ensures ok { OnOk result
            (self.new ≡ with_occurrences self.old (occurrences name.now source.now comments.now)) }
        ensures err { OnErr result (AddsSome self.old self.new) }
    {
        let lines = LineTable::new(self.allocator(), source, LineEnds::EcmaScript)?;
        self.add_comments(name, &lines, comments)
    }

    /// Adds the licences of a source with a name: the comments of its report that hold one, in order. The source's goals
    /// are chosen by the rule of a chooser.
    ///
    /// A source that has a fault of its own leaves the collection as it was. Where memory is lacking, some of its licences
    /// may have been added.
    pub fn add<G: ChooseGoals>(
        &mut self,
        name: &str,
        source: &[u8],
        source_type: SourceType,
    ) -> Result<(), ChoiceFault>
        ensures added { OnOk result (AddsLicences G.choice name.now source.now source_type self.old self.new) }
        ensures ok { OnOk result (IsReadable source.now) }
        // Each fault comes for its cause alone, and where the source has one, it comes.
        ensures cause { IfErr result (λ fault. ((fault ≡ ChoiceFault.Memory) × AddsSome self.old self.new)
            ⊎ (ChoiceCause source.now fault × (self.new ≡ self.old))) }
        ensures exact { (fault : ChoiceFault) → ChoiceCause source.now fault → result ≡ Err fault }
        ensures complete { IsReadable source.now → IsOk result ⊎ (result ≡ Err ChoiceFault.Memory) }
    {
        let found = findings_of_source::<G>(self.allocator(), source, source_type)?;
        let text = unsafe { str::from_utf8_unchecked(source) };
        match self.add_text(name, text, found.comments.as_slice()) {
            Ok(()) => Ok(()),
            Err(_) => Err(ChoiceFault::Memory),
        }
    }
}
