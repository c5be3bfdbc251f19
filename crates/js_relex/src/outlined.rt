//! A report with the outlines of its rows.

ghost use Rattle.std.specs.Prelude.{◌≡◌, ◌≤◌, ◌+◌, ◌-◌, [], ◌++◌, length, take, drop, map, IfOk, OnOk, OnErr};
ghost use Rattle.std.specs.List.{AllByRecursion};
ghost use Rattle.js_session.specs.Live.{report_live};
ghost use Rattle.js_session.specs.Shifted.{shifted_row};
ghost use Rattle.js_relex.specs.Documents.{IsGathered, MayMove};
ghost use Rattle.js_relex.specs.LiveLists.{AreWithin, HasLasted, Lasts, lengths_past, live_lengths, overwritten_live};
ghost use Rattle.js_relex.specs.Outlines.{OutlineFits, outline_of, shifted_outline};

use crate::gather::{replace_rows, with_rows};
use crate::live::live_of;
use crate::outline::{OutlineList, RowOutline, add_moved_outlines, add_outlines};
use crate::patch::{LivePatch, overwrite, overwrite_live, patch_of, patched_tokens};
use js_session::{Command, Report, Row, RowList, Shift};
use std::alloc::{AllocError, Global};
use std::marker::Model;
use std::mem;

/// A report with the outline of each row, by which it is told how many rows an edit leaves, and what these found.
#[derive(Drop)]
pub(crate) struct OutlinedReport {
    report: Report,
    outlines: OutlineList,
}

impl Model for OutlinedReport {
    ghost use Rattle.std.specs.Prelude.{◌≡◌, map};
    ghost use Rattle.js_session.specs.declared.report.Report.{Report};
    ghost use Rattle.js_relex.specs.Outlines.{outline_of};

    ghost Value = { Report };

    ghost view = { λ o. o.report };

    ghost invariant = { λ o. o.outlines ≡ map outline_of o.report.rows };
}

/// The outlines of rows of which the first are kept, and the last are taken over, moved.
fn replaced_outlines(
    alloc: Global,
    outlines: &[RowOutline],
    kept: usize,
    read: &[Row],
    behind: usize,
    shift: &Shift,
) -> Result<OutlineList, AllocError>
    requires few { kept + behind ≤ length outlines.now }
    requires fits { AllByRecursion (OutlineFits shift.now.from shift.now.to)
        (drop (length outlines.now - behind) outlines.now) }
    ensures { IfOk result (λ new. new ≡ take kept outlines.now ++ map outline_of read.now
        ++ map (shifted_outline shift.now.from shift.now.to) (drop (length outlines.now - behind) outlines.now)) }
{
    let mut list = OutlineList::from_vec(
        alloc,
        Vec::with_capacity(alloc, kept + read.len() + behind)?,
    )?;
    list.extend_from_slice(&outlines[..kept])?;
    add_outlines(&mut list, read)?;
    add_moved_outlines(&mut list, &outlines[outlines.len() - behind..], shift)?;
    Ok(list)
}

/// The outlines of the rows.
fn outlines_of(alloc: Global, rows: &[Row]) -> Result<OutlineList, AllocError>
    ensures { IfOk result (λ outlines. outlines ≡ map outline_of rows.now) }
{
    let mut outlines = OutlineList::from_vec(alloc, Vec::with_capacity(alloc, rows.len())?)?;
    add_outlines(&mut outlines, rows)?;
    Ok(outlines)
}

impl OutlinedReport {
    /// The report with the outlines of its rows.
    pub(crate) fn new(alloc: Global, report: Report) -> Result<OutlinedReport, AllocError>
        ensures { IfOk result (λ outlined. outlined ≡ report) }
    {
        let outlines = outlines_of(alloc, report.rows.as_slice())?;
        Ok(OutlinedReport { report, outlines })
    }

    /// An equal report, with its outlines.
    pub(crate) fn copy(&self, alloc: Global) -> Result<OutlinedReport, AllocError>
        ensures { IfOk result (λ outlined. outlined ≡ self.now) }
    {
        Ok(OutlinedReport {
            report: self.report.copy(alloc)?,
            outlines: self.outlines.copy(alloc)?,
        })
    }

    /// The report.
    pub(crate) fn report(&self) -> &Report
        ensures { result.now ≡ self.now }
    {
        &self.report
    }

    /// The outlines of its rows.
    pub(crate) fn outlines(&self) -> &[RowOutline]
        ensures { result.now ≡ map outline_of self.now.rows }
    {
        self.outlines.as_slice()
    }

    /// Puts the rows that were read in the place of those between the first and the last, which it moves where they
    /// stand. What is live stays.
    fn replace_rows(
        &mut self,
        alloc: Global,
        kept: usize,
        read: RowList,
        behind: usize,
        shift: &Shift,
    ) -> Result<(), AllocError>
        requires few { kept + behind ≤ length self.old.rows }
        requires may_move { AllByRecursion (MayMove shift.now.from shift.now.to)
            (drop (length self.old.rows - behind) self.old.rows) }
        requires stay { shift.now.from ≡ shift.now.to
            → map (shifted_row shift.now.from shift.now.to) (drop (length self.old.rows - behind) self.old.rows)
            ≡ drop (length self.old.rows - behind) self.old.rows }
        ensures ok { OnOk result (self.new ≡ record self.old {
          rows = take kept self.old.rows ++ read
              ++ map (shifted_row shift.now.from shift.now.to) (drop (length self.old.rows - behind) self.old.rows);
        }) }
        ensures err { OnErr result (self.new ≡ self.old) }
    {
        let outlines = replaced_outlines(
            alloc,
            self.outlines.as_slice(),
            kept,
            read.as_slice(),
            behind,
            shift,
        )?;
        replace_rows(&mut self.report.rows, kept, read, behind, shift)?;
        self.outlines = outlines;
        Ok(())
    }

    /// Has this live. The rows stay.
    fn set_live(&mut self, alloc: Global, live: Report)
        ensures { self.new ≡ record live { rows = self.old.rows } }
    {
        let rows = mem::replace(&mut self.report.rows, RowList::new_in(alloc));
        self.report = with_rows(live, rows);
    }

    /// Puts the rows that were read in the place of as many behind the first, which stay. What is live stays.
    fn overwrite_rows(
        &mut self,
        alloc: Global,
        kept: usize,
        read: RowList,
        behind: usize,
    ) -> Result<(), AllocError>
        requires as_many { kept + length read + behind ≡ length self.old.rows }
        ensures ok { OnOk result (self.new ≡ record self.old {
          rows = take kept self.old.rows ++ read ++ drop (length self.old.rows - behind) self.old.rows;
        }) }
        ensures err { OnErr result (self.new ≡ self.old) }
    {
        let outlines = outlines_of(alloc, read.as_slice())?;
        let end = self.report.rows.len() - behind;
        self.report.rows.replace(kept, end, read)?;
        overwrite(&mut self.outlines, kept, outlines.as_slice());
        Ok(())
    }

    /// Puts the rows that were read in the place of as many behind the first, which stay, and has the patch made in what
    /// is live.
    fn overwrite(
        &mut self,
        alloc: Global,
        kept: usize,
        read: RowList,
        behind: usize,
        patch: &LivePatch,
    ) -> Result<(), AllocError>
        requires as_many { kept + length read + behind ≡ length self.old.rows }
        requires inside { AreWithin (lengths_past patch.now.before (report_live patch.now.middle))
            (live_lengths (report_live self.old)) }
        ensures rows { OnOk result
            (self.new.rows ≡ take kept self.old.rows ++ read ++ drop (length self.old.rows - behind) self.old.rows) }
        ensures live { OnOk result (report_live self.new
            ≡ overwritten_live patch.now.before (report_live patch.now.middle) (report_live self.old)) }
        ensures collected { OnOk result (self.new.collected ≡ self.old.collected) }
        ensures err { OnErr result (self.new ≡ self.old) }
    {
        let (before, middle) = (&patch.before, &patch.middle);
        let tokens = patched_tokens(alloc, &self.report.tokens, before.tokens, &middle.tokens)?;
        self.overwrite_rows(alloc, kept, read, behind)?;
        overwrite_live(&mut self.report, tokens, before, middle);
        Ok(())
    }

    /// Puts the rows that were read in the place of those between the first and the last, which it moves where they
    /// stand, and makes anew what is live with them.
    fn replace_anew(
        &mut self,
        alloc: Global,
        commands: &[Command],
        kept: usize,
        read: RowList,
        behind: usize,
        shift: &Shift,
    ) -> Result<(), AllocError>
        requires lasted { HasLasted commands.now self.old }
        requires few { kept + behind ≤ length self.old.rows }
        requires may_move { AllByRecursion (MayMove shift.now.from shift.now.to)
            (drop (length self.old.rows - behind) self.old.rows) }
        requires stay { shift.now.from ≡ shift.now.to
            → map (shifted_row shift.now.from shift.now.to) (drop (length self.old.rows - behind) self.old.rows)
            ≡ drop (length self.old.rows - behind) self.old.rows }
        ensures ok { OnOk result (IsGathered (take kept self.old.rows ++ read
            ++ map (shifted_row shift.now.from shift.now.to) (drop (length self.old.rows - behind) self.old.rows))
            self.new) }
        ensures err { OnErr result (self.new ≡ self.old) }
    {
        let live = live_of(alloc, self, commands, kept, read.as_slice(), behind, shift)?;
        self.replace_rows(alloc, kept, read, behind, shift)?;
        self.set_live(alloc, live);
        Ok(())
    }

    /// Puts the rows that were read in the place of those between the first and the last, which it moves where they
    /// stand. Where nothing moves, and with them as much is live as before, what they make live is put in the place of
    /// as much; else what is live is made anew.
    pub(crate) fn replace(
        &mut self,
        alloc: Global,
        commands: &[Command],
        kept: usize,
        read: RowList,
        behind: usize,
        shift: &Shift,
    ) -> Result<(), AllocError>
        requires lasted { HasLasted commands.now self.old }
        requires collected { self.old.collected ≡ [] }
        requires read_lasted { AllByRecursion Lasts read }
        requires few { kept + behind ≤ length self.old.rows }
        requires may_move { AllByRecursion (MayMove shift.now.from shift.now.to)
            (drop (length self.old.rows - behind) self.old.rows) }
        requires stay { shift.now.from ≡ shift.now.to
            → map (shifted_row shift.now.from shift.now.to) (drop (length self.old.rows - behind) self.old.rows)
            ≡ drop (length self.old.rows - behind) self.old.rows }
        ensures ok { OnOk result (IsGathered (take kept self.old.rows ++ read
            ++ map (shifted_row shift.now.from shift.now.to) (drop (length self.old.rows - behind) self.old.rows))
            self.new) }
        ensures err { OnErr result (self.new ≡ self.old) }
    {
        match patch_of(alloc, self, commands, kept, read.as_slice(), behind, shift)? {
            Some(patch) => self.overwrite(alloc, kept, read, behind, &patch),
            None => self.replace_anew(alloc, commands, kept, read, behind, shift),
        }
    }
}
