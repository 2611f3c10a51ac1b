//! The bytes of records.

ghost use Rattle.std.specs.Prelude.{◌≡◌, ◌++◌, None, [], OnOk};
ghost use Rattle.cmm_image.specs.ImageFormat.{saved_register, variable, stack_label, variable_number, continuation, procedure, continuation_number, unwind, span, site, label, global, width, one_if, flags_number, no_return, u8};
ghost use Rattle.cmm_format.specs.Formats.{counted, optional_number};
ghost use Rattle.cmm_image.specs.Places.{place_bytes};
ghost use Rattle.cmm_image.specs.inside.Spellings.{exits, procedure_head, procedure_lists, site_head, site_row_lists};

use crate::procedure::NO_RETURN;
use crate::rows::{
    ContinuationNumber, ContinuationRow, GlobalRow, LabelRow, ProcRow, SavedRegister, SiteRow,
    SpanRow, StackLabelRow, UnwindRow, VariableNumber, VariablePlace, VariableRow,
};
use crate::site::NO_YIELD;
use cmm_format::{
    Write, put_name, put_rows8, put_rows16, put_u8, put_u16, put_u32, put_u64, put_width,
    write_rows,
};
use cmm_words::Width;
use std::alloc::AllocError;

impl Write for SavedRegister {
    ghost spelled = { (saved_register 0 None).spelled };

    fn write(&self, out: &mut Vec<u8>) -> Result<(), AllocError> {
        put_u8(out, self.register)?;
        put_u32(out, self.offset)
    }
}

impl Write for VariableRow {
    ghost spelled = { (variable None).spelled };

    fn write(&self, out: &mut Vec<u8>) -> Result<(), AllocError> {
        put_width(out, self.width)?;
        put_u8(out, flag(self.invariant))?;
        put_name(out, &self.kind)
    }
}

/// 1 for true.
pub(crate) fn flag(set: bool) -> u8
    ensures { result ≡ one_if set }
{
    if set { 1 } else { 0 }
}

impl Write for StackLabelRow {
    ghost spelled = { (stack_label 0 None).spelled };

    fn write(&self, out: &mut Vec<u8>) -> Result<(), AllocError> {
        put_u32(out, self.offset)
    }
}

impl Write for VariableNumber {
    ghost spelled = { (variable_number 0 None).spelled };

    fn write(&self, out: &mut Vec<u8>) -> Result<(), AllocError> {
        put_u16(out, self.0)
    }
}

impl Write for ContinuationRow {
    ghost spelled = { (continuation 0 0 0 None).spelled };

    fn write(&self, out: &mut Vec<u8>) -> Result<(), AllocError> {
        put_u32(out, self.pair)?;
        put_u64(out, self.code)?;
        put_rows8(out, self.parameters.as_slice())
    }
}

impl Write for ProcRow {
    ghost spelled = { (procedure 0 None).spelled };

    fn write(&self, out: &mut Vec<u8>) -> Result<(), AllocError> {
        put_procedure_head(out, self)?;
        put_procedure_lists(out, self)
    }
}

/// The fields of a procedure's record before its lists.
pub(crate) fn put_procedure_head(out: &mut Vec<u8>, row: &ProcRow) -> Result<(), AllocError>
    ensures { OnOk result (out.new.items ≡ out.old.items ++ procedure_head row.now) }
{
    put_u64(out, row.code)?;
    put_name(out, &row.name)?;
    put_u32(out, row.frame)?;
    put_u32(out, or_no_return(row.return_at))
}

/// The lists of a procedure's record.
fn put_procedure_lists(out: &mut Vec<u8>, row: &ProcRow) -> Result<(), AllocError>
    ensures { OnOk result (out.new.items ≡ out.old.items ++ procedure_lists row.now) }
{
    put_rows8(out, row.saved.as_slice())?;
    put_rows16(out, row.variables.as_slice())?;
    put_rows16(out, row.stack_labels.as_slice())?;
    put_rows16(out, row.continuations.as_slice())
}

/// The offset of a saved return address, or the mark that there is none.
fn or_no_return(offset: Option<u32>) -> u32
    ensures { result ≡ optional_number no_return offset }
{
    match offset {
        None => NO_RETURN,
        Some(offset) => offset,
    }
}

impl Write for ContinuationNumber {
    ghost spelled = { (continuation_number 0 None).spelled };

    fn write(&self, out: &mut Vec<u8>) -> Result<(), AllocError> {
        put_u16(out, self.0)
    }
}

impl Write for UnwindRow {
    ghost spelled = { (unwind 0 0 None).spelled };

    fn write(&self, out: &mut Vec<u8>) -> Result<(), AllocError> {
        put_u16(out, self.continuation.0)?;
        put_u64(out, self.landing)
    }
}

impl Write for VariablePlace {
    ghost spelled = { place_bytes };

    fn write(&self, out: &mut Vec<u8>) -> Result<(), AllocError> {
        match self {
            VariablePlace::Dead => out.push(0)?,
            VariablePlace::Slot(offset) => {
                out.push(1)?;
                put_u32(out, *offset)?;
            }
            VariablePlace::Register(register) => {
                out.push(2)?;
                put_u8(out, *register)?;
            }
        }
        Ok(())
    }
}

impl Write for SpanRow {
    ghost spelled = { (span None).spelled };

    fn write(&self, out: &mut Vec<u8>) -> Result<(), AllocError> {
        put_u64(out, self.token)?;
        put_u64(out, self.value)
    }
}

impl Write for SiteRow {
    ghost spelled = { (site 0 [] None).spelled };

    fn write(&self, out: &mut Vec<u8>) -> Result<(), AllocError> {
        put_u64(out, self.return_address)?;
        put_u32(out, self.procedure)?;
        put_site_head(out, self)?;
        put_site_lists(out, self)
    }
}

/// The fields of a site's record between its procedure and its lists.
pub(crate) fn put_site_head(out: &mut Vec<u8>, row: &SiteRow) -> Result<(), AllocError>
    ensures { OnOk result (out.new.items ≡ out.old.items ++ site_head row.now) }
{
    put_u32(out, row.number)?;
    put_u8(out, flags(row.never_returns, row.aborts))?;
    put_u8(out, or_no_yield(row.yield_values))
}

/// The lists of a site's record.
fn put_site_lists(out: &mut Vec<u8>, row: &SiteRow) -> Result<(), AllocError>
    ensures { OnOk result (out.new.items ≡ out.old.items ++ site_row_lists row.now) }
{
    put_exits(out, row)?;
    write_rows(out, row.variables.as_slice())?;
    put_rows16(out, row.spans.as_slice())
}

/// The results of a site and its exits.
pub(crate) fn put_exits(out: &mut Vec<u8>, row: &SiteRow) -> Result<(), AllocError>
    ensures { OnOk result (out.new.items ≡ out.old.items ++ exits row.now) }
{
    put_results(out, row.results.as_slice())?;
    put_rows8(out, row.returns.as_slice())?;
    put_rows16(out, row.unwinds.as_slice())?;
    put_rows16(out, row.cuts.as_slice())
}

/// The widths of a site's results, behind their count.
fn put_results(out: &mut Vec<u8>, results: &[Width]) -> Result<(), AllocError>
    ensures { OnOk result (out.new.items ≡ out.old.items ++ (counted u8 (λ previous. width)).spelled results.now) }
{
    put_rows8(out, results)
}

/// Bit 0 for a site that never returns, bit 1 for one that aborts.
fn flags(never_returns: bool, aborts: bool) -> u8
    ensures { result ≡ flags_number (never_returns, aborts) }
{
    match (never_returns, aborts) {
        (false, false) => 0,
        (true, false) => 1,
        (false, true) => 2,
        (true, true) => 3,
    }
}

/// The count of yielded values, or the mark that the site is no yield.
fn or_no_yield(count: Option<u8>) -> u8
    ensures { result ≡ optional_number 255 count }
{
    match count {
        None => NO_YIELD,
        Some(count) => count,
    }
}

impl Write for LabelRow {
    ghost spelled = { (label 0 None).spelled };

    fn write(&self, out: &mut Vec<u8>) -> Result<(), AllocError> {
        put_name(out, &self.name)?;
        put_u64(out, self.address)
    }
}

impl Write for GlobalRow {
    ghost spelled = { (global None).spelled };

    fn write(&self, out: &mut Vec<u8>) -> Result<(), AllocError> {
        put_width(out, self.width)?;
        put_name(out, &self.name)
    }
}
