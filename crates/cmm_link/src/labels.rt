//! The rows of exported data labels.

ghost use Rattle.std.specs.Prelude.{◌≡◌, ◌≤◌, ◌++◌, length, map, None, IfOk, OnOk};
ghost use Rattle.std.specs.List.{All};
ghost use Rattle.std.specs.List.Sorted.{IsPermutation, IsStableBy};
ghost use Rattle.cmm_image.specs.ImageFormat.{is_after};
ghost use Rattle.cmm_link.specs.Labels.{AreLabelsOf, exports_at};
ghost use Rattle.cmm_link.specs.inside.Kept.{AreSorted, has_lower_name, kept_after, last_name};
ghost use Rattle.cmm_link.specs.inside.Named.{IsNamedLabel};

use crate::names::copy;
use cmm_image::LabelRow;
use cmm_items::Items;
use cmm_program::Label;
use cmm_words::Name;
use std::alloc::{AllocError, Global};

/// Adds a row for each name under which a label is exported.
fn add_exports(rows: &mut Vec<LabelRow>, links: &[Name], address: u64) -> Result<(), AllocError>
    ensures rows { OnOk result (rows.new.items ≡ rows.old.items ++ map (λ name. record { name = name; address = address }) links.now) }
    ensures named { OnOk result (All IsNamedLabel rows.old.items → All IsNamedLabel rows.new.items) }
{
    for link in links {
        rows.push(LabelRow {
            name: copy(link)?,
            address,
        })?;
    }
    Ok(())
}

/// A row for each name under which a label is exported, in their order.
fn exported(alloc: Global, labels: &[Label], addresses: &[u64]) -> Result<Vec<LabelRow>, AllocError>
    ensures rows { IfOk result (λ rows. rows.items ≡ exports_at labels.now addresses.now) }
    ensures named { IfOk result (λ rows. All IsNamedLabel rows.items) }
{
    let mut rows = Vec::new(alloc);
    for (label, address) in labels.iter().zip(addresses) {
        add_exports(&mut rows, label.links.as_slice(), *address)?;
    }
    Ok(rows)
}

/// Sorts rows by their names. Those of one name stay in their order.
fn sort_by_name(rows: &mut Vec<LabelRow>) -> Result<(), AllocError>
    ensures same { IsPermutation rows.old.items rows.new.items }
    ensures sorted { OnOk result (AreSorted rows.new.items) }
    ensures stable { OnOk result (IsStableBy has_lower_name rows.old.items rows.new.items) }
{
    rows.sort_by(|a, b| a.name.cmp(&b.name))?;
    Ok(())
}

/// Whether a name is after that of the last row.
fn follows(rows: &Items<LabelRow>, name: &Name) -> bool
    ensures { result ≡ is_after (last_name rows.now) name.now }
{
    match rows.last() {
        Some(last) => last.name.cmp(name).is_lt(),
        None => true,
    }
}

/// The rows of sorted ones without those whose name stands before: the first of each name.
fn each_once(alloc: Global, rows: Vec<LabelRow>) -> Result<Items<LabelRow>, AllocError>
    ensures { IfOk result (λ kept. kept ≡ kept_after None rows.items) }
{
    let mut kept = Items::new(alloc);
    for row in rows {
        if follows(&kept, &row.name) {
            kept.push(row)?;
        }
    }
    Ok(kept)
}

/// The rows of labels at these addresses: one for each exported name, in ascending order. An error is want of memory.
pub(crate) fn label_rows(
    alloc: Global,
    labels: &[Label],
    addresses: &[u64],
) -> Result<Items<LabelRow>, AllocError>
    ensures rows { IfOk result (λ rows. AreLabelsOf (exports_at labels.now addresses.now) rows) }
    ensures named { IfOk result (λ rows. All IsNamedLabel rows) }
    ensures few { IfOk result (λ rows. length rows ≤ length (exports_at labels.now addresses.now)) }
{
    let mut rows = exported(alloc, labels, addresses)?;
    sort_by_name(&mut rows)?;
    each_once(alloc, rows)
}
