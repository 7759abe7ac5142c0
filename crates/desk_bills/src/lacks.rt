//! What a release lacks besides texts: copyrights, what its documents ship, and packages that are
//! there twice.

ghost use Rattle.std.specs.Prelude.{◌≡◌, ◌++◌, IfOk, OnOk};
ghost use Rattle.std.specs.List.{flat_map};
ghost use Rattle.desk_model.specs.Gaps.{copyright_gaps, gap, one_if, shipment_gaps, twice_gaps};
ghost use Rattle.desk_bills.specs.Lacking.{has_document};

use crate::namesakes::first_document;
use desk_base::Text;
use desk_model::{AttachedRow, Gap, GapKind, PackageRow, says_nothing};
use std::alloc::{AllocError, Global};
use std::collections::BTreeMap;

/// Adds a gap if something holds.
fn add_if(
    gaps: &mut Vec<Gap>,
    holds: bool,
    kind: GapKind,
    document: u32,
    subject: &Text,
) -> Result<(), AllocError>
    ensures { OnOk result (gaps.new.items
        ≡ gaps.old.items ++ one_if holds (gap kind document subject.now)) }
{
    if holds {
        let subject = subject.clone()?;
        gaps.push(Gap {
            kind,
            document,
            subject,
        })?;
    }
    Ok(())
}

/// Adds the packages whose copyright says nothing.
fn add_copyrights(gaps: &mut Vec<Gap>, rows: &[PackageRow]) -> Result<(), AllocError>
    ensures { OnOk result (gaps.new.items ≡ gaps.old.items ++ flat_map copyright_gaps rows.now) }
{
    for row in rows {
        let lacks = says_nothing(&row.copyright);
        add_if(gaps, lacks, GapKind::Copyright, row.document, &row.id)?;
    }
    Ok(())
}

/// Whether a document has one of the packages.
fn has_document(rows: &[PackageRow], document: u32) -> bool
    ensures { result ≡ has_document rows.now document }
{
    rows.iter().any(|row| row.document == document)
}

/// Adds the documents that have none of the packages.
fn add_shipments(
    alloc: Global,
    gaps: &mut Vec<Gap>,
    attached: &[AttachedRow],
    rows: &[PackageRow],
) -> Result<(), AllocError>
    ensures { OnOk result (gaps.new.items
        ≡ gaps.old.items ++ flat_map (shipment_gaps rows.now) attached.now) }
{
    let whole = Text::of(alloc, "")?;
    for document in attached {
        let lacks = !has_document(rows, document.document);
        add_if(gaps, lacks, GapKind::Shipment, document.document, &whole)?;
    }
    Ok(())
}

/// Adds the packages that an earlier document has too.
fn add_twice(alloc: Global, gaps: &mut Vec<Gap>, rows: &[PackageRow]) -> Result<(), AllocError>
    ensures { OnOk result (gaps.new.items
        ≡ gaps.old.items ++ flat_map (twice_gaps rows.now) rows.now) }
{
    let mut firsts = BTreeMap::new(alloc);
    for row in rows {
        let twice = first_document(alloc, &mut firsts, row)? != row.document;
        add_if(gaps, twice, GapKind::Twice, row.document, &row.id)?;
    }
    Ok(())
}

/// What a release lacks besides texts.
pub(crate) fn lacks_of(
    alloc: Global,
    attached: &[AttachedRow],
    rows: &[PackageRow],
) -> Result<Vec<Gap>, AllocError>
    ensures { IfOk result (λ gaps. gaps.items ≡ flat_map copyright_gaps rows.now
        ++ (flat_map (shipment_gaps rows.now) attached.now
        ++ flat_map (twice_gaps rows.now) rows.now)) }
{
    let mut gaps = Vec::new(alloc);
    add_copyrights(&mut gaps, rows)?;
    add_shipments(alloc, &mut gaps, attached, rows)?;
    add_twice(alloc, &mut gaps, rows)?;
    Ok(gaps)
}
