//! What is kept of objects.

ghost use Rattle.std.specs.Prelude.{◌≡◌, ◌<◌, ◌++◌, ◌∷◌, [], List, length, map, replicate, slice_get, slice_set, slice_index_or, Some, IfOk, OnOk, OnErr};
ghost use Rattle.hk_symmem.specs.declared.write.GuardedWrite.{GuardedWrite};

use crate::write::GuardedWrite;
use ir_layout::Layout;
use std::alloc::{AllocError, Global};

// The size of an object in bytes, where it is no constant, and the writes to it, the earliest first.
#[derive(Drop)]
pub(crate) struct Row {
    pub(crate) size: u64,
    pub(crate) writes: Vec<GuardedWrite>,
}

// The rows of a layout's objects, without writes.
pub(crate) fn rows_of(alloc: Global, layout: &Layout) -> Result<Vec<Row>, AllocError>
    ensures sizes { IfOk result (λ rs. map (λ r. r.size) rs.items ≡ map (λ o. o.size) layout.now.objects) }
    ensures writes { IfOk result (λ rs. map (λ r. r.writes.items) rs.items ≡ replicate (length layout.now.objects) []) }
{
    let mut rows = Vec::new(alloc);
    for object in 0..layout.objects() {
        rows.push(Row {
            size: layout.object_size(object),
            writes: Vec::new(alloc),
        })?;
    }
    Ok(rows)
}

// The same rows once more.
pub(crate) fn copied(alloc: Global, rows: &[Row]) -> Result<Vec<Row>, AllocError>
    ensures sizes { IfOk result (λ rs. map (λ r. r.size) rs.items ≡ map (λ r. r.size) rows.now) }
    ensures writes { IfOk result (λ rs. map (λ r. r.writes.items) rs.items ≡ map (λ r. r.writes.items) rows.now) }
{
    let mut copies = Vec::new(alloc);
    for row in rows {
        copies.push(Row {
            size: row.size,
            writes: Vec::from_slice(alloc, row.writes.as_slice())?,
        })?;
    }
    Ok(copies)
}

// The size that is kept of an object.
pub(crate) fn size_at(rows: &[Row], object: usize) -> u64
    requires { object < length rows.now }
    ensures { slice_get (map (λ r. r.size) rows.now) object ≡ Some result }
{
    rows[object].size
}

// The writes to an object, the earliest first.
pub(crate) fn writes_of(rows: &[Row], object: usize) -> &[GuardedWrite]
    requires { object < length rows.now }
    ensures { result.now ≡ slice_index_or (map (λ r. r.writes.items) rows.now) object [] }
{
    rows[object].writes.as_slice()
}

// One more write to an object, behind the others.
pub(crate) fn push_write(
    rows: &mut Vec<Row>,
    object: usize,
    w: GuardedWrite,
) -> Result<(), AllocError>
    requires { object < length rows.old.items }
    ensures sizes { map (λ r. r.size) rows.new.items ≡ map (λ r. r.size) rows.old.items }
    ensures written { OnOk result (map (λ r. r.writes.items) rows.new.items ≡ slice_set (map (λ r. r.writes.items) rows.old.items) object (slice_index_or (map (λ r. r.writes.items) rows.old.items) object [] ++ w ∷ [])) }
    ensures err { OnErr result (map (λ r. r.writes.items) rows.new.items ≡ map (λ r. r.writes.items) rows.old.items) }
{
    rows[object].writes.push(w)?;
    Ok(())
}
