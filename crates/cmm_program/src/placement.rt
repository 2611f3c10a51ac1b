//! Where the code of each procedure and the parts of its frames lie, and the test whether a program may run there.

ghost use Rattle.std.specs.List.{list_all};
ghost use Rattle.std.specs.Prelude.{◌≡◌, ◌↔◌, ◌+◌, ◌≤◌, ◌<◌, ◌^◌, IsTrue, All, IfSome, slice_get};
ghost use Rattle.cmm_program.specs.Layout.{aligned_up, stackdata_size, stackdata_labels};
ghost use Rattle.cmm_program.specs.Frames.{stackdata_offset};
ghost use Rattle.cmm_program.specs.Placed.{is_code_address, is_frame_size, is_pair_in, apart, pairs_apart, are_pairs, are_labels, is_stackdata_at, is_stackdata, is_row_placed, are_rows_placed, ascend_from, IsPlaced};
ghost use Rattle.cmm_program.specs.InRange.{FitsFrames, IsInRange, is_item};
ghost use Rattle.cmm_program.specs.Limits.{stackdata_limit};

use crate::procedure::{Proc, StackItem};
use crate::program::Program;
use cmm_items::Items;

/// Where one procedure's code and the parts of its frames lie. Offsets are in bytes, from the frame's address.
pub struct PlaceRow {
    /// The address of the code.
    pub code: u64,
    /// The size of a frame, in bytes.
    pub frame: u32,
    /// The offset of each continuation's pair of words.
    pub pairs: Items<u32>,
    /// The offset of each stackdata label.
    pub stack: Items<u32>,
}

/// In one place, so that whoever lets one go has one call to prove.
impl Drop for PlaceRow {
    fn drop(self) {
        let Self {
            code: _,
            frame: _,
            pairs: _,
            stack: _,
        } = self;
    }
}

/// A row for each procedure of a program, in their order.
pub struct Placement {
    pub rows: Items<PlaceRow>,
}

/// In one place, so that whoever lets one go has one call to prove.
impl Drop for Placement {
    fn drop(self) {
        let Self { rows: _ } = self;
    }
}

/// The least multiple of an alignment that is not below a place.
fn next_aligned(align: u32, place: u64) -> u64
    requires align { 0 < align }
    requires place { place ≤ stackdata_limit }
    ensures place { result ≡ aligned_up align place }
    ensures near { result < 2 ^ 33 }
{
    let align = u64::from(align);
    (place + (align - 1)) / align * align
}

/// The bytes of stackdata, from the first item to the end of the last.
fn size_of_stackdata(items: &[StackItem]) -> u64
    requires items { IsTrue (list_all is_item items.now) }
    requires size { stackdata_size items.now ≤ stackdata_limit }
    ensures { result ≡ stackdata_size items.now }
{
    let mut place = 0;
    for item in items {
        place = next_aligned(item.align, place) + u64::from(item.length);
    }
    place
}

/// The place of the first stackdata label, if there is one.
fn first_label(items: &[StackItem]) -> Option<u64>
    requires items { IsTrue (list_all is_item items.now) }
    requires size { stackdata_size items.now ≤ stackdata_limit }
    ensures { result ≡ slice_get (stackdata_labels items.now) 0 }
{
    let mut place = 0;
    for item in items {
        let here = next_aligned(item.align, place);
        if item.label {
            return Some(here);
        }
        place = here + u64::from(item.length);
    }
    None
}

/// Whether the labels among some items stand just at these offsets, from a base on.
fn labels_stand_at(base: u64, items: &[StackItem], offsets: &[u32]) -> bool
    requires base { base < 2 ^ 32 }
    requires items { IsTrue (list_all is_item items.now) }
    requires size { stackdata_size items.now ≤ stackdata_limit }
    ensures { result ≡ are_labels base items.now offsets.now }
{
    let mut place = 0;
    let mut left = offsets;
    for item in items {
        let here = next_aligned(item.align, place);
        place = here + u64::from(item.length);
        if item.label {
            let Some((offset, others)) = left.split_first() else {
                return false;
            };
            if u64::from(*offset) != base + here {
                return false;
            }
            left = others;
        }
    }
    left.is_empty()
}

/// Whether code may begin at an address: a multiple of 4, from 0x10000 and below 0x40000000.
fn is_code_start(address: u64) -> bool
    ensures { result ≡ is_code_address address }
{
    address % 4 == 0 && address >= 0x1_0000 && address < 0x4000_0000
}

/// Whether a frame of a procedure may have this size, in bytes.
fn frame_may_have(p: &Proc, size: u32) -> bool
    requires { FitsFrames p.now }
    ensures { result ≡ is_frame_size p.now size }
{
    let most = 8 * u64::from(p.tokens) + size_of_stackdata(p.stack.as_slice()) + 160;
    size % 16 == 0 && u64::from(size) <= most
}

/// Whether a pair of words may stand at an offset of a frame of this size.
fn is_pair_offset(frame: u32, offset: u32) -> bool
    ensures { result ≡ is_pair_in frame offset }
{
    offset % 8 == 0 && u64::from(offset) + 16 <= u64::from(frame)
}

/// Whether each pair lies in a frame of this size.
fn pairs_lie_inside(frame: u32, pairs: &[u32]) -> bool
    ensures { result ≡ list_all (is_pair_in frame) pairs.now }
{
    for offset in pairs {
        if !is_pair_offset(frame, *offset) {
            return false;
        }
    }
    true
}

/// Whether `size` bytes from an offset on have none in common with the pairs at these offsets.
fn lies_apart(place: u64, size: u64, pairs: &[u32]) -> bool
    requires { place + size < 2 ^ 63 }
    ensures { result ≡ list_all (λ other. apart place size other) pairs.now }
{
    for other in pairs {
        let other = u64::from(*other);
        if size > 0 && place + size > other && other + 16 > place {
            return false;
        }
    }
    true
}

/// Whether no two pairs have a byte in common.
fn pairs_lie_apart(pairs: &[u32]) -> bool
    ensures { result ≡ pairs_apart pairs.now }
{
    let mut left = pairs;
    while let Some((offset, others)) = left.split_first() {
        if !lies_apart(u64::from(*offset), 16, others) {
            return false;
        }
        left = others;
    }
    true
}

/// Whether each code begins above the one before.
fn codes_ascend(rows: &[PlaceRow]) -> bool
    ensures { result ≡ ascend_from 0 rows.now }
{
    let mut last = 0;
    for row in rows {
        if row.code <= last {
            return false;
        }
        last = row.code;
    }
    true
}

impl PlaceRow {
    /// Whether there is a pair for each continuation, inside the frame and apart from one another.
    fn has_pairs(&self, p: &Proc) -> bool
        ensures { result ≡ are_pairs p.now self.now }
    {
        let pairs = self.pairs.as_slice();
        pairs.len() == p.conts.len()
            && pairs_lie_inside(self.frame, pairs)
            && pairs_lie_apart(pairs)
    }

    /// Where the stackdata begins in the frame, as its first label shows.
    fn stackdata_base(&self, p: &Proc) -> Option<u64>
        requires { FitsFrames p.now }
        ensures base { result ≡ stackdata_offset p.now self.now }
        ensures bound { IfSome result (λ base. base < 2 ^ 32) }
    {
        let offset = self.stack.get(0)?;
        let place = first_label(p.stack.as_slice())?;
        Some(u64::from(*offset).saturating_sub(place))
    }

    /// Whether the stackdata may begin at a base: inside the frame, its labels where the row says, and apart from the
    /// pairs.
    fn has_stackdata_at(&self, base: u64, p: &Proc) -> bool
        requires base { base < 2 ^ 32 }
        requires frames { FitsFrames p.now }
        ensures { result ≡ is_stackdata_at base p.now self.now }
    {
        let items = p.stack.as_slice();
        let size = size_of_stackdata(items);
        base % 16 == 0
            && base + size <= u64::from(self.frame)
            && labels_stand_at(base, items, self.stack.as_slice())
            && lies_apart(base, size, self.pairs.as_slice())
    }

    /// Whether the stackdata labels stand where the row says, if there are any.
    fn has_stackdata(&self, p: &Proc) -> bool
        requires { FitsFrames p.now }
        ensures { result ≡ is_stackdata p.now self.now }
    {
        match self.stackdata_base(p) {
            Some(base) => self.has_stackdata_at(base, p),
            None => labels_stand_at(0, p.stack.as_slice(), self.stack.as_slice()),
        }
    }

    /// Whether a procedure may run with this row.
    fn is_for(&self, p: &Proc) -> bool
        requires { FitsFrames p.now }
        ensures { result ≡ is_row_placed p.now self.now }
    {
        is_code_start(self.code)
            && frame_may_have(p, self.frame)
            && self.has_pairs(p)
            && self.has_stackdata(p)
    }
}

/// Whether there is a row for each procedure, and no other, with which it may run.
fn rows_are_placed(procs: &[Proc], rows: &[PlaceRow]) -> bool
    requires { All FitsFrames procs.now }
    ensures { result ≡ are_rows_placed procs.now rows.now }
{
    let mut left = rows;
    for p in procs {
        let Some((row, others)) = left.split_first() else {
            return false;
        };
        if !row.is_for(p) {
            return false;
        }
        left = others;
    }
    left.is_empty()
}

impl Placement {
    /// Whether a program may run with this placement: each procedure has a row, its code begins where code may, above
    /// that of the procedure before, its frame is within its bound, and pairs and stackdata lie inside the frame, where
    /// the program has them, without a byte in common.
    pub fn valid(&self, p: &Program) -> bool
        requires { IsInRange p.now }
        ensures { IsTrue result ↔ IsPlaced p.now self.now }
    {
        let rows = self.rows.as_slice();
        rows_are_placed(p.procs.as_slice(), rows) && codes_ascend(rows)
    }
}
