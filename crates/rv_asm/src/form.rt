//! The instructions of a part, as bytes, in the form that it has where it begins.

ghost use Rattle.std.specs.Prelude.{◌≡◌, ℕ, ◌+◌, ◌*◌, ◌%◌, ◌<◌, ◌≤◌, ◌^◌, ◌++◌, ◌∷◌, [], length, pos, OnOk, IsTrue, true, false};
ghost use Rattle.std.specs.List.{All};
ghost use Rattle.rv_table.specs.Stands.{code_of};
ghost use Rattle.rv_table.specs.Table.{IsValid};
ghost use Rattle.rv_asm.specs.Assembly.{Fits, IsInner, IsLabel, table_limit};
ghost use Rattle.rv_asm.specs.Filling.{distance};
ghost use Rattle.rv_asm.specs.Reach.{is_near, is_short, near_label, size_at};
ghost use Rattle.rv_asm.specs.ShortForms.{branch_on};
ghost use Rattle.rv_asm.specs.Sizes.{longest, shortest};
ghost use Rattle.rv_asm.specs.inside.Forms.{begins, by_sign, entries, far, far_form, far_jumps, form_as, high, instructions, low, number_of, past_unless, short_form, unfilled};
ghost use Rattle.rv_asm.specs.inside.Sound.{IsCodeAddress};

use crate::part::{Label, Meaning, Part};
use cmm_abi::registers::{HELPER as SCRATCH, RETURN_ADDRESS as LINK, ZERO};
use cmm_words::Cmp;
use rv_code::encode;
use rv_table::Instr;
use std::alloc::AllocError;

/// The bytes of a part.
pub fn size(part: &Part) -> u64
    requires { longest part.now ≤ 2 ^ 30 }
    ensures { result ≡ longest part.now }
{
    match part {
        Part::Single(_) => 4,
        Part::Place(_) => 0,
        Part::Branch { .. } => 12,
        Part::Jump(_) | Part::Call(_) | Part::Address { .. } => 8,
        Part::Table(labels) => 12 * labels.get().len() as u64 + 4,
    }
}

/// The bytes of a part in its shortest form.
pub fn shortest_size(part: &Part) -> u64
    requires { longest part.now ≤ 2 ^ 30 }
    ensures { result ≡ shortest part.now }
{
    match part {
        Part::Single(_) | Part::Branch { .. } | Part::Jump(_) | Part::Call(_) => 4,
        Part::Place(_) => 0,
        Part::Address { .. } => 8,
        Part::Table(labels) => 4 * labels.get().len() as u64 + 4,
    }
}

/// How far back a short branch reaches, and a short jump. Ahead they reach two bytes less.
const BRANCH_REACH: u64 = 1 << 12;

const JUMP_REACH: u64 = 1 << 20;

/// The label of a part that has a short form, and how far that reaches.
pub fn near_label(part: &Part, labels: &[Meaning]) -> Option<(Label, u64)>
    requires { Fits labels.now part.now }
    ensures { result ≡ near_label labels.now part.now }
{
    match part {
        Part::Branch { to, .. } => Some((*to, BRANCH_REACH)),
        Part::Jump(to) | Part::Call(to) => match labels[to.number as usize] {
            Meaning::Inner { .. } => Some((*to, JUMP_REACH)),
            Meaning::Outer { .. } => None,
        },
        _ => None,
    }
}

/// Whether an address is in reach of a form whose first byte stands at another.
fn is_near(reach: u64, to: u64, from: u64) -> bool
    requires to { to ≤ 2 ^ 30 }
    requires from { from ≤ 2 ^ 30 }
    requires reach { reach ≤ 2 ^ 20 }
    ensures { result ≡ is_near reach to from }
{
    from <= to + reach && to + 2 <= from + reach
}

/// Whether a part that begins at an address has its short form.
pub fn is_short(part: &Part, labels: &[Meaning], places: &[u64], from: u64) -> bool
    requires fits { Fits labels.now part.now }
    requires count { length places.now ≡ length labels.now }
    requires addresses { All IsCodeAddress places.now }
    requires from { from ≤ 2 ^ 30 }
    ensures { result ≡ is_short labels.now places.now from part.now }
{
    match near_label(part, labels) {
        Some((label, reach)) => is_near(reach, places[label.number as usize], from),
        None => false,
    }
}

/// The bytes of a part that begins at an address.
pub fn size_at(part: &Part, labels: &[Meaning], places: &[u64], from: u64) -> u64
    requires fits { Fits labels.now part.now }
    requires count { length places.now ≡ length labels.now }
    requires addresses { All IsCodeAddress places.now }
    requires room { from + longest part.now ≤ 2 ^ 30 }
    ensures { result ≡ size_at labels.now places.now from part.now }
{
    if is_short(part, labels, places, from) {
        shortest_size(part)
    } else {
        size(part)
    }
}

/// Adds the bytes of a part that begins at an address. The numbers of symbols in it are 0.
pub fn add_part(
    bytes: &mut Vec<u8>,
    part: &Part,
    labels: &[Meaning],
    places: &[u64],
    from: u64,
) -> Result<(), AllocError>
    requires fits { Fits labels.now part.now }
    requires count { length places.now ≡ length labels.now }
    requires addresses { All IsCodeAddress places.now }
    requires aligned { from % 4 ≡ 0 }
    requires room { from + longest part.now ≤ 2 ^ 30 }
    ensures { OnOk result (bytes.new.items ≡ bytes.old.items ++ code_of (instructions (number_of labels.now places.now unfilled) places.now labels.now from part.now)) }
{
    if is_short(part, labels, places, from) {
        add_short_form(bytes, part, labels, places, from)
    } else {
        add_far_form(bytes, part, labels, places, from)
    }
}

/// How far an address is from another, with its sign.
fn by_sign(to: u64, from: u64) -> i32
    requires to { to ≤ 2 ^ 30 }
    requires from { from ≤ 2 ^ 30 }
    ensures { result ≡ by_sign (distance to from) }
{
    if to >= from {
        (to - from) as i32
    } else {
        -((from - to) as i32)
    }
}

/// The branch on a comparison, from one address to another.
fn near_branch(compare: Cmp, left: u8, right: u8, to: u64, from: u64) -> Instr
    requires to { to ≤ 2 ^ 30 }
    requires from { from ≤ 2 ^ 30 }
    ensures { result ≡ branch_on compare left right (by_sign (distance to from)) }
{
    let (rs1, rs2, imm) = (left, right, by_sign(to, from));
    match compare {
        Cmp::Ne => Instr::Bne { rs1, rs2, imm },
        Cmp::Lt => Instr::Blt { rs1, rs2, imm },
        Cmp::Ge => Instr::Bge { rs1, rs2, imm },
        Cmp::Ltu => Instr::Bltu { rs1, rs2, imm },
        Cmp::Geu => Instr::Bgeu { rs1, rs2, imm },
        _ => Instr::Beq { rs1, rs2, imm },
    }
}

/// Adds the word of a part that is in reach of its label.
fn add_short_form(
    bytes: &mut Vec<u8>,
    part: &Part,
    labels: &[Meaning],
    places: &[u64],
    from: u64,
) -> Result<(), AllocError>
    requires short { is_short labels.now places.now from part.now ≡ true }
    requires fits { Fits labels.now part.now }
    requires count { length places.now ≡ length labels.now }
    requires addresses { All IsCodeAddress places.now }
    requires aligned { from % 4 ≡ 0 }
    requires low { from ≤ 2 ^ 30 }
    ensures { OnOk result (bytes.new.items ≡ bytes.old.items ++ code_of (short_form (number_of labels.now places.now unfilled) labels.now from part.now)) }
{
    match part {
        Part::Branch {
            compare,
            left,
            right,
            to,
        } => {
            let place = places[to.number as usize];
            add(bytes, near_branch(*compare, *left, *right, place, from))
        }
        Part::Jump(to) => {
            let imm = by_sign(places[to.number as usize], from);
            add(bytes, Instr::Jal { rd: ZERO, imm })
        }
        Part::Call(to) => {
            let imm = by_sign(places[to.number as usize], from);
            add(bytes, Instr::Jal { rd: LINK, imm })
        }
        _ => unreachable!(),
    }
}

/// Adds the form of a part that reaches any label.
fn add_far_form(
    bytes: &mut Vec<u8>,
    part: &Part,
    labels: &[Meaning],
    places: &[u64],
    from: u64,
) -> Result<(), AllocError>
    requires fits { Fits labels.now part.now }
    requires count { length places.now ≡ length labels.now }
    requires room { from + longest part.now ≤ 2 ^ 30 }
    ensures { OnOk result (bytes.new.items ≡ bytes.old.items ++ code_of (far_form (number_of labels.now places.now unfilled) labels.now from part.now)) }
{
    match part {
        Part::Single(instruction) => add(bytes, *instruction)?,
        Part::Place(_) => {}
        Part::Branch {
            compare,
            left,
            right,
            to,
        } => {
            add(bytes, past_unless(*compare, *left, *right))?;
            add_far(bytes, SCRATCH, ZERO, number(labels, places, *to, from + 4))?;
        }
        Part::Jump(to) => add_far(bytes, SCRATCH, ZERO, number(labels, places, *to, from))?,
        Part::Call(to) => add_far(bytes, LINK, LINK, number(labels, places, *to, from))?,
        Part::Address { rd, of } => {
            let n = number(labels, places, *of, from);
            add_address(bytes, labels[of.number as usize], *rd, n)?;
        }
        Part::Table(to) => add_table(bytes, to.get().as_slice(), labels, places, from)?,
    }
    Ok(())
}

/// Adds a table that begins at an address: the word of each label, a jump over the rest, and the far jumps that the words lead to.
fn add_table(
    bytes: &mut Vec<u8>,
    to: &[Label],
    labels: &[Meaning],
    places: &[u64],
    from: u64,
) -> Result<(), AllocError>
    requires few { length to.now ≤ table_limit }
    requires inner { All (IsInner labels.now) to.now }
    requires count { length places.now ≡ length labels.now }
    requires room { from ≤ 2 ^ 30 }
    ensures { OnOk result (bytes.new.items ≡ bytes.old.items ++ code_of (far_form (number_of labels.now places.now unfilled) labels.now from (Part.Table to.now))) }
{
    let count = to.len() as u32;
    add_entries(bytes, to, 4 * count + 4)?;
    add(bytes, jump_ahead(8 * count + 4))?;
    add_far_jumps(bytes, to, labels, places, from + u64::from(4 * count + 4))?;
    Ok(())
}

/// Adds a one-word jump for each label, the first one by a number of bytes, and each next one by four more.
fn add_entries(bytes: &mut Vec<u8>, to: &[Label], ahead: u32) -> Result<(), AllocError>
    requires few { length to.now ≤ table_limit }
    requires near { ahead ≤ 4 * table_limit + 4 }
    requires even { ahead % 4 ≡ 0 }
    ensures { OnOk result (bytes.new.items ≡ bytes.old.items ++ code_of (entries ahead to.now)) }
{
    let mut distance = ahead;
    for _ in to {
        add(bytes, jump_ahead(distance))?;
        distance += 4;
    }
    Ok(())
}

/// Adds a far jump to each label, the first one at an address.
fn add_far_jumps(
    bytes: &mut Vec<u8>,
    to: &[Label],
    labels: &[Meaning],
    places: &[u64],
    from: u64,
) -> Result<(), AllocError>
    requires few { length to.now ≤ table_limit }
    requires inner { All (IsInner labels.now) to.now }
    requires count { length places.now ≡ length labels.now }
    requires room { from ≤ 2 ^ 31 }
    ensures { OnOk result (bytes.new.items ≡ bytes.old.items ++ code_of (far_jumps (number_of labels.now places.now unfilled) from to.now)) }
{
    let mut address = from;
    for label in to {
        add_far(
            bytes,
            SCRATCH,
            ZERO,
            number(labels, places, *label, address),
        )?;
        address += 8;
    }
    Ok(())
}

/// Adds a jump through a register by a number, with its link in another.
fn add_far(bytes: &mut Vec<u8>, through: u8, link: u8, n: u64) -> Result<(), AllocError>
    requires through { through < 32 }
    requires link { link < 32 }
    ensures { OnOk result (bytes.new.items ≡ bytes.old.items ++ code_of (far through link n)) }
{
    add(
        bytes,
        Instr::Auipc {
            rd: through,
            imm: high(n),
        },
    )?;
    add(
        bytes,
        Instr::Jalr {
            rd: link,
            rs1: through,
            imm: low(n),
        },
    )?;
    Ok(())
}

/// Adds what gives a register the number of a label with this meaning.
fn add_address(bytes: &mut Vec<u8>, meaning: Meaning, rd: u8, n: u64) -> Result<(), AllocError>
    requires { rd < 32 }
    ensures { OnOk result (bytes.new.items ≡ bytes.old.items ++ code_of (begins meaning rd (high n) ∷ Instr.Addi rd rd (low n) ∷ [])) }
{
    add(bytes, begin(meaning, rd, n))?;
    add(bytes, complete(rd, n))?;
    Ok(())
}

/// The jump of one word by a number of bytes.
fn jump_ahead(distance: u32) -> Instr
    requires { distance < 2 ^ 31 }
    ensures { result ≡ Instr.Jal 0 (pos distance) }
{
    Instr::Jal {
        rd: ZERO,
        imm: distance as i32,
    }
}

/// Adds the bytes of an instruction, the low byte of its word first.
fn add(bytes: &mut Vec<u8>, instruction: Instr) -> Result<(), AllocError>
    requires { IsValid instruction }
    ensures { OnOk result (bytes.new.items ≡ bytes.old.items ++ code_of (instruction ∷ [])) }
{
    bytes.extend_from_slice(&encode(instruction).to_le_bytes())
}

/// How far a label is from an address, or 0 for a symbol.
fn number(labels: &[Meaning], places: &[u64], label: Label, from: u64) -> u64
    requires there { IsLabel labels.now label }
    requires count { length places.now ≡ length labels.now }
    ensures distance { result ≡ number_of labels.now places.now unfilled true label from }
    ensures taken { result ≡ number_of labels.now places.now unfilled false label from }
{
    match labels[label.number as usize] {
        Meaning::Inner { .. } => places[label.number as usize].wrapping_sub(from),
        Meaning::Outer { .. } => 0,
    }
}

/// The rounded upper part of a number.
fn high(n: u64) -> i32
    ensures { result ≡ high n }
{
    ((n / 4096 + u64::from(n % 4096 >= 2048)) % 0x10_0000) as i32
}

/// Its low 12 bits as a signed number.
fn low(n: u64) -> i32
    ensures { result ≡ low n }
{
    let bits = (n % 4096) as i32;
    if bits < 2048 { bits } else { bits - 4096 }
}

/// Past the next two instructions unless the comparison holds.
fn past_unless(compare: Cmp, left: u8, right: u8) -> Instr
    ensures { result ≡ past_unless compare left right }
{
    let (rs1, rs2, imm) = (left, right, 12);
    match compare {
        Cmp::Eq => Instr::Bne { rs1, rs2, imm },
        Cmp::Lt => Instr::Bge { rs1, rs2, imm },
        Cmp::Ge => Instr::Blt { rs1, rs2, imm },
        Cmp::Ltu => Instr::Bgeu { rs1, rs2, imm },
        Cmp::Geu => Instr::Bltu { rs1, rs2, imm },
        _ => Instr::Beq { rs1, rs2, imm },
    }
}

/// The instruction that begins an address: it gives the upper part of a number, relative to pc for a place in this code.
fn begin(meaning: Meaning, rd: u8, n: u64) -> Instr
    ensures { result ≡ begins meaning rd (high n) }
{
    let imm = high(n);
    match meaning {
        Meaning::Inner { .. } => Instr::Auipc { rd, imm },
        Meaning::Outer { .. } => Instr::Lui { rd, imm },
    }
}

/// The instruction that completes it by the low part.
fn complete(rd: u8, n: u64) -> Instr
    ensures { result ≡ Instr.Addi rd rd (low n) }
{
    Instr::Addi {
        rd,
        rs1: rd,
        imm: low(n),
    }
}
