//! The unit that the compiler is measured on: 2,000 procedures, each of which calls the next, in four ways.
//! `specs/Generated` says what its text is.
#![tactic(auto)]

ghost use Rattle.std.specs.Prelude.{◌≡◌, ◌<◌, ◌++◌, string_bytes, IfOk, OnOk};
ghost use Rattle.cmm_generated.specs.Generated.{first_lines, generated, procedure_line, table_line};

use std::alloc::{AllocError, Global};
use std::fmt::Write;

/// How many procedures are alike.
const PROCEDURES: u64 = 2000;

/// The text of the unit, whose `main` gives the first procedure this number. The result of that program is
/// the number plus 999,000, since the numbers of the table run twice through 0 to 999.
pub fn generate(alloc: Global, number: u64) -> Result<Vec<u8>, AllocError>
    ensures { IfOk result (λ text. text.items ≡ generated number) }
{
    let mut text = String::new(alloc);
    put_first_lines(&mut text, number)?;
    for i in 0..PROCEDURES {
        put_procedure(&mut text, i)?;
    }
    writeln!(text, "p2000(bits64 x) {{ return (x); }}")?;
    Ok(text.into_bytes())
}

/// Writes the lines before those of the procedures that are alike.
fn put_first_lines(text: &mut String, number: u64) -> Result<(), AllocError>
    ensures { OnOk result (string_bytes text.new ≡ string_bytes text.old ++ first_lines number) }
{
    writeln!(text, "export main;")?;
    put_table(text, number)?;
    writeln!(text, "main() {{ bits64 r; r = p0({number}); return (r); }}")?;
    writeln!(text, "w(bits64 x, bits64 k) {{ cut to k(x); }}")
}

/// Writes the line of the table.
fn put_table(text: &mut String, number: u64) -> Result<(), AllocError>
    ensures { OnOk result (string_bytes text.new ≡ string_bytes text.old ++ table_line number) }
{
    let first = number % 1000;
    write!(text, "section \"data\" {{ t: bits64 {{ {first}")?;
    for i in 1..PROCEDURES {
        let cell = (first + i) % 1000;
        write!(text, ", {cell}")?;
    }
    writeln!(text, " }}; }}")
}

/// Writes the line of procedure `i`.
fn put_procedure(text: &mut String, i: u64) -> Result<(), AllocError>
    requires { i < 2000 }
    ensures { OnOk result (string_bytes text.new ≡ string_bytes text.old ++ procedure_line i) }
{
    let next = i + 1;
    let offset = 8 * i;
    match i % 4 {
        0 => writeln!(
            text,
            "p{i}(bits64 x) {{ bits64 r; r = p{next}(x + bits64[t + {offset}]); return (r); }}"
        ),
        1 => writeln!(
            text,
            "p{i}(bits64 x) {{ jump p{next}(x + bits64[t + {offset}]); }}"
        ),
        2 => writeln!(
            text,
            "p{i}(bits64 x) {{ bits64 r; r = p{next}(x + bits64[t + {offset}]) also returns to k; return (r); continuation k(r): return (r); }}"
        ),
        _ => writeln!(
            text,
            "p{i}(bits64 x) {{ bits64 r; r = w(x + bits64[t + {offset}], k) also cuts to k; return <1/1> (r); continuation k(r): r = p{next}(r); return <0/1> (r); }}"
        ),
    }
}
