// The text of flat functions: a line for the head, and one for each statement, four blanks further
// in for each statement that it stands in.

use anyhow::Result;
use br_flatimp::{Cond, FlatFunc, Operand, Stmt};
use br_words::Size;
use std::fmt::Write;

/// Adds a function. A name is a number after the letter of names.
pub fn write_function(text: &mut String, letter: char, f: &FlatFunc) -> Result<()> {
    write_bytes(text, f.name.bytes())?;
    write!(text, " ")?;
    write_names(text, letter, f.args.as_slice())?;
    write!(text, " -> ")?;
    write_names(text, letter, f.results.as_slice())?;
    write!(text, ", {} names\n", f.names)?;
    write_statements(text, letter, 1, f.body.as_slice())
}

#[cycle(write)]
fn write_statements(text: &mut String, letter: char, depth: usize, body: &[Stmt]) -> Result<()> {
    for s in body {
        write_statement(text, letter, depth, s)?;
    }
    Ok(())
}

#[cycle(write)]
fn write_statement(text: &mut String, letter: char, depth: usize, s: &Stmt) -> Result<()> {
    let deeper = depth.saturating_add(1);
    indent(text, depth)?;
    match s {
        Stmt::Lit(x, n) => write!(text, "{letter}{x} = {n}\n")?,
        Stmt::Copy(x, y) => write!(text, "{letter}{x} = {letter}{y}\n")?,
        Stmt::Op(x, op, y, z) => {
            write!(text, "{letter}{x} = {op:?} {letter}{y} ")?;
            write_operand(text, letter, *z)?;
        }
        Stmt::Load(x, size, y, offset) => {
            let bytes = bytes_of(*size);
            write!(text, "{letter}{x} = load{bytes} {letter}{y} {offset}\n")?;
        }
        Stmt::Store(size, y, z, offset) => {
            let bytes = bytes_of(*size);
            write!(text, "store{bytes} {letter}{y} {offset} = {letter}{z}\n")?;
        }
        Stmt::Table(x, size, bytes, y) => {
            let read = bytes_of(*size);
            write!(text, "{letter}{x} = table{read}")?;
            write_numbers(text, bytes.as_slice())?;
            write!(text, " {letter}{y}\n")?;
        }
        Stmt::Stackalloc(x, n, body) => {
            write!(text, "stackalloc {letter}{x} {n}\n")?;
            write_statements(text, letter, deeper, body.as_slice())?;
        }
        Stmt::If(test, first, second) => {
            write!(text, "if ")?;
            write_test(text, letter, *test)?;
            write_statements(text, letter, deeper, first.as_slice())?;
            indent(text, depth)?;
            write!(text, "else\n")?;
            write_statements(text, letter, deeper, second.as_slice())?;
        }
        Stmt::Loop(first, test, last) => {
            write!(text, "loop\n")?;
            write_statements(text, letter, deeper, first.as_slice())?;
            indent(text, depth)?;
            write!(text, "while ")?;
            write_test(text, letter, *test)?;
            write_statements(text, letter, deeper, last.as_slice())?;
        }
        Stmt::Call(xs, g, ys) => {
            write_names(text, letter, xs.as_slice())?;
            write!(text, " = call {g} ")?;
            write_names(text, letter, ys.as_slice())?;
            write!(text, "\n")?;
        }
        Stmt::Read(x, y) => write!(text, "{letter}{x} = read {letter}{y}\n")?,
        Stmt::Write(y, z) => write!(text, "write {letter}{y} = {letter}{z}\n")?,
    }
    Ok(())
}

fn write_operand(text: &mut String, letter: char, z: Operand) -> Result<()> {
    match z {
        Operand::Name(y) => write!(text, "{letter}{y}\n")?,
        Operand::Const(c) => write!(text, "{c}\n")?,
    }
    Ok(())
}

fn write_test(text: &mut String, letter: char, test: Cond) -> Result<()> {
    match test {
        Cond::NonZero(y) => write!(text, "{letter}{y}\n")?,
        Cond::Compare(rel, y, z) => write!(text, "{rel:?} {letter}{y} {letter}{z}\n")?,
    }
    Ok(())
}

fn bytes_of(size: Size) -> u32 {
    match size {
        Size::One => 1,
        Size::Two => 2,
        Size::Four => 4,
    }
}

fn write_names(text: &mut String, letter: char, names: &[u32]) -> Result<()> {
    write!(text, "(")?;
    for (i, name) in names.iter().enumerate() {
        if i > 0 {
            write!(text, " ")?;
        }
        write!(text, "{letter}{name}")?;
    }
    write!(text, ")")?;
    Ok(())
}

fn write_numbers(text: &mut String, bytes: &[u8]) -> Result<()> {
    for byte in bytes {
        write!(text, " {byte}")?;
    }
    Ok(())
}

// The bytes of names are ASCII.
fn write_bytes(text: &mut String, bytes: &[u8]) -> Result<()> {
    for byte in bytes {
        text.push(*byte as char)?;
    }
    Ok(())
}

fn indent(text: &mut String, depth: usize) -> Result<()> {
    for _ in 0..depth {
        text.push_str("    ")?;
    }
    Ok(())
}
