// Flat programs as lines.

use br_flatimp::{Cond, FlatFunc, Operand, Stmt};
use br_flatten::flatten;
use br_measure::check;
use br_sexpr::{MOST_BYTES, read};
use br_syntax::from_tree;
use std::alloc::Global;
use std::fmt::Write;
use std::test::Fail;

/// Fails where a text has other flat functions than the lines beside it.
pub(crate) fn show_alike(
    rt: &(impl Print + AllocGlobal),
    rows: &[(&str, &str)],
) -> Result<(), Fail> {
    for (text, expected) in rows {
        let found = shown(rt.alloc(), text)?;
        if found.as_str() != *expected {
            rt.println(format_args!("{text}\n{found}{expected}"))?;
            return Err(Fail::new("other statements"));
        }
    }
    Ok(())
}

/// The flat functions of a text, one a line: the arguments, the results,
/// the count of names, and the statements.
pub(crate) fn shown(alloc: Global, text: &str) -> Result<String, Fail> {
    if text.len() > MOST_BYTES {
        return Err(Fail::new("a long text"));
    }
    let program = from_tree(alloc, read(alloc, text.as_bytes())?.as_slice())?;
    let flat = flatten(alloc, &check(alloc, program)?)?;
    let mut text = String::new(alloc);
    for f in flat.funcs.as_slice() {
        write_function(&mut text, f)?;
    }
    Ok(text)
}

fn write_function(text: &mut String, f: &FlatFunc) -> Result<(), Fail> {
    write_names(text, f.args.as_slice())?;
    write!(text, " -> ")?;
    write_names(text, f.results.as_slice())?;
    write!(text, " of {}:", f.names)?;
    write_statements(text, f.body.as_slice())?;
    write!(text, "\n")?;
    Ok(())
}

fn write_names(text: &mut String, names: &[u32]) -> Result<(), Fail> {
    write!(text, "(")?;
    for (i, name) in names.iter().enumerate() {
        if i > 0 {
            write!(text, " ")?;
        }
        write!(text, "{name}")?;
    }
    write!(text, ")")?;
    Ok(())
}

#[cycle(write)]
fn write_statements(text: &mut String, body: &[Stmt]) -> Result<(), Fail> {
    for s in body {
        write_statement(text, s)?;
    }
    Ok(())
}

#[cycle(write)]
fn write_statement(text: &mut String, s: &Stmt) -> Result<(), Fail> {
    match s {
        Stmt::Lit(x, n) => write!(text, " lit {x} {n};")?,
        Stmt::Copy(x, y) => write!(text, " copy {x} {y};")?,
        Stmt::Op(x, op, y, z) => {
            write!(text, " {op:?} {x} {y} ")?;
            write_operand(text, *z)?;
            write!(text, ";")?;
        }
        Stmt::Load(x, size, y, offset) => write!(text, " load {size:?} {x} {y} {offset};")?,
        Stmt::Store(size, y, z, offset) => write!(text, " store {size:?} {y} {z} {offset};")?,
        Stmt::Table(x, size, bytes, y) => {
            let many = bytes.len();
            write!(text, " table {size:?} {x} {many} {y};")?;
        }
        Stmt::Stackalloc(x, n, body) => {
            write!(text, " stackalloc {x} {n} [")?;
            write_statements(text, body.as_slice())?;
            write!(text, " ]")?;
        }
        Stmt::If(test, first, second) => {
            write!(text, " if ")?;
            write_test(text, *test)?;
            write!(text, " [")?;
            write_statements(text, first.as_slice())?;
            write!(text, " ] [")?;
            write_statements(text, second.as_slice())?;
            write!(text, " ]")?;
        }
        Stmt::Loop(first, test, last) => {
            write!(text, " loop [")?;
            write_statements(text, first.as_slice())?;
            write!(text, " ] ")?;
            write_test(text, *test)?;
            write!(text, " [")?;
            write_statements(text, last.as_slice())?;
            write!(text, " ]")?;
        }
        Stmt::Call(xs, g, ys) => {
            write!(text, " call ")?;
            write_names(text, xs.as_slice())?;
            write!(text, " {g} ")?;
            write_names(text, ys.as_slice())?;
            write!(text, ";")?;
        }
        Stmt::Read(x, y) => write!(text, " read {x} {y};")?,
        Stmt::Write(y, z) => write!(text, " write {y} {z};")?,
    }
    Ok(())
}

fn write_operand(text: &mut String, z: Operand) -> Result<(), Fail> {
    match z {
        Operand::Name(y) => write!(text, "{y}")?,
        Operand::Const(c) => write!(text, "#{c}")?,
    }
    Ok(())
}

fn write_test(text: &mut String, test: Cond) -> Result<(), Fail> {
    match test {
        Cond::NonZero(y) => write!(text, "{y}")?,
        Cond::Compare(rel, y, z) => write!(text, "{rel:?} {y} {z}")?,
    }
    Ok(())
}
