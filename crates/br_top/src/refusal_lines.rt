// The line on standard error for each refusal.

ghost use Rattle.std.specs.Prelude.{◌≡◌, ◌++◌, ◌∷◌, IfOk, OnOk};
ghost use Rattle.std.specs.Fmt.{decimal};
ghost use Rattle.br_top.specs.Refusals.{number_fields, refused_line, text_fault_line};
ghost use Rattle.br_top.specs.Refusals.{shape_fault_line, name_fault_line, refusal_line};
ghost use Rattle.br_top.specs.Refusals.{image_fault_line, script_fault_line};
ghost use Rattle.br_top.specs.Refusals.{trace_fault_line, reason_line};

use crate::trouble::Reason;
use br_base::NoMemory;
use br_compile::Refusal;
use br_image::{ImageFault, ScriptFault, TraceFault};
use br_measure::NameFault;
use br_sexpr::TextFault;
use br_syntax::ShapeFault;
use std::alloc::Global;

/// The line for a refusal: `brc: refused`, the name of its kind and its numbers.
pub(crate) fn reason_line(alloc: Global, reason: &Reason) -> Result<Vec<u8>, NoMemory>
    ensures { IfOk result (λ line. line.items ≡ reason_line reason.now) }
{
    match reason {
        Reason::TooLong => refused_line(alloc, "InputTooLong", &[]),
        Reason::Source(refusal) => refusal_line(alloc, refusal),
        Reason::Image(fault) => image_fault_line(alloc, *fault),
        Reason::Script(fault) => script_fault_line(alloc, *fault),
        Reason::TextTooLong => refused_line(alloc, "TextTooLong", &[]),
        Reason::UnknownEntry => refused_line(alloc, "UnknownEntry", &[]),
        Reason::WrongCount(count) => refused_line(alloc, "WrongCount", &[*count]),
        Reason::Trace(fault) => trace_fault_line(alloc, *fault),
    }
}

fn refusal_line(alloc: Global, refusal: &Refusal) -> Result<Vec<u8>, NoMemory>
    ensures { IfOk result (λ line. line.items ≡ refusal_line refusal.now) }
{
    match refusal {
        Refusal::InputTooLong => refused_line(alloc, "InputTooLong", &[]),
        Refusal::Text(fault) => text_fault_line(alloc, *fault),
        Refusal::Shape(fault) => shape_fault_line(alloc, *fault),
        Refusal::Names(fault) => name_fault_line(alloc, *fault),
    }
}

fn text_fault_line(alloc: Global, fault: TextFault) -> Result<Vec<u8>, NoMemory>
    ensures { IfOk result (λ line. line.items ≡ text_fault_line fault) }
{
    match fault {
        TextFault::BadByte(at) => refused_line(alloc, "BadByte", &[at]),
        TextFault::BadNumber(at) => refused_line(alloc, "BadNumber", &[at]),
        TextFault::ExtraClose(at) => refused_line(alloc, "ExtraClose", &[at]),
        TextFault::Unclosed(at) => refused_line(alloc, "Unclosed", &[at]),
        TextFault::TooDeep(at) => refused_line(alloc, "TooDeep", &[at]),
    }
}

fn shape_fault_line(alloc: Global, fault: ShapeFault) -> Result<Vec<u8>, NoMemory>
    ensures { IfOk result (λ line. line.items ≡ shape_fault_line fault) }
{
    match fault {
        ShapeFault::BadForm(at) => refused_line(alloc, "BadForm", &[at]),
        ShapeFault::BadSize(at) => refused_line(alloc, "BadSize", &[at]),
        ShapeFault::BadByteValue(at) => refused_line(alloc, "BadByteValue", &[at]),
        ShapeFault::TooMany(at) => refused_line(alloc, "TooMany", &[at]),
        ShapeFault::Repeated(at) => refused_line(alloc, "Repeated", &[at]),
    }
}

fn name_fault_line(alloc: Global, fault: NameFault) -> Result<Vec<u8>, NoMemory>
    ensures { IfOk result (λ line. line.items ≡ name_fault_line fault) }
{
    match fault {
        NameFault::DuplicateFunction(at) => refused_line(alloc, "DuplicateFunction", &[at]),
        NameFault::UnknownFunction(at) => refused_line(alloc, "UnknownFunction", &[at]),
        NameFault::WrongArguments(at) => refused_line(alloc, "WrongArguments", &[at]),
        NameFault::WrongResults(at) => refused_line(alloc, "WrongResults", &[at]),
        NameFault::UnknownAction(at) => refused_line(alloc, "UnknownAction", &[at]),
        NameFault::TooLarge(bulk) => refused_line(alloc, "TooLarge", &[bulk]),
        NameFault::Recursion(function) => refused_line(alloc, "Recursion", &[function]),
        NameFault::StackTooDeep(function, measure) => {
            refused_line(alloc, "StackTooDeep", &[function, measure])
        }
    }
}

fn image_fault_line(alloc: Global, fault: ImageFault) -> Result<Vec<u8>, NoMemory>
    ensures { IfOk result (λ line. line.items ≡ image_fault_line fault) }
{
    match fault {
        ImageFault::BadLine(line) => refused_line(alloc, "BadLine", &[line]),
        ImageFault::BadOrder(line) => refused_line(alloc, "BadOrder", &[line]),
        ImageFault::BadOffset(line) => refused_line(alloc, "BadOffset", &[line]),
        ImageFault::Truncated(line) => refused_line(alloc, "Truncated", &[line]),
    }
}

fn script_fault_line(alloc: Global, fault: ScriptFault) -> Result<Vec<u8>, NoMemory>
    ensures { IfOk result (λ line. line.items ≡ script_fault_line fault) }
{
    match fault {
        ScriptFault::BadScriptLine(line) => refused_line(alloc, "BadScriptLine", &[line]),
        ScriptFault::ScriptEnds(line) => refused_line(alloc, "ScriptEnds", &[line]),
    }
}

fn trace_fault_line(alloc: Global, fault: TraceFault) -> Result<Vec<u8>, NoMemory>
    ensures { IfOk result (λ line. line.items ≡ trace_fault_line fault) }
{
    match fault {
        TraceFault::BadTraceLine(line) => refused_line(alloc, "BadTraceLine", &[line]),
    }
}

// The line for a refusal of this kind with these numbers.
fn refused_line(alloc: Global, kind: &str, numbers: &[u32]) -> Result<Vec<u8>, NoMemory>
    ensures { IfOk result (λ line. line.items ≡ refused_line kind.now numbers.now) }
{
    let mut line = Vec::new(alloc);
    line.extend_from_slice(b"brc: refused ")?;
    line.extend_from_slice(kind.as_bytes())?;
    push_numbers(alloc, &mut line, numbers)?;
    line.push(b'\n')?;
    Ok(line)
}

// Adds each number in decimal, after one space.
fn push_numbers(alloc: Global, line: &mut Vec<u8>, numbers: &[u32]) -> Result<(), NoMemory>
    ensures { OnOk result (line.new.items ≡ line.old.items ++ number_fields numbers.now) }
{
    for number in numbers {
        push_number(alloc, line, *number)?;
    }
    Ok(())
}

fn push_number(alloc: Global, line: &mut Vec<u8>, number: u32) -> Result<(), NoMemory>
    ensures { OnOk result (line.new.items ≡ line.old.items ++ 32 ∷ decimal number) }
{
    let digits = format!(in alloc; "{number}")?;
    line.push(b' ')?;
    line.extend_from_slice(digits.as_bytes())?;
    Ok(())
}
