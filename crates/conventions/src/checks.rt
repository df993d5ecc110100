//! The checks of a line: its names, that it is the only one of its kind, its numbers, the widths of its cells.
ghost use Rattle.std.specs.Prelude.{◌≡◌, [], Some, slice_index};
ghost use Rattle.rtl_core.specs.declared.machine.Machine.{Machine};
ghost use Rattle.conv_syntax.specs.declared.line.ConvBody.TheVariants as body;
ghost use Rattle.conventions.specs.declared.fact.Fact.TheVariants as fact;
ghost use Rattle.conventions.specs.Names.{instruction_of};
ghost use Rattle.conventions.specs.Facts.{area, error_numbers, fact_of};
ghost use Rattle.conventions.specs.Faults.{checked, error_width_fault, known_instruction, number_fault, service_width_fault, unless, width_fault};

use super::areas::{HEAP_LIMIT, area, meets_heap, meets_stack, offset, stack};
use super::fact::{ErrorNumbers, Fact, ServiceCells};
use super::fault::ConvFault;
use super::instructions::Instructions;
use super::known::{Known, cell_of, service_cells};
use super::said::Said;
use conv_syntax::{ConvBody, ConvCell, ConvLine, ServiceLine, StackLine};
use rtl_core::{Machine, NamedMachine};

/// The width of addresses, numbers and results, and that of a flag.
const WORD: u8 = 32;

const FLAG: u8 = 1;

/// A number of 32 bits, of a line that is the only one of its kind.
fn number(line: u32, is_there: bool, value: u64) -> Result<u32, ConvFault>
    ensures { result ≡ unless (number_fault line 32 is_there value) value }
{
    if is_there {
        return Err(ConvFault::Twice { line });
    }
    match u32::try_from(value) {
        Ok(value) => Ok(value),
        Err(_) => Err(ConvFault::FieldRange { line }),
    }
}

/// The same of 16 bits.
fn short_number(line: u32, is_there: bool, value: u64) -> Result<u16, ConvFault>
    ensures { result ≡ unless (number_fault line 16 is_there value) value }
{
    if is_there {
        return Err(ConvFault::Twice { line });
    }
    match u16::try_from(value) {
        Ok(value) => Ok(value),
        Err(_) => Err(ConvFault::FieldRange { line }),
    }
}

/// The width of a cell, 0 where there is no such cell.
fn width_of(machine: &Machine, cell: u8) -> u8
    ensures { result ≡ slice_index machine.now.widths cell }
{
    match machine.widths.get(cell as usize) {
        None => 0,
        Some(width) => width.bits(),
    }
}

/// The cell has the width that its place asks for.
fn has_width(machine: &Machine, line: u32, asked: u8, cell: u8) -> Result<(), ConvFault>
    ensures { result ≡ unless (width_fault machine.now line asked cell) tt }
{
    let found = width_of(machine, cell);
    if found == asked {
        return Ok(());
    }
    Err(ConvFault::WidthDiffers {
        line,
        left: asked,
        right: found,
    })
}

/// The error cell of a service has 1 bit, where there is one.
fn has_error_width(machine: &Machine, line: u32, cell: Option<u8>) -> Result<(), ConvFault>
    ensures { result ≡ unless (error_width_fault machine.now line cell) tt }
{
    match cell {
        None => Ok(()),
        Some(cell) => has_width(machine, line, FLAG, cell),
    }
}

/// The cells of a service have the widths that their places ask for, from left to right.
fn has_service_widths(machine: &Machine, line: u32, cells: ServiceCells) -> Result<(), ConvFault>
    ensures { result ≡ unless (service_width_fault machine.now line cells) tt }
{
    has_width(machine, line, WORD, cells.number)?;
    has_width(machine, line, WORD, cells.arg_x)?;
    has_width(machine, line, WORD, cells.arg_y)?;
    has_width(machine, line, WORD, cells.arg_z)?;
    has_width(machine, line, WORD, cells.result)?;
    has_error_width(machine, line, cells.error)
}

/// The stack of a `stack` line.
fn stack_fact(
    named: &NamedMachine,
    said: &Said,
    line: u32,
    words: &StackLine,
) -> Result<Fact, ConvFault>
    ensures { result ≡ checked named.now.machine said.now line (fact_of [] named.now (body.Stack words.now)) }
{
    let Some(cell) = cell_of(named, &words.cell) else {
        return Err(ConvFault::Unknown { line });
    };
    if said.stack.is_some() {
        return Err(ConvFault::Twice { line });
    }
    let Some(stack) = stack(&named.machine, words, cell) else {
        return Err(ConvFault::FieldRange { line });
    };
    if meets_heap(said.heap, stack) {
        return Err(ConvFault::FieldRange { line });
    }
    has_width(&named.machine, line, WORD, cell)?;
    Ok(Fact::Stack(stack))
}

/// The heap of a `heap` line.
fn heap_fact(said: &Said, line: u32, base: u64, size: u64) -> Result<Fact, ConvFault>
    ensures { (machine : Machine) → result ≡ checked machine said.now line (Some (fact.Heap (area base size))) }
{
    if said.heap.is_some() {
        return Err(ConvFault::Twice { line });
    }
    let Some(heap) = area(HEAP_LIMIT, base, size) else {
        return Err(ConvFault::FieldRange { line });
    };
    if meets_stack(said.stack, heap) {
        return Err(ConvFault::FieldRange { line });
    }
    Ok(Fact::Heap(heap))
}

/// The cells of a `service` line.
fn service_fact(
    named: &NamedMachine,
    said: &Said,
    line: u32,
    words: &ServiceLine,
) -> Result<Fact, ConvFault>
    ensures { result ≡ checked named.now.machine said.now line (fact_of [] named.now (body.Service words.now)) }
{
    let Some(cells) = service_cells(named, words) else {
        return Err(ConvFault::Unknown { line });
    };
    if said.service.is_some() {
        return Err(ConvFault::Twice { line });
    }
    has_service_widths(&named.machine, line, cells)?;
    Ok(Fact::Service(cells))
}

/// The cell of a `link` line.
fn link_fact(
    named: &NamedMachine,
    said: &Said,
    line: u32,
    cell: &ConvCell,
) -> Result<Fact, ConvFault>
    ensures { result ≡ checked named.now.machine said.now line (fact_of [] named.now (body.Link cell.now)) }
{
    let Some(cell) = cell_of(named, cell) else {
        return Err(ConvFault::Unknown { line });
    };
    if said.link.is_some() {
        return Err(ConvFault::Twice { line });
    }
    has_width(&named.machine, line, WORD, cell)?;
    Ok(Fact::Link(cell))
}

/// The numbers of an `errors` line.
fn errors_fact(
    said: &Said,
    line: u32,
    fault: u64,
    descriptor: u64,
    unknown: u64,
) -> Result<Fact, ConvFault>
    ensures { (machine : Machine) → result ≡ checked machine said.now line (Some (fact.Errors (error_numbers fault descriptor unknown))) }
{
    let is_there = said.errors.is_some();
    let fault = number(line, is_there, fault)?;
    let descriptor = number(line, is_there, descriptor)?;
    let unknown = number(line, is_there, unknown)?;
    Ok(Fact::Errors(ErrorNumbers {
        fault,
        descriptor,
        unknown,
    }))
}

/// The offset of an `args` line, behind a `stack` line.
fn args_fact(said: &Said, line: u32, above: u64) -> Result<Fact, ConvFault>
    ensures { (machine : Machine) → result ≡ checked machine said.now line (Some (fact.Args above)) }
{
    let Some(stack) = said.stack else {
        return Err(ConvFault::Unknown { line });
    };
    if said.args.is_some() {
        return Err(ConvFault::Twice { line });
    }
    let Some(found) = offset(stack, above) else {
        return Err(ConvFault::FieldRange { line });
    };
    Ok(Fact::Args(found))
}

/// The instruction of a name.
fn instruction(instructions: &Instructions, line: u32, name: &[u8]) -> Result<u16, ConvFault>
    ensures { result ≡ known_instruction line (instruction_of instructions.now name.now) }
{
    match instructions.number_of(name) {
        None => Err(ConvFault::Unknown { line }),
        Some(number) => Ok(number),
    }
}

/// What a line says, or its first fault.
pub fn checked(known: &Known<'_>, said: &Said, line: &ConvLine) -> Result<Fact, ConvFault>
    ensures { result ≡ checked known.now.named.now.machine said.now line.now.number (fact_of known.now.instructions known.now.named.now line.now.body) }
{
    let named = known.named;
    let at = line.number;
    match &line.body {
        ConvBody::Elf(kind) => Ok(Fact::Elf(short_number(at, said.elf.is_some(), *kind)?)),
        ConvBody::Stack(words) => stack_fact(named, said, at, words),
        ConvBody::Heap { base, size } => heap_fact(said, at, *base, *size),
        ConvBody::Service(words) => service_fact(named, said, at, words),
        ConvBody::Exit(value) => Ok(Fact::Exit(number(at, said.exit.is_some(), *value)?)),
        ConvBody::Read(value) => Ok(Fact::Read(number(at, said.read.is_some(), *value)?)),
        ConvBody::Write(value) => Ok(Fact::Write(number(at, said.write.is_some(), *value)?)),
        ConvBody::Brk(value) => Ok(Fact::Brk(number(at, said.brk.is_some(), *value)?)),
        ConvBody::Errors {
            fault,
            descriptor,
            unknown,
        } => errors_fact(said, at, *fault, *descriptor, *unknown),
        ConvBody::Link(cell) => link_fact(named, said, at, cell),
        ConvBody::Call(name) => {
            Ok(Fact::Call(instruction(&known.instructions, at, name.as_slice())?))
        },
        ConvBody::Return(name) => {
            Ok(Fact::Return(instruction(&known.instructions, at, name.as_slice())?))
        },
        ConvBody::Entry(address) => Ok(Fact::Entry(number(at, false, *address)?)),
        ConvBody::Whole(address) => Ok(Fact::Whole(number(at, false, *address)?)),
        ConvBody::Pad(name) => {
            Ok(Fact::Pad(instruction(&known.instructions, at, name.as_slice())?))
        },
        ConvBody::Args(above) => args_fact(said, at, *above),
    }
}
