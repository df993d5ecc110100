//! One line after another: its checks, and what it gives.
ghost use Rattle.std.specs.Prelude.{◌≡◌, ◌≢◌, true, None, Some, OnOk, MatchResult};
ghost use Rattle.rtl_core.specs.SoundEncodings.{IsSoundEncodings};
ghost use Rattle.ssl_rules.specs.Given.{instruction_made, operand_made, with_body};
ghost use Rattle.ssl_rules.specs.Widths.{is_delay};
ghost use Rattle.ssl_rules.specs.TableGrowth.{with_function};
ghost use Rattle.ssl_rules.specs.Faults.{body_fault, IsFine};
ghost use Rattle.ssl_core.specs.State.{shown, Holds};
ghost use Rattle.ssl_core.specs.Numbers.{AreNumbered};
ghost use Rattle.ssl_core.specs.OwnNames.{constructor_of, own_of};
ghost use Rattle.ssl_core.specs.Fine.{IsFineFunction, IsFineOperand, IsFineInstruction};
ghost use Rattle.ssl_core.specs.Functions.{function_in};
ghost use Rattle.ssl_core.specs.MoreTemplates.{scope_with, with_made};

use crate::building::{add_template, instruction_built, operand_built};
use crate::constructors::{constructor_of, kinds_of};
use crate::faults::body_fault;
use crate::given::Given;
use crate::giving::{function_of, give_cell, give_cells, give_function, give_view};
use crate::noting::note_types;
use crate::own::own_of;
use crate::ranges::shape_of;
use rtl_core::Encodings;
use ssl_rules::{LineNames, NameTable, Own, SslFault, Tables};
use ssl_syntax::{Param, SslBody, SslExpr, SslLine, SslTransfer};
use std::alloc::{AllocError, Global};

/// A delay slot of so many bytes, where there is one.
fn delay_of(bytes: Option<u64>) -> Option<u8>
    requires { is_delay bytes ≡ true }
    ensures { result ≡ bytes }
{
    match bytes {
        None => None,
        Some(bytes) => Some(bytes as u8),
    }
}

/// `function NAME ( PS ) := E`.
fn give_function_line(
    alloc: Global,
    tables: &mut Tables,
    own: &NameTable<Own>,
    name: &[u8],
    params: &[Param],
    e: &SslExpr,
) -> Result<(), AllocError>
    requires { IsFineFunction tables.old own.now name.now params.now e.now }
    ensures { OnOk result (tables.new ≡ with_function tables.old name.now (function_in (scope_with tables.old own.now) params.now e.now)) }
{
    let names = LineNames { tables, own };
    let function = function_of(alloc, &names, params, e)?;
    give_function(tables, name, function)
}

/// `operand NAME ( OPS ) := E`.
fn give_operand(
    alloc: Global,
    enc: &Encodings,
    given: &mut Given,
    constructor: u16,
    own: &NameTable<Own>,
    e: &SslExpr,
) -> Result<(), AllocError>
    requires sound { IsSoundEncodings enc.now }
    requires holds { Holds enc.now given.old }
    requires fine { IsFineOperand enc.now given.old constructor own.now e.now }
    ensures gives { OnOk result (shown given.new ≡ with_made (shown given.old) (operand_made (scope_with given.old.tables own.now) constructor e.now)) }
    ensures holds { OnOk result (Holds enc.now given.new) }
{
    let tables = &given.tables;
    let names = LineNames { tables, own };
    let built = operand_built(alloc, &names, e)?;
    add_template(enc, given, constructor, built)
}

/// `instruction NAME ( OPS ) := TS`.
fn give_instruction(
    alloc: Global,
    enc: &Encodings,
    given: &mut Given,
    constructor: u16,
    own: &NameTable<Own>,
    transfers: &[SslTransfer],
) -> Result<(), AllocError>
    requires sound { IsSoundEncodings enc.now }
    requires holds { Holds enc.now given.old }
    requires fine { IsFineInstruction enc.now given.old constructor own.now transfers.now }
    ensures gives { OnOk result (shown given.new ≡ with_made (shown given.old) (instruction_made (scope_with given.old.tables own.now) constructor transfers.now)) }
    ensures holds { OnOk result (Holds enc.now given.new) }
{
    let tables = &given.tables;
    let names = LineNames { tables, own };
    let built = instruction_built(alloc, &names, transfers)?;
    add_template(enc, given, constructor, built)
}

/// Takes in what a line without a fault gives.
fn give(
    alloc: Global,
    enc: &Encodings,
    given: &mut Given,
    constructor: Option<u16>,
    own: &NameTable<Own>,
    body: &SslBody,
) -> Result<(), AllocError>
    requires sound { IsSoundEncodings enc.now }
    requires holds { Holds enc.now given.old }
    requires constructor { constructor ≡ constructor_of enc.now body.now }
    requires own { own.now ≡ own_of enc.now (shown given.old) body.now }
    requires fine { IsFine enc.now (shown given.old) body.now }
    ensures gives { OnOk result (shown given.new ≡ with_body enc.now (shown given.old) body.now) }
    ensures holds { OnOk result (Holds enc.now given.new) }
{
    match body {
        SslBody::Align { yes } => {
            given.align = Some(*yes);
            Ok(())
        },
        SslBody::Delay { bytes } => {
            given.delay = Some(delay_of(*bytes));
            Ok(())
        },
        SslBody::Cell { name, width } => give_cell(&mut given.tables, name.as_slice(), *width),
        SslBody::Cells { name, count, width } => {
            give_cells(alloc, &mut given.tables, name.as_slice(), *count, *width)
        },
        SslBody::View { name, parts, .. } => {
            give_view(alloc, &mut given.tables, name.as_slice(), parts.as_slice())
        },
        SslBody::Zero { cell } => {
            given.zeroed = given.tables.cell_number(cell);
            Ok(())
        },
        SslBody::Windows {
            out_first,
            local_first,
            in_first,
            count,
        } => {
            let count = *count as u8;
            given.windows = Some(shape_of(&given.tables, out_first, local_first, in_first, count));
            Ok(())
        },
        SslBody::Function { name, params, body } => give_function_line(
            alloc,
            &mut given.tables,
            own,
            name.as_slice(),
            params.as_slice(),
            body,
        ),
        SslBody::Operand { body, .. } => {
            give_operand(alloc, enc, given, constructor.unwrap_or(0), own, body)
        },
        SslBody::Instruction { transfers, .. } => give_instruction(
            alloc,
            enc,
            given,
            constructor.unwrap_or(0),
            own,
            transfers.as_slice(),
        ),
    }
}

/// Takes a line in, where what the types of its operands stand for is noted.
fn take_noted(
    alloc: Global,
    enc: &Encodings,
    constructor: Option<u16>,
    given: &mut Given,
    line: &SslLine,
) -> Result<(), SslFault>
    requires sound { IsSoundEncodings enc.now }
    requires constructor { constructor ≡ constructor_of enc.now line.now.body }
    requires holds { Holds enc.now given.old }
    ensures taken { MatchResult result (λ _. body_fault enc.now (shown given.old) line.now.number line.now.body ≡ None) (λ f. f ≢ SslFault.NoMemory → body_fault enc.now (shown given.old) line.now.number line.now.body ≡ Some f) }
    ensures gives { OnOk result (shown given.new ≡ with_body enc.now (shown given.old) line.now.body) }
    ensures holds { OnOk result (Holds enc.now given.new) }
{
    let own = own_of(alloc, enc, given, constructor, &line.body)?;
    let fault = body_fault(
        alloc,
        enc,
        given,
        constructor,
        &own,
        line.number,
        &line.body,
    )?;
    if let Some(fault) = fault {
        return Err(fault);
    }
    give(alloc, enc, given, constructor, &own, &line.body)?;
    Ok(())
}

/// Takes a line in, behind those that are given.
pub fn take_line(
    alloc: Global,
    enc: &Encodings,
    numbers: &NameTable<u16>,
    given: &mut Given,
    line: &SslLine,
) -> Result<(), SslFault>
    requires sound { IsSoundEncodings enc.now }
    requires numbered { AreNumbered numbers.now enc.now }
    requires holds { Holds enc.now given.old }
    ensures taken { MatchResult result (λ _. body_fault enc.now (shown given.old) line.now.number line.now.body ≡ None) (λ f. f ≢ SslFault.NoMemory → body_fault enc.now (shown given.old) line.now.number line.now.body ≡ Some f) }
    ensures gives { OnOk result (shown given.new ≡ with_body enc.now (shown given.old) line.now.body) }
    ensures holds { OnOk result (Holds enc.now given.new) }
{
    let constructor = constructor_of(numbers, &line.body);
    note_types(enc, given, kinds_of(enc, constructor.unwrap_or(0)));
    take_noted(alloc, enc, constructor, given, line)
}
