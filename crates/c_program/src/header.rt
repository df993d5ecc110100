//! The header of a C text.
ghost use Rattle.std.specs.Prelude.{◌≡◌};
ghost use Rattle.c_control.specs.Programs.{header_with, no_numbers, header_of};
ghost use Rattle.rtl_core.specs.Services.{numbers_of};

use c_lang::Header;
use rtl_core::{Conv, Machine, Numbers, ServiceShape};

/// The header for a machine and its conventions; an error's number is carried as it is where there is a cell
/// for the error flag.
pub(crate) fn header(machine: &Machine, conv: &Conv) -> Header
    ensures { result ≡ header_of machine.now conv.now }
{
    match conv.service {
        None => with_numbers(machine, conv, without_service(conv), false),
        Some(shape) => {
            let carry = shape.error.is_some();
            with_numbers(machine, conv, numbers(conv, shape), carry)
        }
    }
}

/// The numbers of a service.
fn numbers(conv: &Conv, shape: ServiceShape) -> Numbers
    ensures { result ≡ numbers_of conv.now shape }
{
    Numbers {
        exit: shape.exit,
        read: shape.read,
        write: shape.write,
        brk: shape.brk,
        fault: shape.fault,
        descriptor: shape.descriptor,
        unknown: shape.unknown,
        heap_base: conv.heap_base,
        heap_size: conv.heap_size,
    }
}

/// The numbers where there are no services.
fn without_service(conv: &Conv) -> Numbers
    ensures { result ≡ no_numbers conv.now }
{
    Numbers {
        exit: 0,
        read: 0,
        write: 0,
        brk: 0,
        fault: 0,
        descriptor: 0,
        unknown: 0,
        heap_base: conv.heap_base,
        heap_size: conv.heap_size,
    }
}

fn with_numbers(machine: &Machine, conv: &Conv, numbers: Numbers, carry: bool) -> Header
    ensures { result ≡ header_with machine.now conv.now numbers carry }
{
    Header {
        order: machine.order,
        align: machine.align,
        heap_base: conv.heap_base,
        heap_size: conv.heap_size,
        stack_base: conv.stack_base,
        stack_size: conv.stack_size,
        exit: numbers.exit,
        read: numbers.read,
        write: numbers.write,
        brk: numbers.brk,
        fault: numbers.fault,
        descriptor: numbers.descriptor,
        unknown: numbers.unknown,
        carry,
    }
}
