//! What several lines say together.
ghost use Rattle.std.specs.Prelude.{◌≡◌, [], OnOk};
ghost use Rattle.conventions.specs.Said.{said_by, with_fact};
ghost use Rattle.conventions.specs.Faults.{unless};
ghost use Rattle.conventions.specs.Normal.{conv_of, first_missing, missing_fault, service_kinds, service_said};

use super::fact::{Area, ErrorNumbers, Fact, ServiceCells, StackArea};
use super::fault::ConvFault;
use rtl_core::{Conv, ServiceShape};
use sqlite_items::Items;
use std::alloc::{AllocError, Global};

/// The line of each kind that stands once, where there is one, and all lines of each other kind.
#[derive(Debug, Drop)]
pub struct Said {
    pub elf: Option<u16>,
    pub stack: Option<StackArea>,
    pub heap: Option<Area>,
    pub service: Option<ServiceCells>,
    pub exit: Option<u32>,
    pub read: Option<u32>,
    pub write: Option<u32>,
    pub brk: Option<u32>,
    pub errors: Option<ErrorNumbers>,
    pub link: Option<u8>,
    pub calls: Items<u16>,
    pub returns: Items<u16>,
    pub entries: Items<u32>,
    pub wholes: Items<u32>,
    pub pads: Items<u16>,
    pub args: Option<u32>,
}

impl Said {
    /// Nothing.
    #[tactic(auto, unfolding(crate::specs::Said::line_of))]
    pub fn new(alloc: Global) -> Said
        ensures { result ≡ said_by [] }
    {
        Said {
            elf: None,
            stack: None,
            heap: None,
            service: None,
            exit: None,
            read: None,
            write: None,
            brk: None,
            errors: None,
            link: None,
            calls: Items::new(alloc),
            returns: Items::new(alloc),
            entries: Items::new(alloc),
            wholes: Items::new(alloc),
            pads: Items::new(alloc),
            args: None,
        }
    }

    /// One fact more.
    pub fn add(&mut self, fact: Fact) -> Result<(), AllocError>
        ensures { OnOk result (self.new ≡ with_fact self.old fact) }
    {
        match fact {
            Fact::Elf(kind) => self.elf = Some(kind),
            Fact::Stack(stack) => self.stack = Some(stack),
            Fact::Heap(heap) => self.heap = Some(heap),
            Fact::Service(cells) => self.service = Some(cells),
            Fact::Exit(number) => self.exit = Some(number),
            Fact::Read(number) => self.read = Some(number),
            Fact::Write(number) => self.write = Some(number),
            Fact::Brk(number) => self.brk = Some(number),
            Fact::Errors(numbers) => self.errors = Some(numbers),
            Fact::Link(cell) => self.link = Some(cell),
            Fact::Call(constructor) => self.calls.push(constructor)?,
            Fact::Return(constructor) => self.returns.push(constructor)?,
            Fact::Entry(address) => self.entries.push(address)?,
            Fact::Whole(address) => self.wholes.push(address)?,
            Fact::Pad(constructor) => self.pads.push(constructor)?,
            Fact::Args(offset) => self.args = Some(offset),
        }
        Ok(())
    }

    /// The service, where all six of its lines are there.
    fn service(&self) -> Option<ServiceShape>
        ensures { result ≡ service_said self.now }
    {
        let cells = self.service?;
        let exit = self.exit?;
        let read = self.read?;
        let write = self.write?;
        let brk = self.brk?;
        let errors = self.errors?;
        Some(ServiceShape {
            number: cells.number,
            arg_x: cells.arg_x,
            arg_y: cells.arg_y,
            arg_z: cells.arg_z,
            result: cells.result,
            error: cells.error,
            exit,
            read,
            write,
            brk,
            fault: errors.fault,
            descriptor: errors.descriptor,
            unknown: errors.unknown,
        })
    }

    /// Each kind of line that a service needs is there.
    fn has_service_lines(&self) -> Result<(), ConvFault>
        ensures { result ≡ unless (first_missing (service_kinds self.now)) tt }
    {
        let kinds = [
            (4, self.service.is_some()),
            (5, self.exit.is_some()),
            (6, self.read.is_some()),
            (7, self.write.is_some()),
            (8, self.brk.is_some()),
            (9, self.errors.is_some()),
        ];
        for (kind, is_there) in kinds {
            if !is_there {
                return Err(ConvFault::Missing { kind });
            }
        }
        Ok(())
    }

    /// The conventions, or the first kind of line that is missing. Where an instruction calls the service, its lines
    /// are asked for too.
    pub fn finished(self, serves: bool) -> Result<Conv, ConvFault>
        ensures { result ≡ unless (missing_fault serves self) (conv_of self) }
    {
        let Some(elf) = self.elf else {
            return Err(ConvFault::Missing { kind: 1 });
        };
        let Some(stack) = self.stack else {
            return Err(ConvFault::Missing { kind: 2 });
        };
        let Some(heap) = self.heap else {
            return Err(ConvFault::Missing { kind: 3 });
        };
        if serves {
            self.has_service_lines()?;
        }
        Ok(Conv {
            elf,
            stack_cell: stack.cell,
            stack_base: stack.base,
            stack_size: stack.size,
            room: stack.room,
            heap_base: heap.base,
            heap_size: heap.size,
            service: self.service(),
            link: self.link,
            calls: self.calls,
            returns: self.returns,
            entries: self.entries,
            wholes: self.wholes,
            pads: self.pads,
            args: self.args,
        })
    }
}
