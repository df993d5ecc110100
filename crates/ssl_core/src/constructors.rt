//! Constructors by their names, and a table of their types.
ghost use Rattle.std.specs.Prelude.{◌≡◌, ◌≤◌, IfOk, OnOk, length, replicate, slice_set};
ghost use Rattle.rtl_core.specs.declared.encodings.Encodings.{Encodings};
ghost use Rattle.rtl_core.specs.SoundEncodings.{IsSoundEncodings};
ghost use Rattle.ssl_rules.specs.Given.{constructors_of, kinds_of};
ghost use Rattle.ssl_core.specs.OwnNames.{constructor_of};
ghost use Rattle.ssl_core.specs.Kept.{with_new};
ghost use Rattle.ssl_core.specs.Numbers.{AreNumbered};
ghost use Rattle.ssl_core.specs.Typing.{AreTyped, IsTypePut};

use rtl_core::{Encodings, OperandKind};
use sqlite_items::Items;
use ssl_rules::NameTable;
use ssl_syntax::SslBody;
use std::alloc::{AllocError, Global};

/// The constructors by their names; of several with one name the first.
pub fn numbers_of(alloc: Global, enc: &Encodings) -> Result<NameTable<u16>, AllocError>
    requires { length enc.now.constructors ≤ 4096 }
    ensures { IfOk result (λ numbers. AreNumbered numbers enc.now) }
{
    let mut numbers = NameTable::new(alloc);
    for (number, coded) in enc.constructors.as_slice().iter().enumerate() {
        add_new(&mut numbers, coded.name.as_slice(), number as u16)?;
    }
    Ok(numbers)
}

/// One name more, unless it is there.
pub fn add_new<T: Copy>(names: &mut NameTable<T>, name: &[u8], value: T) -> Result<(), AllocError>
    ensures { OnOk result (names.new ≡ with_new names.old name.now value) }
{
    if names.get(name).is_some() {
        return Ok(());
    }
    names.add(name, value)
}

/// The operands of a constructor.
pub fn kinds_of(enc: &Encodings, constructor: u16) -> &[OperandKind]
    ensures { result.now ≡ kinds_of enc.now constructor }
{
    match enc.constructors.get(usize::from(constructor)) {
        Some(coded) => coded.kinds.as_slice(),
        None => &[],
    }
}

/// The constructors of a type.
pub fn constructors_of(enc: &Encodings, kind: usize) -> &[u16]
    ensures { result.now ≡ constructors_of enc.now kind }
{
    match enc.types.get(kind) {
        Some(constructors) => constructors.as_slice(),
        None => &[],
    }
}

/// Type 0 for each of so many constructors.
fn no_types(alloc: Global, count: usize) -> Result<Items<usize>, AllocError>
    ensures { IfOk result (λ types. types ≡ replicate count 0) }
{
    let mut types = Items::new(alloc);
    for _k in 0..count {
        types.push(0)?;
    }
    Ok(types)
}

/// Puts a type at a constructor, where there is one.
fn put_type(types: &mut Items<usize>, constructor: usize, kind: usize)
    ensures { types.new ≡ slice_set types.old constructor kind }
{
    if constructor < types.len() {
        types.set(constructor, kind);
    }
}

/// Puts a type at each of its constructors.
fn put_types(types: &mut Items<usize>, constructors: &[u16], kind: usize)
    ensures { IsTypePut types.old types.new constructors.now kind }
{
    for constructor in constructors {
        put_type(types, usize::from(*constructor), kind);
    }
}

/// For each constructor its type; that of instructions is 0.
pub fn type_table(alloc: Global, enc: &Encodings) -> Result<Items<usize>, AllocError>
    requires { IsSoundEncodings enc.now }
    ensures { IfOk result (λ types. AreTyped enc.now types) }
{
    let mut types = no_types(alloc, enc.constructors.len())?;
    for (kind, constructors) in enc.types.as_slice().iter().enumerate() {
        put_types(&mut types, constructors.as_slice(), kind);
    }
    Ok(types)
}

/// The constructor that a line names.
pub fn constructor_of(numbers: &NameTable<u16>, body: &SslBody) -> Option<u16>
    ensures { (enc : Encodings) → AreNumbered numbers.now enc → result ≡ constructor_of enc body.now }
{
    match body {
        SslBody::Operand { name, .. } | SslBody::Instruction { name, .. } => {
            numbers.get(name.as_slice())
        },
        _ => None,
    }
}
