//! Executables of two segments: code, and data that may be written.
use rtl_core::Order;
use std::alloc::{AllocError, Global};
use std::test::Fail;

/// Where the data begin.
const DATA: u32 = 0x0002_0000;

/// What is put into an executable. Its code begins at `base`, which is its entry.
#[derive(Clone, Copy)]
pub struct Contents<'a> {
    pub order: Order,
    pub machine: u16,
    pub base: u32,
    pub code: &'a [u8],
    pub data: &'a [u8],
}

fn put_halves(file: &mut Vec<u8>, order: Order, numbers: &[u16]) -> Result<(), AllocError> {
    for number in numbers {
        let bytes = match order {
            Order::Big => number.to_be_bytes(),
            Order::Little => number.to_le_bytes(),
        };
        file.extend_from_slice(&bytes)?;
    }
    Ok(())
}

fn put_words(file: &mut Vec<u8>, order: Order, numbers: &[u32]) -> Result<(), AllocError> {
    for number in numbers {
        let bytes = match order {
            Order::Big => number.to_be_bytes(),
            Order::Little => number.to_le_bytes(),
        };
        file.extend_from_slice(&bytes)?;
    }
    Ok(())
}

/// The file header: an executable of this byte order, with two program headers right behind.
fn put_header(file: &mut Vec<u8>, of: &Contents<'_>) -> Result<(), AllocError> {
    let order = match of.order {
        Order::Big => 2,
        Order::Little => 1,
    };
    file.extend_from_slice(&[0x7F, b'E', b'L', b'F', 1, order, 1, 0])?;
    file.extend_from_slice(&[0; 8])?;
    put_halves(file, of.order, &[2, of.machine])?;
    put_words(file, of.order, &[1, of.base, 52, 0, 0])?;
    put_halves(file, of.order, &[52, 32, 2, 0, 0, 0])
}

/// An executable: code that may be read and executed, and data that may be read and written.
pub fn executable(alloc: Global, of: &Contents<'_>) -> Result<Vec<u8>, Fail> {
    let mut file = Vec::new(alloc);
    let code_len = u32::try_from(of.code.len())?;
    let data_len = u32::try_from(of.data.len())?;
    put_header(&mut file, of)?;
    put_words(
        &mut file,
        of.order,
        &[1, 116, of.base, of.base, code_len, code_len, 5, 4],
    )?;
    let data_at = code_len.wrapping_add(116);
    put_words(
        &mut file,
        of.order,
        &[1, data_at, DATA, DATA, data_len, data_len, 6, 4],
    )?;
    file.extend_from_slice(of.code)?;
    file.extend_from_slice(of.data)?;
    Ok(file)
}

/// The value of a hexadecimal digit.
fn digit(c: u8) -> Option<u8> {
    match c {
        b'0'..=b'9' => Some(c - b'0'),
        b'A'..=b'F' => Some(c - b'A' + 10),
        _ => None,
    }
}

/// Puts the bytes that a line of hexadecimal digits spells, two digits each, with blanks anywhere.
fn put_line(bytes: &mut Vec<u8>, line: &str) -> Result<(), AllocError> {
    let mut high = None;
    for c in line.as_bytes() {
        if let Some(low) = digit(*c) {
            high = match high {
                None => Some(low),
                Some(before) => {
                    bytes.push((before << 4) | low)?;
                    None
                }
            };
        }
    }
    Ok(())
}

/// The bytes that some lines of hexadecimal digits spell.
pub fn spelled(alloc: Global, lines: &[&str]) -> Result<Vec<u8>, AllocError> {
    let mut bytes = Vec::new(alloc);
    for line in lines {
        put_line(&mut bytes, line)?;
    }
    Ok(bytes)
}
