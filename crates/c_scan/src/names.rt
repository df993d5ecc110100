//! What names and signs stand for.
ghost use Rattle.std.specs.Prelude.{◌≡◌, ◌^◌, MatchOption, drop, false, length, take, true};
ghost use Rattle.std.specs.Str.{bytes_eq};
ghost use Rattle.c_scan.specs.Names.{call_of, cell_of, var_by_name, function_of, label_of, var_by_letter, operator_of, point_of, segment_of, slot_of, var_of};

use super::numbers::{hex_address, number_below, number_of};
use c_lang::{COp, Point, Slot, Var};

/// What stands behind the front of a word, where it begins so.
fn behind<'a>(word: &'a [u8], front: &[u8]) -> Option<&'a [u8]>
    ensures { MatchOption result (bytes_eq (take (length front.now) word.now) front.now ≡ false) (λ rest. (bytes_eq (take (length front.now) word.now) front.now ≡ true) × (rest.now ≡ drop (length front.now) word.now)) }
{
    if word.len() < front.len() {
        return None;
    }
    let (head, rest) = word.split_at(front.len());
    if head == front { Some(rest) } else { None }
}

/// The variable of a letter and the digits behind it.
fn var_by_letter(letter: u8, digits: &[u8]) -> Option<Var>
    ensures { result ≡ var_by_letter letter digits.now }
{
    match letter {
        b'c' => Some(Var::Cell(number_below(digits, 256)? as u8)),
        b't' => Some(Var::Temp(number_below(digits, 65536)? as u16)),
        b'q' => Some(Var::Result(number_below(digits, 256)? as u8)),
        _ => None,
    }
}

/// The variable of a name without a number.
fn var_by_name(word: &[u8]) -> Option<Var>
    ensures { result ≡ var_by_name word.now }
{
    if word == b"ra".as_slice() {
        return Some(Var::Ra);
    }
    if word == b"pt".as_slice() {
        return Some(Var::Pt);
    }
    if word == b"uq_wn".as_slice() {
        return Some(Var::Wn);
    }
    if word == b"uq_depth".as_slice() {
        return Some(Var::Depth);
    }
    if word == b"uq_r".as_slice() {
        return Some(Var::ServeR);
    }
    if word == b"uq_e".as_slice() {
        return Some(Var::ServeE);
    }
    None
}

/// The variable of a name.
pub fn var_of(word: &[u8]) -> Option<Var>
    ensures { result ≡ var_of word.now }
{
    if word.is_empty() {
        return None;
    }
    let (_, digits) = word.split_at(1);
    match var_by_letter(word[0], digits) {
        Some(variable) => Some(variable),
        None => var_by_name(word),
    }
}

/// The cell of a variable's name.
pub fn cell_of(word: &[u8]) -> Option<u8>
    ensures { result ≡ cell_of word.now }
{
    match var_of(word) {
        Some(Var::Cell(cell)) => Some(cell),
        _ => None,
    }
}

/// The operator of a sign.
pub fn operator_of(sign: &[u8]) -> Option<COp>
    ensures { result ≡ operator_of sign.now }
{
    if sign == b"+".as_slice() {
        return Some(COp::Add);
    }
    if sign == b"-".as_slice() {
        return Some(COp::Sub);
    }
    if sign == b"*".as_slice() {
        return Some(COp::Mul);
    }
    if sign == b"/".as_slice() {
        return Some(COp::Div);
    }
    if sign == b"%".as_slice() {
        return Some(COp::Rem);
    }
    if sign == b"&".as_slice() {
        return Some(COp::And);
    }
    if sign == b"|".as_slice() {
        return Some(COp::Or);
    }
    if sign == b"^".as_slice() {
        return Some(COp::Xor);
    }
    if sign == b"<<".as_slice() {
        return Some(COp::Shl);
    }
    if sign == b">>".as_slice() {
        return Some(COp::Shr);
    }
    if sign == b"==".as_slice() {
        return Some(COp::Eq);
    }
    if sign == b"!=".as_slice() {
        return Some(COp::Ne);
    }
    if sign == b"<".as_slice() {
        return Some(COp::Lt);
    }
    if sign == b"<=".as_slice() {
        return Some(COp::Le);
    }
    None
}

/// The address of the function of a name.
pub fn function_of(word: &[u8]) -> Option<u32>
    ensures { result ≡ function_of word.now }
{
    let digits = behind(word, b"f_")?;
    hex_address(digits)
}

/// The place of the segment of a name.
pub fn segment_of(word: &[u8]) -> Option<u64>
    ensures { result ≡ segment_of word.now }
{
    let digits = behind(word, b"uq_seg_")?;
    number_of(digits)
}

/// A word in two: its first bytes, at most so many, and those behind them.
fn split(word: &[u8], len: usize) -> (&[u8], &[u8])
    ensures front { result.0.now ≡ take len word.now }
    ensures back { result.1.now ≡ drop len word.now }
{
    word.split_at(len.min(word.len()))
}

/// The target and the return address of a call that is still to come.
fn call_of(word: &[u8]) -> Option<Slot>
    ensures { result ≡ call_of word.now }
{
    let (target, rest) = split(word, 8);
    let target = hex_address(target)?;
    let back = behind(rest, b"_")?;
    let back = hex_address(back)?;
    Some(Slot::CallTo(target, back))
}

/// The jump that is still to come, of the end of a label.
fn slot_of(word: &[u8]) -> Option<Slot>
    ensures { result ≡ slot_of word.now }
{
    if word.is_empty() {
        return Some(Slot::Seq);
    }
    if word == b"_R".as_slice() {
        return Some(Slot::Ret);
    }
    if let Some(digits) = behind(word, b"_T_") {
        return Some(Slot::To(hex_address(digits)?));
    }
    if let Some(digits) = behind(word, b"_D_") {
        return Some(Slot::Dyn(hex_address(digits)?));
    }
    if let Some(digits) = behind(word, b"_E_") {
        return Some(Slot::CallDyn(hex_address(digits)?));
    }
    let rest = behind(word, b"_C_")?;
    call_of(rest)
}

/// The point of an address and the end of a label.
fn point_of(word: &[u8]) -> Option<Point>
    ensures { result ≡ point_of word.now }
{
    let (digits, rest) = split(word, 8);
    let pc = hex_address(digits)?;
    let slot = slot_of(rest)?;
    Some(Point { pc, slot })
}

/// The point of a label.
pub fn label_of(word: &[u8]) -> Option<Point>
    ensures { result ≡ label_of word.now }
{
    let rest = behind(word, b"L_")?;
    point_of(rest)
}
