//! The first byte of a text that begins no token.
ghost use Rattle.std.specs.Prelude.{◌≡◌, ◌-◌, ◌<◌, ◌≤◌, Err, MatchOption, drop, false, length, slice_index};
ghost use Rattle.c_text.specs.Tokens.{is_blank, tokens};
ghost use Rattle.c_scan.specs.Left.{IsLexed, IsUnlexed, NextIs};

use super::bytes::is_blank;
use super::front::{Found, front};

/// The place behind the blanks that stand at a place.
#[tactic(auto, using(crate::proofs::Steps::blank_laws))]
fn behind_blanks(text: &[u8], from: usize) -> usize
    requires { from ≤ length text.now }
    ensures onward { from ≤ result }
    ensures within { result ≤ length text.now }
    ensures tokens { tokens (drop result text.now) ≡ tokens (drop from text.now) }
    ensures stops { result < length text.now → is_blank (slice_index text.now result) ≡ false }
{
    let mut at = from;
    'more: while at < text.len() {
        if !is_blank(text[at]) {
            return at;
        }
        at += 1;
    }
    at
}

/// The next token from a place on, and the place behind it; where there is none, the place of the byte that begins none, or the
/// end of the text.
pub fn next(text: &[u8], from: usize) -> Result<(Found<'_>, usize), usize>
    requires { from ≤ length text.now }
    ensures { NextIs text.now from result }
{
    let start = behind_blanks(text, from);
    let (_, rest) = text.split_at(start);
    match front(rest) {
        Some(found) => {
            let end = start + found.len;
            Ok((found, end))
        },
        None => Err(start),
    }
}

/// The place of the first byte of a text that is no blank and begins no token, if there is one.
pub fn first_unlexed(text: &[u8]) -> Option<usize>
    ensures { MatchOption result (IsLexed (tokens text.now)) (λ at. IsUnlexed text.now at) }
{
    let mut at = 0;
    'more: loop {
        match next(text, at) {
            Ok((_, end)) => at = end,
            Err(end) => {
                if end == text.len() {
                    return None;
                }
                return Some(end);
            },
        }
    }
}
