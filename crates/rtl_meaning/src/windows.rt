//! Saved register windows.
ghost use Rattle.std.specs.Prelude.{◌≡◌, ◌==◌, ◌<◌, ◌≤◌, [], ◌∷◌, ◌++◌, length, MatchOption, IfOk};
ghost use Rattle.rtl_core.specs.Windows.{most_windows};
ghost use Rattle.rtl_meaning.specs.Saved.{HaveShape};

use rtl_core::Machine;
use std::alloc::{AllocError, Global};
use std::marker::Model;

/// The most windows that can be saved.
pub const MOST_WINDOWS: usize = 65_536;

/// Up to sixteen numbers, which lie in the value itself: what a save keeps. Contracts see them as a list.
#[derive(Drop)]
pub struct Window {
    numbers: [u64; 16],
    len: usize,
}

impl Model for Window {
    ghost use Rattle.std.specs.Prelude.{ℕ, List, ◌≤◌, take};
    ghost use Rattle.std.specs.Coded.{coded_list, coded_ℕ};

    ghost Value = { List ℕ };

    ghost coded = { coded_list coded_ℕ };

    ghost view = { λ s. take s.len s.numbers };

    ghost invariant = { λ s. s.len ≤ 16 };
}

impl Window {
    /// No numbers.
    pub fn new() -> Window
        ensures { result ≡ [] }
    {
        Window {
            numbers: [0; 16],
            len: 0,
        }
    }

    /// Adds a number at the end.
    pub fn push(&mut self, number: u64)
        requires { length self.old < 16 }
        ensures { self.new ≡ self.old ++ number ∷ [] }
    {
        self.numbers[self.len] = number;
        self.len += 1;
    }

    /// The numbers in order.
    pub fn as_slice(&self) -> &[u64]
        ensures { result.now ≡ self.now }
    {
        &self.numbers[..self.len]
    }
}

/// The windows that are saved. Contracts see them as a list, the last saved first.
#[derive(Drop)]
pub struct Windows {
    frames: Vec<Window>,
}

impl Model for Windows {
    ghost use Rattle.std.specs.Prelude.{ℕ, List, ◌≤◌, reverse, length, vec_capacity};
    ghost use Rattle.std.specs.Coded.{coded_list, coded_ℕ};

    ghost Value = { List (List ℕ) };

    ghost coded = { coded_list (coded_list coded_ℕ) };

    ghost view = { λ s. reverse s.frames.items };

    ghost invariant = { λ s. (length s.frames.items ≤ 65536) × (65536 ≤ vec_capacity s.frames) };
}

impl Windows {
    /// No windows, and room for 65,536. The room is the same for every machine: a window has at most eight local and eight in cells.
    /// The error is want of memory.
    pub fn reserve(alloc: Global, machine: &Machine) -> Result<Windows, AllocError>
        ensures none { IfOk result (λ windows. windows ≡ []) }
        ensures shape { IfOk result (λ windows. HaveShape machine.now windows) }
    {
        let _ = machine;
        Ok(Windows {
            frames: Vec::with_capacity(alloc, MOST_WINDOWS)?,
        })
    }

    /// How many windows are saved.
    pub fn len(&self) -> usize
        ensures exact { result ≡ length self.now }
        ensures most { result ≤ most_windows }
    {
        self.frames.len()
    }

    /// Whether none is saved.
    pub fn is_empty(&self) -> bool
        ensures { result ≡ (length self.now == 0) }
    {
        self.frames.len() == 0
    }

    /// Saves a window; takes no memory.
    pub fn push(&mut self, window: Window)
        requires { length self.old < most_windows }
        ensures { self.new ≡ window ∷ self.old }
    {
        self.frames.push_reserved(window);
    }

    /// Takes the last saved window back; `None` exactly where none is saved.
    pub fn pop(&mut self) -> Option<Window>
        ensures { MatchOption result ((self.old ≡ []) × (self.new ≡ [])) (λ window. self.old ≡ window ∷ self.new) }
    {
        self.frames.pop()
    }
}
