//! The ends of texts in memory, whose bytes are told.

ghost use Rattle.std.specs.Prelude.{◌≡◌, if◌then◌else◌, ◌<◌, ◌≤◌, ◌↔◌, [], ◌++◌, Some, length, drop, min, IsTrue, IfOk, OnOk, OnErr, IsErrOf};
ghost use Rattle.bz_files.specs.Count.{CountsFaults, counted};
ghost use Rattle.bz_files.specs.TextEnd.{Takes, Puts};
ghost use Rattle.bz_files.specs.MemEnd.{new_end, is_failing, fails_next, after_call};

use crate::counter::Counter;
use crate::text::{IoFault, TextIn, TextOut};
use std::alloc::Global;
use std::marker::Model;

/// How many calls there were, which one fails, and how many failed.
#[derive(Drop)]
struct Calls {
    number: Counter,
    failing: Option<u64>,
    faults: Counter,
}

impl Calls {
    /// No call yet, and none that fails.
    fn new() -> Calls
        ensures { result ≡ record { number = 0; failing = None; faults = 0 } }
    {
        Calls {
            number: Counter::new(),
            failing: None,
            faults: Counter::new(),
        }
    }

    /// Counts one more call, and says whether it is the one that fails.
    fn begin(&mut self) -> bool
        ensures number { self.new.number ≡ counted self.old.number }
        ensures fails { result ≡ is_failing self.old.failing (counted self.old.number) }
        ensures failing { self.new.failing ≡ self.old.failing }
        ensures counts { self.new.faults ≡ (if result then counted self.old.faults else self.old.faults) }
        ensures faults { CountsFaults self.old.faults self.new.faults (IsTrue result) }
    {
        self.number.add_one();
        let fails = match self.failing {
            Some(failing) => failing == self.number.get(),
            None => false,
        };
        if fails {
            self.faults.add_one();
        }
        fails
    }
}

/// A text in memory that is read, with a call that can be made to fail.
#[derive(Drop)]
pub struct MemIn {
    bytes: Vec<u8>,
    at: usize,
    calls: Calls,
}

impl Model for MemIn {
    ghost use Rattle.std.specs.Prelude.{drop, vec_len, ◌≤◌};
    ghost use Rattle.bz_files.specs.MemEnd.{MemEnd};

    ghost Value = { MemEnd };

    ghost view = { λ a. record { bytes = drop a.at a.bytes.items; calls = a.calls.number; failing = a.calls.failing; faults = a.calls.faults } };

    ghost invariant = { λ a. a.at ≤ vec_len a.bytes };
}

impl MemIn {
    /// The text of these bytes, of which none is read yet.
    pub fn new(bytes: Vec<u8>) -> MemIn
        ensures { result ≡ new_end bytes.items }
    {
        MemIn {
            bytes,
            at: 0,
            calls: Calls::new(),
        }
    }

    /// Makes call number `n` fail, counted from 1, and no other.
    pub fn fail_call(&mut self, n: u64)
        ensures { self.new ≡ record self.old { failing = Some n } }
    {
        self.calls.failing = Some(n);
    }

    /// How many calls ended in a `Fault`.
    pub fn faults(&self) -> u64
        ensures { result ≡ self.now.faults }
    {
        self.calls.faults.get()
    }
}

impl TextIn for MemIn {
    ghost use Rattle.std.specs.Prelude.{Some};

    ghost left = { λ end. Some end.bytes };

    ghost faults = { λ end. end.faults };

    fn take(&mut self, piece: &mut [u8]) -> Result<usize, IoFault>
        ensures full { IfOk result (λ n. n ≡ min (length piece.old) (length self.old.bytes)) }
        ensures takes { Takes (Some self.old.bytes) (Some self.new.bytes) piece.old piece.new result }
        ensures ok { IfOk result (λ n. self.new ≡ record (after_call self.old) { bytes = drop n self.old.bytes }) }
        ensures err { OnErr result (self.new ≡ after_call self.old) }
        ensures failing { IsErrOf result IoFault.Fault ↔ IsTrue (fails_next self.old) }
        ensures faults { CountsFaults self.old.faults self.new.faults (IsErrOf result IoFault.Fault) }
        ensures no_memory { IsErrOf result IoFault.OutOfMemory → ⊥ }
    {
        if self.calls.begin() {
            return Err(IoFault::Fault);
        }
        let left = &self.bytes[self.at..];
        let n = left.len().min(piece.len());
        piece[..n].copy_from_slice(&left[..n]);
        self.at += n;
        Ok(n)
    }
}

/// A text in memory that is written, with a call that can be made to fail.
#[derive(Drop)]
pub struct MemOut {
    bytes: Vec<u8>,
    calls: Calls,
}

impl Model for MemOut {
    ghost use Rattle.bz_files.specs.MemEnd.{MemEnd};

    ghost Value = { MemEnd };

    ghost view = { λ a. record { bytes = a.bytes.items; calls = a.calls.number; failing = a.calls.failing; faults = a.calls.faults } };
}

impl MemOut {
    /// A text of which nothing is written yet.
    pub fn new(alloc: Global) -> MemOut
        ensures { result ≡ new_end [] }
    {
        MemOut {
            bytes: Vec::new(alloc),
            calls: Calls::new(),
        }
    }

    /// Makes call number `n` fail, counted from 1, and no other.
    pub fn fail_call(&mut self, n: u64)
        ensures { self.new ≡ record self.old { failing = Some n } }
    {
        self.calls.failing = Some(n);
    }

    /// How many calls ended in a `Fault`.
    pub fn faults(&self) -> u64
        ensures { result ≡ self.now.faults }
    {
        self.calls.faults.get()
    }

    /// The bytes written so far.
    pub fn written(&self) -> &[u8]
        ensures { result.now ≡ self.now.bytes }
    {
        self.bytes.as_slice()
    }
}

impl TextOut for MemOut {
    ghost use Rattle.std.specs.Prelude.{Some};

    ghost written = { λ end. Some end.bytes };

    ghost faults = { λ end. end.faults };

    fn put(&mut self, piece: &[u8]) -> Result<usize, IoFault>
        ensures full { IfOk result (λ n. n ≡ length piece.now) }
        ensures positive { IfOk result (λ n. 0 < length piece.now → 0 < n) }
        ensures puts { Puts (Some self.old.bytes) (Some self.new.bytes) piece.now result }
        ensures ok { OnOk result (self.new ≡ record (after_call self.old) { bytes = self.old.bytes ++ piece.now }) }
        ensures err { OnErr result (self.new ≡ after_call self.old) }
        ensures failing { IsErrOf result IoFault.Fault ↔ IsTrue (fails_next self.old) }
        ensures faults { CountsFaults self.old.faults self.new.faults (IsErrOf result IoFault.Fault) }
    {
        if self.calls.begin() {
            return Err(IoFault::Fault);
        }
        match self.bytes.extend_from_slice(piece) {
            Ok(()) => Ok(piece.len()),
            Err(_) => Err(IoFault::OutOfMemory),
        }
    }
}
