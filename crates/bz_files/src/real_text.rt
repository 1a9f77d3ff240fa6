//! The ends of texts over std's readers and writers. What bytes these have is told as far as they tell
//! it themselves.

ghost use Rattle.std.specs.Prelude.{◌≡◌, ◌<◌, ◌≤◌, None, length, IfOk, OnOk, OnErr, IsErrOf};
ghost use Rattle.std.specs.Io.KnownBytes.{ReadConsumes, WriteAppends};
ghost use Rattle.bz_files.specs.Count.{CountsFaults, counted};
ghost use Rattle.bz_files.specs.RealEnd.{new_end};

use crate::counter::Counter;
use crate::text::{IoFault, TextIn, TextOut};
use std::io::{ErrorKind, Read, Write};
use std::marker::Model;

/// So many calls in a row that the system interrupted are a fault.
const MOST_INTERRUPTED: usize = 64;

/// A text that is read from a reader.
#[derive(Drop)]
pub struct RealIn<R: Read + Drop> {
    reader: R,
    faults: Counter,
}

impl<R: Read + Drop> Model for RealIn<R> {
    ghost use Rattle.bz_files.specs.RealEnd.{RealEnd};

    ghost Value = { RealEnd };

    ghost view = { λ a. record { faults = a.faults; known = R.remaining a.reader } };
}

impl<R: Read + Drop> RealIn<R> {
    /// The text that the reader gives, of which no read failed yet.
    pub fn new(reader: R) -> RealIn<R>
        ensures { result ≡ new_end (R.remaining reader) }
    {
        RealIn {
            reader,
            faults: Counter::new(),
        }
    }

    /// How many calls ended in a `Fault`.
    pub fn faults(&self) -> u64
        ensures { result ≡ self.now.faults }
    {
        self.faults.get()
    }
}

impl<R: Read + Drop> TextIn for RealIn<R> {
    ghost use Rattle.std.specs.Prelude.{None};

    ghost left = { λ _. None };

    ghost faults = { λ end. end.faults };

    fn take(&mut self, piece: &mut [u8]) -> Result<usize, IoFault>
        ensures within { IfOk result (λ n. n ≤ length piece.old) }
        ensures bytes { ReadConsumes self.old.known self.new.known result piece.new }
        ensures ok { OnOk result (self.new.faults ≡ self.old.faults) }
        ensures err { OnErr result (self.new.faults ≡ counted self.old.faults) }
        ensures faults { CountsFaults self.old.faults self.new.faults (IsErrOf result IoFault.Fault) }
        ensures no_memory { IsErrOf result IoFault.OutOfMemory → ⊥ }
    {
        match read_some(&mut self.reader, piece) {
            Ok(n) => Ok(n),
            Err(failed) => {
                self.faults.add_one();
                Err(failed)
            }
        }
    }
}

/// A text that is written to a writer.
#[derive(Drop)]
pub struct RealOut<W: Write + Drop> {
    writer: W,
    faults: Counter,
}

impl<W: Write + Drop> Model for RealOut<W> {
    ghost use Rattle.bz_files.specs.RealEnd.{RealEnd};

    ghost Value = { RealEnd };

    ghost view = { λ a. record { faults = a.faults; known = W.contents a.writer } };
}

impl<W: Write + Drop> RealOut<W> {
    /// The text that the writer is given, of which no write failed yet.
    pub fn new(writer: W) -> RealOut<W>
        ensures { result ≡ new_end (W.contents writer) }
    {
        RealOut {
            writer,
            faults: Counter::new(),
        }
    }

    /// How many calls ended in a `Fault`.
    pub fn faults(&self) -> u64
        ensures { result ≡ self.now.faults }
    {
        self.faults.get()
    }
}

impl<W: Write + Drop> TextOut for RealOut<W> {
    ghost use Rattle.std.specs.Prelude.{None};

    ghost written = { λ _. None };

    ghost faults = { λ end. end.faults };

    fn put(&mut self, piece: &[u8]) -> Result<usize, IoFault>
        ensures within { IfOk result (λ n. n ≤ length piece.now) }
        ensures bytes { WriteAppends self.old.known self.new.known result piece.now }
        ensures positive { IfOk result (λ n. 0 < length piece.now → 0 < n) }
        ensures ok { OnOk result (self.new.faults ≡ self.old.faults) }
        ensures err { OnErr result (self.new.faults ≡ counted self.old.faults) }
        ensures faults { CountsFaults self.old.faults self.new.faults (IsErrOf result IoFault.Fault) }
        ensures no_memory { IsErrOf result IoFault.OutOfMemory → ⊥ }
    {
        match write_some(&mut self.writer, piece) {
            Ok(n) if n > 0 || piece.is_empty() => Ok(n),
            _ => {
                self.faults.add_one();
                Err(IoFault::Fault)
            }
        }
    }
}

/// Reads once. A call that the system interrupted is made again.
fn read_some<R: Read>(reader: &mut R, piece: &mut [u8]) -> Result<usize, IoFault>
    ensures within { IfOk result (λ n. n ≤ length piece.old) }
    ensures bytes { ReadConsumes (R.remaining reader.old) (R.remaining reader.new) result piece.new }
    ensures no_memory { IsErrOf result IoFault.OutOfMemory → ⊥ }
{
    for _ in 0..MOST_INTERRUPTED {
        match reader.read(piece) {
            Ok(n) => return Ok(n),
            Err(failed) => {
                if failed.kind() != ErrorKind::Interrupted {
                    return Err(IoFault::Fault);
                }
            }
        }
    }
    Err(IoFault::Fault)
}

/// Writes once. A call that the system interrupted is made again.
fn write_some<W: Write>(writer: &mut W, piece: &[u8]) -> Result<usize, IoFault>
    ensures within { IfOk result (λ n. n ≤ length piece.now) }
    ensures bytes { WriteAppends (W.contents writer.old) (W.contents writer.new) result piece.now }
    ensures no_memory { IsErrOf result IoFault.OutOfMemory → ⊥ }
{
    for _ in 0..MOST_INTERRUPTED {
        match writer.write(piece) {
            Ok(n) => return Ok(n),
            Err(failed) => {
                if failed.kind() != ErrorKind::Interrupted {
                    return Err(IoFault::Fault);
                }
            }
        }
    }
    Err(IoFault::Fault)
}
