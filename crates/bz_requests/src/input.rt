//! The input of a run, and the addresses that its lines say.

ghost use Rattle.std.specs.Prelude.{◌≡◌, ◌+◌, ◌<◌, ◌≤◌, ◌++◌, [], ℕ, List, Some, Ok, Err, length, vec_len, IfOk, IsErrOf};
ghost use Rattle.bz_files.specs.Count.{CountsFaults};
ghost use Rattle.bz_files.specs.World.{Told};
ghost use Rattle.bz_requests.specs.Addresses.{addresses_in};
ghost use Rattle.bz_requests.specs.InputText.{greatest_input, left_over, room_after, Moves, MovesAtMost};

use crate::lines::{BadInput, read_lines};
use bz_files::{IoFault, TextIn};
use std::alloc::Global;

/// The greatest length of an input, in bytes.
const GREATEST_INPUT: usize = 16_777_216;

/// How many bytes are asked for at a time.
const READ_SIZE: usize = 16_384;

/// Why the input wasn't read to its end.
#[derive(Drop)]
pub enum ReadStop {
    /// It is longer than an input may be.
    TooLong,
    /// Reading failed.
    Fault,
    /// Memory ran out.
    Memory,
}

/// The whole input. Of one that is too long, one byte past the greatest length is read.
pub fn read_input<R: TextIn>(alloc: Global, input: &mut R) -> std::result::Result<Vec<u8>, ReadStop>
    ensures whole { Told (R.left input.old) (λ text. IfOk result (λ bytes. bytes.items ≡ text)) }
    ensures short { IfOk result (λ bytes. vec_len bytes ≤ greatest_input) }
    ensures long { Told (R.left input.old) (λ text. IsErrOf result ReadStop.TooLong → greatest_input < length text) }
    ensures end { Told (R.left input.old) (λ text. IfOk result (λ bytes. R.left input.new ≡ Some [])) }
    ensures past { Told (R.left input.old) (λ text. IsErrOf result ReadStop.TooLong → R.left input.new ≡ Some (left_over text)) }
    ensures bounded { MovesAtMost (greatest_input + 1) (R.left input.old) (R.left input.new) }
    ensures faults { CountsFaults (R.faults input.old) (R.faults input.new) (IsErrOf result ReadStop.Fault) }
{
    let mut all = Vec::new(alloc);
    while all.len() <= GREATEST_INPUT {
        if read_piece(input, &mut all)? == 0 {
            return Ok(all);
        }
    }
    Err(ReadStop::TooLong)
}

// Reads the next piece to the end of what was read, and says how many bytes it has.
fn read_piece<R: TextIn>(input: &mut R, all: &mut Vec<u8>) -> std::result::Result<usize, ReadStop>
    requires { vec_len all.old ≤ greatest_input }
    ensures piece { IfOk result (λ n. (front : List ℕ) × (length front ≡ n) × (all.new.items ≡ all.old.items ++ front) × Moves (R.left input.old) (R.left input.new) front) }
    ensures end { Told (R.left input.old) (λ text. IfOk result (λ n. n ≡ 0 → text ≡ [])) }
    ensures bounded { MovesAtMost (room_after (vec_len all.old)) (R.left input.old) (R.left input.new) }
    ensures few { IfOk result (λ n. vec_len all.new ≤ greatest_input + 1) }
    ensures grown { IfOk result (λ n. vec_len all.new ≡ vec_len all.old + n) }
    ensures faults { CountsFaults (R.faults input.old) (R.faults input.new) (IsErrOf result ReadStop.Fault) }
    ensures never_long { IsErrOf result ReadStop.TooLong → ⊥ }
{
    let mut piece = [0u8; READ_SIZE];
    let room = READ_SIZE.min(GREATEST_INPUT + 1 - all.len());
    match input.take(&mut piece[..room]) {
        Ok(n) => match all.extend_from_slice(&piece[..n]) {
            Ok(()) => Ok(n),
            Err(_) => Err(ReadStop::Memory),
        },
        Err(IoFault::Fault) => Err(ReadStop::Fault),
        Err(IoFault::OutOfMemory) => Err(ReadStop::Memory),
    }
}

/// The addresses that the lines of an input's text say, in their order: one on each line, or none where
/// it is empty. A line says one by `0x` or nothing, and 1 to 16 hexadecimal digits. Else the refusal is
/// the number of the first line that says none and isn't empty, from 1; or memory ran out.
pub fn read_addrs(alloc: Global, text: &[u8]) -> std::result::Result<Vec<u64>, BadInput>
    ensures ok { IfOk result (λ addrs. addresses_in text.now ≡ Ok addrs.items) }
    ensures line { (n : ℕ) → IsErrOf result (BadInput.Line n) → addresses_in text.now ≡ Err n }
{
    read_lines::<u64>(alloc, text)
}
