//! The stacks that lines spell.

ghost use Rattle.std.specs.Prelude.{◌≡◌, ℕ, Ok, Err, map, IfOk, IsErrOf};
ghost use Rattle.bz_requests.specs.Addresses.{each_address_in};
ghost use Rattle.bz_stacks.specs.Spelling.{count_in, stack_by, stack_in, stacks_in, taken_by};
ghost use Rattle.bz_stacks.specs.Stack.{CountedStack};

use crate::error::StackError;
use crate::stack::Stack;
use bz_base::whole_u32;
use bz_requests::{BadInput, FromLine, each_address, fields, read_lines};
use std::alloc::{AllocError, Global};

/// The stacks that the lines of the input say: one on each line that isn't empty. Such a line is one or
/// more addresses, the outermost first, and then a count below 2^32, with one space between each two.
/// Line: the first line that is no stack. OutOfMemory: memory ran out.
pub fn read_stacks(alloc: Global, text: &[u8]) -> Result<Vec<Stack>, StackError>
    ensures ok { IfOk result (λ stacks. stacks_in text.now ≡ Ok stacks.items) }
    ensures line { (n : ℕ) → IsErrOf result (StackError.Line n) → stacks_in text.now ≡ Err n }
{
    match read_lines::<Stack>(alloc, text) {
        Ok(stacks) => Ok(stacks),
        Err(BadInput::Line(number)) => Err(StackError::Line(number)),
        Err(BadInput::OutOfMemory) => Err(StackError::OutOfMemory),
    }
}

impl FromLine for Stack {
    ghost Data = { CountedStack };

    ghost data_of = { λ stack. stack };

    ghost reads = { stack_in };

    fn from_line(alloc: Global, content: &[u8]) -> Result<Option<Stack>, AllocError> {
        spelled_stack(alloc, content)
    }
}

// The stack that the text spells.
#[tactic(auto, unfolding(crate::specs::Spelling::stack_in))]
fn spelled_stack(alloc: Global, text: &[u8]) -> Result<Option<Stack>, AllocError>
    ensures { IfOk result (λ stack. stack ≡ stack_in text.now) }
{
    let fields = fields(alloc, text)?;
    stack_of_fields(alloc, fields.as_slice())
}

// The stack of a line's fields: addresses, one at least, and then the count.
fn stack_of_fields(alloc: Global, fields: &[&[u8]]) -> Result<Option<Stack>, AllocError>
    ensures { IfOk result (λ stack. stack ≡ stack_by (map (λ field. field.now) fields.now)) }
{
    let Some((last, front)) = fields.split_last() else {
        return Ok(None);
    };
    if front.is_empty() {
        return Ok(None);
    }
    counted_stack(alloc, front, last)
}

// The stack of addresses and a count.
fn counted_stack(alloc: Global, front: &[&[u8]], last: &[u8]) -> Result<Option<Stack>, AllocError>
    ensures { IfOk result (λ stack. stack ≡ taken_by (each_address_in (map (λ field. field.now) front.now)) (count_in last.now)) }
{
    let Some(addrs) = each_address(alloc, front)? else {
        return Ok(None);
    };
    match whole_u32(last) {
        Some(count) => Ok(Some(Stack::new(addrs, count))),
        None => Ok(None),
    }
}
