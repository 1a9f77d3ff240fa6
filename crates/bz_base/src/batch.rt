//! What a batch makes of the answer to one of its addresses.

ghost use Rattle.std.specs.Prelude.{◌≡◌, Err, Result, IfOk, IfErr, IsErrOf};
ghost use Rattle.bz_base.specs.Answer.{Answer, Gives, in_batch, reading};
ghost use Rattle.bz_base.specs.Lent.{IsLent};
ghost use Rattle.bz_base.specs.Refusals.{IsFailure};
ghost use Rattle.bz_base.specs.declared.error.Error.{Error};

use crate::error::{Error, Result};
use crate::types::{Reason, Symbolized};

/// An answer as an entry of a batch. A refused address is an ignored error, while a failed read and
/// want of memory refuse the batch.
pub fn in_batch(answer: Result<Symbolized<'_>>) -> Result<Symbolized<'_>>
    ensures entry { IfOk result (λ entry. (expected : Result Answer Error) → Gives reading expected answer.entry → reading entry ≡ in_batch expected) }
    ensures lent { IfOk answer.entry IsLent → IfOk result IsLent }
    ensures refusal { IfErr result (λ e. answer.entry ≡ Err e) }
    ensures failure { IfErr result IsFailure }
    ensures failed { IfErr answer.entry (λ e. IsFailure e → IsErrOf result e) }
{
    match answer {
        Ok(answer) => Ok(answer),
        Err(Error::ReadFault) => Err(Error::ReadFault),
        Err(Error::OutOfMemory) => Err(Error::OutOfMemory),
        Err(_) => Ok(Symbolized::Unknown(Reason::IgnoredError)),
    }
}
