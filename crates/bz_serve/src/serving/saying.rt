//! What is said of an answer, and of a refusal.

ghost use Rattle.std.specs.Prelude.{◌≡◌};
ghost use Rattle.bz_base.specs.Answer.{reading};
ghost use Rattle.bz_serve.specs.Serving.{Says, SaysRefusal};
ghost use Rattle.bz_serve.specs.RequestSteps.{okay};
ghost use Rattle.bz_canon.specs.AnswerText.{answer_text};
ghost use Rattle.bz_symq.specs.Reply.{text_of};

use bz_base::{Addr, Error, Result, Symbolized};
use bz_canon::answer_text;
use bz_symq::{Said, refusal};
use std::alloc::Global;
use std::borrow::CowStr;

/// The answer at an address by its text.
pub(crate) fn said_answer(alloc: Global, addr: Addr, answer: &Symbolized<'_>) -> Result<Said>
    ensures { Says (answer_text addr (reading answer.now)) result }
{
    let text = answer_text(alloc, addr, answer)?;
    Ok(Said::Text(CowStr::Owned(text)))
}

/// A refusal by its name; a failure stays one.
pub(crate) fn said_refusal(alloc: Global, error: Error) -> Result<Said>
    ensures { SaysRefusal error result }
{
    let reply = refusal(alloc, error)?;
    Ok(reply.said)
}

/// That it was done.
pub(crate) fn said_okay() -> Said
    ensures { text_of result ≡ okay tt }
{
    Said::Text(CowStr::Borrowed("ok\n"))
}
