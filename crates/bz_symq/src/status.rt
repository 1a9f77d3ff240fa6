//! How a run ends.

ghost use Rattle.std.specs.Prelude.{◌≡◌, option_map};
ghost use Rattle.bz_symq.specs.Outcome.{code_of, message_of};

/// How a run ended.
#[derive(Clone, Copy, Debug, PartialEq, Eq)]
pub enum Status {
    /// 0: what was asked for was written.
    Done,
    /// 1: the source can't be asked, or the product can't be made; the refusal was written.
    Refused,
    /// 2: the words are no command.
    Usage,
    /// 3: the input is too long, or a line of it isn't well formed.
    Input,
    /// 4: reading or writing failed.
    Fault,
    /// 5: memory ran out.
    Memory,
}

impl Status {
    /// The number that the program ends with: 0 to 5.
    pub fn code(&self) -> u8
        ensures { result ≡ code_of self.now }
    {
        match self {
            Status::Done => 0,
            Status::Refused => 1,
            Status::Usage => 2,
            Status::Input => 3,
            Status::Fault => 4,
            Status::Memory => 5,
        }
    }

    /// What the status says by itself, without a line's end; none where standard output says why.
    pub fn message(&self) -> Option<&'static str>
        ensures { option_map (λ text. text.now) result ≡ message_of self.now }
    {
        match self {
            Status::Fault => Some("symq: reading or writing failed"),
            Status::Memory => Some("symq: out of memory"),
            _ => None,
        }
    }
}
