//! What kind of address is looked up.

ghost use Rattle.std.specs.Prelude.{◌≡◌};
ghost use Rattle.bz_base.specs.InputKind.{address_kind, payload, MapsTo};

/// An address, or several, with what they are relative to.
#[derive(Clone, Copy, Debug, PartialEq)]
pub enum Input<T> {
    /// An address as a running process sees it.
    AbsAddr(T),
    /// An address as a symbol table has it.
    VirtOffset(T),
    /// An offset in the file that the source names: for a Breakpad file an address relative to the
    /// module's base, as its records have it.
    FileOffset(T),
}

impl<T> Input<T> {
    /// The same kind of input, with what `f` makes of the payload.
    pub fn map<F, U>(&self, f: F) -> Input<U>
    where
        T: Copy,
        F: FnOnce(T) -> U,
        requires { F.pre f (payload self.now) }
        ensures { MapsTo (F.post f) self.now result }
    {
        match self {
            Input::AbsAddr(x) => Input::AbsAddr(f(*x)),
            Input::VirtOffset(x) => Input::VirtOffset(f(*x)),
            Input::FileOffset(x) => Input::FileOffset(f(*x)),
        }
    }

    /// The payload, lent.
    pub fn as_inner_ref(&self) -> &T
        ensures { result.now ≡ payload self.now }
    {
        match self {
            Input::AbsAddr(x) | Input::VirtOffset(x) | Input::FileOffset(x) => x,
        }
    }

    /// The payload.
    pub fn into_inner(self) -> T
        ensures { result ≡ payload self }
    {
        match self {
            Input::AbsAddr(x) | Input::VirtOffset(x) | Input::FileOffset(x) => x,
        }
    }
}

impl Input<()> {
    /// The same kind of input, with a payload.
    pub fn with<T>(self, inner: T) -> Input<T>
        ensures kind { address_kind result ≡ address_kind self }
        ensures payload { payload result ≡ inner }
    {
        match self {
            Input::AbsAddr(()) => Input::AbsAddr(inner),
            Input::VirtOffset(()) => Input::VirtOffset(inner),
            Input::FileOffset(()) => Input::FileOffset(inner),
        }
    }
}
