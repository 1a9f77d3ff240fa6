//! How a symbolizer is set.

ghost use Rattle.std.specs.Prelude.{◌≡◌};
ghost use Rattle.bz_symbolize.specs.State.{opts_of};

use bz_base::FindSymOpts;
use std::marker::Model;

/// The settings of a symbolizer, and of one to be.
#[derive(Drop)]
pub(crate) struct Settings {
    /// Whether files are looked at anew at each call.
    pub(crate) reload: bool,
    /// Whether answers have code info: sites in source code.
    pub(crate) code_info: bool,
    /// Whether answers with code info have inlined calls too.
    pub(crate) inlined: bool,
    /// Whether names are demangled. It is kept and has no effect.
    pub(crate) demangling: bool,
    /// Where debug files are looked for. It is kept and has no effect.
    pub(crate) debug_dirs: Option<Vec<String>>,
}

impl Model for Settings {
    ghost use Rattle.std.specs.Prelude.{map, option_map, string_bytes};
    ghost use Rattle.bz_symbolize.specs.State.{Settings, coded_settings};

    ghost Value = { Settings };

    ghost coded = { coded_settings };

    ghost view = { λ s. record { reload = s.reload; code_info = s.code_info; inlined = s.inlined; demangling = s.demangling; debug_dirs = option_map (λ dirs. map string_bytes dirs.items) s.debug_dirs } };
}

impl Settings {
    /// What answers have beside their symbols.
    pub(crate) fn opts(&self) -> FindSymOpts
        ensures { result ≡ opts_of self.now }
    {
        FindSymOpts::by(self.code_info, self.inlined)
    }
}
