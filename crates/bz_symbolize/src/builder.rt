//! How a symbolizer is made.

ghost use Rattle.std.specs.Prelude.{◌≡◌, map, option_map, string_bytes};
ghost use Rattle.bz_symbolize.specs.State.{default_settings, new_whole};

use crate::settings::Settings;
use crate::symbolizer::Symbolizer;
use bz_process::{NoDispatch, ProcessDispatch};
use std::alloc::Global;
use std::default::Default;
use std::marker::Model;

/// The settings of a symbolizer to be, and its dispatcher. All features start on.
#[derive(Drop)]
pub struct Builder<D: ProcessDispatch + Drop = NoDispatch> {
    settings: Settings,
    dispatcher: D,
}

impl<D: ProcessDispatch + Drop> Model for Builder<D> {
    ghost use Rattle.bz_symbolize.specs.State.{BuilderState, coded_builder};

    ghost Value = { BuilderState D };

    ghost coded = { coded_builder D.code };

    ghost view = { λ b. record { settings = b.settings; dispatcher = b.dispatcher } };
}

impl Builder<NoDispatch> {
    /// A builder with all features on, and a dispatcher that gives no resolver.
    pub fn new() -> Builder<NoDispatch>
        ensures { result.settings ≡ default_settings }
    {
        Builder {
            settings: Settings {
                reload: true,
                code_info: true,
                inlined: true,
                demangling: true,
                debug_dirs: None,
            },
            dispatcher: NoDispatch,
        }
    }
}

impl<D: ProcessDispatch + Drop> Builder<D> {
    /// Whether files are looked at anew at each call. Else a file answers by the version that was
    /// taken in first.
    pub fn enable_auto_reload(mut self, enable: bool) -> Builder<D>
        ensures { result ≡ record self { settings = record self.settings { reload = enable } } }
    {
        self.settings.reload = enable;
        self
    }

    /// Whether answers have code info: sites in source code.
    pub fn enable_code_info(mut self, enable: bool) -> Builder<D>
        ensures { result ≡ record self { settings = record self.settings { code_info = enable } } }
    {
        self.settings.code_info = enable;
        self
    }

    /// Whether answers have inlined calls. They have none without code info.
    pub fn enable_inlined_fns(mut self, enable: bool) -> Builder<D>
        ensures { result ≡ record self { settings = record self.settings { inlined = enable } } }
    {
        self.settings.inlined = enable;
        self
    }

    /// Whether names are demangled. It has no effect: names stay as they are.
    pub fn enable_demangling(mut self, enable: bool) -> Builder<D>
        ensures { result ≡ record self { settings = record self.settings { demangling = enable } } }
    {
        self.settings.demangling = enable;
        self
    }

    /// Where debug files are looked for. It has no effect: none are.
    pub fn set_debug_dirs(mut self, dirs: Option<Vec<String>>) -> Builder<D>
        ensures { result ≡ record self { settings = record self.settings { debug_dirs = option_map (λ all. map string_bytes all.items) dirs } } }
    {
        self.settings.debug_dirs = dirs;
        self
    }

    /// Which dispatcher says what answers for what processes have mapped.
    pub fn set_process_dispatcher<E: ProcessDispatch + Drop>(self, dispatcher: E) -> Builder<E>
        ensures { result ≡ record { settings = self.settings; dispatcher = dispatcher } }
    {
        Builder {
            settings: self.settings,
            dispatcher,
        }
    }

    /// A symbolizer that keeps nothing yet.
    pub fn build(self, alloc: Global) -> Symbolizer<D>
        ensures { result ≡ new_whole self.settings self.dispatcher }
    {
        Symbolizer::with_settings(alloc, self.settings, self.dispatcher)
    }
}

impl Default for Builder<NoDispatch> {
    ghost is_default = { λ b. b.settings ≡ default_settings };

    fn default() -> Builder<NoDispatch> {
        Builder::new()
    }
}
