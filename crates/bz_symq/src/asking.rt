//! How the symbolizer of a run is made.

ghost use Rattle.std.specs.Prelude.{◌≡◌};
ghost use Rattle.bz_symq.specs.Kept.{kept_of, new_kept, settings_of};

use bz_requests::Config;
use bz_symbolize::Symbolizer;
use std::alloc::Global;

/// A symbolizer that keeps nothing yet.
pub fn new_symbolizer(alloc: Global, config: Config) -> Symbolizer
    ensures { kept_of result ≡ new_kept (settings_of config) }
{
    Symbolizer::builder()
        .enable_auto_reload(config.reload)
        .enable_code_info(config.code_info)
        .enable_inlined_fns(config.inlined)
        .build(alloc)
}
