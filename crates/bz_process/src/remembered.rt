//! What is remembered of a process.

ghost use Rattle.std.specs.Prelude.{◌≡◌, string_bytes, IfOk, IsOkUnless};
ghost use Rattle.bz_base.specs.declared.error.Error.{Error};

use bz_base::Result;
use std::alloc::Global;
use std::marker::Model;
use std::rc::Rc;

/// What is remembered of a process: the id by which it knows itself, and the path of its perf map.
/// It may be shared.
#[derive(Drop)]
pub(crate) struct RememberedProcess {
    id: u32,
    perf_map: Rc<String>,
}

impl Model for RememberedProcess {
    ghost use Rattle.std.specs.Prelude.{string_bytes};
    ghost use Rattle.bz_process.specs.Remembered.{Remembered, coded_remembered};

    ghost Value = { Remembered };

    ghost coded = { coded_remembered };

    ghost view = { λ known. record { id = known.id; perf_map = string_bytes known.perf_map.value } };
}

impl RememberedProcess {
    /// What is to be remembered.
    pub(crate) fn new(alloc: Global, id: u32, perf_map: String) -> Result<RememberedProcess>
        ensures known { IfOk result (λ known. known ≡ record { id = id; perf_map = string_bytes perf_map }) }
        ensures memory { IsOkUnless result Error.OutOfMemory }
    {
        let perf_map = Rc::new(alloc, perf_map)?;
        Ok(RememberedProcess { id, perf_map })
    }

    /// A further handle to the same.
    pub(crate) fn share(&self) -> Result<RememberedProcess>
        ensures known { IfOk result (λ known. known ≡ self.now) }
        ensures memory { IsOkUnless result Error.OutOfMemory }
    {
        let perf_map = self.perf_map.clone()?;
        Ok(RememberedProcess {
            id: self.id,
            perf_map,
        })
    }

    /// The path of the perf map.
    pub(crate) fn perf_map(&self) -> &str
        ensures { result.now ≡ self.now.perf_map }
    {
        self.perf_map.as_ref().as_str()
    }
}
