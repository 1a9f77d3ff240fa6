//! The path of a site in source code.

ghost use Rattle.std.specs.Prelude.{◌≡◌, true, Some, IfOk, IfNone, IsOk, IsOkUnless};
ghost use Rattle.std.specs.Cow.{cow_str_bytes};
ghost use Rattle.bz_base.specs.Answer.{site_of};
ghost use Rattle.bz_bytes.specs.Path.{begins_with_slash, path_text};

use crate::error::{Error, Result};
use crate::types::CodeInfo;
use bz_bytes::{begins_with_slash, slash_after};
use std::alloc::Global;
use std::borrow::CowStr;

impl CodeInfo<'_> {
    /// The path of the file: after its directory, unless it has none or begins with a slash itself.
    pub fn to_path(&self, alloc: Global) -> Result<CowStr<'_>>
        ensures path { IfOk result (λ path. cow_str_bytes path ≡ path_text (site_of self.now).dir (site_of self.now).file) }
        ensures memory { IsOkUnless result Error.OutOfMemory }
        ensures no_memory { IfNone self.now.dir (IsOk result) }
        ensures rooted { begins_with_slash (site_of self.now).file ≡ true → IsOk result }
    {
        let file = self.file.as_str();
        match &self.dir {
            Some(dir) => joined(alloc, dir.as_str(), file),
            None => Ok(CowStr::Borrowed(file)),
        }
    }
}

/// The path of a file in a directory.
fn joined<'f>(alloc: Global, dir: &str, file: &'f str) -> Result<CowStr<'f>>
    ensures path { IfOk result (λ path. cow_str_bytes path ≡ path_text (Some dir.now) file.now) }
    ensures memory { IsOkUnless result Error.OutOfMemory }
    ensures rooted { begins_with_slash file.now ≡ true → IsOk result }
{
    if begins_with_slash(file) {
        return Ok(CowStr::Borrowed(file));
    }
    let mut path = String::new(alloc);
    path.push_str(dir)?;
    path.push_str(slash_after(dir))?;
    path.push_str(file)?;
    Ok(CowStr::Owned(path))
}
