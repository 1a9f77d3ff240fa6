//! Where the symbol file of a module lies.

ghost use Rattle.std.specs.Prelude.{◌≡◌, IfOk, IsOkUnless, string_bytes};
ghost use Rattle.bz_base.specs.declared.error.Error.{Error};
ghost use Rattle.bz_store.specs.Frames.{is_good, is_good_name, key_of, symbol_path};

use crate::frame::FileKey;
use bz_base::Result;
use std::alloc::Global;

/// Whether module and id are both names that a folder can have.
pub(crate) fn is_good(key: &FileKey) -> bool
    ensures { result ≡ is_good (key_of key.now) }
{
    is_good_name(key.name.as_str()) && is_good_name(key.id.as_str())
}

// Whether a folder can have the name.
fn is_good_name(name: &str) -> bool
    ensures { result ≡ is_good_name name.now }
{
    let bytes = name.as_bytes();
    !(name.is_empty() || name == "." || name == ".." || bytes.contains(&b'/') || bytes.contains(&0))
}

/// The path of the symbol file in a store that lies at the root.
pub(crate) fn symbol_path(alloc: Global, root: &str, key: &FileKey) -> Result<String>
    ensures ok { IfOk result (λ path. string_bytes path ≡ symbol_path root.now (key_of key.now)) }
    ensures memory { IsOkUnless result Error.OutOfMemory }
{
    let mut path = String::from_str(alloc, root)?;
    path.push_str("/")?;
    path.push_str(key.name.as_str())?;
    path.push_str("/")?;
    path.push_str(key.id.as_str())?;
    path.push_str("/")?;
    path.push_str(key.name.as_str())?;
    path.push_str(".sym")?;
    Ok(path)
}
