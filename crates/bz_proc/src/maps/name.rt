//! What a mapping is of.

ghost use Rattle.std.specs.Prelude.{◌≡◌, option_map, string_bytes, IfOk, IsOkUnless};
ghost use Rattle.bz_base.specs.declared.error.Error.{Error};
ghost use Rattle.bz_proc.specs.Maps.{maps_file, name_of, name_told, symbolic_path};

use crate::maps::{EntryPath, PathName};
use bz_base::{Addr, Error, Pid, Result};
use std::alloc::Global;

/// What the text says that a mapping from `start` to before `end` is of.
pub(crate) fn path_name(
    alloc: Global,
    pid: Pid,
    start: Addr,
    end: Addr,
    text: &str,
) -> Result<Option<PathName>>
    ensures ok { IfOk result (λ name. option_map name_of name ≡ name_told pid start «end» text.now) }
    ensures memory { IsOkUnless result Error.OutOfMemory }
{
    match text.as_bytes() {
        [] => Ok(None),
        [b'/', ..] => {
            let maps_file = maps_file(alloc, pid, start, end)?;
            let symbolic_path = String::from_str(alloc, symbolic_path(text))?;
            Ok(Some(PathName::Path(EntryPath {
                maps_file,
                symbolic_path,
            })))
        }
        _ => {
            let text = String::from_str(alloc, text)?;
            Ok(Some(PathName::Component(text)))
        }
    }
}

/// The path in `/proc` that stands for a mapping.
fn maps_file(alloc: Global, pid: Pid, start: Addr, end: Addr) -> Result<String>
    ensures path { IfOk result (λ path. string_bytes path ≡ maps_file pid start «end») }
    ensures memory { IsOkUnless result Error.OutOfMemory }
{
    let path = format!(in alloc; "/proc/{pid}/map_files/{start:x}-{end:x}")?;
    Ok(path)
}

/// The path of a file, without the one mark of deletion that may end it.
fn symbolic_path(text: &str) -> &str
    ensures { result.now ≡ symbolic_path text.now }
{
    match text.strip_suffix(" (deleted)") {
        Some(path) => path,
        None => text,
    }
}
