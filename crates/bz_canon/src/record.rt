//! The lines of the records of a canonical text.

ghost use Rattle.std.specs.Prelude.{◌≡◌, ◌∷◌, ◌++◌, [], option_map, OnOk, IsOkUnless};
ghost use Rattle.bz_base.specs.Byte.{line_feed};
ghost use Rattle.bz_base.specs.Line.{ended};
ghost use Rattle.bz_base.specs.declared.error.Error.{Error};
ghost use Rattle.bz_breakpad.specs.Lent.{inlinee_seen};
ghost use Rattle.bz_breakpad.specs.Listed.{lent_public};
ghost use Rattle.bz_breakpad_lines.specs.Contexts.Record.{OfFunc};
ghost use Rattle.bz_breakpad_lines.specs.Printed.{func_record, inlinee_one, line_one, module_records, public_record};
ghost use Rattle.bz_breakpad_lines.specs.Told.{line_seen};
ghost use Rattle.bz_breakpad_lines.specs.Written.{record_text, records_text};
ghost use Rattle.bz_canon.specs.Parts.{named_line};

use crate::piece::Piece;
use bz_base::{Error, Result};
use bz_breakpad::{Function, Inlinee, PublicSymbol, SourceLine};

/// The MODULE record of a name, if there is one.
pub(crate) fn push_module(text: &mut Vec<u8>, name: Option<&str>) -> Result<()>
    ensures ok { OnOk result (text.new.items ≡ text.old.items ++ records_text (module_records (option_map (λ name. name.now) name.entry))) }
    ensures memory { IsOkUnless result Error.OutOfMemory }
{
    if let Some(name) = name {
        text.extend_from_slice(b"MODULE - - - ")?;
        push_name(text, name)?;
    }
    Ok(())
}

/// A record of an id and its name: its tag, the id and the name.
pub(crate) fn push_named(text: &mut Vec<u8>, tag: &str, id: u32, name: &str) -> Result<()>
    ensures ok { OnOk result (text.new.items ≡ text.old.items ++ named_line tag.now (id, name.now)) }
    ensures memory { IsOkUnless result Error.OutOfMemory }
{
    let mut piece = Piece::new();
    piece.put(b' ');
    piece.put_decimal(id);
    piece.put(b' ');
    text.extend_from_slice(tag.as_bytes())?;
    text.extend_from_slice(piece.as_slice())?;
    push_name(text, name)
}

/// A PUBLIC record.
pub(crate) fn push_public(text: &mut Vec<u8>, public: &PublicSymbol<'_>) -> Result<()>
    ensures ok { OnOk result (text.new.items ≡ text.old.items ++ ended (record_text (public_record (lent_public public.now)))) }
    ensures memory { IsOkUnless result Error.OutOfMemory }
{
    let mut piece = Piece::new();
    piece.put(b' ');
    piece.put_hex(public.parameter_size as u64);
    piece.put(b' ');
    piece.put_hex(public.addr);
    piece.put_bytes(b"PUBLIC ");
    text.extend_from_slice(piece.as_slice())?;
    push_name(text, public.name)
}

/// A FUNC record.
pub(crate) fn push_func(text: &mut Vec<u8>, function: &Function<'_>) -> Result<()>
    ensures ok { OnOk result (text.new.items ≡ text.old.items ++ ended (record_text (func_record function.now))) }
    ensures memory { IsOkUnless result Error.OutOfMemory }
{
    let mut piece = Piece::new();
    piece.put(b' ');
    piece.put_hex(function.parameter_size() as u64);
    piece.put(b' ');
    piece.put_hex(function.size() as u64);
    piece.put(b' ');
    piece.put_hex(function.addr());
    piece.put_bytes(b"FUNC ");
    text.extend_from_slice(piece.as_slice())?;
    push_name(text, function.name())
}

/// An INLINE record of one range.
pub(crate) fn push_inlinee(text: &mut Vec<u8>, inlinee: &Inlinee) -> Result<()>
    ensures ok { OnOk result (text.new.items ≡ text.old.items ++ ended (record_text (OfFunc (inlinee_one (inlinee_seen inlinee.now))))) }
    ensures memory { IsOkUnless result Error.OutOfMemory }
{
    let mut piece = Piece::new();
    piece.put(b'\n');
    piece.put_hex(inlinee.size as u64);
    piece.put(b' ');
    piece.put_hex(inlinee.addr);
    piece.put(b' ');
    piece.put_decimal(inlinee.origin_id);
    piece.put(b' ');
    piece.put_decimal(inlinee.call_file);
    piece.put(b' ');
    piece.put_decimal(inlinee.call_line);
    piece.put(b' ');
    piece.put_decimal(inlinee.depth);
    piece.put_bytes(b"INLINE ");
    text.extend_from_slice(piece.as_slice())?;
    Ok(())
}

/// A line record.
pub(crate) fn push_line(text: &mut Vec<u8>, line: &SourceLine) -> Result<()>
    ensures ok { OnOk result (text.new.items ≡ text.old.items ++ ended (record_text (OfFunc (line_one (line_seen line.now))))) }
    ensures memory { IsOkUnless result Error.OutOfMemory }
{
    let mut piece = Piece::new();
    piece.put(b'\n');
    piece.put_decimal(line.file);
    piece.put(b' ');
    piece.put_decimal(line.line);
    piece.put(b' ');
    piece.put_hex(line.size as u64);
    piece.put(b' ');
    piece.put_hex(line.addr);
    text.extend_from_slice(piece.as_slice())?;
    Ok(())
}

/// A name, at the end of its record.
fn push_name(text: &mut Vec<u8>, name: &str) -> Result<()>
    ensures ok { OnOk result (text.new.items ≡ text.old.items ++ (name.now ++ line_feed ∷ [])) }
    ensures memory { IsOkUnless result Error.OutOfMemory }
{
    text.extend_from_slice(name.as_bytes())?;
    text.push(b'\n')?;
    Ok(())
}
