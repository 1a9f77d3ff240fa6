//! What is made of one file.

ghost use Rattle.std.specs.Prelude.{◌≡◌, ◌≢◌, Err, Some, IfErr, IfOk, OnOk, IsOkUnless};
ghost use Rattle.bz_base.specs.declared.error.Error.{Error};
ghost use Rattle.bz_breakpad.specs.Grammar.{IsFile};
ghost use Rattle.bz_breakpad.specs.Reader.{table_in};
ghost use Rattle.bz_breakpad.specs.Resolver.{opened};
ghost use Rattle.bz_breakpad.specs.Table.{Table};
ghost use Rattle.bz_cache.specs.Format.{GivesOrFaults};
ghost use Rattle.bz_convert.specs.Converted.{conversion};
ghost use Rattle.bz_convert.specs.declared.error.ConvertError.{ConvertError};
ghost use Rattle.bz_files.specs.Count.{counted};
ghost use Rattle.bz_files.specs.Looked.{Faulted, Looked, ReadsOne};
ghost use Rattle.bz_files.specs.World.{Told, entry_at, in_view};
ghost use Rattle.bz_symq.specs.Command.{product_of, Breakpad};
ghost use Rattle.bz_symq.specs.Outcome.{by_product};
ghost use Rattle.bz_symq.specs.Products.{by_conversion, made_in, made_of, path_of};
ghost use Rattle.bz_symq.specs.Reply.{outcome_of, IsDoneReply, IsProductReply, IsProductStatus, IsSomeCauseOrFails, IsUnmadeReply, Replies};
ghost use Rattle.bz_symq.specs.Targets.{IsSomeFileCause};
ghost use Rattle.bz_symq.specs.declared.status.Status.{Status};
ghost use Rattle.bz_symq.specs.Turns.{ReadsOneFor};

use crate::command::Product;
use crate::reply::{Reply, made_reply, refusal, refused_as};
use bz_base::{Error, Result};
use bz_breakpad::SymbolFile;
use bz_canon::canonical;
use bz_convert::{ConvertError, convert};
use bz_files::Files;
use std::alloc::Global;

/// The reply to a command that asks for a product: what its file makes, or the refusal.
pub(crate) fn reply_with_product<F: Files>(
    alloc: Global,
    product: &Product<'_>,
    files: &mut F,
) -> Result<Reply>
    ensures reply { Told (in_view (F.worlds files.old)) (λ world. Replies (by_product (made_in (product_of product.now) world)) result) }
    ensures answered { IfOk result (λ given. IsProductReply (product_of product.now) given) }
    ensures refusal { IfOk result (λ given. IsUnmadeReply (product_of product.now) given) }
    ensures status { IfOk result (λ given. IsProductStatus given.status) }
    ensures opens { ReadsOneFor F.Files (IsDoneReply result) files.old files.new }
    ensures files { Looked F.Files files.old files.new (Faulted result) }
{
    match read_file(alloc, path_of(product), files) {
        Ok(file) => reply_of(alloc, product, &file),
        Err(error) => refusal(alloc, error),
    }
}

// The path of the Breakpad file that the product is made of.
fn path_of<'a>(product: &Product<'a>) -> &'a str
    ensures { result.now ≡ path_of (product_of product.now) }
{
    match product {
        Product::Converted(path) | Product::Canonical(path) => path,
    }
}

// The Breakpad file at the path.
fn read_file<F: Files>(alloc: Global, path: &str, files: &mut F) -> Result<SymbolFile>
    ensures answer { Told (in_view (F.worlds files.old)) (λ world. GivesOrFaults (λ file. file) (opened (entry_at world path.now)) result) }
    ensures accepted { IfOk result (λ file. (table : Table) × (table_in file ≡ Some table) × IsFile file table) }
    ensures refusal { IfErr result (λ error. IsSomeCauseOrFails (IsSomeFileCause (Breakpad path.now)) error) }
    ensures opened { OnOk result (F.opens files.new ≡ counted (F.opens files.old)) }
    ensures most { ReadsOne F.Files files.old files.new }
    ensures files { Looked F.Files files.old files.new (Faulted result) }
{
    let bytes = files.read(alloc, path)?;
    let file = SymbolFile::from_bytes(alloc, bytes)?;
    Ok(file)
}

// What a file makes.
fn reply_of(alloc: Global, product: &Product<'_>, file: &SymbolFile) -> Result<Reply>
    ensures reply { (table : Table) → table_in file.now ≡ Some table → IfOk result (λ given. outcome_of given ≡ by_product (made_of (product_of product.now) table)) }
    ensures status { IfOk result (λ given. IsProductStatus given.status) }
    ensures memory { IsOkUnless result Error.OutOfMemory }
{
    match product {
        Product::Converted(_) => reply_of_conversion(alloc, file),
        Product::Canonical(_) => Ok(made_reply(canonical(alloc, file)?)),
    }
}

// What a file is converted to, or the refusal.
fn reply_of_conversion(alloc: Global, file: &SymbolFile) -> Result<Reply>
    ensures reply { (table : Table) → table_in file.now ≡ Some table → IfOk result (λ given. outcome_of given ≡ by_product (by_conversion (conversion table))) }
    ensures status { IfOk result (λ given. IsProductStatus given.status) }
    ensures memory { IsOkUnless result Error.OutOfMemory }
{
    match convert(alloc, file) {
        Ok(bytes) => Ok(made_reply(bytes)),
        Err(error) => unconverted(alloc, error),
    }
}

// The reply to a refused conversion; want of memory stays one.
fn unconverted(alloc: Global, error: ConvertError) -> Result<Reply>
    ensures reply { IfOk result (λ given. (error ≢ ConvertError.OutOfMemory) × (outcome_of given ≡ by_product (by_conversion (Err error)))) }
    ensures status { IfOk result (λ given. given.status ≡ Status.Refused) }
    ensures memory { IsOkUnless result Error.OutOfMemory }
{
    match error {
        ConvertError::OutOfMemory => Err(Error::OutOfMemory),
        refusal => refused_as(alloc, refusal.name()),
    }
}
