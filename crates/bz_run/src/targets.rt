//! What a run is asked for, as words say it.

ghost use Rattle.std.specs.Prelude.{◌≡◌};
ghost use Rattle.bz_base.specs.InputKind.{address_kind};
ghost use Rattle.bz_requests.specs.Requests.{target_of};
ghost use Rattle.bz_run.specs.Run.{asked_product, asked_target};
ghost use Rattle.bz_words.specs.Command.{product_of};
ghost use Rattle.bz_symq.specs.Command;

use bz_base::Input;
use bz_requests::{Config, Target};
use bz_symq::FileTarget;
use bz_words::Product;

/// The target of a request, as one of a batch: it lends the path.
pub(crate) fn asked_target(target: &Target) -> bz_symq::Target<'_>
    ensures { Rattle.bz_symq.specs.Command.target_of result ≡ asked_target (target_of target.now) }
{
    match target {
        Target::Breakpad(path) => bz_symq::Target::File(FileTarget::Breakpad(path.as_str())),
        Target::Gsym(path) => bz_symq::Target::File(FileTarget::Gsym(path.as_str())),
        Target::Elf(path) => bz_symq::Target::File(FileTarget::Elf(path.as_str())),
        Target::Process(number) => bz_symq::Target::Process(*number),
    }
}

/// The batch that words ask a target for, under the settings of their command: it lends the path.
pub(crate) fn asked_batch(target: &Target, kind: Input<()>, config: Config) -> bz_symq::Batch<'_>
    ensures { Rattle.bz_symq.specs.Command.asking_of result ≡ record { target = asked_target (target_of target.now); kind = address_kind kind; config = config } }
{
    bz_symq::Batch {
        target: asked_target(target),
        kind,
        config,
    }
}

/// The product that words ask for, as one of a run: it lends the path.
pub(crate) fn asked_product(product: &Product) -> bz_symq::Product<'_>
    ensures { Rattle.bz_symq.specs.Command.product_of result ≡ asked_product (product_of product.now) }
{
    match product {
        Product::Converted(path) => bz_symq::Product::Converted(path.as_str()),
        Product::Canonical(path) => bz_symq::Product::Canonical(path.as_str()),
    }
}
