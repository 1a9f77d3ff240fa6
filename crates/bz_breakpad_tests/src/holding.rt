//! Whether files show what tables tell of them.

ghost use Rattle.std.specs.Prelude.{◌≡◌, ◌<◌};

use crate::answered::{Asked, is_answered};
use crate::fact::{ABSENT, Fact, Row};
use crate::found::has_batch;
use crate::named::{
    are_listed, has_function_names, has_name, has_names, has_names_in_file, has_public,
};
use crate::read::{Way, file_of, records_of};
use crate::told::is_told;
use crate::walked::is_walk;
use bz_base::{Steps, SymType};
use bz_breakpad::SymbolFile;
use bz_cache::Version;
use std::alloc::Global;
use std::marker::Brand;
use std::sync::ledger::{Blank, Ledger};

/// How many rows have a text whose file shows the row's facts, before one that hasn't.
pub(crate) fn count_until_failure(alloc: Global, rows: &[Row], way: &Way) -> usize {
    for index in 0..rows.len() {
        let (text, facts) = rows[index];
        if !holds(alloc, text, facts, way) {
            return index;
        }
    }
    rows.len()
}

/// Whether the text is a file that shows the facts.
fn holds(alloc: Global, text: &[u8], facts: &[Fact], way: &Way) -> bool {
    match file_of(alloc, text, way) {
        Ok(file) => shows_all::<Brand>(alloc, Blank::new(1), text, &file, facts),
        Err(_) => false,
    }
}

fn shows_all<L: Ledger>(
    alloc: Global,
    blank: Blank,
    text: &[u8],
    file: &SymbolFile,
    facts: &[Fact],
) -> bool
    requires name { blank.name ≡ L.name }
    requires parts { blank.parts ≡ L.parts }
    requires positive { 0 < L.parts }
{
    file.formed();
    let mut steps = Steps::<L>::new(blank);
    for fact in facts {
        if !shows(alloc, text, file, fact, &mut steps) {
            return false;
        }
    }
    true
}

/// Whether the file of the text shows this.
fn shows<L: Ledger>(
    alloc: Global,
    text: &[u8],
    file: &SymbolFile,
    fact: &Fact,
    steps: &mut Steps<L>,
) -> bool {
    match fact {
        Fact::Records(count) => records_of(alloc, text) == Ok(*count),
        Fact::Counts(functions, files, publics) => {
            (
                file.function_count(),
                file.file_count(),
                file.public_count(),
            ) == (*functions, *files, *publics)
        }
        Fact::Module(name) => file.module().unwrap_or(ABSENT) == *name,
        Fact::Name(id, name, origin) => has_name(file, *id, name, origin),
        Fact::Names(files, origins) => has_names(alloc, file, files, origins),
        Fact::Public(index, public) => has_public(file, *index, public),
        Fact::Publics(publics) => are_listed(file.publics(alloc), publics),
        Fact::Walk(last, infos) => is_walk(file, SymType::Undefined, last, infos, Ok(())),
        Fact::Functions(names) => has_function_names(file, names, steps),
        Fact::InFile(names) => has_names_in_file(file, names),
        Fact::Function(addr, told) => is_told(alloc, file, *addr, told, steps),
        Fact::Answer(addr, opts, answer) => {
            let asked = Asked {
                addr: *addr,
                opts,
                answer,
            };
            is_answered(alloc, file, &asked, steps)
        }
        Fact::Batch(addrs, opts, records, answers) => {
            has_batch(alloc, file, addrs, opts, records, answers, steps)
        }
    }
}
