//! Perf maps: the functions that a process compiled for itself.

ghost use Rattle.std.specs.Prelude.{◌≡◌, List, None, Ok, Some, false, IfOk, IfErr, IsOkUnless, OnOk, string_bytes};
ghost use Rattle.bz_base.specs.Lent.{IsLentResolved};
ghost use Rattle.bz_base.specs.Refusals.{MayRefuse};
ghost use Rattle.bz_base.specs.Resolution.{MayGive, StartsBefore, answer_seen, found_of};
ghost use Rattle.bz_base.specs.declared.error.Error.{Error};
ghost use Rattle.bz_cache.specs.Format.{GivesOrFaults, IsRefusalBy};
ghost use Rattle.bz_files.specs.Count.{counted};
ghost use Rattle.bz_files.specs.Looked.{Faulted, Looked, ReadsOne};
ghost use Rattle.bz_files.specs.World.{Told, entry_at, has_file, in_view};
ghost use Rattle.bz_proc.specs.PerfId.{IsOfStatus, ns_tgid_of, status_path};
ghost use Rattle.bz_proc.specs.PerfLine.{PerfFunction};
ghost use Rattle.bz_proc.specs.PerfLines.{perf_functions_in};
ghost use Rattle.bz_proc.specs.PerfMap.{IsPerfMap, format_refusals, format_test, plain};
ghost use Rattle.bz_proc.specs.PerfPath.{perf_map_path};
ghost use Rattle.bz_proc.specs.SystemText.{IsReadRefusal};

mod entry;
mod id;
mod line;

use bz_base::{
    Addr, FindSymOpts, Pid, Reason, ResolvedSym, Result, SrcLang, Symbolize, covering_in,
    sort_table,
};
use bz_cache::Version;
use bz_files::Files;
use entry::{PerfEntry, entries_in, name_at};
use id::ns_tgid_of;
use std::alloc::Global;
use std::marker::Model;

/// A perf map that owns its bytes. Beside them only numbers and places are kept. Contracts see the
/// bytes.
#[derive(Drop)]
pub struct PerfMap {
    bytes: Vec<u8>,
    /// The functions by start and size, those alike in both in the order of the map.
    entries: Vec<PerfEntry>,
}

impl Model for PerfMap {
    ghost use Rattle.std.specs.Prelude.{ℕ, List};
    ghost use Rattle.bz_proc.specs.PerfKept.{IsKept};

    ghost Value = { List ℕ };

    ghost view = { λ map. map.bytes.items };

    ghost invariant = { λ map. IsKept map.bytes.items map.entries.items };
}

impl PerfMap {
    /// Takes the bytes of a perf map. InvalidData: a line has another form.
    pub fn parse(alloc: Global, bytes: Vec<u8>) -> Result<PerfMap>
        ensures ok { IfOk result (λ map. map ≡ bytes.items) }
        ensures accepted { IfOk result (λ map. (functions : List PerfFunction) × (perf_functions_in bytes.items ≡ Some functions) × IsPerfMap bytes.items functions) }
        ensures formed { IfOk result (λ map. format_test bytes.items ≡ None) }
        ensures refusal { IfErr result (IsRefusalBy (format_test bytes.items)) }
    {
        let mut entries = entries_in(alloc, bytes.as_slice())?;
        sort_table(&mut entries)?;
        Ok(PerfMap { bytes, entries })
    }

    /// The path of the perf map of a process that knows itself by the id `ns_tgid`. The own process
    /// has the id `own`.
    pub fn path(alloc: Global, pid: Pid, own: u32, ns_tgid: u32) -> Result<String>
        ensures path { IfOk result (λ path. string_bytes path ≡ perf_map_path pid own ns_tgid) }
        ensures memory { IsOkUnless result Error.OutOfMemory }
    {
        let id = pid.resolve(own);
        let path = format!(in alloc; "/proc/{id}/root/tmp/perf-{ns_tgid}.map")?;
        Ok(path)
    }

    /// The id by which a process knows itself: the one that its status tells, or else the process's
    /// own. NotFound, PermissionDenied: there is no status that may be read. InvalidData: it isn't one.
    /// ReadFault: reading it failed.
    pub fn ns_tgid<F: Files>(alloc: Global, files: &mut F, pid: Pid) -> Result<u32>
        ensures answer { Told (in_view (F.worlds files.old)) (λ world. GivesOrFaults (λ id. id) (ns_tgid_of pid (F.pid files.old) (entry_at world (status_path pid))) result) }
        ensures opened { OnOk result (F.opens files.new ≡ counted (F.opens files.old)) }
        ensures spared { Told (in_view (F.worlds files.old)) (λ world. has_file (entry_at world (status_path pid)) ≡ false → F.opens files.new ≡ F.opens files.old) }
        ensures most { ReadsOne F.Files files.old files.new }
        ensures files { Looked F.Files files.old files.new (Faulted result) }
        ensures untold { IfOk result (IsOfStatus pid (F.pid files.old)) }
        ensures refusal { IfErr result IsReadRefusal }
    {
        let own = files.own_pid();
        ns_tgid_of(alloc, files, pid, own)
    }

    /// The function at an address, or that the address isn't known. It takes no memory.
    fn symbol(&self, alloc: Global, addr: Addr) -> std::result::Result<ResolvedSym<'_>, Reason>
        ensures answer { found_of result ≡ plain self.now addr }
        ensures starts { StartsBefore addr (found_of result) }
        ensures lent { IfOk result IsLentResolved }
    {
        let Some(entry) = covering_in(self.entries.as_slice(), addr) else {
            return Err(Reason::UnknownAddr);
        };
        Ok(ResolvedSym {
            name: name_at(self.bytes.as_slice(), entry.name),
            module: None,
            addr: entry.start,
            size: Some(entry.size as usize),
            lang: SrcLang::Unknown,
            code_info: None,
            inlined: Vec::new(alloc),
        })
    }
}

impl Version for PerfMap {
    ghost bytes_of = { λ map. map };

    ghost test = { format_test };

    fn parse(alloc: Global, bytes: Vec<u8>) -> Result<PerfMap> {
        PerfMap::parse(alloc, bytes)
    }

    fn formed(&self) {
        let _entries = &self.entries;
    }

    ghost refusals = { format_refusals };
}

impl Symbolize for PerfMap {
    ghost may_find = { λ map opts addr answer. answer ≡ Ok (plain map addr) };

    fn find_sym(
        &self,
        alloc: Global,
        addr: Addr,
        _opts: &FindSymOpts,
    ) -> Result<std::result::Result<ResolvedSym<'_>, Reason>>
        ensures answer { MayGive found_of (λ answer. answer ≡ Ok (plain self.now addr)) result }
        ensures starts { IfOk result (λ found. StartsBefore addr (found_of found)) }
        ensures lent { IfOk result (λ found. IfOk found IsLentResolved) }
        ensures refusal { IfErr result MayRefuse }
        ensures exact { answer_seen result ≡ Ok (plain self.now addr) }
    {
        Ok(self.symbol(alloc, addr))
    }
}
