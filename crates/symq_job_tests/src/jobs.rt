//! Generated jobs, and how they end.

use bz_files::MemOut;
use bz_requests::Config;
use bz_run::generate;
use bz_symq::Status;
use std::alloc::Global;

/// A job, and how it ends.
struct Job {
    /// Whether inlined calls are asked for.
    inlined: bool,
    /// What the functions and addresses are generated from.
    seed: u64,
    /// How many functions there are.
    functions: u64,
    /// How many addresses are asked for.
    addresses: u64,
    /// The call of the output that fails, or 0.
    fault: u64,
    status: Status,
    written: &'static str,
}

static JOBS: [Job; 5] = [
    Job {
        inlined: true,
        seed: 1,
        functions: 1000,
        addresses: 1000,
        fault: 0,
        status: Status::Done,
        written: "functions 1000\naddresses 1000\nknown 752\nunknown 248\ninlined 133\noffsets 17188\n",
    },
    // The greatest job.
    Job {
        inlined: true,
        seed: 1,
        functions: 100_000,
        addresses: 100_000,
        fault: 0,
        status: Status::Done,
        written: "functions 100000\naddresses 100000\nknown 74826\nunknown 25174\ninlined 12575\noffsets 1755089\n",
    },
    Job {
        inlined: false,
        seed: 3,
        functions: 2,
        addresses: 5,
        fault: 0,
        status: Status::Done,
        written: "functions 2\naddresses 5\nknown 3\nunknown 2\ninlined 0\noffsets 36\n",
    },
    // Nothing is known without functions.
    Job {
        inlined: true,
        seed: 7,
        functions: 0,
        addresses: 3,
        fault: 0,
        status: Status::Done,
        written: "functions 0\naddresses 3\nknown 0\nunknown 3\ninlined 0\noffsets 0\n",
    },
    Job {
        inlined: true,
        seed: 3,
        functions: 2,
        addresses: 5,
        fault: 1,
        status: Status::Fault,
        written: "",
    },
];

/// Whether the job ends as it says, into this output.
fn ends_into(alloc: Global, config: Config, job: &Job, output: &mut MemOut) -> bool {
    job.seed < 2_147_483_648
        && job.functions <= 100_000
        && job.addresses <= 100_000
        && generate(
            alloc,
            config,
            job.seed,
            job.functions,
            job.addresses,
            output,
        ) == job.status
}

/// Whether it does, with what it says written.
fn ends_so(alloc: Global, job: &Job) -> bool {
    let config = Config {
        reload: true,
        code_info: true,
        inlined: job.inlined,
        map_files: true,
    };
    let mut output = MemOut::new(alloc);
    output.fail_call(job.fault);
    ends_into(alloc, config, job, &mut output) && output.written() == job.written.as_bytes()
}

#[test]
fn counts_what_generated_jobs_are_answered_or_ends_by_a_fault(rt: HostRuntime) {
    let jobs = &JOBS;
    for index in 0..jobs.len() {
        assert!(rt; ends_so(rt.alloc(), &jobs[index]), "row {index}");
    }
}
