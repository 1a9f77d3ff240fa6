//! Processes as callers name them.

use bz_base::Pid;
use std::alloc::Global;
use std::cmp::Ordering;
use std::num::NonZeroU32;

/// Numbers, the ids that they resolve to where the own one is 7, and their texts.
static PROCESSES: [(u32, u32, &str); 4] = [
    (0, 7, "self"),
    (1, 1, "1"),
    (7, 7, "7"),
    (4294967295, 4294967295, "4294967295"),
];

/// The numbers of two processes, and how they stand: the own one comes first.
static PAIRS: [(u32, u32, Ordering); 6] = [
    (0, 0, Ordering::Equal),
    (0, 1, Ordering::Less),
    (9, 10, Ordering::Less),
    (9, 0, Ordering::Greater),
    (10, 10, Ordering::Equal),
    (10, 9, Ordering::Greater),
];

/// Whether the process resolves to the id and prints the text.
fn is_named(alloc: Global, pid: Pid, id: u32, text: &str) -> bool {
    match format!(in alloc; "{pid}") {
        Ok(printed) => pid.resolve(7) == id && printed.as_str() == text,
        Err(_) => false,
    }
}

/// Whether two processes stand so, and are equal exactly where neither comes first.
fn stand(first: Pid, second: Pid, order: Ordering) -> bool {
    first.cmp(&second) == order && (first == second) == (order == Ordering::Equal)
}

/// Whether a process holds this id.
fn holds(pid: Pid, number: u32) -> bool {
    match NonZeroU32::new(number) {
        Some(id) => pid == Pid::Pid(id),
        None => pid == Pid::Slf,
    }
}

/// Whether processes hold the numbers that they are made from, and no other.
fn hold_their_numbers() -> bool {
    holds(Pid::from(0), 0)
        && holds(Pid::from(12), 12)
        && !holds(Pid::from(0), 12)
        && !holds(Pid::from(12), 0)
}

#[test]
fn processes_resolve_print_and_compare_by_their_numbers(rt: HostRuntime) {
    for (number, id, text) in &PROCESSES {
        assert!(rt;
            is_named(rt.alloc(), Pid::from(*number), *id, text),
            "{text}"
        );
    }
    for (first, second, order) in &PAIRS {
        assert!(rt;
            stand(Pid::from(*first), Pid::from(*second), *order),
            "{first} and {second}"
        );
    }
    assert!(rt; hold_their_numbers(), "numbers that are held");
}
