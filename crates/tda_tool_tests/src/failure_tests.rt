// Calls of the outbox that fail, or find no memory.
ghost use Rattle.std.specs.Prelude.{◌-◌, ◌^◌, ◌<◌};
ghost use Rattle.tda_io.specs.Outside.{CountsOut};

use crate::samples::{FACILITIES, HOUSES, ONES, RECORDS, SPINE, inbox_of, words_of};
use std::alloc::Global;
use std::test::Fail;
use tda_io::{OutFault, Outbox};
use tda_tool::tool;

// An outbox that counts its calls, of which one fails and one finds no memory. It tells whether `memory` was the last text.
#[derive(Drop)]
struct Counter {
    calls: u64,
    fail: u64,
    full: u64,
    memory: bool,
    faults: u64,
}

impl Counter {
    fn call(&mut self) -> Result<(), OutFault>
        requires { self.old.faults < 2 ^ 64 - 1 }
        ensures { CountsOut result self.old.faults self.new.faults }
    {
        self.calls = self.calls.saturating_add(1);
        if self.calls == self.full {
            return Err(OutFault::NoMemory);
        }
        if self.calls == self.fail {
            self.faults += 1;
            return Err(OutFault::Failed);
        }
        Ok(())
    }
}

impl Outbox for Counter {
    ghost use Rattle.std.specs.Prelude.{None};

    ghost told = { λ _. None };

    ghost faults = { λ s. s.faults };

    fn begin(&mut self, _: &str) -> Result<(), OutFault> {
        self.call()
    }

    fn put(&mut self, name: &str, piece: &[u8]) -> Result<(), OutFault> {
        self.memory = name == "-" && piece == b"memory\n".as_slice();
        self.call()
    }

    fn end(&mut self, _: &str) -> Result<(), OutFault> {
        self.call()
    }
}

// The status of `measure` where these calls fail or find no memory, how many calls of the outbox there are, and whether
// `memory` is told.
fn counted(alloc: Global, read: u64, fail: u64, full: u64) -> Result<(u8, u64, bool), Fail> {
    let words = words_of(
        alloc,
        "measure --schema a --spine b --facilities c --records d --words e --measurements m --totals t --ledger l",
    )?;
    let files = [
        HOUSES.as_bytes(),
        SPINE.as_bytes(),
        FACILITIES.as_bytes(),
        RECORDS.as_bytes(),
        ONES.as_slice(),
    ];
    let mut inbox = inbox_of(alloc, &files, read)?;
    let mut outbox = Counter {
        calls: 0,
        fail,
        full,
        memory: false,
        faults: 0,
    };
    let status = tool(alloc, &words, &mut inbox, &mut outbox);
    Ok((status, outbox.calls, outbox.memory))
}

#[test]
fn no_call_follows_one_that_failed(rt: HostRuntime) -> Result<(), Fail> {
    let table = [
        (0, 1),
        (0, 2),
        (0, 3),
        (0, 4),
        (0, 5),
        (0, 6),
        (0, 7),
        (0, 8),
        (0, 9),
        (0, 10),
        (0, 11),
        (0, 12),
        (2, 1),
        (2, 2),
        (2, 3),
    ];
    for (read, fail) in table {
        let (status, calls, _) = counted(rt.alloc(), read, fail, 0)?;
        assert_eq!(rt; status, 5, "at {read} {fail}");
        assert_eq!(rt; calls, fail, "at {read} {fail}");
    }
    Ok(())
}

// The call that finds no memory and the one that fails, and then the status, the calls and whether `memory` is told: after
// a call for an output the report is begun, and after one for the report nothing.
const WITHOUT_MEMORY: [(u64, u64, u8, u64, bool); 14] = [
    (1, 0, 8, 4, true),
    (2, 0, 8, 5, true),
    (3, 0, 8, 6, true),
    (4, 0, 8, 7, true),
    (5, 0, 8, 8, true),
    (6, 0, 8, 9, true),
    (7, 0, 8, 10, true),
    (8, 0, 8, 11, true),
    (9, 0, 8, 12, true),
    (10, 0, 8, 10, false),
    (11, 0, 8, 11, false),
    (12, 0, 8, 12, false),
    (1, 2, 5, 2, false),
    (9, 12, 5, 12, true),
];

#[test]
fn want_of_memory_is_told_after_an_output(rt: HostRuntime) -> Result<(), Fail> {
    for (full, fail, status, calls, memory) in WITHOUT_MEMORY {
        let found = counted(rt.alloc(), 0, fail, full)?;
        assert_eq!(rt; found, (status, calls, memory), "at {full} {fail}");
    }
    Ok(())
}
