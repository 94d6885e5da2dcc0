//! Runs that are held at a gate: all processes make their calls at once, and the gate is told before each call and after it.

use crate::tests::{is_answered, shelf_of};
use at_io::{MemoryShelf, MemorySink};
use at_ledger::Reply;
use at_report::Status;
use at_workers::Gate;
use std::alloc::Global;
use std::sync::atomic::{AtomicBool, AtomicU64, Ordering};
use std::thread::{Threads, yield_now};

const EACH_OWN: &[u8] = b"book,1\nprocesses,2\nlimits,4,4\naccount,0,100,0\naccount,1,100,1\n";

const READS_AND_PAYS: &[u8] = b"read,1\ntransfer,0,1,30\n";

const READS_PAYS_AND_READS: &[u8] = b"read,0\ntransfer,1,0,20\nread,1\n";

const PAYS_THIRTY: &[u8] = b"transfer,0,1,30\nread,0\n";

const PAYS_TWENTY: &[u8] = b"transfer,1,0,20\nread,1\n";

const HELD_REPORT: &[u8] =
    b"journal 5\n1 1 read 0 100\n1 2 transfer 1 0 20 done\n0 1 read 1 80\n0 2 transfer 0 1 30 done\n1 3 read 1 110\nbalances 2\n0 90\n1 110\ntotal 200\n";

const SIXTEEN: &[u8] = b"book,1\nprocesses,16\nlimits,4,4\naccount,0,100,0\n";

/// How often a process looks for what it waits for before it goes on without it.
const LOOKS: u64 = 200_000_000;

/// A count that processes wait for, and how often one went on before it was reached.
#[derive(Drop)]
struct Count {
    reached: AtomicU64,
    missed: AtomicU64,
}

impl Count {
    fn new() -> Count {
        Count {
            reached: AtomicU64::new(0),
            missed: AtomicU64::new(0),
        }
    }

    fn add(&self) {
        self.reached.fetch_add(1, Ordering::SeqCst);
    }

    /// Whether nobody went on alone.
    fn is_kept(&self) -> bool {
        self.missed.load(Ordering::SeqCst) == 0
    }

    /// Looks until the count is reached; where one process has gone on alone, so do all others. The thread that counts may have
    /// no processor meanwhile, so this one yields now and then.
    fn wait_for(&self, number: u64) {
        for look in 0..LOOKS {
            if self.reached.load(Ordering::SeqCst) >= number || !self.is_kept() {
                return;
            }
            if look % 4_096 == 0 {
                yield_now();
            }
        }
        self.missed.fetch_add(1, Ordering::SeqCst);
    }
}

/// A gate at which each of so many processes waits for all others before its first call. It notes how often it was told of a call
/// and of a reply.
#[derive(Drop)]
struct Crowd {
    processes: u64,
    here: Count,
    calls: AtomicU64,
    replies: AtomicU64,
}

impl Crowd {
    fn new(processes: u64) -> Crowd {
        Crowd {
            processes,
            here: Count::new(),
            calls: AtomicU64::new(0),
            replies: AtomicU64::new(0),
        }
    }

    /// Whether no process went on alone, and the gate was told of each of so many calls once.
    fn is_kept(&self, calls: u64) -> bool {
        self.here.is_kept()
            && self.calls.load(Ordering::SeqCst) == calls
            && self.replies.load(Ordering::SeqCst) == calls
    }
}

impl Gate for Crowd {
    fn pass(&self, _process: u32, line: u32) {
        self.calls.fetch_add(1, Ordering::SeqCst);
        if line == 1 {
            self.here.add();
            self.here.wait_for(self.processes);
        }
    }

    fn answered(&self, _process: u32, _line: u32, _reply: &Reply) {
        self.replies.fetch_add(1, Ordering::SeqCst);
    }
}

/// A gate at which two processes wait for each other in the middle of their files. Process 0 comes to its first call, and waits for
/// the other's second; the other waits for it to come before its own first call, and before its third call for the second one of
/// process 0.
#[derive(Drop)]
struct Meeting {
    stage: Count,
}

impl Gate for Meeting {
    fn pass(&self, process: u32, line: u32) {
        match (process, line) {
            (0, 1) => {
                self.stage.add();
                self.stage.wait_for(2);
            }
            (1, 1) => self.stage.wait_for(1),
            (1, 3) => self.stage.wait_for(3),
            _ => {}
        }
    }

    fn answered(&self, _process: u32, line: u32, _reply: &Reply) {
        if line == 2 {
            self.stage.add();
        }
    }
}

/// A gate at which each of two processes waits for the other before its first call, and process 0 before its second call for the
/// other's second reply. It notes whether process 0 has then read 90.
#[derive(Drop)]
struct Pair {
    here: Count,
    done: Count,
    has_read: AtomicBool,
}

impl Gate for Pair {
    fn pass(&self, process: u32, line: u32) {
        match (process, line) {
            (_, 1) => {
                self.here.add();
                self.here.wait_for(2);
            }
            (0, 2) => self.done.wait_for(1),
            _ => {}
        }
    }

    fn answered(&self, process: u32, line: u32, reply: &Reply) {
        match (process, line) {
            (1, 2) => self.done.add(),
            (0, 2) => self
                .has_read
                .store(*reply == Reply::Balance(90), Ordering::SeqCst),
            _ => {}
        }
    }
}

/// Whether all is done at this gate, the closed ledger is kept, and the text ends as it has to.
fn is_done_over<R: Threads + Sync, G: Gate + Sync>(
    rt: &R,
    alloc: Global,
    line: &str,
    shelf: &mut MemoryShelf,
    gate: &G,
    text: &[u8],
) -> bool {
    let Ok(mut out) = MemorySink::new(alloc, 1_000) else {
        return false;
    };
    is_answered(rt, alloc, line, shelf, &mut out, gate, &Status::Done)
        && out.taken().ends_with(text)
}

/// The same over the files of these contents.
fn is_done_at<R: Threads + Sync, G: Gate + Sync>(
    rt: &R,
    alloc: Global,
    line: &str,
    contents: &[&[u8]],
    gate: &G,
    text: &[u8],
) -> bool {
    let Some(mut shelf) = shelf_of(alloc, contents) else {
        return false;
    };
    is_done_over(rt, alloc, line, &mut shelf, gate, text)
}

/// Both processes run at once, so that each comes to what the other waits for. The first call of process 0 is a read that sees
/// what the other's second call left, so the gate is told before a call; all replies allow one order alone.
fn meet_in_the_middle<R: Threads + Sync>(rt: &R, alloc: Global) -> bool {
    let meeting = Meeting {
        stage: Count::new(),
    };
    let contents = [EACH_OWN, READS_AND_PAYS, READS_PAYS_AND_READS];
    is_done_at(rt, alloc, "run book 0 1", &contents, &meeting, HELD_REPORT)
        && meeting.stage.is_kept()
}

/// Both processes pay at once. The balance that process 0 then reads has both payments.
fn pair_meets<R: Threads + Sync>(rt: &R, alloc: Global) -> bool {
    let pair = Pair {
        here: Count::new(),
        done: Count::new(),
        has_read: AtomicBool::new(false),
    };
    let contents = [EACH_OWN, PAYS_THIRTY, PAYS_TWENTY];
    let text = b"balances 2\n0 90\n1 110\ntotal 200\n";
    is_done_at(rt, alloc, "run book 0 1", &contents, &pair, text)
        && pair.here.is_kept()
        && pair.done.is_kept()
        && pair.has_read.load(Ordering::SeqCst)
}

/// Whether all processes of these words wait at their first call until all are there, and the gate is told of each call once.
fn crowd_meets<R: Threads + Sync>(
    rt: &R,
    alloc: Global,
    line: &str,
    contents: &[&[u8]],
    processes: u64,
    calls: u64,
    text: &[u8],
) -> bool {
    let crowd = Crowd::new(processes);
    is_done_at(rt, alloc, line, contents, &crowd, text) && crowd.is_kept(calls)
}

#[test]
fn two_processes_meet_in_the_middle(rt: HostRuntime) {
    assert!(rt; meet_in_the_middle(&rt, rt.alloc()));
}

#[test]
fn two_processes_meet(rt: HostRuntime) {
    assert!(rt; pair_meets(&rt, rt.alloc()));
}

/// All sixteen processes of a run, the most that there are.
#[test]
fn sixteen_processes_meet(rt: HostRuntime) {
    let line = "run book 0 0 0 0 0 0 0 0 0 0 0 0 0 0 0 0";
    let contents = [SIXTEEN, b"read,0\nread,0\n"];
    let text = b"balances 1\n0 100\ntotal 100\n";
    assert!(rt; crowd_meets(&rt, rt.alloc(), line, &contents, 16, 32, text));
}

/// The four processes of `make`.
#[test]
fn four_processes_meet(rt: HostRuntime) {
    assert!(rt; crowd_meets(&rt, rt.alloc(), "make 7 4 2", &[], 4, 8, b"total 1600\n"));
}
