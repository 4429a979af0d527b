//! Runs of jobs as a program, for the checks from outside. Its arguments are a mode, a job, how many partitions there
//! are, the size of a split, how many records may be left out, how many workers and attempts of a task there are, the
//! version of the certificate, and then the lengths of the script and of each file, which stand one behind another on
//! standard input. It tells what the run answers. In the mode `history` it tells each event too, in `scratch` the same of a
//! run whose regions lie in files of the folder where it runs, in `nowhere` in those of one that isn't there, in `watch` what who looks
//! on is told, and in `gate` whether a second attempt went on while the first was held. In the mode `judge` it tells what
//! as many threads as there are workers say of the result, and whether they shared the work, in `accept` whether the fast
//! judge accepts the result, and in `tickets` what two seats draw. In the mode `book` it answers for the master's book alone.
#![tactic(auto)]

mod asked;
mod book;
mod judging;
mod onlookers;
mod outputs;
mod telling;

use asked::Order;
use judging::PhasesHeld;
use mr_bytes::{Gate, OpenGate};
use mr_pool::{Certified, Environment, RunFault, RunSpec, run, run_watched, shape_of};
use mr_spill::{DiskScratch, MemoryStore, RegionStore, Scratch};
use onlookers::{Holding, Tally};
use std::alloc::Global;
use std::io::Read;
use std::sync::Wait;
use std::thread::Threads;
use std::{env, io};
use telling::Teller;

/// Whom a run calls meanwhile: a gate around each attempt, and who looks on, if anybody does.
#[derive(Drop)]
struct Callbacks<'a, G: Gate> {
    gate: &'a G,
    watch: Option<&'a Tally>,
}

/// Calls nobody.
const UNCALLED: Callbacks<'static, OpenGate> = Callbacks {
    gate: &OpenGate,
    watch: None,
};

/// Runs the job over a store, where its numbers are within the limits.
fn done_over<G: Gate, S: RegionStore + Drop, R: Threads + Wait + Sync>(
    rt: &R,
    alloc: Global,
    order: &Order,
    store: S,
    callbacks: Callbacks<'_, G>,
) -> Option<Result<Certified, RunFault>> {
    let request = &order.request;
    let input = &order.input;
    let script = &order.script;
    let workers = order.workers;
    let attempts = order.attempts;
    let version = order.version;
    if !request.fits(input) || workers < 1 || 64 < workers || attempts < 1 || 16 < attempts {
        return None;
    }
    let Callbacks { gate, watch } = callbacks;
    Some(match watch {
        Some(watch) => {
            let spec = RunSpec {
                request,
                input,
                script,
                shape: shape_of(request, input, workers, attempts),
                version,
            };
            run_watched(rt, alloc, spec, Environment { gate, store, watch })
        }
        None => run(
            rt, alloc, request, input, script, workers, attempts, gate, store, version,
        ),
    })
}

/// Runs the job over regions in memory.
fn done<G: Gate, R: Threads + Wait + Sync>(
    rt: &R,
    alloc: Global,
    order: &Order,
    callbacks: Callbacks<'_, G>,
) -> Option<Result<Certified, RunFault>> {
    if order.workers < 1 {
        return None;
    }
    match MemoryStore::new(rt, alloc, order.workers) {
        Ok(store) => done_over(rt, alloc, order, store, callbacks),
        Err(_) => Some(Err(RunFault::OutOfMemory)),
    }
}

/// Runs the job over regions in files of the folder.
fn done_in<C: Scratch, R: Threads + Wait + Sync>(
    rt: &R,
    alloc: Global,
    order: &Order,
    scratch: &C,
    folder: &str,
) -> Option<Result<Certified, RunFault>> {
    if order.workers < 1 {
        return None;
    }
    match scratch.open(alloc, folder, order.workers) {
        Ok(store) => done_over(rt, alloc, order, store, UNCALLED),
        Err(_) => Some(Err(RunFault::OutOfMemory)),
    }
}

// Each mode has a function of its own: what a function holds at once is what its proof costs.

/// Runs the job and shows the answer, with its events if these are asked for.
fn run_plainly<R: Threads + Wait + Sync>(
    threads: &R,
    out: &Teller,
    alloc: Global,
    order: &Order,
    has_events: bool,
) {
    telling::answer(out, &done(threads, alloc, order, UNCALLED), has_events);
}

/// A run whose regions lie in files of the folder.
fn scratched<R: Threads + Wait + Sync>(
    threads: &R,
    out: &Teller,
    alloc: Global,
    order: &Order,
    folder: &str,
) {
    let scratch = DiskScratch::new(out.runtime());
    telling::answer(out, &done_in(threads, alloc, order, &scratch, folder), true);
}

/// A run whose first attempt is held, and whether a second one went on meanwhile.
fn held<R: Threads + Wait + Sync>(threads: &R, out: &Teller, alloc: Global, order: &Order) {
    let gate = Holding::new();
    let callbacks = Callbacks {
        gate: &gate,
        watch: None,
    };
    telling::answer(out, &done(threads, alloc, order, callbacks), false);
    out.named("gate", &gate.says());
}

/// A run, and what who looks on is told.
fn watched<R: Threads + Wait + Sync>(threads: &R, out: &Teller, alloc: Global, order: &Order) {
    let watch = Tally::new();
    let callbacks = Callbacks {
        gate: &OpenGate,
        watch: Some(&watch),
    };
    telling::answer(out, &done(threads, alloc, order, callbacks), false);
    watch.show(out);
}

/// What threads say of the result of a run, where it has one.
fn show_judged<R: Threads + Wait + Sync>(
    threads: &R,
    out: &Teller,
    alloc: Global,
    order: &Order,
    done: &Option<Result<Certified, RunFault>>,
) {
    let Some(Ok(certified)) = done else {
        return out.line("nothing to judge");
    };
    let gate = PhasesHeld::of(certified);
    let verdict = judging::judged(threads, alloc, order, certified, &gate);
    judging::show(out, &verdict, &gate);
}

/// A run, and what threads say of its result.
fn judged<R: Threads + Wait + Sync>(threads: &R, out: &Teller, alloc: Global, order: &Order) {
    let done = done(threads, alloc, order, UNCALLED);
    show_judged(threads, out, alloc, order, &done);
}

/// A run, and whether the fast judge accepts its result.
fn accepted<R: Threads + Wait + Sync>(threads: &R, out: &Teller, alloc: Global, order: &Order) {
    match done(threads, alloc, order, UNCALLED) {
        Some(Ok(certified)) => judging::show_accepted(out, alloc, order, &certified),
        _ => out.line("nothing to judge"),
    }
}

/// Answers an order in a mode.
fn answer<R: Threads + Wait + Sync>(
    threads: &R,
    out: &Teller,
    alloc: Global,
    mode: &str,
    order: &Order,
) {
    match mode {
        "gate" => held(threads, out, alloc, order),
        "watch" => watched(threads, out, alloc, order),
        "judge" => judged(threads, out, alloc, order),
        "accept" => accepted(threads, out, alloc, order),
        "tickets" => judging::show_draws(out, alloc),
        "scratch" => scratched(threads, out, alloc, order, "."),
        "nowhere" => scratched(threads, out, alloc, order, "no/such/folder"),
        _ => run_plainly(threads, out, alloc, order, mode == "history"),
    }
}

/// Standard input.
fn text_of(rt: &HostRuntime) -> io::Result<Vec<u8>> {
    let mut text = Vec::new(rt.alloc());
    rt.stdin().read_to_end(&mut text)?;
    Ok(text)
}

/// Answers the order that the words and the text tell, in its mode.
fn ordered<R: Threads + Wait + Sync>(
    threads: &R,
    out: &Teller,
    mode: &str,
    words: &[String],
    text: &[u8],
) {
    let alloc = out.alloc();
    match asked::order_of(alloc, words, text) {
        Ok(Some(order)) => answer(threads, out, alloc, mode, &order),
        Ok(None) => out.line("refused"),
        Err(refused) => out.lack(refused),
    }
}

/// Answers by the mode, and the words behind it.
fn moded<R: Threads + Wait + Sync>(threads: &R, out: &Teller, mode: &str, words: &[String]) {
    if mode == "book" {
        return book::answer(out, words);
    }
    match text_of(out.runtime()) {
        Ok(text) => ordered(threads, out, mode, words, text.as_slice()),
        Err(fault) => out.fail(fault),
    }
}

fn main(rt: HostRuntime) -> io::Result<()> {
    let words: Vec<String> = env::args(&rt)?.skip(1).collect(rt.alloc())?;
    let out = Teller::new(rt);
    if let Some((mode, behind)) = words.split_first() {
        moded(out.runtime(), &out, mode.as_str(), behind);
    }
    out.end()
}
