//! The crates as a program of one's own uses them: a result is made and judged; then one byte of it is changed, and the judge says where.
ghost use Rattle.std.specs.Prelude.{◌≤◌, ◌^◌, IfOk};
ghost use Rattle.mr_input.specs.Files.{split_total};

use crate::given::{Given, list_of, with_text};
use mr_bytes::{Phase, Progress};
use mr_certform::{Version, write};
use mr_check::{Case, No, judge_on_one_thread};
use mr_example::{ExampleFault, JobResult, execute, judge, word_count_request};
use mr_sequential::run_watched;
use std::alloc::{AllocError, Global};
use std::sync::atomic::{AtomicU64, Ordering};
use std::test::Fail;

const BOOK: &[u8] = b"The cat saw the dog.\nThe dog saw nothing.\n";

/// Counts what it is told, and how often more was done than there is in all.
#[derive(Drop)]
struct Counting {
    told: AtomicU64,
    past: AtomicU64,
}

impl Counting {
    fn new() -> Counting {
        Counting {
            told: AtomicU64::new(0),
            past: AtomicU64::new(0),
        }
    }
}

impl Progress for Counting {
    fn report(&self, _phase: Phase, done: u64, all: u64) {
        self.told.fetch_add(1, Ordering::SeqCst);
        if all < done {
            self.past.fetch_add(1, Ordering::SeqCst);
        }
    }

    fn worker_lost(&self) {}
}

/// The book, and the request.
fn book(alloc: Global) -> Result<Given, ExampleFault>
    ensures { IfOk result (λ g. split_total g.request.split g.input ≤ 2 ^ 20) }
{
    with_text(alloc, word_count_request()?, BOOK)
}

/// The book is counted while somebody looks on.
fn counted(alloc: Global, given: &Given, watch: &Counting) -> Result<JobResult, ExampleFault>
    requires { split_total given.now.request.split given.now.input ≤ 2 ^ 20 }
{
    let made = run_watched(alloc, &given.request, &given.input, &[], watch)?;
    let certificate = write(alloc, &made.certificate, Version::V1)?;
    Ok(JobResult {
        outputs: made.outputs,
        certificate,
    })
}

/// The book is counted and judged while somebody looks on: how many pairs the judge says yes to.
fn watched(alloc: Global, given: &Given, watch: &Counting) -> Result<u64, ExampleFault>
    requires { split_total given.now.request.split given.now.input ≤ 2 ^ 20 }
{
    let answer = counted(alloc, given, watch)?;
    let case = Case {
        request: &given.request,
        input: &given.input,
        outputs: &answer.outputs,
        certificate: &answer.certificate,
    };
    let yes = judge_on_one_thread(alloc, &case, watch)?;
    Ok(yes.pairs)
}

/// How many pairs the judge says yes to, or why it says no.
fn verdict(alloc: Global, given: &Given, answer: &JobResult) -> Result<u64, No>
    requires { split_total given.now.request.split given.now.input ≤ 2 ^ 20 }
{
    match judge(alloc, &given.request, &given.input, answer) {
        Ok(yes) => Ok(yes.pairs),
        Err(ExampleFault::Verdict(no)) => Err(no),
        Err(_) => Err(No::OutOfMemory),
    }
}

/// Whether these are the outputs of the book.
fn are_counted(outputs: &[Vec<u8>]) -> bool {
    outputs.len() == 2
        && outputs[0].as_slice() == b"nothing\t1\nsaw\t2\nthe\t3\n".as_slice()
        && outputs[1].as_slice() == b"cat\t1\ndog\t2\n".as_slice()
}

/// The outputs of the book, with one byte changed.
fn change(alloc: Global, answer: &mut JobResult) -> Result<(), AllocError> {
    answer.outputs = list_of(
        alloc,
        &[b"nothing\t1\nsaw\t2\nthe\t3\n", b"cat\t2\ndog\t2\n"],
    )?;
    Ok(())
}

/// The verdict on the result of the book as it was made, where its outputs are those wanted.
fn verdict_as_made(alloc: Global, given: &Given) -> Result<Option<Result<u64, No>>, ExampleFault>
    requires { split_total given.now.request.split given.now.input ≤ 2 ^ 20 }
{
    let answer = execute(alloc, &given.request, &given.input)?;
    if !are_counted(&answer.outputs) {
        return Ok(None);
    }
    Ok(Some(verdict(alloc, given, &answer)))
}

/// The verdict on the result of the book with one byte changed.
fn verdict_changed(alloc: Global, given: &Given) -> Result<Result<u64, No>, ExampleFault>
    requires { split_total given.now.request.split given.now.input ≤ 2 ^ 20 }
{
    let mut answer = execute(alloc, &given.request, &given.input)?;
    change(alloc, &mut answer)?;
    Ok(verdict(alloc, given, &answer))
}

#[test]
fn a_result_is_made_and_judged(rt: HostRuntime) -> Result<(), Fail> {
    let given = book(rt.alloc())?;
    assert!(rt; verdict_as_made(rt.alloc(), &given)? == Some(Ok(9)));
    Ok(())
}

#[test]
fn a_changed_byte_is_told(rt: HostRuntime) -> Result<(), Fail> {
    let given = book(rt.alloc())?;
    let want = No::OutputDiffers {
        partition: 1,
        at: 4,
    };
    assert!(rt; verdict_changed(rt.alloc(), &given)? == Err(want));
    Ok(())
}

/// How many pairs the judge says yes to, how often it was told how far it is, and how often too far.
fn watched_book(alloc: Global) -> Result<(u64, u64, u64), ExampleFault> {
    let given = book(alloc)?;
    let watch = Counting::new();
    let pairs = watched(alloc, &given, &watch)?;
    Ok((
        pairs,
        watch.told.load(Ordering::SeqCst),
        watch.past.load(Ordering::SeqCst),
    ))
}

/// Mapping, reducing twice, and for the judge mapping and judging.
#[test]
fn somebody_looks_on(rt: HostRuntime) -> Result<(), Fail> {
    assert!(rt; watched_book(rt.alloc())? == (9, 5, 0));
    Ok(())
}
