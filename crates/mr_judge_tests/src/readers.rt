//! Results that readers give, a few bytes a call or with a call that fails.
ghost use Rattle.std.specs.Prelude.{◌≤◌, ◌^◌};
ghost use Rattle.mr_input.specs.Files.{split_total};

use crate::given::{CERTIFICATE, Given, OUTPUT, few_words, list_of};
use mr_bytes::Unwatched;
use mr_check::{Computation, No, Source, Yes, accept_read, check, check_from, is_same_fault};
use mr_store::{CountedRead, MemoryReader};
use std::alloc::Global;
use std::test::Fail;

/// A reader of these bytes: at most so many a call, and a call that fails, where there is one.
fn reader(
    alloc: Global,
    bytes: &[u8],
    most: usize,
    failing: Option<u64>,
) -> Result<MemoryReader, Fail> {
    if most == 0 || failing == Some(0) {
        return Err(Fail::from("no such reader"));
    }
    Ok(MemoryReader::new(Vec::from_slice(alloc, bytes)?, most, failing))
}

/// The judge's answer on what two readers give, that of the output and that of the certificate.
fn told_from(
    alloc: Global,
    given: &Given,
    output: MemoryReader,
    mut certificate: MemoryReader,
) -> Result<Yes, No>
    requires { split_total given.now.request.split given.now.input ≤ 2 ^ 20 }
{
    check_from(
        alloc,
        &given.request,
        &given.input,
        &mut [output],
        &mut certificate,
    )
}

fn is_same(a: &Result<Yes, No>, b: &Result<Yes, No>) -> bool {
    match (a, b) {
        (Ok(a), Ok(b)) => a == b,
        (Err(a), Err(b)) => is_same_fault(*a, *b),
        _ => false,
    }
}

/// Whether readers that give so many bytes a call get this answer.
fn is_told(
    alloc: Global,
    given: &Given,
    texts: (&[u8], &[u8]),
    most: usize,
    want: &Result<Yes, No>,
) -> Result<bool, Fail>
    requires { split_total given.now.request.split given.now.input ≤ 2 ^ 20 }
{
    let output = reader(alloc, texts.0, most, None)?;
    let certificate = reader(alloc, texts.1, most, None)?;
    Ok(is_same(&told_from(alloc, given, output, certificate), want))
}

/// The judge's answer on an output and a certificate at hand.
fn told(alloc: Global, given: &Given, texts: (&[u8], &[u8])) -> Result<Result<Yes, No>, Fail>
    requires { split_total given.now.request.split given.now.input ≤ 2 ^ 20 }
{
    let outputs = list_of(alloc, &[texts.0])?;
    Ok(check(alloc, &given.request, &given.input, &outputs, texts.1))
}

/// Whether the fast judge says yes, of a certificate that a reader gives, so many bytes a call.
fn is_accepted(
    alloc: Global,
    given: &Given,
    texts: (&[u8], &[u8]),
    most: usize,
) -> Result<bool, Fail>
    requires { split_total given.now.request.split given.now.input ≤ 2 ^ 20 }
{
    let outputs = list_of(alloc, &[texts.0])?;
    let mut certificate = reader(alloc, texts.1, most, None)?;
    // What is left to read are bytes.
    let _known = certificate.failures();
    let computation = Computation {
        request: &given.request,
        input: &given.input,
    };
    let yes = accept_read(alloc, &computation, &outputs, &mut certificate, &Unwatched);
    Ok(yes.is_some())
}

/// Whether the answer on bytes at hand is a yes, where readers that give 1, 7 and all bytes a call get it too, and the
/// fast judge says just this yes.
fn is_good(alloc: Global, given: &Given, texts: (&[u8], &[u8])) -> Result<Option<bool>, Fail>
    requires { split_total given.now.request.split given.now.input ≤ 2 ^ 20 }
{
    let want = told(alloc, given, texts)?;
    for most in [1, 7, 65_536] {
        if !is_told(alloc, given, texts, most, &want)? {
            return Ok(None);
        }
        if is_accepted(alloc, given, texts, most)? != want.is_ok() {
            return Ok(None);
        }
    }
    Ok(Some(want.is_ok()))
}

/// Outputs and certificates, and whether they are a good result.
const ROWS: [(&[u8], &[u8], bool); 4] = [
    (&OUTPUT, &CERTIFICATE, true),
    (b"a\t2\nb\t1\n\0", &CERTIFICATE, false),
    (b"a\t2\nb\t1", &CERTIFICATE, false),
    (b"a\t3\nb\t1\n", &CERTIFICATE, false),
];

/// Whether that is so of each row.
fn are_judged(alloc: Global, given: &Given) -> Result<bool, Fail>
    requires { split_total given.now.request.split given.now.input ≤ 2 ^ 20 }
{
    for (output, certificate, want) in &ROWS {
        if is_good(alloc, given, (output, certificate))? != Some(*want) {
            return Ok(false);
        }
    }
    Ok(true)
}

#[test]
fn readers_are_judged_as_bytes_at_hand(rt: HostRuntime) -> Result<(), Fail> {
    let given = few_words(rt.alloc(), 1)?;
    assert!(rt; are_judged(rt.alloc(), &given)?);
    assert!(rt; is_good(rt.alloc(), &given, (&OUTPUT, &CERTIFICATE[..91]))? == Some(false));
    Ok(())
}

/// Why the judge refuses the good result, where each reader gives a byte a call and such a call fails.
fn fault_of(
    alloc: Global,
    given: &Given,
    output: Option<u64>,
    certificate: Option<u64>,
) -> Result<Option<No>, Fail>
    requires { split_total given.now.request.split given.now.input ≤ 2 ^ 20 }
{
    let output = reader(alloc, &OUTPUT, 1, output)?;
    let certificate = reader(alloc, &CERTIFICATE, 1, certificate)?;
    Ok(told_from(alloc, given, output, certificate).err())
}

/// The certificate's 81st call is behind its first group; the output's first call is the first of all.
#[test]
fn a_failed_read_is_told(rt: HostRuntime) -> Result<(), Fail> {
    let given = few_words(rt.alloc(), 1)?;
    for (output, certificate, from) in [
        (None, Some(81), Source::Certificate),
        (Some(1), None, Source::Output(0)),
    ] {
        assert!(rt; fault_of(rt.alloc(), &given, output, certificate)? == Some(No::Device(from)));
    }
    Ok(())
}
