//! Tests of the judge: what no program shows. Faults and their places are rows of the checks from outside.
use crate::given::{CERTIFICATE, OUTPUT, few_words, list_of};
use mr_check::{No, check_metered};
use mr_index::Meter;
use std::alloc::Global;
use std::test::Fail;

/// The judge's refusal of `a b a` in this many partitions, with one output and the certificate of one, if any, and how
/// often it looked up and mapped.
fn told(alloc: Global, parts: u32) -> Result<(Option<No>, u64, u64), Fail> {
    let given = few_words(alloc, parts)?;
    let outputs = list_of(alloc, &[&OUTPUT])?;
    let mut meter = Meter {
        lookups: 0,
        mapped: 0,
    };
    let verdict = check_metered(
        alloc,
        &given.request,
        &given.input,
        &outputs,
        &CERTIFICATE,
        &mut meter,
    );
    Ok((verdict.err(), meter.lookups, meter.mapped))
}

#[test]
fn what_is_looked_up_and_mapped(rt: HostRuntime) -> Result<(), Fail> {
    for (parts, want) in [
        // A good result is metered.
        (1, (None, 3, 1)),
        // Fewer outputs than partitions: the program always hands in as many, so no row from outside meets this fault.
        (2, (Some(No::OutputCount), 0, 0)),
    ] {
        assert!(rt; told(rt.alloc(), parts)? == want);
    }
    Ok(())
}
