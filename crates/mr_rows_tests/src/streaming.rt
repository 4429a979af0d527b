//! Walks over readers: what is told of bytes that come a few at a call, and of a call that fails.
use crate::stores::failing_call;
use crate::telling::Teller;
use mr_certform::{Item, StreamFault, StreamWalker};
use mr_store::{CountedRead, MemoryReader};
use std::alloc::AllocError;

/// As many items as are told one by one.
const FEW: u64 = 64;

/// Tells one step of the walk, and whether another item may stand behind.
fn step<R: CountedRead + Drop>(teller: &Teller, walker: &mut StreamWalker<R>, number: u64) -> bool {
    if walker.place() > 1 << 40 {
        return false;
    }
    match walker.next() {
        Ok(item) => {
            if number < FEW || item == Item::End {
                teller.one(&item);
            }
            item != Item::End
        }
        Err(StreamFault::Malformed { at }) => {
            teller.named("stops at ", &at);
            false
        }
        Err(fault) => {
            teller.line(&fault);
            false
        }
    }
}

/// Tells the items, and twice what ends them.
fn steps<R: CountedRead + Drop>(teller: &Teller, walker: &mut StreamWalker<R>) {
    for number in 0..u64::MAX {
        if !step(teller, walker, number) {
            break;
        }
    }
    step(teller, walker, 0);
}

/// Tells the items, twice what ends them, and then the place behind them and how many calls failed. The reader gives at
/// most so many bytes a call, and fails at the call of that number, if it isn't 0.
pub fn walk(teller: &Teller, bytes: Vec<u8>, most: usize, failing: u64) -> Result<(), AllocError> {
    let reader = MemoryReader::new(bytes, most.max(1), failing_call(failing));
    let mut walker = StreamWalker::new(teller.alloc(), reader)?;
    steps(teller, &mut walker);
    teller.behind("at ", &walker.place());
    teller.named(", failed ", &walker.reader().failures());
    Ok(())
}
