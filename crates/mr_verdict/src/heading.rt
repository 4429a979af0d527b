//! Tests a certificate's header, the items that the request and the input fix, and the left-out
//! records that it lists.
ghost use Rattle.std.specs.Prelude.{◌≡◌, ◌<◌, ◌≤◌, ◌∷◌, [], OnOk, length, map, ◌++◌};
ghost use Rattle.mr_certform.specs.declared.grammar_state.Item.TheVariants.{LiteralByte};
ghost use Rattle.mr_certform.specs.declared.grammar_state.Item.TheVariants.{FileLength};
ghost use Rattle.mr_verdict.specs.Verdict.{item_eq, job_wanted, input_wanted};
ghost use Rattle.mr_verdict.specs.Steps.{header_met, awaits_skips, counted, skip_fault};
ghost use Rattle.mr_verdict.specs.Steps.{skips_in_front, listed};
ghost use Rattle.mr_verdict.specs.Items.{Met, CanCome, Behind, Stops, Answered, Each, NextSkip};
ghost use Rattle.mr_verdict.specs.Items.{skip_next};
ghost use Rattle.mr_splits.specs.Cut.{records_of};

use crate::answers::No;
use crate::items::{ItemSource, JudgeError};
use mr_bytes::RecordName;
use mr_certform::Item;
use mr_input::Input;
use mr_jobs::Request;
use mr_splits::{Plan, SkipFault};
use std::alloc::{AllocError, Global};

fn is_wanted(item: Item, wanted: Item) -> bool
    ensures { result ≡ item_eq item wanted }
{
    match (item, wanted) {
        (Item::Magic, Item::Magic) => true,
        (Item::Job(m), Item::Job(n)) => m == n,
        (Item::Flags(m), Item::Flags(n)) => m == n,
        (Item::LiteralLength(m), Item::LiteralLength(n)) => m == n,
        (Item::LiteralByte(m), Item::LiteralByte(n)) => m == n,
        (Item::Parts(m), Item::Parts(n)) => m == n,
        (Item::SplitSize(m), Item::SplitSize(n)) => m == n,
        (Item::Files(m), Item::Files(n)) => m == n,
        (Item::FileLength(m), Item::FileLength(n)) => m == n,
        _ => false,
    }
}

/// Takes the next item, which must be `wanted`: another one is the fault `fault`.
fn expect<I: ItemSource>(items: &mut I, wanted: Item, fault: No) -> Result<(), JudgeError>
    requires sound { I.sound items.old }
    ensures sound { OnOk result (I.sound items.new) }
    ensures some { CanCome (I.gives items.new) }
    ensures met { Met (I.gives items.old) (I.gives items.new) (wanted ∷ []) fault result }
    ensures fewer { OnOk result (I.most items.new < I.most items.old) }
    ensures stops { Stops I.steady (I.failed items.old) (I.failed items.new) result }
{
    let item = items.next_item()?;
    if !is_wanted(item, wanted) {
        return Err(JudgeError::Fault(fault));
    }
    Ok(())
}

fn expect_all<I: ItemSource>(items: &mut I, wanted: &[Item], fault: No) -> Result<(), JudgeError>
    requires sound { I.sound items.old }
    ensures sound { OnOk result (I.sound items.new) }
    ensures met { Met (I.gives items.old) (I.gives items.new) wanted.now fault result }
    ensures fewer { OnOk result (I.most items.new ≤ I.most items.old) }
    ensures stops { Stops I.steady (I.failed items.old) (I.failed items.new) result }
{
    for item in wanted {
        expect(items, *item, fault)?;
    }
    Ok(())
}

fn expect_literal<I: ItemSource>(items: &mut I, literal: &[u8]) -> Result<(), JudgeError>
    requires sound { I.sound items.old }
    ensures sound { OnOk result (I.sound items.new) }
    ensures met { Met (I.gives items.old) (I.gives items.new)
        (map LiteralByte literal.now) No.OtherJob result }
    ensures fewer { OnOk result (I.most items.new ≤ I.most items.old) }
    ensures stops { Stops I.steady (I.failed items.old) (I.failed items.new) result }
{
    for byte in literal {
        expect(items, Item::LiteralByte(*byte), No::OtherJob)?;
    }
    Ok(())
}

fn expect_lengths<I: ItemSource>(items: &mut I, input: &Input) -> Result<(), JudgeError>
    requires sound { I.sound items.old }
    requires given { CanCome (I.gives items.old) }
    ensures given { OnOk result (CanCome (I.gives items.new)) }
    ensures sound { OnOk result (I.sound items.new) }
    ensures met { Met (I.gives items.old) (I.gives items.new) (map
        (λ f. FileLength (length f)) input.now) No.OtherInput result }
    ensures fewer { OnOk result (I.most items.new ≤ I.most items.old) }
    ensures stops { Stops I.steady (I.failed items.old) (I.failed items.new) result }
{
    for i in 0..input.files() {
        expect(items, Item::FileLength(input.len(i) as u64), No::OtherInput)?;
    }
    Ok(())
}

fn expect_job<I: ItemSource>(items: &mut I, request: &Request) -> Result<(), JudgeError>
    requires sound { I.sound items.old }
    ensures sound { OnOk result (I.sound items.new) }
    ensures met { Met (I.gives items.old) (I.gives items.new) (job_wanted request.now) No.OtherJob result }
    ensures fewer { OnOk result (I.most items.new ≤ I.most items.old) }
    ensures stops { Stops I.steady (I.failed items.old) (I.failed items.new) result }
{
    let job = request.job();
    let literal = job.literal();
    let front = [
        Item::Magic,
        Item::Job(job.number()),
        Item::Flags(request.flags()),
        Item::LiteralLength(literal.len() as u32),
    ];
    let back = [
        Item::Parts(request.parts()),
        Item::SplitSize(request.split_size()),
    ];
    expect_all(items, &front, No::OtherJob)?;
    expect_literal(items, literal)?;
    expect_all(items, &back, No::OtherJob)
}

fn expect_input<I: ItemSource>(items: &mut I, input: &Input) -> Result<(), JudgeError>
    requires sound { I.sound items.old }
    ensures given { OnOk result (CanCome (I.gives items.new)) }
    ensures sound { OnOk result (I.sound items.new) }
    ensures met { Met (I.gives items.old) (I.gives items.new) (input_wanted input.now) No.OtherInput result }
    ensures fewer { OnOk result (I.most items.new < I.most items.old) }
    ensures stops { Stops I.steady (I.failed items.old) (I.failed items.new) result }
{
    expect(items, Item::Files(input.files() as u32), No::OtherInput)?;
    expect_lengths(items, input)
}

/// Reads the header: a wrong item is `OtherJob` up to the split size, and `OtherInput` after it.
pub fn expect_header<I: ItemSource>(
    items: &mut I,
    request: &Request,
    input: &Input,
) -> Result<(), JudgeError>
    requires sound { I.sound items.old }
    ensures given { OnOk result (CanCome (I.gives items.new)) }
    ensures sound { OnOk result (I.sound items.new) }
    ensures met { Behind (I.gives items.old) (I.gives items.new)
        (λ at. header_met at request.now input.now) result }
    ensures fewer { OnOk result (I.most items.new < I.most items.old) }
    ensures stops { Stops I.steady (I.failed items.old) (I.failed items.new) result }
{
    expect_job(items, request)?;
    expect_input(items, input)
}

/// Reads the number of left-out records: `TooManySkips` where it is over `most`.
pub fn expect_count<I: ItemSource>(items: &mut I, most: u32) -> Result<u32, JudgeError>
    requires sound { I.sound items.old }
    requires awaits { Each (I.gives items.old) awaits_skips }
    ensures sound { OnOk result (I.sound items.new) }
    ensures given { OnOk result (CanCome (I.gives items.new)) }
    ensures counted { Answered (I.gives items.old) (I.gives items.new)
        (λ n is. record { many = n; behind = is }) (λ at. counted at most) result }
    ensures fewer { OnOk result (I.most items.new ≤ I.most items.old) }
    ensures stops { Stops I.steady (I.failed items.old) (I.failed items.new) result }
{
    let Item::Skips(listed) = items.next_item()? else {
        unreachable!()
    };
    if most < listed {
        return Err(JudgeError::Fault(No::TooManySkips {
            listed: u64::from(listed),
        }));
    }
    Ok(listed)
}

fn next_skip<I: ItemSource>(items: &mut I) -> Result<RecordName, JudgeError>
    requires sound { I.sound items.old }
    requires skip { Each (I.gives items.old) skip_next }
    ensures sound { OnOk result (I.sound items.new) }
    ensures some { CanCome (I.gives items.new) }
    ensures next { NextSkip (I.gives items.old) (I.gives items.new) result }
    ensures fewer { OnOk result (I.most items.new ≤ I.most items.old) }
    ensures stops { Stops I.steady (I.failed items.old) (I.failed items.new) result }
{
    let Item::Skip(name) = items.next_item()? else {
        unreachable!()
    };
    Ok(name)
}

fn fault_of(plan: &Plan<'_>, before: Option<RecordName>, name: RecordName, skip: u64) -> Option<No>
    ensures { result ≡ skip_fault (records_of plan.now) before name skip }
{
    match plan.name_fault(before, name)? {
        SkipFault::NoSuchRecord => Some(No::NoSuchRecord { skip }),
        SkipFault::Order | SkipFault::TooMany => Some(No::SkipOrder { skip }),
    }
}

fn keep(skips: &mut Vec<RecordName>, name: RecordName) -> Result<(), AllocError>
    ensures { OnOk result (skips.new.items ≡ skips.old.items ++ name ∷ []) }
{
    skips.push(name)?;
    Ok(())
}

/// Reads `many` left-out records, and tests the order of each before its existence.
pub fn read_skips<I: ItemSource>(
    alloc: Global,
    items: &mut I,
    plan: &Plan<'_>,
    many: u32,
) -> Result<Vec<RecordName>, JudgeError>
    requires sound { I.sound items.old }
    requires given { CanCome (I.gives items.old) }
    requires front { Each (I.gives items.old) (skips_in_front many) }
    ensures sound { OnOk result (I.sound items.new) }
    ensures given { OnOk result (CanCome (I.gives items.new)) }
    ensures listed { Answered (I.gives items.old) (I.gives items.new)
        (λ v is. record { skips = v.items; behind = is })
        (λ at. listed (records_of plan.now) at many []) result }
    ensures fewer { OnOk result (I.most items.new ≤ I.most items.old) }
    ensures stops { Stops I.steady (I.failed items.old) (I.failed items.new) result }
{
    let mut skips = Vec::new(alloc);
    let mut before = None;
    for number in 0..many {
        let name = next_skip(items)?;
        if let Some(fault) = fault_of(plan, before, name, u64::from(number)) {
            return Err(JudgeError::Fault(fault));
        }
        keep(&mut skips, name)?;
        before = Some(name);
    }
    Ok(skips)
}
