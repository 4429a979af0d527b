//! The texts of faults that no row brings about, both ways in which those of several are told, and whether faults are one.
use crate::telling::Teller;
use mr_input::InputFault;
use mr_jobs::JobFault;
use mr_merge::MergeFault;
use mr_spill::PushKeyFault;
use mr_splits::{PlanFault, SkipFault};
use mr_task::TaskFault;

/// Of inputs, jobs and plans.
fn show_asked(teller: &Teller) {
    let [bad, many] = [PlanFault::BadSplitSize, PlanFault::TooManySplits];
    let [skips, order] = [SkipFault::TooMany, SkipFault::Order];
    teller.shown(&InputFault::TooLarge, " ");
    teller.shown(&JobFault::OutOfMemory, " ");
    teller.shown(&PlanFault::OutOfMemory, " ");
    teller.before(&(bad == many), " ");
    teller.two(&(skips == order), &(order == SkipFault::NoSuchRecord));
}

/// Those, and want of memory of buffers, merging and tasks.
pub fn answer(teller: &Teller) {
    show_asked(teller);
    teller.fault_part(&PushKeyFault::OutOfMemory);
    teller.fault_part(&MergeFault::OutOfMemory);
    teller.fault(&TaskFault::OutOfMemory);
}
