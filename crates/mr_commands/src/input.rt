//! The input of a request, distinct from what is written.
ghost use Rattle.std.specs.Prelude.{◌≡◌, ◌++◌, ◌<◌, ◌≤◌, map, IfOk, IfErr, OnOk, option_map};
ghost use Rattle.std.specs.Prelude.{length, string_bytes};
ghost use Rattle.std.specs.Option.{ForSome};
ghost use Rattle.mr_args.specs.Asked.{RangeStands};
ghost use Rattle.mr_files.specs.Identities.{AreApart};
ghost use Rattle.mr_commands.specs.Inputs.{AreRead, IsInputRefusal, IsRunInput};
ghost use Rattle.mr_commands.specs.Inputs.{IsRunInputRefusal, IsTakenInput};
ghost use Rattle.mr_commands.specs.Inputs.{IsUnreadInput, told_of_unread};
ghost use Rattle.mr_commands.specs.Named.{input_names, named, names_in, stretch_of as stretch_in};

use mr_args::{Fault, Options, request_of, skips_of};
use mr_bytes::RecordName;
use mr_files::{
    RangeFault, Store, Stretch, UnreadStretch, add_names, first_shared, names_of_result,
    read_stretch_within,
};
use mr_input::{Input, InputFault, MAX_BYTES};
use mr_jobs::Request;
use std::alloc::{AllocError, Global};

/// The names that a command reads besides its input, and those that it writes.
#[derive(Drop)]
pub struct FileNames {
    pub besides: Vec<String>,
    pub written: Vec<String>,
}

/// What a job runs on: the request, the records to leave out, and an input that fits.
#[derive(Drop)]
pub struct RunInput {
    pub request: Request,
    pub skips: Vec<RecordName>,
    pub input: Input,
}

/// What a request takes of its files.
fn stretch_of<'a>(options: &'a Options<'_>) -> Stretch<'a>
    ensures { result ≡ stretch_in options.entry.now }
{
    Stretch {
        names: options.files.as_slice(),
        from: options.from,
        to: options.to,
    }
}

pub(crate) fn fault_of(unread: UnreadStretch) -> Fault
    ensures { result ≡ told_of_unread unread.file unread.fault }
{
    let file = unread.file;
    match unread.fault {
        RangeFault::File(fault) => Fault::from(fault),
        RangeFault::PastEnd => Fault::PastEnd { file },
        RangeFault::InsideALine { byte } => Fault::InsideALine { file, byte },
        RangeFault::TooLong => Fault::Input(InputFault::TooLarge),
    }
}

/// Reads what is taken of the files, in order, within the limits of an input, and returns whether
/// the last file ends with it. It reports the limit of bytes before a later file; then it tests the
/// number of files.
fn read_input<S: Store>(
    store: &S,
    alloc: Global,
    stretch: &Stretch<'_>,
) -> Result<(Input, bool), Fault>
    requires { length stretch.now.names ≡ 1 → ForSome stretch.now.to (λ t. stretch.now.from ≤ t) }
    ensures read { IfOk result (λ r. AreRead (S.holds store.now) stretch.now r.0 r.1) }
    ensures refused { IfErr result (λ e. IsUnreadInput (S.holds store.now) (S.unreadable store.now) stretch.now e) }
{
    let (files, ends) = match read_stretch_within(store, alloc, stretch, MAX_BYTES as u64) {
        Ok(taken) => taken,
        Err(unread) => return Err(fault_of(unread)),
    };
    match Input::of(files) {
        Ok(input) => Ok((input, ends)),
        Err(fault) => Err(Fault::Input(fault)),
    }
}

pub fn name_given(alloc: Global, name: Option<&str>) -> Result<Vec<String>, AllocError>
    ensures { IfOk result (λ v. map string_bytes v.items ≡ named (option_map (λ n. n.now) name.entry)) }
{
    let mut names = Vec::new(alloc);
    if let Some(name) = name {
        add_names(alloc, &mut names, &[name])?;
    }
    Ok(names)
}

/// Reads what a request takes of its files and tests their limits; then that no written file is one
/// of them, is read besides, or is written twice; then that it fits the request. It returns whether
/// the last file ends with what is taken of it.
pub fn input_of<S: Store>(
    store: &S,
    alloc: Global,
    request: &Request,
    options: &Options<'_>,
    files: FileNames,
) -> Result<(Input, bool), Fault>
    requires { RangeStands options.now }
    ensures input { IfOk result (λ r. IsTakenInput (S.holds store.now) (stretch_in options.now)
        request.now.split r.0 r.1) }
    ensures apart { OnOk result (AreApart (S.known_as store.now)
        (map string_bytes files.besides.items ++ input_names options.now)
        (map string_bytes files.written.items)) }
    ensures refused { IfErr result (λ e. IsInputRefusal (S.holds store.now)
        (S.unreadable store.now) (S.known_as store.now) (stretch_in options.now)
        (map string_bytes files.besides.items ++ input_names options.now)
        (map string_bytes files.written.items) request.now.split e) }
{
    let (input, ends) = read_input(store, alloc, &stretch_of(options))?;
    let mut read = files.besides;
    add_names(alloc, &mut read, options.files.as_slice())?;
    if let Some(name) = first_shared(store, alloc, read.as_slice(), files.written.as_slice())? {
        return Err(Fault::SameFile(name));
    }
    if !request.fits(&input) {
        return Err(Fault::TooManySplits);
    }
    Ok((input, ends))
}

/// Tests the request and the text of the skip list, then reads the input. None of its files may be
/// one of the result in the directory, if one is written.
pub fn run_input_of<S: Store>(
    store: &S,
    alloc: Global,
    options: &Options<'_>,
    skips: &str,
    dir: Option<&str>,
) -> Result<RunInput, Fault>
    ensures input { IfOk result (IsRunInput (S.holds store.now) options.now skips.now) }
    ensures apart { OnOk result (AreApart (S.known_as store.now) (input_names options.now)
        (names_in (option_map (λ s. s.now) dir.entry) options.now.parts)) }
    ensures refused { IfErr result (IsRunInputRefusal (S.holds store.now)
        (S.unreadable store.now) (S.known_as store.now) options.now skips.now
        (names_in (option_map (λ s. s.now) dir.entry) options.now.parts)) }
{
    let request = request_of(alloc, options)?;
    let skips = skips_of(alloc, skips)?;
    let besides = Vec::new(alloc);
    let written = names_within(alloc, dir, options.parts)?;
    let files = FileNames { besides, written };
    let (input, _) = input_of(store, alloc, &request, options, files)?;
    Ok(RunInput {
        request,
        skips,
        input,
    })
}

fn names_within(alloc: Global, dir: Option<&str>, parts: u32) -> Result<Vec<String>, AllocError>
    ensures { IfOk result (λ v. map string_bytes v.items
        ≡ names_in (option_map (λ s. s.now) dir.entry) parts) }
{
    match dir {
        Some(dir) => names_of_result(alloc, dir, parts as usize),
        None => Ok(Vec::new(alloc)),
    }
}
