//! Counts the line feeds before a place of a file, so that the records of a range are printed with
//! the numbers of their lines in the whole file.
//!
//! Cost: one pass over the bytes before the place, of which 64 KiB are held.
ghost use Rattle.std.specs.Prelude.{◌≡◌, IfErr, IfOk};
ghost use Rattle.mr_store.specs.Devices.{FailsOnly};
ghost use Rattle.mr_args.specs.Asked.{RangeStands};
ghost use Rattle.mr_commands.specs.Explains.{AreLinesBefore, GaveFeeds, HasFeeds, ReportsUnread};
ghost use Rattle.mr_commands.specs.Explains.{first_name};

use mr_args::{Fault, Options};
use mr_explain::line_feeds;
use mr_files::Store;
use mr_store::{CountedRead, Device, ReadFault};
use std::alloc::Global;

const PIECE: usize = 65_536;

/// The line feeds among the first `most` bytes, or among all if there are fewer.
fn count_feeds<R: CountedRead>(reader: &mut R, most: u64) -> Result<u64, Device>
    ensures feeds { IfOk result (GaveFeeds (R.remaining reader.old) most) }
    ensures fails { FailsOnly (R.can_fail reader.old) (R.lacked reader.new) result }
{
    let mut buffer = [0u8; PIECE];
    let mut left = most;
    let mut feeds = 0u64;
    while left > 0 {
        let count = reader.read(&mut buffer)?;
        if count == 0 {
            return Ok(feeds);
        }
        if count as u64 >= left {
            return Ok(feeds + line_feeds(&buffer[..left as usize]) as u64);
        }
        feeds += line_feeds(&buffer[..count]) as u64;
        left -= count as u64;
    }
    Ok(feeds)
}

fn read_feeds<S: Store>(store: &S, alloc: Global, name: &str, place: u64) -> Result<u64, ReadFault>
    ensures feeds { IfOk result (HasFeeds (S.holds store.now) name.now place) }
    ensures refused { result ≡ Err ReadFault.Device → S.unreadable store.now name.now }
{
    let mut reader = store.reader(alloc, name)?;
    match count_feeds(&mut reader, place) {
        Ok(feeds) => Ok(feeds),
        Err(_) if reader.is_out_of_memory() => Err(ReadFault::OutOfMemory),
        Err(_) => Err(ReadFault::Device),
    }
}

/// The line feeds of the first file before what is taken of it.
pub(crate) fn lines_before<S: Store>(
    store: &S,
    alloc: Global,
    options: &Options<'_>,
) -> Result<u64, Fault>
    requires { RangeStands options.now }
    ensures lines { IfOk result (AreLinesBefore (S.holds store.now) options.now) }
    ensures refused { IfErr result (ReportsUnread (S.unreadable store.now) (first_name options.now)) }
{
    if options.from == 0 {
        return Ok(0);
    }
    let name = options.files[0];
    match read_feeds(store, alloc, name, options.from) {
        Ok(feeds) => Ok(feeds),
        Err(ReadFault::OutOfMemory) => Err(Fault::OutOfMemory),
        Err(ReadFault::Device) => Err(Fault::CannotRead(String::from_str(alloc, name)?)),
    }
}
