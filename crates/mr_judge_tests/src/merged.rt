//! Outputs of shards, merged: worked rows, and each refusal.
use mr_jobs::Job;
use mr_shards::{MergeFault, ShardFiles, ShardText, merge_parts};
use std::alloc::Global;
use std::test::Fail;

// So many files, none of which goes on in the next shard.
const ONE: ShardFiles = ShardFiles {
    count: 1,
    cut: None,
};

const TWO: ShardFiles = ShardFiles {
    count: 2,
    cut: None,
};

const THREE: ShardFiles = ShardFiles {
    count: 3,
    cut: None,
};

// What a shard of so many files has.
fn shard(count: u32, text: &[u8]) -> ShardText<'_> {
    ShardText {
        files: ShardFiles { count, cut: None },
        text,
    }
}

const TOTALS: [ShardText<'static>; 3] = [
    ShardText {
        files: TWO,
        text: b"a\t2\nthe\t7\n",
    },
    ShardText {
        files: ONE,
        text: b"",
    },
    ShardText {
        files: THREE,
        text: b"b\t1\nthe\t40\nzoo\t1\n",
    },
];

const KEYS_WITH_TABS: [ShardText<'static>; 2] = [
    ShardText {
        files: ONE,
        text: b"/a\tb\t2\n/c\t1\n",
    },
    ShardText {
        files: ONE,
        text: b"/a\t9\n/a\tb\t3\n",
    },
];

const PLACES: [ShardText<'static>; 3] = [
    ShardText {
        files: TWO,
        text: b"ax\t0:0\nx\t1:7\nx\t1:9\n",
    },
    ShardText {
        files: ONE,
        text: b"x\t0:3\nzx\t0:5\n",
    },
    ShardText {
        files: ONE,
        text: b"x\t0:1\n",
    },
];

// The first of the rows that are merged in windows.
const PIECES: [ShardText<'static>; 2] = [
    ShardText {
        files: TWO,
        text: b"ax\t0:0\nx\t1:7\nx\t1:9\nyx\t0:4\n",
    },
    ShardText {
        files: ONE,
        text: b"x\t0:3\nzx\t0:5\n",
    },
];

// The second file of the first shard goes on in the next one, behind its first 600 bytes.
const CUT: [ShardText<'static>; 2] = [
    ShardText {
        files: ShardFiles {
            count: 2,
            cut: Some(600),
        },
        text: b"x\t0:0\nx\t1:7\n",
    },
    ShardText {
        files: TWO,
        text: b"x\t0:10\nx\t1:3\n",
    },
];

// Three ranges of one file, of five, three and some bytes.
const ONE_FILE: [ShardText<'static>; 3] = [
    ShardText {
        files: ShardFiles {
            count: 1,
            cut: Some(5),
        },
        text: b"x\t0:0\n",
    },
    ShardText {
        files: ShardFiles {
            count: 1,
            cut: Some(3),
        },
        text: b"x\t0:1\n",
    },
    ShardText {
        files: ONE,
        text: b"x\t0:2\n",
    },
];

// Files of an index.
const FILES: [ShardText<'static>; 3] = [
    ShardText {
        files: ONE,
        text: b"a\t0\n",
    },
    ShardText {
        files: THREE,
        text: b"a\t0,2\nb\t1\n",
    },
    ShardText {
        files: ONE,
        text: b"b\t0\nc\t0\n",
    },
];

// The second file of the first shard goes on in the next one: its number is kept once.
const CUT_FILES: [ShardText<'static>; 2] = [
    ShardText {
        files: ShardFiles {
            count: 2,
            cut: Some(600),
        },
        text: b"a\t0,1\nb\t1\n",
    },
    ShardText {
        files: TWO,
        text: b"a\t0\nb\t0,1\nc\t1\n",
    },
];

// Whether these outputs are merged to that text.
fn merges_to(
    alloc: Global,
    job: &Job,
    outputs: &[ShardText<'_>],
    want: &[u8],
) -> Result<bool, MergeFault> {
    Ok(merge_parts(alloc, job, outputs)?.as_slice() == want)
}

// Outputs, and the text that they are merged to.
#[derive(Clone, Copy)]
struct Row<'a> {
    outputs: &'a [ShardText<'a>],
    want: &'a [u8],
}

const WITH_TOTALS: [Row<'static>; 2] = [
    Row {
        outputs: &[],
        want: b"",
    },
    Row {
        outputs: &TOTALS,
        want: b"a\t2\nb\t1\nthe\t47\nzoo\t1\n",
    },
];

const WITH_TABS: [Row<'static>; 1] = [Row {
    outputs: &KEYS_WITH_TABS,
    want: b"/a\t9\n/a\tb\t5\n/c\t1\n",
}];

const WITH_PLACES: [Row<'static>; 4] = [
    Row {
        outputs: &PLACES,
        want: b"ax\t0:0\nx\t1:7\nx\t1:9\nx\t2:3\nx\t3:1\nzx\t2:5\n",
    },
    Row {
        outputs: &PIECES,
        want: b"ax\t0:0\nx\t1:7\nx\t1:9\nx\t2:3\nyx\t0:4\nzx\t2:5\n",
    },
    Row {
        outputs: &CUT,
        want: b"x\t0:0\nx\t1:7\nx\t1:610\nx\t2:3\n",
    },
    Row {
        outputs: &ONE_FILE,
        want: b"x\t0:0\nx\t0:6\nx\t0:10\n",
    },
];

const WITH_FILES: [Row<'static>; 2] = [
    Row {
        outputs: &FILES,
        want: b"a\t0,1,3\nb\t2,4\nc\t4\n",
    },
    Row {
        outputs: &CUT_FILES,
        want: b"a\t0,1\nb\t1,2\nc\t2\n",
    },
];

// Whether each row's outputs are merged to its text.
fn are_merged(alloc: Global, job: &Job, rows: &[Row<'_>]) -> bool {
    for row in rows {
        if merges_to(alloc, job, row.outputs, row.want) != Ok(true) {
            return false;
        }
    }
    true
}

/// Totals are added, keys may hold tabs, places follow by file, and files of an index are joined.
#[test]
fn outputs_are_merged(rt: HostRuntime) -> Result<(), Fail> {
    let grep = Job::grep(rt.alloc(), b"x", false)?;
    assert!(rt; are_merged(rt.alloc(), &grep, &WITH_PLACES));
    assert!(rt; are_merged(rt.alloc(), &Job::words(false), &WITH_TOTALS));
    assert!(rt; are_merged(rt.alloc(), &Job::url(), &WITH_TABS));
    assert!(rt; are_merged(rt.alloc(), &Job::index(false), &WITH_FILES));
    Ok(())
}

// Why these two outputs are not merged, where they are not.
fn fault_of(
    alloc: Global,
    job: &Job,
    first: ShardText<'_>,
    second: ShardText<'_>,
) -> Option<MergeFault> {
    merge_parts(alloc, job, &[first, second]).err()
}

// Which line of which output is bad, where the text is the second of two.
fn bad_line(alloc: Global, job: &Job, text: &[u8]) -> Result<Option<(usize, u64)>, MergeFault> {
    match fault_of(alloc, job, shard(1, b""), shard(1, text)) {
        None => Ok(None),
        Some(MergeFault::BadLine { shard, line }) => Ok(Some((shard, line))),
        Some(fault) => Err(fault),
    }
}

// Texts of the job that counts words, and which line of the second output is bad then.
const BAD_WITH_TOTALS: [(&[u8], Option<(usize, u64)>); 11] = [
    (b"a\t1\nb\t2\n", None),
    // A line without its line feed, or without a tab; no number, one with a zero in front, or one too large.
    (b"a\t1\nb\t2", Some((1, 1))),
    (b"a 1\n", Some((1, 0))),
    (b"a\t\n", Some((1, 0))),
    (b"a\t+1\n", Some((1, 0))),
    (b"a\t01\n", Some((1, 0))),
    (b"a\t18446744073709551615\n", None),
    (b"a\t18446744073709551616\n", Some((1, 0))),
    // Keys that do not rise.
    (b"b\t1\na\t1\n", Some((1, 1))),
    (b"a\t1\na\t1\n", Some((1, 1))),
    // Another job's line.
    (b"x\t0:0\n", Some((1, 0))),
];

// The same of a job that finds places.
const BAD_WITH_PLACES: [(&[u8], Option<(usize, u64)>); 3] = [
    (b"x\t0:0\nx\t0:2\n", None),
    (b"x\t0:0\nax\t0:2\n", Some((1, 1))),
    // Another job's line.
    (b"x\t1\n", Some((1, 0))),
];

// The same of an index.
const BAD_WITH_FILES: [(&[u8], Option<(usize, u64)>); 12] = [
    (b"a\t0\nb\t0\n", None),
    // Numbers that do not rise.
    (b"a\t0,0\n", Some((1, 0))),
    (b"a\t1,0\n", Some((1, 0))),
    // No number, one with a zero in front, or one too large.
    (b"a\t\n", Some((1, 0))),
    (b"a\t0,\n", Some((1, 0))),
    (b"a\t,0\n", Some((1, 0))),
    (b"a\t00\n", Some((1, 0))),
    (b"a\t4294967296\n", Some((1, 0))),
    (b"a\t18446744073709551616\n", Some((1, 0))),
    // Keys that do not rise.
    (b"b\t0\na\t0\n", Some((1, 1))),
    (b"a\t0\na\t0\n", Some((1, 1))),
    // Another job's line.
    (b"x\t0:0\n", Some((1, 0))),
];

// Whether the bad line of each text is told, where it has one.
fn are_told(alloc: Global, job: &Job, rows: &[(&[u8], Option<(usize, u64)>)]) -> bool {
    for (text, want) in rows {
        if bad_line(alloc, job, text) != Ok(*want) {
            return false;
        }
    }
    true
}

#[test]
fn bad_lines(rt: HostRuntime) -> Result<(), Fail> {
    let grep = Job::grep(rt.alloc(), b"x", false)?;
    assert!(rt; are_told(rt.alloc(), &grep, &BAD_WITH_PLACES));
    assert!(rt; are_told(rt.alloc(), &Job::words(false), &BAD_WITH_TOTALS));
    assert!(rt; are_told(rt.alloc(), &Job::index(false), &BAD_WITH_FILES));
    Ok(())
}

#[test]
fn places_beyond(rt: HostRuntime) -> Result<(), Fail> {
    let grep = Job::grep(rt.alloc(), b"x", false)?;
    let first = shard(1, b"x\t0:9\n");
    let other = shard(1, b"x\t1:0\n");
    let late = shard(1, b"x\t0:1\n");
    let long = ShardText {
        files: ShardFiles {
            count: 1,
            cut: Some(18446744073709551615),
        },
        text: b"",
    };
    assert!(rt;
        fault_of(rt.alloc(), &grep, other, first) == Some(MergeFault::NoSuchFile { shard: 0 })
    );
    assert!(rt;
        fault_of(rt.alloc(), &grep, first, other) == Some(MergeFault::NoSuchFile { shard: 1 })
    );
    assert!(rt; fault_of(rt.alloc(), &grep, long, late) == Some(MergeFault::PlaceTooFar));
    assert!(rt; fault_of(rt.alloc(), &grep, late, long) == None);
    let index = Job::index(false);
    assert!(rt;
        fault_of(
            rt.alloc(),
            &index,
            shard(1, b"a\t0\n"),
            shard(1, b"a\t0,1\n")
        ) == Some(MergeFault::NoSuchFile { shard: 1 })
    );
    Ok(())
}

#[test]
fn limits(rt: HostRuntime) {
    let most = shard(4294967295, b"a\t18446744073709551615\n");
    let one = shard(0, b"a\t1\n");
    let words = Job::words(false);
    assert!(rt; fault_of(rt.alloc(), &words, most, one) == Some(MergeFault::TotalTooLarge));
    assert!(rt; fault_of(rt.alloc(), &words, most, most) == Some(MergeFault::TooManyFiles));
}
