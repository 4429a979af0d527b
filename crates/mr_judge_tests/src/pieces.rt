//! Outputs of shards, merged as they are read: worked rows at each width of the windows.
use mr_jobs::Job;
use mr_shards::{MergeFault, Merger, ShardFiles, Window};
use std::alloc::Global;
use std::test::Fail;

// The files of both shards.
const FILES: [ShardFiles; 2] = [
    ShardFiles {
        count: 2,
        cut: None,
    },
    ShardFiles {
        count: 1,
        cut: None,
    },
];

// So many bytes of the text from there on, and whether it ends with them.
fn window_at(text: &[u8], at: usize, width: usize) -> Window<'_> {
    let start = at.min(text.len());
    let end = start.saturating_add(width).min(text.len());
    Window {
        bytes: &text[start..end],
        is_last: end == text.len(),
    }
}

// How many bytes were taken of each of two texts, after so many.
fn moved_on(at: (usize, usize), cuts: &[usize]) -> (usize, usize) {
    if cuts.len() == 2 {
        (at.0.saturating_add(cuts[0]), at.1.saturating_add(cuts[1]))
    } else {
        at
    }
}

// Two texts, and what comes of them in windows of each width from there on, which grow by their width where nothing is
// taken: the merged text, or a fault.
#[derive(Clone, Copy)]
struct Row<'a> {
    first: &'a [u8],
    second: &'a [u8],
    from: usize,
    grows: bool,
    want: Result<&'a [u8], MergeFault>,
}

// The texts, merged in windows of so many bytes.
fn in_windows(
    alloc: Global,
    job: &Job,
    row: &Row<'_>,
    width: usize,
    out: &mut Vec<u8>,
) -> Result<(), MergeFault> {
    let mut merger = Merger::new(alloc, &FILES)?;
    let more = if row.grows { width } else { 0 };
    let mut at = (0, 0);
    let mut wide = width;
    for _ in 0..100 {
        let windows = [
            window_at(row.first, at.0, wide),
            window_at(row.second, at.1, wide),
        ];
        merger.merge_round(alloc, job, &windows)?;
        out.extend_from_slice(merger.text())?;
        let next = moved_on(at, merger.cuts());
        if windows[0].is_last && windows[1].is_last {
            return Ok(());
        }
        wide = if next == at {
            wide.saturating_add(more)
        } else {
            width
        };
        at = next;
    }
    Err(MergeFault::OutOfMemory)
}

// Whether this comes of windows of that width.
fn comes_to(alloc: Global, job: &Job, row: &Row<'_>, width: usize) -> bool {
    let mut out = Vec::new(alloc);
    match in_windows(alloc, job, row, width, &mut out) {
        Ok(()) => row.want == Ok(out.as_slice()),
        Err(fault) => row.want == Err(fault),
    }
}

// Whether it comes of windows of each width.
fn always_comes_to(alloc: Global, job: &Job, row: &Row<'_>) -> bool {
    for width in row.from..40 {
        if !comes_to(alloc, job, row, width) {
            return false;
        }
    }
    true
}

// Whether that is so of each row.
fn always_come_to(alloc: Global, job: &Job, rows: &[Row<'_>]) -> bool {
    for row in rows {
        if !always_comes_to(alloc, job, row) {
            return false;
        }
    }
    true
}

// Line 3 of the first text is bad.
const BAD_LINE: MergeFault = MergeFault::BadLine { shard: 0, line: 3 };

const TOTALS: [Row<'static>; 2] = [
    // Totals of one key come together.
    Row {
        first: b"a\t1\nb\t1\nc\t2\n",
        second: b"b\t2\nc\t1\nd\t1\n",
        from: 1,
        grows: true,
        want: Ok(b"a\t1\nb\t3\nc\t3\nd\t1\n"),
    },
    // A key falls behind a piece.
    Row {
        first: b"a\t1\nb\t1\nc\t2\nbb\t1\n",
        second: b"c\t1\nd\t1\n",
        from: 1,
        grows: true,
        want: Err(BAD_LINE),
    },
];

const PLACES: [Row<'static>; 3] = [
    // As whole outputs are merged.
    Row {
        first: b"ax\t0:0\nx\t1:7\nx\t1:9\nyx\t0:4\n",
        second: b"x\t0:3\nzx\t0:5\n",
        from: 1,
        grows: true,
        want: Ok(b"ax\t0:0\nx\t1:7\nx\t1:9\nx\t2:3\nyx\t0:4\nzx\t2:5\n"),
    },
    // Lines of one key, place by place.
    Row {
        first: b"x\t0:0\nx\t0:2\nx\t0:4\nx\t1:0\nx\t1:2\nx\t1:4\ny\t0:6\n",
        second: b"a\t0:8\nx\t0:0\nx\t0:2\nx\t0:4\nx\t0:6\n",
        from: 12,
        grows: false,
        want: Ok(
            b"a\t2:8\nx\t0:0\nx\t0:2\nx\t0:4\nx\t1:0\nx\t1:2\nx\t1:4\nx\t2:0\nx\t2:2\nx\t2:4\nx\t2:6\ny\t0:6\n",
        ),
    },
    // Places that fall within a key.
    Row {
        first: b"x\t0:0\nx\t0:2\nx\t0:4\nax\t0:6\n",
        second: b"x\t0:0\nx\t0:2\n",
        from: 1,
        grows: true,
        want: Err(BAD_LINE),
    },
];

// Files of one key come together.
const JOINED: [Row<'static>; 1] = [Row {
    first: b"a\t0,1\nb\t1\nc\t0\n",
    second: b"b\t0\nc\t0\nd\t0\n",
    from: 1,
    grows: true,
    want: Ok(b"a\t0,1\nb\t1,2\nc\t0,2\nd\t2\n"),
}];

#[test]
fn merged_in_windows(rt: HostRuntime) -> Result<(), Fail> {
    let grep = Job::grep(rt.alloc(), b"x", false)?;
    assert!(rt; always_come_to(rt.alloc(), &grep, &PLACES));
    assert!(rt; always_come_to(rt.alloc(), &Job::words(false), &TOTALS));
    assert!(rt; always_come_to(rt.alloc(), &Job::index(false), &JOINED));
    Ok(())
}
