//! The table of the program: its commands, their options, and what helps against each fault. The
//! parser, the help, the hints at a terminal, the man page and the completions are made from it.
//!
//!     OPTIONS   commands | option     | takes | help       | limits | default
//!               sr       | --cert <V> | range | what it is | 1 to 2 | 1
//!     FAULTS    commands | fault                | what helps
//!               srce     | cannot read <FILE>   | a sentence without a full stop
//!
//! Columns are parted by `|`, and commands are named by their letters in `COMMANDS`. An option takes
//! nothing (`flag`), a text, one of a few names (`job`, `hints`), a number whose limits the request
//! tests (`u32`, `u64`), one within its limits (`range`), or the name of a file (`path`). An argument
//! in front of which no option stands is `one`, `some` or `any`, behind which its name in the parsed
//! line stands. A default of `needed` means that there is none. A fault is named as it is printed, up
//! to a value in angle brackets; behind `mapred: `, unless it names what is in front of a colon.
//! What helps may be an option alone: then its limits do.

/// A command: the letter of its rows, its name, what it does, and the rest of its help. A line of
/// `text` is a paragraph, or a name and its meaning parted by `|`, indented as it is here.
#[derive(Clone, Copy)]
pub struct CommandRow<'a> {
    pub letter: char,
    pub name: &'a str,
    pub about: &'a str,
    pub text: &'a str,
}

pub const VERSION: &str = "0.2.0, proved with Rattle logic dac8208d650f15bf";

pub const PROGRAM: CommandRow<'static> = CommandRow {
    letter: 'p',
    name: "mapred",
    about: "MapReduce over files: counts words, finds lines, counts the resources of a log or a column, lists the files of each word",
    text: "Examples:
  mapred seq --job words --out counts book.txt
  mapred check --job words --out counts book.txt

The first writes counts/part-00000 and counts/certificate, the second judges both.
The directory must exist, unless --fresh makes it.
The --help of a command lists its options, its exit statuses, and what helps against each fault.",
};

pub const COMMANDS: [CommandRow<'static>; 7] = [
    CommandRow {
        letter: 's',
        name: "seq",
        about: "Runs a job over files, one record after another, and writes an output file for each partition and a certificate",
        text: "Examples:
  mapred seq --job words --parts 4 --out counts book.txt
  mapred seq --job grep --literal error --fold --out found a.log b.log
  mapred seq --job url --out visits access.log
  mapred seq --job index --out places a.txt b.txt
  mapred seq --job field --field 9 --out codes access.log

Writes DIR/part-00000 and so on, keys in rising order, then DIR/certificate, and removes no file. A verdict in DIR is emptied before.
Exit status: 0 done, 1 no pair and --need-pairs, 2 usage or a limit, 3 a file that can't be read or written, 4 want of memory.",
    },
    CommandRow {
        letter: 'r',
        name: "run",
        about: "Runs a job by workers, each a thread, judges the result, and writes it only where the judge says yes",
        text: "Examples:
  mapred run --job words --parts 4 --out counts book.txt
  mapred run --job words --workers 8 --split 1048576 --out counts a.txt b.txt
  mapred run --job words --script losses --picture run.html --out n book.txt
  mapred run --job words --scratch regions --out counts book.txt

A split is the work of one map task, a partition that of one reduce task: with smaller splits and more partitions more workers share the work.
Split size and partitions are part of what is asked for: check is given the same.

Writes what seq writes with the same --cert, byte for byte where the same records are left out, and no file where nothing is certified. A verdict in DIR is emptied before.
With --history the events of the master are written first, an event with its reply a line, certified or not. With --picture they are drawn behind the result, as `mapred picture` draws them.
Exit status: 0 certified, 1 failed, uncertified, or no pair and --need-pairs, 2 usage or a limit, 3 a file that can't be read or written, 4 want of memory.

A script says what shall go wrong, a line each; workers, splits, records and partitions count from 0:
  lose W after N | worker W is lost once it has made N reports
  zombie W after N | worker W is taken for lost just before its report N+1, and goes on all the same
  bad S R | record R of split S fails in each attempt that doesn't leave it out
  flaky S R N | the same in the first N attempts that reach it
  hold W | worker W holds its first report back until its task is complete, or for a while
  spoil P B | in each reduce output of partition P the byte at place B is changed
  damage S P B | in what is first kept of split S for partition P the byte at place B is changed
An empty line, and one that begins with #, says nothing. As in
  # worker 1 is lost after two reports, and record 7 of split 0 is bad
  lose 1 after 2
  bad 0 7",
    },
    CommandRow {
        letter: 'd',
        name: "picture",
        about: "Draws the history of a run as one HTML page: what each worker did, what was lost, and how it ended",
        text: "Examples:
  mapred run --job words --history events --out counts book.txt
  mapred picture events --out run.html

The page needs no other file and no network. It has a lane for each worker with its attempts in the order of the events, the numbers of the run above, and what went wrong below, as text too. With many events a column of the picture stands for several.
Exit status: 0 drawn, 1 HISTORY is none, 2 usage or a limit, 3 a file that can't be read or written, 4 want of memory.",
    },
    CommandRow {
        letter: 'c',
        name: "check",
        about: "Judges a result: reads files, output files and certificate, and trusts no one who made them",
        text: "Examples, each with the options that the result was asked for with:
  mapred check --job words --parts 4 --out counts book.txt
  mapred check --job grep --literal error --fold --out found a.log b.log
  mapred check --job words --max-skips 1 --out counts book.txt
  mapred check --job words --threads 4 --split 1048576 --out counts a.txt b.txt
  mapred check --job words --verdict counts/verdict --out counts book.txt

Several threads share the splits, and then the partitions; their answer is that of one.
Reads DIR/part-00000 and so on, as many as partitions, and DIR/certificate, of either version, and no other file of DIR.
Says yes with the left-out records, or no with the first fault.
With --verdict a yes is written too: what was asked for, the length and the SHA-256 of each file of the input, by the name that was given, and of each part, the left-out records, and the pairs. A no writes nothing.
Exit status: 0 yes, 1 no, 2 usage or a limit, 3 a file that can't be read or written, 4 want of memory.",
    },
    CommandRow {
        letter: 'm',
        name: "merge",
        about: "Merges the results of shards, each judged by itself, to the one result of all their files",
        text: "Examples:
  mapred check --job words --out first --verdict first/verdict a.txt b.txt
  mapred check --job words --out second --verdict second/verdict c.txt
  sha256sum a.txt b.txt c.txt > inputs
  mapred merge --out whole --inputs inputs first/verdict second/verdict

A shard is some of the files, with their result: each is run and judged by itself, all with the same options, and its verdict is written beside its parts.
It may begin and end inside a file, by --from and --to, and the next shard goes on there.
The merged result is that of one run over all files, those of a shard named earlier before those of a later one, without all records that were left out.

Reads each VERDICT and beside it part-00000 and so on, as many as partitions, and no other file: each part is compared with the length and the SHA-256 in the verdict.
The files of the input aren't read; with --inputs their names, digests and order are compared with the lines of LIST.
A verdict holds no signature: name those that you trust.

Writes DIR/part-00000 and so on as they are merged, then DIR/verdict, which lists all files and can be merged again, and removes no file.
A verdict that was there before is emptied first. Where a fault is found in a part, the parts before it are there, and no verdict is; with --fresh nothing is.
DIR may not be the folder of a shard.
Exit status: 0 merged, 1 the shards aren't what their verdicts say, or not those of one request, 2 usage or a limit, 3 a file that can't be read or written, 4 want of memory.

In faults, shards, files, partitions and lines count from 0.",
    },
    CommandRow {
        letter: 'v',
        name: "verify",
        about: "Tests a result against its verdict again: the lengths and the SHA-256 of its files, and its pairs",
        text: "Examples:
  mapred verify counts/verdict
  mapred verify --with-inputs --out copy counts/verdict

Reads VERDICT, as check --verdict or merge wrote it, and each part beside it, or in DIR.
Each must have the length and the SHA-256 in the verdict, and their lines must give its pairs: the sum of the counts of words, url and field, one for each line of grep; lines of an index give none.
With --with-inputs each file of the input, or the range of it that was judged, is read too, by the name in the verdict, from where this command runs. What a file has behind its range is not looked at.
It doesn't judge: a verdict holds no signature, and who can change it can change the parts with it. Writes no file but the report.
Exit status: 0 verified, 1 other files than the verdict's, 2 usage or a limit, 3 a file that can't be read, or the report that can't be written, 4 want of memory.

In faults, partitions, inputs and lines count from 0.",
    },
    CommandRow {
        letter: 'e',
        name: "explain",
        about: "Prints the records that give a key, and compares the key's line in a result with them",
        text: "Examples:
  mapred explain --job url --key /robots.txt access.log
  mapred explain --job url --key /robots.txt --limit 10 --out visits access.log
  mapred explain --job words --key cat --skips 0:7 --max-skips 1 book.txt
  mapred explain --job url --none access.log

Prints each record that gives KEY, in the order of the input and each once, as FILE:LINE:OFFSET:record, and then `KEY: N pairs in M records`.
LINE counts from 1 and OFFSET, in bytes, from 0, in the whole file. A record can give a key several times, as a line a word.
--limit bounds what is printed, and neither N nor M.
KEY is as an output writes it: words and index, without --keep-case, write no upper-case letter of ASCII.
With --none it prints the records that give nothing, and then `nothing: 0 pairs in M records`.
Records of --skips that would have given KEY come last, each behind `left out:`, and then `left out: N pairs in M records`. N and M before count none of them, and nothing is printed where there are none.
With --out the lines that DIR's part has for KEY are compared with those that the kept records give: `agrees`, or `differs: LINE` with the first other line of the part, or `differs: no line`.
Give the options that the result was made with. DIR is only read, and no file is written but the report.
Exit status: 0 printed, and DIR agrees, 1 DIR differs, 2 usage or a limit, 3 a file that can't be read, or standard output or the report that can't be written, 4 want of memory.",
    },
];

/// What is said behind the text of each command with that letter.
pub const NOTES: [&str; 1] = [
    "srm | With --fresh the result is in DIR whole or not at all. It is written to a new directory beside DIR, .DIR.fresh-N, which takes DIR's name and place at the end. Where the command fails or nothing is certified, DIR is as it was. Only a command that is killed can leave the directory beside.",
];

/// The names of the jobs, in the order of their numbers from 1.
pub const JOBS: [&str; 5] = ["words", "grep", "url", "index", "field"];

pub const HINTS: [&str; 3] = ["auto", "always", "never"];

pub const OPTIONS: [&str; 43] = [
    "srce | --job <JOB> | job | words: count words; grep: find lines; url: count what a log's lines request; index: list the files of each word; field: count a column || needed",
    "srce | --keep-case | flag | words, index: take Word and word apart",
    "srce | --literal <TEXT> | text | grep: the text to look for | 1 to 4096 bytes in one line",
    "srce | --fold | flag | grep: treat letters of ASCII alike in either case",
    "srce | --by-host | flag | url: choose a key's output file by the host in it",
    "srce | --field <N> | u32 | field: which field of each line is counted | 1 to 65535",
    "srce | --separator <C> | text | field: the byte between fields, \\t for a tab || runs of spaces and tabs",
    "srce | --parts <R> | u32 | how many partitions, and so output files | 1 to 1024 | 1",
    "srce | --split <BYTES> | u32 | the bytes of a split, by which records are named | 1 to 67108864 | 67108864",
    "srce | --max-skips <K> | u32 | how many records may be left out | 0 to 1000 | 0",
    "srce | --from <BYTE> | u64 | take the first FILE from this byte on, where a line begins || 0",
    "srce | --to <BYTE> | u64 | take the last FILE up to before this byte, where a line begins || its end",
    "e | --key <KEY> | text | the key, as an output writes it; this or --none is needed",
    "e | --none | flag | print the records that give nothing, in place of those that give KEY",
    "e | --limit <N> | u64 | print at most so many records, and at most so many left-out ones || all",
    "src | --out <DIR> | path | a directory that exists, of the output files and the certificate || needed",
    "m | --out <DIR> | path | a directory that exists, of the merged output files and their verdict || needed",
    "v | --out <DIR> | path | the directory of the parts || that of the verdict",
    "e | --out <DIR> | path | the directory of a result, whose line of KEY is compared || none",
    "d | --out <FILE> | path | the page that is written || needed",
    "srm | --fresh | flag | make DIR, or take it where it is empty: the result is there whole or not at all",
    "sr | --need-pairs | flag | refuse a result without a pair, and write nothing",
    "se | --skips <LIST> | list | records to leave out, as SPLIT:RECORD,SPLIT:RECORD || \"\"",
    "r | --workers <W> | range | how many workers there are | 1 to 64 | 4",
    "r | --attempts <A> | range | how many attempts a task may have | 1 to 16 | 8",
    "r | --script <FILE> | path | what shall go wrong, a line each || nothing",
    "r | --history <FILE> | path | where the events of the run are written, a line each || nowhere",
    "r | --picture <FILE> | path | where the events of the run are drawn last, as an HTML page || nowhere",
    "r | --scratch <DIR> | path | a directory that exists, where what map tasks give is kept in files, of which none is removed || in memory",
    "sr | --cert <V> | range | the version of the certificate; 2 takes a third to a half of the room | 1 to 2 | 1",
    "c | --threads <N> | range | how many threads judge | 1 to 64 | 1",
    "c | --verdict <FILE> | path | where the verdict of a yes is written, which lists what was judged || nowhere",
    "m | --inputs <LIST> | path | the inputs that are meant, in order, as sha256sum lists them || any",
    "m | --partial | flag | the first input may begin inside its file, and the last one may end before its file does",
    "v | --with-inputs | flag | the files of the input are tested too",
    "srcmve | --report <FILE> | path | where the facts of the answer are written last, as one JSON object || nowhere",
    "srcmved | --hints <WHEN> | hints | print what helps against a fault, and the system's reason, on standard error: auto does where that is a terminal || auto",
    "srce | [FILE]... | any files | the input files, in order: at most 1024, of 1 GiB in all",
    "m | <VERDICT>... | some verdicts | the verdicts of the shards, in order, each beside the parts that it lists || needed",
    "d | <HISTORY> | one history | the events of a run, as run --history writes them || needed",
    "v | <VERDICT> | one verdict | the verdict, which lists what was judged || needed",
    "psrcmved | -h, --help | help | print this help",
    "p | -V, --version | help | print the version",
];

pub const FAULTS: [&str; 94] = [
    "r | failed: NoWorkers | every worker is lost: the script loses them (--workers W makes more), or none can keep a region (see that the directory of --scratch is there, may be written to, and has room)",
    "r | failed: TooManySkips | more records fail than --max-skips K lets be left out; K is 0 where it isn't given",
    "r | failed: TooManyAttempts | a task has had --attempts A attempts, 8 where it isn't given, and none completed it",
    "r | uncertified: <FAULT> | the judge refused what was made, by this fault, as `mapred check` would name it",
    "c | no: Malformed | the certificate is damaged from that byte on, or is none",
    "c | no: OtherJob | it is of another job, --keep-case, --literal, --fold, --by-host, --parts or --split: give those that seq had",
    "c | no: OtherInput | it is of other files, by their number or their lengths: give those that seq had, in their order",
    "c | no: SkipOrder | its left-out records don't rise: the certificate is wrong",
    "c | no: NoSuchRecord | a record that it leaves out isn't there: the certificate is wrong",
    "c | no: TooManySkips | it leaves out more records than --max-skips allows: give as many as you would accept",
    "c | no: NoSuchPair | it names a pair that this input doesn't give: the input was changed, or the certificate",
    "c | no: EntryOrder, no: KeyOrder | its pairs or its keys don't rise: the input was changed, or the certificate",
    "c | no: KeyDiffers, no: WrongPartition | a pair has another key than its group, or its key another partition: the input was changed, or the certificate",
    "c | no: Unnamed | it doesn't name each pair of this input once: the input was changed, or the certificate",
    "c | no: OutputDiffers | the part of that number is wrong from that byte on, or was cut: run seq again",
    "e | KEY: 0 pairs | without --keep-case keys have no upper-case letters: give --key as the output writes it",
    "e | differs: <LINE> | give the options and files that the result was made with, --parts, --by-host and --skips too",
    "srcmved | a word of the command line is not UTF-8 | literals and names of files are UTF-8: give the file another name, or a link",
    "srce | option does not belong to this job | --keep-case belongs to words and index, --literal and --fold to grep, --by-host to url, --field and --separator to field",
    "srce | EmptyLiteral | grep needs --literal TEXT",
    "srce | LongLiteral | --literal",
    "srce | LineEndInLiteral | --literal holds no line feed, since lines are looked at one by one",
    "srce | BadField | --field N, which field needs, is 1 to 65535",
    "srce | BadSeparator | --separator is one byte, no digit and no line feed; \\t for a tab",
    "srce | BadParts | --parts",
    "srce | BadSplitSize | --split",
    "srce | BadSkips | --max-skips",
    "srce | NoFileForRange | --from and --to speak of a FILE: name it",
    "srce | BadRange | --to lies before --from",
    "srce | PastEnd | this file, counted from 0, ends before --from or --to",
    "srce | InsideALine | --from and --to stand where a line begins, or at the file's end",
    "se | bad skip list | --skips is SPLIT:RECORD,SPLIT:RECORD, as in 0:1,0:7",
    "r | BadLine | a line of the script is `lose W after N`, `zombie W after N`, `bad S R`, `flaky S R N`, `hold W`, `spoil P B` or `damage S P B`",
    "c | LineEndInName | --verdict lists each name in one line, and that of this file, counted from 0, holds a line feed: give the file another name, or a link",
    "d | BadHistory | this line of HISTORY, counted from 1, isn't one that run --history writes there",
    "m | BadVerdict | this VERDICT isn't as check --verdict writes it, from that line on: judge the shard again",
    "v | BadVerdict | VERDICT isn't as check --verdict writes it, from that line on: judge again",
    "mv | LongVerdict | a VERDICT has at most 1 GiB",
    "mv | OldVerdict | this VERDICT is of version 1 and leaves out records, which it names by their splits: judge again",
    "m | NoRequest | the first VERDICT asks for nothing that mapred can be asked for: judge its files again",
    "v | NoRequest | VERDICT asks for nothing that mapred can be asked for: judge its files again",
    "m | OtherRequest | this shard has another job, --keep-case, --literal, --fold, --by-host, --parts or --split than the first: run it again with those of the first, and judge it",
    "m | OtherOutputs | this VERDICT doesn't list one part for each partition: judge the shard again",
    "v | OtherOutputs | VERDICT doesn't list one part for each partition: judge again",
    "m | NoBeginning | this input begins inside its file, and the one before doesn't end there: name all shards, in order; the first input may begin so with --partial",
    "m | RepeatedInput | this input has the name of one before: name each verdict once, and no file in two shards; where two shards have a file of one name, give one another name and judge its shard again",
    "m | NoEnd | this input ends before its file does, and the next one doesn't begin there: name all shards, in order; the last input may end so with --partial",
    "m | OtherInputs | from this line on LIST isn't what the verdicts list: an input is missing there, comes too much, or has another name, place or digest",
    "m | LongList | LIST has at most 1 GiB",
    "m | SameFolder | DIR is the folder of this shard, whose parts are read while the result is written: give another one",
    "m | OtherPart | this part isn't the one that was judged: judge the shard again",
    "v | OtherPart | this part isn't the one that was judged: get it again, or count and judge again",
    "m | BadLine | a line of this part isn't one that the job writes, or keys don't rise: run the shard again, and judge it",
    "m | NoSuchFile | a line of this part names a file that its shard doesn't have: run the shard again, and judge it",
    "m | OtherTotal | the lines of this shard's parts give other pairs than its verdict: judge the shard again",
    "v | OtherTotal | the lines of the parts give other pairs than VERDICT: judge them again",
    "m | TooManyPairs, TotalTooLarge, PlaceTooFar | the pairs of all, and what is said of one key, are numbers of 64 bits",
    "v | OtherInput | this input, from its range's first byte to the last, isn't the one that was judged: get it again, or judge again",
    "s | cannot read <FILE> | it isn't there, is a directory, or may not be read; with --from it may not be a pipe",
    "r | cannot read <FILE> | an input or the script: it isn't there, is a directory, or may not be read; with --from an input may not be a pipe",
    "c | cannot read <FILE> | it isn't there, is a directory, or may not be read; a part: --out and --parts are those of seq",
    "m | cannot read <FILE> | a verdict, a part beside it, or LIST: it isn't there, is a directory, or may not be read",
    "v | cannot read <FILE> | VERDICT, a part or an input: it isn't there, is a directory, or may not be read",
    "d | cannot read <FILE> | HISTORY: it isn't there, is a directory, or may not be read",
    "e | cannot read <FILE> | it isn't there, is a directory, or may not be read; with --from it may not be a pipe; a part of DIR: --out, --parts and --by-host are those of seq",
    "srce | TooManyFiles | at most 1024 files: join some with cat, or cut the input into several runs",
    "m | TooManyFiles | files of all shards are numbered in 32 bits: merge fewer shards",
    "srce | TooLarge | at most 1 GiB (1073741824 bytes) in all files: cut the input into several runs, also inside a file by --from and --to",
    "sm | SameFile <FILE> | it is read, or written under another name, and would be lost: give another DIR, or the report another name",
    "r | SameFile <FILE> | of the result, the history, the picture or the report: it is read, or written under another name, and would be lost: give another name",
    "d | SameFile <FILE> | the page would be written over HISTORY: give it another name",
    "c | SameFile <FILE> | the verdict or the report would be written over a file that is read or written: give it another name",
    "ve | SameFile <FILE> | the report would be written over a file that is read: give it another name",
    "srce | TooManySplits | at most 1048576 splits: a greater --split, up to 67108864, makes fewer",
    "se | TooManySkips | --skips names more records than --max-skips K allows; K is 0 where it isn't given",
    "se | NoSuchRecord | --skips names a record that isn't there: splits, and records in each split, count from 0",
    "se | SkipOrder | --skips rises, by split and then by record, and names none twice",
    "r | ScratchInUse | another run keeps its regions in the directory of --scratch: name another, one for each run",
    "sr | NoPairs | the files are empty, or none is named, or no record gives a pair",
    "srm | NotFresh <DIR> | with --fresh DIR isn't there yet, or is empty: name another, or empty it",
    "srm | cannot write <DIR> | with --fresh DIR is missing or an empty directory, no link and no mount point, doesn't end in .. and isn't . or /, and the directory that holds it is there and may be written",
    "sm | cannot write <FILE> | DIR isn't there (make it first, or give --fresh), may not be written, or the disk is full; the report too, which is written last",
    "r | cannot write <FILE> | DIR isn't there (make it first, or give --fresh), may not be written, or the disk is full; the history too, which is written before the result, and the picture and the report, which are written last",
    "c | cannot write <FILE> | the verdict or the report: its directory isn't there, may not be written, or the disk is full",
    "d | cannot write <FILE> | its directory isn't there, may not be written, or the disk is full",
    "ve | cannot write <FILE> | the report: its directory isn't there, may not be written, or the disk is full",
    "e | cannot write standard output | it is closed, or the disk is full; what was printed is not all",
    "s | out of memory | words take up to 5 times their bytes: close other programs, or cut the input into several runs",
    "r | out of memory | words take 10 to 16 times their bytes, 7 to 9 with --scratch: close other programs, use seq, or cut the input into several runs",
    "c | out of memory | words take up to 5 times their bytes: close other programs, or judge it in the runs that it was made in, one by one",
    "m | out of memory | 256 KiB of each part are held, and at least two of its lines: merge fewer shards",
    "v | out of memory | an input's range, a part's longest line and 256 KiB are held",
    "d | out of memory | HISTORY and the page are held",
    "e | out of memory | words take up to 5 times their bytes: close other programs, or cut the input into several runs",
];
