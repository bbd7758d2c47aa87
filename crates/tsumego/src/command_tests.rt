//! Rows of words, input and answer, through `command` and `run` over a reader and a writer in memory, also over those that fail or
//! take few bytes a call.

ghost use Rattle.std.specs.Io.{WritesAtMost};

use crate::answer::run;
use crate::arguments::command;
use crate::command_cases::{COMMAND_CASES, PREFIX_CASES, SOLVE_CASES};
use devices::{RunFault, Watched};
use std::alloc::{AllocError, Global};
use std::io;
use std::io::{Eprint, Read, Write};
use std::str::from_utf8;
use std::sync::Wait;
use std::thread::Threads;

/// What stands before the first such byte, and what behind it; where it doesn't stand there, the whole text and nothing.
fn split_at_byte(text: &[u8], end: u8) -> (&[u8], &[u8]) {
    for i in 0..text.len() {
        if text[i] == end {
            return (&text[..i], &text[i + 1..]);
        }
    }
    (text, &text[text.len()..])
}

/// The number that the digits write.
fn parse_number(digits: &[u8]) -> usize {
    let mut number = 0_usize;
    for digit in digits {
        number = number
            .wrapping_mul(10)
            .wrapping_add(usize::from(digit.wrapping_sub(b'0')));
    }
    number
}

/// Puts a part so many times.
fn put_times(out: &mut Vec<u8>, times: usize, part: &[u8]) -> Result<(), AllocError> {
    for _ in 0..times {
        out.extend_from_slice(part)?;
    }
    Ok(())
}

/// Puts a text in which `<3*ab>` stands for `ababab`.
fn put_expanded_text(out: &mut Vec<u8>, text: &[u8]) -> Result<(), AllocError> {
    let mut rest = text;
    for _ in 0..text.len() {
        let (plain, behind) = split_at_byte(rest, b'<');
        let (times, more) = split_at_byte(behind, b'*');
        let (part, end) = split_at_byte(more, b'>');
        out.extend_from_slice(plain)?;
        put_times(out, parse_number(times), part)?;
        rest = end;
    }
    Ok(())
}

/// Puts the words of a line, between which blanks stand.
fn put_words(alloc: Global, out: &mut Vec<String>, line: &[u8]) -> Result<(), AllocError> {
    let mut rest = line;
    for _ in 0..line.len() {
        let (word, behind) = split_at_byte(rest, b' ');
        if !word.is_empty() {
            out.push(String::from_str(alloc, from_utf8(word).unwrap_or("?"))?)?;
        }
        rest = behind;
    }
    Ok(())
}

/// Runs what the words ask for; none where they are refused.
fn run_words<X: Threads + Wait + Eprint + Sync, R: Read, W: Write>(
    rt: &X,
    alloc: Global,
    words: &[String],
    reader: R,
    writer: W,
) -> Option<Result<u8, RunFault>>
where
    R: Drop,
    W: Drop,
{
    let Ok(command) = command(alloc, words) else {
        return None;
    };
    let mut reader = Watched::new(reader);
    let mut writer = Watched::new(writer);
    Some(run(rt, alloc, &command, &mut reader, &mut writer))
}

/// Puts what the words answer to an input, and gives the status: 2 where the words are refused, 3 where the run failed.
fn put_answer<X: Threads + Wait + Eprint + Sync>(
    rt: &X,
    alloc: Global,
    words: &[String],
    input: &[u8],
    out: &mut Vec<u8>,
) -> u8 {
    match run_words(rt, alloc, words, input, out) {
        None => 2,
        Some(Ok(status)) => status,
        Some(Err(_)) => 3,
    }
}

/// Whether the words answer an input with this status and this text.
fn answers<X: Threads + Wait + Eprint + Sync>(
    rt: &X,
    alloc: Global,
    words: &[String],
    input: &[u8],
    (status, want): (&[u8], &[u8]),
) -> bool {
    let mut out = Vec::new(alloc);
    let got = put_answer(rt, alloc, words, input, &mut out);
    usize::from(got) == parse_number(status) && out.as_slice() == want
}

/// Puts the program's name, the words of two lines, and an input of a text and its end. False where there is no memory.
fn put_command_and_input(
    alloc: Global,
    words: &mut Vec<String>,
    input: &mut Vec<u8>,
    (line, more): (&[u8], &[u8]),
    (text, end): (&[u8], &[u8]),
) -> bool {
    put_words(alloc, words, b"tsumego").is_ok()
        && put_words(alloc, words, line).is_ok()
        && put_words(alloc, words, more).is_ok()
        && put_expanded_text(input, text).is_ok()
        && input.extend_from_slice(end).is_ok()
}

/// Whether the words of two lines answer a text and its end so.
fn command_answers<X: Threads + Wait + Eprint + Sync>(
    rt: &X,
    alloc: Global,
    line: (&[u8], &[u8]),
    text: (&[u8], &[u8]),
    want: (&[u8], &[u8]),
) -> bool {
    let mut words = Vec::new(alloc);
    let mut input = Vec::new(alloc);
    let put = put_command_and_input(alloc, &mut words, &mut input, line, text);
    put && answers(rt, alloc, words.as_slice(), input.as_slice(), want)
}

/// Whether a row holds with more words: its words, the status, the input, and the answer.
fn case_holds<X: Threads + Wait + Eprint + Sync>(
    rt: &X,
    alloc: Global,
    row: &[u8],
    more: &[u8],
) -> bool {
    let (line, rest) = split_at_byte(row, b'|');
    let (status, rest) = split_at_byte(rest, b'|');
    let (input, want) = split_at_byte(rest, b'|');
    command_answers(rt, alloc, (line, more), (input, b""), (status, want))
}

/// How many rows hold with more words before the first that doesn't: all, where each does. A tilde ends each.
fn cases_holding<X: Threads + Wait + Eprint + Sync>(
    rt: &X,
    alloc: Global,
    table: &str,
    more: &[u8],
) -> usize {
    let mut rest = table.as_bytes();
    for row in 0..table.len() {
        let (line, behind) = split_at_byte(rest, b'~');
        if rest.is_empty() || !case_holds(rt, alloc, line, more) {
            return row;
        }
        rest = behind;
    }
    0
}

/// Whether each proper beginning of a text is answered so: a row has words, status, what stands in front, the text, and the
/// answer.
fn prefixes_hold<X: Threads + Wait + Eprint + Sync>(rt: &X, alloc: Global, row: &[u8]) -> bool {
    let (line, rest) = split_at_byte(row, b'|');
    let (status, rest) = split_at_byte(rest, b'|');
    let (front, rest) = split_at_byte(rest, b'|');
    let (text, want) = split_at_byte(rest, b'|');
    for end in 0..text.len() {
        if !command_answers(
            rt,
            alloc,
            (line, b""),
            (front, &text[..end]),
            (status, want),
        ) {
            return false;
        }
    }
    !text.is_empty()
}

/// For how many rows each beginning is answered so before the first for which one isn't.
fn prefix_cases_holding<X: Threads + Wait + Eprint + Sync>(rt: &X, alloc: Global) -> usize {
    let mut rest = PREFIX_CASES.as_bytes();
    for row in 0..PREFIX_CASES.len() {
        let (line, behind) = split_at_byte(rest, b'~');
        if rest.is_empty() || !prefixes_hold(rt, alloc, line) {
            return row;
        }
        rest = behind;
    }
    0
}

#[test]
fn command_cases_hold(rt: HostRuntime) {
    assert_eq!(&rt; cases_holding(&rt, rt.alloc(), COMMAND_CASES, b""), 74);
}

#[test]
fn solve_cases_hold(rt: HostRuntime) {
    let alloc = rt.alloc();
    assert_eq!(&rt; cases_holding(&rt, alloc, SOLVE_CASES, b""), 23);
    assert_eq!(&rt; cases_holding(&rt, alloc, SOLVE_CASES, b"--workers 1"), 23);
    assert_eq!(&rt; cases_holding(&rt, alloc, SOLVE_CASES, b"--workers 2"), 23);
    assert_eq!(&rt; cases_holding(&rt, alloc, SOLVE_CASES, b"--workers 64"), 23);
}

#[test]
fn prefix_cases_hold(rt: HostRuntime) {
    assert_eq!(&rt; prefix_cases_holding(&rt, rt.alloc()), 3);
}

// ---- readers and writers that fail or go slowly

/// Gives at most so many bytes a call, and fails where no call is left.
#[derive(Drop)]
struct SlowReader<'a> {
    rest: &'a [u8],
    step: usize,
    calls: usize,
}

impl Read for SlowReader<'_> {
    fn read(&mut self, buf: &mut [u8]) -> io::Result<usize> {
        if self.calls == 0 {
            return Err(io::Error::from(io::ErrorKind::ConnectionReset));
        }
        self.calls -= 1;
        let count = self.rest.len().min(buf.len()).min(self.step);
        buf[..count].copy_from_slice(&self.rest[..count]);
        self.rest = &self.rest[count..];
        Ok(count)
    }
}

/// Takes at most so many bytes a call, and fails where there is no room.
#[derive(Drop)]
struct SlowWriter {
    taken: Vec<u8>,
    step: usize,
    room: usize,
}

impl SlowWriter {
    /// Takes a beginning of the bytes, none where there is no room.
    fn take(&mut self, bytes: &[u8]) -> io::Result<usize>
        ensures { WritesAtMost result bytes.now }
    {
        let count = bytes.len().min(self.step).min(self.room);
        self.taken.extend_from_slice(&bytes[..count])?;
        self.room -= count;
        Ok(count)
    }
}

impl Write for SlowWriter {
    fn write(&mut self, buf: &[u8]) -> io::Result<usize> {
        if self.room == 0 {
            return Err(io::Error::from(io::ErrorKind::ConnectionReset));
        }
        self.take(buf)
    }

    fn flush(&mut self) -> io::Result<()> {
        Ok(())
    }
}

/// Takes bytes as the one in it does, and where that fails it takes none.
#[derive(Drop)]
struct FullWriter(SlowWriter);

impl Write for FullWriter {
    fn write(&mut self, buf: &[u8]) -> io::Result<usize> {
        self.0.take(buf)
    }

    fn flush(&mut self) -> io::Result<()> {
        Ok(())
    }
}

/// A run over a reader and a writer: its words, its input, its status and its answer.
#[derive(Drop)]
struct Run<'a> {
    words: &'a [String],
    input: &'a [u8],
    status: u8,
    want: &'a [u8],
}

const EACH: [usize; 3] = [1, 7, 64];

impl Run<'_> {
    /// Whether it ends with the status and the answer where reads give so many bytes, and writes take so many.
    fn goes_slowly<X: Threads + Wait + Eprint + Sync>(
        &self,
        rt: &X,
        alloc: Global,
        read: usize,
        written: usize,
    ) -> bool {
        let reader = SlowReader {
            rest: self.input,
            step: read,
            calls: usize::MAX,
        };
        let mut writer = SlowWriter {
            taken: Vec::new(alloc),
            step: written,
            room: usize::MAX,
        };
        let ended = run_words(rt, alloc, self.words, reader, &mut writer);
        ended == Some(Ok(self.status)) && writer.taken.as_slice() == self.want
    }

    /// Whether it ends with `input` and writes nothing where the read behind so many fails. Reads give so many bytes.
    fn ends_unread<X: Threads + Wait + Eprint + Sync>(
        &self,
        rt: &X,
        alloc: Global,
        step: usize,
        calls: usize,
    ) -> bool {
        let reader = SlowReader {
            rest: self.input,
            step,
            calls,
        };
        let mut taken = Vec::new(alloc);
        let ended = run_words(rt, alloc, self.words, reader, &mut taken);
        ended == Some(Err(RunFault::Input)) && taken.is_empty()
    }

    /// Whether it ends with `output` where the writer fails, or takes none, behind so many bytes, which are a beginning of the answer.
    fn ends_unwritten<X: Threads + Wait + Eprint + Sync>(
        &self,
        rt: &X,
        alloc: Global,
        step: usize,
        room: usize,
    ) -> bool {
        let mut failing = SlowWriter {
            taken: Vec::new(alloc),
            step,
            room,
        };
        let mut full = FullWriter(SlowWriter {
            taken: Vec::new(alloc),
            step,
            room,
        });
        let failed = run_words(rt, alloc, self.words, self.input, &mut failing);
        let stopped = run_words(rt, alloc, self.words, self.input, &mut full);
        failed == Some(Err(RunFault::Output))
            && stopped == Some(Err(RunFault::Output))
            && is_beginning(failing.taken.as_slice(), self.want, room)
            && is_beginning(full.0.taken.as_slice(), self.want, room)
    }

    /// Whether it ends so for each way to cut its input and its answer.
    fn holds<X: Threads + Wait + Eprint + Sync>(&self, rt: &X, alloc: Global) -> bool {
        for step in EACH {
            if !self.goes_slowly(rt, alloc, step, 64) || !self.goes_slowly(rt, alloc, 4096, step) {
                return false;
            }
            // One read more than the input has pieces: the last one says that nothing is left.
            for calls in 0..=self.input.len().div_ceil(step) {
                if !self.ends_unread(rt, alloc, step, calls) {
                    return false;
                }
            }
            for room in 0..self.want.len() {
                if !self.ends_unwritten(rt, alloc, step, room) {
                    return false;
                }
            }
        }
        true
    }
}

/// Whether bytes are the first ones of a text, so many.
fn is_beginning(bytes: &[u8], text: &[u8], count: usize) -> bool {
    count <= text.len() && bytes == &text[..count]
}

/// Whether a row holds over such readers and writers: its words, the status, the input, and the answer.
fn row_is_cut<X: Threads + Wait + Eprint + Sync>(rt: &X, alloc: Global, row: &[u8]) -> bool {
    let (line, rest) = split_at_byte(row, b'|');
    let (status, rest) = split_at_byte(rest, b'|');
    let (input, want) = split_at_byte(rest, b'|');
    let mut words = Vec::new(alloc);
    let put = put_words(alloc, &mut words, b"tsumego").is_ok()
        && put_words(alloc, &mut words, line).is_ok();
    let run = Run {
        words: words.as_slice(),
        input,
        status: if status == b"0".as_slice() { 0 } else { 1 },
        want,
    };
    put && run.holds(rt, alloc)
}

#[test]
fn devices_fail_or_go_slowly(rt: HostRuntime) {
    let alloc = rt.alloc();
    assert!(&rt;
        row_is_cut(
            &rt,
            alloc,
            b"score|1|(;SZ[1])(;SZ[1];B[aa])(;SZ[0])|1 black 0 white 0 unfinished\n2 refused 17\n3 refused 11\n"
        )
    );
    assert!(&rt;
        row_is_cut(
            &rt,
            alloc,
            b"solve --cert|0|(;SZ[4:1]AW[ba][da]PL[B]TR[ba])|1 killed ca\nkilled !ca?aa.--!aa.;\n"
        )
    );
    assert!(&rt;
        row_is_cut(
            &rt,
            alloc,
            b"check|0|(;SZ[4:1]AW[ba];B[ca];W[da]TR[ba])lives ?--!--.;|valid\n"
        )
    );
}

/// What is said of refused words; none where they aren't refused.
fn refusal_of(alloc: Global, words: &[String]) -> Option<String> {
    match command(alloc, words) {
        Ok(_) => None,
        Err(fault) => Some(fault.0),
    }
}

/// Whether no word at all is refused as the program's name alone, with a text.
fn no_words_are_the_name(alloc: Global) -> bool {
    let mut name = Vec::new(alloc);
    let put = put_words(alloc, &mut name, b"tsumego").is_ok();
    match (refusal_of(alloc, &[]), refusal_of(alloc, name.as_slice())) {
        (Some(of_none), Some(of_name)) => {
            put && !of_none.as_str().is_empty() && of_none.as_str() == of_name.as_str()
        }
        _ => false,
    }
}

#[test]
fn no_words_are_refused_as_the_name_alone(rt: HostRuntime) {
    assert!(&rt; no_words_are_the_name(rt.alloc()));
}
