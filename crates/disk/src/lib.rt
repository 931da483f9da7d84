// A trace file by its name: read in pieces, its steps run by run, and its text written to standard output as it goes. No more of the file is held than its
// head, a run and the checkpoint. What the system reads and writes no contract can say; what it is handed it can.
#![tactic(auto)]

ghost use Rattle.std.specs.Prelude.{◌≡◌, true, false, Ok, ◌+◌, ◌-◌, ◌*◌, ◌≤◌, ◌<◌, ◌^◌, length};
ghost use Rattle.number.specs.Bytes.{byte_at, number};
ghost use Rattle.isa.specs.State.{state_length};
ghost use Rattle.file.specs.File.{bytes_from, has_checkpoint, steps_base, most_steps, run_of, head_as};
ghost use Rattle.trace.specs.Runs.{room_length};
ghost use Rattle.trace.specs.Reading.{Says, Told};
ghost use Rattle.disk.specs.Got.{Within, HeadOf, HeadRead, Looked, Checks};
ghost use Rattle.disk.specs.declared.Failure.TheVariants.{Unreadable};
ghost use Rattle.disk.specs.Shown.{Holds, RunSays, Writes, Wrote, Turned, Alone};

use file::FileRefusal;
use std::fmt::Write;
use std::fs::File;
use std::io::{ErrorKind, Read, Seek, SeekFrom};
use std::ops::ControlFlow;
use std::{fmt, io};

// Why a file is not printed: it cannot be read, or standard output cannot be written.
#[derive(Clone, Copy)]
pub enum Failure {
    Unreadable(io::Error),
    Unwritable(io::Error),
}

impl From<io::Error> for Failure {
    ghost from_gives = { λ e f. f ≡ Unreadable e };

    fn from(e: io::Error) -> Failure {
        Failure::Unreadable(e)
    }
}

// ---- reading

// Reads until the buffer is full or the input ends, however few bytes come at a time: how many bytes came.
fn fill(file: &mut File, buffer: &mut [u8]) -> io::Result<usize>
    ensures { Within result (length buffer.new) }
{
    let mut n = 0;
    // a read brings any number of bytes, so that no range has the turns
    while n < buffer.len() {
        let more = file.read(&mut buffer[n..])?;
        if more == 0 {
            return Ok(n);
        }
        n += more;
    }
    Ok(n)
}

// The head of a file: with a checkpoint it is 12 bytes longer.
fn read_head(file: &mut File, head: &mut [u8]) -> io::Result<usize>
    requires { length head.old ≡ 5160 }
    ensures { HeadRead result head.new }
{
    let n = fill(file, &mut head[..5148])?;
    if n < 5148 {
        return Ok(n);
    }
    if !file::has_checkpoint(&head[..5148]) {
        return Ok(5148);
    }
    let more = fill(file, &mut head[5148..])?;
    Ok(5148 + more)
}

// ---- what goes wrong

// What std puts between the words of an error of the system and its number.
const BEFORE_NUMBER: &str = " (os error ";

// An error's words, as they are printed. No heap holds them, so that their length is beside them.
#[derive(Drop)]
struct Words {
    bytes: [u8; 320],
    length: usize,
}

impl Write for Words {
    fn write_str(&mut self, s: &str) -> fmt::Result {
        for b in s.as_bytes() {
            if self.length >= self.bytes.len() {
                return Err(fmt::Error);
            }
            self.bytes[self.length] = *b;
            self.length += 1;
        }
        Ok(())
    }
}

// Writes an error to standard error in the system's words, without its number.
fn say_reason(rt: &HostRuntime, words: &[u8]) {
    let reason = match std::str::from_utf8(words) {
        Ok(text) => match text.split_once(BEFORE_NUMBER) {
            Some((reason, _)) => reason.as_bytes(),
            None => words,
        },
        Err(_) => words,
    };
    let _ = rt.stderr().write_all(reason);
}

// Writes a line to standard error: what failed, a colon and why.
fn say_failed(rt: &HostRuntime, what: &[u8], error: &io::Error) {
    let mut words = Words {
        bytes: [0; 320],
        length: 0,
    };
    let _ = write!(words, "{error}");
    let _ = rt.stderr().write_all(what);
    let _ = rt.stderr().write_all(b": ");
    let length = words.length.min(words.bytes.len());
    say_reason(rt, &words.bytes[..length]);
    let _ = rt.stderr().write_all(b"\n");
}

// ---- writing

// The one place that writes to standard output: text of what was read, from a position of it on.
fn write_text(rt: &HostRuntime, head: &[u8], at: u64, text: &[u8]) -> Result<(), Failure>
    requires { Says head.now at text.now }
    ensures { Writes result }
{
    match rt.write_all(text) {
        Ok(()) => Ok(()),
        Err(error) => Err(Failure::Unwritable(error)),
    }
}

// A file that is refused before any line.
fn print_refused(
    rt: &HostRuntime,
    head: &[u8],
    out: &mut [u8],
    refusal: FileRefusal,
) -> Result<u64, Failure>
    requires { Alone head.now refusal × (room_length ≤ length out.old) }
    ensures { Holds result }
{
    let size = trace::print_refused(out, refusal);
    write_text(rt, head, 0, &out[..size])?;
    Ok(size as u64)
}

// What ends a text, when all n steps are run.
fn print_end(
    rt: &HostRuntime,
    head: &[u8],
    state: &[u8],
    out: &mut [u8],
    n: u32,
    at: u64,
    behind: &[u8],
) -> Result<u64, Failure>
    requires { Told head.now n n state.now at × (steps_base head.now ≤ length head.now) × (at < 2 ^ 63) × (room_length ≤ length out.old) }
    ensures { Holds result }
{
    let base = file::steps_base(head);
    let start = base - 5120;
    let size = trace::print_end(&head[start..base], state, out, n, behind);
    write_text(rt, head, at, &out[..size])?;
    Ok(at + size as u64)
}

// ---- steps

// A run's text written: how much is written by then, where the next run follows; or the length of the whole text, where that is over.
fn write_run(
    rt: &HostRuntime,
    head: &[u8],
    out: &[u8],
    ran: ControlFlow<usize, usize>,
    at: u64,
) -> Result<ControlFlow<u64, u64>, Failure>
    requires { RunSays ran head.now at out.now × (at < 2 ^ 63) }
    ensures { Wrote ran at result }
{
    match ran {
        ControlFlow::Continue(size) => {
            write_text(rt, head, at, &out[..size])?;
            Ok(ControlFlow::Continue(at + size as u64))
        }
        ControlFlow::Break(size) => {
            write_text(rt, head, at, &out[..size])?;
            Ok(ControlFlow::Break(at + size as u64))
        }
    }
}

// One run: its bytes read, its steps run, its text written.
fn print_run(
    rt: &HostRuntime,
    file: &mut File,
    head: &[u8],
    part: &mut [u8],
    state: &mut [u8],
    out: &mut [u8],
    i: u32,
    n: u32,
    at: u64,
) -> Result<ControlFlow<u64, u64>, Failure>
    requires { Told head.now n i state.old at × (i < n) × (length part.old ≡ 16 * run_of (n - i)) × (at < 2 ^ 63) × (room_length ≤ length out.old) }
    ensures { Turned result head.now n (i + run_of (n - i)) state.new at }
{
    let size = fill(file, part)?;
    let ran = trace::print_run(&part[..size], state, out, i, (n - i) as usize);
    write_run(rt, head, out, ran, at)
}

// All steps from a number on, in runs of at most 2,048.
fn print_runs(
    rt: &HostRuntime,
    file: &mut File,
    head: &[u8],
    state: &mut [u8],
    out: &mut [u8],
    from: u32,
    n: u32,
) -> Result<ControlFlow<u64, u64>, Failure>
    requires { Told head.now n from state.old 0 × (from ≤ n) × (n ≤ most_steps) × (room_length ≤ length out.old) }
    ensures { Turned result head.now n n state.new (2 ^ 40) }
{
    let mut part = [0u8; 32_768];
    let mut i = from;
    let mut at = 0;
    // the last run is shorter, and the state after each is the next one's, so that no range has the turns
    while i < n {
        let m = file::run_of((n - i) as usize);
        let end = 16 * m;
        match print_run(rt, file, head, &mut part[..end], state, out, i, n, at)? {
            ControlFlow::Continue(next) => at = next,
            ControlFlow::Break(size) => return Ok(ControlFlow::Break(size)),
        }
        i += m as u32;
    }
    Ok(ControlFlow::Continue(at))
}

// ---- a file without a checkpoint: its steps as they are read

fn print_steps(
    rt: &HostRuntime,
    file: &mut File,
    head: &[u8],
    out: &mut [u8],
    n: u32,
) -> Result<u64, Failure>
    requires { (head_as head.now ≡ Ok n) × (has_checkpoint head.now ≡ false) × HeadOf head.now × (room_length ≤ length out.old) }
    ensures { Holds result }
{
    let mut state = [0u8; 5128];
    file::load_start(head, &mut state);
    match print_runs(rt, file, head, &mut state, out, 0, n)? {
        ControlFlow::Continue(at) => {
            let mut more = [0u8; 1];
            let k = fill(file, &mut more)?;
            print_end(rt, head, &state, out, n, at, &more[..k])
        }
        ControlFlow::Break(size) => Ok(size),
    }
}

// ---- a file with a checkpoint: looked at as a whole, then read again

// A run of steps looked at: whether their padding is clear, or none where they are cut short.
fn check_run(file: &mut File, part: &mut [u8], m: u32) -> io::Result<Option<bool>>
    requires { length part.old ≡ 16 * m }
    ensures { Checks result m }
{
    let size = fill(file, part)?;
    if size < part.len() {
        return Ok(None);
    }
    Ok(Some(file::sound_records(part, m) == m as usize))
}

// All n steps looked at, in runs too.
fn check_runs(file: &mut File, n: u32) -> io::Result<Option<bool>>
    ensures { Checks result n }
{
    let mut part = [0u8; 32_768];
    let mut i = 0;
    let mut clear = true;
    // as print_runs has them
    while i < n {
        let m = file::run_of((n - i) as usize);
        let end = 16 * m;
        let Some(sound) = check_run(file, &mut part[..end], m as u32)? else {
            return Ok(None);
        };
        clear = clear && sound;
        i += m as u32;
    }
    Ok(Some(clear))
}

// The steps that are not consumed, read again and run from the checkpoint's state. They are looked at again as they are read.
fn print_again(
    rt: &HostRuntime,
    file: &mut File,
    head: &[u8],
    last: &[u8],
    out: &mut [u8],
    n: u32,
) -> Result<u64, Failure>
    requires { Told head.now n (number 4 (byte_at last.now) 0) (bytes_from last.now 4 state_length) 0
        × (number 4 (byte_at last.now) 0 ≤ n) × (n ≤ most_steps) × (steps_base head.now ≤ length head.now) × (room_length ≤ length out.old) }
    ensures { Holds result }
{
    let consumed = file::consumed(last);
    let start = 5160 + 16 * consumed as usize;
    file.seek(SeekFrom::Start(start as u64))?;
    let mut state = [0u8; 5128];
    file::load_saved(last, &mut state);
    match print_runs(rt, file, head, &mut state, out, consumed, n)? {
        ControlFlow::Continue(at) => print_end(rt, head, &state, out, n, at, &last[..0]),
        ControlFlow::Break(size) => Ok(size),
    }
}

// What is behind n whole steps decides: the checkpoint, and no more.
fn print_closed(
    rt: &HostRuntime,
    file: &mut File,
    head: &[u8],
    out: &mut [u8],
    n: u32,
    clear: bool,
) -> Result<u64, Failure>
    requires { (head_as head.now ≡ Ok n) × (has_checkpoint head.now ≡ true) × HeadOf head.now × Looked n clear × (room_length ≤ length out.old) }
    ensures { Holds result }
{
    let mut last = [0u8; 5133];
    let k = fill(file, &mut last)?;
    match file::close(&last[..k], n as usize, clear) {
        Ok(_) => print_again(rt, file, head, &last[..k], out, n),
        Err(refusal) => print_refused(rt, head, out, refusal),
    }
}

fn print_checked(
    rt: &HostRuntime,
    file: &mut File,
    head: &[u8],
    out: &mut [u8],
    n: u32,
) -> Result<u64, Failure>
    requires { (head_as head.now ≡ Ok n) × (has_checkpoint head.now ≡ true) × HeadOf head.now × (room_length ≤ length out.old) }
    ensures { Holds result }
{
    match check_runs(file, n)? {
        Some(clear) => print_closed(rt, file, head, out, n, clear),
        None => print_refused(rt, head, out, FileRefusal::Contents),
    }
}

// ---- files

// A file by its head.
fn print_open(rt: &HostRuntime, file: &mut File, head: &[u8]) -> Result<u64, Failure>
    requires { HeadOf head.now }
    ensures { Holds result }
{
    let mut out = [0u8; 131_072];
    match file::open(head) {
        Ok(n) => {
            if file::has_checkpoint(head) {
                return print_checked(rt, file, head, &mut out, n as u32);
            }
            print_steps(rt, file, head, &mut out, n as u32)
        }
        Err(refusal) => print_refused(rt, head, &mut out, refusal),
    }
}

fn print_fd(rt: &HostRuntime, file: &mut File) -> Result<u64, Failure>
    ensures { Holds result }
{
    let mut head = [0u8; 5160];
    let n = read_head(file, &mut head)?;
    print_open(rt, file, &head[..n])
}

// Opens the file that the path names. A path is text here.
fn open_file(rt: &HostRuntime, path: &[u8]) -> io::Result<File> {
    let Ok(name) = std::str::from_utf8(path) else {
        return Err(io::Error::from(ErrorKind::InvalidFilename));
    };
    File::open(rt, name)
}

fn print_named(rt: &HostRuntime, path: &[u8]) -> Result<u64, Failure>
    ensures { Holds result }
{
    let mut file = open_file(rt, path)?;
    print_fd(rt, &mut file)
}

// Writes the text of the file that the path names to standard output, and answers its length, all of it written. What goes wrong is said on standard
// error.
pub fn print_file(rt: &HostRuntime, path: &[u8]) -> Result<u64, Failure>
    ensures { Holds result }
{
    let printed = print_named(rt, path);
    match &printed {
        Ok(_) => {}
        Err(Failure::Unreadable(error)) => say_failed(rt, path, error),
        Err(Failure::Unwritable(error)) => say_failed(rt, b"standard output", error),
    }
    printed
}
