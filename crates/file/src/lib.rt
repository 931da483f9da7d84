// Trace files, read from lent bytes. Every function open to callers takes every argument.
#![tactic(auto)]

ghost use Rattle.std.specs.Prelude.{◌≡◌, true, ◌≤◌, ◌<◌, ◌^◌, length};
ghost use Rattle.number.specs.Bytes.{byte_at, number};
ghost use Rattle.file.specs.File.{file_refusal_number, bytes_from, has_checkpoint, contents_length, step_count, steps_base, steps_end};
ghost use Rattle.file.specs.File.{entry_is, sections_right, table_right, head_as, closed_as, padding_clear, sound, sound_in, fault_at};
ghost use Rattle.file.specs.File.{run_of, records_in, call_at, read_as, loaded_start, loaded_saved, checkpoint_in, stored_bytes};

use isa::Call;
use number::Lane;

// Why a file is refused, by number.
#[derive(Clone, Copy, Debug, PartialEq, Eq)]
pub enum FileRefusal {
    Short = 5,
    Contents = 6,
    Padding = 7,
}

impl From<FileRefusal> for u32 {
    ghost from_gives = { λ r n. (n ≡ file_refusal_number r) × (n < 16) };

    fn from(r: FileRefusal) -> u32 {
        r as u32
    }
}

// The next step's place among the steps, and the number of steps. Not a Range, which is
// itself walked through: both are spoken of after the last step too.
#[derive(Clone, Copy)]
pub struct Cursor {
    pub next: usize,
    pub end: usize,
}

// ---- where things lie

pub fn has_checkpoint(file: &[u8]) -> bool
    ensures { result ≡ has_checkpoint file.now }
{
    u32::get(file, 0) == 3
}

fn contents_length(file: &[u8]) -> usize
    ensures { (result ≡ contents_length file.now) × (28 ≤ result) × (result ≤ 40) }
{
    if has_checkpoint(file) { 40 } else { 28 }
}

// By the length of the second section.
fn step_count(file: &[u8]) -> u32
    ensures { (result ≡ step_count file.now) × (result < 268435456) }
{
    u32::get(file, 24) / 16
}

// The starting registers lie before this position, and the steps from it on.
pub fn steps_base(file: &[u8]) -> usize
    ensures { (result ≡ steps_base file.now) × (5148 ≤ result) × (result ≤ 5160) }
{
    contents_length(file) + 5120
}

fn steps_end(file: &[u8]) -> usize
    ensures { (result ≡ steps_end file.now) × (result < 4294972456) }
{
    steps_base(file) + 16 * step_count(file) as usize
}

// ---- opening

// Whether the entry of the table at a position is this one.
#[tactic(auto, unfolding(crate::specs::File::entry_is))]
fn entry_is(file: &[u8], at: usize, kind: u16, offset: u32, size: u32) -> bool
    requires { at < 40 }
    ensures { result ≡ entry_is file.now at kind offset size }
{
    u16::get(file, at) == kind
        && u16::get(file, at + 2) == 0
        && u32::get(file, at + 4) == offset
        && u32::get(file, at + 8) == size
}

// The first two entries of the table.
#[tactic(auto, unfolding(crate::specs::File::sections_right))]
fn sections_right(file: &[u8]) -> bool
    ensures { result ≡ sections_right file.now }
{
    let n = step_count(file);
    let length = contents_length(file) as u32;
    n <= 1_000_000
        && entry_is(file, 4, 1, length, 5120)
        && entry_is(file, 16, 2, length + 5120, 16 * n)
}

// The whole table.
#[tactic(auto, unfolding(crate::specs::File::table_right))]
fn table_right(file: &[u8]) -> bool
    ensures { result ≡ table_right file.now }
{
    if !sections_right(file) {
        return false;
    }
    if has_checkpoint(file) {
        entry_is(file, 28, 3, steps_end(file) as u32, 5132)
    } else {
        u32::get(file, 0) == 2
    }
}

// What the head of a file says, before any step is run: by the table, and whether the starting registers are whole. No byte behind them is read.
#[tactic(auto, unfolding(crate::specs::File::head_as))]
pub fn open(head: &[u8]) -> Result<usize, FileRefusal>
    ensures { result ≡ head_as head.now }
{
    if head.len() < contents_length(head) {
        return Err(FileRefusal::Short);
    }
    if !table_right(head) || head.len() < steps_base(head) {
        return Err(FileRefusal::Contents);
    }
    Ok(step_count(head) as usize)
}

// How many steps the run before was through with, the refused ones too: from the bytes of the checkpoint.
pub fn consumed(last: &[u8]) -> u32
    ensures { result ≡ number 4 (byte_at last.now) 0 }
{
    u32::get(last, 0)
}

// Whether a file with a checkpoint is accepted, when n whole steps were read behind its head: by the bytes behind them, and the padding of all steps.
#[tactic(auto, unfolding(crate::specs::File::closed_as))]
pub fn close(last: &[u8], n: usize, clear: bool) -> Result<usize, FileRefusal>
    ensures { result ≡ closed_as last.now n clear }
{
    if last.len() != 5132 || n < consumed(last) as usize {
        return Err(FileRefusal::Contents);
    }
    if !clear {
        return Err(FileRefusal::Padding);
    }
    Ok(n)
}

// ---- steps as they are read, from the bytes of the second section or of a part of it

// One step's six bytes, as a pair and a quartet.
fn padding_clear(steps: &[u8], i: usize) -> bool
    requires { i < 2 ^ 50 }
    ensures { result ≡ padding_clear steps.now i }
{
    let padding = 16 * i + 2;
    u16::get(steps, padding) == 0 && u32::get(steps, padding + 2) == 0
}

// Whether a step is there as a whole, with its padding clear.
fn is_sound(steps: &[u8], i: usize) -> bool
    requires { i < 2 ^ 50 }
    ensures { result ≡ sound steps.now i }
{
    16 * (i + 1) <= steps.len() && padding_clear(steps, i)
}

// The steps before the first that is cut short or whose padding is not clear, n at most.
pub fn sound_records(steps: &[u8], n: u32) -> usize
    ensures { result ≡ sound_in steps.now n }
{
    // by the index, which is the answer
    for i in 0..n as usize {
        if !is_sound(steps, i) {
            return i;
        }
    }
    n as usize
}

// Why a step is not sound.
pub fn fault_at(steps: &[u8], i: u32) -> FileRefusal
    ensures { result ≡ fault_at steps.now i }
{
    if steps.len() < 16 * (i as usize + 1) {
        return FileRefusal::Contents;
    }
    FileRefusal::Padding
}

// The steps of the next run, where so many are left.
pub fn run_of(left: usize) -> usize
    ensures { (result ≡ run_of left) × (result ≤ 2048) × (result ≤ left) }
{
    left.min(2048)
}

// Whole records, 2,048 at most.
pub fn record_count(steps: &[u8]) -> usize
    ensures { (result ≡ records_in steps.now) × (result ≤ 2048) }
{
    run_of(steps.len() / 16)
}

// The call of step i; bytes past the end are 0.
fn record_in(steps: &[u8], i: usize) -> Call
    requires { i < 2048 }
    ensures { result ≡ call_at steps.now i }
{
    let at = 16 * i;
    Call {
        instruction: u64::from(u8::get(steps, at)),
        generation: u64::from(u8::get(steps, at + 1)),
        operand: u64::get(steps, at + 8),
    }
}

// The same. A whole step is decoded from a part of 16 bytes: knowing this length, the compiler tests no bound and joins the bytes.
fn record_at(steps: &[u8], i: usize) -> Call
    requires { i < 2048 }
    ensures { result ≡ call_at steps.now i }
{
    let at = 16 * i;
    let end = at + 16;
    if steps.len() < end {
        return record_in(steps, i);
    }
    record_in(&steps[at..end], 0)
}

// The step that the cursor is at, and the cursor behind it.
pub fn read_record(steps: &[u8], cursor: Cursor) -> Option<(Call, Cursor)>
    ensures { result ≡ read_as steps.now cursor }
{
    let Cursor { next, end } = cursor;
    if end <= next || 2048 <= next {
        return None;
    }
    let behind = Cursor {
        next: next + 1,
        end,
    };
    Some((record_at(steps, next), behind))
}

// ---- states

// Bytes from a position on, 0 past the end.
fn copy_bytes(source: &[u8], from: usize, out: &mut [u8])
    requires { (from < 2 ^ 40) × (length out.old < 2 ^ 40) }
    ensures { out.new ≡ bytes_from source.now from (length out.old) }
{
    for (i, byte) in out.iter_mut().enumerate() {
        *byte = u8::get(source, from + i);
    }
}

// The starting state: the registers in the head, and a count of 0. A state of another length is left as it is.
pub fn load_start(head: &[u8], state: &mut [u8])
    ensures { state.new ≡ loaded_start head.now state.old }
{
    if state.len() != 5128 {
        return;
    }
    copy_bytes(head, contents_length(head), &mut state[..5120]);
    0u64.put(state, 5120);
}

// The state that a checkpoint saved, the same way.
pub fn load_saved(last: &[u8], state: &mut [u8])
    ensures { state.new ≡ loaded_saved last.now state.old }
{
    if state.len() != 5128 {
        return;
    }
    copy_bytes(last, 4, state);
}

// The checkpoint of a run that was stopped after so many steps, at the front of a buffer, and its length. Where the number needs more than 4 bytes, the
// state is not whole or the buffer too short, nothing is stored, and the result is 0.
pub fn put_checkpoint(out: &mut [u8], consumed: u64, state: &[u8]) -> usize
    ensures { (out.new ≡ checkpoint_in out.old consumed state.now)
        × (result ≡ stored_bytes out.old consumed state.now) }
{
    let Ok(consumed) = u32::try_from(consumed) else {
        return 0;
    };
    if state.len() != 5128 || out.len() < 5132 {
        return 0;
    }
    consumed.put(out, 0);
    copy_bytes(state, 0, &mut out[4..5132]);
    5132
}
