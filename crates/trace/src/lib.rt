// The steps of a trace file, run by run on a lent state, and the text of each run in a lent buffer. Every function open to callers takes every argument.
#![tactic(auto)]

ghost use Rattle.std.specs.Prelude.{◌≡◌, ◌+◌, ◌≤◌, ◌<◌, length};
ghost use Rattle.std.proofs.lemmas.List.Edits.{sets};
ghost use Rattle.number.specs.Bytes.{byte_at, table};
ghost use Rattle.file.specs.File.{file_refusal_number, run_of};
ghost use Rattle.text.specs.Lines.{refused_line};
ghost use Rattle.trace.specs.Trace.{row_line, z_lines, end_text};
ghost use Rattle.trace.specs.Runs.{run_text, ran_to, ran_as};

use number::Lane;
use std::ops::ControlFlow;

// ---- rows of Z

// 64 bytes that lie side by side.
fn row_at(s: &[u8], at: usize) -> [u8; 64]
    requires { at < 65536 }
    ensures { result ≡ table (λ k. byte_at s.now (at + k)) 0 64 }
{
    std::array::from_fn(|k| u8::get(s, at + k))
}

// A row's line, where the row differs from the starting registers.
fn print_row(start: &[u8], state: &[u8], out: &mut [u8], at: usize, row: usize) -> usize
    requires { (row < 64) × (at < 131072) }
    ensures out_after { (out.new ≡ sets out.old at (row_line start.now state.now row))
        × (result ≡ at + length (row_line start.now state.now row)) }
    ensures short { result ≤ at + 152 }
{
    let place = 1024 + row * 64;
    let before = row_at(start, place);
    let after = row_at(state, place);
    if before == after {
        return at;
    }
    text::z_line(out, at as u32, row as u32, &after)
}

fn print_rows(start: &[u8], state: &[u8], out: &mut [u8]) -> usize
    ensures out_after { (out.new ≡ sets out.old 0 (z_lines start.now state.now))
        × (result ≡ length (z_lines start.now state.now)) }
    ensures short { result ≤ 9728 }
{
    let mut at = 0;
    for row in 0..64 {
        at = print_row(start, state, out, at, row);
    }
    at
}

// ---- files

// A run of the steps in these bytes, 2,048 at most, where so many are left: the sound ones run, with their lines, and the refusal where one is not. The
// answer is the length of its text, and whether the next run follows.
pub fn print_run(
    part: &[u8],
    state: &mut [u8],
    out: &mut [u8],
    first: u32,
    left: usize,
) -> ControlFlow<usize, usize>
    ensures { (state.new ≡ ran_to (run_of left) state.old part.now)
        × (out.new ≡ sets out.old 0 (run_text (run_of left) first state.old part.now))
        × (result ≡ ran_as (run_of left) first state.old part.now) }
{
    let m = file::run_of(left);
    let k = file::sound_records(part, m as u32);
    let at = steps::run(&part[..16 * k], state, out, first);
    if k == m {
        return ControlFlow::Continue(at);
    }
    let number = u32::from(file::fault_at(part, k as u32));
    ControlFlow::Break(text::refused_line(out, at as u32, number))
}

// The refusal of a file.
pub fn print_refused(out: &mut [u8], refusal: file::FileRefusal) -> usize
    ensures { (out.new ≡ sets out.old 0 (refused_line (file_refusal_number refusal)))
        × (result ≡ length (refused_line (file_refusal_number refusal))) }
{
    text::refused_line(out, 0, u32::from(refusal))
}

// What ends the text of a file with n steps: the rows that differ from the starting registers, and n; or the refusal, where there are bytes behind them.
pub fn print_end(registers: &[u8], state: &[u8], out: &mut [u8], n: u32, behind: &[u8]) -> usize
    ensures { (out.new ≡ sets out.old 0 (end_text registers.now n state.now behind.now))
        × (result ≡ length (end_text registers.now n state.now behind.now)) }
{
    if 0 < behind.len() {
        return print_refused(out, file::FileRefusal::Contents);
    }
    let at = print_rows(registers, state, out);
    text::steps_line(out, at as u32, n)
}
