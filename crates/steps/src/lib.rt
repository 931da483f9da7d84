// Records run one after another on a lent state, with a line for each in a lent buffer. The lines are numbered from a first number on, so
// that a longer run is such runs joined up.
#![tactic(auto)]

ghost use Rattle.std.specs.Prelude.{◌≡◌, ◌+◌, ◌*◌, ◌≤◌, ◌<◌, Some, length};
ghost use Rattle.std.proofs.lemmas.List.Edits.{sets};
ghost use Rattle.isa.specs.Step as Step;
ghost use Rattle.file.specs.File.{calls, records_in};
ghost use Rattle.steps.specs.Steps.{state_by, line_by, step_lines};

// A step run with the serial due, and its line.
fn run_step(
    state: &mut [u8],
    out: &mut [u8],
    at: usize,
    first: u32,
    i: usize,
    step: isa::Call,
) -> usize
    requires { (i < 2048) × (at ≤ 55 * i) }
    ensures state_after { (state.new ≡ state_by state.old (Some step))
        × (out.new ≡ sets out.old at (line_by (first + i) state.old (Some step)))
        × (result ≡ at + length (line_by (first + i) state.old (Some step))) }
    ensures short { result ≤ at + 55 }
{
    let serial = amx::due(state);
    let answer = amx::step(
        state,
        step.instruction,
        step.generation,
        step.operand,
        serial,
    );
    text::step_line(out, at as u32, first as u64 + i as u64, answer)
}

// n records through one reader.
fn run_records(steps: &[u8], state: &mut [u8], out: &mut [u8], first: u32, n: usize) -> usize
    requires { n ≤ 2048 }
    ensures { (state.new ≡ Step.run (calls steps.now n) state.old)
        × (out.new ≡ sets out.old 0 (step_lines (calls steps.now n) first state.old))
        × (result ≡ length (step_lines (calls steps.now n) first state.old))
        × (result ≤ 55 * n) }
{
    let mut reader = reader::Reader::new(steps, file::Cursor { next: 0, end: n });
    let mut at = 0;
    for i in 0..n {
        let Some(step) = reader.next() else {
            return at;
        };
        at = run_step(state, out, at, first, i, step);
    }
    at
}

// The whole records of the bytes, 2,048 at most, from the first number on.
pub fn run(steps: &[u8], state: &mut [u8], out: &mut [u8], first: u32) -> usize
    ensures state_after { (state.new ≡ Step.run (calls steps.now (records_in steps.now)) state.old)
        × (out.new
        ≡ sets out.old 0 (step_lines (calls steps.now (records_in steps.now)) first state.old))
        × (result ≡ length (step_lines (calls steps.now (records_in steps.now)) first state.old)) }
    ensures short { result ≤ 112640 }
{
    run_records(steps, state, out, first, file::record_count(steps))
}
