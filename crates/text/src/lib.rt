// The lines that a trace prints, each stored in a lent buffer from a position on. A byte past the buffer's end is not stored, and the result is the
// position after the line all the same: past the buffer's length where the line did not fit. Every function that is pub takes every argument.
// What is called store asks for room and does not test it; what is called put tests it.
#![tactic(auto)]

ghost use Rattle.std.specs.Prelude.{◌≡◌, ◌∷◌, [], ◌++◌, ◌+◌, ◌≤◌, ◌<◌, ◌^◌, ◌/◌, ◌%◌, length};
ghost use Rattle.std.proofs.lemmas.List.Edits.{sets};
ghost use Rattle.isa.specs.declared.Answer.TheVariants.{Done};
ghost use Rattle.text.specs.Lines.{digits, hex_digit, hex, space, answer_text, step_line, z_line, steps_line, refused_line};

use isa::Answer;
use number::Lane;

// ---- bytes and words, with the position after them for the result

fn put(out: &mut [u8], at: usize, b: u8) -> usize
    requires { at < 2 ^ 62 }
    ensures { (out.new ≡ sets out.old at (b ∷ [])) × (result ≡ at + 1) }
{
    b.put(out, at);
    at + 1
}

// By a loop, which the compiler makes stores of the word; with copy_from_slice the line of a step is 4 % slower.
fn store_word(out: &mut [u8], at: usize, word: &[u8])
    requires { at + length word.now ≤ length out.old }
    ensures { out.new ≡ sets out.old at word.now }
{
    for (i, b) in word.iter().enumerate() {
        out[at + i] = *b;
    }
}

// Where there is room for the whole word, one test tells so, not one for each byte.
fn put_word(out: &mut [u8], at: usize, word: &[u8]) -> usize
    requires { at < 2 ^ 62 }
    ensures { (out.new ≡ sets out.old at word.now) × (result ≡ at + length word.now) }
{
    if at + word.len() <= out.len() {
        store_word(out, at, word);
        return at + word.len();
    }
    for (i, b) in word.iter().enumerate() {
        (*b).put(out, at + i);
    }
    at + word.len()
}

// ---- numbers: by hand, for write! would need a writer over out and its position, which is no plainer

// Two digits. They are made as one number of two bytes, 12,336 with no digits added, which the compiler stores at once.
fn store_pair(out: &mut [u8], at: usize, n: u32) -> usize
    requires { (n < 100) × (at + 2 ≤ length out.old) }
    ensures { (out.new ≡ sets out.old at ((48 + n / 10) ∷ (48 + n % 10) ∷ [])) × (result ≡ at + 2) }
{
    let both = n / 10 + 256 * (n % 10) + 12_336;
    (both as u16).store(out, at);
    at + 2
}

fn store_below_100(out: &mut [u8], at: usize, n: u32) -> usize
    requires { (n < 100) × (at + 2 ≤ length out.old) }
    ensures stored { (out.new ≡ sets out.old at (digits n)) × (result ≡ at + length (digits n)) }
    ensures short { result ≤ at + 2 }
{
    if n < 10 {
        out[at] = b'0' + n as u8;
        return at + 1;
    }
    store_pair(out, at, n)
}

// The digits of n / 100, where there are any, and then the last two.
fn store_below_10000(out: &mut [u8], at: usize, n: u32) -> usize
    requires { (n < 10000) × (at + 4 ≤ length out.old) }
    ensures stored { (out.new ≡ sets out.old at (digits n)) × (result ≡ at + length (digits n)) }
    ensures short { result ≤ at + 4 }
{
    if n < 100 {
        return store_below_100(out, at, n);
    }
    let next = store_below_100(out, at, n / 100);
    store_pair(out, next, n % 100)
}

// The digits of n / 10, where there are any, and then the last one.
fn put_digits(out: &mut [u8], at: usize, n: u64) -> usize
    requires { at < 2 ^ 61 }
    ensures stored { (out.new ≡ sets out.old at (digits n)) × (result ≡ at + length (digits n)) }
    ensures short { result ≤ at + 20 }
{
    if n < 10 {
        return put(out, at, b'0' + n as u8);
    }
    let next = put_digits(out, at, n / 10);
    put(out, next, b'0' + (n % 10) as u8)
}

// A number below a million, as steps have, by two digits at a time; another as put_digits does.
fn store_decimal(out: &mut [u8], at: usize, n: u64) -> usize
    requires { (at < 2 ^ 61) × (at + 6 ≤ length out.old) }
    ensures stored { (out.new ≡ sets out.old at (digits n)) × (result ≡ at + length (digits n)) }
    ensures short { result ≤ at + 20 }
{
    if n < 10_000 {
        return store_below_10000(out, at, n as u32);
    }
    if 1_000_000 <= n {
        return put_digits(out, at, n);
    }
    let next = store_below_10000(out, at, (n / 100) as u32);
    store_pair(out, next, (n % 100) as u32)
}

fn put_decimal(out: &mut [u8], at: usize, n: u64) -> usize
    requires { at < 2 ^ 61 }
    ensures stored { (out.new ≡ sets out.old at (digits n)) × (result ≡ at + length (digits n)) }
    ensures short { result ≤ at + 20 }
{
    if out.len() < at + 6 {
        return put_digits(out, at, n);
    }
    store_decimal(out, at, n)
}

// A word and a number.
fn put_counted(out: &mut [u8], at: usize, word: &[u8], n: u64) -> usize
    requires { (at < 2 ^ 60) × (length word.now < 2 ^ 60) }
    ensures stored { (out.new ≡ sets out.old at (word.now ++ digits n)) × (result ≡ at + length (word.now ++ digits n)) }
    ensures short { result ≤ at + length word.now + 20 }
{
    let next = put_word(out, at, word);
    put_decimal(out, next, n)
}

fn hex_digit(d: u8) -> u8
    requires { d < 16 }
    ensures { result ≡ hex_digit d }
{
    if d < 10 { b'0' + d } else { b'a' + (d - 10) }
}

// Two digits for a byte, the high one first.
fn put_hex8(out: &mut [u8], at: usize, b: u8)
    requires { at < 2 ^ 62 }
    ensures { out.new ≡ sets out.old at (hex_digit (b / 16) ∷ hex_digit (b % 16) ∷ []) }
{
    hex_digit(b / 16).put(out, at);
    hex_digit(b % 16).put(out, at + 1);
}

fn put_hex(out: &mut [u8], at: usize, bytes: &[u8]) -> usize
    requires { (at < 2 ^ 60) × (length bytes.now ≤ 64) }
    ensures stored { (out.new ≡ sets out.old at (hex bytes.now)) × (result ≡ at + length (hex bytes.now)) }
    ensures short { result ≤ at + 128 }
{
    for (i, b) in bytes.iter().enumerate() {
        put_hex8(out, at + 2 * i, *b);
    }
    at + 2 * bytes.len()
}

// ---- lines

// A space and an answer. Each word stands at its own call, so that the compiler knows its length.
fn put_answer(out: &mut [u8], at: usize, answer: Answer) -> usize
    requires { at < 2 ^ 60 }
    ensures stored { (out.new ≡ sets out.old at (space ++ answer_text answer)) × (result ≡ at + length (space ++ answer_text answer)) }
    ensures short { result ≤ at + 29 }
{
    match answer {
        Answer::Done { bytes } => {
            let next = put_word(out, at, b" done ");
            put_decimal(out, next, bytes)
        }
        Answer::NoOp(r) => {
            let next = put_word(out, at, b" no-op ");
            put_decimal(out, next, r.into())
        }
        Answer::Refused(r) => {
            let next = put_word(out, at, b" refused ");
            put_decimal(out, next, r.into())
        }
    }
}

// The line of a done step: most lines are such.
fn store_done(out: &mut [u8], at: usize, place: u64, bytes: u64) -> usize
    requires { (at < 2 ^ 60) × (at + 64 ≤ length out.old) }
    ensures { (out.new ≡ sets out.old at (step_line place (Done bytes))) × (result ≡ at + length (step_line place (Done bytes))) }
{
    store_word(out, at, b"step ");
    let next = store_decimal(out, at + 5, place);
    store_word(out, next, b" done ");
    let next = store_decimal(out, next + 6, bytes);
    store_word(out, next, b"\n");
    next + 1
}

fn put_step(out: &mut [u8], at: usize, place: u64, answer: Answer) -> usize
    requires { at < 2 ^ 32 }
    ensures { (out.new ≡ sets out.old at (step_line place answer)) × (result ≡ at + length (step_line place answer)) }
{
    let next = put_word(out, at, b"step ");
    let next = put_decimal(out, next, place);
    let next = put_answer(out, next, answer);
    put(out, next, b'\n')
}

// A step's place and its answer.
pub fn step_line(out: &mut [u8], at: u32, place: u64, answer: Answer) -> usize
    ensures { (out.new ≡ sets out.old at (step_line place answer)) × (result ≡ at + length (step_line place answer)) }
{
    let start = at as usize;
    if out.len() < start + 64 {
        return put_step(out, start, place, answer);
    }
    let Answer::Done { bytes } = answer else {
        return put_step(out, start, place, answer);
    };
    store_done(out, start, place, bytes)
}

// A row of Z and its bytes.
pub fn z_line(out: &mut [u8], at: u32, row: u32, bytes: &[u8; 64]) -> usize
    ensures { (out.new ≡ sets out.old at (z_line row bytes.now)) × (result ≡ at + length (z_line row bytes.now)) }
{
    let next = put_counted(out, at as usize, b"z ", row as u64);
    let next = put(out, next, b' ');
    let next = put_hex(out, next, bytes);
    put(out, next, b'\n')
}

// The number of steps.
pub fn steps_line(out: &mut [u8], at: u32, n: u32) -> usize
    ensures { (out.new ≡ sets out.old at (steps_line n)) × (result ≡ at + length (steps_line n)) }
{
    let next = put_counted(out, at as usize, b"steps ", n as u64);
    put(out, next, b'\n')
}

// The refusal of a file.
pub fn refused_line(out: &mut [u8], at: u32, number: u32) -> usize
    ensures { (out.new ≡ sets out.old at (refused_line number)) × (result ≡ at + length (refused_line number)) }
{
    let next = put_counted(out, at as usize, b"file refused ", number as u64);
    put(out, next, b'\n')
}
