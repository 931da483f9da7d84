// amx_trace FILE: writes the text of a trace file to standard output. What goes wrong is said on standard error.
#![tactic(auto)]

use std::env::{Env, FillError};

// A name that is too long for a path: its first bytes are named.
fn say_too_long(rt: &HostRuntime, start: &[u8]) {
    let _ = rt.stderr().write_all(start);
    let _ = rt.stderr().write_all(b": File name too long\n");
}

fn say_usage(rt: &HostRuntime) {
    let _ = rt.stderr().write_all(b"usage: amx_trace FILE\n");
}

// Whether there is an argument of this number, however long.
fn is_given(rt: &HostRuntime, i: usize) -> bool {
    let mut first = [0u8; 1];
    !matches!(rt.arg(i, &mut first), Err(FillError::NotPresent))
}

fn main(rt: HostRuntime) {
    if is_given(&rt, 2) {
        say_usage(&rt);
        return;
    }
    let mut path = [0u8; 4096];
    match rt.arg(1, &mut path) {
        Ok(0) | Err(FillError::NotPresent) => say_usage(&rt),
        Ok(n) => {
            let _ = disk::print_file(&rt, &path[..n]);
        }
        Err(FillError::TooLong) => say_too_long(&rt, &path),
    }
}
