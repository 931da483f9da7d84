// traces FILE..: the name and then the text of each file, so that one run covers all stored traces.
#![tactic(auto)]

use std::env::{Env, FillError};

// A name that is too long for a path is none.
fn print_named(rt: &HostRuntime, i: usize) -> bool {
    let mut path = [0u8; 4096];
    let n = match rt.arg(i, &mut path) {
        Ok(n) => n,
        Err(FillError::TooLong) => 0,
        Err(FillError::NotPresent) => return false,
    };
    let _ = rt.write_all(&path[..n]);
    let _ = rt.write_all(b"\n");
    let _ = disk::print_file(rt, &path[..n]);
    true
}

fn main(rt: HostRuntime) {
    for i in 1..usize::MAX {
        if !print_named(&rt, i) {
            return;
        }
    }
}
