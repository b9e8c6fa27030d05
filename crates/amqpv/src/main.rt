//! Prints standard input as AMQP data: the length, the encoding and the text of the list of its
//! lines, or with the argument `cut` one line for each encoded value.
#![tactic(auto)]

use serde_amqp::read::IoReader;
use serde_amqp::{Error, IoWriter, run_cut, run_lines};
use std::env::{Env, FillError};
use std::io;
use std::io::BufReader;
use std::process::ExitCode;

fn main(rt: HostRuntime) -> ExitCode {
    let Some(cut) = asks_for_cut(&rt) else {
        let _ = eprintln!(rt; "usage: amqpv [cut]");
        return ExitCode::from(2);
    };
    let Err(error) = run(&rt, cut) else {
        return ExitCode::SUCCESS;
    };
    let _ = eprintln!(rt; "amqpv: {error}");
    ExitCode::from(1)
}

// Returns whether the only argument is `cut`, or `None` if there are other arguments.
fn asks_for_cut(rt: &impl Env) -> Option<bool> {
    let mut word = [0; 3];
    match rt.arg(1, &mut word) {
        Err(FillError::NotPresent) => Some(false),
        Ok(3) if word == *b"cut" => match rt.arg(2, &mut word) {
            Err(FillError::NotPresent) => Some(true),
            _ => None,
        },
        _ => None,
    }
}

fn run<R: Input + Print + AllocGlobal>(rt: &R, cut: bool) -> Result<(), Error> {
    let alloc = rt.alloc();
    let input = BufReader::new(alloc, rt.reader()).map_err(|_| Error::OutOfMemory)?;
    let mut reader = IoReader::new(input);
    let mut writer = IoWriter::new(io::writer(rt));
    if cut {
        run_cut(alloc, &mut reader, &mut writer)
    } else {
        run_lines(alloc, &mut reader, &mut writer)
    }
}
