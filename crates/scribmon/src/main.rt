//! `scribmon`: a monitor of conversations against Scribble protocols.
#![tactic(auto)]

use scrib_command_line::run_command_line::{
    PipeOutput, Streams, print_start_fault, run_command_line,
};
use std::io::{BufWriter, IsTerminal};
use std::marker::Send;
use std::process::ExitCode;
use std::rt::{Env, Files};
use std::sync::Wait;
use std::thread::Threads;
use std::{env, io};

// The size of the output buffer, in bytes. It is for short writes: a longer one passes it by, as all replies to 64 KiB of
// a script do. Commands flush it where a reader may be waiting.
const OUTPUT_BYTES: usize = 4_096;

// The words of the command line.
fn words(rt: &(impl Env + AllocGlobal)) -> io::Result<Vec<String>> {
    let mut words = Vec::new(rt.alloc());
    for word in env::args(rt)? {
        words.push(word)?;
    }
    Ok(words)
}

fn run<R: Print + Eprint + Input + Files + Env + Threads + Wait + AllocGlobal + Sync>(
    rt: &R,
) -> io::Result<u8>
where
    R::File: Send,
    R::Reader: Send + IsTerminal,
{
    let words = words(rt)?;
    let buffer = BufWriter::with_capacity(rt.alloc(), OUTPUT_BYTES, io::writer(rt))?;
    let mut output = PipeOutput::new(buffer);
    let mut streams = Streams {
        input: rt,
        input_is_terminal: rt.reader().is_terminal(),
        output: &mut output,
        messages: rt,
    };
    Ok(run_command_line(rt, &mut streams, words.as_slice()))
}

fn main(rt: HostRuntime) -> ExitCode {
    match run(&rt) {
        Ok(status) => ExitCode::from(status),
        Err(e) => ExitCode::from(print_start_fault(&rt, e.kind())),
    }
}
