//! The program `crdx`: passes the arguments, the files and the standard streams to the library.
#![tactic(auto)]

use crdx::inputs::HostInputs;
use crdx::sink::{Plain, put_all};
use std::process::ExitCode;
use std::rt::Env;
use std::{env, io};

fn words_of(rt: &(impl Env + AllocGlobal)) -> io::Result<Vec<String>> {
    let arguments = env::args(rt)?.collect::<Vec<String>>(rt.alloc())?;
    Ok(arguments)
}

fn main(rt: HostRuntime) -> ExitCode {
    let mut out = Plain::new(rt.stdout());
    let mut err = Plain::new(rt.stderr());
    match words_of(&rt) {
        Ok(arguments) => {
            let mut inputs = HostInputs::new(&rt);
            let status = crdx::run(
                rt.alloc(),
                arguments.as_slice(),
                &mut inputs,
                &mut out,
                &mut err,
            );
            ExitCode::from(status)
        }
        Err(error) => ExitCode::from(report_arguments(error.kind(), &mut err)),
    }
}

/// Says why the arguments could not be read, and answers the status: 5 out of memory, and 2 where they are not UTF-8.
fn report_arguments<E: crdx::sink::Sink>(kind: io::ErrorKind, err: &mut E) -> u8 {
    let (text, status) = match kind {
        io::ErrorKind::OutOfMemory => ("crdx: out of memory\n", 5),
        _ => ("crdx: the arguments are no UTF-8\n", 2),
    };
    let _ = put_all(err, text.as_bytes());
    status
}
