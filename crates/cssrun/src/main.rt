//! `cssrun`: compiles and runs block algorithms in integer C.
#![tactic(auto)]

ghost use Rattle.std.specs.Prelude.{◌≡◌, ◌≢◌, [], IfErr, IsErr, IsOkAnd};
ghost use Rattle.std.specs.IoError.{error_kind};

use css_base::{NoMemory, Words};
use css_driver::{no_memory_for_words, top};
use css_io::{FileShelf, OpenGate, StdSink, StdSource};
use std::alloc::Global;
use std::env::Args;
use std::io::ErrorKind;
use std::process::ExitCode;
use std::{env, io};

fn main(rt: HostRuntime) -> ExitCode {
    let args = env::args(&rt);
    let (stdout, stderr) = (rt.stdout(), rt.stderr());
    let mut report = StdSink::new(io::writer(&stderr));
    let Ok(words) = words_of(rt.alloc(), args) else {
        return ExitCode::from(no_memory_for_words(&mut report));
    };
    let status = top(
        &rt,
        rt.alloc(),
        &words,
        &mut FileShelf::new(&rt),
        &mut StdSource::new(rt.reader()),
        &mut StdSink::new(io::writer(&stdout)),
        &mut report,
        OpenGate::new(),
    );
    ExitCode::from(status)
}

// The words that the program was called with. Where one isn't UTF-8 there are none, which are refused; want of memory is an error.
fn words_of(alloc: Global, args: io::Result<Args>) -> Result<Words, NoMemory>
    ensures memory { IfErr args (λ error. error_kind error ≡ ErrorKind.OutOfMemory → IsErr result) }
    ensures others { IfErr args (λ error. error_kind error ≢ ErrorKind.OutOfMemory → IsOkAnd result (λ words. words ≡ [])) }
{
    match args {
        Ok(args) => Ok(Words::new(args.collect(alloc)?)),
        Err(error) => match error.kind() {
            ErrorKind::OutOfMemory => Err(NoMemory),
            _ => Ok(Words::new(Vec::new(alloc))),
        },
    }
}
