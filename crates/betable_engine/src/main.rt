//! Answers requests to a table on standard input until its end.
//!
//! With the option `--keep` the table is in a file. A reply is written once its changes are on the disk, so nothing that was answered is lost in a crash: the
//! contracts of `Store::open` and `serve_and_keep` say so. Without the option the table ends with the process.
#![tactic(auto)]

mod stop;

ghost use Rattle.std.specs.Prelude.{◌≡◌, [], IfOk, IfSome, IsSome, IsTrue, None, false};
ghost use Rattle.bt_engine.specs.Options.{NamesNoFile};
ghost use Rattle.bt_script.specs.Options.{AreWithinLimits};
ghost use Rattle.bt_script.specs.Streams.{has_unflushed};

use bt_durable::{Ahead, OnceService, ServiceMachine, serve_and_keep};
use bt_engine::{ENGINE, EngineWords, FORMAT, TableService, crew_of, engine, read_engine_words};
use bt_frame::CompactService;
use bt_gang::Context;
use bt_journal::{Head, ReadDisk, Store};
use bt_script::WordsError;
use bt_shell::{Counted, ProgramFault, RunFault, arguments_of};
use bt_value::Texts;
use std::alloc::{AllocError, Global};
use std::hash::{BuildHasher, RandomState};
use std::io::{self, BufReader, BufWriter, Read, Write};
use std::mem;
use std::process::ExitCode;
use std::rt::Env;
use std::sync::Wait;
use std::thread::Threads;
use stop::Stop;

// The number of bytes that one read asks for.
const PIECE_SIZE: usize = 65_536;

// Passes the arguments and the streams on. Requests are read, and replies written, through buffers.
fn serve_in_memory<R, I, E>(
    rt: &R,
    arguments: &Texts,
    input: I,
    errors: &mut Counted<E>,
) -> Result<u8, ProgramFault>
where
    R: Env + AllocGlobal + Print + Threads + Wait + Sync,
    I: Read + Drop,
    E: Write,
    requires unkept { NamesNoFile arguments.now }
{
    let Ok(input) = BufReader::new(rt.alloc(), input) else {
        return Err(ProgramFault::Run(RunFault::OutOfMemory));
    };
    let Ok(output) = BufWriter::new(rt.alloc(), io::writer(rt)) else {
        return Err(ProgramFault::Run(RunFault::OutOfMemory));
    };
    Ok(engine(
        rt,
        arguments,
        &mut Counted::new(input),
        &mut Counted::new(output),
        errors,
    ))
}

// Opens the file of a service, and serves what arrives. The memory is not freed: the process ends here, which frees all of it at once.
fn open_and_serve<X, S, D, I, W>(
    alloc: Global,
    context: &X,
    service: OnceService<S>,
    disk: D,
    head: Head,
    most: u64,
    input: I,
    output: &mut Counted<W>,
) -> Result<(), Stop>
where
    S: CompactService<X> + Drop,
    D: ReadDisk + Drop,
    I: Ahead + Drop,
    W: Write,
    requires ready { S.Service.accepts context.now }
    requires blank { service ≡ (S.Service.blank, []) }
    requires unread { D.original disk ≡ [] }
    requires healthy { IsTrue (D.is_healthy disk) }
    requires flushed { has_unflushed output.old ≡ false }
{
    let machine = ServiceMachine::new(alloc, context, service);
    let mut store = match Store::open(alloc, disk, head, machine) {
        Ok(store) => store,
        Err((fault, _disk)) => return Err(Stop::Store(fault)),
    };
    let served = serve_and_keep(alloc, &mut store, most, input, output);
    mem::forget(store);
    served?;
    Ok(())
}

// Serves requests on the table in a file. A new file gets a salt at random.
fn serve_and_keep_in<R: AllocGlobal + Print + Threads + Wait + Sync>(
    rt: &R,
    host: HostRuntime,
    words: &EngineWords,
) -> Result<(), Stop>
    requires kept { IsSome words.now.keep }
    requires limits { AreWithinLimits words.now.workers words.now.cut words.now.grain }
{
    let alloc = rt.alloc();
    let input = BufReader::with_capacity(alloc, PIECE_SIZE, host.reader())?;
    let mut output = Counted::new(BufWriter::new(alloc, io::writer(rt))?);
    let head = Head {
        format: FORMAT,
        engine: ENGINE,
        salt: RandomState::new(&host)?.hash_one(&0u8),
    };
    let crew = crew_of(words);
    let context = Context {
        rt,
        alloc,
        crew: &crew,
    };
    let path = words.keep.as_ref().unwrap();
    let file = bt_file::open(host, path.as_str())?;
    open_and_serve(
        alloc,
        &context,
        OnceService::new(alloc, TableService::new())?,
        file,
        head,
        words.most as u64,
        input,
        &mut output,
    )
}

// The settings, if the table is to be in a file. Other arguments are left to `engine`, which reports what is wrong with them.
fn words_to_keep(alloc: Global, arguments: &Texts) -> Result<Option<EngineWords>, AllocError>
    ensures kept { IfOk result (λ found. IfSome found (λ words. IsSome words.keep)) }
    ensures limits { IfOk result (λ found. IfSome found (λ words. AreWithinLimits words.workers words.cut words.grain)) }
    ensures unkept { IfOk result (λ found. found ≡ None → NamesNoFile arguments.now) }
{
    match read_engine_words(alloc, arguments) {
        Ok(words) => {
            if words.keep.is_none() {
                return Ok(None);
            }
            Ok(Some(words))
        }
        Err(WordsError::OutOfMemory) => Err(AllocError),
        Err(_fault) => Ok(None),
    }
}

// The status of a run that did not stop with a fault which is to be reported.
fn run<R, E>(rt: &R, host: HostRuntime, errors: &mut Counted<E>) -> Result<u8, Stop>
where
    R: Env + AllocGlobal + Print + Threads + Wait + Sync,
    E: Write,
{
    let arguments = arguments_of(rt)?;
    if let Some(words) = words_to_keep(rt.alloc(), &arguments)? {
        serve_and_keep_in(rt, host, &words)?;
        return Ok(0);
    }
    Ok(serve_in_memory(rt, &arguments, host.reader(), errors)?)
}

fn main(rt: HostRuntime) -> ExitCode {
    let mut errors = Counted::new(rt.stderr());
    let status = match run(&rt, rt, &mut errors) {
        Ok(status) => status,
        Err(stop) => stop.report(&mut errors),
    };
    ExitCode::from(status)
}
