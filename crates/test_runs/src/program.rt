//! Commands, command lines, and the statuses of the program.
use crate::streams::{Failing, Full};
use bt_rowtype::{Item, RecordLine, Texts};
use bt_shell::{Command, Counted, Parsed, Words, WordsError, parse_command, program, read_words};
use std::alloc::{AllocError, Global};
use std::fs;
use std::rt::Files;
use std::sync::Wait;
use std::test::Fail;
use std::thread::Threads;

// The program's name and the arguments of a line.
fn arguments_of(alloc: Global, line: &str) -> Result<Texts, AllocError> {
    let mut arguments = Texts::new(alloc);
    arguments.push("betable")?;
    for word in line.split_whitespace() {
        arguments.push(word)?;
    }
    Ok(arguments)
}

// The settings of a command line: its script, workers, cut and grain, or `faulty`, or `help` if the text names the options.
fn said(alloc: Global, line: &str) -> Result<String, AllocError> {
    match read_words(alloc, &arguments_of(alloc, line)?) {
        Ok(
            Words {
                script,
                workers,
                cut,
                grain,
            },
        ) => match script {
            Some(file) => format!(in alloc; "{file} {workers} {cut} {grain}"),
            None => format!(in alloc; "input {workers} {cut} {grain}"),
        },
        Err(WordsError::Faulty) => String::from_str(alloc, "faulty"),
        Err(WordsError::Help(text)) => help_text(alloc, &text),
        Err(WordsError::OutOfMemory) => Err(AllocError),
    }
}

// The parts that a help text must name: the options, the commands of a script, and the page of its language.
const NAMED: [&str; 16] = [
    "--script <FILE>",
    "Reads the script from FILE",
    "--workers <N>",
    "--cut <D>",
    "--grain <G>",
    "--help",
    "\n  table F C L K name:kind ..  ",
    "\n  batch  ",
    "\n  get KEY  ",
    "\n  scan TREE  ",
    "\n  sums TREE G COLUMN  ",
    "\n  image TREE  ",
    "\n  index NAME on COLUMNS ..  ",
    "\n  build NAME N  ",
    "\n  drop NAME  ",
    "docs/SCRIPT.md",
];

// `help` if a help text names all of them, and otherwise the first one that it does not name.
fn help_text(alloc: Global, text: &String) -> Result<String, AllocError> {
    for name in NAMED {
        if !text.contains(name) {
            return format!(in alloc; "no help on {name}");
        }
    }
    String::from_str(alloc, "help")
}

#[test]
fn command_lines(rt: HostRuntime) -> Result<(), Fail> {
    let alloc = rt.alloc();
    for (line, expected) in [
        ("", "input 4 2 64"),
        ("--script x", "x 4 2 64"),
        ("--script=x --workers=1", "x 1 2 64"),
        ("--cut 3", "input 4 3 64"),
        ("--workers 64 --cut 1 --grain 65536", "input 64 1 65536"),
        ("--help", "help"),
        ("--workers 0", "faulty"),
        ("--workers 65", "faulty"),
        ("--cut 0", "faulty"),
        ("--cut 6", "input 4 6 64"),
        ("--cut 7", "faulty"),
        ("--grain 0", "faulty"),
        ("--grain 65537", "faulty"),
        ("--workers two", "faulty"),
        ("--cut -1", "faulty"),
        ("--grain", "faulty"),
        ("--workers 2 --workers 2", "faulty"),
        ("--script", "faulty"),
        ("--script x --script x", "faulty"),
        ("x", "faulty"),
        ("--version", "faulty"),
    ] {
        assert_eq!(rt; said(alloc, line)?.as_str(), expected);
    }
    Ok(())
}

// The status of the program, followed by what it writes to its errors and the start of what it writes to its output. The input contains `run`.
fn answer<R: Files + AllocGlobal + Threads + Wait + Sync>(
    rt: &R,
    arguments: &Texts,
    calls: u32,
    room: usize,
) -> Result<String, AllocError> {
    let alloc = rt.alloc();
    let mut input = Counted::new(Failing {
        rest: b"run",
        calls,
    });
    let mut taken = Vec::new(alloc);
    let mut output = Counted::new(Full {
        taken: &mut taken,
        room,
    });
    let mut lines = Vec::new(alloc);
    let mut errors = Counted::new(&mut lines);
    let status = program(rt, arguments, &mut input, &mut output, &mut errors);
    let start = &taken[..taken.len().min(16)];
    lines.extend_from_slice(start)?;
    let text = String::from_utf8_lossy(alloc, lines.as_slice())?;
    format!(in alloc; "{status} {text}")
}

#[test]
fn statuses(rt: HostRuntime) -> Result<(), Fail> {
    for (line, calls, room, expected) in [
        ("", 9, 4096, "0 refused 1 Syntax"),
        ("", 1, 4096, "1 betable: read failed\n"),
        ("", 9, 7, "1 betable: write failed\nrefused"),
        ("--workers 0", 9, 0, "2 betable: faulty command line\n"),
        ("--help", 0, 4096, "0 Runs a script of"),
        ("--help", 0, 5, "1 betable: write failed\nRuns "),
    ] {
        let arguments = arguments_of(rt.alloc(), line)?;
        let text = answer(&rt, &arguments, calls, room)?;
        assert_eq!(rt; text.as_str(), expected);
    }
    Ok(())
}

#[test]
fn scripts_in_files(rt: HostRuntime) -> Result<(), Fail> {
    fs::write(&rt, "script", b"table 4 3 2 1 id:int qty:int\n".as_slice())?;
    fs::write(&rt, " script", b"table 4 3 2 1 id:int\n".as_slice())?;
    for (file, expected) in [
        ("script", "0 table 2\n"),
        (" script", "0 table 1\n"),
        ("missing", "1 betable: read failed\n"),
    ] {
        let mut arguments = arguments_of(rt.alloc(), "--script")?;
        arguments.push(file)?;
        let text = answer(&rt, &arguments, 9, 4096)?;
        assert_eq!(rt; text.as_str(), expected);
    }
    fs::remove_file(&rt, "script")?;
    fs::remove_file(&rt, " script")?;
    Ok(())
}

// Appends the sign of a message and its fields, each after a bar.
fn add_item(
    alloc: Global,
    out: &mut Vec<u8>,
    sign: &str,
    line: &RecordLine<'_>,
) -> Result<(), AllocError> {
    let fields = line.fields(alloc)?;
    out.extend_from_slice(sign.as_bytes())?;
    for place in 0..fields.len() {
        out.extend_from_slice(b"|")?;
        out.extend_from_slice(fields.get(place))?;
    }
    Ok(())
}

// The messages of a batch at the start of a script, or nothing if there is none.
fn batch_text(alloc: Global, script: &[u8]) -> Result<Vec<u8>, AllocError> {
    let mut out = Vec::new(alloc);
    if let Parsed::Good {
        command: Command::Batch(items),
        ..
    } = parse_command(alloc, script, 0)?
    {
        for item in items.into_vec() {
            match item {
                Item::Put(line) => add_item(alloc, &mut out, "+", &line)?,
                Item::Del(line) => add_item(alloc, &mut out, "-", &line)?,
                Item::Ups(line) => add_item(alloc, &mut out, "~", &line)?,
            }
        }
    }
    Ok(out)
}

#[test]
fn messages_of_a_block(rt: HostRuntime) -> Result<(), Fail> {
    let script = b"batch\nput 1,\"a, b\"\n\n del 1\r\nups 1,add,qty,5\nend\n";
    let text = batch_text(rt.alloc(), script)?;
    assert_eq!(rt; text.as_slice(), b"+|1|a, b-|1~|1|add|qty|5".as_slice());
    Ok(())
}
