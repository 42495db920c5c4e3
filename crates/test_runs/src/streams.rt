//! Scripts that are cut, streams that fail, have no end or count their flushes, and long scripts.
ghost use Rattle.std.specs.Prelude.{Some};

use bt_shell::{Alone, Counted, RunFault, run_script};
use std::alloc::{AllocError, Global};
use std::io;
use std::io::{ErrorKind, Read, Write};
use std::test::Fail;

/// Gives one byte a call, and fails after a number of calls.
#[derive(Drop)]
pub(crate) struct Failing<'a> {
    pub rest: &'a [u8],
    pub calls: u32,
}

impl Read for Failing<'_> {
    ghost remaining = { λ r. Some r.rest.now };

    fn read(&mut self, buf: &mut [u8]) -> io::Result<usize> {
        if self.calls == 0 {
            return Err(io::Error::from(ErrorKind::Interrupted));
        }
        self.calls -= 1;
        let count = buf.len().min(1);
        self.rest.read(&mut buf[..count])
    }
}

/// Takes a number of bytes, one a write, and then fails.
#[derive(Drop)]
pub(crate) struct Full<'a> {
    pub taken: &'a mut Vec<u8>,
    pub room: usize,
}

impl Write for Full<'_> {
    ghost contents = { λ w. Some w.taken.now.items };

    fn write(&mut self, buf: &[u8]) -> io::Result<usize> {
        if self.room == 0 {
            return Err(io::Error::from(ErrorKind::BrokenPipe));
        }
        self.room -= 1;
        let count = buf.len().min(1);
        self.taken.write(&buf[..count])
    }

    fn flush(&mut self) -> io::Result<()> {
        Ok(())
    }
}

// Counts its flushes; each flush fails if it is to.
#[derive(Drop)]
struct Flushes {
    count: u32,
    fails: bool,
}

impl Write for Flushes {
    fn write(&mut self, buf: &[u8]) -> io::Result<usize> {
        Ok(buf.len())
    }

    fn flush(&mut self) -> io::Result<()> {
        self.count = self.count.wrapping_add(1);
        if self.fails {
            return Err(io::Error::from(ErrorKind::BrokenPipe));
        }
        Ok(())
    }
}

// The fault of a short run over a stream that counts flushes, and whether replies were left without a flush.
fn run_over_flushes<R: AllocGlobal>(rt: &R, stream: &mut Flushes) -> (Result<(), RunFault>, bool) {
    let mut reader = Counted::new(b"scan primary\ngo\n".as_slice());
    let mut writer = Counted::new(stream);
    let result = run_script(rt, rt.alloc(), &mut reader, &mut writer, &Alone);
    (result, writer.has_unflushed())
}

#[test]
fn a_flush_reaches_the_stream(rt: HostRuntime) {
    let mut stream = Flushes {
        count: 0,
        fails: false,
    };
    let (result, unflushed) = run_over_flushes(&rt, &mut stream);
    assert!(rt; result.is_ok() && !unflushed);
    assert_eq!(rt; stream.count, 1);
    let mut stream = Flushes {
        count: 0,
        fails: true,
    };
    let (result, unflushed) = run_over_flushes(&rt, &mut stream);
    assert!(rt; matches!(&result, Err(RunFault::Write)) && unflushed);
}

// A script of commands, each without its last line end, and the reply to each.
const FULL_RUN: [(&str, &str); 19] = [
    ("table 4 3 2 1 id:int city:text qty:int", "table 3\n"),
    (
        "load\nid,city,qty\n3,Oslo,30\n1,Bergen,10\n2,\"Oslo, west\",20\n.",
        "loaded 3\n",
    ),
    ("index c on city include qty where qty >= 15", "index c\n"),
    ("build c 5", "build c 3 complete\n"),
    (
        "batch\nput 4,Oslo,40\nups 1,add,qty,10\ndel 3\nups 5,set,city,Bergen,add,qty,7\nend",
        "batch 4 c:3\n",
    ),
    (
        "image primary",
        "image primary height 2
inner 2 1
  ~ 8000000000000001 add,qty,10
  leaf 2
    = 8000000000000001 1,Bergen,10
    = 8000000000000002 2,\"Oslo, west\",20
  | 8000000000000003
  leaf 2
    = 8000000000000004 4,Oslo,40
    = 8000000000000005 5,Bergen,7
end
",
    ),
    (
        "image c",
        "image c height 2
inner 2 0
  leaf 2
    = 42657267656e00018000000000000001 20
    = 4f736c6f00018000000000000004 40
  | 4f736c6f2c207765737400018000000000000002
  leaf 1
    = 4f736c6f2c207765737400018000000000000002 20
end
",
    ),
    (
        "scan c\ngo",
        "row Bergen,1,20\nrow Oslo,4,40\nrow \"Oslo, west\",2,20\nrows 3\n",
    ),
    (
        "sums c 1 qty\ngo",
        "sum 1 20 Bergen\nsum 1 40 Oslo\nsum 1 20 \"Oslo, west\"\nsums 3\n",
    ),
    ("get 3", "none\n"),
    ("get 5", "row 5,Bergen,7\n"),
    (
        "scan primary\nfrom 2\nto 5\ngo",
        "row 2,\"Oslo, west\",20\nrow 4,Oslo,40\nrows 2\n",
    ),
    ("batch\nput 2,Molde,21\nend", "batch 1 c:2\n"),
    ("drain c", "drained c\n"),
    (
        "image c",
        "image c height 2
inner 3 0
  leaf 2
    = 42657267656e00018000000000000001 20
    = 4d6f6c646500018000000000000002 21
  | 4f736c6f00018000000000000004
  leaf 1
    = 4f736c6f00018000000000000004 40
  | 4f736c6f2c207765737400018000000000000002
  leaf 0
end
",
    ),
    ("rebuild primary", "rebuilt primary\n"),
    (
        "image primary",
        "image primary height 2
inner 2 0
  leaf 2
    = 8000000000000001 1,Bergen,20
    = 8000000000000002 2,Molde,21
  | 8000000000000004
  leaf 2
    = 8000000000000004 4,Oslo,40
    = 8000000000000005 5,Bergen,7
end
",
    ),
    ("drop c", "dropped c\n"),
    ("scan c\ngo", "refused 8 NoSuchTree\n"),
];

// The script with its line ends, and all replies.
fn full_run(alloc: Global) -> Result<(Vec<u8>, Vec<u8>), AllocError> {
    let mut script = Vec::new(alloc);
    let mut replies = Vec::new(alloc);
    for (command, reply) in FULL_RUN {
        script.extend_from_slice(command.as_bytes())?;
        script.extend_from_slice(b"\n")?;
        replies.extend_from_slice(reply.as_bytes())?;
    }
    Ok((script, replies))
}

// The fault of a run whose reader fails after some calls and whose writer fails after some bytes; what it writes, and the numbers of bytes that it read and
// wrote.
fn run_over<R: AllocGlobal>(
    rt: &R,
    script: &[u8],
    calls: u32,
    room: usize,
) -> (Result<(), RunFault>, Vec<u8>, (u64, u64)) {
    let alloc = rt.alloc();
    let mut reader = Counted::new(Failing {
        rest: script,
        calls,
    });
    let mut taken = Vec::new(alloc);
    let mut writer = Counted::new(Full {
        taken: &mut taken,
        room,
    });
    let result = run_script(rt, alloc, &mut reader, &mut writer, &Alone);
    let counts = (reader.count(), writer.count());
    (result, taken, counts)
}

// Whether a run whose reader fails after some calls writes nothing.
fn fails_to_read<R: AllocGlobal>(rt: &R, script: &[u8], calls: u32) -> bool {
    let (result, text, counts) = run_over(rt, script, calls, 4096);
    matches!(&result, Err(RunFault::Read)) && text.is_empty() && counts == (u64::from(calls), 0)
}

#[test]
fn each_read_fails(rt: HostRuntime) -> Result<(), Fail> {
    let (script, replies) = full_run(rt.alloc())?;
    for calls in 0..408u32 {
        assert!(rt;
            fails_to_read(&rt, script.as_slice(), calls),
            "following {calls}"
        );
    }
    // The last call of a successful run finds that nothing is left.
    let (result, text, counts) = run_over(&rt, script.as_slice(), 408, 4096);
    assert!(rt; result.is_ok());
    assert_eq!(rt; text.as_slice(), replies.as_slice());
    assert_eq!(rt; counts, (407, 1249));
    Ok(())
}

// Whether a run whose writer fails after some bytes has written exactly these, the first of the replies.
fn fails_to_write<R: AllocGlobal>(rt: &R, script: &[u8], replies: &[u8], room: usize) -> bool {
    let (result, text, counts) = run_over(rt, script, 408, room);
    matches!(&result, Err(RunFault::Write))
        && text.len() == room
        && replies.starts_with(text.as_slice())
        && counts == (407, text.len() as u64)
}

#[test]
fn each_write_fails(rt: HostRuntime) -> Result<(), Fail> {
    let (script, replies) = full_run(rt.alloc())?;
    for room in 0..1249usize {
        assert!(rt;
            fails_to_write(&rt, script.as_slice(), replies.as_slice(), room),
            "following {room}"
        );
    }
    let (result, text, counts) = run_over(&rt, script.as_slice(), 408, 1249);
    assert!(rt; result.is_ok());
    assert_eq!(rt; text.as_slice(), replies.as_slice());
    assert_eq!(rt; counts, (407, 1249));
    Ok(())
}

// Gives its text over and over.
#[derive(Drop)]
struct Endless<'a> {
    text: &'a [u8],
}

impl Read for Endless<'_> {
    fn read(&mut self, buf: &mut [u8]) -> io::Result<usize> {
        let mut text = self.text;
        text.read(buf)
    }
}

#[test]
fn a_script_without_end(rt: HostRuntime) {
    let alloc = rt.alloc();
    let spaces = [b' '; 4096];
    let mut reader = Counted::new(Endless { text: &spaces });
    let mut text = Vec::new(alloc);
    let result = run_script(
        &rt,
        alloc,
        &mut reader,
        &mut Counted::new(&mut text),
        &Alone,
    );
    assert!(rt; matches!(&result, Err(RunFault::Read)) && text.is_empty());
    assert_eq!(rt; reader.count(), 67_108_865);
}

#[test]
fn faults_have_their_texts(rt: HostRuntime) -> Result<(), Fail> {
    for (fault, text) in [
        (RunFault::Read, "read failed"),
        (RunFault::Write, "write failed"),
        (RunFault::OutOfMemory, "out of memory"),
    ] {
        let shown = format!(in rt.alloc(); "{fault}")?;
        assert_eq!(&rt; shown.as_bytes(), text.as_bytes());
    }
    Ok(())
}

// A table, a batch of `count` equal lines, and a get of key 1.
fn long_script(alloc: Global, line: &[u8], count: u32) -> Result<Vec<u8>, AllocError> {
    let mut script = Vec::from_slice(alloc, b"table 4 3 2 1 id:int note:text\nbatch\n")?;
    for _ in 0..count {
        script.extend_from_slice(line)?;
    }
    script.extend_from_slice(b"end\nget 1\n")?;
    Ok(script)
}

// What a run over streams in memory writes.
fn replies_to<R: AllocGlobal>(rt: &R, script: &[u8]) -> Result<Vec<u8>, RunFault> {
    let alloc = rt.alloc();
    let mut text = Vec::new(alloc);
    run_script(
        rt,
        alloc,
        &mut Counted::new(script),
        &mut Counted::new(&mut text),
        &Alone,
    )?;
    Ok(text)
}

// Whether a text is some replies, followed by at most one line.
fn are_begun(replies: &[u8], text: &[u8]) -> bool {
    match text.strip_prefix(replies) {
        Some([]) => true,
        Some([line @ .., b'\n']) => !line.contains(&b'\n'),
        _ => false,
    }
}

// Adds a command to a script and its reply to the replies. Returns whether the script, cut before each byte of the command, has the
// replies so far followed by at most one line, and whether it also has the new reply if only its last line end is missing.
fn add_cut<R: AllocGlobal>(
    rt: &R,
    script: &mut Vec<u8>,
    replies: &mut Vec<u8>,
    command: &str,
    reply: &str,
) -> Result<bool, RunFault> {
    for byte in command.as_bytes() {
        let text = replies_to(rt, script.as_slice())?;
        if !are_begun(replies.as_slice(), text.as_slice()) {
            return Ok(false);
        }
        script.extend_from_slice(&[*byte])?;
    }
    let text = replies_to(rt, script.as_slice())?;
    script.extend_from_slice(b"\n")?;
    replies.extend_from_slice(reply.as_bytes())?;
    Ok(text.as_slice() == replies.as_slice())
}

#[test]
fn cut_scripts(rt: HostRuntime) -> Result<(), Fail> {
    let alloc = rt.alloc();
    let mut script = Vec::new(alloc);
    let mut replies = Vec::new(alloc);
    for (command, reply) in FULL_RUN {
        let is_right = add_cut(&rt, &mut script, &mut replies, command, reply)?;
        assert!(rt; is_right, "in {command}");
    }
    assert_eq!(rt;
        replies_to(&rt, script.as_slice())?.as_slice(),
        replies.as_slice()
    );
    Ok(())
}

#[test]
fn long_scripts(rt: HostRuntime) -> Result<(), Fail> {
    let alloc = rt.alloc();
    let line = b"put 1,a note that is a good deal longer than a value keeps\n";
    let script = long_script(alloc, line, 20_000)?;
    assert!(rt; script.len() > 1_100_000);
    assert_eq!(rt;
        replies_to(&rt, script.as_slice())?.as_slice(),
        b"table 2\nbatch 20000\nrow 1,a note that is a good deal longer than a value keeps\n".as_slice()
    );
    let script = long_script(alloc, b"del 1\n", 65_537)?;
    assert_eq!(rt;
        replies_to(&rt, script.as_slice())?.as_slice(),
        b"table 2\nrefused 10 TooMany\nnone\n".as_slice()
    );
    Ok(())
}
