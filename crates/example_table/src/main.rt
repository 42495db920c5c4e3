//! Your own crate on the library: it runs a script from memory, and prints the replies.
#![tactic(auto)]

use anyhow::Result;
use bt_shell::{Alone, Counted, RunFault, run_script};

const SCRIPT: &str = "\
table 16 1024 256 1 id:int city:text qty:int
batch
put 3,Oslo,30
put 1,Bergen,10
ups 3,add,qty,4
end
scan primary
go
";

// The replies to a script that runs on the caller's thread. To use a crew of four workers, write `Crew::new(4, 2, 64, NoGate)` in place of `Alone`.
fn replies<R: AllocGlobal>(rt: &R, script: &[u8]) -> Result<Vec<u8>, RunFault> {
    let alloc = rt.alloc();
    let mut reader = Counted::new(script);
    let mut text = Vec::new(alloc);
    let mut writer = Counted::new(&mut text);
    run_script(rt, alloc, &mut reader, &mut writer, &Alone)?;
    Ok(text)
}

fn main(rt: HostRuntime) -> Result<()> {
    let text = replies(&rt, SCRIPT.as_bytes())?;
    print!(rt; "{}", String::from_utf8_lossy(rt.alloc(), text.as_slice())?)?;
    Ok(())
}
