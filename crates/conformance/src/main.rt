// Runs the script of cases on standard input and prints what its calls do.
#![tactic(auto)]

use script::run::Script;
use std::alloc::Global;
use std::io;
use std::io::{BufRead, BufReader, BufWriter, Write};

// Reads a script line by line and writes what it prints.
fn run<R: io::Read + Drop, W: io::Write + Drop>(
    heap: Global,
    input: R,
    output: W,
) -> anyhow::Result<()> {
    let mut script = Script::new(heap);
    let mut output = BufWriter::new(heap, output)?;
    let mut text = String::new(heap);
    for line in BufReader::new(heap, input)?.split(heap, b'\n') {
        text.clear();
        script.line(line?.as_slice(), &mut text)?;
        output.write_all(text.as_bytes())?;
    }
    text.clear();
    script.finish(&mut text)?;
    output.write_all(text.as_bytes())?;
    output.flush()?;
    Ok(())
}

fn main(rt: HostRuntime) -> anyhow::Result<()> {
    run(rt.alloc(), rt.stdin(), rt.stdout())
}
