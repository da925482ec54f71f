// The running of a script, line by line.
ghost use Rattle.script.specs.Runs.{last_text, line_text};
ghost use Rattle.std.specs.Prelude.{◌≡◌, ◌+◌, ◌-◌, ◌^◌, ◌++◌, min, OnOk};
ghost use Rattle.std.specs.String.{string_bytes};

use crate::answer::Places;
use crate::case::{Case, Outcome};
use crate::layers::SettingError;
use crate::line::{Call, Line, LineError, Setting};
use crate::list::{Repeated, runs_of, widened};
use crate::read::read;
use std::alloc::{AllocError, Global};
use std::fmt::Write;
use std::mem;

// Where a script stands.
#[derive(Debug, Drop)]
enum Stage {
    // Before a case, or behind one.
    Outside,
    In(Case),
    // In a case whose host's numbers were refused: nothing of it is done any more.
    Stopped(Case),
}

#[derive(Debug, Drop)]
pub struct Script {
    heap: Global,
    // the lines that were read
    lines: u64,
    stage: Stage,
}

impl Script {
    // A script before its first line.
    pub fn new(heap: Global) -> Script
        ensures { result ≡ record { heap = heap; lines = 0; stage = Stage.Outside } }
    {
        Script {
            heap,
            lines: 0,
            stage: Stage::Outside,
        }
    }

    // Reads the next line, does what it says, and adds what that prints to a text.
    pub fn line(&mut self, line: &[u8], out: &mut String) -> Result<(), AllocError>
        ensures lines { self.new.lines ≡ min (self.old.lines + 1) (2 ^ 64 - 1) }
    {
        self.lines = self.lines.saturating_add(1);
        match read(self.heap, line) {
            Ok(line) => self.act(line, out),
            Err(error) => self.tell(error, out),
        }
    }

    // The script has no further line.
    pub fn finish(&mut self, out: &mut String) -> Result<(), AllocError>
        ensures text { OnOk result (string_bytes out.new ≡ string_bytes out.old ++ last_text self.old.lines self.old.stage) }
        ensures between { self.old.stage ≡ Stage.Outside → self.new ≡ self.old }
    {
        match self.stage {
            Stage::Outside => Ok(()),
            _ => {
                self.lines = self.lines.saturating_add(1);
                self.tell(LineError::NoEnd, out)
            }
        }
    }

    // Prints why a line is not done.
    fn tell(&self, error: LineError, out: &mut String) -> Result<(), AllocError>
        ensures { OnOk result (string_bytes out.new ≡ string_bytes out.old ++ line_text self.now.lines error) }
    {
        writeln!(out, "line {}: {error}", self.lines)
    }

    fn act(&mut self, line: Line<'_>, out: &mut String) -> Result<(), AllocError>
        ensures { self.new.lines ≡ self.old.lines }
    {
        match line {
            Line::Nothing => Ok(()),
            Line::Case(name) => self.begin(name, out),
            Line::End => self.end(out),
            Line::Setting(setting) => self.set(setting, out),
            Line::Call(call) => self.call(call, out),
        }
    }

    fn begin(&mut self, name: &str, out: &mut String) -> Result<(), AllocError>
        ensures { self.new.lines ≡ self.old.lines }
    {
        match self.stage {
            Stage::Outside => {
                self.stage = Stage::In(Case::new(self.heap));
                writeln!(out, "case {name}")
            }
            _ => self.tell(LineError::WithinCase, out),
        }
    }

    fn end(&mut self, out: &mut String) -> Result<(), AllocError>
        ensures { self.new.lines ≡ self.old.lines }
    {
        match &self.stage {
            Stage::Outside => return self.tell(LineError::OutsideCase, out),
            Stage::In(case) | Stage::Stopped(case) => write_state(self.heap, case, out)?,
        }
        self.stage = Stage::Outside;
        out.push_str("end\n")
    }

    fn set(&mut self, setting: Setting, out: &mut String) -> Result<(), AllocError>
        ensures { self.new.lines ≡ self.old.lines }
    {
        let set = match &mut self.stage {
            Stage::Outside => Err(SettingError::Line(LineError::OutsideCase)),
            Stage::In(case) => case.set(setting),
            Stage::Stopped(_) => Ok(()),
        };
        match set {
            Ok(()) => Ok(()),
            Err(SettingError::Line(error)) => self.tell(error, out),
            Err(SettingError::Numbers(part, error)) => {
                self.stop();
                writeln!(out, "{part} = refuse {} ; 0:", error.number())
            }
        }
    }

    // The case does nothing more.
    fn stop(&mut self)
        ensures { self.new.lines ≡ self.old.lines }
    {
        self.stage = match mem::replace(&mut self.stage, Stage::Outside) {
            Stage::In(case) => Stage::Stopped(case),
            stage => stage,
        };
    }

    fn call(&mut self, call: Call, out: &mut String) -> Result<(), AllocError>
        ensures { self.new.lines ≡ self.old.lines }
    {
        let name = call.name();
        let outcome = match &mut self.stage {
            Stage::Outside => return self.tell(LineError::OutsideCase, out),
            Stage::In(case) => case.call(call),
            Stage::Stopped(_) => return Ok(()),
        };
        match outcome {
            Ok(outcome) => write_outcome(name, &outcome, out),
            Err(_) => self.tell(LineError::NoMemory, out),
        }
    }
}

// A call's line, and the places of its fault.
fn write_outcome(name: &str, outcome: &Outcome, out: &mut String) -> Result<(), AllocError> {
    write!(out, "{name} = {} ; {}:", outcome.answer, outcome.count)?;
    for run in outcome.runs.as_slice() {
        write!(out, " {run}")?;
    }
    out.push_str("\n")?;
    match outcome.answer.fault() {
        Some(fault) => writeln!(out, "{}", Places(fault)),
        None => Ok(()),
    }
}

// What a case has set up, as it is now.
fn write_state(heap: Global, case: &Case, out: &mut String) -> Result<(), AllocError> {
    if let Some(words) = case.image() {
        write_list("image", runs_of(heap, words)?.as_slice(), out)?;
    }
    if let Some(words) = case.bits() {
        write_list("bits", runs_of(heap, words)?.as_slice(), out)?;
    }
    if let Some(bytes) = case.pages() {
        write_list(
            "map",
            runs_of(heap, widened(heap, bytes)?.as_slice())?.as_slice(),
            out,
        )?;
    }
    Ok(())
}

// A list by its runs.
fn write_list(name: &str, runs: &[Repeated], out: &mut String) -> Result<(), AllocError> {
    out.push_str(name)?;
    for run in runs {
        write!(out, " {run}")?;
    }
    out.push_str("\n")
}

#[cfg(test)]
mod tests {
    use super::*;
    use std::test::Fail;

    // What a script prints, run from its first line to its last.
    fn output(heap: Global, text: &[u8]) -> Result<String, AllocError> {
        let mut script = Script::new(heap);
        let mut out = String::new(heap);
        for line in text.split(|byte| *byte == b'\n') {
            script.line(line, &mut out)?;
        }
        script.finish(&mut out)?;
        Ok(out)
    }

    // Scripts that are whole, and those that are not: an empty one, one that is cut off, bytes that are no text, a number
    // of 2^64, a list that is too long, and a layer with nothing below.
    const ROWS: [(&[u8], &str); 9] = [
        (b"", ""),
        (
            b"case one\nmap 0x1000 1*2\nwalk 0x1000 0x3000\nend",
            "case one\nwalk = ok ; 2: 0@0x1000*2\nmap 0x4*2\nend\n",
        ),
        (
            b"case two\nscript 0xC000010000000000 5\nwalk 0 0x200000\nend",
            "case two\nwalk = err 5 Other ; 2: 1@0x0 0@0x0\n  ! 5 layer=host status=0x5 level=0 address=0x0 count=2 part=0 unit=0\nend\n",
        ),
        (
            b"case cut\nsize 1",
            "case cut\nline 2: too few words\nline 3: the last case has no end\n",
        ),
        (
            b"\xff\x00\xfe\nend",
            "line 1: no UTF-8 text\nline 2: outside a case\n",
        ),
        (
            b"case n\ndecode 0x10000000000000000\ndecode 0xFFFFFFFFFFFFFFFF\nend",
            "case n\nline 2: a number of 2^64 or more\ndecode = Other ; 0:\nend\n",
        ),
        (
            b"case l\nbits 1*4194304 1\nbits 3*2 0*0\nbcount\nend",
            "case l\nline 2: a list of more than 4194304 items\nbcount = 4 ; 0:\nbits 0x3*2\nend\n",
        ),
        (
            b"case c\ncap 1\nmap 0 3\nend",
            "case c\nline 2: no map below the layer\nmap 0x3\nend\n",
        ),
        (
            b"case h\nmap 0 3\ncap 3\nwalk 0 0x1000\nend",
            "case h\ncap = refuse 13 ; 0:\nmap 0x3\nend\n",
        ),
    ];

    #[test]
    fn scripts_are_run(rt: HostRuntime) -> Result<(), Fail> {
        for (text, wanted) in ROWS {
            let out = output(rt.alloc(), text)?;
            assert_eq!(rt; out.as_str(), wanted);
        }
        Ok(())
    }
}
