// The console of the unit: calls from the file that it is given, or from standard input, one to a line, and an answer line for each.
#![tactic(auto)]

ghost use Rattle.std.specs.Prelude.{◌≡◌, ◌<◌, length, MatchOption, slice_index};
ghost use Rattle.sil.specs.Lines.{Unended};

use anyhow::anyhow;
use console::respond;
use line::LineBuffer;
use sheet::Sheet;
use std::env;
use std::fs::File;
use std::io::{BufRead, BufReader};
use std::process::ExitCode;

// How many bytes stand before the first end of a line, if one ends here.
fn line_end(bytes: &[u8]) -> Option<usize>
    ensures { MatchOption result (Unended bytes.now (length bytes.now)) (λ n. (n < length bytes.now) × (slice_index bytes.now n ≡ 10) × Unended bytes.now n) }
{
    bytes.iter().position(|b| *b == b'\n')
}

// Prints the answer to a line that has come in whole.
fn reply(rt: &HostRuntime, sheet: &mut Sheet, line: &mut LineBuffer) -> anyhow::Result<()> {
    if let Some(answer) = respond(sheet, line) {
        println!(rt; "{answer}")?;
    }
    Ok(())
}

// Answers every line of the input as soon as it has come in. The last one may have no end.
fn serve<R: BufRead + Drop>(rt: &HostRuntime, input: R) -> anyhow::Result<()> {
    let mut input = input;
    let mut sheet = Sheet::new(rt.alloc())?;
    let mut line = LineBuffer::new(rt.alloc())?;
    // nothing says that an input ends, so the turns are counted; the library's `lines` would keep a line of any length
    for _ in 0..u64::MAX {
        let part = input.fill_buf()?;
        if part.is_empty() {
            break;
        }
        match line_end(part) {
            Some(n) => {
                line.add(&part[0..n]);
                input.consume(n + 1);
                reply(rt, &mut sheet, &mut line)?;
            }
            None => {
                line.add(part);
                let n = part.len();
                input.consume(n);
            }
        }
    }
    reply(rt, &mut sheet, &mut line)
}

fn run(rt: &HostRuntime) -> anyhow::Result<()> {
    let mut args = env::args(rt)?;
    let _ = args.next();
    let path = args.next();
    if args.next().is_some() {
        return Err(anyhow!("usage: sil [FILE]"));
    }
    match path {
        Some(path) => serve(
            rt,
            BufReader::new(rt.alloc(), File::open(rt, path.as_str())?)?,
        ),
        None => serve(rt, BufReader::new(rt.alloc(), rt.stdin())?),
    }
}

// What goes wrong outside a line, as a file that is not there, is told on standard error and ends the program with status 1.
fn main(rt: HostRuntime) -> anyhow::Result<ExitCode> {
    if let Err(why) = run(&rt) {
        eprintln!(rt; "sil: {why}")?;
        return Ok(ExitCode::FAILURE);
    }
    Ok(ExitCode::SUCCESS)
}
