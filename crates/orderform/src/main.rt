// orderform: reads order lines from standard input, and says of each whether it is well formed, or which rule it breaks at which
// byte. It judges the form and the size of the numbers only; whether an order means something is for the browser to say.
#![tactic(auto)]

use faults::{Fault, Refusal};
use orderlines::check_order;
use std::io::Read;
use std::{fmt, io};

// Bytes as a terminal shows each of them.
#[derive(Clone, Copy, Debug, PartialEq, Eq)]
struct Quoted<'a>(&'a [u8]);

// The characters that a terminal shows as they are, in the order of their bytes.
const PLAIN: &str =
    " !\"#$%&'()*+,-./0123456789:;<=>?@ABCDEFGHIJKLMNOPQRSTUVWXYZ[\\]^_`abcdefghijklmnopqrstuvwxyz{|}~";

// The text of a byte, if a terminal shows it as it is: a line can have many of them, and to encode each one anew takes longer.
fn plain(b: u8) -> Option<&'static str> {
    let i = usize::from(b.wrapping_sub(b' '));
    PLAIN.get(i..i + 1)
}

impl fmt::Display for Quoted<'_> {
    fn fmt<W: fmt::Write>(&self, f: &mut fmt::Formatter<W>) -> fmt::Result {
        for b in self.0 {
            match *b {
                b'\t' => f.write_str("\\t")?,
                b'\r' => f.write_str("\\r")?,
                other => match plain(other) {
                    Some(text) => f.write_str(text)?,
                    None => f.write_char(char::from(other))?,
                },
            }
        }
        Ok(())
    }
}

// What is wrong with a line.
#[derive(Clone, Copy, Debug, PartialEq, Eq)]
struct Refused<'a> {
    line: &'a [u8],
    fault: Fault,
}

impl fmt::Display for Refused<'_> {
    fn fmt<W: fmt::Write>(&self, f: &mut fmt::Formatter<W>) -> fmt::Result {
        let number = u32::from(self.fault.refusal);
        let place = self.fault.place;
        let before = Quoted(self.line.get(..place).unwrap_or(&[]));
        write!(f, "refused by rule {number}, ")?;
        match self.fault.refusal {
            Refusal::InputTooLong => write!(f, "it has more than 65,536 bytes"),
            Refusal::NumberTooFar => write!(
                f,
                "a number beyond 999,999,999 follows its first {place} bytes: {before}"
            ),
            _ => write!(
                f,
                "it makes sense as an order only up to its first {place} bytes: {before}"
            ),
        }
    }
}

// Says of one line whether it is well formed.
fn judge(rt: &HostRuntime, number: usize, line: &[u8]) -> io::Result<()> {
    match check_order(line) {
        Ok(count) => println!(rt; "{number}: well formed; numbers: {count}"),
        Err(fault) => {
            let refused = Refused { line, fault };
            println!(rt; "{number}: {refused}")
        }
    }
}

// Judges every line; a line feed at the end of the input begins no further one.
fn judge_all(rt: &HostRuntime, input: &[u8]) -> io::Result<()> {
    if input.is_empty() {
        return Ok(());
    }
    let lines = input.strip_suffix(b"\n").unwrap_or(input);
    for (number, line) in (1usize..).zip(lines.split(|b| *b == b'\n')) {
        judge(rt, number, line)?;
    }
    Ok(())
}

fn main(rt: HostRuntime) -> io::Result<()> {
    let mut input = Vec::new(rt.alloc());
    rt.stdin().read_to_end(&mut input)?;
    judge_all(&rt, input.as_slice())
}
