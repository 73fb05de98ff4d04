// Jobs performed in memory to their end, and their sheets: every refusal with its offset, and the bounds of document 01.
// The file stdin has the jobs, a line each; the file stdout has the sheets that document 01 asks for.
#![tactic(auto)]

ghost use Rattle.std.specs.Prelude.{◌<◌, ◌≤◌, IfOk, IfSome, length};

use sheet::run;
use std::alloc::{AllocError, Global};
use std::io;
use std::io::Read;

// A longer line is given as its length and a checksum.
const LONGEST: usize = 120;

// The input is shorter than this, and no job is longer than this.
const INPUT: usize = 16384;

const JOB: usize = 256;

// The sheet of every job that stands there is shorter than this.
const SHEET: usize = 262144;

fn checksum(line: &[u8]) -> u32 {
    line.iter()
        .fold(0, |sum, b| (sum % 65521 * 31 + u32::from(*b)) % 65521)
}

// A line of a sheet, with its line feed.
fn put_line(rt: &impl Print, line: &[u8]) -> io::Result<()> {
    if line.len() <= LONGEST {
        return rt.write_all(line);
    }
    let length = line.len();
    let sum = checksum(line);
    println!(rt; "long {length} {sum}")
}

// Every line of a sheet that has its line feed.
fn put_sheet(rt: &impl Print, sheet: &[u8]) -> io::Result<()> {
    for line in sheet.split_inclusive(|b| *b == b'\n') {
        if line.ends_with(b"\n") {
            put_line(rt, line)?;
        }
    }
    Ok(())
}

// Performs the job and writes its sheet; of one that does not fit nothing.
fn show(rt: &(impl Print + AllocGlobal), name: &[u8], job: &[u8]) -> io::Result<()> {
    rt.write_all(b"-- ")?;
    rt.write_all(name)?;
    rt.write_all(b"\n")?;
    let mut sheet = vec![in rt.alloc(); 0u8; SHEET]?;
    match run(job, &mut sheet) {
        Ok(length) => {
            sheet.truncate(length);
            put_sheet(rt, &sheet)
        }
        Err(_) => Ok(()),
    }
}

// The value of a hex digit, which is a capital where it is a letter.
fn digit(b: u8) -> Option<u8>
    ensures { IfSome result (λ v. v < 16) }
{
    match b {
        b'0'..=b'9' => Some(b - b'0'),
        b'A'..=b'F' => Some(b - b'A' + 10),
        _ => None,
    }
}

// The byte that two digits make.
fn byte(digits: &[u8]) -> Option<u8> {
    let [high, low] = digits else {
        return None;
    };
    Some((digit(*high)? << 4) | digit(*low)?)
}

// The job whose bytes stand there in hex, with blanks and | between bytes; none where something else stands there, or more
// than a job holds.
fn parse(alloc: Global, hex: &[u8]) -> Result<Option<Vec<u8>>, AllocError> {
    let mut job = Vec::new(alloc);
    for word in hex.split(|b| *b == b' ' || *b == b'|') {
        for digits in word.chunks(2) {
            let Some(b) = byte(digits) else {
                return Ok(None);
            };
            job.push(b)?;
        }
    }
    if JOB < job.len() {
        return Ok(None);
    }
    Ok(Some(job))
}

fn malformed(rt: &impl Print, line: &[u8]) -> io::Result<()> {
    rt.write_all(b"malformed: ")?;
    rt.write_all(line)?;
    rt.write_all(b"\n")
}

// A line `name: bytes in hex`. An empty line and one that begins with # are passed over.
fn case(rt: &(impl Print + AllocGlobal), line: &[u8]) -> io::Result<()> {
    if line.is_empty() || line.starts_with(b"#") {
        return Ok(());
    }
    let Some(colon) = line.iter().position(|b| *b == b':') else {
        return malformed(rt, line);
    };
    match parse(rt.alloc(), &line[colon + 1..])? {
        Some(job) => show(rt, &line[..colon], &job),
        None => malformed(rt, line),
    }
}

// Reads until the text is full or the input ends, each time as much as there is room for; how many bytes were read. Not `read_to_end`, which
// asks for a few at a time: a pipe that hands over whole packets drops what a read leaves of one.
fn read_full(rt: &HostRuntime, text: &mut [u8]) -> io::Result<usize>
    ensures { IfOk result (λ read. read ≤ length text.new) }
{
    let mut read = 0;
    while read < text.len() {
        let count = rt.stdin().read(&mut text[read..])?;
        if count == 0 {
            break;
        }
        read += count;
    }
    Ok(read)
}

fn main(rt: HostRuntime) -> io::Result<()> {
    let mut text = [0u8; INPUT];
    let length = read_full(&rt, &mut text)?;
    if length == INPUT {
        return malformed(&rt, b"the input is too long");
    }
    for line in text[..length].split(|b| *b == b'\n') {
        case(&rt, line)?;
    }
    Ok(())
}
