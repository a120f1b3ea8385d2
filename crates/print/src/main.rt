// Judges the files `sheet` and `record` of the folder that it is run in, and prints the answer's line, or why a file could
// not be judged.
#![tactic(auto)]

ghost use Rattle.io.specs.Counts.{IsPrefixLen};
ghost use Rattle.print.specs.Reading.{Read};

use std::fs::File;
use std::rt::Files;
use std::{fmt, io};

// The most bytes of a file that is judged.
const MOST: usize = 65536;

// One byte more, so that a full buffer is a file that is too long.
const SPACE: usize = MOST + 1;

// Why a file cannot be judged, and how many of its bytes stand at the start of the buffer.
#[derive(Clone, Copy)]
enum Trouble {
    TooLong(usize),
    Unreadable(usize),
}

impl fmt::Display for Trouble {
    fn fmt<W: fmt::Write>(&self, f: &mut fmt::Formatter<W>) -> fmt::Result {
        f.write_str(match self {
            Trouble::TooLong(_) => "too long",
            Trouble::Unreadable(_) => "cannot read",
        })
    }
}

// Reads until the buffer is full or reading stops, and answers how many bytes were read. By hand: the sequence of reads is to stay
// (docs/PORT.md), and of std's methods `read_exact` does not tell how many bytes came, and `read_to_end` allocates.
fn read_full<R: io::Read>(reader: &mut R, buf: &mut [u8]) -> usize
    ensures { IsPrefixLen result buf.new }
{
    let mut size = 0;
    while size < buf.len() {
        match reader.read(&mut buf[size..]) {
            Ok(0) => return size,
            Ok(n) => size += n,
            Err(_) => return size,
        }
    }
    size
}

// Reads until the buffer is full or reading stops, and answers how many bytes the file has. It stops at the end of the file or at
// a failure, and one more read tells which: only at the end does it answer 0.
fn read_all<R: io::Read>(reader: &mut R, buf: &mut [u8]) -> Result<usize, Trouble>
    ensures { Read result buf.new }
{
    let size = read_full(reader, buf);
    if size == buf.len() {
        return Err(Trouble::TooLong(size));
    }
    let mut rest = [0u8; 1];
    match reader.read(&mut rest) {
        Ok(0) => Ok(size),
        _ => Err(Trouble::Unreadable(size)),
    }
}

// Reads the file of this name.
fn read_file<R: Files>(rt: &R, name: &str, buf: &mut [u8]) -> Result<usize, Trouble>
    ensures { Read result buf.new }
{
    let mut file = File::open(rt, name).map_err(|_| Trouble::Unreadable(0))?;
    read_all(&mut file, buf)
}

fn print_answer<R: Print>(rt: &R, sheet: &[u8], record: &[u8]) -> io::Result<()> {
    let answer = checker::judge(sheet, record);
    let mut text = [0u8; lines::LINE];
    let size = lines::line(answer, &mut text);
    rt.write_all(&text[..size])
}

fn main(rt: HostRuntime) -> io::Result<()> {
    let mut sheet = [0u8; SPACE];
    let mut record = [0u8; SPACE];
    let of_sheet = read_file(&rt, "sheet", &mut sheet);
    let of_record = read_file(&rt, "record", &mut record);
    // where both files fail, the sheet's message alone
    match (of_sheet, of_record) {
        (Ok(a), Ok(b)) => print_answer(&rt, &sheet[..a], &record[..b]),
        (Err(trouble), _) => println!(rt; "{trouble} sheet"),
        (Ok(_), Err(trouble)) => println!(rt; "{trouble} record"),
    }
}
