// The report program's files: a file read whole into a lent buffer, and out.bin written whole or not at all.
// `save` and `print` take the summary for their contracts alone: these ask that what they are handed is its result or its text.
// std's contracts say nothing of what a call on a file reads or writes, so only code and tests/report show the rest: that `read_file`
// hands over what the file holds, that `save` puts its octets into out.bin and flushes them, and that `print` puts its
// letters on standard output. Proved of that is that nothing goes out of bounds and that every loop ends.
ghost use Rattle.std.specs.Prelude.{◌≤◌, length, IfOk, IfSome};
ghost use Rattle.report.specs.Delivery.{Saves, Prints};

use arrayvec::ArrayString;
use report_spec::Summary;
use std::fmt::Write as _;
use std::fs::OpenFile;
use std::io::{Read, Write};
use std::rt::Files;
use std::{fs, io};

// The system's numbers of the two failures that a flush of the folder may have: it may not be read, and it has no flush.
const EACCES: i32 = 13;

const EINVAL: i32 = 22;

// What a line on standard error says of each failure: what is not done, and what to do.
const NOT_SAVED: &str =
    "report: out.bin is not written, so there is no report; make room and permission for out.bin and out.bin.part in this folder, then run again";

const NOT_FLUSHED: &str =
    "report: out.bin is written, but its folder is not flushed to the disk, so there is no report; see to the disk, then run again";

const NOT_PRINTED: &str =
    "report: standard output can't be written; make room for it, then run again";

// Reads the file of this name into the buffer and hands over its octets: nothing where they are not the whole file, since it can't be
// opened, a read fails at any point, or the file is longer than the buffer.
pub fn read_file<'a>(rt: &impl Files, name: &str, buf: &'a mut [u8]) -> Option<&'a [u8]>
    ensures { IfSome result (λ octets. length octets.now ≤ length buf.old) }
{
    let mut file = fs::open(rt, name).ok()?;
    read_open(&mut file, buf).ok()?
}

// Reads until the file ends, a read fails or the buffer is full. A read's failure is told from its end, since a folder can be
// opened and only its read fails.
// stays: a loop over places (no heap: std's other reads to a file's end fill a Vec, and `io::copy` says nothing of how many octets came).
fn read_open<'a>(file: &mut impl Read, buf: &'a mut [u8]) -> io::Result<Option<&'a [u8]>>
    ensures { IfOk result (λ read. IfSome read (λ octets. length octets.now ≤ length buf.old)) }
{
    let mut at = 0;
    while at < buf.len() {
        match file.read(&mut buf[at..])? {
            0 => return Ok(Some(&buf[..at])),
            n => at += n,
        }
    }
    Ok(at_end(file)?.then_some(&*buf))
}

// Whether nothing is left to read.
fn at_end(file: &mut impl Read) -> io::Result<bool> {
    let mut spare = [0u8; 1];
    Ok(file.read(&mut spare)? == 0)
}

// Writes out.bin whole, flushes it, and its folder where that has a flush, and answers true. Where that fails, answers false:
// an out.bin that was there stays as it was (unless only the folder's flush failed), no side file stays, and one line on
// standard error says what to do.
pub fn save(rt: &(impl Files + Eprint), told: Summary, octets: &[u8]) -> bool
    requires { Saves told octets.now }
{
    let part = match fs::create(rt, "out.bin.part") {
        Ok(part) => part,
        Err(error) => return fail(rt, NOT_SAVED, error),
    };
    match write_and_close(part, octets).and_then(|()| fs::rename(rt, "out.bin.part", "out.bin")) {
        Ok(()) => flush_folder(rt),
        Err(error) => {
            fail(rt, NOT_SAVED, error);
            let _ = fs::remove_file(rt, "out.bin.part");
            false
        }
    }
}

// Every write is checked, and the flush too: some systems only then say that there was no room. The flush comes before the
// rename, so that after a power cut out.bin is the old one or the new one, and whole. std closes the file here and does not
// hand on what the close says; what was written is on the disk by then.
fn write_and_close<F: Write + OpenFile + Drop>(mut part: F, octets: &[u8]) -> io::Result<()> {
    part.write_all(octets)?;
    part.sync_all()
}

// Flushes the folder, so that the new out.bin stays after a power cut. Where it may not be read, or has no flush (EINVAL),
// nothing has failed and the report goes on. Any other failure is told: out.bin is then the new one, and nothing is printed.
fn flush_folder(rt: &(impl Files + Eprint)) -> bool {
    match fs::open(rt, ".") {
        Ok(folder) => match folder.sync_all() {
            Ok(()) => true,
            Err(error) => error.raw_os_error() == Some(EINVAL) || fail(rt, NOT_FLUSHED, error),
        },
        Err(error) => error.raw_os_error() == Some(EACCES) || fail(rt, NOT_FLUSHED, error),
    }
}

// Prints a text, or says on standard error that it could not be printed.
pub fn print(rt: &(impl Print + Eprint), told: Summary, letters: &[u8])
    requires { Prints told letters.now }
{
    if let Err(error) = rt.write_all(letters) {
        fail(rt, NOT_PRINTED, error);
    }
}

// Writes a line to standard error: what failed, a colon and the system's words for why, without the number that std puts
// behind them. Where standard error can't be written, nobody can be told. Answers false, as what failed does.
fn fail(rt: &impl Eprint, what: &str, error: io::Error) -> bool {
    let mut words = ArrayString::<256>::new();
    let _ = write!(words, "{error}");
    let words = words.as_str();
    let why = words
        .rsplit_once(" (os error ")
        .map_or(words, |(why, _)| why);
    let _ = eprintln!(rt; "{what}: {why}");
    false
}
