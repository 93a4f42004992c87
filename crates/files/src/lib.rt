// Files that arguments name and the standard streams, read whole into a lent buffer and written from one.
#![tactic(auto)]

ghost use Rattle.std.specs.Prelude.{◌≤◌, length, IfOk, IfErr, MatchResult};
ghost use Rattle.io.specs.Counts.{IsPrefixLen};
ghost use Rattle.files.specs.Failures.{OfInput, OfOutput, OfFile};

use arrayvec::{ArrayString, ArrayVec};
use std::env::{Env, FillError};
use std::fmt::Write as FmtWrite;
use std::fs::File;
use std::io::{Read, Write};
use std::{error, fmt, fs, io};

// What a program reads and writes: the standard streams, an argument, the file that one names.
#[derive(Debug, Drop)]
pub enum Place {
    Input,
    Output,
    Argument,
    File(FileName),
}

// The name of a file, a text, in the value itself: no heap is needed where reading or writing failed.
// The bytes are an `ArrayVec`: callers that hand on an enum with an `ArrayString` or an array get no proof.
#[derive(Debug, Drop)]
pub struct FileName {
    bytes: ArrayVec<u8, NAME>,
}

// Why a program reads or writes nothing: it was called in another way than its help says; or reading or writing failed there.
#[derive(Debug, Drop)]
pub enum Failure {
    Usage,
    Io(Place, io::Error),
}

// The system's numbers of an argument that is not there, of one that is too long, and of one that is no text.
const INVALID: i32 = 22;

const TOO_LONG: i32 = 36;

const NO_TEXT: i32 = 84;

// The longest name of a file, with a byte after it.
const NAME: usize = 4096;

// The longest text of an error.
const TEXT: usize = 320;

impl fmt::Display for FileName {
    fn fmt<W: fmt::Write>(&self, f: &mut fmt::Formatter<W>) -> fmt::Result {
        match str::from_utf8(self.bytes.as_slice()) {
            Ok(name) => write!(f, "{name}"),
            Err(_) => Err(fmt::Error),
        }
    }
}

impl fmt::Display for Place {
    fn fmt<W: fmt::Write>(&self, f: &mut fmt::Formatter<W>) -> fmt::Result {
        match self {
            Place::Input => write!(f, "standard input"),
            Place::Output => write!(f, "standard output"),
            Place::Argument => write!(f, "an argument"),
            Place::File(path) => write!(f, "{path}"),
        }
    }
}

// The words of an error, without the system's number after them.
fn words(text: &str) -> &str {
    match text.split_once(" (os error ") {
        Some((words, _)) => words,
        None => text,
    }
}

impl fmt::Display for Failure {
    fn fmt<W: fmt::Write>(&self, f: &mut fmt::Formatter<W>) -> fmt::Result {
        match self {
            Failure::Usage => write!(f, "called in another way than the help says"),
            Failure::Io(place, why) => {
                let mut text = ArrayString::<TEXT>::new();
                write!(text, "{why}")?;
                let words = words(text.as_str());
                write!(f, "{place}: {words}")
            }
        }
    }
}

impl error::Error for Failure {}

// As many bytes as the buffer has places for, or all that are left to read; how many.
fn fill<R: Read>(from: &mut R, buf: &mut [u8]) -> io::Result<usize>
    ensures { IfOk result (λ n. IsPrefixLen n buf.new) }
{
    let mut done = 0;
    while done < buf.len() {
        match from.read(&mut buf[done..])? {
            0 => break,
            n => done += n,
        }
    }
    Ok(done)
}

// How many words a program was called with, its own name among them.
pub fn arg_count(rt: &HostRuntime) -> usize {
    for i in 0..usize::MAX {
        if let Err(FillError::NotPresent) = rt.arg(i, &mut []) {
            return i;
        }
    }
    usize::MAX
}

// Standard input, for a program that takes no arguments; how many bytes. Where it was given any, nothing is read.
pub fn input(rt: &HostRuntime, buf: &mut [u8]) -> Result<usize, Failure>
    ensures { MatchResult result (λ n. IsPrefixLen n buf.new) OfInput }
{
    if arg_count(rt) != 1 {
        return Err(Failure::Usage);
    }
    fill(&mut rt.stdin(), buf).map_err(|why| Failure::Io(Place::Input, why))
}

// Argument i, in the front of a buffer. An argument that is too long or no text has an error of its own, which the `Args` of std do not tell apart.
fn name<'a>(rt: &HostRuntime, i: usize, buf: &'a mut [u8; NAME]) -> io::Result<&'a str>
    ensures { IfOk result (λ s. length s.now ≤ NAME) }
{
    let n = match rt.arg(i, buf) {
        Ok(n) => n,
        Err(FillError::NotPresent) => return Err(io::Error::from_raw_os_error(INVALID)),
        Err(FillError::TooLong) => return Err(io::Error::from_raw_os_error(TOO_LONG)),
    };
    str::from_utf8(&buf[..n]).map_err(|_| io::Error::from_raw_os_error(NO_TEXT))
}

fn path<'a>(rt: &HostRuntime, i: usize, buf: &'a mut [u8; NAME]) -> Result<&'a str, Failure>
    ensures { MatchResult result (λ s. length s.now ≤ NAME) OfFile }
{
    name(rt, i, buf).map_err(|why| Failure::Io(Place::Argument, why))
}

// What failed at a file. Only here is its name copied.
fn at_file(path: &str, why: io::Error) -> Failure
    requires { length path.now ≤ NAME }
    ensures { OfFile result }
{
    let mut bytes = ArrayVec::new();
    if bytes.try_extend_from_slice(path.as_bytes()).is_err() {
        unreachable!();
    }
    Failure::Io(Place::File(FileName { bytes }), why)
}

// The bytes of the file that argument i names; how many.
pub fn load(rt: &HostRuntime, i: usize, buf: &mut [u8]) -> Result<usize, Failure>
    ensures { MatchResult result (λ n. IsPrefixLen n buf.new) OfFile }
{
    let mut name = [0u8; NAME];
    let path = path(rt, i, &mut name)?;
    match load_named(rt, path, buf) {
        Ok(n) => Ok(n),
        Err(why) => Err(at_file(path, why)),
    }
}

fn load_named(rt: &HostRuntime, path: &str, buf: &mut [u8]) -> io::Result<usize>
    ensures { IfOk result (λ n. IsPrefixLen n buf.new) }
{
    fill(&mut File::open(rt, path)?, buf)
}

// All bytes to standard output.
pub fn output(rt: &HostRuntime, bytes: &[u8]) -> Result<(), Failure>
    ensures { IfErr result OfOutput }
{
    rt.stdout()
        .write_all(bytes)
        .map_err(|why| Failure::Io(Place::Output, why))
}

// All bytes to the file that argument i names.
pub fn store(rt: &HostRuntime, i: usize, bytes: &[u8]) -> Result<(), Failure>
    ensures { IfErr result OfFile }
{
    let mut name = [0u8; NAME];
    let path = path(rt, i, &mut name)?;
    match fs::write(rt, path, bytes) {
        Ok(()) => Ok(()),
        Err(why) => Err(at_file(path, why)),
    }
}
