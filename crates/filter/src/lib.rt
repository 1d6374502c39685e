// What programs do at their edges: an argument asks for the usage, standard input is read, standard output is written. What fails is told of on standard
// error, as PROGRAM: standard input: REASON, and the program ends with status 1. Those that only the gate runs end with 0 all the same.
#![tactic(auto)]

ghost use Rattle.std.specs.Prelude.{◌≡◌, ◌≤◌};
ghost use Rattle.std.specs.Io.{ReadsAtMost};
ghost use Rattle.std.specs.Process.{exit_status};
ghost use Rattle.filter.specs.Edges.{Asked, Written, Within, status_of};

use std::env::{Env, FillError};
use std::fmt::Display;
use std::io;
use std::io::{ErrorKind, Read};
use std::process::ExitCode;

// A read or a write failed. Standard error was told why, unless it was that nobody reads a pipe any more.
#[derive(Clone, Copy, Debug, PartialEq, Eq)]
pub struct Failed;

// The status that a program ends with: 0, or 1 where a read or a write failed.
pub fn status(done: Result<(), Failed>) -> ExitCode
    ensures { exit_status result ≡ status_of done }
{
    match done {
        Ok(()) => ExitCode::SUCCESS,
        Err(Failed) => ExitCode::FAILURE,
    }
}

// What an error's text says in words: the system's errors have their number in brackets behind it.
fn in_words(text: &str) -> &str {
    text.split_once(" (os error ")
        .map_or(text, |(words, _)| words)
}

// The edges of a program: the system, as `main` is given it, and the program's name.
#[derive(Drop)]
pub struct Edges<'a, R> {
    // the system, as `main` is given it
    pub rt: &'a R,
    // the program's name, as errors say it
    pub program: &'a [u8],
}

impl<R: Eprint> Edges<'_, R> {
    // The line on standard error.
    fn say<D: Display + Drop>(&self, edge: &str, reason: D) {
        let name = self.program.escape_ascii();
        let _ = eprintln!(self.rt; "{name}: {edge}: {reason}");
    }
}

impl<R: Eprint + Alloc> Edges<'_, R> {
    // Tells why a call failed on one of the program's edges, and answers that it failed.
    fn told(&self, edge: &str, error: io::Error) -> Failed {
        match error.to_string(self.rt.alloc()) {
            Ok(text) => self.say(edge, in_words(text.as_str())),
            Err(_) => self.say(edge, error),
        }
        Failed
    }
}

impl<R: Print + Eprint + Alloc> Edges<'_, R> {
    // Writes all of these bytes to standard output. Of a pipe that nobody reads any more nothing is told.
    pub fn write(&self, bytes: &[u8]) -> Result<(), Failed>
        ensures { Written bytes.now result }
    {
        if bytes.is_empty() {
            return Ok(());
        }
        match self.rt.write_all(bytes) {
            Ok(()) => Ok(()),
            Err(error) if error.kind() == ErrorKind::BrokenPipe => Err(Failed),
            Err(error) => Err(self.told("standard output", error)),
        }
    }

    // Prints the usage if the program has an argument, and answers whether it has: then there is nothing to read. The first of the words that it was started
    // with (`word_count`) is its own name.
    pub fn print_usage(&self, words: usize, usage: &[u8]) -> Result<bool, Failed>
        ensures { Asked words result }
    {
        if words <= 1 {
            return Ok(false);
        }
        self.write(usage)?;
        Ok(true)
    }
}

impl<R: Env> Edges<'_, R> {
    // Whether the program was started with a word at this place; at 0 stands its own name.
    fn has_word(&self, i: usize) -> bool {
        !matches!(self.rt.arg(i, &mut [0u8; 1]), Err(FillError::NotPresent))
    }

    // How many words the program was started with: its own name, and its arguments.
    pub fn word_count(&self) -> usize
        ensures { 1 ≤ result }
    {
        (1..usize::MAX)
            .find(|i| !self.has_word(*i))
            .unwrap_or(usize::MAX)
    }
}

// Whether a read that gave this was interrupted before a byte came.
fn is_interrupted(got: &io::Result<usize>) -> bool {
    matches!(got, Err(error) if error.kind() == ErrorKind::Interrupted)
}

// A read; one that was interrupted is made again. A proved loop has to end: this one has more turns than any run uses up.
fn read_once<I: Read>(input: &mut I, buf: &mut [u8]) -> io::Result<usize>
    ensures { ReadsAtMost result buf.new }
{
    for _ in 0..u64::MAX {
        let got = input.read(buf);
        if !is_interrupted(&got) {
            return got;
        }
    }
    input.read(buf)
}

impl<R: io::Input + Eprint + Alloc> Edges<'_, R> {
    // Reads what there is on standard input, once there is some: so many bytes at the start of the buffer, none where the input is over.
    pub fn read(&self, buf: &mut [u8]) -> Result<usize, Failed>
        ensures { Within result buf.new }
    {
        read_once(&mut self.rt.reader(), buf).map_err(|error| self.told("standard input", error))
    }

    // Reads standard input until the buffer is full or the input is over: so many bytes at the start of the buffer.
    pub fn read_full(&self, buf: &mut [u8]) -> Result<usize, Failed>
        ensures { Within result buf.new }
    {
        let mut done: usize = 0;
        while done < buf.len() {
            let n = self.read(&mut buf[done..])?;
            if n == 0 {
                break;
            }
            done += n;
        }
        Ok(done)
    }
}

#[cfg(test)]
mod tests {
    use super::*;
    use std::test::Fail;

    // An input that is interrupted so many times, and then has a byte, time and again.
    #[derive(Drop)]
    struct Interrupted {
        times: u8,
    }

    impl Read for Interrupted {
        fn read(&mut self, buf: &mut [u8]) -> io::Result<usize> {
            if self.times > 0 {
                self.times -= 1;
                return Err(io::Error::from(ErrorKind::Interrupted));
            }
            if buf.is_empty() {
                return Ok(0);
            }
            buf[0] = b'x';
            Ok(1)
        }
    }

    // An input that can't be read, and how often this was tried.
    #[derive(Drop)]
    struct Failing {
        tries: u8,
    }

    impl Read for Failing {
        fn read(&mut self, _buf: &mut [u8]) -> io::Result<usize> {
            self.tries = self.tries.saturating_add(1);
            Err(io::Error::from_raw_os_error(21))
        }
    }

    #[test]
    fn an_interrupted_read_is_made_again(rt: HostRuntime) -> Result<(), Fail> {
        let mut buf = [0u8; 4];
        let n = read_once(&mut Interrupted { times: 3 }, &mut buf)?;
        assert_eq!(rt; n, 1);
        assert_eq!(rt; buf, [b'x', 0, 0, 0]);
        Ok(())
    }

    #[test]
    fn a_read_that_fails_is_made_once(rt: HostRuntime) -> Result<(), Fail> {
        let mut buf = [0u8; 4];
        let mut input = Failing { tries: 0 };
        let kind = read_once(&mut input, &mut buf)
            .err()
            .map(|error| error.kind());
        assert_eq!(rt; kind, Some(ErrorKind::IsADirectory));
        assert_eq!(rt; input.tries, 1);
        Ok(())
    }

    #[test]
    fn an_error_is_told_of_in_words(rt: HostRuntime) -> Result<(), Fail> {
        let error = io::Error::from_raw_os_error(28);
        let text = error.to_string(rt.alloc())?;
        assert_eq!(rt; in_words(text.as_str()), "No space left on device");
        assert_eq!(rt; in_words("out of memory"), "out of memory");
        Ok(())
    }
}
