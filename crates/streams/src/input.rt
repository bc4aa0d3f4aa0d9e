// The input of a program: the files that its arguments name, one after the other, or standard input where none is named.
ghost use Rattle.std.specs.Prelude.{IfOk};
ghost use Rattle.io.specs.Counts.{IsPrefixLen};
ghost use Rattle.std.specs.Io.{ReadsAtMost};
ghost use Rattle.streams.specs.Gathering.{Passes};

use crate::{Output, arguments, fail, say};
use std::fs;
use std::fs::File;
use std::io::{Error, ErrorKind, Read, Seek, SeekFrom};
use std::os::unix::fs::FileTypeExt;

// Where bytes come from.
#[derive(Drop)]
enum Source {
    // nothing more can be read: a file could not be opened or read
    Closed,
    Standard,
    // closed where it is dropped
    Named(File),
}

// What is read now.
#[derive(Drop)]
pub struct Input {
    // what it reads by: the handle of `main`, which takes no bytes
    rt: HostRuntime,
    source: Source,
    // the argument that names it; none for standard input
    name: Option<usize>,
    // the argument that names what comes after it, if one may
    next: Option<usize>,
    // somebody may wait for an answer before more of it comes: so it is where it has no position, as a pipe or a terminal
    awaited: bool,
    // all of it was read
    ended: bool,
}

// The input could not be opened or read, or the output not be written; this was told.
#[derive(Clone, Copy, PartialEq, Eq, Debug)]
pub enum Failed {
    Input,
    Output,
}

// ---- files

// The numbers of two errors of the system: a name that is longer than any file's, and a read of what is not open.
const NAME_TOO_LONG: i32 = 36;

const NOT_OPEN: i32 = 9;

// A name has fewer bytes than this.
const PATH_MAX: usize = 4096;

// A file that could not be opened or read, and why.
fn tell(rt: &HostRuntime, what: &[u8], name: &[u8], error: Error) {
    let mut line = Output::<8192>::new(rt);
    line.put(what);
    line.put(name);
    line.put(b"'");
    fail(rt, line.gathered(), error);
}

// The file of this name. The library takes a name as text, so a file whose name is not UTF-8 cannot be opened by it.
fn open(rt: &HostRuntime, name: &[u8]) -> Result<File, Error> {
    if name.len() >= PATH_MAX {
        return Err(Error::from_raw_os_error(NAME_TOO_LONG));
    }
    match str::from_utf8(name) {
        Ok(path) => fs::open(rt, path),
        Err(_) => Err(Error::new(ErrorKind::InvalidFilename, "its name is not UTF-8")),
    }
}

// Standard input, from where it stands. The library does not tell its position, only what it is: a file, a folder and a device for blocks have one.
// Of anything else it is taken that somebody may wait, which costs at most more writes.
fn standard(rt: &HostRuntime, next: Option<usize>) -> Input {
    let awaited = match fs::metadata(rt, "/dev/stdin") {
        Ok(found) => !found.is_file() && !found.is_dir() && !found.file_type().is_block_device(),
        Err(_) => true,
    };
    Input {
        rt: *rt,
        source: Source::Standard,
        name: None,
        next,
        awaited,
        ended: false,
    }
}

// An open file.
fn of(rt: &HostRuntime, mut file: File, name: usize, next: Option<usize>) -> Input {
    let awaited = file.seek(SeekFrom::Current(0)).is_err();
    Input {
        rt: *rt,
        source: Source::Named(file),
        name: Some(name),
        next,
        awaited,
        ended: false,
    }
}

// The file that argument i names. `-` names standard input.
fn opened(rt: &HostRuntime, i: usize, next: Option<usize>) -> Result<Input, Failed> {
    let mut name = [0u8; PATH_MAX];
    let n = arguments::word(rt, i, &mut name).unwrap_or(0);
    if n == 1 && name[0] == b'-' {
        return Ok(standard(rt, next));
    }
    match open(rt, &name[..n]) {
        Ok(file) => Ok(of(rt, file, i, next)),
        Err(error) => {
            tell(rt, b"cannot open '", &name[..n], error);
            Err(Failed::Input)
        }
    }
}

impl Source {
    // One read, as much as there is.
    fn read(&self, rt: &HostRuntime, buffer: &mut [u8]) -> Result<usize, Error>
        ensures counts { ReadsAtMost result buffer.new }
    {
        match self {
            Source::Closed => Err(Error::from_raw_os_error(NOT_OPEN)),
            Source::Standard => {
                let mut input = rt.stdin();
                input.read(buffer)
            }
            Source::Named(file) => {
                let mut input = file;
                input.read(buffer)
            }
        }
    }
}

impl Input {
    // The files that the arguments from number i on name; where there is none, standard input.
    pub fn from(rt: &HostRuntime, i: usize) -> Result<Input, Failed> {
        if arguments::is_given(rt, i) {
            return opened(rt, i, i.checked_add(1));
        }
        Ok(standard(rt, None))
    }

    // The file that argument i names, alone: none comes after it. It is for a program to which each file is one thing by itself.
    pub fn file(rt: &HostRuntime, i: usize) -> Result<Input, Failed> {
        opened(rt, i, None)
    }

    // The argument that names the file after this one, where it is given.
    fn following(&self) -> Option<usize> {
        match self.next {
            Some(i) if arguments::is_given(&self.rt, i) => Some(i),
            _ => None,
        }
    }

    // ---- bytes

    // A read failed, which is told with the file's name.
    fn tell_read(&self, error: Error) {
        let Some(i) = self.name else {
            fail(&self.rt, b"cannot read standard input", error);
            return;
        };
        let mut name = [0u8; PATH_MAX];
        let n = arguments::word(&self.rt, i, &mut name).unwrap_or(0);
        tell(&self.rt, b"cannot read '", &name[..n], error);
    }

    // Input is read once, as much as there is.
    pub fn read_once(&self, buffer: &mut [u8]) -> Result<usize, Failed>
        ensures counts { IfOk result (λ n. IsPrefixLen n buffer.new) }
    {
        match self.source.read(&self.rt, buffer) {
            Ok(n) => Ok(n),
            Err(error) => {
                self.tell_read(error);
                Err(Failed::Input)
            }
        }
    }

    // Input is read until the buffer is full, the file ends, or a read fails.
    fn read_whole(&self, buffer: &mut [u8]) -> Result<usize, Failed>
        ensures counts { IfOk result (λ n. IsPrefixLen n buffer.new) }
    {
        let mut n: usize = 0;
        // Kept: a turn goes on by as many bytes as a read gave, which no `for` counts.
        while n < buffer.len() {
            let more = self.read_once(&mut buffer[n..])?;
            if more == 0 {
                break;
            }
            n += more;
        }
        Ok(n)
    }

    // What is gathered goes out, where somebody may wait for it; then the buffer is filled, as far as this file goes. Less than was asked for is the
    // end of the file: nothing more is asked of a terminal where that was typed.
    fn fill<const N: usize>(
        &mut self,
        output: &mut Output<N>,
        buffer: &mut [u8],
    ) -> Result<usize, Failed>
        ensures counts { IfOk result (λ n. IsPrefixLen n buffer.new) }
        ensures passes { Passes output.old output.new }
    {
        output.pass(self.awaited);
        if !output.is_open() {
            return Err(Failed::Output);
        }
        if self.ended {
            return Ok(0);
        }
        let asked = buffer.len();
        let n = self.read_whole(buffer)?;
        self.ended = n < asked;
        Ok(n)
    }

    // What is gathered goes out, since a file may wait to be opened; then this one is closed, and the file that argument i names is opened and read.
    fn fill_next<const N: usize>(
        &mut self,
        i: usize,
        output: &mut Output<N>,
        buffer: &mut [u8],
    ) -> Result<usize, Failed>
        ensures counts { IfOk result (λ n. IsPrefixLen n buffer.new) }
        ensures passes { Passes output.old output.new }
    {
        output.flush();
        if !output.is_open() {
            return Err(Failed::Output);
        }
        self.source = Source::Closed;
        let rt = self.rt;
        *self = opened(&rt, i, i.checked_add(1))?;
        self.fill(output, buffer)
    }

    // The next bytes of the input, as many as the buffer takes, or fewer where a file ends; none are the end of the last file. What is gathered goes out
    // before, where somebody may wait for it. There are no more files than numbers of arguments, so that many turns suffice.
    pub fn piece<const N: usize>(
        &mut self,
        output: &mut Output<N>,
        buffer: &mut [u8],
    ) -> Result<usize, Failed>
        ensures counts { IfOk result (λ n. IsPrefixLen n buffer.new) }
        ensures passes { Passes output.old output.new }
    {
        let mut n = self.fill(output, buffer)?;
        for _ in 0..usize::MAX {
            if n > 0 {
                return Ok(n);
            }
            let Some(i) = self.following() else {
                return Ok(0);
            };
            n = self.fill_next(i, output, buffer)?;
        }
        Ok(n)
    }
}
