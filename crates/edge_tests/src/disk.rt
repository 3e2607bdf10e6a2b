//! A disk whose only file fails as a test wants it to.

ghost use Rattle.std.specs.Prelude.{IsErr};

use std::alloc::Allocator;
use std::fs::{Metadata, OpenFile, OpenOptions};
use std::io::{self, Error, ErrorKind, Read, Seek, SeekFrom, Write};
use std::rt::Files;

/// Which reads of a file fail.
#[derive(Clone, Copy)]
pub(crate) enum Fault {
    Nowhere,
    /// Those at its end.
    AtEnd,
    /// Those that ask for more than is left.
    PastEnd,
}

/// What is left of a file, all of it the byte 7.
#[derive(Clone, Copy)]
pub(crate) struct Sevens {
    pub left: usize,
    pub fault: Fault,
}

impl Sevens {
    fn fails(&self, asked: usize) -> bool {
        match self.fault {
            Fault::Nowhere => false,
            Fault::AtEnd => self.left == 0,
            Fault::PastEnd => asked > self.left,
        }
    }
}

impl Read for Sevens {
    fn read(&mut self, buf: &mut [u8]) -> io::Result<usize> {
        if self.fails(buf.len()) {
            return Err(Error::from(ErrorKind::Other));
        }
        let count = buf.len().min(self.left);
        buf[..count].fill(7);
        self.left -= count;
        Ok(count)
    }
}

fn unsupported<T: Drop>() -> io::Result<T>
    ensures { IsErr result }
{
    Err(Error::from(ErrorKind::Unsupported))
}

impl Write for Sevens {
    fn write(&mut self, _buf: &[u8]) -> io::Result<usize> {
        unsupported()
    }

    fn flush(&mut self) -> io::Result<()> {
        unsupported()
    }
}

impl Seek for Sevens {
    fn seek(&mut self, _to: SeekFrom) -> io::Result<u64> {
        unsupported()
    }
}

impl OpenFile for Sevens {
    fn metadata(&self) -> io::Result<Metadata> {
        unsupported()
    }

    fn set_len(&self, _size: u64) -> io::Result<()> {
        unsupported()
    }

    fn sync_all(&self) -> io::Result<()> {
        unsupported()
    }

    fn sync_data(&self) -> io::Result<()> {
        unsupported()
    }
}

/// A disk on which each name is of this file.
#[derive(Clone, Copy)]
pub(crate) struct Disk {
    pub file: Sevens,
}

impl Files for Disk {
    type File = Sevens;

    type Dir = Sevens;

    fn open_file(&self, _how: &OpenOptions, _path: &str) -> io::Result<Sevens> {
        Ok(self.file)
    }

    fn open_dir(&self, _path: &str) -> io::Result<Sevens> {
        unsupported()
    }

    fn metadata(&self, _path: &str) -> io::Result<Metadata> {
        unsupported()
    }

    fn symlink_metadata(&self, _path: &str) -> io::Result<Metadata> {
        unsupported()
    }

    fn copy(&self, _from: &str, _to: &str) -> io::Result<u64> {
        unsupported()
    }

    fn rename(&self, _from: &str, _to: &str) -> io::Result<()> {
        unsupported()
    }

    fn remove_file(&self, _path: &str) -> io::Result<()> {
        unsupported()
    }

    fn create_dir(&self, _path: &str) -> io::Result<()> {
        unsupported()
    }

    fn remove_dir(&self, _path: &str) -> io::Result<()> {
        unsupported()
    }

    fn remove_dir_all<B: Allocator>(&self, _alloc: B, _path: &str) -> io::Result<()> {
        unsupported()
    }
}
