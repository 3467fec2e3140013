use crate::{OsFiles, ReadOut, read_whole};
use pm_values::Txt;
use std::alloc::{Allocator, Global};
use std::fs::{Metadata, OpenFile, OpenOptions};
use std::io;
use std::io::{ErrorKind, Read, Seek, SeekFrom, Write};
use std::rt::Files;
use std::test::Fail;

/// A file that gives one byte a read. Every second read is interrupted, and the one with the number `fails` fails.
#[derive(Drop)]
struct SlowFile {
    bytes: &'static [u8],
    at: usize,
    reads: u64,
    fails: u64,
}

fn unsupported<T>() -> io::Result<T> {
    Err(io::Error::from(ErrorKind::Unsupported))
}

impl Read for SlowFile {
    fn read(&mut self, buf: &mut [u8]) -> io::Result<usize> {
        self.reads = self.reads.saturating_add(1);
        if self.reads == self.fails {
            return Err(io::Error::from(ErrorKind::BrokenPipe));
        }
        if self.reads % 2 == 0 {
            return Err(io::Error::from(ErrorKind::Interrupted));
        }
        match (self.bytes.get(self.at), buf.first_mut()) {
            (Some(byte), Some(front)) => {
                *front = *byte;
                self.at = self.at.saturating_add(1);
                Ok(1)
            }
            _ => Ok(0),
        }
    }
}

impl Write for SlowFile {
    fn write(&mut self, _piece: &[u8]) -> io::Result<usize> {
        Err(io::Error::from(ErrorKind::Unsupported))
    }

    fn flush(&mut self) -> io::Result<()> {
        unsupported()
    }
}

impl Seek for SlowFile {
    fn seek(&mut self, _to: SeekFrom) -> io::Result<u64> {
        unsupported()
    }
}

impl OpenFile for SlowFile {
    fn metadata(&self) -> io::Result<Metadata> {
        unsupported()
    }

    fn set_len(&self, _size: u64) -> io::Result<()> {
        unsupported()
    }

    fn sync_all(&self) -> io::Result<()> {
        unsupported()
    }

    fn sync_data(&self) -> io::Result<()> {
        unsupported()
    }
}

/// A system whose files are all slow ones with the bytes `abc`.
#[derive(Drop)]
struct SlowSystem {
    fails: u64,
}

impl SlowSystem {
    fn file(&self) -> SlowFile {
        SlowFile {
            bytes: b"abc",
            at: 0,
            reads: 0,
            fails: self.fails,
        }
    }
}

impl Files for SlowSystem {
    type File = SlowFile;

    type Dir = SlowFile;

    fn open_file(&self, _how: &OpenOptions, _path: &str) -> io::Result<SlowFile> {
        Ok(self.file())
    }

    fn open_dir(&self, _path: &str) -> io::Result<SlowFile> {
        unsupported()
    }

    fn metadata(&self, _path: &str) -> io::Result<Metadata> {
        unsupported()
    }

    fn symlink_metadata(&self, _path: &str) -> io::Result<Metadata> {
        unsupported()
    }

    fn copy(&self, _from: &str, _to: &str) -> io::Result<u64> {
        unsupported()
    }

    fn rename(&self, _from: &str, _to: &str) -> io::Result<()> {
        unsupported()
    }

    fn remove_file(&self, _path: &str) -> io::Result<()> {
        unsupported()
    }

    fn create_dir(&self, _path: &str) -> io::Result<()> {
        unsupported()
    }

    fn remove_dir(&self, _path: &str) -> io::Result<()> {
        unsupported()
    }

    fn remove_dir_all<B: Allocator>(&self, _alloc: B, _path: &str) -> io::Result<()> {
        unsupported()
    }
}

/// The bytes of a file of this system, of three at most.
fn bytes_of<R: Files>(alloc: Global, system: &R) -> Result<Vec<u8>, ReadOut> {
    let mut files = OsFiles::new(system);
    read_whole(alloc, &mut files, Txt::new(alloc, "f")?, 3)
}

#[test]
fn interrupted_reads_are_made_again(rt: HostRuntime) -> Result<(), Fail> {
    // Reads 1, 3 and 5 give a byte each, and 7 finds the end; 2, 4 and 6 are interrupted.
    for fails in 0..9u64 {
        let system = SlowSystem { fails };
        match bytes_of(rt.alloc(), &system) {
            Ok(bytes) => {
                assert!(rt; fails == 0 || fails > 7);
                assert_eq!(rt; bytes.as_slice(), b"abc".as_slice());
            }
            Err(fault) => {
                assert!(rt; fails > 0 && fails <= 7);
                assert_eq!(rt; fault, ReadOut::Failed);
            }
        }
    }
    Ok(())
}
