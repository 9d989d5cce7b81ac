//! The objects in memory, and the adapters over fakes that count and fail.
use crate::file_vault::read_whole;
use crate::{
    FileVault, MemSink, MemSource, MemVault, Sink, Source, StdSink, StdSource, Vault, VaultFault,
};
use gql_plain::Words;
use std::alloc::Global;
use std::cell::Cell;
use std::fs;
use std::io::{Error, ErrorKind, Read, Result as IoResult, Write};
use std::test::Fail;

#[test]
fn a_vault_in_memory_gives_the_first_file_of_a_name(rt: HostRuntime) -> Result<(), Fail> {
    let alloc = rt.alloc();
    let files = vec![in alloc;
        (Words::new(alloc, "a")?, b"one".to_vec(alloc)?),
        (Words::new(alloc, "a")?, b"other".to_vec(alloc)?),
    ]?;
    let mut vault = MemVault::new(files, vec![in alloc; 2]?);
    assert_eq!(rt; vault.read(alloc, "a", 3)?.as_slice(), b"one".as_slice());
    assert!(rt; matches!(vault.read(alloc, "a", 3), Err(VaultFault::Failed)));
    assert!(rt; matches!(vault.read(alloc, "b", 3), Err(VaultFault::Absent)));
    assert!(rt; matches!(vault.read(alloc, "a", 2), Err(VaultFault::TooLong)));
    Ok(())
}

#[test]
fn streams_in_memory_go_on_after_a_failing_call(rt: HostRuntime) -> Result<(), Fail> {
    let alloc = rt.alloc();
    let mut source = MemSource::new(b"abc".to_vec(alloc)?, 2, vec![in alloc; 2]?);
    let mut sink = MemSink::new(alloc, 3, 2, vec![in alloc; 1]?)?;
    let mut into = [0u8; 4];
    assert_eq!(rt; source.read(&mut into)?, 2);
    assert!(rt; source.read(&mut into).is_err());
    assert_eq!(rt; source.read(&mut into[2..])?, 1);
    assert_eq!(rt; source.read(&mut into)?, 0);
    assert!(rt; sink.put(&into).is_err());
    assert_eq!(rt; sink.put(&into)?, 2);
    assert_eq!(rt; sink.put(&into[2..])?, 1);
    assert!(rt; sink.put(&into).is_err());
    assert_eq!(rt; sink.contents(), b"abc".as_slice());
    Ok(())
}

// Counts the writes and the flushes, takes so many bytes a write, and may fail at each write or at
// each flush.
#[derive(Drop)]
struct Counting<'a> {
    writes: &'a Cell<u64>,
    flushes: &'a Cell<u64>,
    takes: usize,
    fails: Fails,
}

// The call of a writer that fails.
#[derive(Clone, Copy, Drop, PartialEq, Eq)]
enum Fails {
    No,
    Write,
    Flush,
}

impl<'a> Write for Counting<'a> {
    fn write(&mut self, bytes: &[u8]) -> IoResult<usize> {
        self.writes.set(self.writes.get().saturating_add(1));
        if self.fails == Fails::Write {
            return Err(Error::from(ErrorKind::Other));
        }
        Ok(bytes.len().min(self.takes))
    }

    fn flush(&mut self) -> IoResult<()> {
        self.flushes.set(self.flushes.get().saturating_add(1));
        if self.fails == Fails::Flush {
            return Err(Error::from(ErrorKind::Other));
        }
        Ok(())
    }
}

#[test]
fn a_sink_over_a_writer_writes_once_and_flushes_once(rt: HostRuntime) -> Result<(), Fail> {
    for (takes, fails, taken, flushed) in [
        (2usize, Fails::No, Some(2usize), 1u64),
        (3, Fails::No, Some(3), 1),
        (0, Fails::No, None, 0),
        (3, Fails::Write, None, 0),
        (3, Fails::Flush, None, 1),
    ] {
        let (writes, flushes) = (Cell::new(0), Cell::new(0));
        let mut sink = StdSink::new(Counting {
            writes: &writes,
            flushes: &flushes,
            takes,
            fails,
        });
        assert_eq!(rt; sink.put(b"abc").ok(), taken, "at {takes}");
        assert_eq!(rt; writes.get(), 1, "at {takes}");
        assert_eq!(rt; flushes.get(), flushed, "at {takes}");
    }
    Ok(())
}

// Gives a byte a read, so often, and then fails at each read with an error of this kind.
#[derive(Drop)]
struct Failing {
    bytes: usize,
    kind: ErrorKind,
}

impl Read for Failing {
    fn read(&mut self, into: &mut [u8]) -> IoResult<usize> {
        if self.bytes == 0 {
            return Err(Error::from(self.kind));
        }
        let Some(first) = into.first_mut() else {
            return Ok(0);
        };
        *first = b'a';
        self.bytes -= 1;
        Ok(1)
    }
}

// Whether a file is out of memory, or failed, where its reader gives so many bytes and then fails.
fn fault_of(alloc: Global, bytes: usize, kind: ErrorKind) -> Option<VaultFault> {
    read_whole(alloc, Failing { bytes, kind }, 3).err()
}

#[test]
fn a_reader_fails_with_and_without_memory(rt: HostRuntime) -> Result<(), Fail> {
    let alloc = rt.alloc();
    let mut into = [0u8; 2];
    for kind in [ErrorKind::Other, ErrorKind::OutOfMemory] {
        let mut source = StdSource::new(Failing { bytes: 1, kind });
        assert_eq!(rt; source.read(&mut into)?, 1);
        assert!(rt; source.read(&mut into).is_err());
    }
    for bytes in [0usize, 1, 3] {
        assert!(rt;
            matches!(
                fault_of(alloc, bytes, ErrorKind::OutOfMemory),
                Some(VaultFault::NoMemory)
            ),
            "at {bytes}"
        );
        assert!(rt;
            matches!(
                fault_of(alloc, bytes, ErrorKind::Other),
                Some(VaultFault::Failed)
            ),
            "at {bytes}"
        );
    }
    assert!(rt;
        matches!(
            fault_of(alloc, 4, ErrorKind::Other),
            Some(VaultFault::TooLong)
        )
    );
    Ok(())
}

#[test]
fn a_source_over_a_reader_gives_its_bytes(rt: HostRuntime) -> Result<(), Fail> {
    let mut source = StdSource::new(b"abc".as_slice());
    let mut into = [0u8; 2];
    assert_eq!(rt; source.read(&mut into)?, 2);
    assert_eq!(rt; &into[..], b"ab".as_slice());
    assert_eq!(rt; source.read(&mut into)?, 1);
    assert_eq!(rt; source.read(&mut into)?, 0);
    Ok(())
}

#[test]
fn a_vault_over_files_reads_a_file_that_is_there(rt: HostRuntime) -> Result<(), Fail> {
    let alloc = rt.alloc();
    fs::write(&rt, "three_bytes", b"abc".as_slice())?;
    let mut vault = FileVault::new(&rt);
    assert_eq!(rt;
        vault.read(alloc, "three_bytes", 3)?.as_slice(),
        b"abc".as_slice()
    );
    assert!(rt;
        matches!(
            vault.read(alloc, "three_bytes", 2),
            Err(VaultFault::TooLong)
        )
    );
    assert!(rt; matches!(vault.read(alloc, "absent", 3), Err(VaultFault::Failed)));
    fs::remove_file(&rt, "three_bytes")?;
    Ok(())
}
