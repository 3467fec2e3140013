mod os_files;

use super::*;
use pm_values::Txt;
use std::fs;
use std::test::Fail;

#[test]
fn whole_reads(rt: HostRuntime) -> Result<(), Fail> {
    // The file has three bytes, read one by one: a begin, three reads, and the read that finds the end.
    let cases = [
        (0, "f", 3, None),
        (0, "f", 2, Some(ReadOut::TooLong)),
        (0, "g", 3, Some(ReadOut::Absent)),
        (1, "f", 3, Some(ReadOut::Failed)),
        (2, "f", 3, Some(ReadOut::Failed)),
        (3, "f", 3, Some(ReadOut::Failed)),
        (4, "f", 3, Some(ReadOut::Failed)),
        (5, "f", 3, Some(ReadOut::Failed)),
        (6, "f", 3, None),
    ];
    for (fail, name, limit, want) in cases {
        let mut files = MemFiles::new(rt.alloc());
        files.put(&Txt::new(rt.alloc(), "f")?, b"abc")?;
        files.fail_at(fail)?;
        files.piece(1);
        let answer = read_whole(rt.alloc(), &mut files, Txt::new(rt.alloc(), name)?, limit);
        assert_eq!(rt;
            answer.as_ref().err().copied(),
            want,
            "{fail} {name} {limit}"
        );
    }
    Ok(())
}

#[test]
fn whole_writes(rt: HostRuntime) -> Result<(), Fail> {
    // Each write takes two bytes of the five.
    let cases = [
        (0, 5, "abcde", None),
        (2, 5, "ab", Some(WriteFault)),
        (0, 3, "abc", Some(WriteFault)),
    ];
    for (fail, room, written, want) in cases {
        let mut sink = MemSink::new(rt.alloc(), room)?;
        sink.fail_at(fail)?;
        sink.piece(2);
        assert_eq!(rt;
            write_whole(&mut sink, b"abcde").err(),
            want,
            "{fail} {room}"
        );
        assert_eq!(rt; sink.bytes(), written.as_bytes(), "{fail} {room}");
        assert_eq!(rt; sink.finish(), Ok(()));
        sink.fail_finish();
        assert_eq!(rt; sink.finish(), Err(IoFault::Failed));
    }
    Ok(())
}

#[test]
fn the_newest_file_is_read(rt: HostRuntime) -> Result<(), Fail> {
    let mut files = SureFiles::new(rt.alloc());
    files.put(&Txt::new(rt.alloc(), "f")?, b"old")?;
    files.put(&Txt::new(rt.alloc(), "f")?, b"new")?;
    let bytes = read_whole(rt.alloc(), &mut files, Txt::new(rt.alloc(), "f")?, 3)?;
    assert_eq!(rt; bytes.as_slice(), b"new".as_slice());
    Ok(())
}

#[test]
fn the_operating_system(rt: HostRuntime) -> Result<(), Fail> {
    fs::write(&rt, "f.txt", b"abc")?;
    let mut files = OsFiles::new(&rt);
    let bytes = read_whole(rt.alloc(), &mut files, Txt::new(rt.alloc(), "f.txt")?, 3)?;
    assert_eq!(rt; bytes.as_slice(), b"abc".as_slice());
    // A name of 300 bytes is too long for the operating system.
    let long = "n".repeat(rt.alloc(), 300)?;
    let cases = [
        ("g.txt", ReadOut::Absent),
        ("f.txt/x", ReadOut::Absent),
        (".", ReadOut::Failed),
        (long.as_str(), ReadOut::Failed),
    ];
    for (name, want) in cases {
        let answer = read_whole(rt.alloc(), &mut files, Txt::new(rt.alloc(), name)?, 3);
        assert_eq!(rt; answer.err(), Some(want), "{name}");
    }

    let mut sink = OsSink::new(rt.stdout());
    write_whole(&mut sink, b"written\n")?;
    sink.finish()?;
    Ok(())
}
