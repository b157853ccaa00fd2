// Rows, numbers and names, and what is read and written outside.
ghost use Rattle.std.specs.Prelude.{◌-◌, ◌+◌, ◌^◌, ◌<◌, ◌≤◌, IfSome, length};
ghost use Rattle.tda_io.specs.Outside.{CountsIn, IsNew};

use std::alloc::Global;
use std::test::Fail;
use std::{env, fs};
use tda_io::{
    DirInbox, DirOutbox, InFault, Inbox, MemFile, MemInbox, MemOutbox, NoMemory, OutFault, Outbox,
    RowFault, RowReader, has_header, is_name, push_field, push_int, read_int, read_rows,
};

// The number of rows, their width and their fields, or the first row of another width.
fn shown(alloc: Global, text: &[u8]) -> Result<Vec<u8>, NoMemory>
    requires { length text.now ≤ 2 ^ 30 }
{
    let mut out = Vec::new(alloc);
    match read_rows(alloc, text) {
        Err(RowFault::NoMemory) => return Err(NoMemory),
        Err(RowFault::BadWidth(row)) => push_int(&mut out, row as i128)?,
        Ok(rows) => {
            push_int(&mut out, rows.len() as i128)?;
            push_int(&mut out, rows.width() as i128)?;
            for row in 0..rows.len() {
                out.push(b'/')?;
                for col in 0..rows.width() {
                    out.extend_from_slice(rows.field(row, col))?;
                    out.push(b'|')?;
                }
            }
        }
    }
    Ok(out)
}

// The fields of the rows, read one after the other, or the first row of another width.
fn passed(alloc: Global, text: &[u8]) -> Result<Vec<u8>, NoMemory>
    requires { length text.now ≤ 2 ^ 30 }
{
    let mut out = Vec::new(alloc);
    let mut rows = RowReader::new(alloc, text);
    for _ in 0..text.len() + 1 {
        match rows.next_row() {
            Ok(true) => {
                out.push(b'/')?;
                for col in 0..rows.len() {
                    out.extend_from_slice(rows.field(col))?;
                    out.push(b'|')?;
                }
            }
            Ok(false) => break,
            Err(RowFault::BadWidth(row)) => {
                out.clear();
                push_int(&mut out, row as i128)?;
                break;
            }
            Err(RowFault::NoMemory) => return Err(NoMemory),
        }
    }
    Ok(out)
}

#[test]
fn rows_are_those_of_csv(rt: HostRuntime) -> Result<(), Fail> {
    let table = [
        (
            b"a,b\r\n\"c\",\"d\"\n".as_slice(),
            b"22/a|b|/c|d|".as_slice(),
        ),
        (b"a,b\nc\n", b"2"),
        (b"a,b\n1,2\n3\n4,5,6\n", b"3"),
        (b"", b"00"),
        (b"a\rb\r", b"21/a|/b|"),
        (b"\n\na\n\r\n\nb", b"21/a|/b|"),
        (b"\xEF\xBB\xBFa,,b\n", b"13/a||b|"),
        (b"\"a\"\"b\",c\"d\n", b"12/a\"b|c\"d|"),
        (b"\"a\nb,\"\n", b"11/a\nb,|"),
        (b"\"\"\n", b"11/|"),
        (b"\"a\"b,\"c", b"12/ab|c|"),
    ];
    for (text, want) in table {
        assert!(rt; text.len() < 100);
        assert_eq!(rt; shown(rt.alloc(), text)?.as_slice(), want);
        let rows = want.get(2..).unwrap_or(want);
        assert_eq!(rt; passed(rt.alloc(), text)?.as_slice(), rows);
        let mut left = RowReader::new(rt.alloc(), text);
        assert_eq!(rt; left.finish().is_err(), rows == want);
    }
    Ok(())
}

#[test]
fn numbers_names_and_texts(rt: HostRuntime) -> Result<(), Fail> {
    let numbers = [
        (b"0".as_slice(), Some(0i128)),
        (b"-2147483648", Some(-2147483648)),
        (b"170141183460469231731687303715884105727", Some(i128::MAX)),
        (b"-170141183460469231731687303715884105728", Some(i128::MIN)),
        (b"170141183460469231731687303715884105728", None),
        (b"-170141183460469231731687303715884105729", None),
        (b"-0", None),
        (b"+1", None),
        (b"01", None),
        (b"-", None),
        (b"1 ", None),
        (b"", None),
    ];
    for (bytes, want) in numbers {
        assert_eq!(rt; read_int(bytes), want);
    }
    let names = [
        (b"a+b".as_slice(), true),
        (b"9._-", true),
        (b"abcde", false),
        (b"-", false),
        (b"a b", false),
        (b"", false),
    ];
    for (bytes, want) in names {
        assert_eq!(rt; is_name(bytes, 4), want);
    }
    let mut out = Vec::new(rt.alloc());
    push_int(&mut out, -5)?;
    push_field(&mut out, b"ab", false)?;
    push_field(&mut out, b"c", true)?;
    assert_eq!(rt; out.as_slice(), b"-5ab,c\n".as_slice());
    let rows = read_rows(rt.alloc(), b"unit,level\n")?;
    assert!(rt; has_header(&rows, &["unit", "level"]));
    assert!(rt; !has_header(&rows, &["unit", "levels"]));
    Ok(())
}

// A whole text in two pieces.
fn write<O: Outbox>(outbox: &mut O, name: &str, first: &[u8], second: &[u8]) -> Result<(), OutFault>
    requires told { IfSome (O.told outbox.old) (IsNew name.now) }
    requires room { O.faults outbox.old < 2 ^ 64 - 1 }
{
    outbox.begin(name)?;
    outbox.put(name, first)?;
    outbox.put(name, second)?;
    outbox.end(name)
}

// What a name holds.
fn read<I: Inbox>(
    alloc: Global,
    inbox: &mut I,
    name: &str,
    limit: usize,
) -> Result<Vec<u8>, InFault>
    requires limit { limit ≤ 2 ^ 30 }
    requires room { I.faults inbox.old < 2 ^ 64 - 1 }
    ensures { CountsIn result (I.faults inbox.old) (I.faults inbox.new) }
{
    inbox.read(alloc, name, limit)
}

#[test]
fn writes_in_memory_fail_in_turn(rt: HostRuntime) -> Result<(), Fail> {
    let alloc = rt.alloc();
    let wants = [
        (1, b"".as_slice(), Err(OutFault::Failed)),
        (2, b"a", Err(OutFault::Failed)),
        (3, b"abcde", Err(OutFault::Failed)),
        (4, b"abcdefg", Err(OutFault::Failed)),
        (5, b"abcdefg", Ok(())),
    ];
    for (call, want, ending) in wants {
        let mut outbox = MemOutbox::new(alloc, vec![in alloc; call]?);
        assert_eq!(rt; write(&mut outbox, "out", b"abc", b"defg"), ending);
        assert_eq!(rt; outbox.files().len(), if call == 1 { 0 } else { 1 });
        for file in outbox.files() {
            assert_eq!(rt; file.name.as_str(), "out");
            assert_eq!(rt; file.bytes.as_slice(), want);
        }
    }
    Ok(())
}

#[test]
fn reads_in_memory_fail_in_turn(rt: HostRuntime) -> Result<(), Fail> {
    let alloc = rt.alloc();
    let mut files = Vec::new(alloc);
    for bytes in [b"text".as_slice(), b"other"] {
        files.push(MemFile {
            name: String::from_str(alloc, "in")?,
            bytes: bytes.to_vec(alloc)?,
        })?;
    }
    let mut inbox = MemInbox::new(alloc, files, vec![in alloc; 3]?);
    assert_eq!(rt;
        read(alloc, &mut inbox, "in", 2)?.as_slice(),
        b"tex".as_slice()
    );
    assert_eq!(rt;
        read(alloc, &mut inbox, "in", 3)?.as_slice(),
        b"text".as_slice()
    );
    assert!(rt; matches!(read(alloc, &mut inbox, "in", 2), Err(InFault::Failed)));
    let mut nothing = MemInbox::new(alloc, Vec::new(alloc), Vec::new(alloc));
    assert!(rt; matches!(read(alloc, &mut nothing, "in", 2), Err(InFault::Failed)));
    Ok(())
}

#[test]
fn real_files(rt: HostRuntime) -> Result<(), Fail> {
    let alloc = rt.alloc();
    let path = env::temp_dir(&rt)?.join(alloc, "tda_io_test")?;
    let name = path.to_str().unwrap_or("tda_io_test");
    let mut outbox = DirOutbox::new(&rt, alloc);
    write(&mut outbox, name, b"abc", b"defg")?;
    let mut output = DirOutbox::new(&rt, alloc);
    write(&mut output, "-", b"", b"")?;
    let mut inbox = DirInbox::new(&rt);
    assert_eq!(rt;
        read(alloc, &mut inbox, name, 100)?.as_slice(),
        b"abcdefg".as_slice()
    );
    assert_eq!(rt;
        read(alloc, &mut inbox, name, 2)?.as_slice(),
        b"abc".as_slice()
    );
    let mut closed = DirOutbox::new(&rt, alloc);
    assert!(rt; matches!(closed.put(name, b"a"), Err(OutFault::Failed)));
    let mut closed = DirOutbox::new(&rt, alloc);
    assert!(rt; matches!(closed.end(name), Err(OutFault::Failed)));
    fs::remove_file(&rt, name)?;
    assert!(rt; matches!(read(alloc, &mut inbox, name, 2), Err(InFault::Failed)));
    Ok(())
}
