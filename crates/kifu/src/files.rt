// Files by their names; `-` is standard input.
use crate::notes::{Kind, Streams, tell};
use crate::paths::{path_of, path_to_read};
use crate::words::Flag;
use crate::{notes, quotes, words};
use std::fs::{File, OpenFile};
use std::io::{Cursor, Read, Write};
use std::rt::{Env, Files};
use std::{fs, io};

// Says why a call on a file failed.
fn fail(rt: &impl Streams, name: &[u8], why: io::Error) {
    notes::put_error(rt, b"kifu: refused: ");
    quotes::say_name(rt, name);
    notes::end_failed(rt, why);
}

// Reads past what was taken, so that a file which fails only there is refused too; at its end a read answers 0.
fn reads_on<R: Read>(file: &mut R) -> io::Result<()> {
    let mut more = [0u8; 1];
    file.read(&mut more)?;
    Ok(())
}

// Fills a buffer with the front of a file, and answers how many bytes it has.
fn fill_from<R: Read>(file: &mut R, buf: &mut [u8]) -> io::Result<usize> {
    let most = buf.len() as u64;
    let n = io::copy(&mut file.by_ref().take(most), &mut Cursor::new(buf))?;
    reads_on(file)?;
    Ok(n as usize)
}

// Opens a file for reading.
fn open<R: Files>(rt: &R, name: &[u8]) -> io::Result<R::File> {
    File::open(rt, path_to_read(rt, name)?)
}

// Fills a buffer with the front of the file with a name.
fn fill_by_name(rt: &(impl Files + Input), name: &[u8], buf: &mut [u8]) -> io::Result<usize> {
    if matches!(name, b"-") {
        return fill_from(&mut rt.reader(), buf);
    }
    fill_from(&mut open(rt, name)?, buf)
}

// The front of a file, which is to be a text or any, read into a buffer; or says why there is none.
pub(crate) fn fill<'a>(
    rt: &(impl Streams + Env + Files + Input),
    name: &[u8],
    is_text: bool,
    buf: &'a mut [u8],
) -> Option<&'a [u8]> {
    let n = match fill_by_name(rt, name, buf) {
        Ok(n) => n,
        Err(why) => {
            fail(rt, name, why);
            return None;
        }
    };
    let bytes = lent::front(&buf[0..], n);
    if is_text {
        return text_of(rt, name, bytes);
    }
    Some(bytes)
}

// The part of a file that is a text; or says why it is none. A file that is too long is left to the reader, which refuses it.
fn text_of<'a>(rt: &(impl Streams + Env), name: &[u8], s: &'a [u8]) -> Option<&'a [u8]> {
    if s.starts_with(b"KB\x01\0") || s.starts_with(b"KB\x02\0") {
        tell(
            rt,
            Kind::Refused,
            name,
            b"this is a block file and no KIF text; kifu text makes a text of it",
            &[],
        );
        return None;
    }
    if 65535 < s.len() || !s.starts_with(b"\xef\xbb\xbf") {
        return Some(s);
    }
    if !words::has(rt, Flag::SkipBom) {
        tell(
            rt,
            Kind::Refused,
            name,
            b"line 1 begins with a BOM (the bytes EF BB BF), and would not be understood; --skip-bom reads past it",
            &[],
        );
        return None;
    }
    tell(
        rt,
        Kind::Note,
        name,
        b"the BOM at its start was passed over; bytes are counted from behind it",
        &[],
    );
    Some(lent::rest(s, 3))
}

// Writes bytes into the new file that name k is of, or says why it cannot.
pub(crate) fn keep(rt: &(impl Streams + Env + Files), k: usize, bytes: &[u8]) -> bool {
    let mut name = [0u8; 4096];
    make(rt, words::name(rt, k, &mut name), bytes)
}

// Takes away the file that was made under name k.
pub(crate) fn remove(rt: &(impl Env + Files), k: usize) {
    let mut name = [0u8; 4096];
    if let Ok(path) = path_of(words::name(rt, k, &mut name)) {
        let _ = fs::remove_file(rt, path);
    }
}

// Writes all of a file. The library does not tell where closing fails, so all is brought to the disk before.
fn write_through(mut file: impl Write + OpenFile + Drop, bytes: &[u8]) -> io::Result<()> {
    file.write_all(bytes)?;
    file.sync_all()
}

// Writes a new file, all of it, or takes away what it made.
fn write_new(rt: &impl Files, name: &[u8], bytes: &[u8]) -> io::Result<()> {
    let path = path_of(name)?;
    let file = File::options().write(true).create_new(true).open(rt, path)?;
    let written = write_through(file, bytes);
    if written.is_err() {
        let _ = fs::remove_file(rt, path);
    }
    written
}

// Writes a new file, all of it, and answers true; or says why it cannot, and takes away what it made. A file that stands there is left alone.
fn make(rt: &(impl Streams + Files), name: &[u8], bytes: &[u8]) -> bool {
    match write_new(rt, name, bytes) {
        Ok(()) => true,
        Err(why) => {
            fail(rt, name, why);
            false
        }
    }
}
