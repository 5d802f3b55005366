// Names as paths. The library takes UTF-8 alone, so a file with any other name is neither read nor made, and it is said so.
use std::io;
use std::io::Read;
use std::rt::Files;

// What the system says where there is no such file, and of bytes that are no characters.
const ENOENT: i32 = 2;

const EILSEQ: i32 = 84;

// The path that a name is.
pub(crate) fn path_of(name: &[u8]) -> io::Result<&str> {
    std::str::from_utf8(name).map_err(|_| io::Error::from_raw_os_error(EILSEQ))
}

// Whether a name, which is not empty, is one of these, each of which a 0 ends.
fn is_among(names: &[u8], name: &[u8]) -> bool {
    names.split(|b| *b == 0).any(|n| n == name)
}

// Whether a name stands in a folder.
fn has_entry(rt: &impl Files, folder: &str, name: &[u8]) -> io::Result<bool> {
    let mut entries = rt.open_dir(folder)?;
    let mut names = [0u8; 4096];
    for _ in 0..u64::MAX {
        let n = entries.read(&mut names)?;
        if n == 0 {
            return Ok(false);
        }
        if is_among(lent::front(&names, n), name) {
            return Ok(true);
        }
    }
    Ok(false)
}

// Whether there is a file with a name that is no path, by the names in its folder.
fn is_there(rt: &impl Files, name: &[u8]) -> io::Result<bool> {
    match name.iter().rposition(|b| *b == b'/') {
        None => has_entry(rt, "./", name),
        Some(slash) => {
            let (folder, file) = name.split_at(slash + 1);
            has_entry(rt, path_of(folder)?, file)
        }
    }
}

// The path of a file that is to be read.
pub(crate) fn path_to_read<'a>(rt: &impl Files, name: &'a [u8]) -> io::Result<&'a str> {
    let path = path_of(name);
    if path.is_err() && !is_there(rt, name)? {
        return Err(io::Error::from_raw_os_error(ENOENT));
    }
    path
}
