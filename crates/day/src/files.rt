//! The two commands that reach files. A file is written whole or not at all.
use anyhow::Context;
use day_file::{BadLine, Desk, Expected, Output};
use directory::Directory;
use std::fs::{File, Permissions};
use std::io::{ErrorKind, Write};
use std::{fs, io};
use tape::Tape;

// A name that is no text is no name of a file.
fn text(file: &[u8], line: u64, expected: Expected) -> Result<&str, BadLine> {
    std::str::from_utf8(file).map_err(|_| BadLine {
        number: line,
        expected,
    })
}

pub fn load<D: Directory, T: Tape>(
    rt: &HostRuntime,
    line: u64,
    desk: &mut Desk<D, T>,
    time: u64,
    file: &[u8],
    out: &mut Output,
) -> anyhow::Result<()> {
    let file = text(file, line, Expected::Load)?;
    let register = fs::read(rt, file).context(format_args!("line {line}: cannot read {file}"))?;
    Ok(desk.load(time, register.as_slice(), out)?)
}

// Writes into the file, which is opened; its bytes are on the disk before it is closed.
fn fill(mut file: File, bytes: &[u8], mode: Option<Permissions>) -> io::Result<()> {
    if let Some(mode) = mode {
        file.set_permissions(mode)?;
    }
    file.write_all(bytes)?;
    file.sync_all()
}

// The signs that stand in the place of a path's last one where no longer path can be taken.
const LAST_SIGNS: [char; 8] = ['~', '^', '=', '+', '%', '@', '!', ','];

// A name in the folder of the path that no day sensibly writes a register to.
fn numbered(rt: &HostRuntime, path: &str, number: u16) -> io::Result<String> {
    Ok(match path.rsplit_once('/') {
        Some((folder, _)) => format!(in rt.alloc(); "{folder}/.foszkelad-{number}")?,
        None => format!(in rt.alloc(); ".foszkelad-{number}")?,
    })
}

// The file of that name, which was not there; None where something has the name.
fn create_free(rt: &HostRuntime, name: &str) -> io::Result<Option<File>> {
    match File::create_new(rt, name) {
        Ok(file) => Ok(Some(file)),
        Err(e) if e.kind() == ErrorKind::AlreadyExists => Ok(None),
        Err(e) => Err(e),
    }
}

// A file that was not there, beside the one of the path, and its own path: the first number that is free.
fn create_numbered(rt: &HostRuntime, path: &str) -> io::Result<(File, String)> {
    for number in 0..u16::MAX {
        let name = numbered(rt, path, number)?;
        if let Some(file) = create_free(rt, name.as_str())? {
            return Ok((file, name));
        }
    }
    Err(ErrorKind::AlreadyExists.into())
}

// The same, with a path as long as the one told, whose last sign is another.
fn create_as_long(rt: &HostRuntime, path: &str) -> io::Result<(File, String)> {
    let mut front = path.chars();
    let last = front.next_back();
    for sign in LAST_SIGNS {
        let name = format!(in rt.alloc(); "{}{sign}", front.as_str())?;
        if last != Some(sign) {
            if let Some(file) = create_free(rt, name.as_str())? {
                return Ok((file, name));
            }
        }
    }
    Err(ErrorKind::AlreadyExists.into())
}

fn create_beside(rt: &HostRuntime, path: &str) -> io::Result<(File, String)> {
    match create_numbered(rt, path) {
        Err(e) if e.kind() == ErrorKind::InvalidFilename => create_as_long(rt, path),
        created => created,
    }
}

// Writes a new file, and gives it the name of the path, which is the old one until then. Where that fails, no new file is left.
fn replace_whole(
    rt: &HostRuntime,
    path: &str,
    bytes: &[u8],
    mode: Option<Permissions>,
) -> io::Result<()> {
    let (file, new) = create_beside(rt, path)?;
    let replaced = fill(file, bytes, mode).and_then(|()| fs::rename(rt, new.as_str(), path));
    if replaced.is_err() {
        let _ = fs::remove_file(rt, new.as_str());
    }
    replaced
}

// Puts the bytes in the place of what the file held. It is opened first as if it were written in place, so that it is refused where
// it may not be written. A link stays, and what it names is replaced, or made; what is no plain file, as a terminal or a pipe, is
// written, and so is a file that a link names whose own path cannot be told.
fn replace(rt: &HostRuntime, path: &str, bytes: &[u8]) -> io::Result<()> {
    let link = fs::symlink_metadata(rt, path).is_ok_and(|there| there.is_symlink());
    let mut file = match File::options().write(true).create(link).open(rt, path) {
        Ok(file) => file,
        Err(e) if e.kind() == ErrorKind::NotFound && !link => {
            return replace_whole(rt, path, bytes, None);
        }
        Err(e) => return Err(e),
    };
    let there = file.metadata()?;
    if !there.is_file() {
        return file.write_all(bytes);
    }
    let mode = Some(there.permissions());
    if !link {
        return replace_whole(rt, path, bytes, mode);
    }
    match fs::canonicalize(rt, path) {
        Ok(named) => replace_whole(rt, named.as_path().as_str(), bytes, mode),
        Err(_) => fs::write(rt, path, bytes),
    }
}

/// A register of 64 orders fits: each takes at most 49 bytes. It is told once it stands in the file.
pub fn write<D: Directory, T: Tape>(
    rt: &HostRuntime,
    line: u64,
    desk: &Desk<D, T>,
    file: &[u8],
    out: &mut Output,
) -> anyhow::Result<()> {
    let file = text(file, line, Expected::Write)?;
    let mut buffer = [0u8; 4096];
    let written = match desk.write(&mut buffer) {
        Ok(written) => written,
        Err(no_room) => return Ok(out.line("refused", &[u64::from(no_room.number())])?),
    };
    let register = buffer
        .get(0..written)
        .context("the register is longer than its buffer")?;
    replace(rt, file, register).context(format_args!("line {line}: cannot write {file}"))?;
    Ok(out.line("written", &[written as u64])?)
}
