// Files by name. A call hands on how it went; what it did to the file no contract can say.
ghost use Rattle.std.specs.Prelude.{◌≡◌, ◌+◌, ◌≤◌, length, IfOk};
ghost use Rattle.system.specs.Calls.{Within};

use crate::{EINVAL, read_rest};
use std::fs::{File, OpenOptions, Permissions};
use std::io::{ErrorKind, Seek};
use std::os::unix::fs::{OpenOptionsExt, PermissionsExt};
use std::random::RandomSource;
use std::rt::Clock;
use std::str::from_utf8;
use std::{fs, io};

// The system's numbers for a name that something else has, and for bytes that are no text: std takes a file's name only as
// UTF-8, and so a name that is not is refused here.
const EEXIST: i32 = 17;

const EILSEQ: i32 = 84;

// The letters that the name of a new file ends in, and how often others are tried where a file has it already.
const LETTERS: [u8; 62] = *b"abcdefghijklmnopqrstuvwxyzABCDEFGHIJKLMNOPQRSTUVWXYZ0123456789";

const TRIES: usize = 62 * 62 * 62;

// A new file, and how many bytes of the lent buffer are its name.
#[derive(Drop)]
pub struct Temporary {
    pub file: File,
    pub name: usize,
}

fn text_of(path: &[u8]) -> io::Result<&str> {
    from_utf8(path).map_err(|_| io::Error::from_raw_os_error(EILSEQ))
}

pub fn open(rt: &HostRuntime, path: &[u8]) -> io::Result<File> {
    File::open(rt, text_of(path)?)
}

// Lets everybody read the file; a temporary one is its owner's alone.
pub fn share(file: &File) -> io::Result<()> {
    file.set_permissions(Permissions::from_mode(0o644))
}

pub fn rename(rt: &HostRuntime, from: &[u8], to: &[u8]) -> io::Result<()> {
    fs::rename(rt, text_of(from)?, text_of(to)?)
}

pub fn remove(rt: &HostRuntime, path: &[u8]) -> io::Result<()> {
    fs::remove_file(rt, text_of(path)?)
}

// Makes a file that nothing has the name of, its owner's alone.
fn create(rt: &HostRuntime, path: &[u8]) -> io::Result<File> {
    OpenOptions::new()
        .read(true)
        .write(true)
        .create_new(true)
        .mode(0o600)
        .open(rt, text_of(path)?)
}

// Puts six letters behind a stem, as chance has them, and makes the file of that name.
fn create_by_chance(rt: &HostRuntime, path: &mut [u8], stem: usize) -> io::Result<File>
    requires { stem + 6 ≡ length path.old }
{
    let mut letters = [0u8; 6];
    rt.fill_bytes(&mut letters)?;
    for letter in letters.iter_mut() {
        *letter = LETTERS[usize::from(*letter % 62)];
    }
    path[stem..].copy_from_slice(&letters);
    create(rt, path)
}

// Makes a file under a stem and six letters that nothing else has.
fn create_unlike(rt: &HostRuntime, path: &mut [u8], stem: usize) -> io::Result<File>
    requires { stem + 6 ≡ length path.old }
{
    for _ in 0..TRIES {
        match create_by_chance(rt, path, stem) {
            Err(e) if e.kind() == ErrorKind::AlreadyExists => {}
            result => {
                return result;
            }
        }
    }
    Err(io::Error::from_raw_os_error(EEXIST))
}

// Makes a file beside the one of this name, under that name, a dot and six letters, which nothing else has.
pub fn make_beside(rt: &HostRuntime, name: &[u8], temporary: &mut [u8]) -> io::Result<Temporary>
    ensures { IfOk result (λ made. made.name ≤ length temporary.new) }
{
    let dot = name.len();
    if temporary.len().saturating_sub(dot) < 7 {
        return Err(io::Error::from_raw_os_error(EINVAL));
    }
    temporary[..dot].copy_from_slice(name);
    temporary[dot] = b'.';
    let file = create_unlike(rt, &mut temporary[..dot + 7], dot + 1)?;
    Ok(Temporary {
        file,
        name: dot + 7,
    })
}

// Reads a file from its first byte on, to its end or as much as the buffer takes.
pub fn read_whole(rt: &impl Clock, file: &mut File, buffer: &mut [u8]) -> io::Result<usize>
    ensures { Within result buffer.new }
{
    file.rewind()?;
    read_rest(rt, file, buffer)
}

// The folder's part of a name: up to the last slash.
fn folder(name: &[u8]) -> &[u8] {
    match name.iter().rposition(|c| *c == b'/') {
        Some(slash) => &name[..=slash],
        None => b".",
    }
}

// Waits until the name of a file is on the disk, as its folder has it.
pub fn sync_folder(rt: &HostRuntime, name: &[u8]) -> io::Result<()> {
    open(rt, folder(name))?.sync_all()
}
