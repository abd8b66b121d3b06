// Many files in one, each behind its length in four bytes low first: shown one after the other, as day_show shows each.
#![tactic(auto)]

ghost use Rattle.std.specs.Prelude.{◌≤◌, length, IfOk, IfSome};

use std::fs::File;
use std::io::Read;

// A file that was cut short.
#[derive(Clone, Copy)]
struct Cut;

// Reads until the buffer is full, the file ends or a read fails, and answers how many bytes are at the buffer's front.
fn read_full(files: &mut File, buffer: &mut [u8]) -> usize
    ensures { result ≤ length buffer.new }
{
    let mut done = 0;
    // Each place is behind as many bytes as a read gave, so that no iterator has it.
    while done < buffer.len() {
        match files.read(&mut buffer[done..]) {
            Ok(0) | Err(_) => {
                break;
            }
            Ok(n) => {
                done += n;
            }
        }
    }
    done
}

// Reads so many bytes that are left out, and answers whether they are there.
fn skip(files: &mut File, bytes: usize) -> bool {
    let mut chunk = [0u8; 4096];
    for _ in 0..bytes / 4096 {
        if read_full(files, &mut chunk) < 4096 {
            return false;
        }
    }
    let left = bytes % 4096;
    read_full(files, &mut chunk[..left]) == left
}

// Reads the next file, so many bytes at the buffer's front; of one that is longer than the buffer, its first bytes. None is left where
// the last one was.
fn take(files: &mut File, file: &mut [u8]) -> Result<Option<usize>, Cut>
    ensures { IfOk result (λ next. IfSome next (λ n. n ≤ length file.new)) }
{
    let mut head = [0u8; 4];
    match read_full(files, &mut head) {
        0 => {
            return Ok(None);
        }
        4 => {}
        _ => {
            return Err(Cut);
        }
    }
    let bytes = u32::from_le_bytes(head) as usize;
    let n = bytes.min(file.len());
    if read_full(files, &mut file[..n]) < n || !skip(files, bytes - n) {
        return Err(Cut);
    }
    Ok(Some(n))
}

// Shows a file's bytes, and answers whether all could be written.
fn show(rt: &HostRuntime, file: &[u8], out: &mut [u8]) -> bool
    requires { 640 ≤ length out.old }
{
    match showing::show(rt, file, out).sent {
        Ok(_) => true,
        Err(_) => {
            system::say(rt, b"writing failed\n");
            false
        }
    }
}

// Reads and shows the next file, and answers whether there might be another.
fn show_next(rt: &HostRuntime, files: &mut File, file: &mut [u8], out: &mut [u8]) -> bool
    requires { 640 ≤ length out.old }
{
    match take(files, file) {
        Ok(Some(n)) => show(rt, &file[..n], out),
        Ok(None) => false,
        Err(Cut) => {
            system::say(rt, b"the last of the files is cut short\n");
            false
        }
    }
}

// Shows the files one after the other. A proved loop has to end, so its turns end at a number that no run uses up.
fn show_all(rt: &HostRuntime, files: &mut File, file: &mut [u8], out: &mut [u8])
    requires { 640 ≤ length out.old }
{
    for _ in 0..u64::MAX {
        if !show_next(rt, files, file, out) {
            return;
        }
    }
}

fn main(rt: HostRuntime) {
    let Ok(mut files) = File::open(&rt, "files") else {
        system::say(&rt, b"there is no 'files' here\n");
        return;
    };
    let mut file = [0u8; showing::FILE];
    let mut out = [0u8; 65536];
    show_all(&rt, &mut files, &mut file, &mut out);
}
