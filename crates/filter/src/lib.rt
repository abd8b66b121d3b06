// The loop that the filters share: standard input in chunks, the answers to standard output, the closing line to standard
// error. Answers are written out before each read, which might wait.
#![tactic(auto)]

ghost use Rattle.std.specs.Prelude.{◌≡◌, ◌≤◌, ◌<◌, length};
ghost use Rattle.put.specs.Put.{Put};
ghost use Rattle.lines.specs.Stream.{ended, last_said, Went};
ghost use Rattle.panel.specs.Counts.{closing_line};
ghost use Rattle.system.specs.Calls.{Within, Handed, Printing};
ghost use Rattle.filter.specs.Turns.{OnChunk, Follows, Finished};

use lines::Progress;
use panel::Counts;
use std::io;
use system::{Sent, Unwritten};

// Why a run broke off, behind so many whole answers: a read failed, or a write did.
#[derive(Clone, Copy)]
enum Broken {
    Unread { answers: usize, error: io::Error },
    Unwritten { answers: usize, error: io::Error },
}

// The place behind a part of a chunk, how many bytes answer it, and what became of them.
#[derive(Clone, Copy)]
struct Part {
    at: usize,
    used: usize,
    sent: Sent,
}

// Takes a chunk from a place on, as far as the room for answers goes, and writes the answers out.
fn answer_part(
    rt: &HostRuntime,
    progress: &mut Progress,
    chunk: &[u8],
    at: usize,
    out: &mut [u8],
) -> Part
    requires { (at < length chunk.now) × (17600 ≤ length out.old) }
    ensures { Went progress.old chunk.now at result.at 0 result.used progress.new out.old out.new × (at < result.at) × Handed result.used result.sent }
{
    let step = progress.take(chunk, at, out);
    Part {
        at: step.at,
        used: step.used,
        sent: system::write_first(rt, &mut rt.stdout(), out, step.used),
    }
}

// How many whole answers were written where the system stopped within those of a part.
fn whole(before: usize, out: &[u8], stop: Unwritten) -> usize
    requires { stop.bytes ≤ length out.now }
{
    panel::together(before, lines::line_ends(out, stop.bytes))
}

// Takes a chunk whole, part by part, unless a write fails.
fn answer_chunk(
    rt: &HostRuntime,
    progress: &mut Progress,
    chunk: &[u8],
    out: &mut [u8],
) -> Result<(), Broken>
    requires { 17600 ≤ length out.old }
    ensures { OnChunk result progress.old chunk.now progress.new }
{
    let mut at = 0;
    // Each place is what a step answers, so that no iterator has it.
    while at < chunk.len() {
        let before = progress.counts.texts;
        let part = answer_part(rt, progress, chunk, at, out);
        if let Err(stop) = part.sent {
            return Err(Broken::Unwritten {
                answers: whole(before, out, stop),
                error: stop.error,
            });
        }
        at = part.at;
    }
    Ok(())
}

// What a read gave: a chunk is taken, and the run goes on; it has ended where there was none; a failure makes up no answer.
fn answer_got(
    rt: &HostRuntime,
    got: io::Result<usize>,
    progress: &mut Progress,
    buffer: &[u8],
    out: &mut [u8],
) -> Result<bool, Broken>
    requires { Within got buffer.now × (17600 ≤ length out.old) }
    ensures { Follows result got progress.old buffer.now progress.new }
{
    match got {
        Ok(0) => Ok(false),
        Ok(n) => {
            answer_chunk(rt, progress, &buffer[..n], out)?;
            Ok(true)
        }
        Err(error) => Err(Broken::Unread {
            answers: progress.counts.texts,
            error,
        }),
    }
}

// Takes all of standard input. A proved loop has to end, so its turns end at a number that no run uses up.
fn take_all(
    rt: &HostRuntime,
    progress: &mut Progress,
    buffer: &mut [u8],
    out: &mut [u8],
) -> Result<(), Broken>
    requires { 17600 ≤ length out.old }
    ensures { Finished result progress.old progress.new }
{
    for _ in 0..u64::MAX {
        let got = system::read_some(rt, &mut rt.stdin(), buffer);
        if !answer_got(rt, got, progress, buffer, out)? {
            return Ok(());
        }
    }
    Err(Broken::Unread {
        answers: progress.counts.texts,
        error: system::out_of_tries(),
    })
}

// How many bytes answer a run's last piece and its end, and what became of them.
#[derive(Clone, Copy)]
struct Last {
    used: usize,
    sent: Sent,
}

// Answers the last piece, unless it is empty, and writes what stands behind all answers.
fn answer_last(rt: &HostRuntime, progress: &mut Progress, out: &mut [u8]) -> Last
    requires { 18600 ≤ length out.old }
    ensures { (progress.new ≡ ended progress.old) × Put 0 (last_said progress.old) out.old out.new result.used × Handed result.used result.sent }
{
    let used = progress.finish(out);
    Last {
        used,
        sent: system::write_first(rt, &mut rt.stdout(), out, used),
    }
}

// The closing line, by which whoever started the run knows that it is whole.
fn close(rt: &HostRuntime, counts: Counts, out: &mut [u8]) -> Sent
    requires { 100 ≤ length out.old }
    ensures { Printing (closing_line counts) out.new result }
{
    let n = panel::closing(counts, out);
    system::write_first(rt, &mut rt.stderr(), out, n)
}

// The end of the input: the last piece, and the closing line if all was written.
fn finish(rt: &HostRuntime, progress: &mut Progress, out: &mut [u8]) -> Result<(), Broken>
    requires { 18600 ≤ length out.old }
{
    let before = progress.counts.texts;
    let last = answer_last(rt, progress, out);
    if let Err(stop) = last.sent {
        return Err(Broken::Unwritten {
            answers: before,
            error: stop.error,
        });
    }
    let _ = close(rt, progress.counts, out);
    Ok(())
}

// Answers all of standard input, as far as reading and writing go.
fn answer_all(rt: &HostRuntime, progress: &mut Progress) -> Result<(), Broken> {
    let mut buffer = [0u8; 65536];
    let mut out = [0u8; 65536];
    take_all(rt, progress, &mut buffer, &mut out)?;
    finish(rt, progress, &mut out)
}

// The line for a run that broke off where a panel answers all its texts.
fn say_no_panel(rt: &HostRuntime, broken: Broken) {
    match broken {
        Broken::Unread { answers, error } => {
            system::say_unread(rt, &error, answers, "no panel written");
        }
        Broken::Unwritten { error, .. } => {
            system::say_unwritten(rt, &error, "no whole panel written");
        }
    }
}

// The line for a run that broke off where a line answers each text.
fn say_broken(rt: &HostRuntime, broken: Broken) {
    match broken {
        Broken::Unread { answers, error } => {
            let came = format_args!("{answers} whole answers written");
            system::say_unread(rt, &error, answers, came);
        }
        Broken::Unwritten { answers, error } => {
            let came = format_args!("{answers} whole answers written");
            system::say_unwritten(rt, &error, came);
        }
    }
}

// Answers all of standard input, and says so where it could not.
pub fn run(rt: &HostRuntime, mut progress: Progress) {
    if let Err(broken) = answer_all(rt, &mut progress) {
        if progress.piece.is_tally() {
            say_no_panel(rt, broken);
        } else {
            say_broken(rt, broken);
        }
    }
}
