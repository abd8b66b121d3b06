// The lines on standard error.
ghost use Rattle.std.specs.Prelude.{◌≤◌, length};
ghost use Rattle.put.specs.Put.{Put};
ghost use Rattle.keep.specs.Lines.{told_line, kept_line};

use crate::Rows;
use line::put_words;
use refusal::Refusal;

// The line for a text that the file can't hold, at the buffer's front.
pub fn put_told(line: usize, refusal: Refusal, out: &mut [u8]) -> usize
    requires { 100 ≤ length out.old }
    ensures { Put 0 (told_line line refusal) out.old out.new result }
{
    let after_line = put_words(out, 0, b"line");
    let after_count = line::put_field(out, after_line, line);
    let after_no = put_words(out, after_count, b": no");
    let after_number = line::put_field(out, after_no, usize::from(refusal.number));
    let after_place = line::put_field(out, after_number, refusal.place);
    put::put(out, after_place, b'\n')
}

// The line that ends a run that kept its file, at the buffer's front.
pub fn put_kept(rows: Rows, told: usize, out: &mut [u8]) -> usize
    requires { 100 ≤ length out.old }
    ensures { Put 0 (kept_line rows told) out.old out.new result }
{
    let after_kept = put_words(out, 0, b"kept");
    let after_frames = line::put_field(out, after_kept, rows.frames);
    let after_repaired = line::put_field(out, after_frames, rows.repaired);
    let after_refused = line::put_field(out, after_repaired, rows.refused);
    let after_told = line::put_field(out, after_refused, told);
    put::put(out, after_told, b'\n')
}
