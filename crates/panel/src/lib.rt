// What came of a run's texts, counted, and shown as a closing line or as a panel. What read said of captures goes into a tally;
// what the tally refuses, and what was not read, is counted beside it.
#![tactic(auto)]

ghost use Rattle.std.specs.Prelude.{◌≡◌, ◌+◌, ◌≤◌, length};
ghost use Rattle.bits.specs.Sum.{sum};
ghost use Rattle.put.specs.Put.{Put};
ghost use Rattle.tally.specs.Tally.{hear_of};
ghost use Rattle.panel.specs.Counts.{none, more, capped, refused_by, over_by, noting, counted, end_word, clean_in, refused_in, closing_line};
ghost use Rattle.panel.specs.Panel.{panel_line, accepted_lines, refused_lines, beside_lines, panel_of};

use line::{Outcome, put_field};
use lora::Received;
use put::{put, put_words};
use refusal::Refusal;
use tally::Tally;

// What came of the texts of a run: how many were answered; what read said of the captures; how many frames were made; how many
// texts were refused with no reading, bad ones and wishes; for how many outcomes the tally had no room.
#[derive(Clone, Copy)]
pub struct Counts {
    pub texts: usize,
    pub tally: Tally,
    pub made: usize,
    pub refused: usize,
    pub over: usize,
}

pub fn nothing() -> Counts
    ensures { result ≡ none }
{
    Counts {
        texts: 0,
        tally: tally::none(),
        made: 0,
        refused: 0,
        over: 0,
    }
}

// One more, up to the largest number there is.
pub fn one_more(n: usize) -> usize
    ensures { result ≡ more n }
{
    n.saturating_add(1)
}

// So many and so many more, up to the largest number there is.
pub fn together(a: usize, b: usize) -> usize
    ensures { result ≡ capped (a + b) }
{
    a.saturating_add(b)
}

// A text that is no capture: the tally says that read gives no such outcome.
fn refused_by(said: Result<Tally, Refusal>, refused: usize) -> usize
    ensures { result ≡ refused_by said refused }
{
    match said {
        Err(e) if e.number == refusal::NO_OUTCOME => one_more(refused),
        _ => refused,
    }
}

// An outcome for which the tally had no room.
fn over_by(said: Result<Tally, Refusal>, over: usize) -> usize
    ensures { result ≡ over_by said over }
{
    match said {
        Err(e) if e.number != refusal::NO_OUTCOME => one_more(over),
        _ => over,
    }
}

// What read said of a capture.
fn hear(c: Counts, received: Received) -> Counts
    ensures { result ≡ noting c (hear_of c.tally received) }
{
    let said = tally::hearing(c.tally, received);
    Counts {
        texts: one_more(c.texts),
        tally: said.unwrap_or(c.tally),
        made: c.made,
        refused: refused_by(said, c.refused),
        over: over_by(said, c.over),
    }
}

// A text was answered.
pub fn count_in(c: Counts, outcome: Outcome) -> Counts
    ensures { result ≡ counted c outcome }
{
    let tally = c.tally;
    match outcome {
        Outcome::Heard(received) => hear(c, received),
        Outcome::Made => Counts {
            texts: one_more(c.texts),
            tally,
            made: one_more(c.made),
            refused: c.refused,
            over: c.over,
        },
        Outcome::Unmade => Counts {
            texts: one_more(c.texts),
            tally,
            made: c.made,
            refused: one_more(c.refused),
            over: c.over,
        },
    }
}

// The tally's numbers by `as`: no From makes a usize of 32 bits or of 64.
fn clean_in(c: Counts) -> usize
    ensures { result ≡ clean_in c }
{
    let tally = c.tally;
    together(tally.clean as usize, c.made)
}

fn refused_in(c: Counts) -> usize
    ensures { result ≡ refused_in c }
{
    let tally = c.tally;
    together(tally::refused_in_all(tally) as usize, c.refused)
}

// The first word of the closing line, which tells a tally that counts all outcomes from one that was full.
fn put_end(out: &mut [u8], over: usize) -> usize
    requires { 4 ≤ length out.old }
    ensures { Put 0 (end_word over) out.old out.new result × (result ≤ 4) }
{
    if over == 0 {
        put_words(out, 0, b"end")
    } else {
        put_words(out, 0, b"full")
    }
}

// The line that ends a good run, at the buffer's front.
pub fn closing(c: Counts, out: &mut [u8]) -> usize
    requires { 100 ≤ length out.old }
    ensures { Put 0 (closing_line c) out.old out.new result }
{
    let tally = c.tally;
    let after_end = put_end(out, c.over);
    let after_texts = put_field(out, after_end, c.texts);
    let after_clean = put_field(out, after_texts, clean_in(c));
    let after_repaired = put_field(out, after_clean, tally.repaired as usize);
    let after_refused = put_field(out, after_repaired, refused_in(c));
    put(out, after_refused, 10)
}

// A line of the panel.
fn put_line(out: &mut [u8], at: usize, words: &[u8], n: usize) -> usize
    requires { at + (length words.now + 23) ≤ length out.old }
    ensures { Put at (panel_line words.now n) out.old out.new result × (result ≤ at + (length words.now + 23)) }
{
    let after_words = put_words(out, at, words);
    let after_colon = put(out, after_words, b':');
    let after_count = put_field(out, after_colon, n);
    put(out, after_count, 10)
}

// What was heard, and accepted.
fn put_accepted(out: &mut [u8], at: usize, t: Tally) -> usize
    requires { at + 150 ≤ length out.old }
    ensures { Put at (accepted_lines t) out.old out.new result × (result ≤ at + 150) }
{
    let after_heard = put_line(out, at, b"frames heard", t.heard as usize);
    let after_clean = put_line(out, after_heard, b"accepted clean", t.clean as usize);
    put_line(out, after_clean, b"accepted repaired", t.repaired as usize)
}

// What the panel calls a refusal of read, and the refusal's number.
const REFUSALS: [(&[u8], u8); 11] = [
    (b"refused 1, SF not 7 to 12", refusal::BAD_SF),
    (b"refused 2, CR not 1 to 4", refusal::BAD_CR),
    (b"refused 3, length above 255", refusal::TOO_LONG),
    (b"refused 4, room too short", refusal::OUT_SHORT),
    (b"refused 5, too few symbols", refusal::FEW_SYMBOLS),
    (b"refused 6, symbol too large", refusal::SYMBOL_OVER),
    (b"refused 7, codeword not readable", refusal::UNREADABLE),
    (b"refused 9, header check wrong", refusal::HEADER_CHECK),
    (b"refused 10, header bit set", refusal::HEADER_BIT),
    (b"refused 11, header CR unknown", refusal::HEADER_CR),
    (b"refused 12, payload checksum wrong", refusal::CHECKSUM),
];

// Refused under each number that read gives.
fn put_refused(out: &mut [u8], at: usize, cells: [u32; 13]) -> usize
    requires { at + 650 ≤ length out.old }
    ensures { Put at (refused_lines cells) out.old out.new result × (result ≤ at + 650) }
{
    let mut next = at;
    for (words, number) in REFUSALS {
        next = put_line(out, next, words, cells[usize::from(number)] as usize);
    }
    next
}

// Counted beside the tally.
fn put_beside(out: &mut [u8], at: usize, c: Counts) -> usize
    requires { at + 100 ≤ length out.old }
    ensures { Put at (beside_lines c) out.old out.new result }
{
    let after_14 = put_line(out, at, b"no capture, 14", c.refused);
    put_line(out, after_14, b"not counted, 17", c.over)
}

// The panel, from a place on.
pub fn put_panel(out: &mut [u8], at: usize, c: Counts) -> usize
    requires { at + 1000 ≤ length out.old }
    ensures { Put at (panel_of c) out.old out.new result }
{
    let tally = c.tally;
    let cells = tally.refused;
    let after_accepted = put_accepted(out, at, tally);
    let after_refused = put_refused(out, after_accepted, cells);
    put_beside(out, after_refused, c)
}
