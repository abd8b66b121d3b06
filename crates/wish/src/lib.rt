// The coding program's text, taken in pieces, and its answer line.
#![tactic(auto)]

ghost use Rattle.std.specs.Prelude.{◌≡◌, [], ◌+◌, ◌*◌, ◌≤◌, length};
ghost use Rattle.bits.specs.Bit.{is_set};
ghost use Rattle.line.specs.Line.{line_of};
ghost use Rattle.text.specs.Answer.{narrowed};
ghost use Rattle.line.specs.Outcome.{Answered};
ghost use Rattle.put.specs.Put.{Put};
ghost use Rattle.line.specs.declared.Outcome.TheVariants.{Unmade};
ghost use Rattle.std.specs.Prelude.{Err};
ghost use Rattle.wish.specs.Answer.{settings_taken, settings_in_front, sent_line, Fitted};
ghost use Rattle.wish.specs.Scan.{start, kept, step, headed, worded, run, next_word, shut_word, grown_word, opened, paired, complete, digit_of, line_at, outcome_at};
ghost use Rattle.wish.specs.Wish.{wish, fields, front_of, frame_line, outcome_for, answer_to, outcome_to};

use line::{Answer, Outcome};
use lora::{Kind, Settings};
use refusal::Refusal;
use std::marker::Model;

// Room for the longest line of a frame, and more.
pub const LINE: usize = 17600;

// How far the payload's word was taken: not begun, a hyphen, whole bytes, a byte's upper digit behind whole bytes,
// ended, or no payload.
#[derive(Clone, Copy)]
pub enum Word {
    Before,
    Hyphen,
    Whole,
    Half { high: u8 },
    Closed,
    Bad,
}

// How far a wish was taken: the numbers in front of the payload, as a capture's are taken; how far the payload's word was; and
// its first 256 bytes, which stand for any more, since no frame has as many.
#[derive(Clone, Copy)]
pub struct Scan {
    head: capture::Scan,
    word: Word,
    bytes: [u8; 256],
    count: usize,
}

impl Model for Scan {
    ghost use Rattle.wish.specs.Scan.{State};

    ghost Value = { State };

    ghost use Rattle.wish.specs.Held.{state_of, fields_of, Sane};

    ghost view = { state_of };

    ghost invariant = { Sane };

    ghost inverse = { fields_of };

    ghost inverse_ok = { λ c h. h.made };
}

impl Scan {
    // Nothing taken yet.
    #[tactic(auto, unfolding(crate::specs::Scan::start))]
    pub fn new() -> Scan
        ensures { result ≡ start }
    {
        Scan {
            head: capture::Scan::new(),
            word: Word::Before,
            bytes: [0u8; 256],
            count: 0,
        }
    }

    // Nothing taken again.
    #[tactic(auto, unfolding(crate::specs::Scan::start))]
    pub fn clear(&mut self)
        ensures { self.new ≡ start }
    {
        self.head.clear();
        self.word = Word::Before;
        self.clear_payload();
    }

    // No byte of a payload is kept. The places that held some are emptied, and no others are touched.
    fn clear_payload(&mut self)
        ensures { self.new ≡ record { head = self.old.head; word = self.old.word; payload = [] } }
    {
        self.bytes[..self.count].fill(0);
        self.count = 0;
    }

    // Keeps the payload's byte that this byte of the text is the end of, if any.
    #[tactic(auto, unfolding(crate::specs::Scan::kept))]
    fn keep_byte(&mut self, b: u8)
        ensures { self.new ≡ kept self.old b }
    {
        let Word::Half { high } = self.word else {
            return;
        };
        let Some(low) = hex_value(b) else {
            return;
        };
        if high < 16 && self.count < 256 {
            self.bytes[self.count] = high * 16 + low;
            self.count += 1;
        }
    }

    // One byte behind the numbers.
    #[tactic(auto, unfolding(crate::specs::Scan::kept, crate::specs::Scan::worded))]
    fn take_payload(&mut self, b: u8)
        ensures { self.new ≡ worded self.old b }
    {
        self.keep_byte(b);
        self.word = next_word(self.word, b);
    }

    // One byte of the text. In front of the payload stand four numbers, and behind a mark the agreed length before them.
    #[tactic(auto, unfolding(crate::specs::Scan::step, crate::specs::Scan::headed))]
    fn take_byte(&mut self, b: u8)
        ensures { self.new ≡ step self.old b }
    {
        if self.head.closed().len() < usize::from(self.head.is_agreed()) + 4 {
            self.head.take_byte(b);
            self.word = Word::Before;
            self.clear_payload();
        } else {
            self.take_payload(b);
        }
    }

    // The next piece of the text, of any length.
    pub fn feed(&mut self, piece: &[u8])
        ensures { self.new ≡ run self.old piece.now }
    {
        for &b in piece {
            self.take_byte(b);
        }
    }

    // The settings of the wish that the text is, if it is one and ends here.
    #[tactic(auto, unfolding(crate::specs::Answer::settings_taken))]
    fn settings(&self) -> Option<Settings>
        ensures { result ≡ settings_taken self.now }
    {
        if !is_complete(self.word) {
            return None;
        }
        settings_of(self.head.is_agreed(), self.head.closed())
    }

    // The line that answers the text that was taken and ends here, written to the lent buffer.
    pub fn answer(&self, out: &mut [u8]) -> Answer
        requires { 17600 ≤ length out.old }
        ensures { Answered 17600 (line_at self.now) (outcome_at self.now) out.old out.new result }
    {
        match self.settings() {
            Some(settings) => answer_wish(settings, &self.bytes[..self.count], out),
            None => decline(
                Refusal {
                    number: refusal::BAD_TEXT,
                    place: 0,
                },
                out,
            ),
        }
    }
}

// The value of a hex digit of either case.
fn hex_value(b: u8) -> Option<u8>
    ensures { result ≡ digit_of b }
{
    match b {
        b'0'..=b'9' => Some(b - b'0'),
        b'A'..=b'F' => Some(b - b'A' + 10),
        b'a'..=b'f' => Some(b - b'a' + 10),
        _ => None,
    }
}

// The payload's word, ended by a separator: a byte that lacks its lower digit is no byte.
fn shut_word(word: Word) -> Word
    ensures { result ≡ shut_word word }
{
    match word {
        Word::Before => Word::Before,
        Word::Hyphen | Word::Whole | Word::Closed => Word::Closed,
        Word::Half { .. } | Word::Bad => Word::Bad,
    }
}

// A byte's upper digit.
fn open_byte(b: u8) -> Word
    ensures { result ≡ opened b }
{
    match hex_value(b) {
        Some(high) => Word::Half { high },
        None => Word::Bad,
    }
}

// A byte's lower digit.
fn close_byte(b: u8) -> Word
    ensures { result ≡ paired b }
{
    match hex_value(b) {
        Some(_) => Word::Whole,
        None => Word::Bad,
    }
}

// The payload's word with a byte more that is no separator: a hyphen stands alone, digits in pairs.
fn grow_word(word: Word, b: u8) -> Word
    ensures { result ≡ grown_word word b }
{
    match word {
        Word::Before if b == b'-' => Word::Hyphen,
        Word::Before | Word::Whole => open_byte(b),
        Word::Half { .. } => close_byte(b),
        Word::Hyphen | Word::Closed | Word::Bad => Word::Bad,
    }
}

#[tactic(auto, unfolding(crate::specs::Scan::next_word))]
fn next_word(word: Word, b: u8) -> Word
    ensures { result ≡ next_word word b }
{
    match b {
        b' ' | b'\n' => shut_word(word),
        _ => grow_word(word, b),
    }
}

// Whether the payload's word is a payload where it ends here.
fn is_complete(word: Word) -> bool
    ensures { result ≡ complete word }
{
    matches!(word, Word::Hyphen | Word::Whole | Word::Closed)
}

// Settings with SF and the low rate as numbers; an SF that fits no byte becomes 255, which is none.
fn settings_with(sf: u16, low: u16, kind: Kind) -> Settings
    ensures { result ≡ record { sf = narrowed sf; low = is_set low; kind = kind } }
{
    Settings {
        sf: text::narrow(sf),
        low: low == 1,
        kind,
    }
}

// The settings that a wish's numbers say, whose flags are 0 or 1; a CR that fits no byte becomes 255, which is none.
#[tactic(auto, unfolding(crate::specs::Answer::settings_in_front, crate::specs::Answer::narrow, crate::specs::Scan::flags_in, crate::specs::Scan::settings_in, crate::specs::Wish::flags_hold, crate::specs::Wish::settings_of))]
fn settings_of(agreed: bool, numbers: &[u16]) -> Option<Settings>
    ensures { result ≡ settings_in_front agreed numbers.now }
{
    match (agreed, numbers) {
        (false, [sf, low @ 0..=1, cr, checked @ 0..=1]) => Some(settings_with(
            *sf,
            *low,
            Kind::Explicit {
                cr: text::narrow(*cr),
                checked: *checked == 1,
            },
        )),
        (true, [length, sf, low @ 0..=1, cr, checked @ 0..=1]) => Some(settings_with(
            *sf,
            *low,
            Kind::Agreed {
                length: usize::from(*length),
                cr: text::narrow(*cr),
                checked: *checked == 1,
            },
        )),
        _ => None,
    }
}

// Writes the symbols at a place, each after a space, and answers the next place.
fn put_fields(out: &mut [u8], at: usize, symbols: &[u16]) -> usize
    requires { at + 21 * length symbols.now ≤ length out.old }
    ensures { Put at (fields symbols.now) out.old out.new result × (result ≤ at + 21 * length symbols.now) }
{
    let mut next = at;
    for &symbol in symbols {
        next = line::put_field(out, next, usize::from(symbol));
    }
    next
}

// Writes what stands in front of a frame's line, and answers the next place: without a header the mark and the agreed values.
fn put_front(kind: Kind, out: &mut [u8]) -> usize
    requires { 65 ≤ length out.old }
    ensures { Put 0 (front_of kind) out.old out.new result × (result ≤ 65) }
{
    match kind {
        Kind::Explicit { cr: _, checked: _ } => 0,
        Kind::Agreed {
            length,
            cr,
            checked,
        } => {
            let after_mark = put::put(out, 0, capture::MARK);
            let after_length = line::put_field(out, after_mark, length);
            let after_cr = line::put_field(out, after_length, usize::from(cr));
            let after_flag = line::put_field(out, after_cr, usize::from(checked));
            put::put(out, after_flag, 32)
        }
    }
}

// Writes a frame's line and answers its length.
fn put_frame(s: Settings, symbols: &[u16], out: &mut [u8]) -> usize
    requires { (length symbols.now ≤ 832) × (17600 ≤ length out.old) }
    ensures { Put 0 (frame_line s symbols.now) out.old out.new result × (result ≤ 17600) }
{
    let kind = s.kind;
    let after_front = put_front(kind, out);
    let after_sf = line::put_decimal(out, after_front, usize::from(s.sf));
    let after_low = line::put_field(out, after_sf, usize::from(s.low));
    let after_symbols = put_fields(out, after_low, symbols);
    put::put(out, after_symbols, 10)
}

// The answer to what is refused.
fn decline(refusal: Refusal, out: &mut [u8]) -> Answer
    requires { 17600 ≤ length out.old }
    ensures { Answered 17600 (line_of (Err refusal) []) Unmade out.old out.new result }
{
    Answer {
        length: line::write_line(Err(refusal), &[], out),
        outcome: Outcome::Unmade,
    }
}

// The answer to what was coded into these symbols.
fn answer_with(
    s: Settings,
    counted: Result<usize, Refusal>,
    symbols: &[u16],
    out: &mut [u8],
) -> Answer
    requires { Fitted counted × (length symbols.now ≡ 832) × (17600 ≤ length out.old) }
    ensures { Answered 17600 (sent_line s counted symbols.now) (outcome_for counted) out.old out.new result }
{
    match counted {
        Ok(count) => Answer {
            length: put_frame(s, &symbols[..count], out),
            outcome: Outcome::Made,
        },
        Err(refusal) => decline(refusal, out),
    }
}

// Codes a payload with these settings, and writes the line of its frame.
fn answer_wish(s: Settings, payload: &[u8], out: &mut [u8]) -> Answer
    requires { 17600 ≤ length out.old }
    ensures { Answered 17600 (answer_to (wish s payload.now)) (outcome_to (wish s payload.now)) out.old out.new result }
{
    let mut symbols = [0u16; layout::MOST_SYMBOLS];
    let counted = lora::code(s, payload, &mut symbols);
    answer_with(s, counted, &symbols, out)
}
