// The reading program's text, taken in pieces, and its answer line.
#![tactic(auto)]

ghost use Rattle.std.specs.Prelude.{◌≡◌, true, false, ◌+◌, ◌≤◌, length, MatchOption};
ghost use Rattle.bits.specs.Tab.{placed};
ghost use Rattle.line.specs.Line.{line_of};
ghost use Rattle.line.specs.Outcome.{Answered};
ghost use Rattle.line.specs.declared.Outcome.TheVariants.{Heard as heard};
ghost use Rattle.text.specs.Answer.{Shown, narrowed};
ghost use Rattle.text.specs.Said.{said_by, Heard};
ghost use Rattle.text.specs.Scan.{start, refuse, step, grown, shut, run, ended, empty, said, line_at, outcome_at};
ghost use Rattle.text.specs.Text.{bad, frame_of, payload_in, answer_to, outcome_to};

use layout::{LONGEST, MOST_SYMBOLS};
use line::{Answer, Outcome};
use lora::{Expected, Received};
use refusal::Refusal;
use std::marker::Model;

// The numbers that there is place for. A frame without a header has three in front of its text.
pub const NUMBERS: usize = 837;

// How far a text was taken, with the numbers before the open one. A flag for a bad text and no enum: the definitions' `State` keeps
// the digits and numbers of a text that became bad, and `step` speaks of them.
#[derive(Clone, Copy)]
pub struct Scan {
    refused: bool,
    digits: usize,
    value: usize,
    numbers: [u16; NUMBERS],
    count: usize,
}

impl Model for Scan {
    ghost use Rattle.text.specs.Scan.{State};

    ghost Value = { State };

    ghost use Rattle.text.specs.Held.{state_of, fields_of, Sane};

    ghost view = { state_of };

    ghost invariant = { Sane };

    ghost inverse = { fields_of };

    ghost inverse_ok = { λ c h. h.made };
}

impl Scan {
    // Nothing taken yet.
    #[tactic(auto, unfolding(crate::specs::Scan::start))]
    pub fn new() -> Scan
        ensures { result ≡ start }
    {
        Scan {
            refused: false,
            digits: 0,
            value: 0,
            numbers: [0u16; NUMBERS],
            count: 0,
        }
    }

    // Nothing taken again. The places that held numbers are emptied, and no others are touched.
    #[tactic(auto, unfolding(crate::specs::Scan::start))]
    pub fn clear(&mut self)
        ensures { self.new ≡ start }
    {
        self.refused = false;
        self.end_number();
        self.numbers[..self.count].fill(0);
        self.count = 0;
    }

    // No number is open.
    fn end_number(&mut self)
        ensures { self.new ≡ record { refused = self.old.refused; digits = 0; value = 0; numbers = self.old.numbers } }
    {
        self.digits = 0;
        self.value = 0;
    }

    // The text is bad, and stays so.
    #[tactic(auto, unfolding(crate::specs::Scan::refuse))]
    pub fn refuse(&mut self)
        ensures { self.new ≡ refuse self.old }
    {
        self.refused = true;
    }

    // The open number, if any, goes behind the others; there is place for 837.
    #[tactic(auto, unfolding(crate::specs::Scan::shut, crate::specs::Scan::refuse))]
    fn close_number(&mut self)
        requires { self.old.refused ≡ false }
        ensures { self.new ≡ shut self.old }
    {
        if self.digits == 0 {
            return;
        }
        if self.count < NUMBERS {
            self.numbers[self.count] = self.value as u16;
            self.count += 1;
            self.end_number();
        } else {
            self.refused = true;
        }
    }

    // A digit more of the open number: at most five, of a value of at most 65535.
    #[tactic(auto, unfolding(crate::specs::Scan::grown, crate::specs::Scan::refuse))]
    fn add_digit(&mut self, b: u8)
        requires digit { 48 ≤ b }
        requires going { self.old.refused ≡ false }
        ensures { self.new ≡ grown self.old b }
    {
        let value = self.value * 10 + (b as usize - 48);
        if self.digits < 5 && value <= 65535 {
            self.digits += 1;
            self.value = value;
        } else {
            self.refused = true;
        }
    }

    // One byte of the text.
    #[tactic(auto, unfolding(crate::specs::Scan::step, crate::specs::Scan::refuse))]
    pub fn take_byte(&mut self, b: u8)
        ensures { self.new ≡ step self.old b }
    {
        if self.refused {
            return;
        }
        match b {
            b' ' | b'\n' => self.close_number(),
            b'0'..=b'9' => self.add_digit(b),
            _ => self.refused = true,
        }
    }

    // The next piece of the text, of any length.
    #[tactic(auto, unfolding(crate::specs::Scan::run))]
    pub fn feed(&mut self, piece: &[u8])
        ensures { self.new ≡ run self.old piece.now }
    {
        for &b in piece {
            self.take_byte(b);
        }
    }

    // The end of the text.
    #[tactic(auto, unfolding(crate::specs::Scan::ended))]
    pub fn finish(&mut self)
        ensures { self.new ≡ ended self.old }
    {
        if !self.refused {
            self.close_number();
        }
    }

    // Whether nothing but separators was taken.
    #[tactic(auto, unfolding(crate::specs::Scan::empty))]
    pub fn is_empty(&self) -> bool
        ensures { result ≡ empty self.now }
    {
        !self.refused && self.digits == 0 && self.count == 0
    }

    // The numbers that are closed.
    pub fn closed(&self) -> &[u16]
        ensures { result.now ≡ self.now.numbers }
    {
        &self.numbers[..self.count]
    }

    // The same of a text that is not bad.
    pub fn numbers(&self) -> Option<&[u16]>
        ensures { MatchOption result (self.now.refused ≡ true) (λ numbers. (self.now.refused ≡ false) × (numbers.now ≡ self.now.numbers)) }
    {
        if self.refused {
            return None;
        }
        Some(self.closed())
    }

    // The frame that the text is, once it has ended.
    #[tactic(auto, unfolding(crate::specs::Scan::said))]
    pub fn frame(&self) -> Option<Frame<'_>>
        ensures { said_by result ≡ said bad frame_of self.now }
    {
        frame_of(self.numbers()?)
    }

    // The line that answers the text that was taken and ends here, written to the lent buffer.
    #[tactic(auto, unfolding(crate::specs::Scan::line_at, crate::specs::Scan::outcome_at, crate::specs::Scan::taken))]
    pub fn answer(&mut self, out: &mut [u8]) -> Answer
        requires { 640 ≤ length out.old }
        ensures { Answered 640 (line_at self.old) (outcome_at self.old) out.old out.new result }
    {
        self.finish();
        answer_text(self.frame(), out)
    }
}

// A frame's text: SF as it stands there, the low-rate flag, and the symbols.
#[derive(Clone, Copy)]
pub struct Frame<'a> {
    pub sf: u16,
    pub low: bool,
    pub symbols: &'a [u16],
}

// The frame that numbers are: SF, low rate 0 or 1, and no more symbols than a frame has.
#[tactic(auto, unfolding(crate::specs::Text::frame_of))]
pub fn frame_of<'a>(numbers: &'a [u16]) -> Option<Frame<'a>>
    ensures { said_by result ≡ frame_of numbers.now }
{
    match numbers {
        [sf, low @ 0..=1, symbols @ ..] if symbols.len() <= MOST_SYMBOLS => Some(Frame {
            sf: *sf,
            low: *low == 1,
            symbols,
        }),
        _ => None,
    }
}

// SF as the operations take it: what does not fit a byte is no spreading factor, and 255 is none either.
pub fn narrow(sf: u16) -> u8
    ensures { result ≡ narrowed sf }
{
    u8::try_from(sf).unwrap_or(255)
}
// The line for what was read into this payload.
fn line_for(received: Received, payload: [u8; LONGEST], out: &mut [u8]) -> usize
    requires { Shown received × (640 ≤ length out.old) }
    ensures { (result ≡ length (line_of received (payload_in received payload))) × (result ≤ 640) × (out.new ≡ placed 0 (line_of received (payload_in received payload)) out.old) }
{
    match received {
        Ok(a) => line::write_line(received, &payload[..a.length], out),
        Err(_) => line::write_line(received, &[], out),
    }
}

// The line, and what was heard.
pub fn answer_with(received: Received, payload: [u8; LONGEST], out: &mut [u8]) -> Answer
    requires { Shown received × (640 ≤ length out.old) }
    ensures { Answered 640 (line_of received (payload_in received payload)) (heard received) out.old out.new result }
{
    Answer {
        length: line_for(received, payload, out),
        outcome: Outcome::Heard(received),
    }
}

// What read says of a frame; a text that is none is refused.
fn receive(frame: Option<Frame>, payload: &mut [u8], hurts: &mut [u8]) -> Received
    ensures { Heard (said_by frame.entry) payload.old payload.new hurts.old hurts.new result }
{
    let Some(frame) = frame else {
        return Err(Refusal {
            number: refusal::BAD_TEXT,
            place: 0,
        });
    };
    lora::read(
        narrow(frame.sf),
        frame.low,
        Expected::Explicit,
        frame.symbols,
        payload,
        hurts,
    )
}

// Reads a text's frame, where it is one, and writes its line.
fn answer_text(frame: Option<Frame>, out: &mut [u8]) -> Answer
    requires { 640 ≤ length out.old }
    ensures { Answered 640 (answer_to (said_by frame.entry)) (outcome_to (said_by frame.entry)) out.old out.new result }
{
    let mut payload = [0u8; LONGEST];
    let mut hurts = [0u8; MOST_SYMBOLS];
    let received = receive(frame, &mut payload, &mut hurts);
    answer_with(received, payload, out)
}
