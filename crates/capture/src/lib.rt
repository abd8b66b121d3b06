// Captures for the programs that take many frames: document 01's text, or a mark, agreed values and then 01's text.
#![tactic(auto)]

ghost use Rattle.std.specs.Prelude.{◌≡◌, ◌≤◌, length};
ghost use Rattle.line.specs.Outcome.{Answered};
ghost use Rattle.text.specs.Text.{is_separator, frame_of};
ghost use Rattle.capture.specs.Call.{called, as_called, reads, Heard};
ghost use Rattle.capture.specs.Capture.{agreed_of};
ghost use Rattle.capture.specs.Scan.{start, fresh, step, run, ended, said, Fronted, line_at, outcome_at};

use layout::{LONGEST, MOST_SYMBOLS};
use line::{Answer, Outcome};
use lora::{Expected, Received};
use refusal::Refusal;
use std::marker::Model;

// What stands in front of a frame without a header: =.
pub const MARK: u8 = b'=';

// How far a capture was taken: whether a mark stood in front, and the text of numbers.
#[derive(Clone, Copy)]
pub struct Scan {
    agreed: bool,
    text: text::Scan,
}

impl Model for Scan {
    ghost use Rattle.capture.specs.Scan.{State};

    ghost Value = { State };

    ghost view = { λ c. record { agreed = c.agreed; text = c.text } };

    ghost inverse = { λ s. record { agreed = s.agreed; text = s.text } };
}

// The call of read that a capture makes.
#[derive(Clone, Copy)]
pub struct Call<'a> {
    pub sf: u8,
    pub low: bool,
    pub expected: Expected,
    pub symbols: &'a [u16],
}

// Whether a byte stands between numbers: a space or a line end.
fn is_separator(b: u8) -> bool
    ensures { result ≡ is_separator b }
{
    matches!(b, b' ' | b'\n')
}

impl Scan {
    // Nothing taken yet.
    #[tactic(auto, unfolding(crate::specs::Scan::start))]
    pub fn new() -> Scan
        ensures { result ≡ start }
    {
        Scan {
            agreed: false,
            text: text::Scan::new(),
        }
    }

    // Nothing taken again.
    #[tactic(auto, unfolding(crate::specs::Scan::start))]
    pub fn clear(&mut self)
        ensures { self.new ≡ start }
    {
        self.agreed = false;
        self.text.clear();
    }

    // Whether a capture without a header is scanned.
    pub fn is_agreed(&self) -> bool
        ensures { result ≡ self.now.agreed }
    {
        self.agreed
    }

    // The numbers of its text that are closed.
    pub fn closed(&self) -> &[u16]
        ensures { result.now ≡ self.now.text.numbers }
    {
        self.text.closed()
    }

    // Whether nothing but separators was taken, so that a mark is in its place.
    #[tactic(auto, unfolding(crate::specs::Scan::fresh))]
    fn is_fresh(&self) -> bool
        ensures { result ≡ fresh self.now }
    {
        !self.agreed && self.text.is_empty()
    }

    // One byte of the capture. To the text a mark is a byte that makes it bad.
    #[tactic(auto, unfolding(crate::specs::Scan::step))]
    pub fn take_byte(&mut self, b: u8)
        ensures { self.new ≡ step self.old b }
    {
        if b == MARK && self.is_fresh() {
            self.agreed = true;
            self.text.clear();
        } else {
            self.text.take_byte(b);
        }
    }

    // Takes the front of a piece, in which a mark might come: separators, which change nothing, and the byte behind them. Answers where
    // that ends.
    fn take_front(&mut self, piece: &[u8]) -> usize
        ensures { Fronted self.old piece.now self.new result }
    {
        if !self.is_fresh() {
            return 0;
        }
        for (i, &b) in piece.iter().enumerate() {
            if !is_separator(b) {
                self.take_byte(b);
                return i + 1;
            }
        }
        piece.len()
    }

    // The next piece of the capture, of any length. Behind the front it goes into the text, which asks for no mark at each byte.
    pub fn feed(&mut self, piece: &[u8])
        ensures { self.new ≡ run self.old piece.now }
    {
        let end = self.take_front(piece);
        self.text.feed(&piece[end..]);
    }

    // The end of the capture.
    #[tactic(auto, unfolding(crate::specs::Scan::ended))]
    pub fn finish(&mut self)
        ensures { self.new ≡ ended self.old }
    {
        self.text.finish();
    }

    // The call that a capture makes that has ended.
    pub fn call(&self) -> Option<Call<'_>>
        ensures { called result ≡ as_called (said self.now) }
    {
        let numbers = self.text.numbers()?;
        if self.agreed {
            agreed_call(numbers)
        } else {
            call_for(numbers, Expected::Explicit)
        }
    }

    // What read answers to a capture that has ended.
    pub fn receive(&self, payload: &mut [u8], hurts: &mut [u8]) -> Received
        ensures { Heard (said self.now) payload.old payload.new hurts.old hurts.new result }
    {
        let Some(call) = self.call() else {
            return Err(Refusal {
                number: refusal::BAD_TEXT,
                place: 0,
            });
        };
        lora::read(
            call.sf,
            call.low,
            call.expected,
            call.symbols,
            payload,
            hurts,
        )
    }

    // What came of the capture that was taken and ends here, where no line is asked.
    pub fn hear(&mut self) -> Outcome
        ensures { result ≡ outcome_at self.old }
    {
        self.finish();
        let mut payload = [0u8; LONGEST];
        let mut hurts = [0u8; MOST_SYMBOLS];
        Outcome::Heard(self.receive(&mut payload, &mut hurts))
    }

    // The line that answers the capture that was taken and ends here, written to the lent buffer.
    pub fn answer(&mut self, out: &mut [u8]) -> Answer
        requires { 640 ≤ length out.old }
        ensures { Answered 640 (line_at self.old) (outcome_at self.old) out.old out.new result }
    {
        self.finish();
        let mut payload = [0u8; LONGEST];
        let mut hurts = [0u8; MOST_SYMBOLS];
        let received = self.receive(&mut payload, &mut hurts);
        text::answer_with(received, payload, out)
    }
}

// The call for document 01's text. SF that fits no byte becomes 255, which is none.
fn call_for<'a>(numbers: &'a [u16], expected: Expected) -> Option<Call<'a>>
    ensures { called result ≡ as_called (reads expected (frame_of numbers.now)) }
{
    let frame = text::frame_of(numbers)?;
    Some(Call {
        sf: text::narrow(frame.sf),
        low: frame.low,
        expected,
        symbols: frame.symbols,
    })
}

// The call for a frame without a header: agreed length, CR and flag, then 01's text.
#[tactic(auto, unfolding(crate::specs::Capture::agreed_of))]
fn agreed_call<'a>(numbers: &'a [u16]) -> Option<Call<'a>>
    ensures { called result ≡ as_called (agreed_of numbers.now) }
{
    match numbers {
        [length, cr, checked @ 0..=1, rest @ ..] => call_for(
            rest,
            Expected::Agreed {
                length: usize::from(*length),
                cr: text::narrow(*cr),
                checked: *checked == 1,
            },
        ),
        _ => None,
    }
}
