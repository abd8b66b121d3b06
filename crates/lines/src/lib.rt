// The answers to an input, handed out while it comes in chunks of any size.
#![tactic(auto)]

ghost use Rattle.std.specs.Prelude.{◌≡◌, ◌+◌, ◌≤◌, ◌<◌, ◌==◌, false, length, position};
ghost use Rattle.line.specs.Outcome.{Answered};
ghost use Rattle.panel.specs.Counts.{none};
ghost use Rattle.put.specs.Put.{Put};
ghost use Rattle.lines.specs.Lines.{frames as frame_job, wishes as wish_job, hurts as hurt_job, tallies as tally_job, end_of};
ghost use Rattle.lines.specs.Stream.{begin, next, fed, ended, last_line, last_said, start_of, job_of, run_at, line_at, outcome_at, part, is_tally, Ends, Went, line_ends};

use line::Answer;
use panel::Counts;

// What was taken of the piece that is open: of a capture to be read, of a wish for a frame, of a capture whose hurt symbols are
// asked, or of a capture that is only counted.
#[derive(Clone, Copy)]
pub enum Piece {
    Frame(capture::Scan),
    Wish(wish::Scan),
    Hurt(capture::Scan),
    Tally(capture::Scan),
}

// How far a run has come: the open piece, whether it has a byte yet, and the counts of the pieces before it.
#[derive(Clone, Copy)]
pub struct Progress {
    pub piece: Piece,
    pub begun: bool,
    pub counts: Counts,
}

// The place in a chunk at which a run goes on, and how many bytes of answers wait in the lent buffer.
#[derive(Clone, Copy)]
pub struct Step {
    pub at: usize,
    pub used: usize,
}

impl Piece {
    // Whether a run only counts, and ends with the panel.
    pub fn is_tally(&self) -> bool
        ensures { result ≡ is_tally self.now }
    {
        matches!(self, Piece::Tally(_))
    }

    // Opens the next piece, of the same kind, with nothing taken.
    fn renew(&mut self)
        ensures { self.new ≡ start_of (job_of self.old) }
    {
        match self {
            Piece::Frame(scan) => scan.clear(),
            Piece::Wish(scan) => scan.clear(),
            Piece::Hurt(scan) => scan.clear(),
            Piece::Tally(scan) => scan.clear(),
        }
    }

    // Bytes of the open piece.
    fn feed(&mut self, bytes: &[u8])
        ensures { self.new ≡ run_at self.old bytes.now }
    {
        match self {
            Piece::Frame(scan) => scan.feed(bytes),
            Piece::Wish(scan) => scan.feed(bytes),
            Piece::Hurt(scan) => scan.feed(bytes),
            Piece::Tally(scan) => scan.feed(bytes),
        }
    }

    // The line that answers the open piece, at the buffer's front.
    fn answer(&mut self, out: &mut [u8]) -> Answer
        requires { 17600 ≤ length out.old }
        ensures { Answered 17600 (line_at self.old) (outcome_at self.old) out.old out.new result × (job_of self.new ≡ job_of self.old) }
    {
        match self {
            Piece::Frame(scan) => scan.answer(out),
            Piece::Wish(scan) => scan.answer(out),
            Piece::Hurt(scan) => hurt::answer(scan, out),
            Piece::Tally(scan) => Answer {
                length: 0,
                outcome: scan.hear(),
            },
        }
    }

    // The same behind the bytes that wait.
    fn answer_behind(&mut self, out: &mut [u8], used: usize) -> Answer
        requires { used + 17600 ≤ length out.old }
        ensures { Put used (line_at self.old) out.old out.new (used + result.length) × (result.length ≤ 17600) × (result.outcome ≡ outcome_at self.old) × (job_of self.new ≡ job_of self.old) }
    {
        self.answer(&mut out[used..])
    }
}

// Where the first line end stands, if one does. By itself, since in its caller the loop is longer and its time goes by where it lies.
#[inline(never)]
fn first_end(bytes: &[u8]) -> Option<usize>
    ensures { result ≡ position (λ b. b == 10) bytes.now }
{
    bytes.iter().position(|b| *b == b'\n')
}

// The place of the next line end, or the chunk's length.
pub fn line_end(chunk: &[u8], from: usize) -> usize
    requires { from ≤ length chunk.now }
    ensures { Ends chunk.now from result }
{
    match first_end(&chunk[from..]) {
        Some(n) => from + n,
        None => chunk.len(),
    }
}

impl Progress {
    // A run that begins with this piece.
    fn begin(piece: Piece) -> Progress
        ensures { (result.piece ≡ piece) × (result.begun ≡ false) × (result.counts ≡ none) }
    {
        Progress {
            piece,
            begun: false,
            counts: panel::nothing(),
        }
    }

    // A run that reads frames.
    #[tactic(auto, unfolding(crate::specs::Stream::begin))]
    pub fn frames() -> Progress
        ensures { result ≡ begin frame_job }
    {
        Progress::begin(Piece::Frame(capture::Scan::new()))
    }

    // A run that makes frames.
    #[tactic(auto, unfolding(crate::specs::Stream::begin))]
    pub fn wishes() -> Progress
        ensures { result ≡ begin wish_job }
    {
        Progress::begin(Piece::Wish(wish::Scan::new()))
    }

    // A run that says which symbols were hurt.
    #[tactic(auto, unfolding(crate::specs::Stream::begin))]
    pub fn hurts() -> Progress
        ensures { result ≡ begin hurt_job }
    {
        Progress::begin(Piece::Hurt(capture::Scan::new()))
    }

    // A run that counts what came of captures.
    #[tactic(auto, unfolding(crate::specs::Stream::begin))]
    pub fn tallies() -> Progress
        ensures { result ≡ begin tally_job }
    {
        Progress::begin(Piece::Tally(capture::Scan::new()))
    }

    // Answers the open piece behind the bytes that wait, and opens the next; answers how many bytes wait then.
    #[tactic(auto, unfolding(crate::specs::Stream::next))]
    fn close_piece(&mut self, out: &mut [u8], used: usize) -> usize
        requires { used + 17600 ≤ length out.old }
        ensures { (self.new ≡ next self.old) × Put used (line_at self.old.piece) out.old out.new result × (result ≤ used + 17600) }
    {
        let answer = self.piece.answer_behind(out, used);
        self.piece.renew();
        self.begun = false;
        self.counts = panel::count_in(self.counts, answer.outcome);
        used + answer.length
    }

    // Takes bytes into the open piece.
    #[tactic(auto, unfolding(crate::specs::Stream::fed))]
    fn take_part(&mut self, bytes: &[u8])
        ensures { self.new ≡ fed self.old bytes.now }
    {
        self.piece.feed(bytes);
        self.begun = true;
    }

    // Takes the chunk from at on up to a line end, and answers the piece that ends there, or all that is left.
    fn take_piece(&mut self, chunk: &[u8], at: usize, out: &mut [u8], used: usize) -> Step
        requires { (at < length chunk.now) × (used + 17600 ≤ length out.old) }
        ensures { Went self.old chunk.now at result.at used result.used self.new out.old out.new × (at < result.at) }
    {
        let end = line_end(chunk, at);
        self.take_part(&chunk[at..end]);
        if end < chunk.len() {
            let used = self.close_piece(out, used);
            return Step { at: end + 1, used };
        }
        Step { at: end, used }
    }

    // Takes the chunk from at on, and puts the answer of each piece that ends in it at the buffer's front, one behind the other,
    // until the chunk is taken or another line might not fit.
    pub fn take(&mut self, chunk: &[u8], at: usize, out: &mut [u8]) -> Step
        requires { (at < length chunk.now) × (17600 ≤ length out.old) }
        ensures { Went self.old chunk.now at result.at 0 result.used self.new out.old out.new × (at < result.at) }
    {
        let last = out.len() - wish::LINE;
        let mut step = self.take_piece(chunk, at, out, 0);
        // The place, and how much waits, are what a step answers, so that no iterator has them.
        while step.at < chunk.len() && step.used <= last {
            step = self.take_piece(chunk, step.at, out, step.used);
        }
        step
    }

    // The end of the input: a last piece that is not empty is answered too, at the buffer's front.
    fn close_last(&mut self, out: &mut [u8]) -> usize
        requires { 17600 ≤ length out.old }
        ensures { (self.new ≡ ended self.old) × Put 0 (last_line self.old) out.old out.new result × (result ≤ 17600) }
    {
        if self.begun {
            return self.close_piece(out, 0);
        }
        0
    }

    // What stands behind all lines, behind the bytes that wait.
    fn put_end(&self, out: &mut [u8], used: usize) -> usize
        requires { used + 1000 ≤ length out.old }
        ensures { Put used (end_of (job_of self.now.piece) self.now.counts) out.old out.new result }
    {
        if self.piece.is_tally() {
            panel::put_panel(out, used, self.counts)
        } else {
            used
        }
    }

    // The end of the input: the answer of a last piece that is not empty, and what stands behind all lines, at the buffer's front.
    pub fn finish(&mut self, out: &mut [u8]) -> usize
        requires { 18600 ≤ length out.old }
        ensures { (self.new ≡ ended self.old) × Put 0 (last_said self.old) out.old out.new result }
    {
        let used = self.close_last(out);
        self.put_end(out, used)
    }
}

// How many lines end in the first n bytes: so many whole answers were written where a write stopped there.
pub fn line_ends(out: &[u8], n: usize) -> usize
    requires { n ≤ length out.now }
    ensures { (result ≡ line_ends out.now n) × (result ≤ n) }
{
    out[..n].iter().filter(|b| **b == b'\n').count()
}
