// Captures taken in chunks.
ghost use Rattle.std.specs.Prelude.{◌≡◌, ◌≤◌, ◌<◌, length};
ghost use Rattle.keep.specs.Rows.{no_rows, Grown};

use crate::{Entries, Progress, Step};
use panel::one_more;
use refusal::Refusal;

impl Progress {
    // Nothing taken yet.
    pub fn new() -> Progress
        ensures { (result.lines ≡ 0) × (result.told ≡ 0) × (result.entries.rows ≡ no_rows) }
    {
        Progress {
            scan: capture::Scan::new(),
            begun: false,
            lines: 0,
            told: 0,
            entries: Entries::new(),
        }
    }

    // The open text ends here: it is heard and entered, and the next one is open.
    fn close_text(&mut self) -> Option<Refusal>
        ensures { Grown self.old.entries.rows self.new.entries.rows }
    {
        let news = self.entries.hear(&mut self.scan);
        self.scan.clear();
        self.begun = false;
        self.lines = one_more(self.lines);
        if news.is_some() {
            self.told = one_more(self.told);
        }
        news
    }

    // Takes bytes into the open text.
    fn take_part(&mut self, bytes: &[u8])
        ensures { self.new.entries ≡ self.old.entries }
    {
        self.scan.feed(bytes);
        self.begun = true;
    }

    // Takes the chunk from at on up to a line end, with the text that ends there, or all that is left.
    pub fn take(&mut self, chunk: &[u8], at: usize) -> Step
        requires { at < length chunk.now }
        ensures place { (at < result.at) × (result.at ≤ length chunk.now) }
        ensures entries { Grown self.old.entries.rows self.new.entries.rows }
    {
        let end = lines::line_end(chunk, at);
        self.take_part(&chunk[at..end]);
        if end < chunk.len() {
            let news = self.close_text();
            return Step { at: end + 1, news };
        }
        Step {
            at: end,
            news: None,
        }
    }

    // The end of the captures: a last text that is not empty is entered too.
    pub fn finish(&mut self) -> Option<Refusal>
        ensures { Grown self.old.entries.rows self.new.entries.rows }
    {
        if self.begun { self.close_text() } else { None }
    }
}
