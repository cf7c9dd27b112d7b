//! The open logical line of a page.
ghost use Rattle.std.specs.Prelude.{◌≡◌, ◌+◌, ◌-◌, ◌^◌, ◌<◌, ◌≤◌, ◌∷◌, [], length, take, true, false, IfOk, if◌then◌else◌};
ghost use Rattle.std.specs.List.{list_all};
ghost use Rattle.page_roff_decoding.specs.Decoding.{is_printable};
ghost use Rattle.page_roff_lines.specs.machine.Open.{pair_mode as spec_pair_mode};
ghost use Rattle.page_core_base.specs.laws.Views.{IsFreeLine};

use crate::scanning::{comment_run, fine_len, paired_run};
use crate::{HeldText, Mark, Mode};
use page_core_base::LINE;
use std::alloc::{AllocError, Global};
use std::marker::Model;

/// The line feed, which ends a physical line.
pub(crate) const NEWLINE: u8 = b'\n';

const CARRIAGE_RETURN: u8 = b'\r';

/// The backslash, which is read with the byte after it.
pub(crate) const BACKSLASH: u8 = b'\\';

/// The quote, which begins a comment after a backslash.
pub(crate) const QUOTE: u8 = b'"';

/// The hash, which begins a comment with its line feed after a backslash.
pub(crate) const HASH: u8 = b'#';

/// A logical line that is cut from the bytes of a page as they come.
#[derive(Drop)]
pub struct OpenLine {
    text: HeldText,
    mode: Mode,
    after_return: bool,
    begun: bool,
    whole: bool,
    number: u32,
    physical: u32,
    consumed: u32,
    mark: Mark,
}

impl Model for OpenLine {
    ghost use Rattle.std.specs.Prelude.{◌≤◌, ◌<◌, ◌+◌, ◌^◌};
    ghost use Rattle.page_roff_lines.specs.machine.Open.{Open};

    ghost Value = { Open };

    ghost view = { λ o. record {
      text = o.text;
      mode = o.mode;
      after_return = o.after_return;
      begun = o.begun;
      whole = o.whole;
      number = o.number;
      physical = o.physical;
      consumed = o.consumed;
      mark = o.mark;
    } };

    ghost invariant = { λ o. (o.consumed < 2 ^ 31) × (o.physical ≤ o.consumed + 1)
        × (o.text.total ≤ o.consumed) × (o.number ≤ o.physical) };
}

impl Mark {
    ghost use Rattle.page_roff_lines.specs.machine.Open.{mark_after, ends_mark, is_settled};

    // How much of the mark came with this byte.
    #[tactic(auto, unfolding(crate::specs::machine::Open::mark_after))]
    fn after(self, byte: u8) -> Mark
        ensures { result ≡ mark_after self byte }
    {
        match self {
            Mark::Unread if byte == 0xEF => Mark::First,
            Mark::First if byte == 0xBB => Mark::Second,
            Mark::Second if byte == 0xBF => Mark::Present,
            Mark::Present => Mark::Present,
            _ => Mark::Absent,
        }
    }

    // Whether the next byte belongs to no mark.
    fn is_settled(self) -> bool
        ensures { result ≡ is_settled self }
    {
        matches!(self, Mark::Absent | Mark::Present)
    }

    // Whether the mark is whole with this byte.
    #[tactic(auto, unfolding(crate::specs::machine::Open::ends_mark))]
    fn ends_at(self, byte: u8) -> bool
        ensures { result ≡ ends_mark self byte }
    {
        match self {
            Mark::Second => byte == 0xBF,
            _ => false,
        }
    }
}

// How the byte after a pair is read.
#[tactic(auto, unfolding(crate::specs::machine::Open::pair_mode))]
fn pair_mode(byte: u8) -> Mode
    ensures { result ≡ spec_pair_mode byte }
{
    match byte {
        QUOTE => Mode::Comment,
        CARRIAGE_RETURN => Mode::Backslash,
        _ => Mode::Plain,
    }
}

impl OpenLine {
    ghost use Rattle.page_roff_lines.specs.machine.Open.{first_open, restart, put, put_plain, put_pair, put_in, without_return, newline_in, put_newline, next_open, end_open, count_byte, close, ends_mark, open_after, whole_lines, kept_of, is_marked};
    ghost use Rattle.page_roff_lines.specs.laws.Views.{newline};
    ghost use Rattle.page_roff_lines.specs.machine.Open.{IsFine, IsRead, ReadsText, with_run};

    /// Before the first byte of a page, with the memory that it will ever hold.
    pub fn new(alloc: Global) -> Result<OpenLine, AllocError>
        ensures { IfOk result (λ o. o ≡ first_open) }
    {
        let text = HeldText::new(alloc)?;
        Ok(OpenLine {
            text,
            mode: Mode::Plain,
            after_return: false,
            begun: false,
            whole: false,
            number: 1,
            physical: 1,
            consumed: 0,
            mark: Mark::Unread,
        })
    }

    // Begins the line after a whole one.
    #[tactic(auto, unfolding(crate::specs::machine::Open::restart))]
    fn restart(&mut self)
        ensures restart { self.new ≡ restart self.old }
        ensures consumed { self.new.consumed ≡ self.old.consumed }
    {
        if self.whole {
            self.text.clear();
            self.whole = false;
            self.number = self.physical;
        }
    }

    // Appends a byte, and says how the next one is read.
    #[tactic(auto, unfolding(crate::specs::machine::Open::put, crate::specs::machine::Open::extend))]
    fn put(&mut self, byte: u8, mode: Mode)
        requires { self.old.text.total < self.old.consumed }
        ensures { self.new ≡ put self.old byte mode }
    {
        self.text.push(byte);
        self.mode = mode;
        self.after_return = byte == CARRIAGE_RETURN;
        self.begun = true;
    }

    // Appends a byte that follows no backslash.
    #[tactic(auto, unfolding(crate::specs::machine::Open::put_plain))]
    fn put_plain(&mut self, byte: u8)
        requires { self.old.text.total < self.old.consumed }
        ensures { self.new ≡ put_plain self.old byte }
    {
        if byte == BACKSLASH {
            self.put(byte, Mode::Backslash);
        } else {
            self.put(byte, Mode::Plain);
        }
    }

    // Reads the byte after a backslash: a hash drops both and what follows.
    #[tactic(auto, unfolding(crate::specs::machine::Open::put_pair, crate::specs::machine::Open::shorten))]
    fn put_pair(&mut self, byte: u8)
        requires { self.old.text.total < self.old.consumed }
        ensures { self.new ≡ put_pair self.old byte }
    {
        if byte == HASH {
            self.text.shorten();
            self.mode = Mode::Dropped;
        } else {
            self.put(byte, pair_mode(byte));
        }
    }

    // Reads a byte that is no line feed.
    #[tactic(auto, unfolding(crate::specs::machine::Open::put_in))]
    fn put_in(&mut self, byte: u8)
        requires { self.old.text.total < self.old.consumed }
        ensures { self.new ≡ put_in self.old.mode self.old.after_return self.old byte }
    {
        match self.mode {
            Mode::Plain => self.put_plain(byte),
            Mode::Backslash => {
                if self.after_return {
                    self.put_plain(byte);
                } else {
                    self.put_pair(byte);
                }
            }
            Mode::Comment => self.put(byte, Mode::Comment),
            Mode::Dropped => {}
        }
    }

    // Makes the line whole.
    #[tactic(auto, unfolding(crate::specs::machine::Open::close))]
    fn close(&mut self)
        ensures { self.new ≡ close self.old }
    {
        self.mode = Mode::Plain;
        self.after_return = false;
        self.begun = false;
        self.whole = true;
    }

    // Takes away a carriage return right before the line feed.
    #[tactic(auto, unfolding(crate::specs::machine::Open::without_return, crate::specs::machine::Open::shorten))]
    fn drop_return(&mut self)
        ensures { self.new ≡ without_return self.old }
    {
        if self.after_return {
            self.text.shorten();
            self.after_return = false;
        }
    }

    // Ends the physical line: the logical one with it, or it waits for what is joined.
    #[tactic(auto, unfolding(crate::specs::machine::Open::newline_in, crate::specs::machine::Open::shorten))]
    fn end_physical(&mut self)
        ensures { self.new ≡ newline_in self.old.mode self.old }
    {
        match self.mode {
            Mode::Plain | Mode::Comment => self.close(),
            Mode::Backslash => {
                self.text.shorten();
                self.mode = Mode::Plain;
            }
            Mode::Dropped => self.mode = Mode::Plain,
        }
    }

    // Counts the next physical line.
    fn begin_physical(&mut self)
        requires { self.old.physical ≤ self.old.consumed }
        ensures { self.new ≡ record self.old { physical = self.old.physical + 1 } }
    {
        self.physical += 1;
    }

    // Reads a line feed.
    #[tactic(auto, unfolding(crate::specs::machine::Open::put_newline, crate::specs::machine::Open::without_return, crate::specs::machine::Open::newline_in, crate::specs::machine::Open::close))]
    fn put_newline(&mut self)
        requires { self.old.physical ≤ self.old.consumed }
        ensures { self.new ≡ put_newline self.old }
    {
        self.drop_return();
        self.end_physical();
        self.begin_physical();
    }

    // Counts a byte of the page, which may belong to its byte order mark.
    #[tactic(auto, unfolding(crate::specs::machine::Open::count_byte))]
    fn count(&mut self, byte: u8)
        requires { self.old.consumed + 1 < 2 ^ 31 }
        ensures count_byte { self.new ≡ count_byte self.old byte }
        ensures text { self.new.text.total < self.new.consumed }
        ensures physical { self.new.physical ≤ self.new.consumed }
    {
        self.consumed += 1;
        self.mark = self.mark.after(byte);
    }

    // Reads a byte; whether the line is whole with it.
    #[tactic(auto, unfolding(crate::specs::machine::Open::next_open, crate::specs::machine::Open::put_byte, crate::specs::machine::Open::count_byte, crate::specs::machine::Open::restart))]
    fn take_byte(&mut self, byte: u8) -> bool
        requires { self.old.consumed + 1 < 2 ^ 31 }
        ensures after { self.new ≡ next_open self.old byte }
        ensures whole { result ≡ self.new.whole }
    {
        let ends_mark = self.mark.ends_at(byte);
        self.restart();
        self.count(byte);
        if ends_mark {
            self.text.clear();
            self.begun = false;
        } else if byte == NEWLINE {
            self.put_newline();
        } else {
            self.put_in(byte);
        }
        self.whole
    }

    // How many bytes at the front of a chunk are read at once, and whether they are known to be printable.
    fn run_len(&self, chunk: &[u8]) -> (usize, bool)
        ensures within { result.0 ≤ length chunk.now }
        ensures read { IsRead self.now (take result.0 chunk.now) }
        ensures printable { result.1 ≡ true → list_all is_printable (take result.0 chunk.now) ≡ true }
    {
        if !self.mark.is_settled() {
            return (0, false);
        }
        match self.mode {
            Mode::Plain => paired_run(chunk),
            Mode::Comment | Mode::Dropped => (comment_run(chunk), false),
            Mode::Backslash => (0, false),
        }
    }

    // Appends bytes that are read at once, which may be known to be printable.
    #[tactic(auto, unfolding(crate::specs::machine::Open::run_in, crate::specs::machine::Open::extend))]
    fn put_run(&mut self, run: &[u8], printable: bool)
        requires consumed { self.old.consumed + length run.now < 2 ^ 31 }
        requires some { 0 < length run.now }
        requires printable { printable ≡ true → list_all is_printable run.now ≡ true }
        ensures { self.new ≡ with_run self.old run.now }
    {
        self.consumed += run.len() as u32;
        match self.mode {
            Mode::Plain | Mode::Comment => {
                self.text.extend(run, printable);
                self.after_return = run[run.len() - 1] == CARRIAGE_RETURN;
                self.begun = true;
            }
            Mode::Backslash | Mode::Dropped => {}
        }
    }

    // Reads the bytes at the front of a chunk that are read at once; how many they are.
    fn take_run(&mut self, chunk: &[u8]) -> usize
        requires { self.old.consumed + length chunk.now < 2 ^ 31 }
        ensures within { result ≤ length chunk.now }
        ensures after { self.new ≡ open_after self.old (take result chunk.now) }
        ensures none { whole_lines self.old (take result chunk.now) ≡ [] }
    {
        let (len, printable) = self.run_len(chunk);
        if len > 0 {
            self.restart();
            self.put_run(&chunk[..len], printable);
        }
        len
    }

    // Whether a line is whole and what follows it is read as text.
    fn is_before_text(&self) -> bool
        ensures { result ≡ true → (self.now.whole ≡ true) × ReadsText self.now }
    {
        self.whole && self.mark.is_settled() && matches!(self.mode, Mode::Plain)
    }

    // Takes a text that was read at once, which may be known to be free, with the line feed after it, as the line after a whole one.
    #[inline(always)]
    #[tactic(auto, unfolding(crate::specs::machine::Open::extend))]
    fn put_line(&mut self, text: &[u8], free: bool)
        requires whole { self.old.whole ≡ true }
        requires reads { ReadsText self.old }
        requires some { 0 < length text.now }
        requires fine { IsFine text.now }
        requires free { free ≡ true → IsFreeLine text.now }
        requires consumed { self.old.consumed + length text.now + 1 < 2 ^ 31 }
        ensures next { self.new ≡ next_open (open_after self.old text.now) newline }
        ensures whole { self.new.whole ≡ true }
    {
        self.text.set(text, free);
        self.after_return = false;
        self.begun = false;
        self.number = self.physical;
        self.physical += 1;
        self.consumed += text.len() as u32 + 1;
    }

    // Reads a line of printable bytes that is the next one, and whole in the chunk: how many bytes it has with its line feed, and 0 where
    // there is no such line.
    #[inline(always)]
    fn take_line(&mut self, chunk: &[u8]) -> usize
        requires { self.old.consumed + length chunk.now < 2 ^ 31 }
        ensures within { result ≤ length chunk.now }
        ensures none { result ≡ 0 → self.new ≡ self.old }
        ensures after { 0 < result → self.new ≡ open_after self.old (take result chunk.now) }
        ensures lines { 0 < result → whole_lines self.old (take result chunk.now) ≡ kept_of self.new ∷ [] }
        ensures before { 0 < result → whole_lines self.old (take (result - 1) chunk.now) ≡ [] }
        ensures whole { 0 < result → self.new.whole ≡ true }
    {
        if !self.is_before_text() {
            return 0;
        }
        let (len, free) = fine_len(chunk);
        if len == 0 || len >= chunk.len() || chunk[len] != NEWLINE {
            return 0;
        }
        self.put_line(&chunk[..len], free);
        len + 1
    }

    // Reads a chunk, as `read` does.
    #[inline(never)]
    fn read_runs(&mut self, chunk: &[u8]) -> (usize, bool)
        requires { self.old.consumed + length chunk.now < 2 ^ 31 }
        ensures within { result.0 ≤ length chunk.now }
        ensures all { result.1 ≡ false → result.0 ≡ length chunk.now }
        ensures after { self.new ≡ open_after self.old (take result.0 chunk.now) }
        ensures lines { whole_lines self.old (take result.0 chunk.now)
            ≡ (if result.1 then kept_of self.new ∷ [] else []) }
        ensures before { result.1 ≡ true → whole_lines self.old (take (result.0 - 1) chunk.now) ≡ [] }
        ensures whole { result.1 ≡ true → self.new.whole ≡ true }
        ensures consumed { self.new.consumed ≡ self.old.consumed + result.0 }
    {
        let mut at = 0;
        while at < chunk.len() {
            at += self.take_run(&chunk[at..]);
            if at < chunk.len() {
                let whole = self.take_byte(chunk[at]);
                at += 1;
                if whole {
                    return (at, true);
                }
            }
        }
        (at, false)
    }

    /// Reads a chunk of the page up to the line feed that ends the logical line, or all of it; how many bytes it
    /// consumed, and whether the line is whole.
    #[inline(always)]
    pub fn read(&mut self, chunk: &[u8]) -> (usize, bool)
        requires { self.old.consumed + length chunk.now < 2 ^ 31 }
        ensures within { result.0 ≤ length chunk.now }
        ensures all { result.1 ≡ false → result.0 ≡ length chunk.now }
        ensures after { self.new ≡ open_after self.old (take result.0 chunk.now) }
        ensures lines { whole_lines self.old (take result.0 chunk.now)
            ≡ (if result.1 then kept_of self.new ∷ [] else []) }
        ensures before { result.1 ≡ true → whole_lines self.old (take (result.0 - 1) chunk.now) ≡ [] }
        ensures whole { result.1 ≡ true → self.new.whole ≡ true }
        ensures consumed { self.new.consumed ≡ self.old.consumed + result.0 }
    {
        let len = self.take_line(chunk);
        if len > 0 {
            return (len, true);
        }
        self.read_runs(chunk)
    }

    /// Ends the page; whether a last line is there.
    #[tactic(auto, unfolding(crate::specs::machine::Open::end_open, crate::specs::machine::Open::end_in, crate::specs::machine::Open::restart, crate::specs::machine::Open::close, crate::specs::machine::Open::shorten))]
    pub fn end(&mut self) -> bool
        ensures after { self.new ≡ end_open self.old }
        ensures line { result ≡ self.new.whole }
    {
        self.restart();
        if self.begun {
            if let Mode::Backslash = self.mode
                && !self.after_return
            {
                self.text.shorten();
            }
            self.close();
        }
        self.whole
    }

    /// The bytes that are kept of the line.
    pub fn text(&self) -> &[u8]
        ensures value { result.now ≡ self.now.text.bytes }
        ensures bound { length result.now ≤ LINE }
    {
        self.text.bytes()
    }

    /// Whether each byte that is kept is a printable one of ASCII or a tab, so that it's the same under each
    /// encoding.
    pub fn is_printable(&self) -> bool
        ensures value { result ≡ list_all is_printable self.now.text.bytes }
        ensures bound { length self.now.text.bytes ≤ LINE }
    {
        self.text.is_printable()
    }

    /// Whether the bytes that are kept are known to be free, and each to be a printable one of ASCII or a tab.
    pub fn is_free(&self) -> bool
        ensures free { result ≡ true → IsFreeLine self.now.text.bytes }
        ensures printable { result ≡ true → list_all is_printable self.now.text.bytes ≡ true }
        ensures bound { length self.now.text.bytes ≤ LINE }
    {
        self.text.is_free()
    }

    /// Whether the line has more bytes than are kept.
    #[tactic(auto, using(page_roff_decoding::specs::laws::Views::line_limit_is))]
    pub fn is_cut(&self) -> bool
        ensures { result ≡ (kept_of self.now).cut }
    {
        self.text.total() as usize > LINE
    }

    /// The number of the line's first physical line, from 1.
    pub fn number(&self) -> u32
        ensures { result ≡ self.now.number }
    {
        self.number
    }

    /// Whether the page begins with a byte order mark.
    pub fn is_marked(&self) -> bool
        ensures { result ≡ is_marked self.now.mark }
    {
        matches!(self.mark, Mark::Present)
    }
}
