//! The latch over a sink of pieces: what inner functions give to, so that they need not hand on its faults.

ghost use Rattle.std.specs.Prelude.{◌≡◌, ◌≤◌, true, List, [], ◌∷◌, length, replicate, None, Some, MatchResult};
ghost use Rattle.page_core_base.specs.laws.Views.{Came, message_of, piece_of, TakesKept, TakesWords, is_printable_ascii};
ghost use Rattle.page_core_base.specs.machine.Plans.{Planned, Left};
ghost use Rattle.page_core_base.specs.Rows.{Item, shown, noted};
ghost use Rattle.page_core_base.specs.declared.blank_texts.TheConstants.{BLANK_TEXT};
ghost use Rattle.page_core_base.specs.declared.pieces.Piece.TheVariants.{Text};

use crate::{Fault, Font, Note, Piece, PieceSink, Place, blank_text};

/// Takes pieces and messages, and never fails: after a fault of the sink below it takes nothing.
pub trait PieceOut {
    ghost use Rattle.page_core_base.specs.Rows.{Item};

    // What is planned; what of a plan is still to come.
    ghost Plan: { Type 0 };

    ghost left: { Plan → Self → List Item → Type 0 };

    /// Takes a piece.
    fn give(&mut self, piece: Piece<&[u8]>)
        ensures { Came left self.old (shown (piece_of piece.entry) ∷ []) self.new };

    /// Takes as many texts of a count of blanks that are cells, at most [`BLANK_TEXT`](crate::BLANK_TEXT) of them in each.
    fn give_blanks(&mut self, count: usize, times: usize, font: Font, place: Place)
        requires { count ≤ BLANK_TEXT }
        ensures { Came left self.old (replicate times (shown (Text (replicate count 32) font place))) self.new }
    {
        let text = blank_text(count);
        for _i in 0..times {
            self.give(Piece::Text { text, font, place });
        }
    }

    /// Takes words at once, the first after a count of blanks and each other after one. Each byte of the text is a letter of them, in the font
    /// beside it, or the one blank between two of them. Says whether it took them; else nothing changes. Of any other text nothing is promised.
    fn give_words(&mut self, blanks: u32, text: &[u8], fonts: &[Font]) -> bool
        requires fonts { length fonts.now ≡ length text.now }
        requires ascii { is_printable_ascii text.now ≡ true }
        ensures { TakesWords blanks text.now fonts.now result (Came left) self.old self.new }
    {
        let _ = blanks;
        let _ = text;
        let _ = fonts;
        false
    }

    /// Takes characters in a font at once, each of which is a cell of a row that is kept as it is. Says whether it took them; else nothing changes.
    fn give_kept(&mut self, text: &[u8], font: Font) -> bool
        ensures { TakesKept text.now font result (Came left) self.old self.new }
    {
        let _ = text;
        let _ = font;
        false
    }

    /// Takes a message.
    fn report(&mut self, note: &Note)
        ensures { Came left self.old (noted (message_of note.now) ∷ []) self.new };
}

/// A sink of pieces, and its fault once it has failed.
#[derive(Drop)]
pub struct PieceLatch<'a, O> {
    out: &'a mut O,
    fault: Option<Fault>,
}

impl<'a, O: PieceSink> PieceLatch<'a, O> {
    /// A latch over a sink.
    pub fn new(out: &'a mut O) -> PieceLatch<'a, O>
        ensures loan { result.out.ghost_name ≡ out.entry.ghost_name }
        ensures out { result.out.now ≡ out.entry.now }
        ensures fault { result.fault ≡ None }
    {
        PieceLatch { out, fault: None }
    }

    /// The fault that came, if one did.
    pub fn done(&self) -> Result<(), Fault>
        ensures { MatchResult result (λ _. self.now.fault ≡ None) (λ fault. self.now.fault ≡ Some fault) }
    {
        self.fault.map_or(Ok(()), Err)
    }
}

impl<O: PieceSink> PieceOut for PieceLatch<'_, O> {
    ghost Plan = { Planned O O.Loans Item };

    ghost left = { λ plan s rest. Left O.took O.broke O.loans plan s.out.ghost_name s.out.now s.fault rest };

    #[inline(always)]
    fn give(&mut self, piece: Piece<&[u8]>) {
        if self.fault.is_some() {
            return;
        }
        if let Err(fault) = self.out.piece(piece) {
            self.fault = Some(fault);
        }
    }

    #[inline(always)]
    fn give_blanks(&mut self, count: usize, times: usize, font: Font, place: Place) {
        if self.fault.is_some() {
            return;
        }
        if let Err(fault) = self.out.take_blanks(count, times, font, place) {
            self.fault = Some(fault);
        }
    }

    // After a fault all words count as taken.
    #[inline(always)]
    fn give_words(&mut self, blanks: u32, text: &[u8], fonts: &[Font]) -> bool {
        if self.fault.is_some() {
            return true;
        }
        match self.out.take_words(blanks, text, fonts) {
            Ok(taken) => taken,
            Err(fault) => {
                self.fault = Some(fault);
                true
            }
        }
    }

    // After a fault all characters count as taken.
    #[inline(always)]
    fn give_kept(&mut self, text: &[u8], font: Font) -> bool {
        if self.fault.is_some() {
            return true;
        }
        match self.out.take_kept(text, font) {
            Ok(taken) => taken,
            Err(fault) => {
                self.fault = Some(fault);
                true
            }
        }
    }

    fn report(&mut self, note: &Note) {
        if self.fault.is_none() {
            self.fault = self.out.note(note).err();
        }
    }
}
