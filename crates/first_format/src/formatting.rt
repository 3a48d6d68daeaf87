//! Formatting, step by step.

ghost use Rattle.std.specs.Prelude.{◌≡◌, ◌↔◌, ℕ, ◌+◌, ◌-◌, ◌<◌, ◌≤◌, true, false, IsTrue};
ghost use Rattle.sls_base.specs.declared.image.Image.{Image};
ghost use Rattle.pmem_model.specs.Words.{Word, bursts};
ghost use Rattle.pmem_model.specs.Memory.{word_at, AllHome, SameHomes, KeepsCounts};
ghost use Rattle.pmem_operations.specs.Operations.{IsAtMostOne};
ghost use Rattle.plain_model.specs.Initial.{IsAccepted};
ghost use Rattle.alloc_journal.specs.Operations.{AtMostOne};
ghost use Rattle.first_format.specs.Parts.{first_parts};
ghost use Rattle.first_format.specs.Formatted.{Formats, content_word};
ghost use Rattle.first_format.specs.Pieces.{IsPiece, place_of, count_of};
ghost use Rattle.first_format.specs.Shows as shows;
ghost use Rattle.first_format.specs.Shows.{AreOnWay, IsBegun, FormattingShows};
ghost use Rattle.first_format.specs.Clean.{HoldsClean};

use crate::laws;
use crate::pieces::{PIECES, Piece};
use crate::stage::Stage;
use crate::words::page_words;
use first_state::{content_on, first_objects, pages_in_use};
use kobj_codec::encode;
use kobj_table::Objects;
use object_records::record_at;
use pmem_model::Pmem;
use sls_base::{CORES, Image as FirstImage, LEADER, PageNo};
use version_commit::Committer;

/// The most turns that formatting takes.
pub const MOST_TURNS: usize = 1_280;

/// How far formatting has come, and what is to be stored: the objects that an image begins with, how many cores there
/// are, and how many pages are in use, which are the first ones.
#[derive(Drop)]
pub struct Formatting {
    pub(crate) objects: Objects,
    pub(crate) cores: u8,
    pub(crate) pages: PageNo,
    stage: Stage,
    committer: Committer,
}

/// What comes behind the piece of this number.
fn behind(n: u16) -> Stage
    requires { n < PIECES }
    ensures { result ≡ shows.stage_behind n }
{
    if n as usize + 1 < PIECES {
        Stage::Store(n + 1)
    } else {
        Stage::Fence
    }
}

impl Formatting {
    ghost use Rattle.first_format.specs.Shows.{turns_left};

    /// Formats from this image for so many cores, a memory whose words are all 0, or were left when such a formatting
    /// was cut.
    pub fn new(image: &FirstImage, cores: u8) -> Formatting
        requires accepted { IsAccepted image.now }
        requires some { 1 ≤ cores }
        requires most { cores ≤ CORES }
        ensures begun { IsBegun result image.now }
        ensures turns { turns_left result ≤ MOST_TURNS }
        ensures shows { (f : ℕ → Word) (words : ℕ → ℕ) → Formats image.now cores words → HoldsClean f words
            → FormattingShows result f image.now cores }
    {
        laws::first_state();
        Formatting {
            objects: first_objects(image, cores),
            cores,
            pages: pages_in_use(image),
            stage: Stage::Store(0),
            committer: Committer::new(),
        }
    }

    /// Stores the words of a piece, if there are any, and tells whether it did. Else all of them are 0.
    fn store(&self, image: &FirstImage, piece: Piece, nvm: &mut Pmem) -> bool
        requires piece { IsPiece piece }
        requires begun { IsBegun self.now image.now }
        requires home { AllHome nvm.old }
        ensures homes { SameHomes nvm.old nvm.new }
        ensures counts { KeepsCounts nvm.old nvm.new }
        ensures one { AtMostOne nvm.old nvm.new }
        ensures operation { IsAtMostOne LEADER (word_at nvm.old) (word_at nvm.new) }
        ensures stored { result ≡ true → (i : ℕ) → word_at nvm.new i
            ≡ bursts (place_of piece) (count_of piece)
            (λ j. content_word (first_parts image.now self.now.cores) (place_of piece + j)) (word_at nvm.old) i }
        ensures same { result ≡ false → nvm.new ≡ nvm.old }
        ensures empty { result ≡ false → (j : ℕ) → j < count_of piece
            → content_word (first_parts image.now self.now.cores) (place_of piece + j) ≡ 0 }
    {
        laws::first_state();
        match piece {
            Piece::Head => {
                piece.store(nvm, &self.head_words());
                true
            }
            Piece::Tags => {
                piece.store(nvm, &self.tag_words());
                true
            }
            Piece::Record(id) => match record_at(&self.objects, id) {
                Some(obj) => {
                    piece.store(nvm, &encode(&obj));
                    true
                }
                None => false,
            },
            Piece::Page(page) => {
                if content_on(image, page).is_empty() {
                    false
                } else {
                    piece.store(nvm, &page_words(image, page));
                    true
                }
            }
        }
    }

    /// Does the operation that comes next, if there is one.
    fn go_on(&mut self, image: &FirstImage, nvm: &mut Pmem)
        requires begun { IsBegun self.old image.now }
        requires home { AllHome nvm.old }
        ensures falls { turns_left self.new ≤ turns_left self.old - 1 }
        ensures begun { IsBegun self.new image.now }
        ensures cores { self.new.cores ≡ self.old.cores }
        ensures homes { SameHomes nvm.old nvm.new }
        ensures counts { KeepsCounts nvm.old nvm.new }
        ensures one { AtMostOne nvm.old nvm.new }
        ensures operation { IsAtMostOne LEADER (word_at nvm.old) (word_at nvm.new) }
        ensures words { (cores : ℕ) → FormattingShows self.old (word_at nvm.old) image.now cores
            → AreOnWay (first_parts image.now cores) self.new.stage self.new.committer.format (word_at nvm.new) }
    {
        match self.stage {
            Stage::Store(n) => {
                if self.store(image, Piece::of(n), nvm) {
                    self.stage = Stage::Flush(n);
                } else {
                    self.stage = behind(n);
                }
            }
            Stage::Flush(n) => {
                Piece::of(n).flush(nvm);
                self.stage = behind(n);
            }
            Stage::Fence => {
                nvm.fence(LEADER);
                self.stage = Stage::FormatWord;
            }
            Stage::FormatWord => {
                if self.committer.format_step(nvm) {
                    self.stage = Stage::Done;
                }
            }
            Stage::Done => {}
        }
    }

    /// Whether the memory is formatted.
    fn is_done(&self) -> bool
        ensures { IsTrue result ↔ (turns_left self.now ≡ 0) }
    {
        matches!(self.stage, Stage::Done)
    }

    /// Does one operation on the memory at most. True exactly at the last, with which the format word is durable.
    pub fn step(&mut self, image: &FirstImage, nvm: &mut Pmem) -> bool
        requires begun { IsBegun self.old image.now }
        requires home { AllHome nvm.old }
        ensures last { IsTrue result ↔ (turns_left self.new ≡ 0) }
        ensures falls { turns_left self.new ≤ turns_left self.old - 1 }
        ensures begun { IsBegun self.new image.now }
        ensures home { AllHome nvm.new }
        ensures counts { KeepsCounts nvm.old nvm.new }
        ensures one { AtMostOne nvm.old nvm.new }
        ensures operation { IsAtMostOne LEADER (word_at nvm.old) (word_at nvm.new) }
        ensures shows { (cores : ℕ) → FormattingShows self.old (word_at nvm.old) image.now cores
            → FormattingShows self.new (word_at nvm.new) image.now cores }
    {
        self.go_on(image, nvm);
        self.is_done()
    }
}
