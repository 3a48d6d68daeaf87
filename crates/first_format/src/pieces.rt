//! The pieces that formatting stores.

ghost use Rattle.std.specs.Prelude.{◌≡◌, ℕ, ◌*◌, ◌<◌, length, slice_index};
ghost use Rattle.pmem_model.specs.Words.{bursts, flushes};
ghost use Rattle.pmem_model.specs.Memory.{word_at, AllHome, SameHomes, KeepsCounts, count_up};
ghost use Rattle.pmem_layout.specs.Places as places;
ghost use Rattle.pmem_operations.specs.Operations.{IsAtMostOne};
ghost use Rattle.first_format.specs.Pieces as pieces;
ghost use Rattle.first_format.specs.Pieces.{IsPiece};

use pmem_layout::{
    CORES_AT, FRAME_LINES, OBJECT_TAGS_AT, PAGE_BASE_END, SLOT_LINES, SLOTS, frame_at, line_at,
    object_slot_at, runtime_frame,
};
use pmem_model::Pmem;
use sls_base::{FIRST_PROGRAM_PAGE, LEADER, LINE_WORDS, OBJECTS, ObjId, PAGES, PageNo};

/// Words behind one another that are stored by one burst.
#[derive(Clone, Copy)]
pub enum Piece {
    /// The number of cores, and the allocation base.
    Head,
    /// The tags of the objects' slots.
    Tags,
    /// The record of an object, in its first slot.
    Record(ObjId),
    /// The words of a page, in its runtime frame.
    Page(PageNo),
}

/// The number of the first object's piece.
pub const FIRST_RECORD_PIECE: usize = 2;
/// The number of the piece of the first page of a program.
pub const FIRST_PAGE_PIECE: usize = FIRST_RECORD_PIECE + OBJECTS;
/// The number of pieces.
pub const PIECES: usize = FIRST_PAGE_PIECE + PAGES - FIRST_PROGRAM_PAGE as usize;

/// The lines that the head stands in, from the first line on.
pub const HEAD_LINES: usize = (PAGE_BASE_END + LINE_WORDS - 1) / LINE_WORDS;
/// The lines of the tags.
pub const TAG_LINES: usize = SLOTS * OBJECTS / LINE_WORDS;

impl Piece {
    ghost use Rattle.first_format.specs.declared.pieces.Piece.{Piece};

    /// The piece of this number.
    pub fn of(n: u16) -> Piece
        requires { n < PIECES }
        ensures piece { result ≡ pieces.piece_of n }
        ensures in_range { IsPiece result }
    {
        let number = n as usize;
        if number == 0 {
            Piece::Head
        } else if number == 1 {
            Piece::Tags
        } else if number < FIRST_PAGE_PIECE {
            Piece::Record((number - FIRST_RECORD_PIECE) as ObjId)
        } else {
            Piece::Page((number - FIRST_PAGE_PIECE) as PageNo + FIRST_PROGRAM_PAGE)
        }
    }

    /// Where it begins.
    pub fn place(self) -> usize
        requires { IsPiece self }
        ensures { result ≡ pieces.place_of self }
    {
        match self {
            Piece::Head => CORES_AT,
            Piece::Tags => OBJECT_TAGS_AT,
            Piece::Record(id) => object_slot_at(id, 0),
            Piece::Page(page) => frame_at(runtime_frame(page)),
        }
    }

    /// How many lines it stands in.
    pub fn lines(self) -> usize
        ensures { result ≡ pieces.lines_of self }
    {
        match self {
            Piece::Head => HEAD_LINES,
            Piece::Tags => TAG_LINES,
            Piece::Record(_) => SLOT_LINES,
            Piece::Page(_) => FRAME_LINES,
        }
    }

    /// Stores all of its words.
    pub fn store(self, nvm: &mut Pmem, words: &[u64])
        requires piece { IsPiece self }
        requires size { length words.now ≡ pieces.count_of self }
        requires home { AllHome nvm.old }
        ensures homes { SameHomes nvm.old nvm.new }
        ensures counts { KeepsCounts nvm.old nvm.new }
        ensures one { nvm.new.ops ≡ count_up nvm.old.ops }
        ensures operation { IsAtMostOne LEADER (word_at nvm.old) (word_at nvm.new) }
        ensures stored { (value : ℕ → ℕ) → ((j : ℕ) → j < pieces.count_of self → slice_index words.now j ≡ value j)
            → (i : ℕ) → word_at nvm.new i
            ≡ bursts (pieces.place_of self) (pieces.count_of self) value (word_at nvm.old) i }
    {
        pmem_operations::laws::operations();
        nvm.burst(self.place(), words);
    }

    /// Flushes the lines that it stands in.
    pub fn flush(self, nvm: &mut Pmem)
        requires piece { IsPiece self }
        requires home { AllHome nvm.old }
        ensures homes { SameHomes nvm.old nvm.new }
        ensures counts { KeepsCounts nvm.old nvm.new }
        ensures one { nvm.new.ops ≡ count_up nvm.old.ops }
        ensures operation { IsAtMostOne LEADER (word_at nvm.old) (word_at nvm.new) }
        ensures flushed { (i : ℕ) → word_at nvm.new i ≡ flushes LEADER (places.line_at (pieces.place_of self))
            (LINE_WORDS * pieces.lines_of self) (word_at nvm.old) i }
    {
        pmem_operations::laws::operations();
        nvm.flush(LEADER, line_at(self.place()), self.lines());
    }
}
