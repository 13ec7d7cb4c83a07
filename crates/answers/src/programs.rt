// How programs are written. The text belongs to the answers of a script, so the types of programs do not have it.
ghost use Rattle.std.specs.Prelude.{Some};
ghost use Rattle.program.specs.Pieces.{span};
ghost use Rattle.answers.specs.Texts.{mode_text, span_text, words_text, program_text};

use operators::mode::Mode;
use program::kind::Program;
use program::layout::Words;
use program::range::PlaceRange;
use reading::operator_name::name;
use std::fmt;

#[derive(Clone, Copy)]
pub struct ShownMode(pub Mode);

impl fmt::Display for ShownMode {
    ghost output = { λ x. Some (mode_text x.0) };

    fn fmt<W: fmt::Write>(&self, f: &mut fmt::Formatter<W>) -> fmt::Result {
        match self.0 {
            Mode::Load => write!(f, "LOAD"),
            Mode::Store => write!(f, "STORE"),
            Mode::Mp(operator) => write!(f, "MP {}", name(operator)),
            Mode::Sync(operator) => write!(f, "SYNC {}", name(operator)),
        }
    }
}

#[derive(Clone, Copy)]
pub struct ShownRange(pub PlaceRange);

impl fmt::Display for ShownRange {
    ghost output = { λ x. Some (span_text (span x.0)) };

    fn fmt<W: fmt::Write>(&self, f: &mut fmt::Formatter<W>) -> fmt::Result {
        write!(f, "{}-{}", self.0.first().0, self.0.last().0)
    }
}

#[derive(Clone, Copy)]
pub struct ShownWords(pub Words);

impl fmt::Display for ShownWords {
    ghost output = { λ x. Some (words_text x.0) };

    fn fmt<W: fmt::Write>(&self, f: &mut fmt::Formatter<W>) -> fmt::Result {
        write!(
            f,
            " words {} {} {}",
            self.0.first, self.0.second, self.0.third
        )
    }
}

// The whole program, and the words that it is written back as.
#[derive(Clone, Copy)]
pub struct ShownProgram(pub Program);

impl fmt::Display for ShownProgram {
    ghost output = { λ x. Some (program_text x.0) };

    fn fmt<W: fmt::Write>(&self, f: &mut fmt::Formatter<W>) -> fmt::Result {
        let words = ShownWords(self.0.write());
        match self.0 {
            Program::Block(block) => {
                let mode = ShownMode(block.mode);
                let range = ShownRange(block.range);
                let cell = block.cell.0;
                let count = self.0.piece_count();
                write!(
                    f,
                    "block {mode} places {range} cell {cell} pieces {count}{words}"
                )
            }
            Program::Single(single) => {
                let mode = ShownMode(single.action.mode());
                let place = single.place.0;
                let cell = single.cell.0;
                match single.action.word() {
                    None => write!(f, "single {mode} place {place} cell {cell}{words}"),
                    Some(word) => write!(
                        f,
                        "single {mode} place {place} cell {cell} word {word}{words}"
                    ),
                }
            }
        }
    }
}
