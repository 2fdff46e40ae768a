//! Laws of lines.
ghost use Rattle.std.specs.Prelude.{◌≡◌, ◌↔◌, ℕ, List, Ok};
ghost use Rattle.qx_words.specs.declared.line.Line.{Line};
ghost use Rattle.qx_words.specs.Lines.{GoesWrongAt, IsFaultOf, IsLine};
ghost use Rattle.qx_words.specs.Reading.{bad, line_from};

use crate::LineFault;

/// Bytes read as one line at most, and reading them part by part finds it.
pub fn one_reading()
    ensures one { (bytes : List ℕ) (l k : Line) → IsLine bytes l → IsLine bytes k → l ≡ k }
    ensures found { (bytes : List ℕ) (l : Line) → (line_from bytes ≡ Ok l) ↔ IsLine bytes l }
{}

/// A line without a reading goes wrong in one place: what stands before begins a line with a reading, and no longer part does. Reading it part by part finds the place; of a line above 8,192 bytes that is said to be 8192.
pub fn where_a_line_goes_wrong()
    ensures one { (bytes : List ℕ) (at place : ℕ) → GoesWrongAt bytes at → GoesWrongAt bytes place → at ≡ place }
    ensures found { (bytes : List ℕ) (at : ℕ) → (line_from bytes ≡ bad at) ↔ IsFaultOf bytes (LineFault.BadLine at) }
{}
