//! All bytes have a reading as a document, each law as the contract of a function with an empty
//! body.
//!
//! What a text says is a relation, `Reads` of `desk_fields`: the text is cut into pieces that give
//! these fields, or the first place without a piece has this fault. What bytes spell is also a
//! relation, `Spells` of `desk_tagvalue`: a document or a fault. `one_reading` and `one_document`
//! of those crates say that there is at most one such answer, which would also be true of a
//! relation that never holds. The laws here say that there is one. So there is a function that
//! gives what bytes spell, and a claim about each such function isn't empty.
//!
//! The readers' code isn't used: the answers are found from the definitions (SPDX 2.3, clause 4.4),
//! by cases that a test decides. A text has a first line; the line is bare or not, has a tag and a
//! colon or not, its value begins with `<text>` or not, a `</text>` follows or not, and only blanks
//! follow that or not. Each case is a piece with a shorter rest, or a fault. Whether bytes are
//! UTF-8 is decided by std's own test.

ghost use Rattle.std.specs.Prelude.{◌≡◌, ◌↔◌, ℕ, List, Option, Result};
ghost use Rattle.desk_fields.specs.declared.fault.DocFault.{DocFault};
ghost use Rattle.desk_fields.specs.Cutting.{Reads, FieldText, Cut, IsCutting, said_by};
ghost use Rattle.desk_tagvalue.specs.Parts.{DocumentText};
ghost use Rattle.desk_tagvalue.specs.Documents.{Spells};

/// A text that begins on a line has a reading: the fields of a cutting, or a fault.
pub fn each_text_is_read()
    ensures { (line : ℕ) (text : List ℕ)
        → (r : Result (List FieldText) DocFault) × Reads line text r }
{}

/// A text that begins on a line is cut into pieces in some way, up to its end or to a fault.
pub fn each_text_is_cut()
    ensures { (line : ℕ) (text : List ℕ) → (cuts : List Cut) × (fault : Option DocFault)
        × IsCutting line text cuts fault }
{}

/// It is cut in only one way.
pub fn one_cutting_of_a_text()
    ensures { (line : ℕ) (text : List ℕ) (a b : List Cut) (f g : Option DocFault)
        → IsCutting line text a f → IsCutting line text b g → (a ≡ b) × (f ≡ g) }
{}

/// What a text says is what its cutting says.
pub fn reading_is_cutting()
    ensures { (line : ℕ) (text : List ℕ) (r : Result (List FieldText) DocFault) → Reads line text r
        ↔ ((cuts : List Cut) × (fault : Option DocFault) × IsCutting line text cuts fault
        × (r ≡ said_by line cuts fault)) }
{}

/// Bytes spell a document, or have a fault.
pub fn each_document_is_read()
    ensures { (bytes : List ℕ) → (r : Result DocumentText DocFault) × Spells bytes r }
{}
