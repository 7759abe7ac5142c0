//! Laws of what a document says about a bill of materials (SPDX 2.3), each the contract of a
//! function with an empty body.
//!
//! The code of clause 7.9 is a relation of `desk_bom`: some order of the digests' texts is sorted,
//! and the code is that of the texts joined in it. `code_exists` says that digests have such a
//! code. The state of a package's code is also a relation, over some list of the package's files:
//! `state_exists` says that it has one. The laws of `desk_bom` say that there is no other. What a
//! document ships is defined by the least set of elements: `what_ships_is_one_list` says that there
//! is exactly one.
//!
//! Every definition cuts a document into the same sections (`sections_are_one_cutting`).

pub mod cutting;

ghost use Rattle.std.specs.Prelude.{◌≡◌, ℕ, ◌<◌, Bool, List, length, map};
ghost use Rattle.desk_bom.specs.Codes.{IsCode, IsState};
ghost use Rattle.desk_bom.specs.Shipping.{AreShipped, AreShippingMarks};
ghost use Rattle.desk_bom.specs.declared.state.CodeState.{CodeState};
ghost use Rattle.desk_findings.specs.Ids.{id_at};
ghost use Rattle.desk_tagvalue.specs.Parts.{DocumentText};

/// Digests have a verification code.
pub fn code_exists()
    ensures { (digests : List (List ℕ)) → (code : List ℕ) × IsCode digests code }
{}

/// The code of each package has a state.
pub fn state_exists()
    ensures { (d : DocumentText) (k : ℕ) → k < length d.packages → (s : CodeState) × IsState d k s }
{}

/// What a document ships is exactly one list: one mark for each package in the order of the
/// document, and one list of ids in the order of ids.
pub fn what_ships_is_one_list()
    ensures marks { (d : DocumentText) → (marks : List Bool) × AreShippingMarks d marks }
    ensures one_marks { (d : DocumentText) (a b : List Bool) → AreShippingMarks d a
        → AreShippingMarks d b → a ≡ b }
    ensures places { (d : DocumentText) → (places : List ℕ) × AreShipped d places }
    ensures one_list { (d : DocumentText) (a b : List ℕ) → AreShipped d a → AreShipped d b
        → map (id_at d) a ≡ map (id_at d) b }
{}
