//! Laws of the definitions.

ghost use Rattle.std.specs.Prelude.{◌≡◌, ℕ, List};
ghost use Rattle.desk_tree_annotations.specs.Right.{Reading, IsRight};
ghost use Rattle.desk_tree_annotations.specs.Reading.{annotations_of};
ghost use Rattle.desk_tree_annotations.specs.Sifting.{good_annotations, annotation_faults, Agrees};

/// Right readings agree, so a text has one answer.
pub fn one_reading()
    ensures same { (r s : Reading) → IsRight r → IsRight s → r ≡ s }
    ensures answer { (r s : Reading) → IsRight r → IsRight s → (text : List ℕ)
        → annotations_of r text ≡ annotations_of s text }
{}

/// Either the annotations that are read are all that can be, and there are no faults; or the fault
/// is the first one.
pub fn reading_is_sifting()
    ensures { (r : Reading) (text : List ℕ)
        → Agrees (annotations_of r text) (annotation_faults r text)
        (good_annotations r text) }
{}
