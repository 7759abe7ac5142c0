//! What can be read of a REUSE.toml, despite its faults.

ghost use Rattle.std.specs.Prelude.{◌≡◌, ◌++◌, ◌∷◌, [], IfOk, OnOk};
ghost use Rattle.toml.specs.View.{items_view};
ghost use Rattle.desk_tree_annotations.specs.Right.{Reading, IsRight};
ghost use Rattle.desk_tree_annotations.specs.Reading.{annotation_at};
ghost use Rattle.desk_tree_annotations.specs.Sifting.{good, bad, each_good, each_bad, good_annotations, annotation_faults};

use crate::annotation::{Annotation, Annotations};
use crate::entries::annotation_at;
use crate::fault::AnnotationsFault;
use crate::reading::{entries_in, table_of};
use desk_base::Items;
use std::alloc::{AllocError, Global};
use toml::Value;

/// What can be read of a REUSE.toml, and what can't.
#[derive(Drop)]
pub struct Sifted {
    /// The annotations that can be read, in their order.
    pub annotations: Items<Annotation>,
    /// The faults of the others, in their order, or the one of the whole document. None is
    /// `Memory`.
    pub faults: Items<AnnotationsFault>,
}

// Adds an annotation that can be read, or its fault, after the others.
fn put(sifted: &mut Sifted, read: Result<Annotation, AnnotationsFault>) -> Result<(), AllocError>
    ensures annotations { OnOk result
        (sifted.new.annotations ≡ sifted.old.annotations ++ good read) }
    ensures faults { OnOk result (sifted.new.faults ≡ sifted.old.faults ++ bad read) }
{
    match read {
        Ok(annotation) => sifted.annotations.push(annotation),
        Err(fault) => sifted.faults.push(fault),
    }
}

// What can be read of some entries.
fn each_sifted(alloc: Global, values: &[Value]) -> Result<Sifted, AllocError>
    ensures annotations { (r : Reading) → IsRight r → IfOk result (λ s.
        s.annotations ≡ each_good (annotation_at r) 0 (items_view values.now)) }
    ensures faults { (r : Reading) → IsRight r → IfOk result (λ s.
        s.faults ≡ each_bad (annotation_at r) 0 (items_view values.now)) }
{
    let mut sifted = Sifted {
        annotations: Items::new(alloc),
        faults: Items::new(alloc),
    };
    for (i, value) in values.iter().enumerate() {
        let read = annotation_at(alloc, value, i)?;
        put(&mut sifted, read)?;
    }
    Ok(sifted)
}

// A document of which nothing can be read.
fn none_but(alloc: Global, fault: AnnotationsFault) -> Result<Sifted, AllocError>
    ensures annotations { IfOk result (λ s. s.annotations ≡ []) }
    ensures faults { IfOk result (λ s. s.faults ≡ fault ∷ []) }
{
    let mut faults = Items::new(alloc);
    faults.push(fault)?;
    Ok(Sifted {
        annotations: Items::new(alloc),
        faults,
    })
}

impl Annotations {
    /// The annotations of a REUSE.toml that can be read, and the faults of the others, or the one
    /// of the whole document. The only error is lack of memory.
    pub fn sift(alloc: Global, text: &str) -> Result<Sifted, AllocError>
        ensures annotations { (r : Reading) → IsRight r
            → IfOk result (λ s. s.annotations ≡ good_annotations r text.now) }
        ensures faults { (r : Reading) → IsRight r → IfOk result (λ s.
            s.faults ≡ annotation_faults r text.now) }
    {
        let table = match table_of(alloc, text)? {
            Ok(table) => table,
            Err(fault) => return none_but(alloc, fault),
        };
        match entries_in(&table) {
            Ok(values) => each_sifted(alloc, values),
            Err(fault) => none_but(alloc, fault),
        }
    }
}
