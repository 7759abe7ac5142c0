//! Catalogues as the desk keeps them: their forms and rules. Texts of licences are for reports.

ghost use Rattle.std.specs.Prelude.{◌≡◌, ℕ, List, Option, IfOk};
ghost use Rattle.desk_catalogue.specs.Reading.{catalogue_of};
ghost use Rattle.desk_catalogue.specs.Terms.{ReadsTerms};
ghost use Rattle.desk_texts.specs.Catalogues.{kept_catalogue};

use desk_catalogue::CatFault;
use desk_model::{Catalogue, CatalogueFault};
use std::alloc::{AllocError, Global};

/// The catalogue that a text is, or its fault.
pub(crate) fn read_catalogue(
    alloc: Global,
    text: &str,
) -> Result<Result<Catalogue, CatalogueFault>, AllocError>
    ensures { (terms : List ℕ → Option (List ℕ)) → ReadsTerms terms
        → IfOk result (λ read. read ≡ kept_catalogue (catalogue_of terms text.now)) }
{
    match desk_catalogue::Catalogue::read(alloc, text) {
        Ok(read) => {
            let desk_catalogue::Catalogue { forms, rules, .. } = read;
            let rules = rules.into_items();
            Ok(Ok(Catalogue { forms, rules }))
        }
        Err(CatFault::Refused(fault)) => Ok(Err(fault)),
        Err(CatFault::Memory(error)) => Err(error),
    }
}
