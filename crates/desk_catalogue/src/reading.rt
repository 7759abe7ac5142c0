//! Reads a text as a catalogue.

ghost use Rattle.std.specs.Prelude.{◌≡◌, ℕ, List, Option, Ok, IfOk};
ghost use Rattle.toml.specs.View.{table_view};
ghost use Rattle.desk_catalogue.specs.Terms.{ReadsTerms};
ghost use Rattle.desk_catalogue.specs.Reading.{catalogue_of_table, catalogue_of};
ghost use Rattle.desk_catalogue.specs.Shown.{IsRead};

use crate::catalogue::Catalogue;
use crate::duties::duties_of;
use crate::fault::CatFault;
use crate::forms::forms_of;
use crate::order::rules_in;
use crate::rules::{Known, rules_of};
use crate::texts::texts_of;
use desk_base::limits;
use desk_model::CatalogueFault;
use std::alloc::{AllocError, Global};
use toml::Table;

// The catalogue of a table, or the first fault. The table's texts are taken.
fn catalogue_of_table(
    alloc: Global,
    table: &mut Table,
) -> Result<Result<Catalogue, CatalogueFault>, AllocError>
    ensures { (terms : List ℕ → Option (List ℕ)) → ReadsTerms terms
        → IfOk result (λ read. read ≡ catalogue_of_table terms (table_view table.old)) }
{
    let forms = match forms_of(alloc, table)? {
        Ok(forms) => forms,
        Err(fault) => return Ok(Err(fault)),
    };
    let duties = match duties_of(alloc, table)? {
        Ok(duties) => duties,
        Err(fault) => return Ok(Err(fault)),
    };
    let known = Known { forms, duties };
    let rules = match rules_of(alloc, &known, table)? {
        Ok(rules) => rules,
        Err(fault) => return Ok(Err(fault)),
    };
    let rules = rules_in(alloc, rules)?;
    let forms = known.into_forms();
    let texts = match texts_of(alloc, table)? {
        Ok(texts) => texts,
        Err(fault) => return Ok(Err(fault)),
    };
    Ok(Ok(Catalogue {
        forms,
        rules,
        texts,
    }))
}

impl Catalogue {
    /// The catalogue that a text is, or its first fault.
    ///
    /// For each function that gives the terms that texts spell, the result is that of
    /// `catalogue_of`; `CatFault::Memory` is lack of memory and nothing else.
    pub fn read(alloc: Global, text: &str) -> Result<Catalogue, CatFault>
        ensures { (terms : List ℕ → Option (List ℕ)) → ReadsTerms terms
            → IsRead (catalogue_of terms text.now) result }
    {
        if text.len() > limits::CATALOGUE_BYTES {
            return Err(CatFault::Refused(CatalogueFault::TooLarge));
        }
        let mut table = match toml::table_from_str(alloc, text) {
            Ok(table) => table,
            Err(error) => {
                if error.is_memory() {
                    return Err(CatFault::Memory(AllocError));
                }
                return Err(CatFault::Refused(CatalogueFault::NotToml));
            }
        };
        match catalogue_of_table(alloc, &mut table) {
            Ok(Ok(catalogue)) => Ok(catalogue),
            Ok(Err(fault)) => Err(CatFault::Refused(fault)),
            Err(error) => Err(CatFault::Memory(error)),
        }
    }
}
