//! Compares a row with what is stored for an item of a text.

ghost use Rattle.std.specs.Prelude.{◌≡◌, ◌++◌, ◌∷◌, Some};
ghost use Rattle.std.specs.Bool.{Decides};
ghost use Rattle.std.specs.List.{flat_map, join_with_byte};
ghost use Rattle.std.specs.Option.{option_copied};
ghost use Rattle.desk_audit_texts.specs.Left.{IsLeft};
ghost use Rattle.desk_snapshot.specs.Conditions.{stored_extracted, stored_package, stored_rule};

use crate::left::Stored;
use desk_base::Text;
use desk_model::{Package, Reference, Rule};
use desk_snapshot::{StoredExtracted, StoredPackage, StoredRule};

/// What follows a blank and a code, if a text begins with these.
fn behind_code<'a>(text: &'a [u8], code: &Text) -> Option<&'a [u8]>
    ensures { IsLeft text.now (32 ∷ code.now) (option_copied result) }
{
    text.strip_prefix(b" ")?
        .strip_prefix(code.as_str().as_bytes())
}

/// Whether a text is codes, each with a blank before it.
fn are_codes(text: &[u8], codes: &[Text]) -> bool
    ensures { Decides result (text.now ≡ flat_map (λ code. 32 ∷ code) codes.now) }
{
    let mut rest = text;
    for code in codes {
        let Some(behind) = behind_code(rest, code) else {
            return false;
        };
        rest = behind;
    }
    rest.is_empty()
}

/// Whether a text is codes, joined by one blank.
fn are_joined(text: &[u8], codes: &[Text]) -> bool
    ensures { Decides result (text.now ≡ join_with_byte 32 codes.now) }
{
    let Some((first, more)) = codes.split_first() else {
        return text.is_empty();
    };
    match text.strip_prefix(first.as_str().as_bytes()) {
        Some(rest) => are_codes(rest, more),
        None => false,
    }
}

impl Stored for StoredRule {
    type Read = Rule;

    ghost stored = { stored_rule };

    fn is_of(&self, revision: i64, rule: &Rule) -> bool {
        self.revision == revision
            && self.term == rule.term
            && self.form == rule.form
            && self.spelled == rule.spelled
            && are_joined(self.codes.as_str().as_bytes(), rule.codes.as_slice())
    }
}

impl Stored for StoredPackage {
    type Read = Package;

    ghost stored = { stored_package };

    fn is_of(&self, document: i64, package: &Package) -> bool {
        self.document == document
            && self.id == package.id
            && self.name == package.name
            && self.version == package.version
            && self.concluded == package.concluded
            && self.copyright == package.copyright
            && self.shipped == i64::from(package.shipped)
    }
}

impl Stored for StoredExtracted {
    type Read = Reference;

    ghost stored = { stored_extracted };

    fn is_of(&self, document: i64, reference: &Reference) -> bool {
        self.document == document && self.reference == reference.id && self.body == reference.body
    }
}
