//! What is kept of a catalogue.

use crate::ordered::OrderedRules;
use desk_base::{Items, Text};

/// The text of a licence or of an exception.
#[derive(Drop)]
pub struct LicenceText {
    /// The id, as the catalogue spells it.
    pub licence: Text,
    /// The text itself.
    pub body: Text,
}

/// A catalogue: no form, no term with a form and no licence of a text is in it twice.
#[derive(Drop)]
pub struct Catalogue {
    /// The forms, in their order.
    pub forms: Items<Text>,
    /// The rules, sorted by term and form.
    pub rules: OrderedRules,
    /// The texts, in their order.
    pub texts: Items<LicenceText>,
}
