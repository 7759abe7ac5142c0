//! What is found in a catalogue.

ghost use Rattle.std.specs.Prelude.{◌≡◌, option_map};
ghost use Rattle.desk_catalogue.specs.Kept.{is_text_of};
ghost use Rattle.desk_catalogue.specs.Lookup.{codes_for, spelled_for, has_form, text_for, body_for, title_for};

use crate::catalogue::{Catalogue, LicenceText};
use crate::order::is_kept;
use desk_base::Text;
use desk_expr::Term;

// Whether a text is that of an id, ignoring case.
fn is_text_of(text: &LicenceText, id: &str) -> bool
    ensures { result ≡ is_text_of id.now text.now }
{
    text.licence.as_str().eq_ignore_ascii_case(id)
}

impl Catalogue {
    /// The codes that a term owes in a form, or none if the catalogue has no rule for the two.
    pub fn rule(&self, term: &Term, form: &str) -> Option<&[Text]>
        ensures { option_map (λ codes. codes.now) result ≡ codes_for self.now term.now form.now }
    {
        match self.rules.find(term, form) {
            Some(found) => Some(found.codes.as_slice()),
            None => None,
        }
    }

    /// The catalogue's own spelling of a term in the rule for a form.
    pub fn spelled(&self, term: &Term, form: &str) -> Option<&str>
        ensures { option_map (λ text. text.now) result ≡ spelled_for self.now term.now form.now }
    {
        match self.rules.find(term, form) {
            Some(found) => Some(found.spelled.as_str()),
            None => None,
        }
    }

    /// Whether the catalogue lists a form.
    pub fn has_form(&self, form: &str) -> bool
        ensures { result ≡ has_form self.now form.now }
    {
        is_kept(self.forms.as_slice(), form)
    }

    /// The text of a licence or an exception, by its id, ignoring case (SPDX 2.3, Annex D.2), with
    /// the catalogue's own spelling of the id.
    pub fn text(&self, id: &str) -> Option<&LicenceText>
        ensures { option_map (λ text. text.now) result ≡ text_for self.now id.now }
    {
        for text in self.texts.as_slice() {
            if is_text_of(text, id) {
                return Some(text);
            }
        }
        None
    }

    /// The body of that text.
    pub fn body(&self, id: &str) -> Option<&str>
        ensures { option_map (λ text. text.now) result ≡ body_for self.now id.now }
    {
        match self.text(id) {
            Some(found) => Some(found.body.as_str()),
            None => None,
        }
    }

    /// The catalogue's own spelling of its id.
    pub fn title(&self, id: &str) -> Option<&str>
        ensures { option_map (λ text. text.now) result ≡ title_for self.now id.now }
    {
        match self.text(id) {
            Some(found) => Some(found.licence.as_str()),
            None => None,
        }
    }
}
