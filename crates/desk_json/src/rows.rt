//! The rows of answers as JSON.

ghost use Rattle.std.specs.Prelude.{◌≡◌, [], unwrap_or, refl};
ghost use Rattle.desk_json.specs.Integers.{change_has_integers, package_has_integers, terms_have_integers, cheapest_has_integers};
ghost use Rattle.desk_json.specs.Parts.{day_text, duty_row, change_line, totals_row, finding_line, release_line, term_list, package_values, cheapest_row, listed_release, listed_document, open_row, gap_row};

use crate::cells::{Cell, list, texts};
use crate::row::Row;
use desk_base::{Day, Items, Text};
use desk_model::{
    ChangeRow, Cheapest, DocumentLine, DutyLine, Finding, Gap, OpenDuty, PackageLine, ReleaseLine,
    ReleaseRow, Totals,
};
use serde_json::Value;
use std::alloc::{AllocError, Global};

/// The day as it is written, or an empty text if there is none.
fn day_text(day: &Option<Day>) -> &str
    ensures { result.now ≡ day_text day.now }
{
    match day {
        Some(day) => day.as_str(),
        None => "",
    }
}

impl Row for DutyLine {
    ghost json = { duty_row };

    ghost has_integers = { λ row. refl };

    fn value(&self, alloc: Global) -> Result<Value, AllocError> {
        let cells = [
            Cell::Number(u64::from(self.number)),
            Cell::Number(u64::from(self.document)),
            Cell::Text(self.package_id.as_str()),
            Cell::Text(self.term.as_str()),
            Cell::Text(self.rule.as_str()),
            Cell::Text(self.code.as_str()),
            Cell::Text(self.state.name()),
            Cell::Text(day_text(&self.day)),
        ];
        list(alloc, &cells)
    }
}

impl Row for ChangeRow {
    ghost json = { change_line };

    ghost has_integers = { change_has_integers };

    fn value(&self, alloc: Global) -> Result<Value, AllocError> {
        let cells = [
            Cell::Number(u64::from(self.step)),
            Cell::Text(self.day.as_str()),
            Cell::Text(self.word.name()),
            Cell::Text(self.body.as_str()),
            Cell::Text(day_text(&self.last_day)),
        ];
        // Only a waiver that ends has the last one.
        match &self.last_day {
            Some(_) => list(alloc, &cells),
            None => list(alloc, &cells[..4]),
        }
    }
}

impl Row for Totals {
    ghost json = { totals_row };

    ghost has_integers = { λ row. refl };

    fn value(&self, alloc: Global) -> Result<Value, AllocError> {
        let Totals {
            raised,
            still_open,
            met,
            waived,
            withdrawn,
        } = *self;
        let cells = [
            Cell::Number(raised),
            Cell::Number(still_open),
            Cell::Number(met),
            Cell::Number(waived),
            Cell::Number(withdrawn),
        ];
        list(alloc, &cells)
    }
}

impl Row for ReleaseRow {
    ghost json = { release_line };

    ghost has_integers = { λ row. refl };

    fn value(&self, alloc: Global) -> Result<Value, AllocError> {
        let cells = [
            Cell::Text(self.name.as_str()),
            Cell::Text(self.form.as_str()),
            Cell::Text(self.state.name()),
            Cell::Number(self.revision),
        ];
        list(alloc, &cells)
    }
}

impl Row for ReleaseLine {
    ghost json = { listed_release };

    ghost has_integers = { λ row. refl };

    fn value(&self, alloc: Global) -> Result<Value, AllocError> {
        let cells = [
            Cell::Text(self.release.name.as_str()),
            Cell::Text(self.release.form.as_str()),
            Cell::Text(self.release.state.name()),
            Cell::Number(self.release.revision),
            Cell::Number(self.totals.raised),
            Cell::Number(self.totals.still_open),
            Cell::Number(self.totals.met),
            Cell::Number(self.totals.waived),
            Cell::Number(self.totals.withdrawn),
        ];
        list(alloc, &cells)
    }
}

impl Row for DocumentLine {
    ghost json = { listed_document };

    ghost has_integers = { λ row. refl };

    fn value(&self, alloc: Global) -> Result<Value, AllocError> {
        let cells = [
            Cell::Number(u64::from(self.head.number)),
            Cell::Text(self.head.namespace.as_str()),
            Cell::Number(self.head.profile.number()),
            Cell::Number(self.shipped),
        ];
        list(alloc, &cells)
    }
}

impl Row for Gap {
    ghost json = { gap_row };

    ghost has_integers = { λ row. refl };

    fn value(&self, alloc: Global) -> Result<Value, AllocError> {
        let missing = self.kind.name();
        let cells = [
            Cell::Text(missing),
            Cell::Number(u64::from(self.document)),
            Cell::Text(self.subject.as_str()),
        ];
        list(alloc, &cells)
    }
}

impl Row for OpenDuty {
    ghost json = { open_row };

    ghost has_integers = { λ row. refl };

    fn value(&self, alloc: Global) -> Result<Value, AllocError> {
        let cells = [
            Cell::Number(u64::from(self.duty.number)),
            Cell::Text(self.duty.release.as_str()),
            Cell::Number(u64::from(self.duty.document)),
            Cell::Text(self.duty.package_id.as_str()),
            Cell::Text(self.duty.term.as_str()),
            Cell::Text(self.duty.rule.as_str()),
            Cell::Text(self.duty.code.as_str()),
            Cell::Text(day_text(&self.day)),
        ];
        list(alloc, &cells)
    }
}

/// The text, or an empty one if there is none.
fn text_or_empty(text: &Option<Text>) -> &str
    ensures { result.now ≡ unwrap_or text.now [] }
{
    match text {
        Some(text) => text.as_str(),
        None => "",
    }
}

impl Row for PackageLine {
    ghost json = { package_values };

    ghost has_integers = { package_has_integers };

    fn value(&self, alloc: Global) -> Result<Value, AllocError> {
        let cells = [
            Cell::Number(u64::from(self.document)),
            Cell::Text(self.package_id.as_str()),
            Cell::Text(self.name.as_str()),
            Cell::Text(text_or_empty(&self.conclusion)),
            Cell::Texts(self.terms.as_slice()),
        ];
        list(alloc, &cells)
    }
}

impl Row for Finding {
    ghost json = { finding_line };

    ghost has_integers = { λ row. refl };

    fn value(&self, alloc: Global) -> Result<Value, AllocError> {
        let cells = [
            Cell::Number(u64::from(self.line)),
            Cell::Number(u64::from(self.kind.number())),
            Cell::Text(self.kind.name()),
        ];
        list(alloc, &cells)
    }
}

impl Row for Items<Text> {
    ghost json = { term_list };

    ghost has_integers = { terms_have_integers };

    fn value(&self, alloc: Global) -> Result<Value, AllocError> {
        texts(alloc, self.as_slice())
    }
}

impl Row for Cheapest {
    ghost json = { cheapest_row };

    ghost has_integers = { cheapest_has_integers };

    fn value(&self, alloc: Global) -> Result<Value, AllocError> {
        let cells = [Cell::Number(self.cost), Cell::Texts(self.terms.as_slice())];
        list(alloc, &cells)
    }
}
