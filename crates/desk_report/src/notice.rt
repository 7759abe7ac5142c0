//! The notices of a release as a text.

ghost use Rattle.std.specs.Prelude.{◌≡◌, ◌++◌, [], IfOk, OnOk};
ghost use Rattle.std.specs.List.{flat_map};
ghost use Rattle.std.specs.String.{string_bytes};
ghost use Rattle.desk_report.specs.Terminal.{lines_shown};
ghost use Rattle.desk_report.specs.Notices.{framed, heading, name_line, rule_line, copyright_line, package_notice, ended, body_text, text_notice, notices_text};

use crate::terminal::lines_shown;
use desk_base::Text;
use desk_model::{Bill, BillLine, BillText};
use std::alloc::{AllocError, Global};

// Adds a value between words.
#[tactic(auto, unfolding(crate::specs::Notices::framed))]
fn add_framed(text: &mut String, before: &str, value: &Text, after: &str) -> Result<(), AllocError>
    ensures { OnOk result (string_bytes text.new
        ≡ string_bytes text.old ++ framed before.now value.now after.now) }
{
    text.push_str(before)?;
    text.push_str(value.as_str())?;
    text.push_str(after)
}

// Adds the line of the release and the form in which it ships.
fn add_heading(text: &mut String, bill: &Bill) -> Result<(), AllocError>
    ensures { OnOk result (string_bytes text.new ≡ string_bytes text.old ++ heading bill.now) }
{
    add_framed(text, "Notices for ", &bill.release, " ")?;
    add_framed(text, "(", &bill.form, ")\n")
}

// Adds the line of a package's name and version.
#[tactic(auto, unfolding(crate::specs::Notices::name_line))]
fn add_name(text: &mut String, line: &BillLine) -> Result<(), AllocError>
    ensures { OnOk result (string_bytes text.new ≡ string_bytes text.old ++ name_line line.now) }
{
    text.push_str(line.name.as_str())?;
    if let Some(version) = &line.version {
        text.push_str(" ")?;
        text.push_str(version.as_str())?;
    }
    text.push_str("\n")
}

// Adds a line for each rule.
fn add_rules(text: &mut String, rules: &[Text]) -> Result<(), AllocError>
    ensures { OnOk result (string_bytes text.new ≡ string_bytes text.old ++ flat_map rule_line rules.now) }
{
    for rule in rules {
        add_framed(text, "Licence: ", rule, "\n")?;
    }
    Ok(())
}

// Adds the line of a package's copyright.
#[tactic(auto, unfolding(crate::specs::Notices::copyright_line, crate::specs::Notices::framed))]
fn add_copyright(text: &mut String, copyright: &Option<Text>) -> Result<(), AllocError>
    ensures { OnOk result (string_bytes text.new ≡ string_bytes text.old ++ copyright_line copyright.now) }
{
    match copyright {
        Some(given) => add_framed(text, "Copyright: ", given, "\n"),
        None => text.push_str("Copyright: none given\n"),
    }
}

// Adds the notice of a package.
#[tactic(auto, unfolding(crate::specs::Notices::package_notice))]
fn add_package(text: &mut String, line: &BillLine) -> Result<(), AllocError>
    ensures { OnOk result (string_bytes text.new ≡ string_bytes text.old ++ package_notice line.now) }
{
    text.push_str("\n")?;
    add_name(text, line)?;
    add_rules(text, line.rules.as_slice())?;
    add_copyright(text, &line.copyright)
}

// Adds the notice of each package.
fn add_packages(text: &mut String, lines: &[BillLine]) -> Result<(), AllocError>
    ensures { OnOk result (string_bytes text.new ≡ string_bytes text.old ++ flat_map package_notice lines.now) }
{
    for line in lines {
        add_package(text, line)?;
    }
    Ok(())
}

// Adds a body, and a line feed if it does not end with one.
fn add_ended(text: &mut String, body: &str) -> Result<(), AllocError>
    ensures { OnOk result (string_bytes text.new ≡ string_bytes text.old ++ ended body.now) }
{
    text.push_str(body)?;
    if body.as_bytes().ends_with(b"\n") {
        Ok(())
    } else {
        text.push_str("\n")
    }
}

// Adds the body of a text, if one is recorded.
fn add_body(text: &mut String, body: &Option<Text>) -> Result<(), AllocError>
    ensures { OnOk result (string_bytes text.new ≡ string_bytes text.old ++ body_text body.now) }
{
    match body {
        Some(body) => add_ended(text, body.as_str()),
        None => text.push_str("No text recorded.\n"),
    }
}

// Adds a text after its title.
fn add_text(text: &mut String, given: &BillText) -> Result<(), AllocError>
    ensures { OnOk result (string_bytes text.new ≡ string_bytes text.old ++ text_notice given.now) }
{
    add_framed(text, "\n---- ", &given.title, " ----\n")?;
    add_body(text, &given.body)
}

// Adds each text.
fn add_texts(text: &mut String, texts: &[BillText]) -> Result<(), AllocError>
    ensures { OnOk result (string_bytes text.new ≡ string_bytes text.old ++ flat_map text_notice texts.now) }
{
    for given in texts {
        add_text(text, given)?;
    }
    Ok(())
}

// About how many bytes a value takes, with the words around it.
fn room_of(value: &Option<Text>) -> usize {
    match value {
        Some(text) => text.as_str().len().saturating_add(16),
        None => 32,
    }
}

// About how many bytes a package takes.
fn package_room(package: &BillLine) -> usize {
    let mut room = package.name.as_str().len();
    for rule in package.rules.as_slice() {
        room = room.saturating_add(rule.as_str().len()).saturating_add(16);
    }
    room.saturating_add(room_of(&package.version))
        .saturating_add(room_of(&package.copyright))
}

// About how many bytes the packages take.
fn packages_room(packages: &[BillLine]) -> usize {
    let mut room = 0usize;
    for package in packages {
        room = room.saturating_add(package_room(package));
    }
    room
}

// About how many bytes the texts take.
fn texts_room(texts: &[BillText]) -> usize {
    let mut room = 0usize;
    for text in texts {
        room = room
            .saturating_add(text.title.as_str().len())
            .saturating_add(room_of(&text.body));
    }
    room
}

// An empty text with room for about all that a bill needs, so that it is seldom moved as it grows.
fn with_room(alloc: Global, bill: &Bill) -> Result<String, AllocError>
    ensures { IfOk result (λ text. string_bytes text ≡ []) }
{
    let packages = packages_room(bill.lines.as_slice());
    let texts = texts_room(bill.texts.as_slice());
    String::with_capacity(alloc, packages.saturating_add(texts))
}

fn notices_of(alloc: Global, bill: &Bill) -> Result<String, AllocError>
    ensures { IfOk result (λ text. string_bytes text ≡ notices_text bill.now) }
{
    let mut text = with_room(alloc, bill)?;
    add_heading(&mut text, bill)?;
    add_packages(&mut text, bill.lines.as_slice())?;
    add_texts(&mut text, bill.texts.as_slice())?;
    Ok(text)
}

/// The notices of a frozen release. `Notices for RELEASE (FORM)`; then for each package, after an
/// empty line, its name and its version, `Licence: RULE` for each rule of its terms and
/// `Copyright: ` with its copyright, or `none given`; then for each text, after an empty line,
/// `---- TITLE ----` and its body, or `No text recorded.`. Each line is ended by LF, including the
/// last one of a body.
pub fn notices(alloc: Global, bill: &Bill) -> Result<Vec<u8>, AllocError>
    ensures { IfOk result (λ text. text.items ≡ notices_text bill.now) }
{
    Ok(notices_of(alloc, bill)?.into_bytes())
}

/// The same as a terminal shows it, line by line.
pub fn notices_shown(alloc: Global, bill: &Bill) -> Result<Vec<u8>, AllocError>
    ensures { IfOk result (λ text. text.items ≡ lines_shown (notices_text bill.now)) }
{
    let text = notices_of(alloc, bill)?;
    lines_shown(alloc, text.as_str())
}
