//! The fixed texts of a page.

ghost use Rattle.std.specs.Prelude.{◌≡◌};
ghost use Rattle.desk_page.specs.Fixed.{columns, contents, notices_start, opening, page_end, page_start, section_end, style, table_end};

/// The tables of a page, in their order.
#[derive(Clone, Copy)]
pub(crate) enum Table {
    Totals,
    Packages,
    Licences,
    Duties,
    Waivers,
    Changes,
}

/// A page up to its title.
#[tactic(auto, unfolding(crate::specs::Fixed::page_start))]
pub(crate) fn page_start() -> &'static str
    ensures { result.now ≡ page_start }
{
    "<!DOCTYPE html>\n<html lang=\"en\">\n<head>\n<meta charset=\"utf-8\">\n\
     <meta name=\"viewport\" content=\"width=device-width, \
     initial-scale=1\">\n<title>Release "
}

/// How a page looks on a screen, light or dark, and on paper: from the title to the page's own
/// text.
#[tactic(auto, unfolding(crate::specs::Fixed::style))]
pub(crate) fn style() -> &'static str
    ensures { result.now ≡ style }
{
    "</title>\n<style>\n\
     :root{color-scheme:light \
     dark;--ink:#1d1d1f;--soft:#5c6168;--line:#d5d8dc;--paper:#fff}\n\
     :root{--accent:#2b6a99}\n@media screen and (prefers-color-scheme:dark){\n\
     :root{--ink:#e6e7e9;--soft:#a1a6ad;--line:#3b3f45;--paper:#16181b;--accent:#7db3dc}}\n\
     body{margin:0;background:var(--paper);color:var(--ink);font:16px/1.5 \
     system-ui,sans-serif}\nmain{max-width:62rem;margin:0 auto;padding:2.5rem 1.25rem 4rem}\n\
     h1,h2,h3{font-weight:600;line-height:1.25;overflow-wrap:anywhere}\n\
     h1{font-size:1.8rem;margin:0 0 .25rem}\nh2{font-size:1.2rem;margin:3rem 0 .25rem}\n\
     h3{font-size:1rem;margin:2rem 0 .5rem}\n\
     p{margin:0 0 .75rem;max-width:44rem;color:var(--soft)}\n\
     nav ul{display:flex;flex-wrap:wrap;gap:.25rem 1.25rem;margin:1rem 0 \
     0;padding:0;list-style:none}\na{color:var(--accent)}\n\
     table{width:100%;border-collapse:collapse;font-size:.9rem}\n\
     th,td{padding:.4rem 1rem .4rem 0;border-bottom:1px solid var(--line);text-align:left}\n\
     th,td{vertical-align:top;overflow-wrap:anywhere}\n\
     th:last-child,td:last-child{padding-right:0}\n\
     thead th{color:var(--soft);font-weight:500;overflow-wrap:normal}\n\
     .number{text-align:right;font-variant-numeric:tabular-nums}\n\
     .lines{white-space:pre-line}\n\
     #duties td:nth-child(n+6),#waivers td:nth-child(4),#changes \
     td:nth-child(-n+4){white-space:nowrap}\n\
     svg{display:block;width:100%;min-width:4rem;max-width:10rem;height:.75rem;\
     margin-top:.3rem}\nsvg{box-sizing:border-box;border:1px solid var(--line)}\n\
     rect{fill:var(--accent)}\n\
     pre{margin:0;font:.8rem/1.5 \
     ui-monospace,monospace;white-space:pre-wrap;overflow-wrap:anywhere}\n\
     @page{size:A4;margin:18mm 15mm}\n@media print{\n:root{color-scheme:light}\n\
     body{font-size:10pt}\nmain{max-width:none;padding:0}\nnav{display:none}\n\
     a{color:inherit;text-decoration:none}\nthead{display:table-header-group}\n\
     tr,h1,h2,h3{break-inside:avoid}\nh1,h2,h3,h2+p{break-after:avoid}\n\
     #notices{break-before:page}}\n</style>\n</head>\n<body>\n<main>\n"
}

/// The contents, after the form.
#[tactic(auto, unfolding(crate::specs::Fixed::contents))]
pub(crate) fn contents() -> &'static str
    ensures { result.now ≡ contents }
{
    ".</p>\n<nav aria-label=\"Contents\">\n<ul>\n<li><a href=\"#totals\">Totals</a></li>\n\
     <li><a href=\"#packages\">Packages</a></li>\n\
     <li><a href=\"#licences\">Licences</a></li>\n<li><a href=\"#duties\">Duties</a></li>\n\
     <li><a href=\"#waivers\">Waivers that end</a></li>\n\
     <li><a href=\"#changes\">Changes</a></li>\n<li><a href=\"#notices\">Notices</a></li>\n\
     </ul>\n</nav>\n"
}

/// The heading of the notices.
#[tactic(auto, unfolding(crate::specs::Fixed::notices_start))]
pub(crate) fn notices_start() -> &'static str
    ensures { result.now ≡ notices_start }
{
    "<section id=\"notices\">\n<h2>Notices</h2>\n\
     <p>The texts of the licences, to be handed on with the release.</p>\n"
}

/// The end of a table.
#[tactic(auto, unfolding(crate::specs::Fixed::table_end))]
pub(crate) fn table_end() -> &'static str
    ensures { result.now ≡ table_end }
{
    "</tbody>\n</table>\n"
}

/// The end of a section.
#[tactic(auto, unfolding(crate::specs::Fixed::section_end))]
pub(crate) fn section_end() -> &'static str
    ensures { result.now ≡ section_end }
{
    "</section>\n"
}

/// The end of a page, after the notices.
#[tactic(auto, unfolding(crate::specs::Fixed::page_end))]
pub(crate) fn page_end() -> &'static str
    ensures { result.now ≡ page_end }
{
    "</section>\n</main>\n</body>\n</html>\n"
}

/// The heading of a table, and what it shows.
#[tactic(auto, unfolding(crate::specs::Fixed::opening))]
pub(crate) fn opening(table: Table) -> &'static str
    ensures { result.now ≡ opening table }
{
    match table {
        Table::Totals => {
            "<section id=\"totals\">\n<h2>Totals</h2>\n\
             <p>How many duties were raised at the freeze, and how many are in which \
             state now.</p>\n"
        }
        Table::Packages => {
            "<section id=\"packages\">\n<h2>Packages</h2>\n\
             <p>What ships, with the licences that were chosen for each package.</p>\n"
        }
        Table::Licences => {
            "<section id=\"licences\">\n<h2>Duties by licence</h2>\n\
             <p>The bar shows the share that is open.</p>\n"
        }
        Table::Duties => {
            "<section id=\"duties\">\n<h2>Duties</h2>\n\
             <p>What is owed for each package, and in which state it is.</p>\n"
        }
        Table::Waivers => {
            "<section id=\"waivers\">\n<h2>Waivers that end</h2>\n\
             <p>After the last day the duty is owed again.</p>\n"
        }
        Table::Changes => {
            "<section id=\"changes\">\n<h2>Changes</h2>\n\
             <p>What was recorded for each duty, from the freeze on.</p>\n"
        }
    }
}

/// The names of a table's columns.
#[tactic(auto, unfolding(crate::specs::Fixed::columns))]
pub(crate) fn columns(table: Table) -> &'static str
    ensures { result.now ≡ columns table }
{
    match table {
        Table::Totals => {
            "<table>\n<thead><tr><th scope=\"col\">State</th>\
             <th scope=\"col\" class=\"number\">Duties</th><th scope=\"col\">Share</th>\
             </tr></thead>\n<tbody>\n"
        }
        Table::Packages => {
            "<table>\n<thead><tr><th scope=\"col\">Package</th><th scope=\"col\">Version</th>\
             <th scope=\"col\">Licences</th><th scope=\"col\">Copyright</th>\
             </tr></thead>\n<tbody>\n"
        }
        Table::Licences => {
            "<table>\n<thead><tr><th scope=\"col\">Licence</th>\
             <th scope=\"col\" class=\"number\">Raised</th>\
             <th scope=\"col\" class=\"number\">Met</th>\
             <th scope=\"col\" class=\"number\">Waived</th>\
             <th scope=\"col\" class=\"number\">Withdrawn</th>\
             <th scope=\"col\" class=\"number\">Open</th><th scope=\"col\">Share</th>\
             </tr></thead>\n<tbody>\n"
        }
        Table::Duties => {
            "<table>\n<thead><tr><th scope=\"col\">Duty</th>\
             <th scope=\"col\" class=\"number\">Document</th><th scope=\"col\">Package</th>\
             <th scope=\"col\">Licence</th><th scope=\"col\">Owed</th>\
             <th scope=\"col\">State</th><th scope=\"col\">Since</th></tr></thead>\n<tbody>\n"
        }
        Table::Waivers => {
            "<table>\n<thead><tr><th scope=\"col\">Duty</th><th scope=\"col\">Licence</th>\
             <th scope=\"col\">Owed</th><th scope=\"col\">Last day</th>\
             <th scope=\"col\">Reason</th></tr></thead>\n<tbody>\n"
        }
        Table::Changes => {
            "<table>\n<thead><tr><th scope=\"col\">Duty</th><th scope=\"col\">Day</th>\
             <th scope=\"col\">Change</th><th scope=\"col\">Until</th>\
             <th scope=\"col\">Text</th></tr></thead>\n<tbody>\n"
        }
    }
}
