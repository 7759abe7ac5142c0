//! The desk's limits, each in one place. Definitions don't read these: they have their own
//! (`specs/Limits.antt`), so a limit that is changed only here is refused where it is cited.

/// The bytes of the longest licence expression that is read.
pub const EXPRESSION_BYTES: usize = 16_384;

/// How many parentheses of a licence expression may be open at once.
pub const OPEN_PARENTHESES: usize = 64;

/// How many terms a licence expression may have; each occurrence counts.
pub const EXPRESSION_TERMS: usize = 1_024;

/// The bytes of the longest tag-value document that is read.
pub const DOCUMENT_BYTES: usize = 4_194_304;

/// How many packages, files, snippets and extracted licences a document may have together.
pub const DOCUMENT_ELEMENTS: usize = 10_000;

/// How many distinct terms an expression may have if its minimal sets are listed.
pub const LISTED_TERMS: usize = 128;

/// How many minimal sets the first parts of a node may have in an expression whose minimal sets are
/// listed.
pub const LISTED_SETS: usize = 64;

/// The bytes of the longest catalogue that is read.
pub const CATALOGUE_BYTES: usize = 4_194_304;

/// How many forms a catalogue may list.
pub const FORMS: usize = 16;

/// The bytes of the longest form and of the longest code of a duty.
pub const ID_BYTES: usize = 64;

/// The bytes of the longest title of a duty.
pub const TITLE_BYTES: usize = 256;

/// The highest cost of a term.
pub const TERM_COST: u64 = 1_000_000;

/// How many revisions of the catalogue a desk keeps.
pub const REVISIONS: u64 = 4_096;

/// How many documents a desk keeps.
pub const DOCUMENTS: u64 = 4_096;

/// How many releases a desk keeps.
pub const RELEASES: u64 = 4_096;

/// How many documents a release may have.
pub const ATTACHED: u64 = 64;

/// The bytes of the longest name of a release.
pub const NAME_BYTES: usize = 64;

/// How many references of a document may be adopted.
pub const ADOPTIONS: u64 = 10_000;

/// How many duties a desk keeps.
pub const DUTIES: u64 = 100_000;

/// How many changes a duty has at most before it is withdrawn.
pub const CHANGES: u64 = 999;

/// The bytes of the longest text of a change.
pub const NOTE_BYTES: usize = 1_024;

/// The largest number in a request.
pub const NUMBER: u64 = 9_223_372_036_854_775_807;

/// The bytes of the longest line of a script that may be a request, without its line end.
pub const LINE_BYTES: usize = 8_388_608;

/// How often a script reads.
pub const SCRIPT_READS: u32 = 1_048_576;

/// How many bytes of an input file are read. Documents and catalogues have far fewer, so what was
/// read of a longer file is enough to refuse it for its size.
pub const INPUT_BYTES: usize = 67_108_864;

/// How many files a source tree may have if something is to be gathered from it.
pub const TREE_FILES: usize = 10_000;
