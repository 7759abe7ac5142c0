//! Laws of credits.

ghost use Rattle.std.specs.Prelude.{◌≡◌, ◌≤◌, ◌∷◌, ℕ, List, [], None, Ok, Some, codes, length, true};
ghost use Rattle.std.specs.Str.{is_utf8};
ghost use Rattle.desk_fill.specs.Reading.{fill_of, most_bytes};
ghost use Rattle.desk_fill.specs.Values.{says_something};
ghost use Rattle.desk_fill.specs.declared.fill.Credit.{Credit};
ghost use Rattle.desk_credits.specs.declared.notice.Notice.{Notice};
ghost use Rattle.desk_credits.specs.Finding.{FindsIn, found_notice, place_of};
ghost use Rattle.desk_credits.specs.Patterns.{notice_in};
ghost use Rattle.desk_credits.specs.Written.{IsCreditFile};

/// A notice needs the start of a comment before it; the end of the comment and blanks don't belong
/// to it; the word alone is none, nor are words that only begin like it; a tag is left to the tags.
/// Of a file, each line is looked at.
pub fn patterns_are_these()
    ensures word { notice_in (codes "// Copyright 2024 Firm") ≡ Some (codes "Copyright 2024 Firm") }
    ensures mark { notice_in (codes "\t/* (c) Firm */ ") ≡ Some (codes "(c) Firm") }
    ensures bare { notice_in (codes "Copyright 2024 Firm") ≡ None }
    ensures alone { notice_in (codes "# Copyright ") ≡ None }
    ensures other { notice_in (codes "# Copyrights are reserved") ≡ None }
    ensures tag { notice_in (codes "# Copyright SPDX-FileCopyrightText: Firm") ≡ None }
    ensures file { (path : List ℕ) (found : List Notice)
        → FindsIn path (codes "// Copyright 2024 Firm\nCopyright 2025 Other\n") found
        → found ≡ found_notice (place_of path 1) (codes "Copyright 2024 Firm") ∷ [] }
{}

/// The file that is written for a credit is read back as exactly this credit.
pub fn written_credits_are_read()
    ensures { (notices : List Notice) (credit : Credit) (file : List ℕ)
        → IsCreditFile notices credit file → says_something credit.text ≡ true
        → length file ≤ most_bytes → is_utf8 file ≡ true
        → fill_of file ≡ Ok (record { texts = []; credits = credit ∷ [] }) }
{}
