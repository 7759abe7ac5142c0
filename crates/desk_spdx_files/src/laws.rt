//! The law of idle files, the contract of a function with an empty body: what ships doesn't ship
//! through them.

ghost use Rattle.std.specs.Prelude.{◌≡◌, true, false, codes};
ghost use Rattle.std.specs.Str.{bytes_eq};
ghost use Rattle.serde_json.specs.Data.{Data};
ghost use Rattle.desk_spdx_files.specs.Texts.{items_of};
ghost use Rattle.desk_spdx_files.specs.Files.{IsItem, is_idle, kind_of, left_end, right_end, ships_left, ships_right};

/// No relationship of a document ships on from an idle file or describes one (SPDX 2.3, clause
/// 11.1).
pub fn idle_files_ship_nothing()
    ensures right { (d r : Data) → IsItem r (items_of (codes "relationships") d)
        → is_idle d (left_end r) ≡ true → ships_right (kind_of r) ≡ false }
    ensures left { (d r : Data) → IsItem r (items_of (codes "relationships") d)
        → is_idle d (right_end r) ≡ true → ships_left (kind_of r) ≡ false }
    ensures describes { (d r : Data) → IsItem r (items_of (codes "relationships") d)
        → is_idle d (right_end r) ≡ true → bytes_eq (kind_of r) (codes "DESCRIBES") ≡ false }
    ensures described { (d r : Data) → IsItem r (items_of (codes "relationships") d)
        → is_idle d (left_end r) ≡ true → bytes_eq (kind_of r) (codes "DESCRIBED_BY") ≡ false }
{}
